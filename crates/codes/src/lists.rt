// The lists of codes, which stand in a table by themselves. Inner: the callers hold that they are 01's.
ghost use Rattle.std.specs.Prelude.{◌≡◌, true, ◌≤◌, length};
ghost use Rattle.text.specs.Bytes.{same, is_one, within};
ghost use Rattle.profile.specs.Numbers.{is_in_list};
ghost use Rattle.profile.specs.Codes.{codes_from, are_codes, AreLists};
ghost use Rattle.codes.specs.Inner.{AreListed};

use profile::{columns, numbers};
use text::Span;

// The codes of the list with that number: none where there is no such list.
pub fn list_codes(lists: &[u16], n: u16) -> Span
    requires { AreLists lists.now }
    ensures { AreListed lists.now n result }
{
    if (n == numbers::ANY) | (lists[0] < n) {
        return Span { start: 0, end: 0 };
    }
    let i = n as usize;
    Span {
        start: lists[i] as usize,
        end: lists[i + 1] as usize,
    }
}

// Whether the numbers that follow the first of a code are these bytes.
fn follows(rest: &[u16], s: &[u8]) -> bool
    requires { length rest.now ≡ length s.now }
    ensures { result ≡ same s.now rest.now }
{
    rest.iter().zip(s).all(|(code, byte)| *code == *byte as u16)
}

// Whether a text is one of the codes that stand from one place up to another. A code's first number tells its first byte and its length at once.
pub fn is_one_of(codes: &[u16], start: usize, end: usize, s: &[u8]) -> bool
    requires { (end ≤ length codes.now) × (are_codes (within start end codes.now) ≡ true) }
    ensures { result ≡ is_one s.now (codes_from (within start end codes.now)) }
{
    if (s.len() == 0) | (columns::LONGEST_CODE < s.len()) {
        return false;
    }
    let first = (s.len() - 1) * 256 + s[0] as usize;
    let mut left = codes.get(start..end).unwrap_or(&[]);
    while let Some((number, rest)) = left.split_first() {
        let number = *number as usize;
        let (code, others) = rest.split_at(number / 256);
        if number == first && follows(code, &s[1..]) {
            return true;
        }
        left = others;
    }
    false
}

// Whether a text is in the list with that number; list 0 takes any text.
pub fn is_in_list(lists: &[u16], n: u16, s: &[u8]) -> bool
    requires { AreLists lists.now }
    ensures { result ≡ is_in_list n s.now }
{
    if n == numbers::ANY {
        return true;
    }
    let list = list_codes(lists, n);
    is_one_of(lists, list.start, list.end, s)
}
