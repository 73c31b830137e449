// The fields of a slip, read at their places.
#![tactic(auto)]

ghost use Rattle.std.specs.Prelude.{◌≡◌, [], ◌+◌, ◌*◌, ◌≤◌, length, drop};
ghost use Rattle.tags.specs.Fields.{count_size, is_slip_from, most_of};
ghost use Rattle.tags.specs.Inner.{longest_field, ReadsTag};

use text::{every, is_printable};

// The tags that are not like the others: the control number's value is shorter, the placer's number may be left out, the count is no text.
// Kept as numbers: they are the bytes that stand in a slip.
pub const CONTROL_TAG: u8 = 1;

const PLACER_TAG: u8 = 3;

pub const COUNT_TAG: u8 = 6;

// Bytes of a tag and a length, which stand before every value; and of the count with them.
pub const HEAD_SIZE: usize = 3;

pub const COUNT_SIZE: usize = 5;

// The greatest length of the control number, of any other text, and the greatest count.
const LONGEST_CONTROL: usize = 20;

const LONGEST_TEXT: usize = 199;

const GREATEST_COUNT: usize = 509;

// The greatest length of a tag's value.
fn most(tag: u8) -> usize
    ensures { result ≡ most_of tag }
{
    if tag == CONTROL_TAG {
        LONGEST_CONTROL
    } else {
        LONGEST_TEXT
    }
}

// The number in two bytes, high byte first.
fn from_two_bytes(high: u8, low: u8) -> usize
    ensures { result ≡ high * 256 + low }
{
    usize::from(u16::from_be_bytes([high, low]))
}

// Where the field of tag 1 to 5 at a place of the slip ends; none where it is bad. Only tag 3 may be left out.
pub fn read_tag(s: &[u8], at: usize, tag: u8) -> Option<usize>
    requires { at + longest_field ≤ length s.now }
    ensures { ReadsTag s.now at tag result }
{
    if s[at] != tag {
        if tag == PLACER_TAG {
            return Some(at);
        }
        return None;
    }
    let n = from_two_bytes(s[at + 1], s[at + 2]);
    if !((1 <= n) & (n <= most(tag))) {
        return None;
    }
    let start = at + HEAD_SIZE;
    let end = start + n;
    if !every(&s[start..end], |b| is_printable(b)) {
        return None;
    }
    Some(end)
}

// The count in its two bytes, then zeros.
pub fn ends_well(s: &[u8], at: usize) -> bool
    requires { at + count_size ≤ length s.now }
    ensures { result ≡ is_slip_from [] (drop at s.now) }
{
    let size = from_two_bytes(s[at + 1], s[at + 2]);
    let count = from_two_bytes(s[at + 3], s[at + 4]);
    (s[at] == COUNT_TAG)
        & (size == 2)
        & (count <= GREATEST_COUNT)
        & every(&s[at + COUNT_SIZE..], |b| b == 0)
}
