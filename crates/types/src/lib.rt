// Texts of the simple types, stamps and reply numbers; which days there are.
#![tactic(auto)]

mod day;

ghost use Rattle.std.specs.Prelude.{◌&&◌, ◌||◌, ◌≡◌, ◌≤◌, length};
ghost use Rattle.types.specs.Types.{behind_point, digits, is_dtm, is_decimals, is_fraction, is_nm, is_reply_number, is_si, is_stamp, is_tm, is_unsigned, is_zone, sign};
ghost use Rattle.text.specs.Ranges.{◌to◌};
ghost use Rattle.types.specs.Inner.{BehindTwo, ranges_of, twos_length};

pub use day::day_exists;
use text::{every, is_capital_or_digit, is_digit};

// Low and high of month, day, hour, minute and second; those of the clock are the last three.
const CALENDAR: [(u8, u8); 5] = [(1, 12), (1, 31), (0, 23), (0, 59), (0, 59)];

// How many digits a stamp has, and the greatest length of a reply number.
const STAMP_SIZE: usize = 14;

const MOST_REPLY_NUMBER: usize = 20;

// Low and high of a zone's hour and minute.
const ZONE: [(u8, u8); 2] = [(0, 14), (0, 59)];

fn is_sign(b: u8) -> bool
    ensures { result ≡ sign b }
{
    (b == b'+') | (b == b'-')
}

// How many digits the text begins with.
fn digits_len(t: &[u8]) -> usize
    ensures { (result ≡ length (digits t.now)) × (result ≤ length t.now) }
{
    t.iter().take_while(|b| is_digit(**b)).count()
}

pub fn is_si(t: &[u8]) -> bool
    ensures { result ≡ is_si t.now }
{
    every(t, |b| is_digit(b))
}

// What stands after the point that the text begins with: no bytes where it begins with none.
fn behind_point<'a>(t: &'a [u8]) -> &'a [u8]
    ensures { result.now ≡ behind_point t.now }
{
    match t {
        [b'.', after @ ..] => after,
        _ => &[],
    }
}

fn is_decimals(t: &[u8]) -> bool
    ensures { result ≡ is_decimals t.now }
{
    let after = behind_point(t);
    let n = digits_len(after);
    (0 < n) & (n == after.len())
}

fn is_unsigned(t: &[u8]) -> bool
    ensures { result ≡ is_unsigned t.now }
{
    let n = digits_len(t);
    if n == 0 {
        return false;
    }
    (n == t.len()) | is_decimals(&t[n..])
}

pub fn is_nm(t: &[u8]) -> bool
    ensures { result ≡ is_nm t.now }
{
    match t {
        [sign, after @ ..] if is_sign(*sign) => is_unsigned(after),
        _ => is_unsigned(t),
    }
}

// What follows the two digits that the text begins with, where they write a number from low to high; else none.
fn behind_two<'a>(t: &'a [u8], range: (u8, u8)) -> Option<&'a [u8]>
    ensures { BehindTwo (range.0 to range.1) t.now result }
{
    let [a, b, after @ ..] = t else {
        return None;
    };
    if !(is_digit(*a) & is_digit(*b)) {
        return None;
    }
    let n = (*a - b'0') * 10 + (*b - b'0');
    if (range.0 <= n) & (n <= range.1) {
        Some(after)
    } else {
        None
    }
}

// How many bytes the text begins with that are digits two by two, each two within the next range.
fn twos_len(ranges: &[(u8, u8)], t: &[u8]) -> usize
    ensures { (result ≡ twos_length (ranges_of ranges.now) t.now) × (result ≤ length t.now) }
{
    let mut rest = t;
    for range in ranges {
        let Some(after) = behind_two(rest, *range) else {
            break;
        };
        rest = after;
    }
    t.len() - rest.len()
}

fn is_zone(t: &[u8]) -> bool
    ensures { result ≡ is_zone t.now }
{
    match t {
        [] => true,
        [sign, after @ ..] if is_sign(*sign) & (after.len() == 4) => twos_len(&ZONE, after) == 4,
        _ => false,
    }
}

fn is_fraction(t: &[u8]) -> bool
    ensures { result ≡ is_fraction t.now }
{
    let after = behind_point(t);
    let n = digits_len(after);
    if !((1 <= n) & (n <= 4)) {
        return false;
    }
    is_zone(&after[n..])
}

// What may follow the digits: the zone, or the fraction where the digits go down to the second.
fn is_ending(t: &[u8], seconds: bool) -> bool
    ensures { result ≡ (is_zone t.now || seconds && is_fraction t.now) }
{
    if is_zone(t) {
        return true;
    }
    seconds & is_fraction(t)
}

pub fn is_dtm(t: &[u8]) -> bool
    ensures { result ≡ is_dtm t.now }
{
    if t.len() < 4 {
        return false;
    }
    if !is_si(&t[0..4]) {
        return false;
    }
    let n = 4 + twos_len(&CALENDAR, &t[4..]);
    // as most dates do, it ends there
    if n == t.len() {
        return true;
    }
    is_ending(&t[n..], n == 14)
}

pub fn is_tm(t: &[u8]) -> bool
    ensures { result ≡ is_tm t.now }
{
    let n = twos_len(&CALENDAR[2..], t);
    if n < 2 {
        return false;
    }
    is_ending(&t[n..], n == 6)
}

pub fn is_stamp(t: &[u8]) -> bool
    ensures { result ≡ is_stamp t.now }
{
    if t.len() != STAMP_SIZE {
        return false;
    }
    if !(is_si(t) & is_dtm(t)) {
        return false;
    }
    day_exists(t)
}

pub fn is_reply_number(t: &[u8]) -> bool
    ensures { result ≡ is_reply_number t.now }
{
    if !((1 <= t.len()) & (t.len() <= MOST_REPLY_NUMBER)) {
        return false;
    }
    every(t, |b| is_capital_or_digit(b))
}
