// Strings of bytes as answers spell them: a byte by itself or by %XX, and a run of equal bytes in short. What has no room is left out.
#![tactic(auto)]

ghost use Rattle.spelling.specs.Kept.{KeepsBuffer};

use hexes::hex_digit;
use strings::is_plain;
use text::Writer;

// Puts a text where there is room for all of it.
pub fn put(w: &mut Writer, t: &[u8])
    ensures { KeepsBuffer w.old w.new }
{
    if w.at <= w.out.len() && t.len() <= w.out.len() - w.at {
        w.put(t);
    }
}

pub fn put_decimal(w: &mut Writer, n: u64)
    ensures { KeepsBuffer w.old w.new }
{
    let mut digits = [0u8; 20];
    let k = text::put_decimal(&mut digits, 0, n);
    put(w, &digits[..k]);
}

// A byte by itself or by its two digits.
fn put_spelt(w: &mut Writer, b: u8)
    ensures { KeepsBuffer w.old w.new }
{
    if is_plain(b) {
        put(w, &[b]);
    } else {
        put(w, &[b'%', hex_digit(b / 16), hex_digit(b % 16)]);
    }
}

// A byte and so many more of it.
fn put_run(w: &mut Writer, b: u8, more: usize)
    ensures { KeepsBuffer w.old w.new }
{
    put_spelt(w, b);
    put(w, b"*");
    put_decimal(w, more as u64);
    put(w, b";");
}

// Equal bytes: eight or more as a run.
fn put_equal(w: &mut Writer, bytes: &[u8])
    ensures { KeepsBuffer w.old w.new }
{
    match bytes {
        [b, more @ ..] if 7 <= more.len() => put_run(w, *b, more.len()),
        _ => {
            for b in bytes {
                put_spelt(w, *b);
            }
        }
    }
}

// The word that spells a string.
pub fn put_string(w: &mut Writer, s: &[u8])
    ensures { KeepsBuffer w.old w.new }
{
    put(w, b"=");
    for equal in s.chunk_by(|a, b| a == b) {
        put_equal(w, equal);
    }
}
