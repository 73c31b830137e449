// Bytes in hexadecimal digits.
#![tactic(auto)]

ghost use Rattle.std.specs.Prelude.{◌≡◌, ◌*◌, ◌≤◌, ◌<◌, length};
ghost use Rattle.text.specs.Puts.{Puts};
ghost use Rattle.hexes.specs.Hex.{hex_digit, behind, hex_lines};

use text::Writer;

// A digit: 0 to 9, A to F.
pub fn hex_digit(n: u8) -> u8
    requires { n < 16 }
    ensures { result ≡ hex_digit n }
{
    match n {
        0..=9 => b'0' + n,
        _ => b'A' + (n - 10),
    }
}

// What stands after the byte with i before it: sixteen bytes make a line.
fn gap(i: usize) -> u8
    ensures { result ≡ behind i }
{
    if i % 16 == 15 { b'\n' } else { b' ' }
}

// The lines that tell a slip's bytes. Inner: the program lends three bytes for each of them.
pub fn hex_lines(t: &[u8], out: &mut [u8]) -> usize
    requires { 3 * length t.now ≤ length out.old }
    ensures { Puts out.old 0 (hex_lines t.now) out.new result }
{
    let mut w = Writer { out, at: 0 };
    for (i, b) in t.iter().enumerate() {
        w.put(&[hex_digit(b / 16), hex_digit(b % 16), gap(i)]);
    }
    w.at
}
