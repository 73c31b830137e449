// Writing into a lent buffer. Inner: the callers hold that there is room, and learn what the buffer holds afterwards.
ghost use Rattle.std.specs.Prelude.{◌≡◌, ◌+◌, ◌≤◌, length, drop};
ghost use Rattle.text.specs.Decimal.{decimal};
ghost use Rattle.text.specs.Puts.{Puts};

// Puts a text at a place, and answers where it ends.
// Kept: byte by byte. By `copy_from_slice` the archive for C needs `memmove` from outside, and its header promises that it does not.
pub fn put(out: &mut [u8], at: usize, t: &[u8]) -> usize
    requires { at + length t.now ≤ length out.old }
    ensures { Puts out.old at t.now out.new result }
{
    for (i, b) in t.iter().enumerate() {
        out[at + i] = *b;
    }
    at + t.len()
}

// Puts the digits of n at the end of 20 bytes, and answers where they start.
fn spell(digits: &mut [u8], n: u64) -> usize
    requires { length digits.old ≡ 20 }
    ensures { (result ≤ 20) × (drop result digits.new ≡ decimal n) }
{
    let mut left = n;
    for i in (0..20).rev() {
        digits[i] = b'0' + (left % 10) as u8;
        if left < 10 {
            return i;
        }
        left /= 10;
    }
    0
}

// Puts a number's digits at a place, and answers where they end.
pub fn put_decimal(out: &mut [u8], at: usize, n: u64) -> usize
    requires { at + length (decimal n) ≤ length out.old }
    ensures { Puts out.old at (decimal n) out.new result }
{
    let mut digits = [0u8; 20];
    let start = spell(&mut digits, n);
    put(out, at, &digits[start..20])
}
