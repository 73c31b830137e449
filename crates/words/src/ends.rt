// Where a word ends.
ghost use Rattle.std.specs.Prelude.{◌≤◌, length};

use parts::far_end;

// Where a byte stands from there on, or the end. Inner: the callers hold that `from` lies in the text.
pub fn seek(s: &[u8], from: usize, b: u8) -> usize
    requires { from ≤ length s.now }
    ensures { (from ≤ result) × (result ≤ length s.now) }
{
    far_end(s, from, b)
}
