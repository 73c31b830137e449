// Where the segment of a place stands.
ghost use Rattle.std.specs.Prelude.{◌≡◌, [], ◌∷◌, ◌≤◌};
ghost use Rattle.reader.specs.Copied.{standing};

use frame::has_name;
use parts::Ended;
use text::Span;

// Where occurrence `number` of a name stands, from 1, its CR not counted: one walk, from segment to segment.
// Inner: the callers hold that the number is at least 1.
pub fn occurrence(m: &[u8], a: u8, b: u8, c: u8, number: u64) -> Option<Span>
    requires { 1 ≤ number }
    ensures { result ≡ standing m.now (a ∷ b ∷ c ∷ []) number }
{
    let mut left = number;
    let mut start = 0;
    let segments = Ended {
        rest: m,
        sep: b'\r',
    };
    for s in segments {
        let end = start + s.len();
        if has_name(s, a, b, c) {
            if left <= 1 {
                return Some(Span { start, end });
            }
            left -= 1;
        }
        start = end + 1;
    }
    None
}
