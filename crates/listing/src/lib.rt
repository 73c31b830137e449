// Listed segments one after another, and which of its name one is.
#![tactic(auto)]

ghost use Rattle.std.specs.Prelude.{◌≡◌, List, ℕ, ◌+◌, ◌≤◌, length};
ghost use Rattle.text.specs.Bytes.{same, within};
ghost use Rattle.frame.specs.Segments.{name};
ghost use Rattle.profile.specs.Order.{Sound};
ghost use Rattle.profile.specs.Numbers.{table_of};
ghost use Rattle.listing.specs.Listing.{name_at, count_before, Opens, NextIs};

use codes::segment_number;
use parts::far_end;

// Where a listed segment stands, its CR not counted, and the number of its name.
#[derive(Clone, Copy)]
pub struct Listed {
    pub start: usize,
    pub end: usize,
    pub number: u16,
}

// The next listed segment: unlisted ones are passed over. Every table that keeps the rule lists the same names.
pub fn next_listed(m: &[u8], at: usize) -> Option<Listed>
    requires { (at ≤ length m.now) × Opens m.now at }
    ensures { (t : List ℕ) → Sound t → NextIs (table_of t) m.now at result }
{
    // Kept: over `parts::Ended` the place of each segment would still be counted by hand, so that is no plainer.
    let mut start = at;
    let mut end = far_end(m, at, b'\r');
    while end < m.len() {
        if 3 <= end - start {
            let number = segment_number(m[start], m[start + 1], m[start + 2]);
            if number != 0 {
                return Some(Listed { start, end, number });
            }
        }
        start = end + 1;
        end = far_end(m, start, b'\r');
    }
    None
}

// Whether the segment from `at` up to `end` has the name that stands at `start`.
fn is_namesake(m: &[u8], start: usize, at: usize, end: usize) -> bool
    requires { (start + 3 ≤ length m.now) × ((at ≤ end) × (end ≤ length m.now)) }
    ensures { result ≡ same (name_at m.now start) (name (within at end m.now)) }
{
    m[at..end].starts_with(&m[start..start + 3])
}

// Which of its name the segment that starts there is, from 1: one walk over those before it, made only where a fault is told.
#[tactic(auto, using(crate::proofs::Counted::ends_before))]
pub fn occurrence_at(m: &[u8], start: usize) -> u64
    requires { (start + 3 ≤ length m.now) × Opens m.now start }
    ensures { result ≡ count_before m.now start (name_at m.now start) + 1 }
{
    // Kept: tried as `split(..).filter(..).count()`, but the proof that this counts the segments did not close.
    let mut occurrence = 1;
    let mut at = 0;
    while at < start {
        let end = far_end(m, at, b'\r');
        if is_namesake(m, start, at, end) {
            occurrence += 1;
        }
        at = end + 1;
    }
    occurrence
}
