// Most segments break nothing, and most of their fields are short texts. That a segment breaks nothing is seen here quickly; where it is not seen, it is read field
// by field. Inner: the callers hold the table's rule, and that the segment has the name of its number.
#![tactic(auto)]

mod segment;

ghost use Rattle.profile.specs.Numbers.{table_of};
ghost use Rattle.profile.specs.Order.{Sound};
ghost use Rattle.listing.specs.Listing.{HasNumber};
ghost use Rattle.passing.specs.Broken.{IsBroken};

use segment::segment_passes;
use segments::read_segment;
use text::Marks;

// Whether some check of a segment's fields is broken. Which one, and where, is told by reading the segment.
pub fn is_broken(s: &[u8], q: Marks, table: &[u16], k: u16) -> bool
    requires { Sound table.now × HasNumber s.now k }
    ensures { IsBroken q (table_of table.now) s.now result }
{
    !segment_passes(s, q, table, k) && read_segment(s, q, table, k).is_err()
}
