// A field's repetitions. Inner: the callers hold that the rows list the field's leaves.
ghost use Rattle.std.specs.Prelude.{◌≤◌};
ghost use Rattle.codes.specs.Inner.{Lists, leaves_at};
ghost use Rattle.fields.specs.Judged.{ReadsField};

use leaves::{BrokenLeaf, read_repetition};
use parts::piece_end;
use text::{Marks, Span};

// A broken leaf of a field, and the repetition that it stands in.
#[derive(Clone, Copy, PartialEq, Eq, Debug)]
pub struct BrokenInField {
    pub repetition: u64,
    pub leaf: BrokenLeaf,
}

// Whether a field has more repetitions than it may, whether its first one is filled, and the first broken leaf of the filled ones.
// The two flags stay flags: no value belongs to either.
#[derive(Clone, Copy, PartialEq, Eq, Debug)]
pub struct ReadField {
    pub surplus: bool,
    pub filled: bool,
    pub broken: Option<BrokenInField>,
}

// Reads a field's repetitions, at most as many as it may have; once a leaf is broken, those left are only counted.
pub fn read_field(s: &[u8], q: Marks, table: &[u16], rows: Span, most: u64) -> ReadField
    requires { (1 ≤ most) × Lists table.now rows (leaves_at table.now rows) }
    ensures { ReadsField q (leaves_at table.now rows) most s.now result }
{
    let mut found = ReadField {
        surplus: false,
        filled: false,
        broken: None,
    };
    if s.is_empty() {
        return found;
    }
    let mut start = 0;
    for number in 1..=most {
        let end = piece_end(s, start, q.repetition);
        if found.broken.is_none() {
            let r = read_repetition(&s[start..end], q, table, rows);
            if r.filled {
                found.filled |= number == 1;
                found.broken = r.broken.map(|leaf| BrokenInField {
                    repetition: number,
                    leaf,
                });
            }
        }
        if s.len() <= end {
            return found;
        }
        start = end + 1;
    }
    found.surplus = true;
    found
}
