// The texts of a segment's fields and leaves, for those who copy them. Inner: the callers hold that the segment lies in the message.
ghost use Rattle.std.specs.Prelude.{◌≡◌, ◌≤◌};
ghost use Rattle.text.specs.Bytes.{is_one};
ghost use Rattle.text.specs.Marks.{marks_of};
ghost use Rattle.profile.specs.Lists.{processing_ids};
ghost use Rattle.checks.specs.Place.{leaf_at};
ghost use Rattle.cutting.specs.FromField.{FieldsFrom};
ghost use Rattle.reader.specs.Copied.{Stood, segment_text};

use codes::is_one_of;
use cutting::{fields_from, leaf_text};
use profile::processing_ids;
use text::{Span, marks_of};

// The segment's bytes: none where it is missing.
fn segment_text<'a>(m: &'a [u8], s: Option<Span>) -> &'a [u8]
    requires { Stood m.now s }
    ensures { result.now ≡ segment_text m.now s }
{
    match s {
        None => &[],
        Some(s) => &m[s.start..s.end],
    }
}

// What stands of a segment from a field on. The field is the third or a later one, since MSH-1 and MSH-2 are unsplit.
pub fn fields_in<'a>(m: &'a [u8], s: Option<Span>, field: u64) -> &'a [u8]
    requires { Stood m.now s × (3 ≤ field) }
    ensures { FieldsFrom (marks_of m.now) (segment_text m.now s) field result.now }
{
    fields_from(segment_text(m, s), marks_of(m), field)
}

// The first leaf of a component, in the first repetition of a field: no bytes where it is Empty or the segment is missing.
pub fn text_in<'a>(m: &'a [u8], s: Option<Span>, field: u64, component: u64) -> &'a [u8]
    requires { Stood m.now s × (1 ≤ field) }
    ensures { result.now ≡ leaf_at (marks_of m.now) (segment_text m.now s) field 1 component 1 }
{
    leaf_text(segment_text(m, s), marks_of(m), field, component)
}

// Whether a text may stand as the processing id, MSH-11.1.
pub fn is_processing_id(t: &[u8]) -> bool
    ensures { result ≡ is_one t.now processing_ids }
{
    let codes = processing_ids();
    is_one_of(&codes, 0, codes.len(), t)
}
