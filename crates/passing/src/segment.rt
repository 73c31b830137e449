// A segment as most are: its fields have components at most, and are short.
ghost use Rattle.std.specs.Prelude.{◌≡◌, true, ◌≤◌};
ghost use Rattle.profile.specs.Numbers.{no_type, table_of};
ghost use Rattle.profile.specs.Order.{Sound};
ghost use Rattle.listing.specs.Listing.{HasNumber};
ghost use Rattle.segments.specs.Judged.{ReadsSegment};
ghost use Rattle.passing.specs.Bare.{BarePasses};

use codes::{next_field, rows_under};
use cursor::{advance, first_piece};
use fields::is_flat;
use located::{fields_before, fields_start};
use profile::{columns, numbers};
use segments::{may_be_empty, text_passes};
use text::Marks;

// From how many bytes on a segment's fields count as long: fields in it may be so long that they are better sought by many bytes at once.
const LONG: usize = 256;

// Whether no field is required: all that a segment without a byte in its fields can break.
fn all_optional(table: &[u16], k: u16) -> bool
    requires { Sound table.now × ((1 ≤ k) × (k ≤ no_type)) }
    ensures { result ≡ true → BarePasses table.now k }
{
    let rows = rows_under(table, k);
    let last = rows.end;
    // Kept: a field has as many rows as the table says, so no chunks of one size; an iterator of fields would be no plainer.
    let mut at = rows.start;
    while columns::ROW <= last - at {
        if table[at + columns::USAGE] != numbers::OPTIONAL {
            return false;
        }
        at = next_field(table, at);
    }
    true
}

// Whether the segment is seen to break nothing.
pub fn segment_passes(s: &[u8], q: Marks, table: &[u16], k: u16) -> bool
    requires { Sound table.now × HasNumber s.now k }
    ensures { result ≡ true → ReadsSegment q (table_of table.now) s.now (Ok tt) }
{
    let fields = &s[fields_start(s, k)..];
    if fields.is_empty() {
        return all_optional(table, k);
    }
    let flat = fields.len() < LONG && is_flat(q, fields);
    let rows = rows_under(table, k);
    let last = rows.end;
    let before = fields_before(k);
    let mut cursor = first_piece(fields, q.field, false);
    // Kept: as above.
    let mut at = rows.start;
    while columns::ROW <= last - at {
        let end = next_field(table, at);
        let number = u64::from(table[at + columns::FIELD]);
        cursor = advance(fields, q.field, false, cursor, number - before);
        let text = &fields[cursor.start..cursor.end];
        let passes = if text.is_empty() {
            // Most fields that are not there are optional, and this spares them the call.
            table[at + columns::USAGE] == numbers::OPTIONAL || may_be_empty(s, q, table, k, at)
        } else {
            flat && text_passes(s, text, q, table, k, at, end)
        };
        if !passes {
            return false;
        }
        at = end;
    }
    true
}
