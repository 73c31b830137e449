// A segment's listed fields. Inner: the callers hold the table's rule, and that the segment has the name of its number.
#![tactic(auto)]

ghost use Rattle.std.specs.Prelude.{◌≡◌, true, false, ◌+◌, ◌≤◌, length, get_or};
ghost use Rattle.frame.specs.Segments.{field};
ghost use Rattle.profile.specs.Numbers.{row_size, field_column, usage_column, usage_of, table_of};
ghost use Rattle.profile.specs.Order.{Sound};
ghost use Rattle.codes.specs.Inner.{IsField};
ghost use Rattle.checks.specs.Fault.{is_required};
ghost use Rattle.fields.specs.Flat.{is_flat};
ghost use Rattle.listing.specs.Listing.{HasNumber};
ghost use Rattle.usage.specs.Listed.{fields_seen};
ghost use Rattle.segments.specs.Judged.{ReadsSegment, ReadsFieldAt, at_repetition};

use checks::reasons::Reason;
use codes::{next_field, rows_under};
use cursor::{advance, first_piece};
use fields::{flat_passes, is_flat, read_field};
use located::{fields_before, fields_start, leaf_rows};
use profile::{columns, numbers};
use text::{Marks, Span};
use usage::is_required;

// The greatest limit of a type.
const LONGEST: usize = 4096;

// A segment's first broken check: its reason, and its place in the segment.
#[derive(Clone, Copy)]
pub struct Finding {
    pub reason: Reason,
    pub field: u64,
    pub repetition: u64,
    pub component: u64,
    pub subcomponent: u64,
}

impl Finding {
    fn at_repetition(reason: Reason, field: u64, repetition: u64) -> Finding
        ensures { result ≡ at_repetition reason field repetition }
    {
        Finding {
            reason,
            field,
            repetition,
            component: 0,
            subcomponent: 0,
        }
    }

    // A finding at the segment itself.
    pub fn of_segment(reason: Reason) -> Finding
        ensures { result ≡ at_repetition reason 0 0 }
    {
        Finding::at_repetition(reason, 0, 0)
    }
}

// Judges a field, which stands in `text` and has the rows from `at` up to `end`.
fn judge_field(
    s: &[u8],
    text: &[u8],
    q: Marks,
    table: &[u16],
    k: u16,
    at: usize,
    end: usize,
) -> Result<(), Finding>
    requires sound { Sound table.now × HasNumber s.now k }
    requires field { IsField table.now k at end
        × (text.now ≡ field q s.now (get_or table.now (at + field_column) 0)) }
    ensures { ReadsFieldAt q table.now s.now at end result }
{
    let number = u64::from(table[at + columns::FIELD]);
    let most = u64::from(table[at + columns::REPETITIONS]);
    let r = read_field(text, q, table, leaf_rows(s, q, table, k, at, end), most);
    if r.surplus {
        return Err(Finding::at_repetition(Reason::TooManyRepetitions, number, most + 1));
    }
    if !r.filled && is_required(s, q, table, k, table[at + columns::USAGE]) {
        return Err(Finding::at_repetition(Reason::Missing, number, 1));
    }
    match r.broken {
        None => Ok(()),
        Some(b) => Err(Finding {
            reason: b.leaf.reason,
            field: number,
            repetition: b.repetition,
            component: b.leaf.component,
            subcomponent: b.leaf.subcomponent,
        }),
    }
}

// Whether a field is seen to break nothing: it stands in `text`, which has components at most,
// and has the rows from `at` up to `end`.
pub fn text_passes(
    s: &[u8],
    text: &[u8],
    q: Marks,
    table: &[u16],
    k: u16,
    at: usize,
    end: usize,
) -> bool
    requires sound { Sound table.now × HasNumber s.now k }
    requires field { IsField table.now k at end
        × (text.now ≡ field q s.now (get_or table.now (at + field_column) 0)) }
    requires flat { is_flat q text.now ≡ true }
    ensures { result ≡ true → ReadsFieldAt q table.now s.now at end (Ok tt) }
{
    flat_passes(text, q, table, leaf_rows(s, q, table, k, at, end))
}

// Whether a field of no bytes breaks nothing.
pub fn may_be_empty(s: &[u8], q: Marks, table: &[u16], k: u16, at: usize) -> bool
    requires sound { Sound table.now × HasNumber s.now k }
    requires row_inside { at + row_size ≤ length table.now }
    ensures { result ≡ true
        → is_required (usage_of (get_or table.now (at + usage_column) 0)) (fields_seen table.now q s.now) ≡ false }
{
    let usage = table[at + columns::USAGE];
    usage == numbers::OPTIONAL || !is_required(s, q, table, k, usage)
}

// Whether any field is seen to break nothing. A text that is longer than every leaf may be is not looked at twice.
fn field_passes(
    s: &[u8],
    text: &[u8],
    q: Marks,
    table: &[u16],
    k: u16,
    at: usize,
    end: usize,
) -> bool
    requires sound { Sound table.now × HasNumber s.now k }
    requires field { IsField table.now k at end
        × (text.now ≡ field q s.now (get_or table.now (at + field_column) 0)) }
    ensures { result ≡ true → ReadsFieldAt q table.now s.now at end (Ok tt) }
{
    if text.is_empty() {
        return may_be_empty(s, q, table, k, at);
    }
    text.len() <= LONGEST && is_flat(q, text) && text_passes(s, text, q, table, k, at, end)
}

// Reads a segment's listed fields, rising, each byte passed once on the way from field to field.
// Only a field that is not seen to pass is taken apart.
pub fn read_segment(s: &[u8], q: Marks, table: &[u16], k: u16) -> Result<(), Finding>
    requires { Sound table.now × HasNumber s.now k }
    ensures { ReadsSegment q (table_of table.now) s.now result }
{
    let rows = rows_under(table, k);
    let last = rows.end;
    let fields = &s[fields_start(s, k)..];
    let before = fields_before(k);
    let mut cursor = first_piece(fields, q.field, true);
    // Kept: a field has as many rows as the table says, so no chunks of one size; an iterator would be no plainer.
    let mut at = rows.start;
    while columns::ROW <= last - at {
        let end = next_field(table, at);
        let number = u64::from(table[at + columns::FIELD]);
        cursor = advance(fields, q.field, true, cursor, number - before);
        let text = &fields[cursor.start..cursor.end];
        if !field_passes(s, text, q, table, k, at, end) {
            judge_field(s, text, q, table, k, at, end)?;
        }
        at = end;
    }
    Ok(())
}
