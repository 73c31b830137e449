// The page of the lists of codes: the lines of every row that has a list, segment by segment.
// Inner: the callers hold the table's rule, and lend room.
#![tactic(auto)]

ghost use Rattle.std.specs.Prelude.{◌≡◌, ℕ, ◌+◌, ◌≤◌, length};
ghost use Rattle.text.specs.Puts.{Puts};
ghost use Rattle.text.specs.Writes.{Writes};
ghost use Rattle.profile.specs.Codes.{HasLists};
ghost use Rattle.profile.specs.Numbers.{AreTable, table_of};
ghost use Rattle.profile.specs.Order.{Sound};
ghost use Rattle.profile.specs.Profile.{profile01};
ghost use Rattle.codes.specs.Inner.{IsField, rule_at};
ghost use Rattle.chart.specs.Chart.{field_lists, segment_lists, charted};
ghost use Rattle.chart.specs.Inner.{asked_lines};

use chart::{Asked, ListedRow, put_row};
use codes::{next_field, rows_under, segment_number};
use profile::columns;
use text::Writer;

// Puts the lines of the lists that are asked for, of the field whose rows stand from one place up to another.
fn put_field(w: &mut Writer, segment: &[u8], table: &[u16], first: usize, next: usize, a: Asked)
    requires has_lists { HasLists table.now × ((k : ℕ) × IsField table.now k first next) }
    requires room { w.old.at + length
        (asked_lines a.name.now a.field a.component (field_lists segment.now (rule_at table.now first next)))
        ≤ length w.old.out.now }
    ensures { Writes w.old
        (asked_lines a.entry.name.now a.entry.field a.entry.component (field_lists segment.now (rule_at table.now first next)))
        w.new }
{
    // by places, not by slices of a row: `put_row` reads the row's list in the same table, before the rows
    let alone = next - first < 2 * columns::ROW;
    let mut start = first;
    while columns::ROW <= next - start {
        let row = ListedRow {
            segment,
            table,
            start,
            alone,
        };
        put_row(w, row, a);
        start += columns::ROW;
    }
}

// Puts the lines of the lists that are asked for, of the segment with that name.
fn put_segment(w: &mut Writer, segment: &[u8], table: &[u16], a: Asked)
    requires sound { Sound table.now × (length segment.now ≡ 3) }
    requires room { w.old.at + length
        (asked_lines a.name.now a.field a.component (segment_lists (table_of table.now) segment.now))
        ≤ length w.old.out.now }
    ensures { Writes w.old
        (asked_lines a.entry.name.now a.entry.field a.entry.component (segment_lists (table_of table.now) segment.now))
        w.new }
{
    let k = segment_number(segment[0], segment[1], segment[2]);
    if k == 0 {
        return;
    }
    let rows = rows_under(table, k);
    // a `while`: how far a field goes its first row says, so no iterator of std steps so
    let mut first = rows.start;
    let end = rows.end;
    while columns::ROW <= end - first {
        let next = next_field(table, first);
        put_field(w, segment, table, first, next, a);
        first = next;
    }
}

// Puts the lines of the lists that are asked for, of every segment.
fn put_segments(w: &mut Writer, table: &[u16], a: Asked)
    requires sound { Sound table.now × AreTable table.now profile01 }
    requires room { w.old.at + length (asked_lines a.name.now a.field a.component (charted profile01)) ≤ length w.old.out.now }
    ensures { Writes w.old (asked_lines a.entry.name.now a.entry.field a.entry.component (charted profile01)) w.new }
{
    // no loop over the names: `segment_left_out` needs each on a line of its own, and the proof names what stands after each
    put_segment(w, b"MSH", table, a);
    put_segment(w, b"PID", table, a);
    put_segment(w, b"NK1", table, a);
    put_segment(w, b"ORC", table, a);
    put_segment(w, b"OBR", table, a);
    put_segment(w, b"OBX", table, a);
    put_segment(w, b"NTE", table, a);
}

// The page: field 0 for every list, component 0 for every component.
pub fn put_lists(out: &mut [u8], table: &[u16], name: &[u8], field: u64, component: u64) -> usize
    requires sound { Sound table.now × AreTable table.now profile01 }
    requires room { length (asked_lines name.now field component (charted profile01)) ≤ length out.old }
    ensures { Puts out.old 0
        (asked_lines name.now field component (charted profile01))
        out.new result }
{
    let a = Asked {
        name,
        field,
        component,
    };
    let mut w = Writer { out, at: 0 };
    put_segments(&mut w, table, a);
    w.at
}
