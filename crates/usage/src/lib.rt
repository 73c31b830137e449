// Whether a listed field of a segment is required. Inner: the callers hold the table's rule, and that the segment has the name of its number.
#![tactic(auto)]

ghost use Rattle.std.specs.Prelude.{◌≡◌};
ghost use Rattle.codes.specs.Inner.{IsField, rule_at};
ghost use Rattle.profile.specs.Table.{C};
ghost use Rattle.profile.specs.Numbers.{table_of, usage_of};
ghost use Rattle.profile.specs.Order.{Sound};
ghost use Rattle.checks.specs.Fault.{first_filled, is_required};
ghost use Rattle.checks.specs.View.{field_seen};
ghost use Rattle.listing.specs.Listing.{HasNumber};
ghost use Rattle.usage.specs.Listed.{fields_seen};

use codes::{next_field, rows_under};
use fields::read_field;
use located::{field_text, leaf_rows};
use profile::{columns, numbers};
use text::Marks;

// Whether the first repetition of the field with the rows from `at` up to `end` is filled.
fn starts_filled(s: &[u8], q: Marks, table: &[u16], k: u16, at: usize, end: usize) -> bool
    requires sound { Sound table.now × HasNumber s.now k }
    requires field { IsField table.now k at end }
    ensures { result ≡ first_filled (field_seen (table_of table.now) q s.now (rule_at table.now at end)) }
{
    let x = field_text(s, q, k, table[at + columns::FIELD] as u64);
    let rows = leaf_rows(s, q, table, k, at, end);
    let r = read_field(x, q, table, rows, table[at + columns::REPETITIONS] as u64);
    r.filled
}

// Whether the first repetition of the listed field with that number is filled.
fn is_filled(s: &[u8], q: Marks, table: &[u16], k: u16, number: u16) -> bool
    requires { Sound table.now × HasNumber s.now k }
    ensures { result ≡ is_required (C number) (fields_seen table.now q s.now) }
{
    let rows = rows_under(table, k);
    let last = rows.end;
    let mut at = rows.start;
    while columns::ROW <= last - at {
        let end = next_field(table, at);
        if table[at + columns::FIELD] == number && starts_filled(s, q, table, k, at, end) {
            return true;
        }
        at = end;
    }
    false
}

// Whether a field of that usage must be there.
pub fn is_required(s: &[u8], q: Marks, table: &[u16], k: u16, usage: u16) -> bool
    requires { Sound table.now × HasNumber s.now k }
    ensures { result ≡ is_required (usage_of usage) (fields_seen table.now q s.now) }
{
    if usage < numbers::CONDITIONAL {
        return usage == numbers::REQUIRED;
    }
    is_filled(s, q, table, k, usage - numbers::CONDITIONAL)
}
