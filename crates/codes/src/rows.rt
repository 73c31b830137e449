// Reading a lent table: where the rows of a segment, a field or a type stand. All functions here are inner: their callers hold the table's rule.
ghost use Rattle.std.specs.Prelude.{◌≡◌, ◌+◌, ◌≤◌, length, get_or};
ghost use Rattle.profile.specs.Numbers.{row_size, next_column, no_type};
ghost use Rattle.profile.specs.Order.{Sound};
ghost use Rattle.codes.specs.Inner.{Under, Lists, leaves_named};

use crate::codes::type_number;
use profile::columns;
use text::Span;

// The rows under a number.
pub fn rows_under(table: &[u16], k: u16) -> Span
    requires { Sound table.now × ((1 ≤ k) × (k ≤ no_type)) }
    ensures { Under table.now k result }
{
    let i = k as usize;
    Span {
        start: table[i] as usize,
        end: table[i + 1] as usize,
    }
}

// Where the rows of the next field begin, as the row at that place says.
pub fn next_field(table: &[u16], at: usize) -> usize
    requires { at + row_size ≤ length table.now }
    ensures { result ≡ get_or table.now (at + next_column) 0 }
{
    table[at + columns::NEXT] as usize
}

// The rows of the type that a text names, or those where it names none.
pub fn type_rows(table: &[u16], name: &[u8]) -> Span
    requires { Sound table.now }
    ensures { Lists table.now result (leaves_named table.now name.now) }
{
    rows_under(table, type_number(name))
}
