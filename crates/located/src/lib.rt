// Where the text of a listed field stands, and which rows list its leaves. Inner: the callers hold the table's rule, and that the segment has the name of
// its number.
#![tactic(auto)]

ghost use Rattle.std.specs.Prelude.{◌≡◌, false, ◌+◌, ◌≤◌, min, length};
ghost use Rattle.profile.specs.Numbers.{fields_before, fields_from, first_field};
ghost use Rattle.text.specs.Bytes.{within};
ghost use Rattle.parts.specs.Descent.{in_field};
ghost use Rattle.parts.specs.Span.{part_text};
ghost use Rattle.frame.specs.Segments.{field};
ghost use Rattle.codes.specs.Inner.{Lists, IsField, leaves_named};
ghost use Rattle.profile.specs.Order.{Sound};
ghost use Rattle.checks.specs.View.{named_in};
ghost use Rattle.listing.specs.Listing.{HasNumber};
ghost use Rattle.located.specs.Listed.{leaves_of_field};

use codes::type_rows;
use cursor::{advance, first_piece};
use frame::limits;
use parts::near_end;
use profile::{columns, numbers};
use text::{Marks, Span};

// Where a segment's fields begin: the header's third after its ninth byte, any other's first after its name and one
// separator.
pub fn fields_start(s: &[u8], k: u16) -> usize
    ensures { result ≡ min (fields_from k) (length s.now) }
{
    let start = if k == numbers::MSH {
        limits::HEADER_SIZE
    } else {
        limits::OPENING_SIZE
    };
    start.min(s.len())
}

// How many fields stand before those: MSH-1 and MSH-2 are the header's separators.
pub fn fields_before(k: u16) -> u64
    ensures { result ≡ fields_before k }
{
    if k == numbers::MSH {
        return limits::UNSPLIT_FIELDS;
    }
    0
}

// The text of the field with that number.
pub fn field_text<'a>(s: &'a [u8], q: Marks, k: u16, number: u64) -> &'a [u8]
    requires { HasNumber s.now k × (first_field k ≤ number) }
    ensures { result.now ≡ field q s.now number }
{
    let skip = fields_start(s, k);
    let fields = &s[skip..];
    let before = fields_before(k);
    let first = first_piece(fields, q.field, false);
    let p = advance(fields, q.field, false, first, number - before);
    &fields[p.start..p.end]
}

// Where the first leaf of a field ends: the first subcomponent of the first component of its first repetition.
fn first_leaf(x: &[u8], q: Marks) -> usize
    ensures inside { result ≤ length x.now }
    ensures first_leaf_text { within 0 result x.now ≡ part_text (in_field q 1 1 1) x.now }
{
    let a = near_end(x, 0, q.repetition);
    let b = near_end(&x[0..a], 0, q.component);
    near_end(&x[0..b], 0, q.subcomponent)
}

// The rows of the type that the field with that number names. By itself, so that `leaf_rows` is short and costs most fields no call.
#[inline(never)]
fn named_rows(s: &[u8], q: Marks, table: &[u16], k: u16, number: u64) -> Span
    requires sound { Sound table.now × HasNumber s.now k }
    requires no_lower { first_field k ≤ number }
    ensures { Lists table.now result (leaves_named table.now (named_in q s.now number)) }
{
    let x = field_text(s, q, k, number);
    let to = first_leaf(x, q);
    type_rows(table, &x[0..to])
}

// The rows of the leaves that a field lists: its own, from `at` up to `end`, or those of the type that another one names.
#[inline]
pub fn leaf_rows(s: &[u8], q: Marks, table: &[u16], k: u16, at: usize, end: usize) -> Span
    requires sound { Sound table.now × HasNumber s.now k }
    requires field { IsField table.now k at end }
    ensures { Lists table.now result (leaves_of_field q table.now s.now at end) }
{
    let named = table[at + columns::TYPE];
    if named < numbers::NAMED_BY {
        return Span { start: at, end };
    }
    named_rows(s, q, table, k, (named - numbers::NAMED_BY) as u64)
}
