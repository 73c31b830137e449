// The texts of a segment's fields and leaves, for those who copy them. Whoever wants several fields goes from one to the next by `behind`, so that each
// byte of the segment is passed once.
#![tactic(auto)]

ghost use Rattle.std.specs.Prelude.{◌≡◌, true, false, ◌≤◌, drop, take};
ghost use Rattle.parts.specs.Split.{split, piece};
ghost use Rattle.frame.specs.Segments.{is_header, unsplit};
ghost use Rattle.checks.specs.Place.{leaf_at};
ghost use Rattle.text.specs.declared.marks.Marks.{Marks};
ghost use Rattle.cutting.specs.FromField.{Behind, FieldsFrom, first_repetition, first_leaf};

use frame::{is_header, limits};
use parts::near_end;
use text::Marks;

// The first piece of a text.
fn first_piece<'a>(t: &'a [u8], sep: u8) -> &'a [u8]
    ensures { result.now ≡ piece 1 (split sep t.now) }
{
    &t[..near_end(t, 0, sep)]
}

// What stands after so many separators: no bytes where there are fewer.
// What is not there is no bytes and no None, here and below, since the definitions say it so (`piece`, `leaf_at`, `Behind`) and Empty reads the same.
pub fn behind<'a>(t: &'a [u8], sep: u8, n: u64) -> &'a [u8]
    ensures { Behind sep n t.now result.now }
{
    let mut from = 0;
    for _ in 0..n {
        let to = near_end(t, from, sep);
        if t.len() <= to {
            return &[];
        }
        from = to + 1;
    }
    &t[from..]
}

// All but the first so many bytes.
fn skip<'a>(s: &'a [u8], k: usize) -> &'a [u8]
    ensures { result.now ≡ drop k s.now }
{
    &s[k.min(s.len())..]
}

// Bytes a up to b, as far as the text goes.
fn clip<'a>(s: &'a [u8], a: usize, b: usize) -> &'a [u8]
    ensures { result.now ≡ drop a (take b s.now) }
{
    skip(&s[..b.min(s.len())], a)
}

// What stands of a segment from a field on. Inner: the callers hold that the field is one that is split.
pub fn fields_from<'a>(s: &'a [u8], q: Marks, field: u64) -> &'a [u8]
    requires { (1 ≤ field) × (unsplit s.now field ≡ false) }
    ensures { FieldsFrom q s.now field result.now }
{
    if is_header(s) {
        return behind(
            skip(s, limits::HEADER_SIZE),
            q.field,
            field - limits::UNSPLIT_FIELDS - 1,
        );
    }
    behind(skip(s, limits::OPENING_SIZE), q.field, field - 1)
}

// The first repetition of the first of those fields.
pub fn first_repetition<'a>(t: &'a [u8], q: Marks) -> &'a [u8]
    ensures { result.now ≡ first_repetition q t.now }
{
    first_piece(first_piece(t, q.field), q.repetition)
}

// The first leaf of the first of the components that stand there.
pub fn first_leaf<'a>(t: &'a [u8], q: Marks) -> &'a [u8]
    ensures { result.now ≡ first_leaf q t.now }
{
    first_piece(first_piece(t, q.component), q.subcomponent)
}

// The first leaf of the first of those fields.
pub fn field_leaf<'a>(t: &'a [u8], q: Marks) -> &'a [u8]
    ensures { result.now ≡ first_leaf q (first_repetition q t.now) }
{
    first_leaf(first_repetition(t, q), q)
}

// A leaf of MSH-1 or MSH-2: each is one leaf, unsplit.
fn unsplit_leaf<'a>(s: &'a [u8], field: u64, component: u64) -> &'a [u8]
    requires { (is_header s.now ≡ true) × ((1 ≤ field) × (field ≤ 2)) }
    ensures { (q : Marks) → result.now ≡ leaf_at q s.now field 1 component 1 }
{
    if component != 1 {
        return &[];
    }
    if field == 1 {
        return clip(s, 3, 4);
    }
    clip(s, 4, 8)
}

// The first leaf of a component, in the first repetition of a field: no bytes where it is Empty.
pub fn leaf_text<'a>(s: &'a [u8], q: Marks, field: u64, component: u64) -> &'a [u8]
    requires { 1 ≤ field }
    ensures { result.now ≡ leaf_at q s.now field 1 component 1 }
{
    if is_header(s) & (field <= limits::UNSPLIT_FIELDS) {
        return unsplit_leaf(s, field, component);
    }
    if component == 0 {
        return &[];
    }
    let t = first_repetition(fields_from(s, q, field), q);
    first_leaf(behind(t, q.component, component - 1), q)
}
