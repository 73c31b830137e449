// A field as most are: one repetition, no subcomponents, no escape. That it breaks nothing is seen in one go.
ghost use Rattle.std.specs.Prelude.{◌≡◌, true, ℕ, ◌-◌, ◌≤◌};
ghost use Rattle.profile.specs.Numbers.{row_size};
ghost use Rattle.codes.specs.Inner.{Lists, leaves_at};
ghost use Rattle.leaves.specs.Judged.{ReadsRepetition};
ghost use Rattle.fields.specs.Judged.{ReadsField};
ghost use Rattle.fields.specs.Flat.{is_plain, is_flat, passed, passed_once};

use cursor::{advance, first_piece};
use leaves::{missing_leaves, plain_reason, takes_any};
use profile::columns;
use text::{Marks, Span, every};

// Whether a byte is none of the marks that make a field more than its components.
fn is_plain(q: Marks, b: u8) -> bool
    ensures { result ≡ is_plain q b }
{
    !((b == q.repetition) | ((b == q.subcomponent) | (b == q.escape)))
}

// Whether a text has components at most. No early way out, so that many bytes are tested at once.
pub fn is_flat(q: Marks, x: &[u8]) -> bool
    ensures { result ≡ is_flat q x.now }
{
    every(x, |b| is_plain(q, b))
}

// Whether the text is so short that every leaf takes it, and begins with bytes of its first one: then nothing in it needs to be looked at.
fn is_sure(s: &[u8], q: Marks, table: &[u16], rows: Span) -> bool
    requires { Lists table.now rows (leaves_at table.now rows) × (is_flat q s.now ≡ true) }
    ensures { result ≡ true → ReadsRepetition q (leaves_at table.now rows) s.now passed_once }
{
    if s.len() == 0 {
        return false;
    }
    let at = rows.start;
    (s.len() <= table[at + columns::SURE] as usize) & (s[0] != q.component)
}

// Whether the one leaf that the field lists is seen to break nothing: it is the first component. Most fields list no other.
fn one_leaf_passes(s: &[u8], q: Marks, table: &[u16], rows: Span) -> bool
    requires lists { Lists table.now rows (leaves_at table.now rows) × (is_flat q s.now ≡ true) }
    requires one_row { rows.end - rows.start ≡ row_size }
    ensures { result ≡ true → ReadsRepetition q (leaves_at table.now rows) s.now passed_once }
{
    let at = rows.start;
    if (table[at + columns::COMPONENT] != 1) | (table[at + columns::SUBCOMPONENT] != 1) {
        return false;
    }
    let first = first_piece(s, q.component, false);
    let leaf = &s[first.start..first.end];
    !leaf.is_empty() && plain_reason(leaf, table, at, leaf.len()).is_ok()
}

// Whether the components are seen to be leaves that break nothing, some of them filled.
fn leaves_pass(s: &[u8], q: Marks, table: &[u16], rows: Span) -> bool
    requires { Lists table.now rows (leaves_at table.now rows) × (is_flat q s.now ≡ true) }
    ensures { result ≡ true → ReadsRepetition q (leaves_at table.now rows) s.now passed_once }
{
    let mut filled = false;
    let mut cursor = first_piece(s, q.component, false);
    let mut at = rows.start;
    let end = rows.end;
    while columns::ROW <= end - at {
        let number = table[at + columns::COMPONENT] as u64;
        if (cursor.number < number) & (s.len() <= cursor.end) {
            let r = missing_leaves(filled, table, Span { start: at, end });
            return r.filled & r.broken.is_none();
        }
        if table[at + columns::SUBCOMPONENT] != 1 {
            return false;
        }
        cursor = advance(s, q.component, false, cursor, number);
        let leaf = &s[cursor.start..cursor.end];
        if !takes_any(leaf.len(), table, at) && plain_reason(leaf, table, at, leaf.len()).is_err() {
            return false;
        }
        filled |= !leaf.is_empty();
        at += columns::ROW;
    }
    filled
}

// Whether a field is seen to be filled and to break nothing.
pub fn flat_passes(x: &[u8], q: Marks, table: &[u16], rows: Span) -> bool
    requires { Lists table.now rows (leaves_at table.now rows) × (is_flat q x.now ≡ true) }
    ensures { result ≡ true → (most : ℕ) → 1 ≤ most → ReadsField q (leaves_at table.now rows) most x.now passed }
{
    if is_sure(x, q, table, rows) {
        return true;
    }
    if rows.end - rows.start == columns::ROW {
        return one_leaf_passes(x, q, table, rows);
    }
    leaves_pass(x, q, table, rows)
}
