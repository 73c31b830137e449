// The line of a row that has a list. Inner: the callers hold that a row stands there, and lend room for the line.
ghost use Rattle.std.specs.Prelude.{◌≡◌, true, ◌&&◌, ◌||◌, ◌∷◌, ◌+◌, ◌≤◌, ◌<◌, eqb, ltb, length, get_or, drop};
ghost use Rattle.text.specs.Bytes.{byte, every, same};
ghost use Rattle.text.specs.Writes.{Writes};
ghost use Rattle.parts.specs.Split.{led};
ghost use Rattle.profile.specs.Codes.{leading_byte, codes_from, are_codes, HasLists};
ghost use Rattle.profile.specs.Numbers.{leaf_of, row_size, type_column, reason_column};
ghost use Rattle.profile.specs.Order.{reason_fits};
ghost use Rattle.chart.specs.Chart.{place_text};
ghost use Rattle.chart.specs.Inner.{reason_words, row_charted, row_line, row_lines};

use codes::list_codes;
use profile::{columns, numbers};
use reader::condition;
use text::{Writer, is_same};

// A row of a table, of the segment with that name: where it begins, and whether its field lists this leaf alone.
#[derive(Clone, Copy)]
pub struct ListedRow<'a> {
    pub segment: &'a [u8],
    pub table: &'a [u16],
    pub start: usize,
    pub alone: bool,
}

// The lists that are asked for: field 0 for every list, component 0 for every component.
#[derive(Clone, Copy)]
pub struct Asked<'a> {
    pub name: &'a [u8],
    pub field: u64,
    pub component: u64,
}

// Puts a blank and the code whose first number and whose other bytes these are.
fn put_code(w: &mut Writer, first: u16, others: &[u16])
    requires bytes { every (λ x. ltb x 256) others.now ≡ true }
    requires room { w.old.at + length (byte " " ∷ leading_byte first ∷ others.now) ≤ length w.old.out.now }
    ensures { Writes w.old (byte " " ∷ leading_byte first ∷ others.now) w.new }
{
    w.put(&[b' ', (first % 256) as u8]);
    // by their places: a wrong build that leaves the last one out is then refused for that, and not for its form
    for i in 0..others.len() {
        w.put(&[others[i] as u8]);
    }
}

// Puts codes, a blank before each.
fn put_codes(w: &mut Writer, codes: &[u16])
    requires whole_codes { are_codes codes.now ≡ true }
    requires room { w.old.at + length (led (byte " ") (codes_from codes.now)) ≤ length w.old.out.now }
    ensures { Writes w.old (led (byte " ") (codes_from codes.now)) w.new }
{
    let mut left = codes;
    while let Some((number, rest)) = left.split_first() {
        let (others, codes) = rest.split_at(*number as usize / 256);
        put_code(w, *number, others);
        left = codes;
    }
}

// Puts the place of a row: its component too, unless its field lists no other leaf.
fn put_place(w: &mut Writer, r: ListedRow)
    requires row_inside { r.start + row_size ≤ length r.table.now }
    requires room { w.old.at + length
        (place_text (row_charted r.segment.now r.alone (drop r.start r.table.now)))
        ≤ length w.old.out.now }
    ensures { Writes w.old
        (place_text (row_charted r.entry.segment.now r.entry.alone (drop r.entry.start r.entry.table.now)))
        w.new }
{
    w.put(r.segment);
    w.put(b"-");
    w.put_decimal(r.table[r.start + columns::FIELD] as u64);
    if r.alone {
        return;
    }
    w.put(b".");
    w.put_decimal(r.table[r.start + columns::COMPONENT] as u64);
}

// Puts a reason, its condition, and the word that the codes stand after.
fn put_reason(w: &mut Writer, reason: u8)
    requires { w.old.at + length (led (byte " ") (reason_words reason)) ≤ length w.old.out.now }
    ensures { Writes w.old (led (byte " ") (reason_words reason)) w.new }
{
    w.put(b" reason ");
    w.put_decimal(reason as u64);
    w.put(b" condition ");
    w.put_decimal(condition(reason) as u64);
    w.put(b" codes");
}

// Puts the line of a row, with the codes of its list.
fn put_line(w: &mut Writer, r: ListedRow)
    requires row_inside { (r.start + row_size ≤ length r.table.now) × HasLists r.table.now }
    requires small_reason { get_or (drop r.start r.table.now) reason_column 0 < 256 }
    requires room { w.old.at + length
        (row_line r.segment.now r.alone (drop r.start r.table.now))
        ≤ length w.old.out.now }
    ensures { Writes w.old
        (row_line r.entry.segment.now r.entry.alone (drop r.entry.start r.entry.table.now))
        w.new }
{
    let end = r.table[columns::LISTS_END] as usize;
    let lists = &r.table[columns::LISTS..end];
    let list = list_codes(lists, r.table[r.start + columns::LIST]);
    let codes = lists.get(list.start..list.end).unwrap_or(&[]);
    put_place(w, r);
    put_reason(w, r.table[r.start + columns::REASON] as u8);
    put_codes(w, codes);
    w.put(b"\n");
}

// Whether the list of that place is asked for.
fn is_asked(a: Asked, segment: &[u8], field: u64, component: u64) -> bool
    ensures { result ≡ (eqb a.entry.field 0
        || (same a.entry.name.now segment.now && eqb a.entry.field field
        && (eqb a.entry.component 0 || eqb a.entry.component component))) }
{
    (a.field == 0)
        | (is_same(a.name, segment)
            & (a.field == field)
            & ((a.component == 0) | (a.component == component)))
}

// Puts the line of a row, where its leaf has a list that is asked for.
pub fn put_row(w: &mut Writer, r: ListedRow, a: Asked)
    requires row_inside { (r.start + row_size ≤ length r.table.now) × HasLists r.table.now }
    requires known_reason { get_or (drop r.start r.table.now) type_column 0 < 10
        → reason_fits (leaf_of (drop r.start r.table.now)).list ≡ true }
    requires room { w.old.at + length
        (row_lines a.name.now a.field a.component r.segment.now r.alone (drop r.start r.table.now))
        ≤ length w.old.out.now }
    ensures { Writes w.old
        (row_lines a.entry.name.now a.entry.field a.entry.component r.entry.segment.now r.entry.alone
        (drop r.entry.start r.entry.table.now))
        w.new }
{
    if (r.table[r.start + columns::LIST] == numbers::ANY)
        | (numbers::NAMED_BY <= r.table[r.start + columns::TYPE])
    {
        return;
    }
    let field = r.table[r.start + columns::FIELD] as u64;
    let component = r.table[r.start + columns::COMPONENT] as u64;
    if !is_asked(a, r.segment, field, component) {
        return;
    }
    put_line(w, r);
}
