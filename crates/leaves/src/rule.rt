// A leaf's own rule. Inner: the callers hold that a row stands there.
ghost use Rattle.std.specs.Prelude.{◌≡◌, true, ◌+◌, ◌≤◌, length, drop};
ghost use Rattle.text.specs.Ranges.{◌to◌, is_within};
ghost use Rattle.profile.specs.Codes.{HasLists};
ghost use Rattle.profile.specs.Table.{DTM};
ghost use Rattle.profile.specs.Numbers.{leaf_of, row_size, simple_of};
ghost use Rattle.profile.specs.Order.{reason_fits};
ghost use Rattle.checks.specs.Reasons.{number_of_reason};
ghost use Rattle.leaves.specs.Judged.{ReadsLeaf, ReadsPlain, TakesAny, type_reason};

use checks::reasons::Reason;
use codes::{is_in_list, is_of_type};
use escape::resolved_len;
use profile::{columns, numbers};
use text::Marks;
use types::{day_exists, is_dtm};

// A date is a text in the form whose month has such a day.
fn date_reason(s: &[u8]) -> Result<(), Reason>
    ensures { result ≡ type_reason DTM s.now }
{
    if !is_dtm(s) {
        return Err(Reason::NotOfItsType);
    }
    if !day_exists(s) {
        return Err(Reason::NoSuchDay);
    }
    Ok(())
}

// Whether the simple type with that number takes a text. A date is asked for first, since the other types name no day.
fn type_reason(s: &[u8], n: u16) -> Result<(), Reason>
    ensures { result ≡ type_reason (simple_of n) s.now }
{
    if n == numbers::DTM {
        return date_reason(s);
    }
    if !is_of_type(n, s) {
        return Err(Reason::NotOfItsType);
    }
    Ok(())
}

// The reason that a row names for a text that is not in its list: the table's rule says that it is one.
fn list_reason(number: u16) -> Reason
    requires { is_within (1 to 12) number ≡ true }
    ensures { number_of_reason result ≡ number }
{
    Reason::try_from(number as u8).unwrap()
}

// The first check that a leaf's text breaks. A caller who knows that it has no bad escape asks this, and says how many bytes a person reads (`n`). The row of the
// leaf begins at `at`.
pub fn plain_reason(s: &[u8], table: &[u16], at: usize, n: usize) -> Result<(), Reason>
    requires row_inside { (at + row_size ≤ length table.now) × HasLists table.now }
    requires known_reason { reason_fits (leaf_of (drop at table.now)).list ≡ true }
    ensures { ReadsPlain (leaf_of (drop at table.now)) s.now n result }
{
    if s.is_empty() {
        if table[at + columns::STAR] == numbers::STARRED {
            return Err(Reason::Missing);
        }
        return Ok(());
    }
    if (table[at + columns::LIMIT] as usize) < n {
        return Err(Reason::TooLong);
    }
    type_reason(s, table[at + columns::TYPE])?;
    let end = table[columns::LISTS_END] as usize;
    if !is_in_list(&table[columns::LISTS..end], table[at + columns::LIST], s) {
        return Err(list_reason(table[at + columns::REASON]));
    }
    Ok(())
}

// The same of any text. A bad escape is told first; else the limit is for the text that a person reads.
pub fn leaf_reason(s: &[u8], q: Marks, table: &[u16], at: usize) -> Result<(), Reason>
    requires row_inside { (at + row_size ≤ length table.now) × HasLists table.now }
    requires known_reason { reason_fits (leaf_of (drop at table.now)).list ≡ true }
    ensures { ReadsLeaf q (leaf_of (drop at table.now)) s.now result }
{
    let n = resolved_len(q, s).ok_or(Reason::BadEscape)?;
    plain_reason(s, table, at, n)
}

// Whether any text that a person reads as so many bytes will do at the leaf of a row: they are some and not too many, and the leaf's type
// and list take all. Most leaves are of this kind, and this spares them the call.
pub fn takes_any(n: usize, table: &[u16], at: usize) -> bool
    requires { at + row_size ≤ length table.now }
    ensures { result ≡ true → TakesAny (leaf_of (drop at table.now)) n }
{
    (0 < n)
        & ((n <= table[at + columns::LIMIT] as usize)
            & ((numbers::TM < table[at + columns::TYPE])
                & (table[at + columns::LIST] == numbers::ANY)))
}
