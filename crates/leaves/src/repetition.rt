// The listed leaves of a repetition. Inner: the callers hold that the rows list them, components rising.
ghost use Rattle.std.specs.Prelude.{◌≤◌, length};
ghost use Rattle.codes.specs.Inner.{Lists, leaves_at};
ghost use Rattle.leaves.specs.Judged.{ReadsMissing, ReadsRepetition};

use crate::rule::leaf_reason;
use checks::reasons::Reason;
use cursor::{advance, first_piece};
use parts::piece;
use profile::{columns, numbers};
use text::{Marks, Span};

// A leaf whose text breaks a check: which check, and where the leaf stands in its repetition.
#[derive(Clone, Copy, PartialEq, Eq, Debug)]
pub struct BrokenLeaf {
    pub reason: Reason,
    pub component: u64,
    pub subcomponent: u64,
}

// Whether a repetition is filled, and its first broken leaf.
#[derive(Clone, Copy, PartialEq, Eq, Debug)]
pub struct ReadRepetition {
    pub filled: bool,
    pub broken: Option<BrokenLeaf>,
}

// What is found of leaves that are all missing: the first that is required. `filled` is told of those before them.
pub fn missing_leaves(filled: bool, table: &[u16], rows: Span) -> ReadRepetition
    requires { (rows.start ≤ rows.end) × (rows.end ≤ length table.now) }
    ensures { ReadsMissing (leaves_at table.now rows) filled result }
{
    let mut at = rows.start;
    let end = rows.end;
    while columns::ROW <= end - at {
        if table[at + columns::STAR] == numbers::STARRED {
            let leaf = BrokenLeaf {
                reason: Reason::Missing,
                component: table[at + columns::COMPONENT] as u64,
                subcomponent: table[at + columns::SUBCOMPONENT] as u64,
            };
            return ReadRepetition {
                filled,
                broken: Some(leaf),
            };
        }
        at += columns::ROW;
    }
    ReadRepetition {
        filled,
        broken: None,
    }
}

// Reads a repetition's listed leaves, components rising, each byte passed once on the way from component to component.
// After the last component there is nothing to read.
pub fn read_repetition(s: &[u8], q: Marks, table: &[u16], rows: Span) -> ReadRepetition
    requires { Lists table.now rows (leaves_at table.now rows) }
    ensures { ReadsRepetition q (leaves_at table.now rows) s.now result }
{
    let mut found = ReadRepetition {
        filled: false,
        broken: None,
    };
    let mut cursor = first_piece(s, q.component, true);
    let mut at = rows.start;
    let end = rows.end;
    while columns::ROW <= end - at {
        let number = table[at + columns::COMPONENT] as u64;
        if (cursor.number < number) & (s.len() <= cursor.end) {
            if found.broken.is_none() {
                return missing_leaves(found.filled, table, Span { start: at, end });
            }
            return found;
        }
        let sub = table[at + columns::SUBCOMPONENT] as u64;
        cursor = advance(s, q.component, false, cursor, number);
        let part = &s[cursor.start..cursor.end];
        let leaf = piece(part, q.subcomponent, sub);
        found.filled |= leaf.start < leaf.end;
        if found.broken.is_none() {
            let judged = leaf_reason(&part[leaf.start..leaf.end], q, table, at);
            found.broken = judged.err().map(|reason| BrokenLeaf {
                reason,
                component: number,
                subcomponent: sub,
            });
        }
        at += columns::ROW;
    }
    found
}
