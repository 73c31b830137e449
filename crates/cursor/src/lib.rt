// Going from piece to piece of a text, each byte passed once. Inner: the callers hold that the cursor stands at a piece of the text.
#![tactic(auto)]

ghost use Rattle.std.specs.Prelude.{◌≡◌, ◌+◌, ◌≤◌, length, drop};
ghost use Rattle.parts.specs.Start.{reach};
ghost use Rattle.cursor.specs.Cursor.{IsPiece};

use parts::{near_end, piece_end};

// The piece with that number, from 1. Where there is none it is empty and stands at the text's end.
#[derive(Clone, Copy)]
pub struct Cursor {
    pub number: u64,
    pub start: usize,
    pub end: usize,
}

// Where the piece that begins at `from` ends. A caller whose separators may stand far apart says so, and the end is found faster.
fn end_from(t: &[u8], from: usize, sep: u8, far: bool) -> usize
    requires { from ≤ length t.now }
    ensures { result ≡ from + reach sep (drop from t.now) }
{
    if far {
        piece_end(t, from, sep)
    } else {
        near_end(t, from, sep)
    }
}

// At the first piece.
pub fn first_piece(t: &[u8], sep: u8, far: bool) -> Cursor
    ensures { IsPiece sep t.now result × (result.number ≡ 1) }
{
    Cursor {
        number: 1,
        start: 0,
        end: end_from(t, 0, sep, far),
    }
}

// On to piece number n.
pub fn advance(t: &[u8], sep: u8, far: bool, at: Cursor, n: u64) -> Cursor
    requires { IsPiece sep t.now at × (at.number ≤ n) }
    ensures { IsPiece sep t.now result × (result.number ≡ n) }
{
    let mut start = at.start;
    let mut end = at.end;
    for _ in at.number..n {
        if t.len() <= end {
            return Cursor {
                number: n,
                start: end,
                end,
            };
        }
        start = end + 1;
        end = end_from(t, start, sep, far);
    }
    Cursor {
        number: n,
        start,
        end,
    }
}
