// Looking up a place of a message.
ghost use Rattle.std.specs.Prelude.{◌≡◌, ◌≤◌, length};
ghost use Rattle.checks.specs.LookUp.{look_up};
ghost use Rattle.reader.specs.Told.{place_of, found_of};
ghost use Rattle.reader.specs.Promise.{LooksUp};
ghost use Rattle.reader.specs.Inner.{Inside};
ghost use Rattle.reader.specs.Part.{VeryPart, start_of, end_of};

use crate::Place;
use crate::places::is_place;
use crate::standing::occurrence;
use frame::check;
use parts::Numbers;
use seek::{Found, leaf};
use text::{Refusal, marks_of, part};

// What stands at a place of a message: for callers that want the numbers and not the part.
pub fn find(m: &[u8], p: Place) -> Result<Found, Refusal>
    ensures { found_of result ≡ look_up m.now (place_of p) }
{
    check(m)?;
    if !is_place(p) {
        return Err(Refusal::BadPlace);
    }
    let s = occurrence(m, p.first, p.second, p.third, p.occurrence).ok_or(Refusal::NoSegment)?;
    Ok(leaf(m, s, marks_of(m), Numbers::from(p)))
}

// The very part of the message that was found: no bytes, at its start, where it is no text.
fn text_of<'a>(m: &'a [u8], f: Result<Found, Refusal>) -> &'a [u8]
    requires { Inside f (length m.now) }
    ensures { VeryPart result m.entry (start_of f) (end_of f) }
{
    match f {
        Ok(Found::Text(s)) => part(m, s.start, s.end),
        _ => part(m, 0, 0),
    }
}

// A look-up's sort beside the very part of the message: of no text, no bytes at the message's start. This form is one that 01 names (docs/DESIGN.md).
#[derive(Clone, Copy)]
pub struct LookedUp<'a> {
    pub sort: Result<Found, Refusal>,
    pub text: &'a [u8],
}

// Looks up a place of a message.
pub fn look_up<'a>(m: &'a [u8], p: Place) -> LookedUp<'a>
    ensures { LooksUp m.entry p result }
{
    let sort = find(m, p);
    let text = text_of(m, sort);
    LookedUp { sort, text }
}
