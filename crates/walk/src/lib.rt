// The readers of a message's listed segments. Group, observation and note readers call one another, and with each call fewer segments
// remain. They carry no counts and answer only where they stopped, so that a call costs little: the verdict is made of that once, at the end.
// Inner: the callers hold the table's rule, where the segment stands and that it may stand there.
// Kept: `order`, `group`, `observation` and `note` stay four readers that call one another, since 01 names that form (docs/DESIGN.md).
// Kept: a segment's start, end and number are handed on one by one: as one value they took the deepest message past the promised stack.
#![tactic(auto)]

ghost use Rattle.std.specs.Prelude.{◌≡◌, ◌⊎◌};
ghost use Rattle.profile.specs.Numbers.{table_of};
ghost use Rattle.profile.specs.Order.{Sound};
ghost use Rattle.listing.specs.Listing.{Here};
ghost use Rattle.walk.specs.Named.{MSH, PID, NK1, ORC, OBR, OBX, NTE, behind_patient, behind_group, may_be_last};
ghost use Rattle.walk.specs.Judged.{WalksIf, Walks};
ghost use Rattle.walk.specs.Onward.{OnwardIs};

use listing::{Listed, next_listed};
use passing::is_broken;
use profile::numbers;
use text::marks_of;

// Why reading stopped at a segment. Where a check of its own fields is broken, which of them it is, and where, is found by reading the
// segment again.
#[derive(Clone, Copy)]
pub enum Why {
    OutOfPlace,
    MayNotEnd,
    FieldBroken,
}

// Where reading stopped, and why: at the segment that stands from start up to end.
#[derive(Clone, Copy)]
pub struct Halt {
    pub why: Why,
    pub start: usize,
    pub end: usize,
}

impl Halt {
    fn at(why: Why, start: usize, end: usize) -> Halt
        ensures { result ≡ record { why = why; start = start; end = end } }
    {
        Halt { why, start, end }
    }
}

// Whether the message may end after a segment of that number.
fn may_be_last(number: u16) -> bool
    ensures { result ≡ may_be_last number }
{
    matches!(number, numbers::OBR | numbers::OBX | numbers::NTE)
}

// Reads the segment that stands there and finds the next one: None where the message ends after it and may.
fn read_on(
    m: &[u8],
    table: &[u16],
    start: usize,
    end: usize,
    number: u16,
) -> Result<Option<Listed>, Halt>
    requires { Sound table.now × Here m.now start end number }
    ensures { OnwardIs (table_of table.now) m.now start end result }
{
    if is_broken(&m[start..end], marks_of(m), table, number) {
        return Err(Halt::at(Why::FieldBroken, start, end));
    }
    let next = next_listed(m, end + 1);
    if next.is_none() && !may_be_last(number) {
        return Err(Halt::at(Why::MayNotEnd, start, end));
    }
    Ok(next)
}

// An ORC, which a group follows.
#[cycle(in_group)]
fn order(m: &[u8], table: &[u16], start: usize, end: usize) -> Result<(), Halt>
    requires { Sound table.now × Here m.now start end ORC }
    ensures { Walks (table_of table.now) m.now start end result }
{
    let Some(next) = read_on(m, table, start, end, numbers::ORC)? else {
        return Ok(());
    };
    match next.number {
        numbers::OBR => group(m, table, next.start, next.end),
        _ => Err(Halt::at(Why::OutOfPlace, next.start, next.end)),
    }
}

// An OBR: after a group a group may come.
#[cycle(in_group)]
fn group(m: &[u8], table: &[u16], start: usize, end: usize) -> Result<(), Halt>
    requires { Sound table.now × Here m.now start end OBR }
    ensures { Walks (table_of table.now) m.now start end result }
{
    let Some(next) = read_on(m, table, start, end, numbers::OBR)? else {
        return Ok(());
    };
    behind_group(m, table, next.start, next.end, next.number)
}

// An OBX: after an observation its notes may come.
#[cycle(in_group)]
fn observation(m: &[u8], table: &[u16], start: usize, end: usize) -> Result<(), Halt>
    requires { Sound table.now × Here m.now start end OBX }
    ensures { Walks (table_of table.now) m.now start end result }
{
    let Some(next) = read_on(m, table, start, end, numbers::OBX)? else {
        return Ok(());
    };
    behind_group(m, table, next.start, next.end, next.number)
}

// An NTE: after notes another observation may come.
#[cycle(in_group)]
fn note(m: &[u8], table: &[u16], start: usize, end: usize) -> Result<(), Halt>
    requires { Sound table.now × Here m.now start end NTE }
    ensures { Walks (table_of table.now) m.now start end result }
{
    let Some(next) = read_on(m, table, start, end, numbers::NTE)? else {
        return Ok(());
    };
    behind_group(m, table, next.start, next.end, next.number)
}

// The segment after an OBR, an OBX or an NTE: the same may follow each of them.
#[cycle(in_group)]
fn behind_group(m: &[u8], table: &[u16], start: usize, end: usize, number: u16) -> Result<(), Halt>
    requires { Sound table.now × Here m.now start end number }
    ensures { WalksIf (behind_group number) (table_of table.now) m.now start end result }
{
    match number {
        numbers::ORC => order(m, table, start, end),
        numbers::OBR => group(m, table, start, end),
        numbers::OBX => observation(m, table, start, end),
        numbers::NTE => note(m, table, start, end),
        _ => Err(Halt::at(Why::OutOfPlace, start, end)),
    }
}

// The PID or an NK1: the same may follow each of them.
#[cycle(before_group)]
fn patient(m: &[u8], table: &[u16], start: usize, end: usize, number: u16) -> Result<(), Halt>
    requires { Sound table.now × (Here m.now start end number × ((number ≡ PID) ⊎ (number ≡ NK1))) }
    ensures { Walks (table_of table.now) m.now start end result }
{
    let Some(next) = read_on(m, table, start, end, number)? else {
        return Ok(());
    };
    behind_patient(m, table, next.start, next.end, next.number)
}

// The segment after the PID or an NK1.
#[cycle(before_group)]
fn behind_patient(
    m: &[u8],
    table: &[u16],
    start: usize,
    end: usize,
    number: u16,
) -> Result<(), Halt>
    requires { Sound table.now × Here m.now start end number }
    ensures { WalksIf (behind_patient number) (table_of table.now) m.now start end result }
{
    match number {
        numbers::NK1 => patient(m, table, start, end, number),
        numbers::ORC => order(m, table, start, end),
        numbers::OBR => group(m, table, start, end),
        _ => Err(Halt::at(Why::OutOfPlace, start, end)),
    }
}

// The header.
pub fn header(m: &[u8], table: &[u16], here: Listed) -> Result<(), Halt>
    requires { Sound table.now × (Here m.now here.start here.end here.number × (here.number ≡ MSH)) }
    ensures { Walks (table_of table.now) m.now here.start here.end result }
{
    let Some(next) = read_on(m, table, here.start, here.end, here.number)? else {
        return Ok(());
    };
    match next.number {
        numbers::PID => patient(m, table, next.start, next.end, next.number),
        _ => Err(Halt::at(Why::OutOfPlace, next.start, next.end)),
    }
}
