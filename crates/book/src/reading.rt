// Reading a value from a slip of the book.
ghost use Rattle.std.specs.Prelude.{◌≡◌, ◌+◌, ◌≤◌, length};
ghost use Rattle.tags.specs.Fields.{head_size};
ghost use Rattle.text.specs.Part.{VeryPart};
ghost use Rattle.book.specs.Read.{read_slip};
ghost use Rattle.book.specs.Told.{value_of, start_of, end_of};
ghost use Rattle.book.specs.Inner.{InBook, largest, read_in};
ghost use Rattle.book.specs.Promise.{ReadsSlip};

use slip::{SLOT_SIZE, no_slot, slot_start};
use tags::{CONTROL_TAG, COUNT_SIZE, COUNT_TAG, HEAD_SIZE, ends_well, read_tag};
use text::{Refusal, Span, part};

// The value of the field from `at` up to `end` of a slip that begins at `base` of the book: what stands after its tag and its length.
fn value_in(base: usize, at: usize, end: usize) -> Span
    requires { (base + at + head_size ≤ largest) × (base + end ≤ largest) }
    ensures { result ≡ record { start = base + at + head_size; end = base + end } }
{
    Span {
        start: base + at + HEAD_SIZE,
        end: base + end,
    }
}

// BAD SLIP, NO TAG, or where the tag's value lies in the book: the slip s begins at `base` of the book.
fn read_in(s: &[u8], base: usize, tag: u64) -> Result<Span, Refusal>
    requires { InBook s.now base }
    ensures { value_of result ≡ read_in s.now base tag }
{
    let mut found = None;
    let mut at = 0;
    for k in CONTROL_TAG..COUNT_TAG {
        let end = read_tag(s, at, k).ok_or(Refusal::BadSlip)?;
        if (tag == u64::from(k)) & (at < end) {
            found = Some(value_in(base, at, end));
        }
        at = end;
    }
    if !ends_well(s, at) {
        return Err(Refusal::BadSlip);
    }
    if tag == u64::from(COUNT_TAG) {
        return Ok(value_in(base, at, at + COUNT_SIZE));
    }
    found.ok_or(Refusal::NoTag)
}

// The value of a tag of the slip in a slot: for callers that want the numbers and not the part.
pub fn find_value(book: &[u8], slot: usize, tag: u64) -> Result<Span, Refusal>
    ensures { value_of result ≡ read_slip book.now slot tag }
{
    if no_slot(book, slot) {
        return Err(Refusal::NoSlot);
    }
    let base = slot_start(book, slot);
    read_in(&book[base..base + SLOT_SIZE], base, tag)
}

// The very part of the book that was found: no bytes, at its start, where it is refused.
fn part_of<'a>(book: &'a [u8], v: Result<Span, Refusal>) -> &'a [u8]
    requires { (start_of v ≤ end_of v) × (end_of v ≤ length book.now) }
    ensures { VeryPart result book.entry (start_of v) (end_of v) }
{
    match v {
        Ok(s) => part(book, s.start, s.end),
        Err(_) => part(book, 0, 0),
    }
}

// A reading's sort beside the very part of the book: of a refusal, no bytes at the book's start. The form is a look-up's (docs/DESIGN.md).
#[derive(Clone, Copy)]
pub struct SlipValue<'a> {
    pub sort: Result<Span, Refusal>,
    pub value: &'a [u8],
}

// Reads the value of a tag of the slip in a slot.
pub fn read_slip<'a>(book: &'a [u8], slot: usize, tag: u64) -> SlipValue<'a>
    ensures { ReadsSlip book.entry slot tag result }
{
    let sort = find_value(book, slot, tag);
    let value = part_of(book, sort);
    SlipValue { sort, value }
}
