// The slot: filling one that is all zeros with a slip; whether a book has one, and where it begins.
#![tactic(auto)]

ghost use Rattle.std.specs.Prelude.{◌≡◌, false, ◌+◌, ◌≤◌, length};
ghost use Rattle.escape.specs.Escape.{resolved};
ghost use Rattle.escape.specs.Length.{Fits};
ghost use Rattle.tags.specs.Fields.{count_size, count_tag, longest_text};
ghost use Rattle.text.specs.Writes.{Writes};
ghost use Rattle.slot.specs.Slot.{two_bytes, tagged, tag_bytes, slot_size, slot_start, slip_of, no_slot};
ghost use Rattle.slot.specs.Inner.{Fillable, values_of};

use escape::put_resolved;
use tags::{COUNT_TAG, HEAD_SIZE};
use text::{Marks, Writer, put};

// Bytes of a slot.
pub const SLOT_SIZE: usize = 1024;

// A field: its tag, its length and its resolved text; an Empty one is left out.
// The text is put first; then its length is known.
fn put_text(w: &mut Writer, tag: u8, q: Marks, t: &[u8])
    requires fits { Fits q longest_text t.now }
    requires room { w.old.at + length (tag_bytes (tagged tag (resolved q t.now))) ≤ length w.old.out.now }
    ensures { Writes w.old (tag_bytes (tagged tag (resolved q t.now))) w.new }
{
    if t.is_empty() {
        return;
    }
    let at = w.at;
    let start = at + HEAD_SIZE;
    w.at = start;
    put_resolved(w, q, t);
    put(w.out, at, &[tag, 0, (w.at - start) as u8]);
}

// The last field: the group's OBX count in two bytes.
fn put_count(w: &mut Writer, n: u64)
    requires { w.old.at + count_size ≤ length w.old.out.now }
    ensures { Writes w.old (tag_bytes (tagged count_tag (two_bytes n))) w.new }
{
    let [.., high, low] = n.to_be_bytes();
    w.put(&[COUNT_TAG, 0, 2, high, low]);
}

// What a slip tells of a group: five texts of its message, and how many OBX it has.
#[derive(Clone, Copy)]
pub struct Values<'a> {
    pub control: &'a [u8],
    pub patient: &'a [u8],
    pub placer: &'a [u8],
    pub filler: &'a [u8],
    pub service: &'a [u8],
    pub count: u64,
}

// A slip of these values, in a slot of zeros. Inner: the callers hold that each text fits.
pub fn fill(slip: &mut [u8], q: Marks, v: Values)
    requires { Fillable q slip.old v }
    ensures { slip.new ≡ slip_of (values_of q v.entry) }
{
    let mut w = Writer { out: slip, at: 0 };
    put_text(&mut w, 1, q, v.control);
    put_text(&mut w, 2, q, v.patient);
    put_text(&mut w, 3, q, v.placer);
    put_text(&mut w, 4, q, v.filler);
    put_text(&mut w, 5, q, v.service);
    put_count(&mut w, v.count);
}

// NO SLOT: the book's length is divided.
// A slot is multiplied only once it has passed this test, since a large one would wrap.
pub fn no_slot(book: &[u8], slot: usize) -> bool
    ensures { result ≡ no_slot book.now slot }
{
    book.len() / SLOT_SIZE <= slot
}

// Where a slot begins that the book has, and so ends within it.
pub fn slot_start(book: &[u8], slot: usize) -> usize
    requires { no_slot book.now slot ≡ false }
    ensures { (result ≡ slot_start slot) × (result + slot_size ≤ length book.now) }
{
    SLOT_SIZE * slot
}
