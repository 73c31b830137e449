// Filing the slip of a group.
ghost use Rattle.std.specs.Prelude.{◌≡◌, true, ℕ, replicate};
ghost use Rattle.frame.specs.Frame.{framed};
ghost use Rattle.profile.specs.Profile.{profile01};
ghost use Rattle.reader.specs.Fault.{verdict, accepted};
ghost use Rattle.slot.specs.Slot.{slot_size};
ghost use Rattle.slip.specs.Slip.{slip_text};
ghost use Rattle.slip.specs.Inner.{IsOrder, FilesOwn};
ghost use Rattle.slip.specs.Promise.{Files};

use reader::{judge, observations, occurrence, text_in};
use slot::{SLOT_SIZE, Values, fill, no_slot, slot_start};
use text::{Refusal, Span, marks_of, put};

// Fills a slot of zeros with the slip of the group whose OBR stands there.
fn fill_group(m: &[u8], order: Span, slip: &mut [u8])
    requires is_accepted { (framed m.now ≡ true) × (verdict profile01 m.now ≡ accepted) }
    requires of_group { (g : ℕ) × IsOrder m.now g order }
    requires zeros { slip.old ≡ replicate slot_size 0 }
    ensures { (g : ℕ) → IsOrder m.now g order → slip.new ≡ slip_text m.now g }
{
    let header = occurrence(m, b'M', b'S', b'H', 1);
    let patient = occurrence(m, b'P', b'I', b'D', 1);
    let group = Some(order);
    let values = Values {
        control: text_in(m, header, 10, 1),
        patient: text_in(m, patient, 3, 1),
        placer: text_in(m, group, 2, 1),
        filler: text_in(m, group, 3, 1),
        service: text_in(m, group, 4, 1),
        count: observations(m, order.end + 1),
    };
    fill(slip, marks_of(m), values);
}

// Files a group of an accepted message. The slip is written aside, in the scratch slot that 01 names, and stands whole before a byte of the book is written.
fn file_accepted(m: &[u8], group: u64, slot: usize, book: &mut [u8]) -> Result<(), Refusal>
    requires { (framed m.now ≡ true) × (verdict profile01 m.now ≡ accepted) }
    ensures { FilesOwn m.now group slot book.old result book.new }
{
    if group == 0 {
        return Err(Refusal::NoGroup);
    }
    let order = occurrence(m, b'O', b'B', b'R', group).ok_or(Refusal::NoGroup)?;
    if no_slot(book, slot) {
        return Err(Refusal::NoSlot);
    }
    let mut slip = [0u8; SLOT_SIZE];
    fill_group(m, order, &mut slip);
    let at = slot_start(book, slot);
    put(book, at, &slip);
    Ok(())
}

// Files the slip of a group of the message in a slot of the book.
pub fn file(m: &[u8], group: u64, slot: usize, book: &mut [u8]) -> Result<(), Refusal>
    ensures { Files profile01 m.now group slot book.old result book.new }
{
    match judge(m)? {
        Some(_) => Err(Refusal::NotAccepted),
        None => file_accepted(m, group, slot, book),
    }
}
