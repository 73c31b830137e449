// The six entries as `cabi_c` hands them to callers of C and Rust: plain numbers and slices, no enum. Nothing is asked of what is handed over.
#![tactic(auto)]

ghost use Rattle.profile.specs.Profile.{profile01};
ghost use Rattle.cabi.specs.Promise.{JudgeTells, LookUpTells, ResolveTells, ReplyTells, FileTells, ReadTells};

use book::find_value;
use escape::resolve;
use numbers::{place_asked, tell};
use reader::{find, judge};
use slip::file;

// Judges a message.
pub fn ithwyral_judge(m: &[u8], out: &mut [u64; 10]) -> u8
    ensures { JudgeTells profile01 m.now out.old result out.new }
{
    tell(judge(m), out)
}

// Looks up a place: a name, and occurrence, field, repetition, component and subcomponent.
pub fn ithwyral_look_up(m: &[u8], name: &[u8], place: &[u64; 5], out: &mut [u64; 3]) -> u8
    ensures { LookUpTells m.now name.now place.now out.old result out.new }
{
    tell(find(m, place_asked(name, place)), out)
}

// Resolves a text into the buffer.
pub fn ithwyral_resolve(text: &[u8], buffer: &mut [u8], out: &mut [u64; 1]) -> u8
    ensures { ResolveTells text.now buffer.old out.old result buffer.new out.new }
{
    tell(resolve(text, buffer), out)
}

// Writes the reply to a message into the buffer.
pub fn ithwyral_reply(
    m: &[u8],
    stamp: &[u8],
    number: &[u8],
    buffer: &mut [u8],
    out: &mut [u64; 1],
) -> u8
    ensures { ReplyTells profile01 m.now stamp.now number.now buffer.old out.old result buffer.new out.new }
{
    tell(reply::reply(m, stamp, number, buffer), out)
}

// Files the slip of a group in a slot of the book.
pub fn ithwyral_file(m: &[u8], group: u64, slot: usize, book: &mut [u8]) -> u8
    ensures { FileTells profile01 m.now group slot book.old result book.new }
{
    tell(file(m, group, slot, book), &mut [])
}

// Reads the value of a tag of the slip in a slot.
pub fn ithwyral_read_slip(book: &[u8], slot: usize, tag: u64, out: &mut [u64; 2]) -> u8
    ensures { ReadTells book.now slot tag out.old result out.new }
{
    tell(find_value(book, slot, tag), out)
}
