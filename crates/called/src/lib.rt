// Four of the six entries, each called as it is, under the promise that the three demands are about; demands/specs/Promises.antt has the other two.
// Nothing is asked of the caller. Where an entry came to promise less, or to ask for something first, this crate would no longer be proved,
// and the demands would speak of nothing.
#![tactic(auto)]

ghost use Rattle.escape.specs.Promise.{Resolves};
ghost use Rattle.profile.specs.Profile.{profile01};
ghost use Rattle.reader.specs.Promise.{Judges};
ghost use Rattle.reply.specs.Promise.{Replies};
ghost use Rattle.slip.specs.Promise.{Files};

use reader::Fault;
use text::Refusal;

fn judge(m: &[u8]) -> Result<Option<Fault>, Refusal>
    ensures { Judges profile01 m.now result }
{
    reader::judge(m)
}

fn reply(m: &[u8], stamp: &[u8], number: &[u8], buffer: &mut [u8]) -> Result<usize, Refusal>
    ensures { Replies profile01 m.now stamp.now number.now buffer.old result buffer.new }
{
    reply::reply(m, stamp, number, buffer)
}

fn file(m: &[u8], group: u64, slot: usize, book: &mut [u8]) -> Result<(), Refusal>
    ensures { Files profile01 m.now group slot book.old result book.new }
{
    slip::file(m, group, slot, book)
}

fn resolve(text: &[u8], buffer: &mut [u8]) -> Result<usize, Refusal>
    ensures { Resolves text.now buffer.old result buffer.new }
{
    escape::resolve(text, buffer)
}
