// The six functions of `cabi` that `cabi_c` exports, each called as it is, under the promise that `Exported` is about. Nothing is asked of the
// caller. Where one of them came to promise less, or to ask for something first, this crate would no longer be proved.
#![tactic(auto)]

ghost use Rattle.profile.specs.Profile.{profile01};
ghost use Rattle.cabi.specs.Promise.{JudgeTells, LookUpTells, ResolveTells, ReplyTells, FileTells, ReadTells};

fn judge(m: &[u8], out: &mut [u64; 10]) -> u8
    ensures { JudgeTells profile01 m.now out.old result out.new }
{
    cabi::ithwyral_judge(m, out)
}

fn look_up(m: &[u8], name: &[u8], place: &[u64; 5], out: &mut [u64; 3]) -> u8
    ensures { LookUpTells m.now name.now place.now out.old result out.new }
{
    cabi::ithwyral_look_up(m, name, place, out)
}

fn resolve(text: &[u8], buffer: &mut [u8], out: &mut [u64; 1]) -> u8
    ensures { ResolveTells text.now buffer.old out.old result buffer.new out.new }
{
    cabi::ithwyral_resolve(text, buffer, out)
}

fn reply(m: &[u8], stamp: &[u8], number: &[u8], buffer: &mut [u8], out: &mut [u64; 1]) -> u8
    ensures { ReplyTells profile01 m.now stamp.now number.now buffer.old out.old result buffer.new out.new }
{
    cabi::ithwyral_reply(m, stamp, number, buffer, out)
}

fn file(m: &[u8], group: u64, slot: usize, book: &mut [u8]) -> u8
    ensures { FileTells profile01 m.now group slot book.old result book.new }
{
    cabi::ithwyral_file(m, group, slot, book)
}

fn read_slip(book: &[u8], slot: usize, tag: u64, out: &mut [u64; 2]) -> u8
    ensures { ReadTells book.now slot tag out.old result out.new }
{
    cabi::ithwyral_read_slip(book, slot, tag, out)
}
