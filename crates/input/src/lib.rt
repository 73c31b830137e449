// Standard input, or another reader: all of it into lent memory, or through a window in which what is read and not used yet is kept while more
// is read after it.
#![tactic(auto)]

ghost use Rattle.std.specs.Prelude.{◌≡◌, ◌+◌, ◌<◌, ◌≤◌, length, take, IfOk};
ghost use Rattle.std.specs.Io.KnownBytes.{Consumes, IsAtEnd};
ghost use Rattle.input.specs.Inside.{Inside};

use std::io;
use std::io::Read;

// Room for the longest message and one byte more, so that a longer one is seen to be too long.
pub const MESSAGE_ROOM: usize = 65536;

// Reads until the memory is full or the input ends, and answers how many bytes came.
pub fn read_full<R: Read>(input: &mut R, out: &mut [u8]) -> io::Result<usize>
    ensures within { IfOk result (λ n. n ≤ length out.new) }
    ensures bytes { IfOk result (λ n. Consumes (R.remaining input.old) (R.remaining input.new) (take n out.new)) }
    ensures end { IfOk result (λ n. n < length out.new → IsAtEnd (R.remaining input.new)) }
{
    // Kept: of std's calls `read_exact` tells no count where the input ends, and `read_to_end` wants a heap.
    let mut done = 0;
    while done < out.len() {
        match input.read(&mut out[done..])? {
            0 => break,
            n => done += n,
        }
    }
    Ok(done)
}

// The bytes from `from` up to `to` are read and not answered yet; up to `seen` they have no line feed.
#[derive(Clone, Copy)]
pub struct Window {
    pub from: usize,
    pub seen: usize,
    pub to: usize,
    // the line is longer than the memory, and its front is thrown away
    pub is_long: bool,
}

// Moves what is not answered yet to the front and reads once behind it, and answers whether anything came. Of a line that fills the memory
// nothing is kept but that it is too long. Inner: the callers hold that the window lies in its memory.
pub fn refill<R: Read>(input: &mut R, memory: &mut [u8], w: &mut Window) -> io::Result<bool>
    requires { Inside w.old (length memory.old) }
    ensures inside { Inside w.new (length memory.new) }
    ensures kept { length memory.new ≡ length memory.old }
{
    let kept = w.to - w.from;
    if kept < memory.len() {
        memory.copy_within(w.from..w.to, 0);
        *w = Window {
            from: 0,
            seen: kept,
            to: kept,
            is_long: w.is_long,
        };
    } else {
        *w = Window {
            from: 0,
            seen: 0,
            to: 0,
            is_long: true,
        };
    }
    let n = input.read(&mut memory[w.to..])?;
    w.to += n;
    Ok(0 < n)
}
