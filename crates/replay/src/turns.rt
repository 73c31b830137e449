// Lines are answered in the window on standard input as soon as they are whole.
ghost use Rattle.std.specs.Prelude.{◌≡◌, length};
ghost use Rattle.input.specs.Inside.{Inside};

use crate::calls::answer;
use input::{Window, refill};
use std::io;
use std::io::Read;
use telling::tell_no_call;
use words::seek;

// Answers a line, and tells whether the answer lies in its memory: where it does not, there is no more to do. Of a line that is too long only
// its end is here.
fn answer_line(rt: &impl Print, line: &[u8], is_long: bool, out: &mut [u8]) -> io::Result<bool> {
    let end = if is_long {
        tell_no_call(out)
    } else {
        answer(line, out)
    };
    let Some(told) = out.get(..end) else {
        return Ok(false);
    };
    rt.write_all(told)?;
    Ok(true)
}

// One turn: a line is answered, or more is read. It answers whether there is more to do: at the input's end a line without its line feed is
// answered too, and there is none. Inner: the program begins with a window that lies in its memory, and each turn keeps it there.
pub fn turn<R: Read>(
    rt: &impl Print,
    input: &mut R,
    memory: &mut [u8],
    w: &mut Window,
    out: &mut [u8],
) -> io::Result<bool>
    requires { Inside w.old (length memory.old) }
    ensures inside { Inside w.new (length memory.new) }
    ensures kept { length memory.new ≡ length memory.old }
{
    let end = seek(&memory[..w.to], w.seen, b'\n');
    if end < w.to {
        let line = &memory[w.from..end];
        let is_long = w.is_long;
        w.from = end + 1;
        w.seen = end + 1;
        w.is_long = false;
        return answer_line(rt, line, is_long, out);
    }
    let came = refill(input, memory, w)?;
    if !came & ((0 < w.to) | w.is_long) {
        answer_line(rt, &memory[..w.to], w.is_long, out)?;
    }
    Ok(came)
}
