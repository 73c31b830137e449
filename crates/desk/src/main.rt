// The desk: a message on standard input, and how it is judged as one line.
#![tactic(auto)]

ghost use Rattle.std.specs.Prelude.{◌≤◌, length};
ghost use Rattle.text.specs.Puts.{Puts};
ghost use Rattle.profile.specs.Profile.{profile01};
ghost use Rattle.reader.specs.Fault.{judge};
ghost use Rattle.line.specs.Line.{desk_line, as_line};
ghost use Rattle.line.specs.Inner.{desk_buffer};

use input::{MESSAGE_ROOM, read_full};
use line::sizes;
use std::io;

// The line that tells how a message is judged.
fn tell(m: &[u8], out: &mut [u8]) -> usize
    requires { desk_buffer ≤ length out.old }
    ensures { Puts out.old 0 (as_line (desk_line (judge profile01 m.now))) out.new result }
{
    line::desk_line(reader::judge(m), out)
}

fn main(rt: HostRuntime) -> io::Result<()> {
    let mut message = [0u8; MESSAGE_ROOM];
    let n = read_full(&mut rt.stdin(), &mut message)?;
    let mut out = [0u8; sizes::DESK_BUFFER];
    let end = tell(&message[..n], &mut out);
    rt.write_all(&out[..end])
}
