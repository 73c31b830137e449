// The enquiry desk's reply: a message on standard input, the stamp and the reply number as arguments.
#![tactic(auto)]

ghost use Rattle.std.specs.Prelude.{◌≤◌, length};
ghost use Rattle.profile.specs.Profile.{profile01};
ghost use Rattle.reply.specs.Reply.{reply};
ghost use Rattle.line.specs.Line.{answer_text};
ghost use Rattle.line.specs.Inner.{look_buffer};
ghost use Rattle.line.specs.Line.{Shows};

use asked::{argument, argument_count};
use input::{MESSAGE_ROOM, read_full};
use reply::limits;
use std::env::Env;
use std::io;
use std::io::Read;

// A stamp and a reply number are shorter.
const LONGEST_ARGUMENT: usize = 32;

// The reply as it is, or the line that tells a refusal.
fn tell(m: &[u8], stamp: &[u8], number: &[u8], out: &mut [u8]) -> usize
    requires { look_buffer ≤ length out.old }
    ensures { Shows result out.new (answer_text (reply profile01 m.now stamp.now number.now (length out.old))) }
{
    match reply::reply(m, stamp, number, out) {
        Err(r) => line::refused_line(r, out),
        Ok(n) => n,
    }
}

// An argument longer than its buffer is given as no bytes: a bad stamp, a bad reply number.
fn answer<R: Env + Print>(rt: &R, input: &mut impl Read) -> io::Result<()> {
    let mut stamp = [0u8; LONGEST_ARGUMENT];
    let s = argument(rt, 1, &mut stamp);
    let mut number = [0u8; LONGEST_ARGUMENT];
    let k = argument(rt, 2, &mut number);
    let mut message = [0u8; MESSAGE_ROOM];
    let n = read_full(input, &mut message)?;
    // room for every reply
    let mut out = [0u8; limits::LONGEST_REPLY];
    let end = tell(&message[..n], &stamp[..s], &number[..k], &mut out);
    rt.write_all(&out[..end])
}

fn main(rt: HostRuntime) -> io::Result<()> {
    if argument_count(&rt) != 3 {
        return println!(rt; "usage: answer STAMP NUMBER < MESSAGE");
    }
    answer(&rt, &mut rt.stdin())
}
