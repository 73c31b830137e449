// The enquiry desk's slip: a message on standard input, the group as the argument.
#![tactic(auto)]

ghost use Rattle.std.specs.Prelude.{◌*◌, ◌≤◌, length, replicate};
ghost use Rattle.text.specs.Puts.{Puts};
ghost use Rattle.profile.specs.Profile.{profile01};
ghost use Rattle.slip.specs.Slot.{slot_size};
ghost use Rattle.slip.specs.Book.{file};
ghost use Rattle.hexes.specs.Hex.{slip_lines};

use asked::{argument_count, number_at};
use input::{MESSAGE_ROOM, read_full};
use slip::SLOT_SIZE;
use std::io;
use std::io::Read;

// A byte of the slip is printed as two digits and what stands after them.
const LINES_SIZE: usize = 3 * SLOT_SIZE;

// The lines that tell the slip's bytes, as it is filed in a book of one slot, or a refusal.
fn tell(m: &[u8], group: u64, out: &mut [u8]) -> usize
    requires { 3 * slot_size ≤ length out.old }
    ensures { Puts out.old 0 (slip_lines (file profile01 m.now group 0 (replicate slot_size 0))) out.new result }
{
    let mut book = [0u8; SLOT_SIZE];
    match slip::file(m, group, 0, &mut book) {
        Err(r) => line::refused_line(r, out),
        Ok(()) => hexes::hex_lines(&book, out),
    }
}

fn show(rt: &impl Print, input: &mut impl Read, group: u64) -> io::Result<()> {
    let mut message = [0u8; MESSAGE_ROOM];
    let n = read_full(input, &mut message)?;
    let mut out = [0u8; LINES_SIZE];
    let end = tell(&message[..n], group, &mut out);
    rt.write_all(&out[..end])
}

fn main(rt: HostRuntime) -> io::Result<()> {
    if argument_count(&rt) == 2
        && let Some(group) = number_at(&rt, 1)
    {
        return show(&rt, &mut rt.stdin(), group);
    }
    println!(rt; "usage: slips GROUP < MESSAGE")
}
