// The lists of codes for the wall: all of them, or those of the place that the arguments name.
#![tactic(auto)]

ghost use Rattle.std.specs.Prelude.{◌≤◌, length};
ghost use Rattle.text.specs.Puts.{Puts};
ghost use Rattle.profile.specs.Profile.{profile01};
ghost use Rattle.chart.specs.Chart.{page};

use asked::{argument, argument_count, number_at};
use std::env::Env;
use std::io;

// Room for every line.
const PAGE_SIZE: usize = 512;

// The lines of the lists that are asked for, or the one that says that there is none.
fn tell(name: &[u8], field: u64, component: u64, out: &mut [u8]) -> usize
    requires { 512 ≤ length out.old }
    ensures { Puts out.old 0 (page profile01 name.now field component) out.new result }
{
    let numbers = profile::profile();
    let end = page::put_lists(out, &numbers, name, field, component);
    if end == 0 {
        return text::put(out, 0, b"no list\n");
    }
    end
}

fn show(rt: &impl Print, name: &[u8], field: u64, component: u64) -> io::Result<()> {
    let mut out = [0u8; PAGE_SIZE];
    let end = tell(name, field, component, &mut out);
    rt.write_all(&out[..end])
}

// The place that the arguments name: a segment's name, a field, and a component, which is 0 where none is named. A name of more than three bytes comes as no
// bytes; no field and no component has the number 0.
fn asked_place<'a>(
    rt: &impl Env,
    count: usize,
    room: &'a mut [u8; 3],
) -> Option<(&'a [u8], u64, u64)> {
    let field = number_at(rt, 2).filter(|n| *n != 0)?;
    let component = match count {
        3 => 0,
        4 => number_at(rt, 3).filter(|n| *n != 0)?,
        _ => return None,
    };
    let n = argument(rt, 1, room);
    let name = &room[..n];
    let [a, b, c] = name else {
        return None;
    };
    if !frame::is_name(*a, *b, *c) {
        return None;
    }
    Some((name, field, component))
}

fn main(rt: HostRuntime) -> io::Result<()> {
    let count = argument_count(&rt);
    if count == 1 {
        return show(&rt, b"", 0, 0);
    }
    let mut room = [0u8; 3];
    match asked_place(&rt, count, &mut room) {
        Some((name, field, component)) => show(&rt, name, field, component),
        None => println!(rt; "usage: codes [NAME FIELD [COMPONENT]]"),
    }
}
