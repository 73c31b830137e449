// The enquiry desk's look-up: a message on standard input, the place as arguments.
#![tactic(auto)]

use asked::{argument, argument_count, number_at};
use input::{MESSAGE_ROOM, read_full};
use numbers::place_asked;
use reader::{Found, Place};
use std::env::Env;
use std::io;
use text::Refusal;

// The place that the arguments ask for: a name and five numbers. A name of more than three bytes comes as no bytes; neither is of the form, and
// `place_asked` makes of both a place that is refused in its turn.
fn asked_place(rt: &impl Env) -> Option<Place> {
    if argument_count(rt) != 7 {
        return None;
    }
    let numbers = [
        number_at(rt, 2)?,
        number_at(rt, 3)?,
        number_at(rt, 4)?,
        number_at(rt, 5)?,
        number_at(rt, 6)?,
    ];
    let mut name = [0u8; 3];
    let n = argument(rt, 1, &mut name);
    Some(place_asked(&name[..n], &numbers))
}

// The line that tells what stands at the place, and below it the text, if there is one.
fn show(rt: &impl Print, sort: Result<Found, Refusal>, text: &[u8]) -> io::Result<()> {
    let mut out = [0u8; 64];
    let n = line::look_line(sort, &mut out);
    rt.write_all(&out[..n])?;
    if 0 < text.len() {
        rt.write_all(text)?;
        rt.write_all(b"\n")?;
    }
    Ok(())
}

fn tell(rt: &impl Print, m: &[u8], p: Place) -> io::Result<()> {
    let found = reader::look_up(m, p);
    show(rt, found.sort, found.text)
}

fn main(rt: HostRuntime) -> io::Result<()> {
    let Some(place) = asked_place(&rt) else {
        return println!(rt;
            "usage: look NAME OCCURRENCE FIELD REPETITION COMPONENT SUBCOMPONENT < MESSAGE"
        );
    };
    let mut message = [0u8; MESSAGE_ROOM];
    let n = read_full(&mut rt.stdin(), &mut message)?;
    tell(&rt, &message[..n], place)
}
