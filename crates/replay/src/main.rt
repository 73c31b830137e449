// Calls as lines on standard input, and for each its answer as a line: docs/CALLS.md has their form. What the entries answer can so be
// compared with what another program answers.
#![tactic(auto)]

mod calls;
mod turns;

use input::Window;
use std::io;
use std::io::Read;
use turns::turn;

// A proved loop has to end, and nothing says that the input does: so it counts its turns, up to a number that no run uses up.
fn run<R: Read>(
    rt: &impl Print,
    input: &mut R,
    window: &mut [u8],
    out: &mut [u8],
) -> io::Result<()> {
    let mut w = Window {
        from: 0,
        seen: 0,
        to: 0,
        is_long: false,
    };
    for _ in 0..u64::MAX {
        if !turn(rt, input, window, &mut w, out)? {
            break;
        }
    }
    Ok(())
}

// The arrays as slices. Lent as arrays first, their lengths are told by their types; a million bytes are too many for the prover to count.
fn run_in<R: Read>(
    rt: &impl Print,
    input: &mut R,
    window: &mut [u8; 1048577],
    out: &mut [u8; 393344],
) -> io::Result<()> {
    run(rt, input, window, out)
}

fn main(rt: HostRuntime) -> io::Result<()> {
    // the longest line and its line feed
    let mut window = [0u8; 1048577];
    // three bytes for each of the longest string, and the words before it
    let mut out = [0u8; 393344];
    run_in(&rt, &mut rt.stdin(), &mut window, &mut out)
}
