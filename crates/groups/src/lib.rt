// Groups: counting the observations of one.
#![tactic(auto)]

ghost use Rattle.std.specs.Prelude.{◌≡◌, ◌≤◌, length, drop};
ghost use Rattle.frame.specs.Segments.{segments};
ghost use Rattle.groups.specs.Observations as Group;

use frame::has_name;
use parts::Ended;

// How many OBX stand from there on, up to the next OBR. Inner: the callers hold that `from` lies in the message.
pub fn observations(m: &[u8], from: usize) -> u64
    requires { from ≤ length m.now }
    ensures { result ≡ Group.observations (segments (drop from m.now)) }
{
    let segments = Ended {
        rest: &m[from..],
        sep: b'\r',
    };
    segments
        .take_while(|s| !has_name(s, b'O', b'B', b'R'))
        .filter(|s| has_name(s, b'O', b'B', b'X'))
        .count() as u64
}
