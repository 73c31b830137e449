// Condition codes.
#![tactic(auto)]

ghost use Rattle.std.specs.Prelude.{◌≡◌};
ghost use Rattle.checks.specs.Fault;

pub mod reasons;

// The condition code of a reason; 0 where there is no such reason.
// Kept as numbers: README names it so, and callers may ask for a number that is no reason.
pub fn condition(reason: u8) -> u16
    ensures { result ≡ Fault.condition reason }
{
    match reason {
        1 | 2 => 100,
        3 => 101,
        4..=7 | 13 => 102,
        8 => 103,
        9 => 200,
        10 => 201,
        11 => 202,
        12 => 203,
        _ => 0,
    }
}
