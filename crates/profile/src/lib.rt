// The depot's own table, its lists code by code and its rows leaf by leaf.
#![tactic(auto)]

ghost use Rattle.std.specs.Prelude.{◌≡◌, true, length};
ghost use Rattle.profile.specs.Codes.{codes_from, are_codes};
ghost use Rattle.profile.specs.Lists.{processing_ids};
ghost use Rattle.profile.specs.Numbers.{AreTable};
ghost use Rattle.profile.specs.Order.{Sound};
ghost use Rattle.profile.specs.Profile.{profile01};

pub mod columns;
pub mod numbers;
mod table;

use table::{PROCESSING_IDS, PROFILE};

// The table, to be lent to whatever reads one: an entry takes it once. Inner: its promise leaves open the numbers that say nothing of the table, and no
// answer depends on them (docs/ENTRIES.md).
pub fn profile() -> [u16; 1524]
    ensures rows { AreTable result profile01 }
    ensures rule { Sound result }
{
    PROFILE
}

// The codes of MSH-11.1 by themselves, for a reply, which has no table at hand.
pub fn processing_ids() -> [u16; 3]
    ensures { (length result ≡ 3) × ((are_codes result ≡ true) × (codes_from result ≡ processing_ids)) }
{
    PROCESSING_IDS
}
