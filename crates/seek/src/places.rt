// Which places may be asked for.
ghost use Rattle.std.specs.Prelude.{◌≡◌, [], ◌∷◌};
ghost use Rattle.text.specs.Ranges.{◌to◌, is_within};
ghost use Rattle.checks.specs.Place.{place, is_place};

use frame::is_name;
use parts::Numbers;

// The greatest numbers that may be asked for: of a segment of a name, of a repetition, and of a field, component or subcomponent.
const MOST_OCCURRENCE: u64 = 512;

const MOST_REPETITION: u64 = 65535;

const MOST_NUMBER: u64 = 255;

fn is_within(low: u64, high: u64, n: u64) -> bool
    ensures { result ≡ is_within (low to high) n }
{
    (low..=high).contains(&n)
}

// A name of the form, and every number within its limits.
pub fn may_be_asked(a: u8, b: u8, c: u8, occurrence: u64, n: Numbers) -> bool
    ensures { result ≡ is_place (place (a ∷ b ∷ c ∷ []) occurrence n.field n.repetition n.component n.subcomponent) }
{
    is_name(a, b, c)
        & is_within(1, MOST_OCCURRENCE, occurrence)
        & is_within(1, MOST_NUMBER, n.field)
        & is_within(1, MOST_REPETITION, n.repetition)
        & is_within(1, MOST_NUMBER, n.component)
        & is_within(1, MOST_NUMBER, n.subcomponent)
}
