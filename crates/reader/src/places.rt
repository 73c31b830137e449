// Which places may be asked for.
ghost use Rattle.std.specs.Prelude.{◌≡◌};
ghost use Rattle.checks.specs.Place.{is_place};
ghost use Rattle.reader.specs.Told.{place_of};
ghost use Rattle.reader.specs.Inner.{numbers_of};

use crate::Place;
use parts::Numbers;
use seek::may_be_asked;

// The numbers that lead to the leaf in its segment.
impl From<Place> for Numbers {
    ghost from_gives = { λ p n. n ≡ numbers_of p };

    fn from(p: Place) -> Numbers {
        Numbers {
            field: p.field,
            repetition: p.repetition,
            component: p.component,
            subcomponent: p.subcomponent,
        }
    }
}

pub fn is_place(p: Place) -> bool
    ensures { result ≡ is_place (place_of p) }
{
    may_be_asked(p.first, p.second, p.third, p.occurrence, Numbers::from(p))
}
