// The place that a caller asks for.
ghost use Rattle.std.specs.Prelude.{◌≡◌, [], ◌∷◌};
ghost use Rattle.reader.specs.Told.{place_of};
ghost use Rattle.numbers.specs.Told.{place_asked};
ghost use Rattle.numbers.specs.Inner.{SameLookUp};

use reader::Place;

// The place of three bytes and five numbers.
fn place_of(first: u8, second: u8, third: u8, n: &[u64; 5]) -> Place
    ensures { place_of result ≡ place_asked (first ∷ second ∷ third ∷ []) n.now }
{
    Place {
        first,
        second,
        third,
        occurrence: n[0],
        field: n[1],
        repetition: n[2],
        component: n[3],
        subcomponent: n[4],
    }
}

// The place to look up for a name of any length: three zeros, which are not of the form, stand for a name that has not three bytes.
pub fn place_asked(name: &[u8], n: &[u64; 5]) -> Place
    ensures { SameLookUp (place_of result) (place_asked name.now n.now) }
{
    if name.len() != 3 {
        return place_of(0, 0, 0, n);
    }
    place_of(name[0], name[1], name[2], n)
}
