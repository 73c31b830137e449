// Types and names by their numbers in a table.
ghost use Rattle.std.specs.Prelude.{◌≡◌, [], ◌∷◌};
ghost use Rattle.profile.specs.Table.{of_type};
ghost use Rattle.profile.specs.Numbers.{simple_of, segment_number, type_number};

use profile::numbers;
use types::{is_dtm, is_nm, is_si, is_tm};

// Whether a text is of the simple type with that number.
pub fn is_of_type(n: u16, s: &[u8]) -> bool
    ensures { result ≡ of_type (simple_of n) s.now }
{
    match n {
        numbers::SI => is_si(s),
        numbers::NM => is_nm(s),
        numbers::DTM => is_dtm(s),
        numbers::TM => is_tm(s),
        _ => true,
    }
}

// The number of the type that a text names, 16 where it names none.
#[tactic(auto, unfolding(profile::specs::Numbers::number_in, text::specs::Bytes::same))]
pub fn type_number(s: &[u8]) -> u16
    ensures { result ≡ type_number s.now }
{
    match s {
        b"CE" => numbers::AS_CE,
        b"DTM" => numbers::AS_DTM,
        b"FT" => numbers::AS_FT,
        b"NM" => numbers::AS_NM,
        b"SN" => numbers::AS_SN,
        b"ST" => numbers::AS_ST,
        b"TM" => numbers::AS_TM,
        b"TX" => numbers::AS_TX,
        _ => numbers::AS_NONE,
    }
}

// The number of the segment with that name, 0 where none is listed.
#[tactic(auto, unfolding(profile::specs::Numbers::number_in, text::specs::Bytes::same))]
pub fn segment_number(a: u8, b: u8, c: u8) -> u16
    ensures { result ≡ segment_number (a ∷ b ∷ c ∷ []) }
{
    match &[a, b, c] {
        b"MSH" => numbers::MSH,
        b"PID" => numbers::PID,
        b"NK1" => numbers::NK1,
        b"ORC" => numbers::ORC,
        b"OBR" => numbers::OBR,
        b"OBX" => numbers::OBX,
        b"NTE" => numbers::NTE,
        _ => numbers::UNLISTED,
    }
}
