// Segments and their names. A segment is handed over without its CR.
ghost use Rattle.std.specs.Prelude.{◌≡◌, [], ◌∷◌};
ghost use Rattle.frame.specs.Segments.{is_name, named, is_header};
ghost use Rattle.frame.specs.Frame.{is_segment};

use text::{Marks, is_capital, is_capital_or_digit};

pub fn is_name(a: u8, b: u8, c: u8) -> bool
    ensures { result ≡ is_name (a ∷ b ∷ c ∷ []) }
{
    is_capital(a) & is_capital_or_digit(b) & is_capital_or_digit(c)
}

pub fn has_name(s: &[u8], a: u8, b: u8, c: u8) -> bool
    ensures { result ≡ named (a ∷ b ∷ c ∷ []) s.now }
{
    match s {
        [x, y, z, ..] => (*x == a) & ((*y == b) & (*z == c)),
        _ => false,
    }
}

pub fn is_header(s: &[u8]) -> bool
    ensures { result ≡ is_header s.now }
{
    has_name(s, b'M', b'S', b'H')
}

// A name, then the segment's end or the field separator.
pub fn is_segment(q: Marks, s: &[u8]) -> bool
    ensures { result ≡ is_segment q s.now }
{
    match s {
        [a, b, c] => is_name(*a, *b, *c),
        [a, b, c, d, ..] => is_name(*a, *b, *c) & (*d == q.field),
        _ => false,
    }
}
