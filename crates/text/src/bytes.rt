// Classes of bytes, equality of byte strings, and the sorts of what may stand at a leaf.
ghost use Rattle.std.specs.Prelude.{◌≡◌};
ghost use Rattle.text.specs.Bytes.{capital, digit, capital_or_digit, printable, same};
ghost use Rattle.text.specs.Sorts.{is_null, is_text};

pub fn is_capital(b: u8) -> bool
    ensures { result ≡ capital b }
{
    b.is_ascii_uppercase()
}

pub fn is_digit(b: u8) -> bool
    ensures { result ≡ digit b }
{
    b.is_ascii_digit()
}

pub fn is_capital_or_digit(b: u8) -> bool
    ensures { result ≡ capital_or_digit b }
{
    is_capital(b) | is_digit(b)
}

pub fn is_printable(b: u8) -> bool
    ensures { result ≡ printable b }
{
    matches!(b, 0x20..=0x7E)
}

// Whether the two texts are equal.
pub fn is_same(s: &[u8], t: &[u8]) -> bool
    ensures { result ≡ same s.now t.now }
{
    s == t
}

// Whether what stands there is Null: two quotation marks and nothing else.
pub fn is_null(s: &[u8]) -> bool
    ensures { result ≡ is_null s.now }
{
    is_same(s, b"\"\"")
}

// Whether it is Text: neither Null nor Empty.
pub fn is_text(s: &[u8]) -> bool
    ensures { result ≡ is_text s.now }
{
    !is_null(s) && !s.is_empty()
}
