// The five separators. Whoever reads a message takes them from here.
ghost use Rattle.std.specs.Prelude.{◌≡◌};
ghost use Rattle.text.specs.Marks.{usual, marks_of};

#[derive(Clone, Copy)]
pub struct Marks {
    pub field: u8,
    pub component: u8,
    pub repetition: u8,
    pub escape: u8,
    pub subcomponent: u8,
}

// Those that our own replies are written with.
pub fn usual_marks() -> Marks
    ensures { result ≡ usual }
{
    Marks {
        field: b'|',
        component: b'^',
        repetition: b'~',
        escape: b'\\',
        subcomponent: b'&',
    }
}

// Those of a message: fixed.
pub fn marks_of(m: &[u8]) -> Marks
    ensures { result ≡ marks_of m.now }
{
    usual_marks()
}
