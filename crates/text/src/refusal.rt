// Why a call is refused.
ghost use Rattle.std.specs.Prelude.{◌≡◌};
ghost use Rattle.text.specs.Answer.{number_of};

#[derive(Clone, Copy, Debug, PartialEq, Eq)]
pub enum Refusal {
    Empty,
    TooLong,
    BadByte,
    NoHeader,
    NoEnd,
    BadSegment,
    SecondHeader,
    TooMany,
    BadPlace,
    NoSegment,
    BadStamp,
    BadReplyNumber,
    NoControlNumber,
    NoRoom,
    NotAccepted,
    NoGroup,
    NoSlot,
    BadSlip,
    NoTag,
    BadEscape,
}

// The number of a refusal, 1 to 20.
impl From<Refusal> for u8 {
    ghost from_gives = { λ r n. n ≡ number_of r };

    fn from(r: Refusal) -> u8 {
        match r {
            Refusal::Empty => 1,
            Refusal::TooLong => 2,
            Refusal::BadByte => 3,
            Refusal::NoHeader => 4,
            Refusal::NoEnd => 5,
            Refusal::BadSegment => 6,
            Refusal::SecondHeader => 7,
            Refusal::TooMany => 8,
            Refusal::BadPlace => 9,
            Refusal::NoSegment => 10,
            Refusal::BadStamp => 11,
            Refusal::BadReplyNumber => 12,
            Refusal::NoControlNumber => 13,
            Refusal::NoRoom => 14,
            Refusal::NotAccepted => 15,
            Refusal::NoGroup => 16,
            Refusal::NoSlot => 17,
            Refusal::BadSlip => 18,
            Refusal::NoTag => 19,
            Refusal::BadEscape => 20,
        }
    }
}
