// The reasons of 01, each with its number: why a message is not accepted.
ghost use Rattle.std.specs.Prelude.{◌≡◌};
ghost use Rattle.checks.specs.Reasons.{number_of_reason, Names};

#[derive(Clone, Copy, PartialEq, Eq, Debug)]
pub enum Reason {
    // a listed segment is out of place
    OutOfPlace = 1,
    // the end may not stand there
    MayNotEnd = 2,
    // a required field, or a starred leaf of a filled repetition
    Missing = 3,
    TooManyRepetitions = 4,
    TooLong = 5,
    BadEscape = 6,
    NotOfItsType = 7,
    // a code that is not in its list; those of the header have a reason of their own
    NotInItsList = 8,
    UnsupportedMessageType = 9,
    UnsupportedEvent = 10,
    UnsupportedProcessingId = 11,
    UnsupportedVersion = 12,
    // a date whose month has no such day
    NoSuchDay = 13,
}

// A number that no reason has.
#[derive(Clone, Copy, PartialEq, Eq, Debug)]
pub struct NoReason(pub u8);

impl From<Reason> for u8 {
    ghost from_gives = { λ reason n. n ≡ number_of_reason reason };

    fn from(reason: Reason) -> u8 {
        reason as u8
    }
}

impl TryFrom<u8> for Reason {
    type Error = NoReason;

    ghost try_from_gives = { Names };

    fn try_from(number: u8) -> Result<Reason, NoReason> {
        match number {
            1 => Ok(Reason::OutOfPlace),
            2 => Ok(Reason::MayNotEnd),
            3 => Ok(Reason::Missing),
            4 => Ok(Reason::TooManyRepetitions),
            5 => Ok(Reason::TooLong),
            6 => Ok(Reason::BadEscape),
            7 => Ok(Reason::NotOfItsType),
            8 => Ok(Reason::NotInItsList),
            9 => Ok(Reason::UnsupportedMessageType),
            10 => Ok(Reason::UnsupportedEvent),
            11 => Ok(Reason::UnsupportedProcessingId),
            12 => Ok(Reason::UnsupportedVersion),
            13 => Ok(Reason::NoSuchDay),
            _ => Err(NoReason(number)),
        }
    }
}
