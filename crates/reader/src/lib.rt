// Places, look-up and judging.
#![tactic(auto)]

mod faults;
mod judging;
mod places;
mod search;
mod standing;
mod texts;

pub use checks::condition;
pub use checks::reasons::Reason;
pub use cutting::{behind, field_leaf, first_leaf, first_repetition};
pub use groups::observations;
pub use judging::judge;
pub use search::{LookedUp, find, look_up};
pub use seek::Found;
pub use standing::occurrence;
pub use texts::{fields_in, is_processing_id, text_in};

// A place: the name's three bytes, and the numbers as they are asked, of any size.
#[derive(Clone, Copy, Debug, PartialEq, Eq)]
pub struct Place {
    pub first: u8,
    pub second: u8,
    pub third: u8,
    pub occurrence: u64,
    pub field: u64,
    pub repetition: u64,
    pub component: u64,
    pub subcomponent: u64,
}

// The first fault of a message, and its reason's number. A byte, and not a `Reason`: whoever tells of a fault tells of any number, and a table may name
// another than 01's.
#[derive(Clone, Copy, Debug, PartialEq, Eq)]
pub struct Fault {
    pub place: Place,
    pub reason: u8,
}
