// The slip book: reading a slip's values.
#![tactic(auto)]

mod reading;

pub use reading::{SlipValue, find_value, read_slip};
