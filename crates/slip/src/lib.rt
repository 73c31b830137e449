// The slip of a group, and filing it in the slip book.
#![tactic(auto)]

mod filing;

pub use filing::file;
pub use slot::{SLOT_SIZE, no_slot, slot_start};
