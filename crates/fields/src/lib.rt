// Judging a field: its repetitions. Inner: the callers hold what the rows list.
#![tactic(auto)]

mod field;
mod flat;

pub use field::{BrokenInField, ReadField, read_field};
pub use flat::{flat_passes, is_flat};
