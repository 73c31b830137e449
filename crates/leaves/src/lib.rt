// Judging a leaf: its own rule, the listed leaves of a repetition. Inner: the callers hold what the rows list.
#![tactic(auto)]

mod repetition;
mod rule;

pub use repetition::{BrokenLeaf, ReadRepetition, missing_leaves, read_repetition};
pub use rule::{plain_reason, takes_any};
