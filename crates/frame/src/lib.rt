// The eight frame checks; segments and their names.
#![tactic(auto)]

mod checks;
pub mod limits;
mod segment;

pub use checks::check;
pub use segment::{has_name, is_header, is_name};
