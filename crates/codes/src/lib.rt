// Types, lists and names by their numbers, and the reading of a lent table.
#![tactic(auto)]

mod codes;
mod lists;
mod rows;

pub use codes::{is_of_type, segment_number};
pub use lists::{is_in_list, is_one_of, list_codes};
pub use rows::{next_field, rows_under, type_rows};
