// The lists of codes as they are printed for the wall: the line of a row.
#![tactic(auto)]

mod row;

pub use row::{Asked, ListedRow, put_row};
