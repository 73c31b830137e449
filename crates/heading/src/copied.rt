// 01's numbers for what a reply copies of the message's header.

// MSH-3, the first of the four fields that name the parties, and MSH-10, the control number.
pub const PARTIES: u64 = 3;

pub const CONTROL_NUMBER: u64 = 10;

// How many bytes they may have: the leaves of an HD by their types, and the control number.
pub const IS_LIMIT: usize = 20;

pub const ST_LIMIT: usize = 199;

pub const ID_LIMIT: usize = 20;

pub const CONTROL_LIMIT: usize = 20;
