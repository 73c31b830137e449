// 01's limits of a frame.
pub const LONGEST_MESSAGE: usize = 65535;

pub const MOST_SEGMENTS: usize = 512;

// A header's name and separators, after which MSH-3 begins; any other segment's name and separator, after which its fields begin.
pub const HEADER_SIZE: usize = 9;

pub const OPENING_SIZE: usize = 4;

// MSH-1 and MSH-2 are the header's separators.
pub const UNSPLIT_FIELDS: u64 = 2;
