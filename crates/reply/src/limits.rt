// How long a reply may be.

// No reply is longer, in bytes.
pub const LONGEST_REPLY: usize = 3200;
