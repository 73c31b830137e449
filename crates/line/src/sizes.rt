// How many bytes a program lends for a line.

// For a line that tells a refusal or what a look-up found: none is longer than 47 bytes.
pub const LOOK_BUFFER: usize = 64;

// For a line that tells how a message is judged: none is longer than 123 bytes.
pub const DESK_BUFFER: usize = 192;
