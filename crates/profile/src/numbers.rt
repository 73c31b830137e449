// What has a number in the machine's table: segments, types and usages. A list's number is its place in 01's order, from 1.
// They stay numbers: they are the keys of the table's rows (`table[k]`), and a lent table may bring rows with names of its own, which no enum here could name.

// The segments that 01 lists, by the numbers under which their rows stand; 0 is any other name.
pub const UNLISTED: u16 = 0;

pub const MSH: u16 = 1;

pub const PID: u16 = 2;

pub const NK1: u16 = 3;

pub const ORC: u16 = 4;

pub const OBR: u16 = 5;

pub const OBX: u16 = 6;

pub const NTE: u16 = 7;

// The types that OBX-2 may name, by the numbers under which their leaves stand; the last is where it names none of them.
pub const AS_CE: u16 = 8;

pub const AS_DTM: u16 = 9;

pub const AS_FT: u16 = 10;

pub const AS_NM: u16 = 11;

pub const AS_SN: u16 = 12;

pub const AS_ST: u16 = 13;

pub const AS_TM: u16 = 14;

pub const AS_TX: u16 = 15;

pub const AS_NONE: u16 = 16;

// The simple types that not every text is of; those with higher numbers take any text.
pub const SI: u16 = 1;

pub const NM: u16 = 2;

pub const DTM: u16 = 3;

pub const TM: u16 = 4;

// From this number on, a row's type is the one that another field names: this number and the field's.
pub const NAMED_BY: u16 = 10;

// A row's usage; from CONDITIONAL on it is this number and that of the field that it waits for.
pub const OPTIONAL: u16 = 0;

pub const REQUIRED: u16 = 1;

pub const CONDITIONAL: u16 = 2;

// What a row says of a leaf that is required within a filled repetition.
pub const STARRED: u16 = 1;

// The number of a leaf's list where it has none: any text will do.
pub const ANY: u16 = 0;
