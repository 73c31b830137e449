// The columns of a row in the machine's table, counted from where the row begins; specs/Numbers.antt reads them by the same names. Where its lists stand.
pub const FIELD: usize = 1;

pub const COMPONENT: usize = 2;

pub const SUBCOMPONENT: usize = 3;

pub const USAGE: usize = 4;

pub const REPETITIONS: usize = 5;

pub const TYPE: usize = 6;

pub const STAR: usize = 7;

pub const LIMIT: usize = 8;

// The number of the leaf's list, and the reason where a text is not in it; both are 0 where there is no list.
pub const LIST: usize = 9;

pub const REASON: usize = 10;

// Two that only spare work: where the rows of the next field begin; and in a field's first row how long a text may be that is sure to pass, if it has
// components at most and does not begin with a separator (0 where that cannot be said).
pub const NEXT: usize = 11;

pub const SURE: usize = 12;

// How many numbers a row has.
pub const ROW: usize = 13;

// Where the lists begin in the table, and where it tells their end, which is the beginning of the first rows (specs/Codes.antt).
pub const LISTS: usize = 18;

pub const LISTS_END: usize = 1;

// A code has at most so many bytes.
pub const LONGEST_CODE: usize = 20;
