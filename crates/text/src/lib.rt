// Bytes and byte strings, the five separators, parts of lent bytes, writing into a lent buffer; the numbers that a caller gets back.
#![tactic(auto)]

mod bytes;
mod each;
mod lent;
mod marks;
mod refusal;
mod span;
mod writer;
mod writing;

pub use bytes::{
    is_capital, is_capital_or_digit, is_digit, is_null, is_printable, is_same, is_text,
};
pub use each::every;
pub use lent::part;
pub use marks::{Marks, marks_of, usual_marks};
pub use refusal::Refusal;
pub use span::Span;
pub use writer::Writer;
pub use writing::{put, put_decimal};
