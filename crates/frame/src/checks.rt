// The eight frame checks, in their order.
ghost use Rattle.std.specs.Prelude.{◌≡◌, take};
ghost use Rattle.text.specs.Bytes.{every, same};
ghost use Rattle.text.specs.Marks.{marks_of};
ghost use Rattle.text.specs.Answer.{first};
ghost use Rattle.frame.specs.Frame.{allowed, header, segment_tests, frame_tests};
ghost use Rattle.frame.specs.Segments.{header_size};
ghost use Rattle.frame.specs.Told.{framing_of};

use crate::limits;
use crate::segment::{is_header, is_segment};
use parts::Ended;
use text::{Refusal, every, is_printable, marks_of};

fn all_allowed(m: &[u8]) -> bool
    ensures { result ≡ every allowed m.now }
{
    every(m, |b| is_printable(b) | (b == b'\r'))
}

fn has_header(m: &[u8]) -> bool
    ensures { result ≡ same (take header_size m.now) (header (marks_of m.now)) }
{
    m.starts_with(b"MSH|^~\\&|")
}

// BAD SEGMENT, SECOND HEADER, TOO MANY: one walk, since any bad segment comes before the other two.
fn check_segments(m: &[u8]) -> Result<(), Refusal>
    ensures { framing_of result ≡ first (segment_tests m.now) tt }
{
    let q = marks_of(m);
    let mut second = false;
    let mut count: usize = 0;
    let segments = Ended {
        rest: m,
        sep: b'\r',
    };
    for s in segments {
        if !is_segment(q, s) {
            return Err(Refusal::BadSegment);
        }
        second |= (0 < count) & is_header(s);
        count += 1;
    }
    if second {
        return Err(Refusal::SecondHeader);
    }
    if limits::MOST_SEGMENTS < count {
        return Err(Refusal::TooMany);
    }
    Ok(())
}

// The first of the eight refusals that applies. EMPTY and TOO LONG are found before any byte is read.
pub fn check(m: &[u8]) -> Result<(), Refusal>
    ensures { framing_of result ≡ first (frame_tests m.now) tt }
{
    if m.is_empty() {
        return Err(Refusal::Empty);
    }
    if limits::LONGEST_MESSAGE < m.len() {
        return Err(Refusal::TooLong);
    }
    if !all_allowed(m) {
        return Err(Refusal::BadByte);
    }
    if !has_header(m) {
        return Err(Refusal::NoHeader);
    }
    if !m.ends_with(b"\r") {
        return Err(Refusal::NoEnd);
    }
    check_segments(m)
}
