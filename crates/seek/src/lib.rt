// Where the leaf of a segment lies, and which places may be asked for. The functions of this file are inner: their callers hold that the segment lies in
// the message.
#![tactic(auto)]

mod places;

ghost use Rattle.std.specs.Prelude.{◌≡◌, true, ℕ, ◌+◌, ◌-◌, ◌≤◌, ◌<◌, min, length};
ghost use Rattle.text.specs.Bytes.{Text};
ghost use Rattle.parts.specs.Span.{span};
ghost use Rattle.frame.specs.Segments.{is_header};
ghost use Rattle.checks.specs.Shown.{shown};
ghost use Rattle.seek.specs.Inner.{LiesIn, segment, leaf_found, leaf_behind};
ghost use Rattle.seek.specs.Told.{found_told};

use frame::{is_header, limits};
use parts::{Numbers, descend};
pub use places::may_be_asked;
use text::{Marks, Span};

// What is found of a leaf: Empty, or the message's bytes of a span. Not an Option: Empty is HL7's word for a leaf that is there and has no bytes.
#[derive(Clone, Copy, Debug, PartialEq, Eq)]
pub enum Found {
    Empty,
    Text(Span),
}

// A part of no bytes is Empty.
fn between(p: Span) -> Found
    ensures { (k : ℕ) (t : Text) → p ≡ span k t → found_told result ≡ shown k t }
{
    if p.start < p.end {
        Found::Text(p)
    } else {
        Found::Empty
    }
}

// Bytes a up to b of the segment, as far as it goes.
fn clip(s: Span, a: usize, b: usize) -> Found
    requires { (s.start ≤ s.end) × (a < b) }
    ensures { (t : Text) → length t ≡ min b (s.end - s.start) - a → found_told result ≡ shown (s.start + a) t }
{
    let len = s.end - s.start;
    between(Span {
        start: s.start + a.min(len),
        end: s.start + b.min(len),
    })
}

// The leaf of the fields that begin after `skip` bytes of the segment.
fn leaf_behind(m: &[u8], s: Span, skip: usize, q: Marks, n: Numbers) -> Found
    requires { LiesIn s m.now }
    ensures { found_told result ≡ leaf_behind q n s.start skip (segment s m.now) }
{
    if s.end - s.start < skip {
        return Found::Empty;
    }
    between(descend(m, s.start + skip, s.end, q, n, 4))
}

// The header's leaf: MSH-1 and MSH-2 are unsplit, and MSH-3 begins after the ninth byte.
fn header_leaf(m: &[u8], s: Span, q: Marks, n: Numbers) -> Found
    requires inside { LiesIn s m.now × (1 ≤ n.field) }
    requires of_header { is_header (segment s m.now) ≡ true }
    ensures { found_told result ≡ leaf_found q n s.start (segment s m.now) }
{
    if 3 <= n.field {
        let behind = Numbers {
            field: n.field - 2,
            ..n
        };
        return leaf_behind(m, s, limits::HEADER_SIZE, q, behind);
    }
    if !((n.repetition == 1) & (n.component == 1) & (n.subcomponent == 1)) {
        return Found::Empty;
    }
    if n.field == 1 {
        return clip(s, 3, 4);
    }
    clip(s, 4, 8)
}

// The leaf of the segment that the numbers lead to.
pub fn leaf(m: &[u8], s: Span, q: Marks, n: Numbers) -> Found
    requires { LiesIn s m.now × (1 ≤ n.field) }
    ensures { found_told result ≡ leaf_found q n s.start (segment s m.now) }
{
    if is_header(&m[s.start..s.end]) {
        return header_leaf(m, s, q, n);
    }
    leaf_behind(m, s, limits::OPENING_SIZE, q, n)
}
