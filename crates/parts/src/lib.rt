// The one splitting rule, and the descent into a part.
#![tactic(auto)]

ghost use Rattle.std.specs.Prelude.{◌≡◌, false, ◌+◌, ◌≤◌, length, drop};
ghost use Rattle.parts.specs.Split.{split};
ghost use Rattle.parts.specs.Start.{start, reach};
ghost use Rattle.text.specs.Bytes.{within};
ghost use Rattle.parts.specs.Span.{span, part_text, part_start, mark_at_depth, number_at_depth, steps_from};

mod each;

pub use each::Ended;
use text::{Marks, Span};

// The numbers that lead from a segment's fields to a leaf, each from 1.
#[derive(Clone, Copy)]
pub struct Numbers {
    pub field: u64,
    pub repetition: u64,
    pub component: u64,
    pub subcomponent: u64,
}

// Where the piece that begins at `from` ends, byte by byte.
fn last_end(t: &[u8], from: usize, sep: u8) -> usize
    requires { from ≤ length t.now }
    ensures { result ≡ from + reach sep (drop from t.now) }
{
    for i in from..t.len() {
        if t[i] == sep {
            return i;
        }
    }
    t.len()
}

// Where the piece that begins at `from` ends: at the next separator, or at the text's end. Inner: the callers hold that `from` lies in the text.
// Four bytes a turn, counted by hand: as a `for` over single bytes it took 14% more instructions on M with 506 results, as one over chunks 32%.
pub fn near_end(t: &[u8], from: usize, sep: u8) -> usize
    requires { from ≤ length t.now }
    ensures { result ≡ from + reach sep (drop from t.now) }
{
    let mut i = from;
    while 4 <= t.len() - i {
        if t[i] == sep {
            return i;
        }
        if t[i + 1] == sep {
            return i + 1;
        }
        if t[i + 2] == sep {
            return i + 2;
        }
        if t[i + 3] == sep {
            return i + 3;
        }
        i += 4;
    }
    last_end(t, i, sep)
}

// The same end, found faster where separators stand far apart: sixteen bytes are compared at once. Inner as well.
// The bytes are counted by hand since where they end is the answer: a `for` over chunks counts them too, and is no plainer.
pub fn far_end(t: &[u8], from: usize, sep: u8) -> usize
    requires { from ≤ length t.now }
    ensures { result ≡ from + reach sep (drop from t.now) }
{
    let mut i = from;
    while 16 <= t.len() - i && !t[i..i + 16].contains(&sep) {
        i += 16;
    }
    near_end(t, i, sep)
}

// The same end of any text, and from any place on.
pub fn piece_end(t: &[u8], from: usize, sep: u8) -> usize
    ensures { result ≡ from + reach sep (drop from t.now) }
{
    if from < t.len() {
        if t[from] == sep {
            return from;
        }
        return far_end(t, from, sep);
    }
    from
}

// Piece number n of a text, from 1. Where there is none it is empty and stands at the text's end.
pub fn piece(t: &[u8], sep: u8, n: u64) -> Span
    ensures { result ≡ span (start sep n t.now) (Rattle.parts.specs.Split.piece n (split sep t.now)) }
{
    if n == 0 {
        return Span { start: 0, end: 0 };
    }
    let mut from = 0;
    let mut to = near_end(t, 0, sep);
    for _ in 1..n {
        if t.len() <= to {
            return Span { start: to, end: to };
        }
        from = to + 1;
        to = near_end(t, from, sep);
    }
    Span {
        start: from,
        end: to,
    }
}

// What a text of that depth is cut at: 4 a segment's fields, 3 a field, 2 a repetition, 1 a component.
// A depth is a number and no enum, here and below, since the descent calls itself with the depth falling.
fn mark(q: Marks, depth: usize) -> u8
    ensures { result ≡ mark_at_depth q depth }
{
    match depth {
        1 => q.subcomponent,
        2 => q.component,
        3 => q.repetition,
        _ => q.field,
    }
}

fn number(n: Numbers, depth: usize) -> u64
    ensures { result ≡ number_at_depth n depth }
{
    match depth {
        1 => n.subcomponent,
        2 => n.component,
        3 => n.repetition,
        _ => n.field,
    }
}

// The part of m[from..to] that the numbers lead to, from that depth down: its start and end in m.
// Inner: the callers hold that from and to lie in m.
pub fn descend(m: &[u8], from: usize, to: usize, q: Marks, n: Numbers, depth: usize) -> Span
    requires { (from ≤ to) × (to ≤ length m.now) }
    ensures { result ≡ span (from + part_start (steps_from q n depth) (within from to m.now)) (part_text (steps_from q n depth) (within from to m.now)) }
{
    if depth == 0 {
        return Span {
            start: from,
            end: to,
        };
    }
    let p = piece(&m[from..to], mark(q, depth), number(n, depth));
    let start = from + p.start;
    let end = from + p.end;
    descend(m, start, end, q, n, depth - 1)
}
