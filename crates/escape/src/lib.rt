// Escapes: the text that a person reads, and its length. A text with a bad escape has neither.
#![tactic(auto)]

ghost use Rattle.std.specs.Prelude.{◌≡◌, false, ◌+◌, ◌≤◌, length};
ghost use Rattle.text.specs.Bytes.{pick};
ghost use Rattle.escape.specs.Escape.{bad_escape, resolved};
ghost use Rattle.escape.specs.Length.{Measures};
ghost use Rattle.escape.specs.Promise.{Resolves};
ghost use Rattle.text.specs.Writes.{Writes};
ghost use Rattle.escape.specs.Step.{is_letter, ReadsFirst};

use text::{Marks, Refusal, Writer, every, usual_marks};

// The separator that a letter means; none where it is the letter of no escape.
fn meant(q: Marks, letter: u8) -> Option<u8>
    ensures { result ≡ pick (is_letter letter) (Some (Rattle.escape.specs.Step.meant q letter)) None }
{
    match letter {
        b'F' => Some(q.field),
        b'S' => Some(q.component),
        b'T' => Some(q.subcomponent),
        b'R' => Some(q.repetition),
        b'E' => Some(q.escape),
        _ => None,
    }
}

// The byte that a person reads first, and what follows it in the text; none where nothing or a bad escape is there.
fn first_read<'a>(q: Marks, t: &'a [u8]) -> Option<(u8, &'a [u8])>
    ensures { ReadsFirst q t.now result }
{
    match t {
        [b, rest @ ..] if *b != q.escape => Some((*b, rest)),
        [_, letter, end, rest @ ..] if *end == q.escape => Some((meant(q, *letter)?, rest)),
        _ => None,
    }
}

// The length of the text that a person reads, byte by byte; a text with a bad escape has none.
fn counted(q: Marks, t: &[u8]) -> Option<usize>
    ensures { Measures q t.now result }
{
    let mut n = 0;
    let mut rest = t;
    while let Some((_, after)) = first_read(q, rest) {
        n += 1;
        rest = after;
    }
    if rest.is_empty() { Some(n) } else { None }
}

// The same: most texts have no \ at all, and are as long as they are written.
pub fn resolved_len(q: Marks, t: &[u8]) -> Option<usize>
    ensures { Measures q t.now result }
{
    if every(t, |b| b != q.escape) {
        return Some(t.len());
    }
    counted(q, t)
}

// Puts the resolved text, and goes on behind it. Inner: the callers hold that there is room and no bad escape.
pub fn put_resolved(w: &mut Writer, q: Marks, t: &[u8])
    requires { (bad_escape q t.now ≡ false) × (w.old.at + length (resolved q t.now) ≤ length w.old.out.now) }
    ensures { Writes w.old (resolved q t.now) w.new }
{
    // Kept: byte by byte at places of its own. By `first_read` over what is left and by `Writer::put`, and by `first_read` alone, a text took up to
    // twice the time.
    let mut to = w.at;
    let mut i = 0;
    while i < t.len() {
        let b = t[i];
        if b == q.escape {
            w.out[to] = meant(q, t[i + 1]).unwrap_or(q.escape);
            to += 1;
            i += 3;
        } else {
            w.out[to] = b;
            to += 1;
            i += 1;
        }
    }
    w.at = to;
}

// Resolves a text with the usual separators into the buffer. Both tests are done before a byte is written.
pub fn resolve(text: &[u8], buffer: &mut [u8]) -> Result<usize, Refusal>
    ensures { Resolves text.now buffer.old result buffer.new }
{
    let q = usual_marks();
    let n = resolved_len(q, text).ok_or(Refusal::BadEscape)?;
    if buffer.len() < n {
        return Err(Refusal::NoRoom);
    }
    let mut w = Writer { out: buffer, at: 0 };
    put_resolved(&mut w, q, text);
    Ok(w.at)
}
