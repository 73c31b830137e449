// The lines that tell what an entry answered. What has no room is left out: the program lends room for every answer.
#![tactic(auto)]

use line::sizes;
use reader::{Fault, Found};
use spelling::{put, put_decimal, put_string};
use text::{Refusal, Span, Writer};

// A blank and a number.
fn put_number(w: &mut Writer, n: u64) {
    put(w, b" ");
    put_decimal(w, n);
}

// A blank and a string.
fn put_bytes(w: &mut Writer, bytes: &[u8]) {
    put(w, b" ");
    put_string(w, bytes);
}

// A part of lent bytes: its start and end after the word that tells it, and its bytes.
fn put_part(w: &mut Writer, name: &[u8], part: Span, bytes: &[u8]) {
    put(w, name);
    put_number(w, part.start as u64);
    put_number(w, part.end as u64);
    put_bytes(w, bytes);
}

pub fn tell_no_call(out: &mut [u8]) -> usize {
    let mut w = Writer { out, at: 0 };
    put(&mut w, b"no call\n");
    w.at
}

// The verdict's line is the desk's.
pub fn tell_verdict(out: &mut [u8], verdict: Result<Option<Fault>, Refusal>) -> usize {
    if out.len() < sizes::DESK_BUFFER {
        return 0;
    }
    line::desk_line(verdict, out)
}

// The refusal's number, or what was given; then the memory as it is, where the entry may have written to it.
fn tell<T: Drop, F: FnOnce(&mut Writer, T) + Drop>(
    out: &mut [u8],
    answer: Result<T, Refusal>,
    memory: Option<&[u8]>,
    put_given: F,
) -> usize
    requires { F.IsAlwaysCallable put_given }
{
    let mut w = Writer { out, at: 0 };
    match answer {
        Ok(given) => put_given(&mut w, given),
        Err(r) => {
            put(&mut w, b"refused");
            put_number(&mut w, u64::from(u8::from(r)));
        }
    }
    if let Some(bytes) = memory {
        put_bytes(&mut w, bytes);
    }
    put(&mut w, b"\n");
    w.at
}

// The part is told as it was handed out, and not cut from the message anew.
pub fn tell_found(out: &mut [u8], sort: Result<Found, Refusal>, text: &[u8]) -> usize {
    tell(out, sort, None, |w, found| match found {
        Found::Empty => put(w, b"empty"),
        Found::Text(part) => put_part(w, b"text", part, text),
    })
}

pub fn tell_value(out: &mut [u8], sort: Result<Span, Refusal>, value: &[u8]) -> usize {
    tell(
        out,
        sort,
        None,
        |w, part| put_part(w, b"value", part, value),
    )
}

pub fn tell_written(out: &mut [u8], written: Result<usize, Refusal>, buffer: &[u8]) -> usize {
    tell(out, written, Some(buffer), |w, count| {
        put(w, b"written");
        put_number(w, count as u64);
    })
}

pub fn tell_filed(out: &mut [u8], filed: Result<(), Refusal>, book: &[u8]) -> usize {
    tell(out, filed, Some(book), |w, ()| put(w, b"filed"))
}
