// The lines that the desk's programs print. Inner: the program lends the bytes for a line (`sizes`).
#![tactic(auto)]

pub mod sizes;

ghost use Rattle.std.specs.Prelude.{◌+◌, ◌≤◌, ◌∷◌, length};
ghost use Rattle.text.specs.Bytes.{byte};
ghost use Rattle.text.specs.Decimal.{decimal};
ghost use Rattle.text.specs.Puts.{Puts};
ghost use Rattle.parts.specs.Split.{led};
ghost use Rattle.reader.specs.Told.{place_of, found_of, verdict_of};
ghost use Rattle.line.specs.Line.{refused_line, place_words, fault_line, desk_line, text_line, look_line, as_line};
ghost use Rattle.line.specs.Inner.{look_buffer, desk_buffer, number_size, place_size, WritesWithin};

use reader::{Fault, Found, Place};
use text::{Refusal, Span, Writer, put};

// The line that tells a refusal.
pub fn refused_line(r: Refusal, out: &mut [u8]) -> usize
    requires { look_buffer ≤ length out.old }
    ensures { Puts out.old 0 (as_line (refused_line r)) out.new result }
{
    let mut w = Writer { out, at: 0 };
    w.put(b"refused ");
    w.put_decimal(u64::from(u8::from(r)));
    w.put(b"\n");
    w.at
}

fn text_line(s: Span, out: &mut [u8]) -> usize
    requires { look_buffer ≤ length out.old }
    ensures { Puts out.old 0 (as_line (text_line s.start s.end)) out.new result }
{
    let mut w = Writer { out, at: 0 };
    w.put(b"text");
    put_number(&mut w, s.start as u64);
    put_number(&mut w, s.end as u64);
    w.put(b"\n");
    w.at
}

// The line that tells what a look-up found.
pub fn look_line(f: Result<Found, Refusal>, out: &mut [u8]) -> usize
    requires { look_buffer ≤ length out.old }
    ensures { Puts out.old 0 (as_line (look_line (found_of f))) out.new result }
{
    match f {
        Err(r) => refused_line(r, out),
        Ok(Found::Empty) => put(out, 0, b"empty\n"),
        Ok(Found::Text(s)) => text_line(s, out),
    }
}

// A blank and a number after it.
fn put_number(w: &mut Writer, n: u64)
    requires { w.old.at + number_size ≤ length w.old.out.now }
    ensures { WritesWithin number_size w.old (byte " " ∷ decimal n) w.new }
{
    w.put(b" ");
    w.put_decimal(n);
}

// A place's name and five numbers, a blank before each.
fn put_place(w: &mut Writer, p: Place)
    requires { w.old.at + place_size ≤ length w.old.out.now }
    ensures { WritesWithin place_size w.old (led (byte " ") (place_words (place_of p))) w.new }
{
    w.put(&[b' ', p.first, p.second, p.third]);
    put_number(w, p.occurrence);
    put_number(w, p.field);
    put_number(w, p.repetition);
    put_number(w, p.component);
    put_number(w, p.subcomponent);
}

fn fault_line(f: Fault, out: &mut [u8]) -> usize
    requires { desk_buffer ≤ length out.old }
    ensures { Puts out.old 0 (as_line (fault_line (place_of f.place) f.reason)) out.new result }
{
    let mut w = Writer { out, at: 0 };
    w.put(b"fault");
    put_place(&mut w, f.place);
    put_number(&mut w, u64::from(f.condition()));
    put_number(&mut w, u64::from(f.number()));
    w.put(b"\n");
    w.at
}

// The line that tells how a message is judged.
pub fn desk_line(v: Result<Option<Fault>, Refusal>, out: &mut [u8]) -> usize
    requires { desk_buffer ≤ length out.old }
    ensures { Puts out.old 0 (as_line (desk_line (verdict_of v))) out.new result }
{
    match v {
        Err(r) => refused_line(r, out),
        Ok(None) => put(out, 0, b"accepted\n"),
        Ok(Some(f)) => fault_line(f, out),
    }
}
