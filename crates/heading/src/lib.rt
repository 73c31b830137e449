// The reply's header: fixed bytes, and leaves of the message's own header. That header is handed down as what stands of it from a field on, so that no field
// is sought twice.
#![tactic(auto)]

pub mod copied;

ghost use Rattle.std.specs.Prelude.{◌≡◌, [], ◌∷◌, ◌++◌, ◌+◌, ◌≤◌, length};
ghost use Rattle.text.specs.Bytes.{pick, byte, cr};
ghost use Rattle.text.specs.Writes.{Writes};
ghost use Rattle.reader.specs.FromField.{first_leaf};
ghost use Rattle.heading.specs.Header.{is_unfit, or_empty, processing, reply_header};
ghost use Rattle.heading.specs.Inner.{HeaderFrom, Opened, with_separator, hd_there, parties};

use escape::resolved_len;
use reader::{behind, field_leaf, first_leaf, first_repetition, is_processing_id};
use text::{Marks, Writer, marks_of};

// A message, and what stands of its header from MSH-3 on and from MSH-10 on: all that a reply copies.
#[derive(Clone, Copy)]
pub struct Header<'a> {
    pub message: &'a [u8],
    pub third: &'a [u8],
    pub tenth: &'a [u8],
}

// Whether a leaf has a bad escape, or is too long when it is read.
pub fn is_unfit(q: Marks, limit: usize, t: &[u8]) -> bool
    ensures { result ≡ is_unfit q limit t.now }
{
    match resolved_len(q, t) {
        None => true,
        Some(n) => limit < n,
    }
}

// The first leaf of the components that stand there as it is copied: no bytes where it is unfit.
fn or_empty<'a>(q: Marks, limit: usize, t: &'a [u8]) -> &'a [u8]
    ensures { result.now ≡ or_empty q limit (first_leaf q t.now) }
{
    let leaf = first_leaf(t, q);
    if is_unfit(q, limit, leaf) { b"" } else { leaf }
}

// A component after its separator; nothing where neither it nor a later one is filled.
fn put_component(w: &mut Writer, wanted: bool, t: &[u8])
    requires { w.old.at + length (pick wanted (byte "^" ∷ t.now) []) ≤ length w.old.out.now }
    ensures { Writes w.old (pick wanted (byte "^" ∷ t.now) []) w.new }
{
    if !wanted {
        return;
    }
    w.put(b"^");
    w.put(t);
}

// The first of those fields, an HD, as it is copied, and the separator after it.
fn put_hd(w: &mut Writer, q: Marks, fields: &[u8])
    requires { w.old.at + length (with_separator (hd_there q fields.now)) ≤ length w.old.out.now }
    ensures { Writes w.old (with_separator (hd_there q fields.now)) w.new }
{
    let components = first_repetition(fields, q);
    let later = behind(components, q.component, 1);
    let last = behind(later, q.component, 1);
    let first = or_empty(q, copied::IS_LIMIT, components);
    let second = or_empty(q, copied::ST_LIMIT, later);
    let third = or_empty(q, copied::ID_LIMIT, last);
    w.put(first);
    put_component(w, (0 < third.len()) | (0 < second.len()), second);
    put_component(w, 0 < third.len(), third);
    w.put(b"|");
}

// The reply's parties: the message's receiver, MSH-5 and MSH-6, then its sender, MSH-3 and MSH-4.
fn put_parties(w: &mut Writer, h: Header)
    requires header_from { HeaderFrom h.message.now 3 h.third.now }
    requires room { w.old.at + length (parties h.message.now) ≤ length w.old.out.now }
    ensures { Writes w.old (parties h.entry.message.now) w.new }
{
    let q = marks_of(h.message);
    let fourth = behind(h.third, q.field, 1);
    let fifth = behind(fourth, q.field, 1);
    let sixth = behind(fifth, q.field, 1);
    put_hd(w, q, fifth);
    put_hd(w, q, sixth);
    put_hd(w, q, h.third);
    put_hd(w, q, fourth);
}

// MSH-11.1, or P where it is not in its list.
fn processing<'a>(t: &'a [u8]) -> &'a [u8]
    ensures { result.now ≡ processing t.now }
{
    if is_processing_id(t) { t } else { b"P" }
}

// The reply's header with its CR.
pub fn put_header(w: &mut Writer, h: Header, stamp: &[u8], number: &[u8])
    requires opened { Opened h.message.now h.third.now h.tenth.now }
    requires room { w.old.at + length (reply_header h.message.now stamp.now number.now ++ cr ∷ []) ≤ length w.old.out.now }
    ensures { Writes w.old (reply_header h.entry.message.now stamp.now number.now ++ cr ∷ []) w.new }
{
    let q = marks_of(h.message);
    let id = processing(field_leaf(behind(h.tenth, q.field, 1), q));
    w.put(b"MSH|^~\\&|");
    put_parties(w, h);
    w.put(stamp);
    w.put(b"||ACK^R01^ACK|");
    w.put(number);
    w.put(b"|");
    w.put(id);
    w.put(b"|2.5.1\r");
}
