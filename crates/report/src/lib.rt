// The reply's code, and its ERR: the place and the condition of a fault.
#![tactic(auto)]

ghost use Rattle.std.specs.Prelude.{◌≡◌, [], ◌∷◌, ◌+◌, ◌≤◌, length};
ghost use Rattle.text.specs.Bytes.{pick, byte};
ghost use Rattle.text.specs.Decimal.{decimal};
ghost use Rattle.text.specs.Writes.{Writes};
ghost use Rattle.reader.specs.Told.{place_of};
ghost use Rattle.report.specs.Error.{place_text};
ghost use Rattle.report.specs.Inner.{code_of, error_of, error_text, condition_words};

use reader::{Fault, Place};
use text::{Refusal, Writer};

// From this condition on a message is rejected.
const FIRST_REJECTION: u16 = 200;

// MSA up to the control number. A message that is refused has no reply, and nothing is put.
pub fn put_code(w: &mut Writer, v: Result<Option<Fault>, Refusal>)
    requires { w.old.at + length (code_of v) ≤ length w.old.out.now }
    ensures { Writes w.old (code_of v) w.new }
{
    match v {
        Err(_) => w.put(b""),
        Ok(None) => w.put(b"MSA|AA|"),
        Ok(Some(f)) if f.condition() < FIRST_REJECTION => w.put(b"MSA|AE|"),
        Ok(Some(_)) => w.put(b"MSA|AR|"),
    }
}

// A number of a place after its separator; nothing where neither it nor a later one is above nought.
fn put_number(w: &mut Writer, wanted: bool, n: u64)
    requires { w.old.at + length (pick wanted (byte "^" ∷ decimal n) []) ≤ length w.old.out.now }
    ensures { Writes w.old (pick wanted (byte "^" ∷ decimal n) []) w.new }
{
    if !wanted {
        return;
    }
    w.put(b"^");
    w.put_decimal(n);
}

// A place with its trailing zeros left off.
fn put_place(w: &mut Writer, p: Place)
    requires { w.old.at + length (place_text (place_of p)) ≤ length w.old.out.now }
    ensures { Writes w.old (place_text (place_of p)) w.new }
{
    let e = 0 < p.subcomponent;
    let d = e | (0 < p.component);
    let c = d | (0 < p.repetition);
    let b = c | (0 < p.field);
    let a = b | (0 < p.occurrence);
    w.put(&[p.first, p.second, p.third]);
    put_number(w, a, p.occurrence);
    put_number(w, b, p.field);
    put_number(w, c, p.repetition);
    put_number(w, d, p.component);
    put_number(w, e, p.subcomponent);
}

// The condition of a fault, its text, and the table they stand in.
fn condition_words(f: Fault) -> &'static [u8]
    ensures { result.now ≡ condition_words f.reason }
{
    match f.condition() {
        100 => b"100^Segment sequence error^HL70357",
        101 => b"101^Required field missing^HL70357",
        102 => b"102^Data type error^HL70357",
        103 => b"103^Table value not found^HL70357",
        200 => b"200^Unsupported message type^HL70357",
        201 => b"201^Unsupported event code^HL70357",
        202 => b"202^Unsupported processing id^HL70357",
        203 => b"203^Unsupported version id^HL70357",
        _ => b"0^^HL70357",
    }
}

// ERR with its CR.
fn put_fault(w: &mut Writer, f: Fault)
    requires { w.old.at + length (error_text (place_of f.place) f.reason) ≤ length w.old.out.now }
    ensures { Writes w.old (error_text (place_of f.place) f.reason) w.new }
{
    w.put(b"ERR||");
    put_place(w, f.place);
    w.put(b"|");
    w.put(condition_words(f));
    w.put(b"|E\r");
}

// An ERR for a fault, nothing for an accepted message or one that is refused.
pub fn put_error(w: &mut Writer, v: Result<Option<Fault>, Refusal>)
    requires { w.old.at + length (error_of v) ≤ length w.old.out.now }
    ensures { Writes w.old (error_of v) w.new }
{
    match v {
        Ok(Some(f)) => put_fault(w, f),
        Ok(None) => w.put(b""),
        Err(_) => w.put(b""),
    }
}
