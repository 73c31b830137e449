// The acknowledgement: the reply to a message.
#![tactic(auto)]

pub mod limits;

ghost use Rattle.std.specs.Prelude.{◌≡◌, true, false, ◌≤◌, length};
ghost use Rattle.text.specs.Puts.{Puts};
ghost use Rattle.types.specs.Types.{is_stamp, is_reply_number};
ghost use Rattle.profile.specs.Profile.{profile01};
ghost use Rattle.reader.specs.Fault.{verdict};
ghost use Rattle.reader.specs.Told.{verdict_told};
ghost use Rattle.heading.specs.Inner.{HeaderFrom, Opened};
ghost use Rattle.reply.specs.Reply.{no_control, reply_text};
ghost use Rattle.reply.specs.Inner.{Acknowledges};
ghost use Rattle.reply.specs.Promise.{Replies};

use heading::{Header, copied, is_unfit, put_header};
use reader::{Fault, field_leaf, fields_in, judge, occurrence};
use report::{put_code, put_error};
use text::{Refusal, Writer, marks_of, put};
use types::{is_reply_number, is_stamp};

// Whether the control number, MSH-10, is Empty, with a bad escape or over its limit.
fn has_no_control(h: Header) -> bool
    requires { HeaderFrom h.message.now 10 h.tenth.now }
    ensures { result ≡ no_control h.entry.message.now }
{
    let q = marks_of(h.message);
    let control = field_leaf(h.tenth, q);
    control.is_empty() | is_unfit(q, copied::CONTROL_LIMIT, control)
}

// Puts the whole reply to the front, and answers where it ends.
fn put_reply(out: &mut [u8], h: Header, fault: Option<Fault>, stamp: &[u8], number: &[u8]) -> usize
    requires opened { Opened h.message.now h.third.now h.tenth.now }
    requires verdict_told { verdict_told fault ≡ verdict profile01 h.message.now }
    requires room { length (reply_text profile01 h.message.now stamp.now number.now) ≤ length out.old }
    ensures { Puts out.old 0 (reply_text profile01 h.entry.message.now stamp.now number.now) out.new result }
{
    let control = field_leaf(h.tenth, marks_of(h.message));
    let mut w = Writer { out, at: 0 };
    put_header(&mut w, h, stamp, number);
    put_code(&mut w, Ok(fault));
    w.put(control);
    w.put(b"\r");
    put_error(&mut w, Ok(fault));
    w.at
}

// The reply to such a message into a buffer that may be too short: it is written aside, where each reply has room; then the buffer's room is tested, and only then is a
// byte of the buffer written. By itself, so that whoever lends enough is spared the clearing of those bytes.
#[inline(never)]
fn reply_aside(
    h: Header,
    fault: Option<Fault>,
    stamp: &[u8],
    number: &[u8],
    buffer: &mut [u8],
) -> Result<usize, Refusal>
    requires opened { Opened h.message.now h.third.now h.tenth.now }
    requires verdict_told { verdict_told fault ≡ verdict profile01 h.message.now }
    requires good { (is_stamp stamp.now ≡ true) × ((is_reply_number number.now ≡ true) × (no_control h.message.now ≡ false)) }
    ensures { Acknowledges h.entry.message.now stamp.now number.now buffer.old result buffer.new }
{
    let mut out = [0u8; limits::LONGEST_REPLY];
    let n = put_reply(&mut out, h, fault, stamp, number);
    if buffer.len() < n {
        return Err(Refusal::NoRoom);
    }
    Ok(put(buffer, 0, &out[..n]))
}

// The reply to a message whose frame is good. A buffer that has room for each reply is written at once.
fn acknowledge(
    m: &[u8],
    fault: Option<Fault>,
    stamp: &[u8],
    number: &[u8],
    buffer: &mut [u8],
) -> Result<usize, Refusal>
    requires { verdict_told fault ≡ verdict profile01 m.now }
    ensures { Acknowledges m.now stamp.now number.now buffer.old result buffer.new }
{
    if !is_stamp(stamp) {
        return Err(Refusal::BadStamp);
    }
    if !is_reply_number(number) {
        return Err(Refusal::BadReplyNumber);
    }
    let header = occurrence(m, b'M', b'S', b'H', 1);
    let third = fields_in(m, header, copied::PARTIES);
    let tenth = fields_in(m, header, copied::CONTROL_NUMBER);
    let h = Header {
        message: m,
        third,
        tenth,
    };
    if has_no_control(h) {
        return Err(Refusal::NoControlNumber);
    }
    if limits::LONGEST_REPLY <= buffer.len() {
        return Ok(put_reply(buffer, h, fault, stamp, number));
    }
    reply_aside(h, fault, stamp, number, buffer)
}

// Writes the reply to a message into the buffer, with that stamp and that reply number.
pub fn reply(m: &[u8], stamp: &[u8], number: &[u8], buffer: &mut [u8]) -> Result<usize, Refusal>
    ensures { Replies profile01 m.now stamp.now number.now buffer.old result buffer.new }
{
    let fault = judge(m)?;
    acknowledge(m, fault, stamp, number, buffer)
}
