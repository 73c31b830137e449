// Judging a message.
ghost use Rattle.std.specs.Prelude.{◌≡◌, true, ◌+◌, ◌≤◌, length};
ghost use Rattle.frame.specs.Frame.{framed};
ghost use Rattle.profile.specs.Numbers.{table_of};
ghost use Rattle.profile.specs.Order.{Sound};
ghost use Rattle.profile.specs.Profile.{profile01};
ghost use Rattle.checks.specs.Fault.{fault, verdict};
ghost use Rattle.checks.specs.Place.{place};
ghost use Rattle.checks.specs.Reasons.{number_of_reason};
ghost use Rattle.reader.specs.Promise.{Judges};
ghost use Rattle.reader.specs.Told.{verdict_told};
ghost use Rattle.listing.specs.Listing.{name_at, count_before, Opens, Here};
ghost use Rattle.walk.specs.Judged.{halt_verdict, number_at};

use crate::{Fault, Place};
use checks::reasons::Reason;
use codes::segment_number;
use frame::check;
use listing::{next_listed, occurrence_at};
use profile::profile;
use segments::{Finding, read_segment};
use text::{Refusal, marks_of};
use walk::{Halt, Why, header};

// A fault of the segment that starts there: only here is the occurrence of its name counted.
fn fault_of(m: &[u8], start: usize, r: Finding) -> Fault
    requires { (start + 3 ≤ length m.now) × Opens m.now start }
    ensures { verdict_told (Some result)
        ≡ fault
        (place (name_at m.now start) (count_before m.now start (name_at m.now start) + 1) r.field r.repetition r.component r.subcomponent)
        (number_of_reason r.reason) }
{
    Fault {
        place: Place {
            first: m[start],
            second: m[start + 1],
            third: m[start + 2],
            occurrence: occurrence_at(m, start),
            field: r.field,
            repetition: r.repetition,
            component: r.component,
            subcomponent: r.subcomponent,
        },
        reason: u8::from(r.reason),
    }
}

// The fault where reading stopped. A segment with a broken field is read once more, for the reason and the place.
fn fault_at(m: &[u8], table: &[u16], h: Halt) -> Option<Fault>
    requires { Sound table.now × Here m.now h.start h.end (number_at m.now h.start h.end) }
    ensures { verdict_told result ≡ halt_verdict (table_of table.now) m.now h }
{
    let found = match h.why {
        Why::OutOfPlace => Finding::of_segment(Reason::OutOfPlace),
        Why::MayNotEnd => Finding::of_segment(Reason::MayNotEnd),
        Why::FieldBroken => {
            let number = segment_number(m[h.start], m[h.start + 1], m[h.start + 2]);
            read_segment(&m[h.start..h.end], marks_of(m), table, number).err()?
        }
    };
    Some(fault_of(m, h.start, found))
}

// The first fault by a lent table in a message whose frame is good: it begins with the header.
fn judge_framed(m: &[u8], table: &[u16]) -> Option<Fault>
    requires { Sound table.now × (framed m.now ≡ true) }
    ensures { verdict_told result ≡ verdict (table_of table.now) m.now }
{
    let first = next_listed(m, 0)?;
    let halt = header(m, table, first).err()?;
    fault_at(m, table, halt)
}

// Judges a message by the depot's own table: refused, accepted (None), or the first fault.
pub fn judge(m: &[u8]) -> Result<Option<Fault>, Refusal>
    ensures { Judges profile01 m.now result }
{
    check(m)?;
    Ok(judge_framed(m, &profile()))
}
