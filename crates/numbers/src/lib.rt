// Numbers for callers of C and Rust: what is told of each answer, by the number returned and the numbers in the lent list; and the place asked for.
#![tactic(auto)]

ghost use Rattle.std.specs.Prelude.{◌≡◌, List, ℕ, []};
ghost use Rattle.text.specs.Answer.{answer_of};
ghost use Rattle.reader.specs.Fault.{fault};
ghost use Rattle.reader.specs.Told.{place_of, verdict_told};
ghost use Rattle.seek.specs.Told.{found_told};
ghost use Rattle.numbers.specs.Told.{Tells, verdict_numbers, found_numbers, size_numbers, part_numbers};

mod place;

pub use place::place_asked;
use reader::{Fault, Found};
use text::{Refusal, Span};

// What is told by N numbers.
pub trait Told<const N: usize> {
    ghost told: { Self → List ℕ };

    fn numbers(self) -> [u64; N]
        ensures { result ≡ told self };
}

// The ten numbers of a fault.
fn fault_numbers(f: Fault) -> [u64; 10]
    ensures { result ≡ verdict_numbers (fault (place_of f.place) f.reason) }
{
    let p = f.place;
    [
        u64::from(f.number()),
        u64::from(f.condition()),
        u64::from(p.first),
        u64::from(p.second),
        u64::from(p.third),
        p.occurrence,
        p.field,
        p.repetition,
        p.component,
        p.subcomponent,
    ]
}

// A verdict: ten zeros for an accepted message.
impl Told<10> for Option<Fault> {
    ghost told = { λ v. verdict_numbers (verdict_told v) };

    fn numbers(self) -> [u64; 10] {
        match self {
            None => [0; 10],
            Some(f) => fault_numbers(f),
        }
    }
}

// What a look-up finds.
impl Told<3> for Found {
    ghost told = { λ f. found_numbers (found_told f) };

    fn numbers(self) -> [u64; 3] {
        match self {
            Found::Empty => [0, 0, 0],
            Found::Text(s) => [1, s.start as u64, s.end as u64],
        }
    }
}

// How many bytes were written.
impl Told<1> for usize {
    ghost told = { size_numbers };

    fn numbers(self) -> [u64; 1] {
        [self as u64]
    }
}

// A part of the book.
impl Told<2> for Span {
    ghost told = { λ s. part_numbers (record { start = s.start; end = s.end }) };

    fn numbers(self) -> [u64; 2] {
        [self.start as u64, self.end as u64]
    }
}

// A slip filed: the number returned is all that is told.
impl Told<0> for () {
    ghost told = { λ _. [] };

    fn numbers(self) -> [u64; 0] {
        []
    }
}

// Tells an answer: 0 and its numbers, or a refusal's number, and the list stays.
pub fn tell<const N: usize, T: Told<N>>(answer: Result<T, Refusal>, out: &mut [u64; N]) -> u8
    ensures { Tells T.told (answer_of (λ a. a) answer) out.old result out.new }
{
    match answer {
        Ok(a) => {
            *out = a.numbers();
            0
        }
        Err(r) => u8::from(r),
    }
}
