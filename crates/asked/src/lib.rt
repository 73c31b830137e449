// What a program is asked for: its arguments, and the number that one of them writes.
#![tactic(auto)]

ghost use Rattle.std.specs.Prelude.{◌+◌, ◌*◌, ◌-◌, ◌≤◌, ◌≡◌, length};
ghost use Rattle.text.specs.Bytes.{byte};
ghost use Rattle.asked.specs.Asked.{fitting, asked};

use std::env::{Env, FillError};
use text::is_digit;

// The number with one more digit. Every number above 65,535 is no place, so one that does not fit is given as the largest: the answer is the same.
fn with_digit(n: u64, b: u8) -> u64
    requires { byte "0" ≤ b }
    ensures { result ≡ fitting (n * 10 + (b - byte "0")) }
{
    n.saturating_mul(10).saturating_add(u64::from(b - b'0'))
}

// The number that an argument writes: none where it is empty or not all digits.
pub fn asked_number(t: &[u8]) -> Option<u64>
    ensures { result ≡ asked t.now }
{
    if t.is_empty() {
        return None;
    }
    let mut n = 0;
    for b in t {
        if !is_digit(*b) {
            return None;
        }
        n = with_digit(n, *b);
    }
    Some(n)
}

// Room for the longest argument: Linux hands a program for x86-64 none of more than 131,071 bytes.
fn longest_word() -> [u8; 131072]
    ensures { 131072 ≡ length result }
{
    [0; 131072]
}

// How many arguments the program was started with, its own name among them.
pub fn argument_count(rt: &impl Env) -> usize {
    for i in 0..usize::MAX {
        if let Err(FillError::NotPresent) = rt.arg(i, &mut []) {
            return i;
        }
    }
    usize::MAX
}

// Puts the program's argument i to the front of `out`, and answers how many bytes it has: none where it is missing or longer than `out`.
// Kept as a number: of memory that is handed out the caller would know nothing afterwards.
pub fn argument(rt: &impl Env, i: usize, out: &mut [u8]) -> usize
    ensures { result ≤ length out.new }
{
    rt.arg(i, out).unwrap_or(0)
}

// The number that the program's argument i writes.
pub fn number_at(rt: &impl Env, i: usize) -> Option<u64> {
    let mut word = longest_word();
    let n = argument(rt, i, &mut word);
    asked_number(&word[..n])
}
