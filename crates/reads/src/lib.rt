// The calls that only read: each reads its words, the strings into memory of its own, asks its entry and tells the answer. Where the words are not
// those of the call, that is told.
#![tactic(auto)]

use handed::{ask_look, ask_read};
use numbers::place_asked;
use strings::{memory, next_string};
use telling::{tell_no_call, tell_verdict};
use words::Words;

fn judged(mut words: Words, out: &mut [u8]) -> Option<usize> {
    let mut message = memory();
    let n = next_string(&mut words, &mut message)?;
    if !words.is_over() {
        return None;
    }
    Some(tell_verdict(out, reader::judge(&message[..n])))
}

pub fn judge(words: Words, out: &mut [u8]) -> usize {
    judged(words, out).unwrap_or_else(|| tell_no_call(out))
}

// The numbers that the last five words write.
fn five_numbers(words: &mut Words) -> Option<[u64; 5]> {
    let numbers = [
        words.number()?,
        words.number()?,
        words.number()?,
        words.number()?,
        words.number()?,
    ];
    words.is_over().then_some(numbers)
}

// The name may have any length.
fn looked_up(mut words: Words, out: &mut [u8]) -> Option<usize> {
    let mut message = memory();
    let mut name = memory();
    let n = next_string(&mut words, &mut message)?;
    let k = next_string(&mut words, &mut name)?;
    let numbers = five_numbers(&mut words)?;
    Some(ask_look(&message[..n], place_asked(&name[..k], &numbers), out))
}

pub fn look(words: Words, out: &mut [u8]) -> usize {
    looked_up(words, out).unwrap_or_else(|| tell_no_call(out))
}

fn slip_read(mut words: Words, out: &mut [u8]) -> Option<usize> {
    let mut book = memory();
    let n = next_string(&mut words, &mut book)?;
    let slot = words.number()?;
    let tag = words.number()?;
    if !words.is_over() {
        return None;
    }
    Some(ask_read(&book[..n], slot as usize, tag, out))
}

pub fn read(words: Words, out: &mut [u8]) -> usize {
    slip_read(words, out).unwrap_or_else(|| tell_no_call(out))
}
