// The calls that write to lent memory: each reads its words, the strings into memory of its own, asks its entry, and tells the answer with
// the buffer or the book as it is then. Where the words are not those of the call, that is told.
#![tactic(auto)]

use strings::{memory, next_string};
use telling::{tell_filed, tell_no_call, tell_written};
use words::Words;

fn resolved(mut words: Words, out: &mut [u8]) -> Option<usize> {
    let mut text = memory();
    let mut buffer = memory();
    let n = next_string(&mut words, &mut text)?;
    let k = next_string(&mut words, &mut buffer)?;
    if !words.is_over() {
        return None;
    }
    let written = escape::resolve(&text[..n], &mut buffer[..k]);
    Some(tell_written(out, written, &buffer[..k]))
}

pub fn resolve(words: Words, out: &mut [u8]) -> usize {
    resolved(words, out).unwrap_or_else(|| tell_no_call(out))
}

fn replied(mut words: Words, out: &mut [u8]) -> Option<usize> {
    let mut message = memory();
    let mut stamp = memory();
    let mut number = memory();
    let mut buffer = memory();
    let n = next_string(&mut words, &mut message)?;
    let s = next_string(&mut words, &mut stamp)?;
    let r = next_string(&mut words, &mut number)?;
    let k = next_string(&mut words, &mut buffer)?;
    if !words.is_over() {
        return None;
    }
    let written = reply::reply(&message[..n], &stamp[..s], &number[..r], &mut buffer[..k]);
    Some(tell_written(out, written, &buffer[..k]))
}

pub fn reply(words: Words, out: &mut [u8]) -> usize {
    replied(words, out).unwrap_or_else(|| tell_no_call(out))
}

fn filed(mut words: Words, out: &mut [u8]) -> Option<usize> {
    let mut message = memory();
    let mut book = memory();
    let n = next_string(&mut words, &mut message)?;
    let group = words.number()?;
    let slot = words.number()?;
    let k = next_string(&mut words, &mut book)?;
    if !words.is_over() {
        return None;
    }
    let filed = slip::file(&message[..n], group, slot as usize, &mut book[..k]);
    Some(tell_filed(out, filed, &book[..k]))
}

pub fn file(words: Words, out: &mut [u8]) -> usize {
    filed(words, out).unwrap_or_else(|| tell_no_call(out))
}
