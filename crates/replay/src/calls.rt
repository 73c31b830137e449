// The calls by their names.
use telling::tell_no_call;
use words::Words;

// Puts the answer to a line to the front of `out`, and answers where it ends.
pub fn answer(line: &[u8], out: &mut [u8]) -> usize {
    let mut words = Words::of(line);
    match words.next() {
        Some(b"judge") => reads::judge(words, out),
        Some(b"look") => reads::look(words, out),
        Some(b"resolve") => writes::resolve(words, out),
        Some(b"reply") => writes::reply(words, out),
        Some(b"file") => writes::file(words, out),
        Some(b"read") => reads::read(words, out),
        _ => tell_no_call(out),
    }
}
