// The words of a line that spell strings of bytes.
#![tactic(auto)]

ghost use Rattle.std.specs.Prelude.{◌≤◌, length, IfSome};

mod reading;

pub use reading::is_plain;
use reading::read_string;
use words::Words;

// Memory for the longest string.
pub fn memory() -> [u8; 131072] {
    [0u8; 131072]
}

// Puts the string that the next word spells to the front of `into`, and answers how many bytes it has.
// Kept as a number: of memory that is handed out the caller would know nothing afterwards.
pub fn next_string(words: &mut Words, into: &mut [u8]) -> Option<usize>
    ensures { IfSome result (λ n. n ≤ length into.new) }
{
    let spelt = words.next()?.strip_prefix(b"=")?;
    read_string(spelt, into)
}
