// The words of a line, and the numbers among them. A blank stands between two words, and each may be empty.
#![tactic(auto)]

ghost use Rattle.std.specs.Prelude.{◌≡◌};
ghost use Rattle.std.specs.Iterator.{YieldsFirstRef, item_count};
ghost use Rattle.text.specs.Bytes.{empty};
ghost use Rattle.words.specs.Left.{words_of, words_left, NumberRead};

mod ends;

use asked::asked_number;
pub use ends::seek;
use parts::far_end;

// The words of a line that have not been read. Copied, it keeps its place in the line, so that a word can be read again.
#[derive(Clone, Copy)]
pub struct Words<'a> {
    // from the next word on; none once the last one has been read
    rest: Option<&'a [u8]>,
}

impl<'a> Words<'a> {
    pub fn of(line: &'a [u8]) -> Self
        ensures { words_left result ≡ words_of line.now }
    {
        Words { rest: Some(line) }
    }

    // The number that the next word writes.
    pub fn number(&mut self) -> Option<u64>
        ensures { NumberRead (words_left self.old) result (words_left self.new) }
    {
        asked_number(self.next()?)
    }

    // Whether the line has no more words.
    pub fn is_over(&self) -> bool
        ensures { result ≡ empty (words_left self.now) }
    {
        self.rest.is_none()
    }
}

impl<'a> Iterator for Words<'a> {
    type Item = &'a [u8];

    ghost next_gives = { YieldsFirstRef words_left };

    ghost remaining = { item_count words_left };

    fn next(&mut self) -> Option<&'a [u8]> {
        let rest = self.rest?;
        let end = far_end(rest, 0, b' ');
        self.rest = rest.get(end + 1..);
        Some(&rest[..end])
    }
}
