// The pieces that a separator ends, one after another: so a message's segments.
ghost use Rattle.std.specs.Iterator.{YieldsFirstRef, item_count};
ghost use Rattle.parts.specs.Split.{ended};

use crate::far_end;

// What is left of the text, and what ends a piece. What stands after the last separator is no piece. Separators may stand far apart.
#[derive(Drop)]
pub struct Ended<'a> {
    pub rest: &'a [u8],
    pub sep: u8,
}

impl<'a> Iterator for Ended<'a> {
    type Item = &'a [u8];

    ghost next_gives = { YieldsFirstRef (λ s. ended s.sep s.rest.now) };

    ghost remaining = { item_count (λ s. ended s.sep s.rest.now) };

    fn next(&mut self) -> Option<&'a [u8]> {
        let t = self.rest;
        let end = far_end(t, 0, self.sep);
        if t.len() <= end {
            return None;
        }
        self.rest = &t[end + 1..];
        Some(&t[..end])
    }
}
