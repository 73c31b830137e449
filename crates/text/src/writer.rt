// A lent buffer, and how far it is written.
ghost use Rattle.std.specs.Prelude.{◌≡◌, ◌+◌, ◌≤◌, length};
ghost use Rattle.text.specs.Decimal.{decimal};
ghost use Rattle.text.specs.Writes.{Writes};

use crate::writing::{put, put_decimal};

#[derive(Drop)]
pub struct Writer<'a> {
    pub out: &'a mut [u8],
    pub at: usize,
}

impl<'a> Writer<'a> {
    // Puts a text, and goes on behind it. Inner, as all methods here: the callers hold that there is room.
    pub fn put(&mut self, t: &[u8])
        requires { self.old.at + length t.now ≤ length self.old.out.now }
        ensures { Writes self.old t.now self.new }
    {
        self.at = put(self.out, self.at, t);
    }

    // Puts a number's digits.
    pub fn put_decimal(&mut self, n: u64)
        requires { self.old.at + length (decimal n) ≤ length self.old.out.now }
        ensures { Writes self.old (decimal n) self.new }
    {
        self.at = put_decimal(self.out, self.at, n);
    }
}
