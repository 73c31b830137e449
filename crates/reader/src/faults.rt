// What is told of a fault's reason.
ghost use Rattle.std.specs.Prelude.{◌≡◌};
ghost use Rattle.checks.specs.Fault.{condition};

use crate::Fault;
use checks::condition;

impl Fault {
    // The number of its reason: of a fault that `judge` answers, 1 to 13.
    pub fn number(self) -> u8
        ensures { result ≡ self.reason }
    {
        self.reason
    }

    // The condition code of its reason.
    pub fn condition(self) -> u16
        ensures { result ≡ condition self.reason }
    {
        condition(self.number())
    }
}
