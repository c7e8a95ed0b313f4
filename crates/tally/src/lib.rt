// Counts for trials and reports: past the greatest number they stay at it.
#![tactic(auto)]

ghost use Rattle.std.specs.Prelude.{◌≡◌, ◌+◌, ◌-◌, ◌^◌, min, Some, decimal};

use std::fmt;

#[derive(Clone, Copy, PartialEq, Eq, Debug, Default)]
pub struct Count(u64);

impl Count {
    pub fn number(self) -> u64
        ensures { result ≡ self.0 }
    {
        self.0
    }

    pub fn add(&mut self, n: u64)
        ensures { self.new.0 ≡ min (self.old.0 + n) (2 ^ 64 - 1) }
    {
        self.0 = self.0.saturating_add(n);
    }

    // One more.
    pub fn more(&mut self)
        ensures { self.new.0 ≡ min (self.old.0 + 1) (2 ^ 64 - 1) }
    {
        self.add(1);
    }
}

impl fmt::Display for Count {
    ghost output = { λ c. Some (decimal c.0) };

    fn fmt<W: fmt::Write>(&self, f: &mut fmt::Formatter<W>) -> fmt::Result {
        let number = self.0;
        write!(f, "{number}")
    }
}
