//! How much is done in a second.
ghost use Rattle.std.specs.Prelude.{◌≡◌, ◌≢◌, ◌-◌, ◌==◌, false, true, nat_lt};

/// The most steps of a second: each is an accept, a read, an answer or a write.
pub const STEPS: u32 = 1000;

/// How many steps are left in a second.
#[derive(Clone, Copy, Debug)]
pub struct Budget {
    second: u64,
    left: u32,
}

impl Budget {
    /// Makes a budget with all its steps, in any second.
    pub fn new() -> Budget
        ensures { result.left ≡ STEPS }
    {
        Budget {
            second: 0,
            left: STEPS,
        }
    }

    /// Takes a step of a second, and returns whether one was left.
    pub fn take(&mut self, second: u64) -> bool
        ensures another { self.old.second ≢ second → result ≡ true × (self.new.left ≡ STEPS - 1) }
        ensures left { self.old.second ≡ second → result ≡ nat_lt 0 self.old.left × (self.new.left ≡ self.old.left - 1) }
        ensures second { self.new.second ≡ second }
    {
        if self.second != second {
            self.second = second;
            self.left = STEPS;
        }
        let is_left = self.left > 0;
        self.left = self.left.saturating_sub(1);
        is_left
    }

    /// Returns whether a step of a second is left.
    pub fn has(&self, second: u64) -> bool {
        self.second != second || self.left > 0
    }
}
