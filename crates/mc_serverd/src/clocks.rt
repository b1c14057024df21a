//! The clock of a server.
ghost use Rattle.std.specs.Prelude.{◌≡◌, ◌<◌, ◌≤◌, ◌^◌, ◌/◌, ℕ};
ghost use Rattle.mc_serverd.specs.Clocks.{moment_after};

use mc_net::{Stopwatch, wall_clock};
use std::marker::Model;
use std::rt::Clock;

/// The clock of a server. A moment is the wall clock's time at its start, and the time that the monotonic clock has counted since. So
/// setting the wall clock neither expires nor prolongs an item. Contracts see the moment that it returned last.
///
/// Both parts are whole seconds, so a moment may be a second before that of a wall clock that was never set. While the machine
/// is suspended the clock stops.
#[derive(Drop)]
pub struct SystemSeconds<'a, R: Clock> {
    rt: &'a R,
    /// The wall clock when this one was made: whole seconds since 1970.
    start: u64,
    stopwatch: Stopwatch,
}

impl<'a, R: Clock> Model for SystemSeconds<'a, R> {
    ghost Value = { ℕ };

    ghost view = { λ c. moment_after c.start (c.stopwatch / 1000) };
}

impl<'a, R: Clock> SystemSeconds<'a, R> {
    /// Makes the clock of a runtime. It begins at 0 if the wall clock is before 1970, or cannot be read.
    pub fn new(rt: &'a R) -> Self {
        SystemSeconds {
            rt,
            start: wall_clock(rt),
            stopwatch: Stopwatch::new(rt),
        }
    }

    /// Returns the moment, in whole seconds since 1970. It is never earlier than the last one. If the monotonic clock cannot be read,
    /// each moment is a second after the one before.
    pub fn now(&mut self) -> u64
        ensures bound { result < 2 ^ 63 }
        ensures told { result ≡ self.new }
        ensures never_back { self.old ≤ result }
    {
        let passed = self.stopwatch.millis(self.rt) / 1000;
        self.start.saturating_add(passed).min(i64::MAX as u64)
    }
}
