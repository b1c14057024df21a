//! How long a program has served, to the millisecond.
ghost use Rattle.std.specs.Prelude.{◌≡◌, ◌≤◌, ◌/◌, ◌-◌, ◌^◌, ℕ, min};
ghost use Rattle.std.specs.Duration.{as_nanos};

use std::marker::Model;
use std::rt::Clock;
use std::time::{Duration, Instant};

/// How long a program has served, in milliseconds of a clock that nobody sets. It never goes back. Contracts see the
/// milliseconds that it returned last.
#[derive(Drop)]
pub struct Stopwatch {
    start: Option<Instant>,
    millis: u64,
}

impl Model for Stopwatch {
    ghost Value = { ℕ };

    ghost view = { λ s. s.millis };
}

impl Stopwatch {
    /// Starts a stopwatch now.
    pub fn new<R: Clock>(rt: &R) -> Stopwatch
        ensures { result ≡ 0 }
    {
        Stopwatch {
            start: Instant::now(rt).ok(),
            millis: 0,
        }
    }

    /// Returns the milliseconds since it started, and never fewer than it returned before. If the monotonic clock cannot be
    /// read, each call is a second later than the one before.
    pub fn millis<R: Clock>(&mut self, rt: &R) -> u64
        ensures told { result ≡ self.new }
        ensures never_back { self.old ≤ result }
    {
        let passed = match self.start.and_then(|start| start.elapsed(rt).ok()) {
            Some(elapsed) => millis_of(elapsed),
            None => self.millis.saturating_add(1000),
        };
        self.millis = self.millis.max(passed);
        self.millis
    }
}

/// Returns the whole milliseconds of a time, as far as 64 bits count.
fn millis_of(time: Duration) -> u64
    ensures { result ≡ min (as_nanos time / 1_000_000) (2 ^ 64 - 1) }
{
    time.as_millis().min(u64::MAX as u128) as u64
}
