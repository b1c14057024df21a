//! When a line is printed.
ghost use Rattle.std.specs.Prelude.{◌≡◌, ◌≢◌, ◌≤◌, ◌<◌, ◌↔◌, ◌-◌, None, Some, min, IfNone, IsTrue, OnSome};
ghost use Rattle.std.specs.Bool.{OnTrue, OnFalse};
ghost use Rattle.mc_program.specs.Tickers.{earlier, next_of, one_more, said_of, suppressed_with};

use std::mem;

/// When something is due that is done once in a number of seconds.
#[derive(Clone, Copy, Debug)]
pub struct Ticker {
    /// The number of seconds; 0 for never.
    pub every: u64,
    /// The second in which it is due.
    pub next: u64,
}

impl Ticker {
    /// Makes a ticker of once in `every` seconds, first that many seconds after a second; 0 for never.
    pub fn new(every: u64, second: u64) -> Ticker
        ensures { result ≡ record { every = every; next = next_of every second } }
    {
        Ticker {
            every,
            next: second.saturating_add(every),
        }
    }

    /// Returns the second in which it is due; none if it never is.
    pub fn due(&self) -> Option<u64>
        ensures never { self.now.every ≡ 0 → result ≡ None }
        ensures due { 0 < self.now.every → result ≡ Some self.now.next }
    {
        if self.every == 0 {
            None
        } else {
            Some(self.next)
        }
    }

    /// Returns whether it is due in a second. Then it is due again `every` seconds later.
    pub fn comes(&mut self, second: u64) -> bool
        ensures due { IsTrue result ↔ ((0 < self.old.every) × (self.old.next ≤ second)) }
        ensures came { OnTrue result (self.new ≡ record self.old { next = next_of self.old.every second }) }
        ensures waits { OnFalse result (self.new ≡ self.old) }
    {
        if self.every == 0 || second < self.next {
            return false;
        }
        self.next = second.saturating_add(self.every);
        true
    }
}

/// A line that is printed at most once a second. Lines between two printed ones are suppressed, and the next printed one says how many
/// they are.
#[derive(Clone, Copy, Debug)]
pub struct OncePerSecond<T> {
    /// The line that is due: the first one since the last look.
    pub what: Option<T>,
    /// The second in which a line was printed last.
    pub second: Option<u64>,
    /// How many were suppressed since then; 2^64 - 1 also if there were more.
    pub suppressed: u64,
}

/// A line to print, and how many were suppressed since the last one was printed.
#[derive(Clone, Copy, Debug)]
pub struct Said<T> {
    /// The line.
    pub what: T,
    /// How many were suppressed; 2^64 - 1 also if there were more.
    pub suppressed: u64,
}

impl<T: Copy> OncePerSecond<T> {
    /// Makes the state in which no line was printed, and none is due.
    pub fn new() -> OncePerSecond<T>
        ensures { result ≡ record { what = None; second = None; suppressed = 0 } }
    {
        OncePerSecond {
            what: None,
            second: None,
            suppressed: 0,
        }
    }

    /// Records a line to print. If one is due already, this one is suppressed.
    pub fn note(&mut self, what: T)
        ensures first { self.old.what ≡ None → self.new ≡ record self.old { what = Some what } }
        ensures later { self.old.what ≢ None → self.new ≡ record self.old { suppressed = one_more self.old.suppressed } }
    {
        match self.what {
            None => self.what = Some(what),
            Some(_) => self.suppressed = self.suppressed.saturating_add(1),
        }
    }

    /// Returns the line to print in a second. If one was printed in it before, there is none, and the one that was due is suppressed.
    pub fn take(&mut self, second: u64) -> Option<Said<T>>
        ensures once { self.old.second ≡ Some second → result ≡ None }
        ensures what { self.old.second ≢ Some second → result ≡ said_of self.old.what self.old.suppressed }
        ensures said { OnSome result (self.new ≡ record { what = None; second = Some second; suppressed = 0 }) }
        ensures silent { IfNone result (self.new
            ≡ record self.old { what = None; suppressed = suppressed_with self.old.what self.old.suppressed }) }
    {
        let what = self.what?;
        self.what = None;
        if self.second == Some(second) {
            self.suppressed = self.suppressed.saturating_add(1);
            return None;
        }
        self.second = Some(second);
        let suppressed = mem::replace(&mut self.suppressed, 0);
        Some(Said { what, suppressed })
    }
}

/// Returns the earlier of two moments, either of which may be missing.
pub fn earlier(one: Option<u64>, other: Option<u64>) -> Option<u64>
    ensures { result ≡ earlier one other }
{
    match (one, other) {
        (Some(one), Some(other)) => Some(one.min(other)),
        (Some(one), None) => Some(one),
        (None, other) => other,
    }
}
