//! What a run borrows from the tests: clocks, and gates.

use mc_threads::{Clock, Gate, REFUSALS};
use std::sync::atomic::{AtomicU64, Ordering};
use std::thread;

/// How often a server looks for another one that has not arrived yet.
const LOOKS: u64 = 10_000_000;

/// A clock that gives one moment repeatedly, or none.
#[derive(Drop)]
pub struct Ticks {
    pub times: Vec<u64>,
    pub moment: Option<u32>,
}

impl Clock for Ticks {
    ghost times = { λ c. c.times.items };

    fn now(&mut self) -> Option<u64> {
        let moment = u64::from(self.moment?);
        match self.times.push(moment) {
            Ok(()) => Some(moment),
            Err(_) => None,
        }
    }

    fn given(&self) -> &[u64] {
        self.times.as_slice()
    }
}

/// Looks at a count up to this often until it is as large, and returns whether it was.
fn reaches(count: &AtomicU64, least: u64, looks: u64) -> bool {
    for _ in 0..looks {
        if count.load(Ordering::SeqCst) >= least {
            return true;
        }
        thread::yield_now();
    }
    false
}

/// How often a server's gate was asked, and of how many requests it was notified.
#[derive(Drop)]
pub struct Calls {
    pub asked: AtomicU64,
    pub took: AtomicU64,
}

impl Calls {
    /// No call yet.
    fn none() -> Self {
        Calls {
            asked: AtomicU64::new(0),
            took: AtomicU64::new(0),
        }
    }
}

/// A gate that is open or shut, and counts its calls. At the first request of a server it waits until each other server has taken its
/// first one.
#[derive(Drop)]
pub struct Meeting {
    pub is_open: bool,
    pub servers: usize,
    pub calls: [Calls; 5],
    pub missed: AtomicU64,
    pub wrong: AtomicU64,
}

impl Meeting {
    /// A gate for this number of servers, at most five.
    pub fn of(servers: usize, is_open: bool) -> Self {
        Meeting {
            is_open,
            servers: servers.min(5),
            calls: [
                Calls::none(),
                Calls::none(),
                Calls::none(),
                Calls::none(),
                Calls::none(),
            ],
            missed: AtomicU64::new(0),
            wrong: AtomicU64::new(0),
        }
    }

    /// How many requests a server has taken.
    pub fn came_to(&self, server: usize) -> u64 {
        match self.calls.get(server) {
            Some(calls) => calls.took.load(Ordering::SeqCst),
            None => 0,
        }
    }

    /// Whether each server asked once before each request that it took, with the number of those before.
    pub fn is_asked_for_each(&self) -> bool {
        for calls in &self.calls {
            if calls.asked.load(Ordering::SeqCst) != calls.took.load(Ordering::SeqCst) {
                return false;
            }
        }
        self.wrong.load(Ordering::SeqCst) == 0
    }
}

impl Gate for Meeting {
    ghost lets = { λ g server taken. Unit {0} };

    ghost refuses = { λ g server taken. Unit {0} };

    ghost knows = { λ g server. Unit {0} };

    fn may_take(&self, server: usize, taken: u64) -> bool {
        if let Some(calls) = self.calls.get(server) {
            calls.asked.fetch_add(1, Ordering::SeqCst);
        }
        if taken != self.came_to(server) {
            self.wrong.fetch_add(1, Ordering::SeqCst);
        }
        self.is_open
    }

    fn took(&self, server: usize) {
        let Some(calls) = self.calls.get(server) else {
            return;
        };
        if calls.took.fetch_add(1, Ordering::SeqCst) > 0 {
            return;
        }
        for other in self.calls.iter().take(self.servers) {
            if !reaches(&other.took, 1, LOOKS) {
                self.missed.fetch_add(1, Ordering::SeqCst);
            }
        }
    }
}

/// A gate that stays shut for the second server. It opens for the first one once the second was refused so often that its thread ends.
#[derive(Drop)]
pub struct ShutForOne {
    asked: AtomicU64,
    refused: AtomicU64,
}

impl ShutForOne {
    /// A gate that was not asked yet.
    pub fn new() -> Self {
        ShutForOne {
            asked: AtomicU64::new(0),
            refused: AtomicU64::new(0),
        }
    }
}

impl Gate for ShutForOne {
    ghost lets = { λ g server taken. Unit {0} };

    ghost refuses = { λ g server taken. Unit {0} };

    ghost knows = { λ g server. Unit {0} };

    fn may_take(&self, server: usize, _taken: u64) -> bool {
        if server == 0 {
            self.asked.fetch_add(1, Ordering::SeqCst);
            reaches(&self.refused, u64::from(REFUSALS), u64::MAX)
        } else {
            reaches(&self.asked, 1, u64::MAX);
            self.refused.fetch_add(1, Ordering::SeqCst);
            false
        }
    }

    fn took(&self, _server: usize) {}
}
