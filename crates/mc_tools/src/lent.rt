//! What a run on threads borrows: clocks, and a gate.

use crate::thread_loads::MOMENT;
use mc_threads::{Clock, Gate};

/// A clock that gives one moment repeatedly.
#[derive(Drop)]
pub struct Ticks {
    pub times: Vec<u64>,
}

impl Clock for Ticks {
    ghost times = { λ c. c.times.items };

    fn now(&mut self) -> Option<u64> {
        match self.times.push(MOMENT) {
            Ok(()) => Some(MOMENT),
            Err(_) => None,
        }
    }

    fn given(&self) -> &[u64] {
        self.times.as_slice()
    }
}

/// A gate that is always open.
pub struct Open;

impl Gate for Open {
    ghost lets = { λ g server taken. Unit {0} };

    ghost refuses = { λ g server taken. Unit {0} };

    ghost knows = { λ g server. Unit {0} };

    fn may_take(&self, _server: usize, _taken: u64) -> bool {
        true
    }

    fn took(&self, _server: usize) {}
}
