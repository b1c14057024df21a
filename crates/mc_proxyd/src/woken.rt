//! Sessions that go on since commands of theirs were answered.

use std::alloc::{AllocError, Global};

/// The sessions that go on since commands of theirs were answered.
#[derive(Drop)]
pub struct Woken {
    /// Their numbers. The pumps of links append them here, some more than once.
    pub sessions: Vec<u64>,
}

impl Woken {
    /// Makes an empty list, with room for `capacity` numbers.
    pub fn with_capacity(alloc: Global, capacity: usize) -> Result<Woken, AllocError> {
        Ok(Woken {
            sessions: Vec::with_capacity(alloc, capacity)?,
        })
    }

    /// Returns whether the list is empty.
    pub fn is_empty(&self) -> bool {
        self.sessions.is_empty()
    }

    /// Returns how many numbers there are. A session that was woken twice is counted twice.
    pub fn len(&self) -> usize {
        self.sessions.len()
    }

    /// Sorts the sessions, so that each is taken once.
    pub fn group(&mut self) {
        self.sessions.sort_unstable();
    }

    /// Takes a session. If they are sorted, each is taken once.
    pub fn take(&mut self) -> Option<u64> {
        let session = self.sessions.pop()?;
        for _ in 0..self.sessions.len() {
            if self.sessions.last() != Some(&session) {
                break;
            }
            self.sessions.pop();
        }
        Some(session)
    }
}
