//! A host to look up.

use crate::notices::Cause;
use mc_net::first_address;
use mio::Waker;
use std::alloc::Global;
use std::net::{Net, SocketAddr};
use std::sync::{Arc, OnceLock};

/// The result of a look-up: the first IPv4 address of a host, or why it has none.
pub type Found = Result<SocketAddr, Cause>;

/// A host to look up, and the result.
#[derive(Drop)]
pub struct Question {
    /// `<host>:<port>`.
    address: String,
    /// Empty until the look-up has ended.
    found: OnceLock<Found>,
    /// The waker of the poll, called then.
    waker: Arc<Waker, Global>,
}

impl Question {
    /// Makes the question where `<host>:<port>` is. Its answer wakes the waker's poll.
    pub fn new(address: String, waker: Arc<Waker, Global>) -> Question {
        Question {
            address,
            found: OnceLock::new(),
            waker,
        }
    }

    /// Returns the result, once the look-up has ended.
    pub fn found(&self) -> Option<Found> {
        self.found.get().copied()
    }

    /// Looks the host up, which may block on a name server.
    pub fn look_up<R: Net>(&self, rt: &R) {
        let first = first_address(rt, self.address.as_str());
        self.answer(first.ok_or(Cause::UnknownHost));
    }

    /// Stores the result, and wakes the poll. Nobody else answers, and a poll that is not woken sees it later.
    pub fn answer(&self, found: Found) {
        let _ = self.found.try_set(found);
        let _ = self.waker.wake();
    }
}
