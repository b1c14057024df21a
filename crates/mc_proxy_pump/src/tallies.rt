//! The traffic of a proxy's clients.
ghost use Rattle.std.specs.Prelude.{◌≡◌, ◌-◌, is_some};
ghost use Rattle.mc_proxy_pump.specs.Tallies.{counted, fresh_tally};
ghost use Rattle.mc_proxy_pump.specs.Work.{answer_work, request_work};

use crate::limits::{QUANTUM, WORK_BYTES};
use mc_stream::IoStats;

/// The traffic of a proxy's clients.
#[derive(Clone, Copy, Debug)]
pub struct ClientTally {
    /// Requests that were taken, and bytes.
    pub passed: IoStats,
    /// Requests that were answered by a miss, or by nothing, because a command of theirs was lost; none if they are not counted. It wraps
    /// to 0 after 2^64 - 1.
    pub missed: Option<u64>,
    /// Whether a pump of a client failed with unread bytes that name a host: a web browser sends such a line, no client of a cache does.
    /// No pump resets it.
    pub foreign: bool,
    /// How many bytes of memory may be kept for the client of the next pump ([`kept_for`](crate::kept_for)): the caller sets it. A request is
    /// taken and the input read only if what is kept then is not more.
    pub most: u64,
    /// How many bytes may be kept for a request whose answer is emitted ([`Proxy::held_by_oldest`](mc_proxy::Proxy::held_by_oldest)).
    pub answer: u64,
    /// How many bytes would have to be kept for the client of the last pump so that it can go on, if that is more than may be.
    pub short: Option<u64>,
    /// The work that is left to the running pump of a client, in units.
    pub(crate) left: u64,
}

impl ClientTally {
    /// Makes a tally of no traffic, which counts requests whose answer hides a loss, or not.
    pub fn new(counts: bool) -> ClientTally
        ensures { result ≡ fresh_tally counts }
    {
        ClientTally {
            passed: IoStats::new(),
            missed: counts.then_some(0),
            foreign: false,
            left: QUANTUM,
            most: u64::MAX,
            answer: u64::MAX,
            short: None,
        }
    }

    /// Returns whether requests whose answer hides a loss are counted.
    pub fn counts(&self) -> bool
        ensures { result ≡ is_some self.now.missed }
    {
        self.missed.is_some()
    }

    /// Counts an answer if it hides a loss.
    pub fn answered(&mut self, hides_loss: bool)
        ensures { self.new ≡ record self.old { missed = counted hides_loss self.old.missed } }
    {
        if let Some(missed) = self.missed
            && hides_loss
        {
            self.missed = Some(missed.wrapping_add(1));
        }
    }

    /// Takes the work of a request that was taken from what is left: one unit, and one for each of its commands.
    pub(crate) fn charge_request(&mut self, commands: usize)
        ensures { self.new ≡ record self.old { left = self.old.left - request_work commands } }
    {
        self.left = self.left.saturating_sub(1).saturating_sub(commands as u64);
    }

    /// Takes the work of an answer that was emitted from what is left: one unit, and one for each whole [`WORK_BYTES`].
    pub(crate) fn charge_answer(&mut self, bytes: usize)
        ensures { self.new ≡ record self.old { left = self.old.left - answer_work bytes } }
    {
        let blocks = bytes as u64 / WORK_BYTES;
        self.left = self.left.saturating_sub(1).saturating_sub(blocks);
    }
}
