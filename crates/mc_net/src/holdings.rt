//! What is kept for a client, and whether it makes progress.
ghost use Rattle.std.specs.Prelude.{◌≡◌, nat_le, true};
ghost use Rattle.mc_net.specs.Holdings.{counted_move, is_large, is_blamed, is_slow, kept_now, new_holding, one_more, rested, swept};

use crate::buffers::CLIENT_SHARE;
use crate::shortages::Standing;

/// A client that keeps more than its share is slow if it moves fewer bytes between two sweeps than this, or than a part of the most
/// that it kept.
pub const LEAST_MOVED: u64 = 4096;

/// The part of the most that it kept that a client must move between two sweeps: one in this number. So it takes its answers within this many.
pub const MOVED_PART: u64 = 32;

/// A client that is slow for this number of sweeps in sequence is closed if others wait for what it keeps.
pub const SLOW_SWEEPS: u8 = 5;

/// If the first client that waits for room has waited for this number of sweeps in sequence, and moved little, another one is closed, or it.
pub const WAITED_SWEEPS: u8 = 10;

/// What is kept for a client, and what it did while others waited for room.
#[derive(Clone, Copy, Debug)]
pub struct Holding {
    /// The bytes that are kept for it, as they were counted last.
    pub kept: u64,
    /// The most bytes that were kept for it since it last kept no more than its share; 0 if it keeps no more.
    pub high: u64,
    /// The bytes that it has sent and taken since the last sweep; 2^64 - 1 also if there were more.
    pub moved: u64,
    /// The number of sweeps in sequence at which it was slow.
    pub slow: u8,
    /// The number of sweeps in sequence at which it waited for room and had moved little.
    pub waited: u8,
    /// Whether it is its turn to take room.
    pub turn: bool,
}

impl Holding {
    /// Makes that of a client for which nothing is kept.
    pub fn new() -> Holding
        ensures { result ≡ new_holding }
    {
        Holding {
            kept: 0,
            high: 0,
            moved: 0,
            slow: 0,
            waited: 0,
            turn: false,
        }
    }

    /// Records how many bytes are kept for the client, and returns how many there were before.
    #[inline(always)]
    pub fn count(&mut self, kept: u64) -> u64
        ensures new { self.new ≡ kept_now kept self.old }
        ensures before { result ≡ self.old.kept }
    {
        let before = self.kept;
        self.kept = kept;
        self.high = if kept > CLIENT_SHARE {
            self.high.max(kept)
        } else {
            0
        };
        before
    }

    /// Records bytes that the client has sent, and bytes that it has taken.
    #[inline(always)]
    pub fn moves(&mut self, sent: u64, taken: u64)
        ensures { self.new ≡ record self.old { moved = counted_move self.old.moved sent taken } }
    {
        self.moved = self.moved.saturating_add(sent).saturating_add(taken);
    }

    /// Records a sweep at which nobody waits for room.
    pub fn rest(&mut self)
        ensures { self.new ≡ rested self.old }
    {
        self.moved = 0;
        self.slow = 0;
        self.waited = 0;
    }

    /// Records that it is its turn to take room.
    pub fn take_turn(&mut self)
        ensures { self.new ≡ record self.old { turn = true; waited = 0 } }
    {
        self.turn = true;
        self.waited = 0;
    }

    /// Records a sweep at which clients wait for room, given where this one stands, whether answers wait until it takes them, and whether it has
    /// pending answers.
    pub fn sweep(&mut self, standing: Standing, is_untaken: bool, has_pending: bool)
        ensures { self.new ≡ swept standing is_untaken has_pending self.old }
    {
        let is_slow = self.is_slow();
        let is_blamed = is_blamed(standing, is_untaken, has_pending);
        self.slow = one_more(self.slow, self.is_large() && is_blamed && is_slow);
        self.waited = one_more(self.waited, standing == Standing::Waiting && is_slow);
        self.moved = 0;
    }

    /// Returns whether it keeps more than its share.
    fn is_large(&self) -> bool
        ensures { result ≡ is_large self.now }
    {
        self.kept > CLIENT_SHARE
    }

    /// Returns whether it was slow for [`SLOW_SWEEPS`] sweeps in sequence.
    pub fn is_slow_for_long(&self) -> bool
        ensures { result ≡ nat_le SLOW_SWEEPS self.now.slow }
    {
        self.slow >= SLOW_SWEEPS
    }

    /// Returns whether it has waited for [`WAITED_SWEEPS`] sweeps in sequence, and moved little.
    pub fn has_waited_for_long(&self) -> bool
        ensures { result ≡ nat_le WAITED_SWEEPS self.now.waited }
    {
        self.waited >= WAITED_SWEEPS
    }

    /// Returns whether it moved few bytes since the last sweep, for the most that it kept.
    fn is_slow(&self) -> bool
        ensures { result ≡ is_slow self.now }
    {
        self.moved < (self.high / MOVED_PART).max(LEAST_MOVED)
    }
}

/// Returns whether only a client itself can free what is kept for it: it must take answers, or send the rest of a request. It cannot if it waits
/// to be read, or for others to answer.
fn is_blamed(standing: Standing, is_untaken: bool, has_pending: bool) -> bool
    ensures { result ≡ is_blamed standing is_untaken has_pending }
{
    is_untaken || (standing != Standing::Waiting && !has_pending)
}

/// Returns a count with one more if something holds, as far as 8 bits count; otherwise 0.
fn one_more(count: u8, holds: bool) -> u8
    ensures { result ≡ one_more count holds }
{
    if holds { count.saturating_add(1) } else { 0 }
}
