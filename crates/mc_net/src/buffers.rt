//! What is kept for all clients together, and what one of them may keep.
ghost use Rattle.std.specs.Prelude.{◌≡◌};
ghost use Rattle.mc_net.specs.Buffers.{changed, excess, free_ahead_of, free_of, kept_in, no_buffers, share_of, with_others};

/// The bytes that each client may always keep, whatever others keep: 16 KiB.
pub const CLIENT_SHARE: u64 = 16_384;

/// The bytes of each client that are not counted: its share, and as much for what its buffers reserve beyond what they need. 32 KiB.
pub const UNCOUNTED: u64 = 32_768;

/// The bytes beyond the limit that the client that is ahead may take: 4 MiB.
pub const ROOM_AHEAD: u64 = 4_194_304;

/// What gives a client room.
#[derive(Clone, Copy, Debug, PartialEq, Eq)]
pub enum Right {
    /// Nobody waits for room, or it is its turn: it may take all that is free.
    Usual,
    /// Others wait for room: it may keep what it keeps.
    Behind,
    /// It is ahead: it may take what is free, and [`ROOM_AHEAD`] bytes beyond the limit.
    Ahead,
}

/// The bytes that are kept for clients, and their limit. All counts end at 2^64 - 1.
#[derive(Clone, Copy, Debug)]
pub struct Buffers {
    /// The most bytes that are kept beside shares, except for the client that is ahead.
    pub most: u64,
    /// The bytes that are kept for clients, of each those above [`UNCOUNTED`].
    pub kept: u64,
    /// The bytes that are kept for no client.
    pub others: u64,
}

impl Buffers {
    /// Makes the counts for a limit, in bytes: nothing is kept.
    pub fn new(most: u64) -> Buffers
        ensures { result ≡ no_buffers most }
    {
        Buffers {
            most,
            kept: 0,
            others: 0,
        }
    }

    /// Records that a client for which `before` bytes were kept now has `after`.
    #[inline(always)]
    pub fn change(&mut self, before: u64, after: u64)
        ensures { self.new ≡ changed before after self.old }
    {
        self.kept = self
            .kept
            .saturating_sub(excess(before))
            .saturating_add(excess(after));
    }

    /// Sets the bytes that are kept for no client.
    pub fn set_others(&mut self, bytes: u64)
        ensures { self.new ≡ with_others bytes self.old }
    {
        self.others = bytes;
    }

    /// Returns all bytes that are counted.
    pub fn kept(&self) -> u64
        ensures { result ≡ kept_in self.now }
    {
        self.kept.saturating_add(self.others)
    }

    /// Returns how many more bytes may be kept.
    #[inline(always)]
    pub fn free(&self) -> u64
        ensures { result ≡ free_of self.now }
    {
        self.most.saturating_sub(self.kept())
    }

    /// Returns how many more bytes the client that is ahead may keep.
    pub fn free_ahead(&self) -> u64
        ensures { result ≡ free_ahead_of self.now }
    {
        self.most
            .saturating_add(ROOM_AHEAD)
            .saturating_sub(self.kept())
    }

    /// Returns how many bytes a client that keeps `kept` bytes may keep now, by its right to room: no fewer than [`CLIENT_SHARE`].
    #[inline(always)]
    pub fn share(&self, kept: u64, right: Right) -> u64
        ensures { result ≡ share_of self.now kept right }
    {
        let more = match right {
            Right::Usual => self.free(),
            Right::Behind => 0,
            Right::Ahead => self.free_ahead(),
        };
        kept.max(CLIENT_SHARE).saturating_add(more)
    }
}

/// Returns how many bytes of a client are counted that keeps `kept` bytes: those above [`UNCOUNTED`].
fn excess(kept: u64) -> u64
    ensures { result ≡ excess kept }
{
    kept.saturating_sub(UNCOUNTED)
}
