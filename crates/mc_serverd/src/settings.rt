//! The settings of a server.
ghost use Rattle.std.specs.Prelude.{◌≡◌, ◌↔◌, IfSome, IsSome};
ghost use Rattle.mc_cache.specs.CacheState.{IsWithinBounds};
ghost use Rattle.mc_serverd.specs.Answers.{answer_within};

use crate::cas_from::CasFrom;
use crate::kinds::StoreKind;
use mc_cache::is_within_bounds;
use mc_program::Terms;

/// The most bytes that an answer may have, by default: 256 MiB.
pub const USUAL_ANSWER: usize = 268_435_456;

/// The most bytes that are kept for clients, by default: 256 MiB.
pub const USUAL_BUFFERS: u64 = 268_435_456;

/// What may be kept of a request beside its answer, at most: 2 MiB.
pub const REQUEST_ROOM: u64 = 2_097_152;

/// The bytes of memory that are kept for when the system gives none, by default: 4 MiB.
pub const USUAL_RESERVE: usize = 4_194_304;

/// How clients are served.
#[derive(Clone, Copy, Debug)]
pub struct Service {
    /// The terms on which all clients are served.
    pub terms: Terms,
    /// The most bytes that an answer may have: a request whose answer may have more closes its connection.
    pub answer: usize,
    /// The most bytes that are kept for all clients together, except for their shares and for the one that is ahead
    /// ([`Clients`](mc_net::Clients)): unread requests and unsent answers.
    pub buffers: u64,
    /// A server that closes clients for lack of memory for this many seconds, and stores nothing, ends; 0 for never.
    pub memory_exit: u64,
    /// The bytes of memory that are kept, from which clients are served when the system gives none; 0 for none.
    pub reserve: usize,
}

impl Service {
    /// Returns the most bytes that an answer may have for which there can be room: [`REQUEST_ROOM`] bytes stay for its request.
    pub fn answer_limit(&self) -> usize
        ensures { result ≡ answer_within self.now.answer self.now.buffers }
    {
        let room = self.buffers.saturating_sub(REQUEST_ROOM);
        self.answer.min(room as usize)
    }
}

/// The settings of a server. Its budget and its items are within the bounds of a cache.
#[derive(Clone, Copy, Debug)]
pub struct Settings {
    /// What the items may cost in all, in bytes: 1 to [`MAX_BUDGET`](mc_cache::MAX_BUDGET).
    pub budget: u64,
    /// The most items: 1 to [`MAX_ITEMS`](mc_cache::MAX_ITEMS).
    pub items: usize,
    /// The kind of store in which the items are kept.
    pub kind: StoreKind,
    /// The number above which items are counted.
    pub cas_from: CasFrom,
    /// How clients are served.
    pub service: Service,
    ghost within: { IsWithinBounds budget items },
}

impl Settings {
    /// Returns these settings, if the budget and the items are within the bounds of a cache.
    pub fn new(
        budget: u64,
        items: usize,
        kind: StoreKind,
        cas_from: CasFrom,
        service: Service,
    ) -> Option<Settings>
        ensures some { IsSome result ↔ IsWithinBounds budget items }
        ensures bounds { IfSome result (λ s. (s.budget ≡ budget) × (s.items ≡ items)) }
        ensures others { IfSome result (λ s. (s.kind ≡ kind) × (s.cas_from ≡ cas_from) × (s.service ≡ service)) }
    {
        if !is_within_bounds(budget, items) {
            return None;
        }
        Some(Settings {
            budget,
            items,
            kind,
            cas_from,
            service,
        })
    }
}
