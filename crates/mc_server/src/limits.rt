//! Limits of the size of an answer.
ghost use Rattle.std.specs.Prelude.{◌≡◌, ◌≤◌, ◌<◌, ◌^◌, ◌-◌, ◌+◌, ◌↔◌, true, min, IsTrue};
ghost use Rattle.mc_request.specs.LinesSeen.{asked_of};
ghost use Rattle.mc_request.specs.WellFormed.{is_well_formed};
ghost use Rattle.mc_server.specs.Rooms.{keys_room, room_of, taken_bound};

use crate::answering::{COMMAND_BOUND, bound_for, bound_for_get};
use mc_cache::Cache;
use mc_reply::{KEY_ROOM, LINE_ROOM};
use mc_request::RequestRef;
use mc_store::Store;
use mc_text::WordIter;

/// The bytes that are copied or compared for one unit of work: 1 KiB.
pub const WORK_BYTES: usize = 1024;

/// No bound is more than this many times the room for the answer.
const BOUND_BY_ROOM: usize = 16;

/// The most bytes that an answer may have, by the bound that [`Server::bound`](crate::Server::bound) gives.
#[derive(Clone, Copy, Debug, PartialEq, Eq)]
pub struct AnswerLimit {
    /// The limit; [`usize::MAX`] if an answer may have any size.
    pub bytes: usize,
}

impl AnswerLimit {
    /// Returns the limit within which an answer may have any size.
    pub fn none() -> AnswerLimit
        ensures { result ≡ record { bytes = 2 ^ 64 - 1 } }
    {
        AnswerLimit { bytes: usize::MAX }
    }

    /// Returns whether the answer to a request may have more bytes, if `room` is room enough for it. The bound looks each key up,
    /// and is computed only if that room is large.
    pub fn is_passed<S: Store + Drop>(
        self,
        room: usize,
        asked: &RequestRef<'_>,
        cache: &Cache<S>,
    ) -> bool
        requires well_formed { is_well_formed (asked_of asked.now) ≡ true }
        requires room { min (room_of (asked_of asked.now) cache.now) (2 ^ 64 - 1) ≤ room }
        ensures { IsTrue result ↔ (self.bytes < min (taken_bound (asked_of asked.now) cache.now) (2 ^ 64 - 1)) }
    {
        if room <= self.bytes / BOUND_BY_ROOM {
            return false;
        }
        bound_for(asked, cache) > self.bytes
    }

    /// Returns whether the answer to a `get` or `gets` of these keys may have more bytes, if `room` is room enough for it.
    #[inline]
    pub(crate) fn is_passed_by_get<S: Store + Drop>(
        self,
        room: usize,
        keys: &WordIter<'_>,
        cache: &Cache<S>,
    ) -> bool
        requires { min (LINE_ROOM + keys_room KEY_ROOM keys.now cache.now) (2 ^ 64 - 1) ≤ room }
        ensures { IsTrue result ↔ (self.bytes < min (keys_room COMMAND_BOUND keys.now cache.now) (2 ^ 64 - 1)) }
    {
        if room <= self.bytes / BOUND_BY_ROOM {
            return false;
        }
        bound_for_get(keys, cache) > self.bytes
    }
}
