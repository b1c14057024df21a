//! Prefetching: slot hints for the keys of the next requests.

use crate::first_keys::{AHEAD, FirstKeys};
use mc_cache::Cache;
use mc_request::{MetaCommand, RequestRef, Update};
use mc_store::{Hint, Store};
use mc_text::{WordIter, words};

/// The fewest keys whose items are prefetched.
const FEW: usize = 3;

/// The fewest bytes of a text that is worth a look.
const SHORT: usize = 64;

/// After a look that found little, no look begins at this many requests. If no more than half of its keys had a hint, the number doubles
/// after each such look that follows it.
const PASSES: u32 = 4;

/// The number grows by this for each line that is refused while a hint is left, once such lines are more than an eighth of a look's keys.
const VAIN_PASSES: u32 = 4;

/// The number grows by one more for this many bytes of the refused line and its data block.
const VAIN_BYTES: usize = 128;

/// One in this many of a look's keys may be in a refused line without delaying the next look.
const KEYS_TO_ONE_REFUSED: u8 = 8;

/// The greatest number of requests at which no look begins.
const MOST_PASSES: u32 = 64;

/// What a connection keeps of its last look.
#[derive(Clone, Copy)]
pub struct Looked {
    /// How many of the unconsumed bytes are in lines that the look took: no other look begins in these.
    bytes: usize,
    /// The number of next requests at which no look begins, since the last one found little.
    passes: u32,
    /// The number of requests after the last look that found little, if none has found more since.
    pause: u32,
}

impl Looked {
    /// Returns what is kept before the first look.
    pub fn never() -> Looked {
        Looked {
            bytes: 0,
            passes: 0,
            pause: 0,
        }
    }
}

/// Slot hints for the keys that the next requests on one connection ask for, in the order of the keys.
#[derive(Clone, Copy)]
pub struct Ahead {
    hints: [Hint; AHEAD],
    /// The number of keys that have hints.
    count: u8,
    /// The number of hints that were used.
    used: u8,
    /// The number of used hints that were for a refused line.
    refused: u8,
    /// The bytes that the prefetches returned, joined: they only keep the loads alive ([`Store::prefetch`]).
    sink: u8,
    /// Whether the line that is served is refused, and delays the next look.
    vain: bool,
    /// The number of the connection.
    connection: u64,
}

impl Ahead {
    /// Returns no hint.
    pub fn none() -> Ahead {
        Ahead {
            hints: [Hint::none(); AHEAD],
            count: 0,
            used: 0,
            refused: 0,
            sink: 0,
            vain: false,
            connection: 0,
        }
    }

    /// Turns to a connection, by its number. The hints of another connection are dropped.
    #[inline]
    pub fn turn_to(&mut self, connection: u64) {
        if self.connection != connection {
            self.connection = connection;
            self.drop_hints();
        }
    }

    /// Drops all hints.
    fn drop_hints(&mut self) {
        self.count = 0;
        self.used = 0;
        self.refused = 0;
    }

    /// Notes that a line was refused. If a hint is left, it skips one. If more than an eighth of a look's keys are in such lines, it delays
    /// the next look. A look takes a line with a key whether it is refused or not, and a client that sends such lines must gain nothing by it.
    #[inline]
    pub fn refuse(&mut self) {
        if self.used < self.count {
            self.used += 1;
            self.refused = self.refused.saturating_add(1);
            self.vain = self.refused > self.count / KEYS_TO_ONE_REFUSED;
        }
    }

    /// Returns what a connection keeps of its last look once a request or fault of `size` bytes is taken.
    #[inline]
    pub fn past(&mut self, looked: Looked, size: usize) -> Looked {
        let bytes = looked.bytes.saturating_sub(size);
        if !self.vain {
            return Looked { bytes, ..looked };
        }
        self.vain = false;
        let passes = looked.passes.saturating_add(vain_passes(size));
        Looked {
            bytes,
            passes: passes.min(MOST_PASSES),
            ..looked
        }
    }

    /// Returns the hint for the next meta command's key: [`Hint::none`] for one in base64, which looks mostly leave out.
    #[inline]
    pub fn next_for(&mut self, coded: bool) -> Hint {
        if coded { Hint::none() } else { self.next() }
    }

    /// Returns the hint for the next key, and marks it as used: [`Hint::none`] if none is left.
    #[inline]
    pub fn next(&mut self) -> Hint {
        if self.used >= self.count {
            return Hint::none();
        }
        let hint = self.hints.get(self.used as usize).copied();
        self.used += 1;
        hint.unwrap_or(Hint::none())
    }

    /// Looks ahead, if the cache finds several items faster together: it prefetches the items of the keys of a retrieval that is first in a text and
    /// has `size` bytes, and of the requests after it. It takes what the connection keeps of the last look, and returns what it keeps of this one.
    ///
    /// A look begins behind all lines that the last one took, so at most two looks read each byte, however the text is cut. If it finds
    /// fewer than three keys, and leaves text enough for another one, the next begins 4 requests later. If no more than half of its keys
    /// have a hint, the next begins 4 requests later too, and then 8, 16, 32 and 64, as long as none finds more. Each of its refused lines
    /// beyond an eighth of its keys delays the next one by 4 requests more, and by one for 128 bytes, to 64 at most. Requests at which no
    /// look could begin are not counted: those without a key, or with a key in base64, refused ones, those in lines that the look took, and
    /// those with fewer than 64 bytes from there on.
    #[inline]
    pub fn look<S: Store + Drop>(
        &mut self,
        looked: Looked,
        keys: &WordIter<'_>,
        size: usize,
        text: &[u8],
        cache: &Cache<S>,
    ) -> Looked {
        if looked.bytes > 0 || text.len() < SHORT || !cache.prefetches() {
            return looked;
        }
        self.prefetch(looked, keys.again(), size, text, cache)
    }

    /// Looks ahead, as [`Ahead::look`] does, at any request or fault that has a key and after which something follows.
    #[inline]
    pub fn look_past<S: Store + Drop>(
        &mut self,
        looked: Looked,
        asked: &RequestRef<'_>,
        size: usize,
        text: &[u8],
        cache: &Cache<S>,
    ) -> Looked {
        if looked.bytes > 0 || text.len() < SHORT || text.len() <= size || !cache.prefetches() {
            return looked;
        }
        match keys_of(asked) {
            Some(keys) => self.prefetch(looked, keys, size, text, cache),
            None => looked,
        }
    }

    /// Looks ahead, unless this request is to be skipped.
    #[inline(never)]
    fn prefetch<S: Store + Drop>(
        &mut self,
        looked: Looked,
        keys: WordIter<'_>,
        size: usize,
        text: &[u8],
        cache: &Cache<S>,
    ) -> Looked {
        if looked.passes > 0 {
            return one_passed(looked);
        }
        let mut first = FirstKeys::none();
        first.take(keys, text.get(size..).unwrap_or_default());
        let keys = first.keys();
        self.drop_hints();
        let bytes = first.taken().saturating_add(size);
        if keys.len() >= FEW
            && let Some(hints) = self.hints.get_mut(..keys.len())
        {
            self.count = keys.len() as u8;
            self.sink ^= cache.prefetch(keys, hints);
            return paused(bytes, pause_after(looked.pause, hints));
        }
        Looked {
            bytes,
            passes: if text.len().saturating_sub(bytes) < SHORT {
                0
            } else {
                PASSES
            },
            pause: looked.pause,
        }
    }
}

/// Returns the number of further requests at which no look begins, for a refused line of `size` bytes.
fn vain_passes(size: usize) -> u32 {
    let bytes = (size / VAIN_BYTES).min(MOST_PASSES as usize);
    VAIN_PASSES.saturating_add(bytes as u32)
}

/// Returns what is kept of a look that has read `bytes` bytes, if none begins at the next `pause` requests.
fn paused(bytes: usize, pause: u32) -> Looked {
    Looked {
        bytes,
        passes: pause,
        pause,
    }
}

/// Returns the number of requests at which no look begins after one with these hints: 0, unless no more than half of its keys have one.
/// (A key that no item has may have a hint, if many keys share its bucket.)
fn pause_after(before: u32, hints: &[Hint]) -> u32 {
    let found = hints.iter().filter(|hint| **hint != Hint::none()).count();
    if found > hints.len() / 2 {
        return 0;
    }
    before.saturating_mul(2).max(PASSES).min(MOST_PASSES)
}

/// Returns what is kept of a look once a request was skipped for it.
fn one_passed(looked: Looked) -> Looked {
    Looked {
        passes: looked.passes.saturating_sub(1),
        ..looked
    }
}

/// Returns the keys of a request that has one, except a key in base64: its word is not what is looked up.
#[inline(always)]
fn keys_of<'a>(asked: &RequestRef<'a>) -> Option<WordIter<'a>> {
    match asked {
        RequestRef::Get { keys, .. } => Some(keys.again()),
        RequestRef::Update { update, .. } => key_of(update),
        RequestRef::Meta { form, .. } if form.coded => None,
        RequestRef::Meta { command, .. } => match command {
            MetaCommand::Get { key, .. } => Some(words(key)),
            MetaCommand::Update { update, .. } => key_of(update),
        },
        RequestRef::MetaNoop | RequestRef::Version | RequestRef::Quit | RequestRef::Faulty(_) =>
            None,
    }
}

/// Returns the key of a command that has one.
#[inline(always)]
fn key_of<'a>(update: &Update<&'a [u8], &'a [u8]>) -> Option<WordIter<'a>> {
    match update {
        Update::Store { key, .. }
        | Update::Touch { key, .. }
        | Update::Delete { key, .. }
        | Update::Count { key, .. } => Some(words(key)),
        Update::FlushAll { .. } => None,
    }
}
