//! The clients that wait for room.
ghost use Rattle.std.specs.Prelude.{◌≡◌, [], None, Some, IfOk, is_some, length, slice_get, slice_index_or, slice_set};
ghost use Rattle.mc_net.specs.ReadyQueues.{after_push, has_key, without};
ghost use Rattle.mc_net.specs.Shortages.{is_ahead, right_of, standing_of};

use crate::buffers::Right;
use crate::ready_queues::ReadyQueue;
use std::alloc::{AllocError, Global};

/// Where a client stands while others wait for room.
#[derive(Clone, Copy, Debug, PartialEq, Eq)]
pub enum Standing {
    /// It goes on with what it keeps.
    Apart,
    /// It waits for room.
    Waiting,
    /// It is ahead.
    Ahead,
}

/// The clients that wait for room, in the order in which they go on, each with the bytes that it needs beside those that it keeps. At most one other
/// client is ahead: it may take room beyond the limit until it gives it back.
#[derive(Drop)]
pub struct Shortage {
    /// The keys of the clients that wait.
    waiting: ReadyQueue,
    /// Of each key, the bytes that its client needs.
    needs: Vec<u64>,
    /// The key of the client that is ahead.
    ahead: Option<usize>,
}

impl Shortage {
    /// Makes a queue of keys below a number, in which nobody waits, and nobody is ahead.
    pub fn new(alloc: Global, most: usize) -> Result<Shortage, AllocError>
        ensures { IfOk result (λ shortage. (shortage.waiting ≡ record { most = most; keys = [] }) × (shortage.ahead ≡ None)) }
    {
        Ok(Shortage {
            waiting: ReadyQueue::new(alloc, most)?,
            needs: Vec::from_elem(alloc, 0, most)?,
            ahead: None,
        })
    }

    /// Returns how many clients wait.
    #[inline(always)]
    pub fn len(&self) -> usize
        ensures { result ≡ length self.now.waiting.keys }
    {
        self.waiting.len()
    }

    /// Returns whether the client of a key waits.
    #[inline(always)]
    pub fn has(&self, key: usize) -> bool
        ensures { result ≡ has_key key self.now.waiting.keys }
    {
        self.waiting.has(key)
    }

    /// Returns whether the client of a key is ahead.
    #[inline(always)]
    pub fn is_ahead(&self, key: usize) -> bool
        ensures { result ≡ is_ahead key self.now.ahead }
    {
        self.ahead == Some(key)
    }

    /// Returns whether a client is ahead.
    pub fn has_ahead(&self) -> bool
        ensures { result ≡ is_some self.now.ahead }
    {
        self.ahead.is_some()
    }

    /// Returns what gives room to the client of a key, given whether it is its turn.
    #[inline(always)]
    pub fn right_of(&self, key: usize, turn: bool) -> Right
        ensures { result ≡ right_of key turn self.now.ahead self.now.waiting.keys }
    {
        if self.is_ahead(key) {
            Right::Ahead
        } else if turn || self.waiting.len() == 0 {
            Right::Usual
        } else {
            Right::Behind
        }
    }

    /// Returns where the client of a key stands.
    pub fn standing_of(&self, key: usize) -> Standing
        ensures { result ≡ standing_of key self.now.ahead self.now.waiting.keys }
    {
        if self.waiting.has(key) {
            Standing::Waiting
        } else if self.is_ahead(key) {
            Standing::Ahead
        } else {
            Standing::Apart
        }
    }

    /// Records that the client of a key waits until it may keep `need` bytes more. It is behind all others that wait, unless it waits already.
    pub fn wait(&mut self, key: usize, need: u64)
        ensures queue { self.new ≡ record self.old {
          waiting = record self.old.waiting { keys = after_push self.old.waiting.most key self.old.waiting.keys };
          needs = self.new.needs;
        } }
        ensures needs { self.new.needs.items ≡ slice_set self.old.needs.items key need }
    {
        self.waiting.push(key);
        if let Some(place) = self.needs.get_mut(key) {
            *place = need;
        }
    }

    /// Returns the key at a place of the queue. The first one is at 0.
    pub fn at(&self, place: usize) -> Option<usize>
        ensures { result ≡ slice_get self.now.waiting.keys place }
    {
        self.waiting.get(place)
    }

    /// Returns the bytes that the client of a key needs beside those that it keeps, as it was recorded last.
    #[inline(always)]
    pub fn needs_of(&self, key: usize) -> u64
        ensures { result ≡ slice_index_or self.now.needs.items key 0 }
    {
        self.needs.get(key).copied().unwrap_or(0)
    }

    /// Takes the client of a key out of the queue, if it waits.
    #[inline(always)]
    pub fn leave(&mut self, key: usize)
        ensures { self.new ≡ record self.old { waiting = record self.old.waiting { keys = without key self.old.waiting.keys } } }
    {
        self.waiting.remove(key);
    }

    /// Makes the client of a key the one that is ahead, and takes it out of the queue.
    pub fn lead(&mut self, key: usize)
        ensures { self.new ≡ record self.old {
          waiting = record self.old.waiting { keys = without key self.old.waiting.keys };
          ahead = Some key;
        } }
    {
        self.waiting.remove(key);
        self.ahead = Some(key);
    }

    /// Records that no client is ahead.
    pub fn end_lead(&mut self)
        ensures { self.new ≡ record self.old { ahead = None } }
    {
        self.ahead = None;
    }
}
