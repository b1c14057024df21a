//! The queue of the clients that are ready.
ghost use Rattle.std.specs.Prelude.{◌≡◌, ◌==◌, ◌<◌, [], true, ℕ, List, length, drop, remove, position, slice_get, slice_set, vec_len, false, IfNone, IfOk, IfSome};
ghost use Rattle.std.specs.VecDeque.{deque_len};
ghost use Rattle.mc_net.specs.ReadyQueues.{has_key, taken, without};

use std::alloc::{AllocError, Global};
use std::collections::VecDeque;
use std::marker::Model;

/// The keys of the clients that are ready, in the order in which they became so. No key is in it twice. A call takes no memory. Contracts
/// see the number above all keys, and the keys: the first is served next.
#[derive(Drop)]
pub struct ReadyQueue {
    keys: VecDeque<usize>,
    /// Of each key, whether it is in the queue.
    marks: Vec<bool>,
}

impl Model for ReadyQueue {
    ghost use Rattle.std.specs.Prelude.{vec_len};
    ghost use Rattle.mc_net.specs.ReadyQueues.{Ready};

    ghost Value = { Ready };

    ghost use Rattle.mc_net.specs.ReadyFields.{IsQueue};

    ghost view = { λ q. record { most = vec_len q.marks; keys = q.keys.items } };

    ghost invariant = { IsQueue };
}

impl ReadyQueue {
    ghost use Rattle.mc_net.specs.ReadyQueues.{after_push, are_distinct};

    /// Makes an empty queue of keys below a number.
    pub fn new(alloc: Global, most: usize) -> Result<Self, AllocError>
        ensures { IfOk result (λ queue. queue ≡ record { most = most; keys = [] }) }
    {
        Ok(ReadyQueue {
            keys: VecDeque::with_capacity(alloc, most)?,
            marks: Vec::from_elem(alloc, false, most)?,
        })
    }

    /// Returns how many keys are in it. Each is there once.
    pub fn len(&self) -> usize
        ensures len { result ≡ length self.now.keys }
        ensures once { are_distinct self.now.keys ≡ true }
    {
        self.keys.len()
    }

    /// Returns whether a key is in it.
    pub fn has(&self, key: usize) -> bool
        ensures { result ≡ has_key key self.now.keys }
    {
        self.marks.get(key).copied().unwrap_or(false)
    }

    /// Appends a key unless it is in the queue. A key that is not below the number is passed over.
    pub fn push(&mut self, key: usize)
        ensures { self.new ≡ record self.old { keys = after_push self.old.most key self.old.keys } }
    {
        if let Some(mark) = self.marks.get_mut(key)
            && !*mark
        {
            *mark = true;
            self.keys.push_back_reserved(key);
        }
    }

    /// Returns the key at a place: the first one is at 0.
    pub fn get(&self, place: usize) -> Option<usize>
        ensures { result ≡ slice_get self.now.keys place }
    {
        self.keys.get(place).copied()
    }

    /// Takes a key out, if it is in the queue. The others stay in their order.
    pub fn remove(&mut self, key: usize)
        ensures { self.new ≡ record self.old { keys = without key self.old.keys } }
    {
        if !self.has(key) {
            return;
        }
        if let Some(place) = place_of(&self.keys, key) {
            let _ = self.keys.remove(place);
            clear(&mut self.marks, key);
        }
    }

    /// Takes the first key, if there is one.
    pub fn pop(&mut self) -> Option<usize>
        ensures first { result ≡ slice_get self.old.keys 0 }
        ensures rest { self.new ≡ record self.old { keys = drop 1 self.old.keys } }
    {
        let key = self.keys.pop_front()?;
        clear(&mut self.marks, key);
        Some(key)
    }
}

/// Returns the place of a key, if it is among some.
fn place_of(keys: &VecDeque<usize>, key: usize) -> Option<usize>
    ensures inside { IfSome result (λ place. place < deque_len keys.now) }
    ensures found { IfSome result (λ place. remove keys.now.items place ≡ without key keys.now.items) }
    ensures there { IfSome result (λ place. has_key key keys.now.items ≡ true) }
    ensures absent { IfNone result (has_key key keys.now.items ≡ false) }
{
    first_of(keys, key)
}

fn first_of(keys: &VecDeque<usize>, key: usize) -> Option<usize>
    ensures { result ≡ position (λ other. other == key) keys.now.items }
{
    keys.iter().position(|other| *other == key)
}

/// Clears the mark of a key, if it has one.
fn clear(marks: &mut Vec<bool>, key: usize)
    ensures items { marks.new.items ≡ slice_set marks.old.items key false }
    ensures len { vec_len marks.new ≡ vec_len marks.old }
{
    if let Some(mark) = marks.get_mut(key) {
        *mark = false;
    }
}

/// A round takes as many keys as there were when it began: these are the keys that were there, in order, whatever becomes ready meanwhile.
pub fn a_round_takes_what_was_there()
    ensures { (most : ℕ) (pushed : List (List ℕ)) (keys : List ℕ) → length pushed ≡ length keys → taken most pushed keys ≡ keys }
{}
