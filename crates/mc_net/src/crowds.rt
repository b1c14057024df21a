//! What clients keep, and which of them wait for room.

use crate::after_pumps::AfterPump;
use crate::buffers::{Buffers, CLIENT_SHARE, ROOM_AHEAD, Right, UNCOUNTED};
use crate::clients::Clients;
use crate::closings::Closing;
use crate::handlers::Handler;
use crate::limits::{KEPT_ROOM, SCARCE};
use crate::openings::Stranger;
use crate::shortages::Standing;
use std::mem;
use std::net::SocketAddr;

/// A client that is ahead for this number of sweeps, while others wait, is ahead no longer.
const LEAD_SWEEPS: u8 = 2;

/// Of the room ahead, this much is for those that need little: 1 MiB.
const ROOM_OF_SMALL: u64 = 1_048_576;

/// Who needs no more than this needs little: 128 KiB.
const SMALL_NEED: u64 = 131_072;

/// A data block needs no more room than this: 1 MiB and two pieces.
const ROOM_OF_BLOCK: u64 = 1_179_648;

/// What was granted to those that wait for room.
#[derive(Clone, Copy, Debug)]
struct Granted {
    /// Whether all of them may go on.
    all: bool,
    /// How many bytes are counted of what they may take.
    bytes: u64,
}

/// What is kept free for the first client that must wait, though it needs no more than half of the limit.
#[derive(Clone, Copy, Debug)]
pub(crate) struct Claim {
    /// Its key.
    key: usize,
    /// The most bytes that were free since it became the first.
    bytes: u64,
}

impl Claim {
    /// Returns this claim after an earlier one: if it was the same client's, no less than that.
    fn after(self, before: Option<Claim>) -> Claim {
        match before {
            Some(before) if before.key == self.key => Claim {
                bytes: self.bytes.max(before.bytes),
                ..self
            },
            _ => self,
        }
    }
}

impl<K: Default + Drop> Clients<K> {
    /// Returns how many bytes the client of a key may keep as it is served now, and takes its turn. With a turn it may keep what it needs, and no more.
    pub(crate) fn share_of(&mut self, key: usize) -> u64 {
        let Some(slot) = self.slots.get_mut(key) else {
            return 0;
        };
        let kept = slot.holding.kept;
        let had_turn = mem::replace(&mut slot.holding.turn, false);
        let more = self.shortage.needs_of(key);
        let least = self.buffers.share(kept, Right::Behind);
        if had_turn {
            self.has_freed = true;
            let most = self.buffers.share(kept, Right::Ahead);
            return most.min(kept.saturating_add(more)).max(least);
        }
        match self.shortage.right_of(key, false) {
            Right::Ahead => {
                let need = self.counted_need(key);
                least.saturating_add(self.room_ahead(key, need))
            }
            right => self.buffers.share(kept, right),
        }
    }

    /// Does what follows a client's pump: it is made ready or waits, and what is kept for it is counted, or it is closed.
    pub(crate) fn follow<H: Handler<K>>(
        &mut self,
        handler: &mut H,
        key: usize,
        number: u64,
        step: AfterPump,
    ) {
        let more = match step {
            AfterPump::Short(need) => need.saturating_sub(handler.held(number)),
            _ => 0,
        };
        match step {
            AfterPump::Close => {
                self.close(handler, key);
                return;
            }
            AfterPump::TurnAway => {
                self.turn_away(handler, key, Stranger::Http);
                return;
            }
            AfterPump::GoOn if self.shortage.len() == 0 => {}
            AfterPump::GoOn | AfterPump::Wait | AfterPump::Short(_) => {
                handler.shrink_if_idle(number, self.spare());
            }
        }
        self.recount(handler, key);
        if let AfterPump::Short(_) = step {
            self.keep_waiting(key, more);
            return;
        }
        if self.shortage.has(key) {
            self.shortage.leave(key);
            self.has_freed = true;
        }
        if step == AfterPump::GoOn {
            self.ready.push(key);
        } else if self.shortage.is_ahead(key) && !handler.has_pending(number) {
            self.pass_lead(key);
        }
    }

    /// Ends the lead of the client of a key, which waits for its socket, if enough is left for another one to complete a data block.
    fn pass_lead(&mut self, key: usize) {
        if self.room_ahead(key, u64::MAX) >= ROOM_OF_BLOCK {
            self.shortage.end_lead();
            self.has_freed = true;
        }
    }

    /// Sends a client that waits for room its pending answers, and takes nothing of it: what it needs was computed once. It is closed if its socket has
    /// failed: no read or write of its own would find that. It returns whether the last of these answers was sent, so that it may need less now.
    pub(crate) fn send<H: Handler<K>>(&mut self, handler: &mut H, key: usize) -> bool {
        let Some(slot) = self.slots.get_mut(key) else {
            return false;
        };
        if let Ok(Some(_)) = slot.client.stream.take_error() {
            self.close(handler, key);
            return false;
        }
        let number = slot.client.number;
        let had_pending = handler.has_pending(number);
        let before = handler.tally();
        let step = handler.send(&mut slot.client);
        slot.pass(before, handler.tally());
        match step {
            AfterPump::Close | AfterPump::TurnAway => {
                self.close(handler, key);
                return false;
            }
            AfterPump::Wait | AfterPump::Short(_) => {}
            AfterPump::GoOn => self.ready.push(key),
        }
        handler.shrink_if_idle(number, 0);
        self.recount(handler, key);
        had_pending && !handler.has_pending(number)
    }

    /// Returns how many bytes may stay reserved for an empty buffer: none if clients wait for room, or little is free.
    fn spare(&self) -> usize {
        if self.shortage.len() > 0 || self.buffers.free() < SCARCE {
            0
        } else {
            KEPT_ROOM
        }
    }

    /// Makes a client wait until it may keep this number of bytes more, behind all others that wait, or where it waits already. It is not ahead any
    /// more.
    fn keep_waiting(&mut self, key: usize, more: u64) {
        if !self.shortage.has(key) || self.shortage.is_ahead(key) {
            self.has_freed = true;
        }
        if self.shortage.is_ahead(key) {
            self.shortage.end_lead();
        }
        self.shortage.wait(key, more);
    }

    /// Returns whether a client waits for more bytes than it may keep now.
    pub(crate) fn lacks_room(&self, key: usize, share: u64) -> bool {
        let more = self.shortage.needs_of(key);
        self.shortage.has(key) && self.kept_by(key).saturating_add(more) > share
    }

    /// Counts anew what is kept for the client of a key, and for no client. Once the client keeps no more than its share, it is not ahead any more,
    /// unless it is ready.
    pub fn recount<H: Handler<K>>(&mut self, handler: &H, key: usize) {
        let Some(slot) = self.slots.get_mut(key) else {
            return;
        };
        let kept = handler.held(slot.client.number);
        let before = slot.holding.count(kept);
        let all = self.buffers.kept();
        self.buffers.change(before, kept);
        self.count_others(handler);
        if self.buffers.kept() < all || kept < before {
            self.has_freed = true;
        }
        if kept <= CLIENT_SHARE && self.shortage.is_ahead(key) && !self.ready.has(key) {
            self.shortage.end_lead();
            self.has_freed = true;
        }
    }

    /// Counts anew what is kept for no client, up to half of the limit: what waits for slow servers leaves the other half to clients.
    pub fn count_others<H: Handler<K>>(&mut self, handler: &H) {
        let Buffers { most, others, .. } = self.buffers;
        let now = handler.others().min(most / 2);
        self.buffers.set_others(now);
        self.has_freed |= now < others;
    }

    /// Makes those ready that wait for room and may go on. If that is not all of them, the memory of empty buffers is freed first, once between two
    /// sweeps.
    pub(crate) fn ready_waiting<H: Handler<K>>(&mut self, handler: &mut H) {
        self.has_freed = false;
        if self.shortage.len() == 0 {
            self.shortage.end_lead();
            self.claim = None;
            return;
        }
        let mut granted = self.ready_fitting();
        if !granted.all && !self.squeezed {
            self.squeezed = true;
            self.squeeze(handler);
            self.has_freed = false;
            granted = self.ready_fitting();
        }
        let mut bytes = granted.bytes;
        if !self.shortage.has_ahead() {
            bytes = bytes.saturating_add(self.ready_ahead(bytes));
        }
        self.ready_small(bytes);
    }

    /// Makes those ready that wait for room, from the first on, while what each needs is free, and returns what they were granted. The first one that
    /// must still wait stops this, and what is free is kept for it: nobody overtakes it, unless it needs more than half of the limit, or the next one
    /// needs no room. Each keeps its place until it is served and needs no more room, so that others stay behind it.
    fn ready_fitting(&mut self) -> Granted {
        let mut free = self.buffers.free();
        let mut granted = Granted {
            all: true,
            bytes: 0,
        };
        let mut claim = None;
        for place in 0..self.shortage.len() {
            let Some(key) = self.shortage.at(place) else {
                break;
            };
            let more = self.counted_need(key);
            if more > free {
                granted.all = false;
                if claim.is_none() && more <= self.buffers.most / 2 {
                    claim = Some(Claim { key, bytes: free });
                    free = 0;
                }
                continue;
            }
            free = free.saturating_sub(more);
            granted.bytes = granted.bytes.saturating_add(more);
            if let Some(slot) = self.slots.get_mut(key) {
                slot.holding.take_turn();
            }
            self.ready.push(key);
        }
        let before = self.claim;
        self.claim = claim.map(|claim| claim.after(before));
        granted
    }

    /// Returns how many bytes the client of a key may take that needs `more`: of the [`ROOM_AHEAD`] bytes beyond the limit, and of what is free beside the claim
    /// of another one that must wait. The last [`ROOM_OF_SMALL`] bytes are for those that need no more than [`SMALL_NEED`].
    fn room_ahead(&self, key: usize, more: u64) -> u64 {
        let claimed = match self.claim {
            Some(claim) if claim.key != key => claim.bytes,
            _ => 0,
        };
        let room = self.buffers.free_ahead().saturating_sub(claimed);
        if more > SMALL_NEED {
            room.saturating_sub(ROOM_OF_SMALL)
        } else {
            room
        }
    }

    /// Returns how many bytes are counted of what the client of a key needs: those above its share.
    fn counted_need(&self, key: usize) -> u64 {
        let kept = self.kept_by(key);
        let need = kept.saturating_add(self.shortage.needs_of(key));
        need.saturating_sub(kept.max(CLIENT_SHARE))
    }

    /// Frees the memory that is reserved for the empty buffers of all clients.
    fn squeeze<H: Handler<K>>(&mut self, handler: &mut H) {
        for key in 0..self.most {
            if let Some(slot) = self.slots.get(key) {
                handler.shrink_if_idle(slot.client.number, 0);
                self.recount(handler, key);
            }
        }
    }

    /// Makes the first one ahead that must still wait for room and then has what it needs, beside what others were granted, and returns how many bytes that is.
    /// So who needs little does not wait for those who need much.
    fn ready_ahead(&mut self, granted: u64) -> u64 {
        for place in 0..self.shortage.len() {
            let Some(key) = self.shortage.at(place) else {
                break;
            };
            let more = self.counted_need(key);
            let has_room = more.saturating_add(granted) <= self.room_ahead(key, more);
            let Some(slot) = self.slots.get_mut(key) else {
                break;
            };
            if has_room && !slot.holding.turn {
                slot.holding.waited = 0;
                self.shortage.lead(key);
                self.lead_sweeps = 0;
                self.ready.push(key);
                return more;
            }
        }
        0
    }

    /// Gives its turn to the first one that must still wait for room, keeps no more than its share, and has what it needs ahead of others, beside what these were
    /// granted. It may keep so much, and no more. So who asks for a value does not wait for those whose blocks have arrived in part.
    fn ready_small(&mut self, granted: u64) {
        for place in 0..self.shortage.len() {
            let Some(key) = self.shortage.at(place) else {
                break;
            };
            let more = self.counted_need(key);
            let has_room = more.saturating_add(granted) <= self.room_ahead(key, more);
            let Some(slot) = self.slots.get_mut(key) else {
                break;
            };
            let is_small = slot.holding.kept <= CLIENT_SHARE && !slot.holding.turn;
            if is_small && has_room {
                slot.holding.take_turn();
                self.ready.push(key);
                return;
            }
        }
    }

    /// Returns how many bytes are kept for the client of a key, as they were counted last: none if there is no client.
    pub(crate) fn kept_by(&self, key: usize) -> u64 {
        self.slots.get(key).map_or(0, |slot| slot.holding.kept)
    }

    /// Closes clients until no more is kept than the limit and [`ROOM_AHEAD`] together, or all clients keep no more than half of the limit: each time the
    /// one for which the most is kept, if that is more than its share. It is for handlers whose clients come to keep more without being served.
    pub fn shed<H: Handler<K>>(&mut self, handler: &mut H) {
        for _ in 0..self.most {
            let is_within = self.buffers.kept() <= self.buffers.most.saturating_add(ROOM_AHEAD);
            if is_within || self.buffers.kept <= self.buffers.most / 2 {
                return;
            }
            let Some(key) = self.largest(false, None) else {
                return;
            };
            self.crowd_out(handler, key);
        }
    }

    /// Returns the key of the client for which the most is kept, of those that were slow for long, or of all, except for one; none if nothing is
    /// counted of it.
    fn largest(&self, is_slow: bool, except: Option<usize>) -> Option<usize> {
        let mut largest = None;
        let mut most = UNCOUNTED;
        for key in 0..self.most {
            let Some(slot) = self.slots.get(key) else {
                continue;
            };
            let is_meant = !is_slow || slot.holding.is_slow_for_long();
            if slot.holding.kept > most && is_meant && except != Some(key) {
                most = slot.holding.kept;
                largest = Some(key);
            }
        }
        largest
    }

    /// Closes a client that keeps what others wait for, and notes it for the next line.
    fn crowd_out<H: Handler<K>>(&mut self, handler: &mut H, key: usize) {
        let address = self.address_of(key);
        let kept = self.kept_by(key);
        self.crowded_out.note(Closing { kept, address });
        self.close(handler, key);
    }

    /// Returns the address of the client of a key, if the system still says it.
    pub(crate) fn address_of(&self, key: usize) -> Option<SocketAddr> {
        let slot = self.slots.get(key)?;
        slot.client.stream.peer_addr().ok()
    }

    /// Records for the client of a key a sweep at which clients wait for room, or none does. What its socket takes is sent first: the system reports a socket
    /// only once much of its buffer is free. One that is ahead and moves little is ahead no longer.
    pub(crate) fn judge<H: Handler<K>>(&mut self, handler: &mut H, key: usize, is_short: bool) {
        let Some(slot) = self.slots.get_mut(key) else {
            return;
        };
        if !is_short {
            slot.holding.rest();
            return;
        }
        let number = slot.client.number;
        let is_untaken = handler.is_untaken(number);
        if is_untaken && slot.holding.kept > CLIENT_SHARE {
            self.send(handler, key);
        }
        let standing = self.shortage.standing_of(key);
        let Some(slot) = self.slots.get_mut(key) else {
            return;
        };
        slot.holding
            .sweep(standing, is_untaken, handler.has_pending(number));
        if slot.holding.slow > 0 && standing == Standing::Ahead {
            self.shortage.end_lead();
        }
    }

    /// Makes room for those that wait, at a sweep. First it closes clients that were slow for long, the largest first, until all of those that wait have room and a
    /// quarter of the limit is free. Then, if one has waited for long, it closes that one if it needs more than half of the limit, and else those
    /// for which the most is kept, until that one has room.
    pub(crate) fn make_room<H: Handler<K>>(&mut self, handler: &mut H) {
        self.lead_sweeps = self.lead_sweeps.saturating_add(1);
        if self.lead_sweeps >= LEAD_SWEEPS {
            self.shortage.end_lead();
        }
        for _ in 0..self.most {
            if self.wanted().max(self.buffers.most / 4) <= self.buffers.free() {
                return;
            }
            let Some(key) = self.largest(true, None) else {
                break;
            };
            self.crowd_out(handler, key);
        }
        if let Some(key) = self.longest_waiting() {
            self.make_room_for(handler, key);
        }
    }

    /// Closes the client of a key, which has waited for long, if it needs more than half of the limit, and else those for which the most is kept, until it has room.
    fn make_room_for<H: Handler<K>>(&mut self, handler: &mut H, waits: usize) {
        let more = self.counted_need(waits);
        if more > self.buffers.most / 2 {
            self.crowd_out(handler, waits);
            return;
        }
        for _ in 0..self.most {
            if more <= self.buffers.free() {
                return;
            }
            let key = self.largest(false, Some(waits)).unwrap_or(waits);
            self.crowd_out(handler, key);
            if key == waits {
                return;
            }
        }
    }

    /// Returns how many bytes are counted of what all need that wait.
    fn wanted(&self) -> u64 {
        let mut wanted: u64 = 0;
        for place in 0..self.shortage.len() {
            if let Some(key) = self.shortage.at(place) {
                wanted = wanted.saturating_add(self.counted_need(key));
            }
        }
        wanted
    }

    /// Returns the key of the first one that has waited for long, if any.
    fn longest_waiting(&self) -> Option<usize> {
        for place in 0..self.shortage.len() {
            let key = self.shortage.at(place)?;
            if self.slots.get(key)?.holding.has_waited_for_long() {
                return Some(key);
            }
        }
        None
    }
}
