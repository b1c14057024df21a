//! The clients of a host: which of them go on, and which are idle.
ghost use Rattle.std.specs.Prelude.{◌≡◌, ◌-◌, ◌<◌, ◌^◌, IfOk, drop, map, take};
ghost use Rattle.mc_net.specs.Buffers.{kept_in};
ghost use Rattle.mc_net.specs.Holdings.{counted_move};
ghost use Rattle.mc_net.specs.Lists.{all_shown, count_after, known_of, place_of, shown_of, within_word};

use crate::acceptors::Backlog;
use crate::buffers::{Buffers, Right};
use crate::closings::Closing;
use crate::conns::{Awaits, Known, LIST_LEN, Listed, conn_of};
use crate::crowds::Claim;
use crate::handlers::{Client, Handler};
use crate::holdings::Holding;
use crate::inputs::Readiness;
use crate::openings::{Opening, Stranger};
use crate::ready_queues::ReadyQueue;
use crate::reports::Report;
use crate::shortages::Shortage;
use crate::strangers::{Refusal, opening};
use mc_program::{EprintSeldom, OncePerSecond, Said, Ticker, earlier};
use mc_stream::IoStats;
use mio::event::Event;
use mio::net::TcpStream;
use mio::{Interest, Registry, Token};
use slab::Slab;
use std::alloc::{AllocError, Global};
use std::mem;

/// A client, and what is known of its rounds.
#[derive(Drop)]
pub(crate) struct ClientSlot<K> {
    pub(crate) client: Client<K>,
    /// Whether its first bytes are known not to be a stranger's.
    known: bool,
    /// Whether it has had an event since the last sweep.
    busy: bool,
    /// The second in which its socket was reported last, or it had pending answers.
    used: u64,
    /// The second in which it connected.
    since: u64,
    /// Bytes that were read from it.
    read: u64,
    /// Bytes that were written to it.
    written: u64,
    /// What is kept for it, and what it did while others waited for room.
    pub(crate) holding: Holding,
}

impl<K: Drop> ClientSlot<K> {
    /// Records its traffic, from that of all clients before and after its turn.
    #[inline(always)]
    pub(crate) fn pass(&mut self, before: IoStats, after: IoStats)
        ensures { self.new ≡ record self.old {
          read = count_after self.old.read before.read after.read;
          written = count_after self.old.written before.written after.written;
          holding = record self.old.holding {
            moved = counted_move self.old.holding.moved (within_word before.read after.read) (within_word before.written after.written);
          };
        } }
    {
        let read = after.read.wrapping_sub(before.read);
        let written = after.written.wrapping_sub(before.written);
        self.read = self.read.wrapping_add(read);
        self.written = self.written.wrapping_add(written);
        self.holding.moves(read, written);
    }

    /// Returns what is known of it at a moment, at a place.
    fn known(&self, place: usize, has_pending: bool, moment: u64) -> Known
        ensures { result ≡ known_of moment place has_pending self.now }
    {
        Known {
            place,
            has_pending,
            quiet: moment.saturating_sub(self.used),
            age: moment.saturating_sub(self.since),
            read: self.read,
            written: self.written,
        }
    }
}

/// The clients of a host. The token of a client's socket is its key.
#[derive(Drop)]
pub struct Clients<K: Drop> {
    pub(crate) slots: Slab<ClientSlot<K>>,
    /// The most clients.
    pub(crate) most: usize,
    /// The keys of the clients that are ready, in the order in which they are served. That of a client that was closed may be among them.
    pub(crate) ready: ReadyQueue,
    /// What is kept for all of them.
    pub(crate) buffers: Buffers,
    /// Those that wait for room.
    pub(crate) shortage: Shortage,
    /// Whether one that waits may go on: something was freed, or one has begun to wait, since it was looked whether one may.
    pub(crate) has_freed: bool,
    /// Whether the memory of empty buffers was freed since the last sweep, for one that waits.
    pub(crate) squeezed: bool,
    /// What is kept free for the first one that must wait, if any.
    pub(crate) claim: Option<Claim>,
    /// For how many sweeps the client that is ahead has been so while others waited.
    pub(crate) lead_sweeps: u8,
    /// Whether a client was busy since the last sweep.
    busy: bool,
    /// The seconds after which a client is closed that sent nothing and has no pending answer; 0 for never.
    idle: u64,
    /// The second in which a client may have been idle for too long, at the earliest.
    due: Option<u64>,
    /// How many clients were closed as they connected.
    refused: u64,
    /// The strangers that were turned away and are not yet reported.
    turned_away: OncePerSecond<Refusal>,
    /// The clients that were closed since they kept what others waited for, and are not yet reported.
    pub(crate) crowded_out: OncePerSecond<Closing>,
    /// When the next line may say that no more are accepted, since the system gives no connection.
    told_refused: Ticker,
}

/// The seconds between two lines that say that the system gives no connection: this may last for hours.
const REFUSED_EVERY: u64 = 60;

impl<K: Default + Drop> Clients<K> {
    /// Makes an empty list, with room for `most` clients. A client that is idle for longer than `idle` seconds is closed; 0 for never. At most
    /// `buffers` bytes are kept for all of them, except for their shares and for the one that is ahead.
    pub fn new(alloc: Global, most: usize, idle: u64, buffers: u64) -> Result<Self, AllocError> {
        Ok(Clients {
            ready: ReadyQueue::new(alloc, most)?,
            buffers: Buffers::new(buffers),
            shortage: Shortage::new(alloc, most)?,
            has_freed: false,
            squeezed: false,
            claim: None,
            lead_sweeps: 0,
            slots: Slab::with_capacity(alloc, most)?,
            most,
            busy: false,
            idle,
            due: None,
            refused: 0,
            turned_away: OncePerSecond::new(),
            crowded_out: OncePerSecond::new(),
            told_refused: Ticker {
                every: REFUSED_EVERY,
                next: 0,
            },
        })
    }

    /// Returns how many there are.
    pub fn len(&self) -> usize {
        self.slots.len()
    }

    /// Returns whether there are none.
    pub fn is_empty(&self) -> bool {
        self.slots.is_empty()
    }

    /// Returns the report of what was done for them: in `uptime` seconds, with `accepted` accepted clients, and with this tally.
    pub fn report(&self, uptime: u64, accepted: u64, tally: IoStats) -> Report {
        Report {
            uptime,
            connections: self.slots.len(),
            accepted,
            refused: self.refused,
            buffered: self.buffers.kept(),
            tally,
        }
    }

    /// Returns how many bytes are kept, for clients and for others.
    pub fn kept(&self) -> u64
        ensures { result ≡ kept_in self.now.buffers }
    {
        self.buffers.kept()
    }

    /// Returns whether one is ready, or may have become so since others keep less, so that it is served without an event.
    pub fn goes_on(&self) -> bool {
        self.ready.len() > 0 || (self.has_freed && self.shortage.len() > 0)
    }

    /// Returns whether a sweep may have work: a client was busy, or one waits for room.
    pub fn is_busy(&self) -> bool {
        self.busy || self.shortage.len() > 0
    }

    /// Returns the second in which one may have been idle for too long, at the earliest.
    pub fn due(&self) -> Option<u64> {
        self.due
    }

    /// Returns the client of a key.
    pub fn get(&self, key: usize) -> Option<&Client<K>> {
        self.slots.get(key).map(|slot| &slot.client)
    }

    /// Returns the client of a key, mutably.
    pub fn get_mut(&mut self, key: usize) -> Option<&mut Client<K>> {
        self.slots.get_mut(key).map(|slot| &mut slot.client)
    }

    /// Lists clients from a place on, at most [`LIST_LEN`], at a moment. A client with pending answers is listed as waiting for them.
    #[tactic(auto, using(crate::proofs::ListLemmas::list_steps))]
    pub fn listed<H: Handler<K>>(
        &self,
        handler: &H,
        alloc: Global,
        from: usize,
        moment: u64,
        awaits: Awaits,
    ) -> Result<Listed, AllocError>
        ensures conns { IfOk result (λ listed. map shown_of listed.conns.items
            ≡ take LIST_LEN (all_shown self.now.slots moment from (self.now.most - from))) }
        ensures next { IfOk result (λ listed. listed.next
            ≡ place_of (drop LIST_LEN (all_shown self.now.slots moment from (self.now.most - from)))) }
    {
        let mut conns = Vec::with_capacity(alloc, LIST_LEN)?;
        for place in from..self.most {
            let Some(slot) = self.slots.get(place) else {
                continue;
            };
            if conns.len() == LIST_LEN {
                return Ok(Listed {
                    conns,
                    next: Some(place),
                });
            }
            let known = slot.known(place, handler.has_pending(slot.client.number), moment);
            conns.push(conn_of(alloc, &slot.client.stream, known, awaits)?)?;
        }
        Ok(Listed { conns, next: None })
    }

    /// Takes a client in at a moment. If there is no place or no memory for it, it is closed at once.
    pub fn admit<H: Handler<K>>(
        &mut self,
        handler: &mut H,
        stream: TcpStream,
        registry: &Registry,
        moment: u64,
    ) {
        if self.try_admit(handler, stream, registry, moment) {
            self.expect(moment);
        } else {
            self.refused = self.refused.saturating_add(1);
        }
    }

    /// Takes a client in, and returns whether there was a place and memory.
    fn try_admit<H: Handler<K>>(
        &mut self,
        handler: &mut H,
        mut stream: TcpStream,
        registry: &Registry,
        moment: u64,
    ) -> bool {
        let key = self.slots.vacant_key();
        if key >= self.most {
            return false;
        }
        let Some(number) = handler.admit(key) else {
            return false;
        };
        // An event of an urgent byte says that a read may end in front of it.
        let interest = Interest::READABLE | Interest::WRITABLE | Interest::PRIORITY;
        // A client whose answers may be delayed is served all the same.
        let _ = stream.set_nodelay(true);
        let registered = registry.register(&mut stream, Token(key), interest);
        let slot = ClientSlot {
            client: Client {
                stream,
                number,
                ended: false,
                readiness: Readiness::new(),
                kept: K::default(),
            },
            known: false,
            busy: false,
            used: moment,
            since: moment,
            read: 0,
            written: 0,
            holding: Holding::new(),
        };
        if registered.is_err() {
            handler.end(number);
            return false;
        }
        if self.slots.insert(slot).is_err() {
            handler.note_refused();
            handler.end(number);
            return false;
        }
        self.recount(handler, key);
        true
    }

    /// Records an event of a client, which is served in its turn.
    pub fn wake(&mut self, event: &Event, moment: u64) {
        let Token(key) = event.token();
        if let Some(slot) = self.slots.get_mut(key) {
            slot.client.readiness.note(event);
            slot.used = moment;
            self.ready.push(key);
        }
    }

    /// Serves the clients that are ready now, each once, in the order in which they became so. One that becomes ready meanwhile, or whose
    /// budget is used up, is behind them: it is served by the next call.
    pub fn serve_ready<H: Handler<K>>(&mut self, handler: &mut H, moment: u64)
        requires { moment < 2 ^ 63 }
    {
        for _ in 0..self.ready.len() {
            let Some(key) = self.ready.pop() else {
                break;
            };
            self.serve_next(handler, key, moment);
        }
        if self.has_freed {
            self.ready_waiting(handler);
        }
    }

    /// Serves all clients, except those that are ready: these are served in their turn.
    pub fn serve_all<H: Handler<K>>(&mut self, handler: &mut H, moment: u64)
        requires { moment < 2 ^ 63 }
    {
        for key in 0..self.most {
            self.serve(handler, key, moment);
        }
    }

    /// Serves the client of a key as far as possible, unless it is ready: then it is served in its turn.
    pub fn serve<H: Handler<K>>(&mut self, handler: &mut H, key: usize, moment: u64)
        requires { moment < 2 ^ 63 }
    {
        if !self.ready.has(key) {
            self.serve_next(handler, key, moment);
        }
    }

    /// Serves the client of a key as far as possible, once its first bytes are known. A stranger that they show is turned away before any
    /// byte is read.
    fn serve_next<H: Handler<K>>(&mut self, handler: &mut H, key: usize, moment: u64)
        requires { moment < 2 ^ 63 }
    {
        let Some(slot) = self.slots.get_mut(key) else {
            return;
        };
        if !slot.known {
            match opening(&slot.client.stream, slot.client.readiness) {
                Opening::Unsettled => return,
                Opening::Text => slot.known = true,
                Opening::Strange(stranger) => {
                    self.turn_away(handler, key, stranger);
                    return;
                }
            }
        }
        self.busy = true;
        slot.busy = true;
        let share = self.share_of(key);
        if self.shortage.len() == 0 || !self.lacks_room(key, share) {
            self.serve_within(handler, key, moment, share);
        } else if self.send(handler, key) {
            let kept = self.kept_by(key);
            let share = self.buffers.share(kept, Right::Behind);
            self.serve_within(handler, key, moment, share);
        }
    }

    /// Serves the client of a key, which may keep `share` bytes.
    fn serve_within<H: Handler<K>>(&mut self, handler: &mut H, key: usize, moment: u64, share: u64)
        requires { moment < 2 ^ 63 }
    {
        let Some(slot) = self.slots.get_mut(key) else {
            return;
        };
        let before = handler.tally();
        let step = handler.serve(&mut slot.client, moment, share);
        slot.pass(before, handler.tally());
        let number = slot.client.number;
        self.follow(handler, key, number, step);
    }

    /// Closes a client that is a stranger, and notes it for the next line.
    pub(crate) fn turn_away<H: Handler<K>>(
        &mut self,
        handler: &mut H,
        key: usize,
        stranger: Stranger,
    ) {
        let address = self.address_of(key);
        self.refused = self.refused.saturating_add(1);
        self.turned_away.note(Refusal { stranger, address });
        self.close(handler, key);
    }

    /// Prints on standard error, as the program of a name and each at most once a second, that a stranger was turned away, and that a client was
    /// closed since it kept what others waited for, and how many such lines were suppressed before.
    pub fn tell<R: EprintSeldom>(&mut self, rt: &R, program: &str, second: u64) {
        if let Some(Said { what, suppressed }) = self.turned_away.take(second) {
            // Best effort: a failed write to standard error must not stop serving.
            let _ = rt.eprintln_seldom(format_args!("{program}: {what}"), suppressed);
        }
        if let Some(Said { what, suppressed }) = self.crowded_out.take(second) {
            let _ = rt.eprintln_seldom(format_args!("{program}: {what}"), suppressed);
        }
    }

    /// Prints on standard error, as the program of a name and at most once a minute, that no more clients are accepted since the system
    /// gives no connection, and why.
    pub fn tell_refused<R: Eprint>(
        &mut self,
        rt: &R,
        program: &str,
        backlog: Backlog,
        second: u64,
    ) {
        if let Backlog::Refused(error) = backlog
            && self.told_refused.comes(second)
        {
            // Best effort: a failed write to standard error must not stop serving.
            let _ = eprintln!(rt; "{program}: no more clients: {error}");
        }
    }

    /// Frees the memory that is reserved for clients without an event since the last sweep, and closes those that have been idle for too
    /// long. While clients wait for room, it frees that of all, and closes those that keep more than their share and make too little progress.
    pub fn sweep<H: Handler<K>>(&mut self, handler: &mut H, moment: u64) {
        self.busy = false;
        self.due = None;
        let is_short = self.shortage.len() > 0;
        self.squeezed = is_short;
        for key in 0..self.most {
            self.rest_one(handler, key, moment);
            self.judge(handler, key, is_short);
        }
        if is_short {
            self.make_room(handler);
            self.ready_waiting(handler);
        }
    }

    /// Sweeps the client of a key: frees its memory, or closes it.
    fn rest_one<H: Handler<K>>(&mut self, handler: &mut H, key: usize, moment: u64) {
        let Some(slot) = self.slots.get_mut(key) else {
            return;
        };
        let number = slot.client.number;
        let was_busy = mem::replace(&mut slot.busy, false);
        self.busy |= was_busy;
        if !was_busy || self.squeezed {
            handler.shrink_if_idle(number, 0);
        }
        if handler.has_pending(number) || self.shortage.has(key) {
            slot.used = moment;
        }
        let used = slot.used;
        self.recount(handler, key);
        if self.is_too_idle(used, moment) {
            self.close(handler, key);
        } else {
            self.expect(used);
        }
    }

    /// Returns whether a client that was used in a second has been idle for too long: moments are whole seconds, so that one more must
    /// pass.
    fn is_too_idle(&self, used: u64, moment: u64) -> bool {
        self.idle > 0 && moment.saturating_sub(used) > self.idle
    }

    /// Sets when a client that was used in a second will have been idle for too long.
    fn expect(&mut self, used: u64) {
        if self.idle > 0 {
            let due = used.saturating_add(self.idle).saturating_add(1);
            self.due = earlier(self.due, Some(due));
        }
    }

    /// Ends the client's session with the handler, and closes its socket.
    pub(crate) fn close<H: Handler<K>>(&mut self, handler: &mut H, key: usize) {
        let Some(slot) = self.slots.try_remove(key) else {
            return;
        };
        handler.end(slot.client.number);
        self.buffers.change(slot.holding.kept, 0);
        self.has_freed = true;
        self.shortage.leave(key);
        if self.shortage.is_ahead(key) {
            self.shortage.end_lead();
        }
    }
}
