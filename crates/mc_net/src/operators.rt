//! The listener of operators, and their connections.
ghost use Rattle.std.specs.Prelude.{◌≡◌, ◌<◌, ◌-◌, option_map, vec_len};
ghost use Rattle.mc_net.specs.Listings.{first_listing, listed_by, next_listing};

use crate::acceptors::{Acceptor, Backlog};
use crate::after_pumps::AfterPump;
use crate::binding::bind;
use crate::budgets::Budget;
use crate::operator_slots::{OperatorSlot, QUIET};
use mc_admin::{REQUEST_LIMIT, Sheet, host_of};
use mc_program::{AdminTerms, ServeError, earlier};
use mio::event::Event;
use mio::net::TcpStream;
use mio::{Interest, Registry, Token};
use slab::Slab;
use std::alloc::Global;
use std::net::Net;

/// The most connections of operators.
pub const MAX_OPERATORS: usize = 16;

/// The token of the listener. A program's own listener has the one after it.
const LISTENER: usize = usize::MAX - 1;

/// The token of the connection whose key is 0. No other socket has the token of a key.
const FIRST: usize = LISTENER - MAX_OPERATORS;

/// The listener of operators, if there is one, and their connections.
#[derive(Drop)]
pub struct Operators {
    alloc: Global,
    acceptor: Option<Acceptor>,
    /// Whether the poll reports the listener.
    registered: bool,
    /// The host of the listener, as it was given.
    listen: Vec<u8>,
    /// Another name by which a request of HTTP may call the program; empty for none.
    name: Vec<u8>,
    slots: Slab<OperatorSlot>,
    /// The buffer of all reads, made once.
    piece: Vec<u8>,
    budget: Budget,
    /// The second of the round.
    second: u64,
    /// Whether something may be done for a connection.
    stirred: bool,
    /// Whether something may be done for a connection, or one may wait to be accepted.
    awake: bool,
    /// The second in which a connection has waited for too long, or something must be done, at the earliest.
    due: Option<u64>,
    /// The key of the connection to which clients are listed in this round, or were last.
    listed: usize,
    ghost reads: { 0 < vec_len piece },
}

impl Operators {
    /// Makes a listener if words ask for one, and no connection yet; without a listener no operator connects. A request of HTTP may call
    /// the program by the host of the listener, and by another name that the words say.
    pub fn new<R: Net>(
        rt: &R,
        alloc: Global,
        admin: &AdminTerms<'_>,
    ) -> Result<Operators, ServeError> {
        let place = admin.listen.unwrap_or("");
        Ok(Operators {
            alloc,
            listen: Vec::from_slice(alloc, host_of(place.as_bytes()))?,
            name: Vec::from_slice(alloc, admin.name.as_bytes())?,
            piece: Vec::from_elem(alloc, 0, REQUEST_LIMIT)?,
            slots: Slab::with_capacity(alloc, MAX_OPERATORS)?,
            acceptor: acceptor_at(rt, admin)?,
            registered: admin.listen.is_none(),
            budget: Budget::new(),
            second: 0,
            stirred: false,
            awake: false,
            due: None,
            listed: 0,
        })
    }

    /// Returns how many files it has open at most.
    pub fn files(&self) -> u64 {
        if self.acceptor.is_some() {
            MAX_OPERATORS as u64 + 1
        } else {
            0
        }
    }

    /// Returns whether a token is the listener's or a connection's.
    #[inline(always)]
    pub fn has(&self, token: Token) -> bool {
        let Token(number) = token;
        number >= FIRST && number <= LISTENER
    }

    /// Does what is due before the round of a second: registers the listener, accepts connections, and closes those that have waited for
    /// too long. If nothing has happened in this second, it costs a test.
    #[inline(always)]
    pub fn before(&mut self, registry: &Registry, second: u64) {
        if self.awake || !self.registered || second != self.second {
            self.prepare(registry, second);
        }
    }

    /// Does what is due before a round.
    #[inline(never)]
    fn prepare(&mut self, registry: &Registry, second: u64) {
        for key in 0..MAX_OPERATORS {
            if let Some(slot) = self.slots.get_mut(key) {
                slot.settle(second);
            }
        }
        if second != self.second {
            self.second = second;
            self.sweep();
        }
        self.register(registry);
        self.let_in(registry);
        self.settle();
    }

    /// Accepts the connections that wait.
    fn let_in(&mut self, registry: &Registry) {
        for _ in 0..MAX_OPERATORS {
            if self.backlog() == Backlog::Nobody || !self.budget.take(self.second) {
                return;
            }
            let Some(stream) = self.accept() else {
                return;
            };
            self.admit(registry, stream);
        }
    }

    /// Records what is left to do, and when.
    fn settle(&mut self) {
        self.awake = self.stirred || self.backlog() != Backlog::Nobody;
        let next = self.awake.then_some(self.second.saturating_add(1));
        self.due = self
            .slots
            .iter()
            .fold(next, |due, (_, slot)| earlier(due, Some(slot.due())));
    }

    /// Makes the poll report the listener, if it does not yet.
    fn register(&mut self, registry: &Registry) {
        if !self.registered
            && let Some(acceptor) = &mut self.acceptor
        {
            self.registered = acceptor.register(registry, Token(LISTENER)).is_ok();
        }
    }

    /// Returns what is known of the connections that wait to be accepted.
    fn backlog(&self) -> Backlog {
        match &self.acceptor {
            Some(acceptor) => acceptor.backlog(),
            None => Backlog::Nobody,
        }
    }

    /// Returns the next connection that waits.
    fn accept(&mut self) -> Option<TcpStream> {
        match &mut self.acceptor {
            Some(acceptor) => acceptor.accept(),
            None => None,
        }
    }

    /// Makes a place if all are taken: closes the connection that has been quiet longest, if that is for more than [`QUIET`] seconds.
    fn make_room(&mut self) {
        if self.slots.len() < MAX_OPERATORS {
            return;
        }
        let longest = self.slots.iter().fold(None, |longest, (key, slot)| {
            let used = slot.used();
            match longest {
                Some((_, least)) if least <= used => longest,
                _ => Some((key, used)),
            }
        });
        if let Some((key, used)) = longest
            && self.second.saturating_sub(used) > QUIET
        {
            let _ = self.slots.try_remove(key);
        }
    }

    /// Takes a connection in. If there is no place or no memory for it, it is closed at once.
    fn admit(&mut self, registry: &Registry, mut stream: TcpStream) {
        self.make_room();
        let key = self.slots.vacant_key();
        if key >= MAX_OPERATORS {
            return;
        }
        let both = Interest::READABLE | Interest::WRITABLE;
        if registry
            .register(&mut stream, Token(FIRST.saturating_add(key)), both)
            .is_err()
        {
            return;
        }
        if let Ok(slot) = OperatorSlot::new(self.alloc, stream, self.second) {
            // Without memory for it, the connection is closed.
            let _ = self.slots.insert(slot);
        }
    }

    /// Records an event of one of its tokens.
    pub fn note(&mut self, event: &Event) {
        self.awake = true;
        let Token(number) = event.token();
        if number == LISTENER {
            if let Some(acceptor) = &mut self.acceptor {
                acceptor.note();
            }
            return;
        }
        let Some(key) = number.checked_sub(FIRST) else {
            return;
        };
        if let Some(slot) = self.slots.get_mut(key) {
            slot.note(event);
            self.stirred = true;
        }
    }

    /// Returns whether something may be done for a connection in this second.
    pub fn is_stirred(&self) -> bool {
        self.stirred && self.budget.has(self.second)
    }

    /// Returns the place from which clients must be listed for this round, if a connection has asked which are connected: one connection a
    /// round, each in turn. The next list that `serve` gets is for it alone.
    pub fn listing(&mut self) -> Option<usize>
        ensures from { result ≡ option_map (λ found. found.1) (next_listing self.old.slots self.old.listed) }
        ensures rest { self.new ≡ record self.old { listed = listed_by (next_listing self.old.slots self.old.listed) self.old.listed } }
    {
        let after = self.listed.saturating_add(1);
        let (key, from) = match self.listing_in(after, MAX_OPERATORS) {
            Some(found) => found,
            None => self.listing_in(0, after)?,
        };
        self.listed = key;
        Some(from)
    }

    /// Returns the first connection from a key on, and before another, that has asked which clients are connected: its key, and from which
    /// place on.
    #[tactic(auto, using(crate::proofs::ListingLemmas::first_next))]
    fn listing_in(&self, first: usize, end: usize) -> Option<(usize, usize)>
        ensures { result ≡ first_listing self.now.slots first (end - first) }
    {
        for key in first..end {
            let Some(slot) = self.slots.get(key) else {
                continue;
            };
            if let Some(from) = slot.listing() {
                return Some((key, from));
            }
        }
        None
    }

    /// Serves the connections for which something may be done, by the program's report. The second of the round is known to the next
    /// round, which records it for those that sent or took something.
    pub fn serve(&mut self, sheet: &Sheet<'_>) {
        self.stirred = false;
        for key in 0..MAX_OPERATORS {
            self.serve_one(sheet, key);
        }
        self.settle();
        self.awake = true;
    }

    /// Serves the connection of a key, if something may be done for it.
    fn serve_one(&mut self, sheet: &Sheet<'_>, key: usize) {
        let Some(slot) = self.slots.get_mut(key) else {
            return;
        };
        if !slot.stirred {
            return;
        }
        let (listen, name) = (self.listen.as_slice(), self.name.as_slice());
        let mut own = *sheet;
        if key != self.listed {
            own.part = None;
        }
        let step = slot.serve(
            listen,
            name,
            &own,
            &mut self.piece,
            &mut self.budget,
            self.second,
        );
        match step {
            AfterPump::GoOn => self.stirred = true,
            AfterPump::Wait | AfterPump::Short(_) => slot.stirred = false,
            AfterPump::Close | AfterPump::TurnAway => {
                let _ = self.slots.try_remove(key);
            }
        }
    }

    /// Closes the connections for which something may be done: there is no memory for their answers.
    pub fn turn_away(&mut self) {
        self.stirred = false;
        for key in 0..MAX_OPERATORS {
            if self.slots.get(key).is_some_and(|slot| slot.stirred) {
                let _ = self.slots.try_remove(key);
            }
        }
        self.settle();
    }

    /// Returns whether it goes on in this second, even without an event.
    pub fn goes_on(&self) -> bool {
        self.awake && self.has_work() && self.budget.has(self.second)
    }

    /// Returns whether something may be done for a connection, or more wait to be accepted.
    fn has_work(&self) -> bool {
        self.stirred || self.backlog() == Backlog::More
    }

    /// Returns the second in which something must be done without an event, at the earliest.
    pub fn due(&self) -> Option<u64> {
        self.due
    }

    /// Closes the connections that have waited for too long.
    fn sweep(&mut self) {
        for key in 0..MAX_OPERATORS {
            if self
                .slots
                .get(key)
                .is_some_and(|slot| slot.due() <= self.second)
            {
                let _ = self.slots.try_remove(key);
            }
        }
    }
}

/// Makes the listener that words ask for; none if they ask for none.
fn acceptor_at<R: Net>(rt: &R, admin: &AdminTerms<'_>) -> Result<Option<Acceptor>, ServeError> {
    let Some(place) = admin.listen else {
        return Ok(None);
    };
    let listener = bind(rt, place)?;
    Ok(Some(Acceptor::new(listener, 0)))
}
