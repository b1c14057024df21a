//! The proxy: sessions over links.
ghost use Rattle.std.specs.Prelude.{◌≡◌, ◌≢◌, ◌+◌, ◌-◌, ◌^◌, ◌<◌, ◌≤◌, ◌↔◌, ◌⊎◌, [], None, Some, length, min, replicate, IsErrOf, IsTrue, IsOkUnless, IfOk, IfErr, IfSome, OnOk, OnErr};

use crate::errors::ProxyError;
use crate::limits::MAX_SESSIONS;
use crate::session_turns::{Emit, SessionTurn};
use crate::sessions::Session;
use mc_link::Link;
use mc_ring::Ring;
use mc_route::{Losses, Routed};
use mc_table::Numbered;
use std::alloc::Global;
use std::collections::VecDeque;
use std::marker::Model;

/// A proxy over the servers of a ring. Contracts see the ring, the open sessions by their numbers, how many it has admitted,
/// and the links by the places of their servers.
#[derive(Drop)]
pub struct Proxy {
    pub(crate) alloc: Global,
    /// The choice for lost commands.
    pub(crate) losses: Losses,
    pub(crate) ring: Ring,
    /// The open sessions.
    pub(crate) sessions: Numbered<Session>,
    /// The links, by the places of their servers.
    pub(crate) links: Vec<Link>,
    /// Holds a turn's commands while they are sent. Between turns it is empty, and keeps only its memory.
    pub(crate) queue: VecDeque<Routed>,
}

impl Model for Proxy {
    ghost use Rattle.mc_proxy.specs.SessionState.{states};
    ghost use Rattle.mc_proxy.specs.ProxyState.{ProxyState};
    ghost use Rattle.mc_proxy.specs.ProxyFields.{IsProxy};

    ghost Value = { ProxyState };

    ghost view = { λ p. record { losses = p.losses; ring = p.ring; sessions = p.sessions.entries; admitted = p.sessions.next; links = states p.links.items } };

    ghost invariant = { IsProxy };
}

impl Proxy {
    ghost use Rattle.mc_route.specs.declared.losses.Losses.TheVariants.{Told};
    ghost use Rattle.mc_proxy.specs.Emits.{IsEmit, emitted};
    ghost use Rattle.mc_proxy.specs.SessionState.{fresh_session};
    ghost use Rattle.mc_proxy.specs.FirstAndLast.{commands_of, is_foreign_at};
    ghost use Rattle.mc_proxy.specs.Held.{held_first_of, held_of, next_commands};
    ghost use Rattle.mc_proxy.specs.Looks.{IsReady, waits_for};
    ghost use Rattle.mc_proxy.specs.SessionTurns.{IsFed, IsTurn};
    ghost use Rattle.mc_proxy.specs.ProxyState.{is_finished, opened, output_of, sent_by, session_at, unanswered_of, with_fresh, without};
    ghost use Rattle.mc_proxy.specs.Turns.{Alone, CanTurn, HasAnswer, Steps, hides_loss_at, waiting_of};

    /// Makes a proxy without sessions, whose links are down and have never been up. Its choice for lost commands is [`Losses::Told`].
    pub fn new(alloc: Global, ring: Ring) -> Result<Proxy, ProxyError>
        ensures new { IfOk result (λ p. p ≡ opened Told ring) }
        ensures only_memory { IsOkUnless result ProxyError.Memory }
    {
        Proxy::with_losses(alloc, ring, Losses::Told)
    }

    /// Makes such a proxy with this choice for the lost commands of all clients.
    pub fn with_losses(alloc: Global, ring: Ring, losses: Losses) -> Result<Proxy, ProxyError>
        ensures new { IfOk result (λ p. p ≡ opened losses ring) }
        ensures only_memory { IsOkUnless result ProxyError.Memory }
    {
        let mut links = Vec::with_capacity(alloc, ring.servers().len())?;
        for _ in 0..ring.servers().len() {
            links.push(Link::new(alloc))?;
        }
        Ok(Proxy {
            alloc,
            losses,
            ring,
            sessions: Numbered::new(alloc),
            links,
            queue: VecDeque::new(alloc),
        })
    }

    /// Returns the ring by which requests are routed. There is a link for each of its servers.
    pub fn ring(&self) -> &Ring
        ensures ring { result.now ≡ self.now.ring }
        ensures linked { length self.now.links ≡ length self.now.ring.servers }
    {
        &self.ring
    }

    /// Opens a session and returns its number. Numbers start at 0, and none is given twice.
    pub fn admit(&mut self) -> Result<u64, ProxyError>
        ensures number { IfOk result (λ number. number ≡ self.old.admitted) }
        ensures admitted { OnOk result (self.new ≡ with_fresh self.old) }
        ensures was_closed { IfOk result (λ number. session_at self.old number ≡ None) }
        ensures is_fresh { IfOk result (λ number. session_at self.new number ≡ Some fresh_session) }
        ensures too_many { IsErrOf result ProxyError.TooManySessions
            ↔ ((MAX_SESSIONS ≤ length self.old.sessions) ⊎ (self.old.admitted ≡ 2 ^ 64 - 1)) }
        ensures only { IfErr result (λ e. (e ≡ ProxyError.TooManySessions) ⊎ (e ≡ ProxyError.Memory)) }
        ensures err { OnErr result (self.new ≡ self.old) }
    {
        let is_full = self.sessions.len() >= MAX_SESSIONS;
        if is_full || self.sessions.next_number() == u64::MAX {
            return Err(ProxyError::TooManySessions);
        }
        Ok(self.sessions.push(Session::new(self.alloc))?)
    }

    /// Returns whether a session is open.
    pub fn is_open(&self, number: u64) -> bool
        ensures { IsTrue result ↔ (session_at self.now number ≢ None) }
    {
        self.sessions.get(number).is_some()
    }

    /// Takes the next piece of a session's text.
    #[tactic(auto, using(mc_table::proofs::NumberedEntryLemmas::updated_same))]
    pub fn feed(&mut self, number: u64, piece: &[u8]) -> Result<(), ProxyError>
        ensures fed { OnOk result (Steps number self.old self.new (Alone (IsFed piece.now))) }
        ensures no_session { IsErrOf result ProxyError.NoSession ↔ (session_at self.old number ≡ None) }
        ensures only { IfErr result (λ e. (e ≡ ProxyError.NoSession) ⊎ (e ≡ ProxyError.Memory)) }
        ensures err { OnErr result (self.new ≡ self.old) }
    {
        match self.sessions.get_mut(number) {
            Some(session) => Ok(session.feed(piece)?),
            None => Err(ProxyError::NoSession),
        }
    }

    /// Takes the first whole request or fault of a session, and sends its commands, each to the link of its key's owner. A command whose link
    /// is down is lost.
    ///
    /// At an error the request is not taken, and no command was sent. If none has arrived whole, or the first must wait for a mark, no memory
    /// is taken.
    #[tactic(auto, using(mc_table::proofs::NumberedEntryLemmas::updated_same))]
    pub fn turn(&mut self, number: u64) -> Result<SessionTurn, ProxyError>
        ensures turn { IfOk result (λ turn. Steps number self.old self.new (IsTurn number turn self.old.ring self.old.losses)) }
        ensures memory { IsErrOf result ProxyError.Memory → IfSome (session_at self.old number) (IsReady self.old.ring self.old.links) }
        ensures no_session { IsErrOf result ProxyError.NoSession ↔ (session_at self.old number ≡ None) }
        ensures only { IfErr result (λ e. (e ≡ ProxyError.NoSession) ⊎ (e ≡ ProxyError.Memory)) }
        ensures err { OnErr result (self.new ≡ self.old) }
    {
        match self.sessions.get_mut(number) {
            Some(session) => {
                let links = self.links.as_mut_slice();
                Ok(session.turn(
                    self.alloc,
                    number,
                    &self.ring,
                    self.losses,
                    links,
                    &mut self.queue,
                )?)
            }
            None => Err(ProxyError::NoSession),
        }
    }

    /// Returns whether a whole request or fault of a session has arrived and was not taken. It is false if the session is not open. It takes
    /// no memory.
    pub fn ready(&self, number: u64) -> bool
        ensures { IsTrue result ↔ (0 < length (waiting_of (session_at self.now number))) }
    {
        self.sessions.get(number).is_some_and(Session::ready)
    }

    /// Returns whether the unread bytes of a session begin with a line that names a host, after any spaces: no client of a cache sends
    /// one, but a web browser does. It is false if the session is not open. It takes no memory.
    pub fn is_foreign(&self, number: u64) -> bool
        ensures { result ≡ is_foreign_at (session_at self.now number) }
    {
        self.sessions.get(number).is_some_and(Session::is_foreign)
    }

    /// Returns whether a turn of a session would take a request or fault: one has arrived whole, and need not wait for a mark. It is false if
    /// the session is not open. It takes no memory.
    pub fn can_turn(&self, number: u64) -> bool
        ensures { IsTrue result ↔ CanTurn number self.now }
    {
        match self.sessions.get(number) {
            Some(session) => session.can_turn(&self.ring, self.links.as_slice()),
            None => false,
        }
    }

    /// Returns whether the first whole request or fault of a session has a command for the server at a place. It is false if none has arrived,
    /// or the session is not open. It takes no memory.
    pub fn waits_for(&self, number: u64, server: usize) -> bool
        ensures { result ≡ waits_for self.now.ring server (waiting_of (session_at self.now number)) }
    {
        match self.sessions.get(number) {
            Some(session) => session.waits_for(&self.ring, server),
            None => false,
        }
    }

    /// Returns whether the outcome of each command of a session's oldest unanswered request is known. It is false if the session is not open.
    /// It takes no memory.
    pub fn has_answer(&self, number: u64) -> bool
        ensures { IsTrue result ↔ HasAnswer number self.now }
    {
        self.sessions.get(number).is_some_and(Session::has_answer)
    }

    /// Returns whether a command of a session's oldest unanswered request was lost, and its answer does not say so: with [`Losses::Missed`] it
    /// is a miss, or silent. It is false if all requests are answered, or the session is not open. It takes no memory.
    pub fn hides_loss(&self, number: u64) -> bool
        ensures { result ≡ hides_loss_at (session_at self.now number) }
    {
        self.sessions.get(number).is_some_and(Session::hides_loss)
    }

    /// Emits the answer to the oldest unanswered request of a session, if the outcome of each of its commands is known.
    ///
    /// At an error nothing was emitted. If no answer is known, no memory is taken.
    #[tactic(auto, using(mc_table::proofs::NumberedEntryLemmas::updated_same))]
    pub fn emit(&mut self, number: u64) -> Result<Emit, ProxyError>
        ensures emit { IfOk result (λ emit. Steps number self.old self.new (Alone (IsEmit emit))) }
        ensures memory { IsErrOf result ProxyError.Memory → IfSome (session_at self.old number) (λ session. emitted session ≢ None) }
        ensures no_session { IsErrOf result ProxyError.NoSession ↔ (session_at self.old number ≡ None) }
        ensures only { IfErr result (λ e. (e ≡ ProxyError.NoSession) ⊎ (e ≡ ProxyError.Memory)) }
        ensures err { OnErr result (self.new ≡ self.old) }
    {
        match self.sessions.get_mut(number) {
            Some(session) => Ok(session.emit()?),
            None => Err(ProxyError::NoSession),
        }
    }

    /// Returns a session's answers that were not consumed: none if it is not open.
    pub fn output(&self, number: u64) -> &[u8]
        ensures { result.now ≡ output_of (session_at self.now number) }
    {
        self.sessions.get(number).map_or(&[], Session::output)
    }

    /// Consumes the first `count` bytes of a session's output, which were sent to its client. It takes no memory.
    pub fn taken_out(&mut self, number: u64, count: usize)
        requires { count ≤ length (output_of (session_at self.old number)) }
        ensures { self.new ≡ sent_by number count (session_at self.old number) self.old }
    {
        let Some(session) = self.sessions.get_mut(number) else {
            return;
        };
        session.taken_out(count);
    }

    /// Returns how many requests and faults of a session were taken and are not answered: none if it is not open.
    pub fn unanswered(&self, number: u64) -> usize
        ensures { result ≡ unanswered_of (session_at self.now number) }
    {
        self.sessions.get(number).map_or(0, Session::unanswered)
    }

    /// Returns how many commands the newest unanswered request of a session has: none if all are answered, or it is not open.
    pub fn commands(&self, number: u64) -> usize
        ensures { result ≡ commands_of (session_at self.now number) }
    {
        self.sessions.get(number).map_or(0, Session::commands)
    }

    /// Returns whether the session is closed to input, after `quit` or a line too long, and all that was taken of it is answered. It is false
    /// if the session is not open.
    pub fn finished(&self, number: u64) -> bool
        ensures { result ≡ is_finished (session_at self.now number) }
    {
        self.sessions.get(number).is_some_and(Session::is_finished)
    }

    /// Returns how many commands the first whole request or fault of a session has: none if none has arrived, or it is not open. It scans
    /// that request, and takes no memory.
    pub fn next_commands(&self, number: u64) -> usize
        ensures { result ≡ next_commands self.now.ring (waiting_of (session_at self.now number)) }
    {
        match self.sessions.get(number) {
            Some(session) => session.next_commands(&self.ring),
            None => 0,
        }
    }

    /// Returns how many bytes are kept for the unanswered requests of a session, as far as 64 bits count: the values of the replies that
    /// arrived, and room for each request and command ([`REQUEST_ROOM`](crate::REQUEST_ROOM), [`COMMAND_ROOM`](crate::COMMAND_ROOM)). It is 0
    /// if the session is not open. It looks at each unanswered request, and takes no memory.
    pub fn held(&self, number: u64) -> u64
        ensures { result ≡ min (held_of (session_at self.now number)) (2 ^ 64 - 1) }
    {
        self.sessions.get(number).map_or(0, Session::held)
    }

    /// Returns likewise how many bytes are kept for the oldest unanswered request of a session, of which its answer is made: none if all are
    /// answered, or it is not open.
    pub fn held_by_oldest(&self, number: u64) -> u64
        ensures { result ≡ min (held_first_of (session_at self.now number)) (2 ^ 64 - 1) }
    {
        self.sessions.get(number).map_or(0, Session::held_by_oldest)
    }

    /// Returns how many bytes of memory are reserved for a session's input and output: no fewer than its output has, and 0 if it is not open.
    /// What is kept for its unanswered requests is counted by [`Proxy::held`].
    pub fn reserved(&self, number: u64) -> usize
        ensures output { length (output_of (session_at self.now number)) ≤ result }
        ensures not_open { session_at self.now number ≡ None → result ≡ 0 }
    {
        self.sessions.get(number).map_or(0, Session::reserved)
    }

    /// Returns how many bytes more are reserved for a session's input once `more` further bytes have arrived: 0 if they fit into what is reserved, or the
    /// session is not open.
    pub fn growth(&self, number: u64, more: usize) -> usize {
        match self.sessions.get(number) {
            Some(session) => session.growth(more),
            None => 0,
        }
    }

    /// Returns how many of `bytes` further bytes can arrive at a session so that at most `room` bytes more are reserved: all of them, or those that fit into
    /// what is reserved. If the session is not open it is 0.
    pub fn readable(&self, number: u64, bytes: usize, room: usize) -> usize
        ensures { result ≤ bytes }
    {
        match self.sessions.get(number) {
            Some(session) => session.readable(bytes, room),
            None => 0,
        }
    }

    /// Frees the memory of each empty buffer of a session that has room for more than `kept` bytes or requests. It is for a session that is
    /// idle. If no session has this number, it does nothing.
    #[tactic(auto, using(mc_table::proofs::NumberedEntryLemmas::updated_same))]
    pub fn shrink_if_idle(&mut self, number: u64, kept: usize)
        ensures { self.new ≡ self.old }
    {
        let Some(session) = self.sessions.get_mut(number) else {
            return;
        };
        session.shrink_if_idle(kept);
    }

    /// Ends a session: drops its text, its answers and its unanswered requests. Replies to its pending commands are dropped when they arrive.
    /// It takes no memory.
    pub fn gone(&mut self, number: u64) -> Result<(), ProxyError>
        ensures gone { OnOk result (self.new ≡ record self.old { sessions = without number self.old.sessions }) }
        ensures not_open { OnOk result (session_at self.new number ≡ None) }
        ensures no_session { IsErrOf result ProxyError.NoSession ↔ (session_at self.old number ≡ None) }
        ensures only_no_session { IsOkUnless result ProxyError.NoSession }
        ensures err { OnErr result (self.new ≡ self.old) }
    {
        self.sessions.remove(number).ok_or(ProxyError::NoSession)?;
        Ok(())
    }
}
