//! A session: what a client sends, and what it is answered.
ghost use Rattle.std.specs.Prelude.{◌≡◌, ◌≢◌, ◌≤◌, ◌<◌, ◌+◌, ◌-◌, ◌^◌, min, ◌&&◌, ◌==◌, ◌↔◌, ◌∷◌, ◌++◌, [], None, Some, true, false, drop, length, map};
ghost use Rattle.std.specs.Prelude.{IsTrue, IfOk, IfSome, IfNone, IsOkUnless, OnOk, OnErr};
ghost use Rattle.mc_proxy.specs.SessionState.{states};

use crate::held::command_count;
use crate::sending::{is_any_marked, is_held_up, prepare, send_all, start_at_front};
use crate::session_errors::SessionError;
use crate::session_limits::{MAX_UNANSWERED, UNSENT_MARK};
use crate::session_turns::{Emit, SessionTurn};
use crate::stores::{may_store, send_store};
use crate::unanswered::Unanswered;
use mc_link::{Link, Tag};
use mc_request::{Parsed, RequestRef};
use mc_request_reader::{Front, LentGet, Look, Peek, Reader, names_host};
use mc_ring::Ring;
use mc_route::{Losses, Outcome, Routed, goes_to, route};
use mc_text::{consume_front, shrink_if_idle};
use std::alloc::Global;
use std::collections::VecDeque;
use std::marker::Model;

/// A session of a proxy.
#[derive(Drop)]
pub struct Session {
    reader: Reader,
    output: Vec<u8>,
    /// How many bytes of the output were consumed.
    sent: usize,
    /// How many requests and faults were taken.
    taken: u64,
    /// The unanswered ones of them, the oldest first.
    unanswered: VecDeque<Unanswered>,
}

impl Model for Session {
    ghost use Rattle.std.specs.Prelude.{◌≤◌, ◌*◌, drop, length, vec_len};
    ghost use Rattle.mc_proxy.specs.SessionState.{SessionState};

    ghost Value = { SessionState };

    ghost view = { λ s. record { reader = s.reader; output = drop s.sent s.output.items; taken = s.taken; unanswered = s.unanswered.items } };

    ghost invariant = { λ s. (2 * s.sent ≤ vec_len s.output) × (length s.unanswered.items ≤ s.taken) };
}

impl Session {
    ghost use Rattle.mc_request.specs.LinesSeen.{asked_of};
    ghost use Rattle.mc_request.specs.WellFormed.{is_well_formed};
    ghost use Rattle.mc_request_reader.specs.Hosts.{names_host};
    ghost use Rattle.mc_request_reader.specs.Peeks.{front_of, past};
    ghost use Rattle.mc_request_reader.specs.Reader.{KeepsRest, rest_of};
    ghost use Rattle.mc_route.specs.Routes.{route_of_taken};
    ghost use Rattle.mc_proxy.specs.SessionState.{fresh_session};
    ghost use Rattle.mc_proxy.specs.Emits.{IsEmit, emitted, hides_loss_first};
    ghost use Rattle.mc_proxy.specs.SessionNoting.{set_outcome_in_session};
    ghost use Rattle.mc_proxy.specs.Sending.{at_once, handed, is_marked, is_session_marked};
    ghost use Rattle.mc_proxy.specs.FirstAndLast.{commands_in};
    ghost use Rattle.mc_proxy.specs.Held.{held_by_all, held_by_first, next_commands};
    ghost use Rattle.mc_proxy.specs.Looks.{IsReady, waits_for};
    ghost use Rattle.mc_proxy.specs.SessionTurns.{IsFed, IsTurn};

    /// Makes a session to which no byte has arrived.
    pub fn new(alloc: Global) -> Session
        ensures { result ≡ fresh_session }
    {
        Session {
            reader: Reader::new(alloc),
            output: Vec::new(alloc),
            sent: 0,
            taken: 0,
            unanswered: VecDeque::new(alloc),
        }
    }

    /// Takes the next piece of the client's text.
    pub fn feed(&mut self, piece: &[u8]) -> Result<(), SessionError>
        ensures fed { OnOk result (IsFed piece.now self.old self.new) }
        ensures only_memory { IsOkUnless result SessionError.Memory }
        ensures err { OnErr result (self.new ≡ self.old) }
    {
        self.reader.feed(piece)?;
        Ok(())
    }

    /// Returns whether the session has reached a mark of its own.
    fn is_marked(&self) -> bool
        ensures { result ≡ is_session_marked self.now }
    {
        self.unanswered.len() >= MAX_UNANSWERED
            || self.output().len() >= UNSENT_MARK
            || self.taken == u64::MAX
    }

    /// Takes the first whole request or fault, and sends its commands, each to the link of its key's owner, under tags with the session's
    /// number. Its lost commands are answered by this choice.
    ///
    /// All memory is taken before the request is. If none has arrived whole, or the first must wait for a mark, the call needs no memory. The
    /// commands go through a queue, which the caller keeps: it is empty before and after each turn, and has room for those of the requests so
    /// far.
    pub fn turn(
        &mut self,
        alloc: Global,
        number: u64,
        ring: &Ring,
        losses: Losses,
        links: &mut [Link],
        queue: &mut VecDeque<Routed>,
    ) -> Result<SessionTurn, SessionError>
        requires { queue.old.items ≡ [] }
        ensures turn { IfOk result (λ turn. IsTurn number turn ring.now losses (states links.old) (states links.new) self.old self.new) }
        ensures cause { OnErr result (IsReady ring.now (states links.old) self.old) }
        ensures only_memory { IsOkUnless result SessionError.Memory }
        ensures err { OnErr result (self.new ≡ self.old) }
        ensures links_kept { OnErr result (states links.new ≡ states links.old) }
        ensures emptied { queue.new.items ≡ [] }
    {
        let get = match self.reader.look() {
            Look::More => return Ok(SessionTurn::Idle),
            Look::Get(get) => get,
            Look::Line(_) | Look::Other => {
                return self.turn_lent(alloc, number, ring, losses, links, queue);
            }
        };
        let (kept, front) = {
            let LentGet {
                keys,
                with_cas,
                front,
            } = get;
            let asked = RequestRef::Get {
                keys,
                exptime: None,
                with_cas,
            };
            if self.must_wait(links, &asked, ring) {
                return Ok(SessionTurn::Waiting);
            }
            start_at_front(alloc, queue);
            (route(alloc, &asked, ring, queue)?, front)
        };
        self.take(alloc, number, losses, links, queue, kept, front)?;
        Ok(SessionTurn::Took)
    }

    /// Does a turn by [`Reader::peek`], if the turn did not see at once a good `get` or `gets`, or that nothing is whole.
    fn turn_lent(
        &mut self,
        alloc: Global,
        number: u64,
        ring: &Ring,
        losses: Losses,
        links: &mut [Link],
        queue: &mut VecDeque<Routed>,
    ) -> Result<SessionTurn, SessionError>
        requires { queue.old.items ≡ [] }
        ensures turn { IfOk result (λ turn. IsTurn number turn ring.now losses (states links.old) (states links.new) self.old self.new) }
        ensures cause { OnErr result (IsReady ring.now (states links.old) self.old) }
        ensures only_memory { IsOkUnless result SessionError.Memory }
        ensures err { OnErr result (self.new ≡ self.old) }
        ensures links_kept { OnErr result (states links.new ≡ states links.old) }
        ensures emptied { queue.new.items ≡ [] }
    {
        if !may_store(self.reader.unread()) {
            return self.turn_other(alloc, number, ring, losses, links, queue);
        }
        match self.turn_store(alloc, number, ring, losses, links)? {
            Some(turn) => Ok(turn),
            None => self.turn_other(alloc, number, ring, losses, links, queue),
        }
    }

    /// Does a turn on `set`, `add`, `replace`, `append`, `prepend` and `cas`: the data block goes from the reader to the link, and is not
    /// copied before. It returns none if something else is first: then nothing has changed.
    #[inline(never)]
    fn turn_store(
        &mut self,
        alloc: Global,
        number: u64,
        ring: &Ring,
        losses: Losses,
        links: &mut [Link],
    ) -> Result<Option<SessionTurn>, SessionError>
        ensures turn { IfOk result (λ turn. IfSome turn (λ turn. IsTurn number turn ring.now losses (states links.old) (states links.new) self.old self.new)) }
        ensures none { IfOk result (λ turn. IfNone turn ((states links.new ≡ states links.old) × (self.new ≡ self.old))) }
        ensures cause { OnErr result (IsReady ring.now (states links.old) self.old) }
        ensures only_memory { IsOkUnless result SessionError.Memory }
        ensures err { OnErr result (self.new ≡ self.old) }
        ensures links_kept { OnErr result (states links.new ≡ states links.old) }
    {
        let marked = self.is_marked();
        let taken = self.taken;
        let front = match &self.reader.peek() {
            Peek::Closed => return Ok(Some(SessionTurn::Closing)),
            Peek::More => return Ok(Some(SessionTurn::Idle)),
            Peek::First(asked, _) if is_held_up(marked, links, asked, ring) => {
                return Ok(Some(SessionTurn::Waiting));
            }
            Peek::First(asked, front) => {
                let unanswered = &mut self.unanswered;
                if !send_store(alloc, asked, number, taken, ring, losses, links, unanswered)? {
                    return Ok(None);
                }
                *front
            }
        };
        self.reader.consume(front);
        self.taken += 1;
        Ok(Some(SessionTurn::Took))
    }

    /// Does a turn on any request or fault.
    #[inline(never)]
    fn turn_other(
        &mut self,
        alloc: Global,
        number: u64,
        ring: &Ring,
        losses: Losses,
        links: &mut [Link],
        queue: &mut VecDeque<Routed>,
    ) -> Result<SessionTurn, SessionError>
        requires { queue.old.items ≡ [] }
        ensures turn { IfOk result (λ turn. IsTurn number turn ring.now losses (states links.old) (states links.new) self.old self.new) }
        ensures cause { OnErr result (IsReady ring.now (states links.old) self.old) }
        ensures only_memory { IsOkUnless result SessionError.Memory }
        ensures err { OnErr result (self.new ≡ self.old) }
        ensures links_kept { OnErr result (states links.new ≡ states links.old) }
        ensures emptied { queue.new.items ≡ [] }
    {
        let (kept, front) = match &self.reader.peek() {
            Peek::Closed => return Ok(SessionTurn::Closing),
            Peek::More => return Ok(SessionTurn::Idle),
            Peek::First(asked, _) if self.must_wait(links, asked, ring) => return Ok(
                SessionTurn::Waiting,
            ),
            Peek::First(asked, front) => {
                start_at_front(alloc, queue);
                (route(alloc, asked, ring, queue)?, *front)
            }
        };
        self.take(alloc, number, losses, links, queue, kept, front)?;
        Ok(SessionTurn::Took)
    }

    /// Returns whether the session has reached a mark of its own, or a link that the request needs has.
    fn must_wait(&self, links: &[Link], asked: &RequestRef<'_>, ring: &Ring) -> bool
        requires { is_well_formed (asked_of asked.now) ≡ true }
        ensures { result ≡ is_marked self.now (states links.now) (route_of_taken ring.now (asked_of asked.now)) }
    {
        self.is_marked() || is_any_marked(links, asked, ring)
    }

    /// Takes the first request or fault: sends its commands, which are in the queue, each to its link, and keeps what its answer needs.
    #[inline(always)]
    fn take(
        &mut self,
        alloc: Global,
        number: u64,
        losses: Losses,
        links: &mut [Link],
        queue: &mut VecDeque<Routed>,
        kept: Parsed,
        front: Front,
    ) -> Result<(), SessionError>
        requires first { front_of self.old.reader ≡ Some front }
        requires unmarked { is_session_marked self.old ≡ false }
        ensures reader { OnOk result (KeepsRest (past front self.old.reader) self.new.reader) }
        ensures output { OnOk result (self.new.output ≡ self.old.output) }
        ensures taken { OnOk result (self.new.taken ≡ self.old.taken + 1) }
        ensures unanswered { OnOk result (self.new.unanswered ≡ self.old.unanswered
            ++ record { what = kept; losses = losses; outcomes = map (at_once (states links.old)) queue.old.items } ∷ []) }
        ensures sent { OnOk result (states links.new ≡ handed number self.old.taken 0 queue.old.items (states links.old)) }
        ensures only_memory { IsOkUnless result SessionError.Memory }
        ensures err { OnErr result (self.new ≡ self.old) }
        ensures links_kept { OnErr result (states links.new ≡ states links.old) }
        ensures emptied { queue.new.items ≡ [] }
    {
        let commands = queue.make_contiguous();
        let Ok(outcomes) = prepare(alloc, &mut self.unanswered, links, commands) else {
            queue.clear();
            return Err(SessionError::Memory);
        };
        self.reader.consume(front);
        send_all(links, queue, number, self.taken);
        self.unanswered
            .push_back_reserved(Unanswered::new(kept, losses, outcomes));
        self.taken += 1;
        Ok(())
    }

    /// Returns whether a whole request or fault has arrived and was not taken. It takes no memory.
    pub fn ready(&self) -> bool
        ensures { IsTrue result ↔ (0 < length (rest_of self.now.reader [])) }
    {
        self.reader.ready()
    }

    /// Returns whether the unread bytes begin with a line that names a host, after any spaces. It takes no memory.
    pub fn is_foreign(&self) -> bool
        ensures { result ≡ names_host self.now.reader.unread }
    {
        names_host(self.reader.unread())
    }

    /// Returns whether a turn would take a request or fault: one has arrived whole, and need not wait for a mark. It takes no memory.
    pub fn can_turn(&self, ring: &Ring, links: &[Link]) -> bool
        ensures { IsTrue result ↔ IsReady ring.now (states links.now) self.now }
    {
        match &self.reader.peek() {
            Peek::First(asked, _) => !self.is_marked() && !is_any_marked(links, asked, ring),
            Peek::More | Peek::Closed => false,
        }
    }

    /// Returns whether the first whole request or fault has a command for the server at a place of the ring. It takes no memory.
    pub fn waits_for(&self, ring: &Ring, place: usize) -> bool
        ensures { result ≡ waits_for ring.now place (rest_of self.now.reader []) }
    {
        match &self.reader.peek() {
            Peek::First(asked, _) => goes_to(asked, ring, place),
            Peek::More => false,
            Peek::Closed => false,
        }
    }

    /// Records the outcome of a command. If its request is answered, the outcome is dropped.
    pub fn note(&mut self, tag: Tag, outcome: Outcome)
        ensures { self.new ≡ set_outcome_in_session tag outcome self.old }
    {
        let answered = self.taken - self.unanswered.len() as u64;
        let Some(place) = tag.request.checked_sub(answered) else {
            return;
        };
        let place = place as usize;
        if place < self.unanswered.len() {
            self.unanswered[place].note(tag.atom, outcome);
        }
    }

    /// Returns whether the outcome of each command of the oldest unanswered request is known. It takes no memory.
    pub fn has_answer(&self) -> bool
        ensures { IsTrue result ↔ (emitted self.now ≢ None) }
    {
        self.unanswered.front().is_some_and(Unanswered::is_known)
    }

    /// Returns whether a command of the oldest unanswered request was lost, and its answer does not say so. It takes no memory.
    pub fn hides_loss(&self) -> bool
        ensures { result ≡ hides_loss_first self.now.unanswered }
    {
        self.unanswered.front().is_some_and(Unanswered::hides_loss)
    }

    /// Appends the answer to the oldest unanswered request, if the outcome of each of its commands is known.
    ///
    /// At an error nothing was emitted. If no answer is known, it needs no memory.
    pub fn emit(&mut self) -> Result<Emit, SessionError>
        ensures emit { IfOk result (λ emit. IsEmit emit self.old self.new) }
        ensures cause { OnErr result (emitted self.old ≢ None) }
        ensures only_memory { IsOkUnless result SessionError.Memory }
        ensures err { OnErr result (self.new ≡ self.old) }
    {
        let Some(oldest) = self.unanswered.front() else {
            return Ok(Emit::Idle);
        };
        if !oldest.is_known() {
            return Ok(Emit::Idle);
        }
        oldest.answer(&mut self.output)?;
        self.unanswered.pop_front();
        Ok(Emit::Done)
    }

    /// Returns whether the session is closed to input and every request is answered.
    pub fn is_finished(&self) -> bool
        ensures { result ≡ (self.now.reader.closed && (length self.now.unanswered == 0)) }
    {
        self.reader.is_closed() && self.unanswered.is_empty()
    }

    /// Returns how many requests are not answered.
    pub fn unanswered(&self) -> usize
        ensures { result ≡ length self.now.unanswered }
    {
        self.unanswered.len()
    }

    /// Returns how many commands the newest unanswered request has: none if all are answered.
    pub fn commands(&self) -> usize
        ensures { result ≡ commands_in self.now.unanswered }
    {
        self.unanswered.back().map_or(0, Unanswered::commands)
    }

    /// Returns the answers that were not consumed.
    pub fn output(&self) -> &[u8]
        ensures { result.now ≡ self.now.output }
    {
        let (_, output) = self.output.split_at(self.sent);
        output
    }

    /// Consumes the first `count` bytes of the output, which were sent to the client.
    pub fn taken_out(&mut self, count: usize)
        requires { count ≤ length self.old.output }
        ensures { self.new ≡ record self.old { output = drop count self.old.output } }
    {
        self.sent = consume_front(&mut self.output, self.sent + count);
    }

    /// Returns how many commands the first whole request or fault has: none if none has arrived. It takes no memory.
    pub fn next_commands(&self, ring: &Ring) -> usize
        ensures { result ≡ next_commands ring.now (rest_of self.now.reader []) }
    {
        match &self.reader.peek() {
            Peek::First(asked, _) => command_count(asked, ring),
            Peek::More => 0,
            Peek::Closed => 0,
        }
    }

    /// Returns how many bytes are kept for the unanswered requests, as far as 64 bits count: the values of the replies that arrived, and room
    /// for each request and command. It looks at each unanswered request, and takes no memory.
    pub fn held(&self) -> u64
        ensures { result ≡ min (held_by_all self.now.unanswered) (2 ^ 64 - 1) }
    {
        let mut held: u64 = 0;
        for open_one in &self.unanswered {
            held = held.saturating_add(open_one.held());
        }
        held
    }

    /// Returns likewise how many bytes are kept for the oldest unanswered request: none if all are answered.
    pub fn held_by_oldest(&self) -> u64
        ensures { result ≡ min (held_by_first self.now.unanswered) (2 ^ 64 - 1) }
    {
        self.unanswered.front().map_or(0, Unanswered::held)
    }

    /// Returns how many bytes of memory are reserved for what is kept of the input, and for the output: no fewer than either has, as far as 64
    /// bits count. What is kept for unanswered requests is counted by [`Session::held`].
    pub fn reserved(&self) -> usize
        ensures input { min self.now.reader.held (2 ^ 64 - 1) ≤ result }
        ensures output { length self.now.output ≤ result }
    {
        self.reader
            .reserved()
            .saturating_add(self.output.capacity())
    }

    /// Returns how many bytes more are reserved for the input once `more` further bytes have arrived.
    pub fn growth(&self, more: usize) -> usize {
        self.reader.growth(more)
    }

    /// Returns how many of `bytes` further bytes of the input can arrive so that at most `room` bytes more are reserved.
    pub fn readable(&self, bytes: usize, room: usize) -> usize
        ensures { result ≤ bytes }
    {
        self.reader.readable(bytes, room)
    }

    /// Frees the memory of each empty buffer that has room for more than `kept` bytes or requests.
    pub fn shrink_if_idle(&mut self, kept: usize)
        ensures { self.new ≡ self.old }
    {
        self.reader.shrink_if_idle(kept);
        shrink_if_idle(&mut self.output, kept);
        if self.unanswered.is_empty() && self.unanswered.capacity() > kept {
            self.unanswered.shrink_to_fit();
        }
    }
}
