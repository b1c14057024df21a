//! The handler of a proxy's clients.
ghost use Rattle.std.specs.Prelude.{◌≡◌, ◌<◌, vec_len};

use crate::holds::{Held, held_after};
use crate::limits::{CLIENT_ROOM, LITTLE_LEN};
use crate::options::PROGRAM;
use crate::pools::{is_marked, kept_for_links};
use crate::refusals::Refused;
use crate::settings::ProxySettings;
use mc_net::{AfterPump, Client, Handler, Input, PIECE_LEN, ROOM_AHEAD, step_after};
use mc_program::{EprintSeldom, OncePerSecond, Said, ServeError};
use mc_proxy::{Losses, MAX_SESSIONS, MAX_UNANSWERED, Proxy, UNSENT_MARK};
use mc_proxy_pump::{
    ClientTally, Pumped, has_pending, kept_for, pump_answers, pump_client, readable,
};
use mc_ring::{Ring, SERVER_LIMIT};
use mc_stream::IoStats;
use std::alloc::Global;
use std::collections::HashMap;
use std::mem;

/// What a proxy keeps of a client.
#[derive(Clone, Copy, Default)]
pub struct ClientState {
    /// Why its next request waits, if it does.
    held: Held,
    /// A bit for each place of a server for which the next request is known to have no command. A server that joins only takes keys, so
    /// no bit becomes wrong by it.
    not_for: u64,
    /// A bit for each place of a server for which the next request is known to have a command.
    is_for: u64,
}

impl ClientState {
    /// Releases the client, if a link holds it: its next request may be taken now, as far as is known.
    pub fn release(&mut self) {
        if self.held == Held::ByLink {
            self.held = Held::No;
        }
    }

    /// Releases the client after a server has joined or a link was lost. The servers of its next request may be others than before.
    pub fn release_anew(&mut self) {
        self.release();
        self.is_for = 0;
    }

    /// Forgets what is known of its next request.
    fn forget_next(&mut self) {
        self.not_for = 0;
        self.is_for = 0;
    }
}

/// A proxy, and what its clients share.
#[derive(Drop)]
pub struct ProxyHandler {
    /// The proxy.
    pub proxy: Proxy,
    /// The keys of the clients by the numbers of their sessions.
    keys: HashMap<u64, usize>,
    /// The buffer of all reads, made once.
    pub piece: Vec<u8>,
    /// The buffer of reads for a client that may keep little more.
    little: Vec<u8>,
    /// The traffic of all clients. Requests whose answers hide a loss are counted if the choice is [`Losses::Missed`].
    pub tally: ClientTally,
    /// If more bytes are kept for one client, its turns and reads stop.
    most: u64,
    /// The most bytes that may ever be kept for one client.
    limit: u64,
    /// The pending line about a request that is refused.
    refused: OncePerSecond<Refused>,
    ghost reads: { 0 < vec_len piece },
    ghost reads_little: { 0 < vec_len little },
}

impl ProxyHandler {
    /// Makes the handler of the clients of a new proxy over a ring, with these settings.
    pub fn new(alloc: Global, ring: Ring, settings: &ProxySettings) -> Result<Self, ServeError> {
        let losses = settings.losses;
        let keys = HashMap::with_capacity(alloc, MAX_SESSIONS)?;
        let piece = Vec::from_elem(alloc, 0, PIECE_LEN)?;
        let little = Vec::from_elem(alloc, 0, LITTLE_LEN)?;
        let Ok(proxy) = Proxy::with_losses(alloc, ring, losses) else {
            return Err(ServeError::Memory);
        };
        let mut tally = ClientTally::new(losses == Losses::Missed);
        tally.answer = settings.answer_limit();
        Ok(ProxyHandler {
            proxy,
            keys,
            piece,
            little,
            tally,
            most: settings.held,
            limit: settings.buffers.saturating_add(ROOM_AHEAD),
            refused: OncePerSecond::new(),
        })
    }

    /// Returns the key of the client of a session.
    pub fn key_of(&self, session: u64) -> Option<usize> {
        self.keys.get(&session).copied()
    }

    /// Returns whether a client can go on that a link holds, and of which the next request may have waited for one of the links to the servers at
    /// some places. While another link is at its mark, the request is read once for each place, until it is taken: so requests that wait long
    /// cost little, however often a link falls below its mark.
    pub fn can_resume(&self, client: &mut Client<ClientState>, places: &[usize]) -> bool {
        if client.kept.held != Held::ByLink {
            return false;
        }
        if !self.is_any_marked() {
            return true;
        }
        for place in places {
            let bit = bit_of(*place);
            if client.kept.not_for & bit != 0 || is_marked(&self.proxy, *place) {
                continue;
            }
            if client.kept.is_for & bit != 0 || self.proxy.waits_for(client.number, *place) {
                client.kept.is_for |= bit;
                return true;
            }
            client.kept.not_for |= bit;
        }
        false
    }

    /// Returns whether a client has reached a mark of its own.
    fn is_own_marked(&self, number: u64) -> bool {
        self.proxy.unanswered(number) >= MAX_UNANSWERED
            || self.proxy.output(number).len() >= UNSENT_MARK
    }

    /// Returns whether a client is held: it is only sent its answers.
    fn is_held(&self, client: &Client<ClientState>) -> bool {
        let held = client.kept.held;
        held != Held::No && held.holds(self.is_own_marked(client.number))
    }

    /// Records how the last pump of a client ended, and whether it took a request.
    fn note_pumped(&self, client: &mut Client<ClientState>, pumped: Pumped, took: bool)
        ensures { client.new.number ≡ client.old.number }
    {
        let is_ready = pumped == Pumped::Blocked && self.proxy.ready(client.number);
        let is_marked = is_ready && self.is_own_marked(client.number);
        client.kept.held = held_after(pumped, is_ready, is_marked);
        if took || client.kept.held != Held::ByLink {
            client.kept.forget_next();
        }
    }

    /// Returns whether a link has reached its mark of unsent bytes.
    fn is_any_marked(&self) -> bool {
        (0..SERVER_LIMIT).any(|place| is_marked(&self.proxy, place))
    }

    /// Returns whether each of the links to the servers at some places has reached its mark of unsent bytes.
    pub fn are_marked(&self, places: &[usize]) -> bool {
        places.iter().all(|place| is_marked(&self.proxy, *place))
    }

    /// Returns whether more bytes are kept for a client than may be for one, so that it is only sent its answers. A client without a pending answer
    /// goes on, however much of its next request has arrived.
    fn is_over(&self, number: u64) -> bool {
        has_pending(&self.proxy, number) && kept_for(&self.proxy, number) > self.most
    }

    /// Returns whether more bytes are kept for a client's oldest unanswered request than an answer may have.
    fn is_too_large(&self, number: u64) -> bool {
        self.proxy.held_by_oldest(number) > self.tally.answer
    }

    /// Closes a client whose answer is too large once the answers before it are sent. Until then it waits for its socket.
    fn end_too_large(&mut self, number: u64) -> AfterPump {
        if self.proxy.output(number).is_empty() {
            self.refuse(Refused::Answer(self.tally.answer))
        } else {
            AfterPump::Wait
        }
    }

    /// Closes a client whose request is refused, and notes it for the next line.
    fn refuse(&mut self, refused: Refused) -> AfterPump {
        self.refused.note(refused);
        AfterPump::Close
    }

    /// Prints on standard error, at most once a second, that a request was refused, and how many such lines were suppressed before.
    pub fn tell<R: EprintSeldom>(&mut self, rt: &R, second: u64) {
        if let Some(Said { what, suppressed }) = self.refused.take(second) {
            let line = format_args!("{PROGRAM}: request refused: {what}");
            // Best effort: a failed write to standard error must not stop serving.
            let _ = rt.eprintln_seldom(line, suppressed);
        }
    }

    /// Returns what is done next with a client whose pump ended so. If only a read lacks room, it waits for the pending answers, which free room: each
    /// reply is an event, and so is a socket that takes bytes again. If it needs more than may ever be kept, it waits likewise, and is closed if
    /// it frees no room.
    fn step_of(&mut self, client: &Client<ClientState>, pumped: Pumped) -> AfterPump {
        let number = client.number;
        if pumped == Pumped::Again && self.is_too_large(number) {
            return self.end_too_large(number);
        }
        match self.tally.short {
            None => step_after(pumped),
            Some(_) if self.has_time(client) => AfterPump::Wait,
            Some(_) if self.may_read_little(client.number) => AfterPump::GoOn,
            Some(need) if need <= self.limit => AfterPump::Short(need),
            Some(_) if self.frees_room(number) => AfterPump::Wait,
            Some(_) => self.refuse(Refused::Room(self.limit)),
        }
    }

    /// Returns whether a client's next answer is known, and less is unsent than the mark.
    fn emits_next(&self, number: u64) -> bool {
        self.proxy.has_answer(number) && self.proxy.output(number).len() < UNSENT_MARK
    }

    /// Sends a client the answers that are known, since its pump ended before it emitted them all: its next request has no room. An answer frees some.
    fn put_out(&mut self, client: &Client<ClientState>) -> AfterPump {
        let mut output = &client.stream;
        match pump_answers(&mut self.proxy, client.number, &mut output, &mut self.tally) {
            Ok(_) => AfterPump::GoOn,
            Err(pump) => self.step_of(client, pump),
        }
    }

    /// Returns whether room is freed by an event of a client: it has an unsent answer, or its oldest request has a pending reply.
    fn frees_room(&self, number: u64) -> bool {
        let awaits = self.proxy.unanswered(number) > 0 && !self.proxy.has_answer(number);
        awaits || !self.proxy.output(number).is_empty()
    }

    /// Returns whether a client has nothing to go on with but a read, and may be read a little.
    fn may_read_little(&self, number: u64) -> bool {
        let is_read = !self.proxy.has_answer(number) && !self.proxy.ready(number);
        is_read && readable(&self.proxy, number, LITTLE_LEN, self.tally.most) > 0
    }

    /// Returns whether a client has nothing to go on with but a read, and need not be read now: it has a pending answer, or all that has arrived was read.
    fn has_time(&self, client: &Client<ClientState>) -> bool {
        let number = client.number;
        let is_read = !self.proxy.has_answer(number) && !self.proxy.ready(number);
        is_read && (has_pending(&self.proxy, number) || client.readiness.would_block())
    }

    /// Sends a client its answers, and returns what is done with it next. It is served again once it is not held, or, if it was not, once no more
    /// is kept for it than may be.
    fn drain(&mut self, client: &mut Client<ClientState>, was_held: bool) -> AfterPump
        ensures { client.new.number ≡ client.old.number }
    {
        let mut output = &client.stream;
        match pump_answers(&mut self.proxy, client.number, &mut output, &mut self.tally) {
            Err(pump) => self.step_of(client, pump),
            Ok(true) => AfterPump::GoOn,
            Ok(false) if self.is_too_large(client.number) => self.end_too_large(client.number),
            Ok(false) => {
                let is_free = if was_held {
                    !self.is_held(client)
                } else {
                    !self.is_over(client.number)
                };
                if is_free {
                    AfterPump::GoOn
                } else {
                    AfterPump::Wait
                }
            }
        }
    }

    /// Carries a client's bytes, takes its requests, and emits its answers. It counts the traffic. The client may keep `share` bytes: if that is little,
    /// what its empty buffers have reserved is freed first, and less is read at a time.
    fn pump(&mut self, client: &mut Client<ClientState>, share: u64) -> Pumped
        ensures { client.new.number ≡ client.old.number }
    {
        let mut input = Input {
            stream: &client.stream,
            readiness: client.readiness,
        };
        let mut output = &client.stream;
        let is_little = readable(&self.proxy, client.number, PIECE_LEN, share) < PIECE_LEN;
        let pumped = if is_little {
            self.proxy.shrink_if_idle(client.number, 0);
            pump_client(
                &mut self.proxy,
                client.number,
                &mut client.ended,
                &mut input,
                &mut output,
                &mut self.little,
                &mut self.tally,
            )
        } else {
            pump_client(
                &mut self.proxy,
                client.number,
                &mut client.ended,
                &mut input,
                &mut output,
                &mut self.piece,
                &mut self.tally,
            )
        };
        client.readiness = input.readiness;
        pumped
    }
}

/// Returns the bit of a place; no bit if there is none.
fn bit_of(place: usize) -> u64 {
    if place < 64 { 1 << place } else { 0 }
}

impl Handler<ClientState> for ProxyHandler {
    fn admit(&mut self, key: usize) -> Option<u64> {
        let session = self.proxy.admit().ok()?;
        if self.keys.insert(session, key).is_err() {
            let _ = self.proxy.gone(session);
            return None;
        }
        Some(session)
    }

    fn end(&mut self, number: u64) {
        self.keys.remove(&number);
        let _ = self.proxy.gone(number);
    }

    /// Serves a client. If it is held, or more is kept for it than may be for one, the proxy only sends its answers. If the replies to its oldest request
    /// are more than an answer may have, it is closed once the answers before that one are sent.
    ///
    /// A client that its own mark holds is free once that has fallen, by answers that its servers or its socket have taken: each of these is an
    /// event for which it is served. One that a link holds is released by the loop, before it is served: if a link falls below its mark and its
    /// request needs that link; and with all others if a link is lost, moves or fails, or a server has joined. Only a link's own pump and its loss
    /// lower what is unsent on it, so none falls below its mark unseen. What a held client sends meanwhile, and the end of its input, are read once
    /// it is free.
    fn serve(&mut self, client: &mut Client<ClientState>, _moment: u64, share: u64) -> AfterPump {
        self.tally.most = share;
        let is_held = self.is_held(client);
        if is_held || self.is_over(client.number) || self.is_too_large(client.number) {
            return self.drain(client, is_held);
        }
        let before = self.tally.passed.requests;
        let pumped = self.pump(client, share);
        if mem::replace(&mut self.tally.foreign, false) {
            return AfterPump::TurnAway;
        }
        self.note_pumped(client, pumped, self.tally.passed.requests != before);
        if pumped == Pumped::Again && self.emits_next(client.number) {
            return self.put_out(client);
        }
        self.step_of(client, pumped)
    }

    /// Sends a client that waits for room its answers. An answer that needs room itself is not emitted.
    fn send(&mut self, client: &mut Client<ClientState>) -> AfterPump {
        self.tally.most = 0;
        let mut output = &client.stream;
        match pump_answers(&mut self.proxy, client.number, &mut output, &mut self.tally) {
            Ok(true) => AfterPump::GoOn,
            Ok(false) | Err(Pumped::Again) if self.is_too_large(client.number) => {
                self.end_too_large(client.number)
            }
            Err(Pumped::Again) if self.tally.short.is_none() => AfterPump::GoOn,
            Ok(false) | Err(Pumped::Again) => AfterPump::Wait,
            Err(_) => AfterPump::Close,
        }
    }

    fn held(&self, number: u64) -> u64 {
        kept_for(&self.proxy, number)
    }

    fn others(&self) -> u64 {
        kept_for_links(&self.proxy)
    }

    fn shrink_if_idle(&mut self, number: u64, room: usize) {
        self.proxy.shrink_if_idle(number, room.min(CLIENT_ROOM));
    }

    fn has_pending(&self, number: u64) -> bool {
        has_pending(&self.proxy, number)
    }

    fn is_untaken(&self, number: u64) -> bool {
        !self.proxy.output(number).is_empty()
    }

    fn tally(&self) -> IoStats {
        self.tally.passed
    }
}
