//! An upstream server: its socket, if there is one, the state of its connection, and its notices.
ghost use Rattle.std.specs.Prelude.{◌<◌, length};

use crate::delays::{delay_after, silences_after};
use crate::limits::{CONNECT_MILLIS, LINK_KEEPALIVE, NEXT_DELAY, NOTICE_DELAY, PROBE_MILLIS};
use crate::lookups::{Lookup, Lookups, NextLookup, next_by};
use crate::notices::{Cause, Notice, Notices, tell};
use crate::options::PROGRAM;
use crate::probes::{Probe, ProbeAnswer};
use crate::turns::{ConnectTurn, Stage, turn_by};
use crate::waits::Waits;
use mc_admin::LinkFigures;
use mc_net::{Input, Readiness, keep_alive_by, reset, spelled_address};
use mc_program::earlier;
use mc_proxy::Proxy;
use mc_proxy_pump::{Pumped, pump_link};
use mc_stream::IoStats;
use mio::event::Event;
use mio::net::TcpStream;
use mio::{Interest, Registry, Token};
use std::alloc::Global;
use std::mem;
use std::net::{Net, SocketAddr};

/// The state of the connection to a server.
#[derive(Drop)]
enum State {
    /// There is none.
    Down,
    /// There is none, and a try waits for the look-up of the server's host.
    Asking,
    /// It was begun, and no event has said whether it is established.
    Connecting(TcpStream),
    /// It is established, the proxy's link is down, and the server has not answered the question.
    Probing(TcpStream, Probe),
    /// The server has answered, and the proxy's link is up.
    Up(TcpStream),
}

/// The server at a place, as a proxy reaches it.
#[derive(Drop)]
pub struct Upstream {
    alloc: Global,
    /// Its name: `<name>:<port>`.
    name: String,
    /// Where it is: `<host>:<port>`.
    address: String,
    state: State,
    /// The look-up of its host that was begun last, if no try has taken its answer.
    lookup: Option<Lookup>,
    /// When it was tried last, in milliseconds, or when the connection of that try was established.
    begun: u64,
    /// When it may be tried next.
    next: u64,
    /// How many tries failed in a row.
    failures: u32,
    /// How many links in a row were lost while the server answered none of their commands.
    silences: u32,
    /// Whether a command got its reply since the link is up.
    answered: bool,
    /// A random number, which decides when the next try begins if the link is lost.
    random: u64,
    /// Whether the server has answered the first try, or that has failed; true too if nobody waits for that.
    pub tried: bool,
    readiness: Readiness,
    /// Whether its socket may be ready: only if its connection is established.
    pub stirred: bool,
    notices: Notices,
    waits: Waits,
    /// How often its link was lost.
    losses: u64,
    /// How many bytes its last pump read.
    came: u64,
    /// The bytes that the last pump sent to the server.
    sent: u64,
    /// How many replies its last pump took.
    replies: usize,
    /// How many commands were pending before its last pump.
    pending: usize,
    /// Why the system has ended the connection, if it did.
    failure: Option<Cause>,
}

impl Upstream {
    /// Makes an upstream to which no connection was begun.
    pub fn new(alloc: Global, name: String, address: String) -> Upstream {
        Upstream {
            alloc,
            name,
            address,
            state: State::Down,
            lookup: None,
            begun: 0,
            next: 0,
            failures: 0,
            silences: 0,
            answered: false,
            random: 0,
            tried: false,
            readiness: Readiness::new(),
            stirred: false,
            notices: Notices::new(Notice::Back),
            waits: Waits::new(),
            losses: 0,
            came: 0,
            sent: 0,
            replies: 0,
            pending: 0,
            failure: None,
        }
    }

    /// Returns whether its server has answered, and its link is up.
    pub fn is_up(&self) -> bool {
        matches!(self.state, State::Up(_))
    }

    /// Returns whether it is up, or the last try has failed.
    pub fn is_settled(&self) -> bool {
        self.is_up() || self.failures > 0
    }

    /// Returns whether a notice about it is due.
    pub fn is_due(&self) -> bool {
        self.notices.is_due()
    }

    /// Prints on standard error what is new of its server, if nothing was printed in this second.
    pub fn tell<R: Eprint>(&mut self, rt: &R, second: u64) {
        if let Some(notice) = self.notices.take(second) {
            tell(rt, self.name.as_str(), notice);
        }
    }

    /// Returns the state of its connection.
    fn stage(&self) -> Stage {
        match &self.state {
            State::Down => Stage::Down,
            State::Asking => Stage::Asking,
            State::Connecting(_) => Stage::Connecting,
            State::Probing(_, _) => Stage::Probing,
            State::Up(_) => Stage::Up,
        }
    }

    /// Tries the server if it is down and it is time for that, and goes on with a try that waits for a look-up. It gives up a try that takes
    /// longer than [`CONNECT_MILLIS`], or whose server does not answer within [`PROBE_MILLIS`]. It blocks on none of these. A random number decides when the next try begins if this one fails.
    pub fn reconnect<R: Net>(
        &mut self,
        rt: &R,
        registry: &Registry,
        lookups: &mut Option<Lookups>,
        token: Token,
        now: u64,
        random: u64,
    ) {
        self.random = random;
        match turn_by(self.stage(), self.begun, self.next, now) {
            ConnectTurn::Rest => {}
            ConnectTurn::Begin => {
                self.begun = now;
                self.delay(now, random);
                self.go_on(rt, registry, lookups, token);
            }
            ConnectTurn::GoOn => self.go_on(rt, registry, lookups, token),
            ConnectTurn::GiveUp(cause) => {
                if let Some(lookup) = &mut self.lookup {
                    lookup.outlast();
                }
                self.delay(now, random);
                self.refuse(cause);
            }
        }
    }

    /// Sets when the next connection may begin, if the one that begins now fails, or has failed now. The system has accepted a connection whose
    /// server does not answer: it is tried again as after a first failure, so that a server that was stopped is soon used once it goes on.
    fn delay(&mut self, now: u64, random: u64) {
        let failures = match self.state {
            State::Probing(_, _) => 1,
            _ => self.failures.saturating_add(1),
        };
        self.next = now.saturating_add(delay_after(failures, random));
    }

    /// Goes on with a try, as far as its server's address is known.
    fn go_on<R: Net>(
        &mut self,
        rt: &R,
        registry: &Registry,
        lookups: &mut Option<Lookups>,
        token: Token,
    ) {
        if let Err(cause) = self.try_on(rt, registry, lookups, token) {
            self.rest_after(cause);
            self.refuse(cause);
        }
    }

    /// Goes on with a try. The error is why it has failed.
    fn try_on<R: Net>(
        &mut self,
        rt: &R,
        registry: &Registry,
        lookups: &mut Option<Lookups>,
        token: Token,
    ) -> Result<(), Cause> {
        if let Some(address) = spelled_address(self.address.as_str()) {
            return self.connect(rt, registry, token, address);
        }
        let lookup = self.lookup.as_ref();
        let known = lookup.map(|lookup| lookup.known(lookup.found()));
        match next_by(known) {
            NextLookup::Ask => {
                let lookups = lookups.as_mut().ok_or(Cause::UnknownHost)?;
                self.lookup = Some(lookups.begin(registry, self.address.as_str())?);
                self.state = State::Asking;
            }
            NextLookup::Wait => self.state = State::Asking,
            NextLookup::Connect(address) => {
                self.lookup = None;
                self.connect(rt, registry, token, address)?;
            }
            NextLookup::Fail(cause) => {
                self.lookup = None;
                return Err(cause);
            }
        }
        Ok(())
    }

    /// Delays the next look-up by a second if the last one found no address, so that name servers are asked less.
    fn rest_after(&mut self, cause: Cause) {
        if matches!(cause, Cause::UnknownHost | Cause::LookUp) {
            self.next = self.next.saturating_add(NEXT_DELAY);
        }
    }

    /// Returns when something must be done for it without an event, at the earliest. A connection must be begun or given up, a reply is late, or a
    /// notice is due. The timeout is in milliseconds, 0 for none.
    pub fn due(&self, now: u64, timeout: u64) -> Option<u64> {
        let own = match self.state {
            State::Up(_) => self.waits.late(timeout),
            State::Probing(_, _) => Some(self.begun.saturating_add(PROBE_MILLIS)),
            State::Asking | State::Connecting(_) => Some(self.begun.saturating_add(CONNECT_MILLIS)),
            State::Down => Some(self.next),
        };
        let said = now.saturating_add(NOTICE_DELAY);
        earlier(own, self.is_due().then_some(said))
    }

    /// Returns whether a pending command has waited for too long, and all that has arrived was taken.
    pub fn is_late(&self, now: u64, timeout: u64) -> bool {
        let late = self.waits.late(timeout);
        self.is_up() && !self.stirred && late.is_some_and(|late| now >= late)
    }

    /// Begins a connection to an address of the server. The error is why it could not.
    fn connect<R: Net>(
        &mut self,
        rt: &R,
        registry: &Registry,
        token: Token,
        address: SocketAddr,
    ) -> Result<(), Cause> {
        let mut stream = TcpStream::connect(rt, address)?;
        // An event of an urgent byte says that a read may end in front of it.
        let interest = Interest::READABLE | Interest::WRITABLE | Interest::PRIORITY;
        registry.register(&mut stream, token, interest)?;
        // A server whose commands may be delayed is used all the same.
        let _ = stream.set_nodelay(true);
        keep_alive_by(&stream, LINK_KEEPALIVE);
        self.readiness = Readiness::new();
        self.state = State::Connecting(stream);
        Ok(())
    }

    /// Records an event at a moment. For a connection that was begun it says whether it is established, or has failed.
    pub fn note(&mut self, event: &Event, now: u64) {
        self.readiness.note(event);
        match &self.state {
            State::Connecting(stream) => match arrival(stream, event) {
                Ok(false) => {}
                Ok(true) => self.ask(now),
                Err(cause) => self.refuse(cause),
            },
            State::Up(stream) | State::Probing(stream, _) if event.is_error() => {
                self.failure = failure_of(stream);
            }
            _ => {}
        }
        self.stirred = matches!(self.state, State::Up(_) | State::Probing(_, _));
    }

    /// Marks the connection as established at a moment: its server is asked whether it answers. The system accepts connections even for a stopped
    /// process, so the link stays down until then.
    fn ask(&mut self, now: u64) {
        if let State::Connecting(stream) = mem::replace(&mut self.state, State::Down) {
            self.begun = now;
            self.next = now.saturating_add(NEXT_DELAY);
            self.failure = None;
            self.state = State::Probing(stream, Probe::new(self.alloc));
        }
    }

    /// Carries the question and its answer. Once the answer has arrived whole, the link is brought up. If the bytes are another, the connection is
    /// dropped: nothing was sent on it but the question.
    fn probe(&mut self, proxy: &mut Proxy, server: usize) {
        let State::Probing(stream, probe) = &mut self.state else {
            return;
        };
        let mut input = Input {
            stream: &*stream,
            readiness: self.readiness,
        };
        let mut output = &*stream;
        let answer = probe.turn(&mut input, &mut output);
        self.readiness = input.readiness;
        self.stirred = !self.readiness.would_block();
        match answer {
            Ok(ProbeAnswer::Partial) => {}
            Ok(ProbeAnswer::Whole) => self.arrive(proxy, server),
            Ok(ProbeAnswer::Strange) => self.refuse(Cause::Strange),
            Err(Cause::Ended) => self.refuse(self.failure.unwrap_or(Cause::Ended)),
            Err(cause) => self.refuse(cause),
        }
    }

    /// Brings the link of a server up that has answered.
    fn arrive(&mut self, proxy: &mut Proxy, server: usize) {
        match mem::replace(&mut self.state, State::Down) {
            State::Probing(stream, _) if proxy.back(server).is_ok() => {
                self.tried = true;
                self.failures = 0;
                self.answered = false;
                self.state = State::Up(stream);
                self.notices.note(Notice::Back);
            }
            _ => self.refuse(Cause::Ended),
        }
    }

    /// Drops the connection that was begun, and records that it failed.
    fn refuse(&mut self, cause: Cause) {
        self.state = State::Down;
        self.stirred = false;
        self.failure = None;
        self.tried = true;
        self.failures = self.failures.saturating_add(1);
        self.notices.note(Notice::Refused(cause));
    }

    /// Carries its bytes, and matches replies to commands. It appends the sessions that were answered to `woken`. After a protocol violation the
    /// commands without a reply are lost. Before its link is up, it only asks the server whether it answers.
    pub fn pump(
        &mut self,
        proxy: &mut Proxy,
        server: usize,
        piece: &mut [u8],
        woken: &mut Vec<u64>,
    ) -> Pumped
        requires piece { 0 < length piece.old }
    {
        let State::Up(stream) = &self.state else {
            self.probe(proxy, server);
            return Pumped::Blocked;
        };
        let mut input = Input {
            stream,
            readiness: self.readiness,
        };
        let mut output = stream;
        let before = proxy.waiting(server);
        let mut tally = IoStats::new();
        let pumped = pump_link(
            proxy,
            server,
            &mut input,
            &mut output,
            piece,
            woken,
            &mut tally,
        );
        self.readiness = input.readiness;
        self.stirred = pumped == Pumped::Again;
        let fewer = before.saturating_sub(proxy.waiting(server));
        self.pending = before;
        if proxy.is_up(server) {
            self.note_answered(fewer);
        } else {
            self.waits.lose(fewer);
        }
        self.came = tally.read;
        self.sent = tally.written;
        self.replies = fewer;
        pumped
    }

    /// Records how many commands got their replies. With the first reply of a link its server is no longer one that answers no command.
    fn note_answered(&mut self, count: usize) {
        self.waits.answer(count);
        if count > 0 {
            self.answered = true;
            self.silences = 0;
        }
    }

    /// Records how many commands are pending after a pump at a moment, so that a server that does not answer in time is detected.
    pub fn note_waiting(&mut self, proxy: &Proxy, server: usize, now: u64) {
        self.waits.note(
            self.replies,
            proxy.waiting(server),
            self.came,
            self.sent,
            now,
        );
    }

    /// Drops the connection, whose pump has failed, and loses the link if it is still up.
    pub fn lose(&mut self, proxy: &mut Proxy, server: usize, now: u64) {
        let cause = self.cause_of_loss(proxy, server);
        self.lose_by(proxy, server, cause, now);
    }

    /// Gives the connection up for a cause, and loses the link if it is still up. The connection is reset: a command that is lost and undelivered
    /// must not reach the server after later ones. If the server answered none of its commands, it is tried again as late as after a failed try.
    pub fn lose_by(&mut self, proxy: &mut Proxy, server: usize, cause: Cause, now: u64) {
        let pending = self.pending_at_loss(proxy, server);
        self.silences = silences_after(self.silences, self.answered, pending);
        if self.silences > 0 {
            let delay = delay_after(self.silences, self.random);
            self.next = self.next.max(now.saturating_add(delay));
        }
        self.waits.lose(proxy.waiting(server));
        self.losses = self.losses.saturating_add(1);
        // A protocol violation has lost the link before.
        let _ = proxy.lost(server);
        if let State::Up(stream) = mem::replace(&mut self.state, State::Down) {
            reset(stream);
        }
        self.stirred = false;
        self.failure = None;
        self.notices.note(Notice::Lost(cause));
    }

    /// Returns how many commands are pending, or were before a protocol violation lost the link.
    fn pending_at_loss(&self, proxy: &Proxy, server: usize) -> usize {
        if proxy.is_up(server) {
            proxy.waiting(server)
        } else {
            self.pending
        }
    }

    /// Moves its server to another address from a moment on, at which it is tried. The connection to the old one is lost; the result is whether
    /// there was one. The look-up of the old one is given up, and no client waits for the first connection to the new one. Notices about the
    /// server there are printed, even if the same was printed of the old one. The loss of the old one is not: the line of the new address says it.
    pub fn relocate(
        &mut self,
        proxy: &mut Proxy,
        server: usize,
        address: String,
        now: u64,
    ) -> bool {
        let was_up = self.is_up();
        if was_up {
            self.lose_by(proxy, server, Cause::Moved, now);
        }
        self.notices.take_as_said(Notice::Lost(Cause::Moved));
        if let Some(lookup) = &mut self.lookup {
            lookup.give_up();
        }
        self.state = State::Down;
        self.stirred = false;
        self.address = address;
        self.failures = 0;
        self.silences = 0;
        self.next = now;
        self.tried = true;
        was_up
    }

    /// Prints on standard error its state, and what became of its commands, `waiting` of which are pending.
    pub fn report<R: Eprint>(&self, rt: &R, waiting: usize) {
        let server = self.name.as_str();
        let state = if self.is_up() { "up" } else { "down" };
        let (losses, sent, lost) = (self.losses, self.waits.sent(waiting), self.waits.lost());
        // Best effort: a failed write to standard error must not stop serving.
        let _ = eprintln!(rt;
            "{PROGRAM}: server={server} state={state} losses={losses} sent={sent} lost={lost} waiting={waiting}"
        );
    }

    /// Returns its state, and what became of its commands, `waiting` of which are pending, as figures.
    pub fn figures(&self, waiting: usize) -> LinkFigures<'_> {
        LinkFigures {
            server: self.name.as_bytes(),
            up: u64::from(self.is_up()),
            losses: self.losses,
            sent: self.waits.sent(waiting),
            lost: self.waits.lost(),
            waiting: waiting as u64,
        }
    }

    /// Returns why its pump has failed: a protocol violation lost the link, or there was no memory, or the connection is over; the system may say
    /// why.
    fn cause_of_loss(&self, proxy: &Proxy, server: usize) -> Cause {
        match &self.state {
            _ if !proxy.is_up(server) => Cause::Strange,
            State::Up(stream) if !is_over(stream) => Cause::Memory,
            _ => self.failure.unwrap_or(Cause::Ended),
        }
    }
}

/// Returns why the system has ended a connection, if it says so.
fn failure_of(stream: &TcpStream) -> Option<Cause> {
    stream.take_error().ok()?.map(Cause::from)
}

/// Returns whether a connection that was begun is established, given an event of it. The error is why it has failed.
fn arrival(stream: &TcpStream, event: &Event) -> Result<bool, Cause> {
    if let Some(error) = stream.take_error()? {
        return Err(Cause::from(error));
    }
    if event.is_error() || event.is_write_closed() {
        return Err(Cause::Ended);
    }
    Ok(stream.peer_addr().is_ok())
}

/// Returns whether a connection is over: the system no longer has a peer for it, or the peer has ended it and all is read.
fn is_over(stream: &TcpStream) -> bool {
    stream.peer_addr().is_err() || matches!(stream.peek(&mut [0]), Ok(0))
}
