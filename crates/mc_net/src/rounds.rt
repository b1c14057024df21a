//! The rounds of a program that serves the clients of a listener.

use crate::acceptors::{Acceptor, Backlog};
use mc_program::{ServeError, earlier};
use mio::event::Event;
use mio::net::{TcpListener, TcpStream};
use mio::{Events, Poll, Registry, Token};
use std::alloc::Global;
use std::net::Net;
use std::sync::Wait;
use std::time::Duration;

/// The token of the listener. No other socket has it.
const LISTENER: Token = Token(usize::MAX);

/// The most events of a round.
const MAX_EVENTS: usize = 1024;

/// The most clients that a round lets in.
const MAX_ACCEPTS: u32 = 64;

/// How long a round waits at most if something must soon be done without an event, in milliseconds.
const SHORT_TIMEOUT: u64 = 1000;

/// How long a round waits at most if something must be done without an event, in milliseconds.
const MAX_TIMEOUT: u64 = 3_600_000;

/// What a program on a runtime does in the rounds of its poll, in this order, by a clock.
pub trait LoopHandler<R, C> {
    /// Begins to serve: called once, before the first round, when all that the rounds need is reserved, and the listener is registered.
    fn ready(&mut self, _rt: &R) {}

    /// Does what is due before a round, and returns how long the round waits: for ever if it returns nothing. `backlog` is what is known of
    /// the clients that wait at the listener.
    fn before(&mut self, rt: &R, registry: &Registry, backlog: Backlog) -> Option<Duration>;

    /// Begins a round, once it has waited, at its moment.
    fn begin(&mut self, rt: &R, clock: &mut C);

    /// Handles an event of any socket except the listener's.
    fn wake(&mut self, event: &Event);

    /// Does what the events of a round leave to be done together: the clients that are ready are served, each once.
    fn carry_on(&mut self, registry: &Registry);

    /// Returns whether clients may be let in.
    fn is_open(&self) -> bool;

    /// Lets a client in: with it, `accepted` were accepted.
    fn admit(&mut self, rt: &R, registry: &Registry, stream: TcpStream, accepted: u64);

    /// Does what is due without an event at the end of a round, after `accepted` clients were accepted.
    fn finish(&mut self, rt: &R, accepted: u64);

    /// Returns whether no client is served, and none waits to be.
    fn is_empty(&self) -> bool;

    /// Returns why it stops serving after a round, if it does.
    fn failed(&self) -> Option<ServeError> {
        None
    }
}

/// Runs rounds until the acceptor is shut and no client is served any more; with 0 for ever, or until the host says why it stops
/// serving.
pub fn serve_rounds<R: Net + Wait, C, H: LoopHandler<R, C>>(
    rt: &R,
    alloc: Global,
    listener: TcpListener,
    accept: u64,
    clock: &mut C,
    host: &mut H,
) -> Result<(), ServeError> {
    let mut events = Events::with_capacity(alloc, MAX_EVENTS)?;
    let mut poll = Poll::new(rt)?;
    let mut acceptor = Acceptor::new(listener, accept);
    acceptor.register(poll.registry(), LISTENER)?;
    host.ready(rt);
    go_round(rt, &mut poll, &mut events, &mut acceptor, clock, host)
}

/// Runs rounds over what was made for them.
fn go_round<R: Net + Wait, C, H: LoopHandler<R, C>>(
    rt: &R,
    poll: &mut Poll,
    events: &mut Events,
    acceptor: &mut Acceptor,
    clock: &mut C,
    host: &mut H,
) -> Result<(), ServeError> {
    for _ in rt.forever() {
        let timeout = host.before(rt, poll.registry(), acceptor.backlog());
        poll.poll(events, timeout)?;
        host.begin(rt, clock);
        wake_all::<R, C, H>(events, acceptor, host);
        host.carry_on(poll.registry());
        let_in::<R, C, H>(rt, poll.registry(), acceptor, host);
        host.finish(rt, acceptor.accepted());
        if let Some(error) = host.failed() {
            return Err(error);
        }
        if acceptor.is_shut() && host.is_empty() {
            return Ok(());
        }
    }
    unreachable!()
}

/// Handles the events of a round.
#[inline(always)]
fn wake_all<R, C, H: LoopHandler<R, C>>(events: &Events, acceptor: &mut Acceptor, host: &mut H) {
    for event in events.iter() {
        if event.token() == LISTENER {
            acceptor.note();
        } else {
            host.wake(event);
        }
    }
}

/// Lets clients in until none waits, or as many as a round lets in.
fn let_in<R, C, H: LoopHandler<R, C>>(
    rt: &R,
    registry: &Registry,
    acceptor: &mut Acceptor,
    host: &mut H,
) {
    for _ in 0..MAX_ACCEPTS {
        if acceptor.backlog() == Backlog::Nobody || !host.is_open() {
            return;
        }
        let Some(stream) = acceptor.accept() else {
            return;
        };
        host.admit(rt, registry, stream, acceptor.accepted());
    }
}

/// Returns how long a round waits: not at all if a client is ready, and for ever if nothing is due. Otherwise it waits until something is
/// due, in `left` milliseconds, but a second at most if something must soon be done without an event.
pub fn poll_timeout(goes_on: bool, soon: bool, left: Option<u64>) -> Option<Duration> {
    if goes_on {
        return Some(Duration::from_millis(0));
    }
    let left = earlier(soon.then_some(SHORT_TIMEOUT), left)?;
    Some(Duration::from_millis(left.min(MAX_TIMEOUT)))
}
