//! Serving a listener.

use crate::lookups::Lookups;
use crate::proxy_loops::ProxyLoop;
use crate::resolving::begin_lookups;
use crate::settings::ProxySettings;
use mc_net::{Operators, Stopwatch, serve_rounds};
use mc_program::{EprintSeldom, ServeError};
use mc_ring::Ring;
use mio::net::TcpListener;
use std::alloc::Global;
use std::fs::Files;
use std::net;
use std::net::Net;
use std::random::RandomSource;
use std::rt::Clock;
use std::sync::Wait;
use std::thread::Threads;

/// Serves the clients that a listener accepts at a place, over the servers of a ring.
///
/// It prints `listening` and that place once all is reserved that it needs at the start, including the thread that begins look-ups. A client
/// that connects after that line is served.
///
/// Each server is tried once before the first client is let in, and again and again while it is down, with backoff. The call returns once as
/// many clients as the settings say were accepted and all of them are gone; without such a limit it serves for ever. A client or an upstream
/// that fails is closed, and the others go on. `rt` prints the changes of servers on standard error. If that fails nothing else changes, but a
/// write that blocks stalls all clients.
///
/// Hosts' names are looked up in threads of `system`, if a server may have one ([`ProxySettings::may_look_up`]). One thread begins the others.
/// Each pending look-up has one, at most one a server. At the end it joins the first and no other. The error is `Memory` too if the system
/// gives no first thread.
pub fn serve<S, R>(
    system: &S,
    rt: &R,
    alloc: Global,
    listen: &str,
    listener: TcpListener,
    settings: &ProxySettings,
    operators: Operators,
    ring: Ring,
) -> Result<(), ServeError>
where
    S: Net<Listener = net::TcpListener, Stream = net::TcpStream>,
    S: Threads + Wait + Copy + Send + 'static,
    R: Net + Clock + Files + RandomSource + Wait + Print + EprintSeldom,
{
    if !settings.may_look_up() {
        return serve_with(rt, alloc, listen, listener, settings, operators, ring, None);
    }
    let (lookups, resolver) = begin_lookups(system, alloc)?;
    let lookups = Some(lookups);
    let served = serve_with(
        rt, alloc, listen, listener, settings, operators, ring, lookups,
    );
    resolver.end(system);
    served
}

/// Serves with these look-ups of hosts.
fn serve_with<R: Net + Clock + Files + RandomSource + Wait + Print + EprintSeldom>(
    rt: &R,
    alloc: Global,
    listen: &str,
    listener: TcpListener,
    settings: &ProxySettings,
    operators: Operators,
    ring: Ring,
    lookups: Option<Lookups>,
) -> Result<(), ServeError> {
    let random = random_number(rt);
    let mut host = ProxyLoop::new(alloc, listen, ring, settings, operators, lookups, random)?;
    let accept = settings.terms.accept;
    let mut clock = Stopwatch::new(rt);
    serve_rounds(rt, alloc, listener, accept, &mut clock, &mut host)
}

/// Returns a random number; 0 if the system gives none.
fn random_number<R: RandomSource>(rt: &R) -> u64 {
    let mut bytes = [0; 8];
    let filled = rt.fill_bytes(&mut bytes);
    filled.map_or(0, |()| u64::from_ne_bytes(bytes))
}
