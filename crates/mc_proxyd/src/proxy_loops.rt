//! A proxy, its clients, and its upstream servers.
ghost use Rattle.std.specs.Prelude.{◌<◌, ◌^◌};

use crate::figures::{Done, show};
use crate::handlers::{ClientState, ProxyHandler};
use crate::joining::Joining;
use crate::limits::MAX_PASSES;
use crate::listings::Listing;
use crate::lookups::Lookups;
use crate::options::PROGRAM;
use crate::pools::Upstreams;
use crate::rooms::files_of;
use crate::settings::ProxySettings;
use crate::woken::Woken;
use mc_net::{
    Awaits, Backlog, Clients, Listed, LoopHandler, Operators, Report, Room, Stopwatch,
    poll_timeout, process_number, resident_memory, wall_clock,
};
use mc_program::{EprintSeldom, ServeError, Ticker, earlier};
use mc_proxy::MAX_SESSIONS;
use mc_ring::{Ring, SERVER_LIMIT};
use mio::event::Event;
use mio::net::TcpStream;
use mio::{Registry, Token};
use std::alloc::{AllocError, Global};
use std::fs::Files;
use std::net::Net;
use std::rt::Clock;
use std::time::Duration;

/// A proxy, its clients, and its upstream servers. A client's token is its key; an upstream's token is its server's place after all keys.
#[derive(Drop)]
pub struct ProxyLoop<'a> {
    alloc: Global,
    /// Where the listener is: `<host>:<port>`.
    listen: &'a str,
    settings: &'a ProxySettings,
    operators: Operators,
    handler: ProxyHandler,
    clients: Clients<ClientState>,
    pool: Upstreams,
    joining: Joining<'a>,
    /// The file that lists the servers, if there is one.
    listing: Option<Listing<'a>>,
    /// The client that waits until each upstream was tried.
    next: Option<TcpStream>,
    /// The sessions whose commands were answered in this pass.
    woken: Woken,
    /// The places of the links that fell below their mark in this pass.
    freed: Vec<usize>,
    /// The key at which the next search for clients that wait for a link begins, so that all of them have their turn.
    resumed: usize,
    /// Whether a link had unsent bytes at the last sweep.
    unsent: bool,
    /// Whether a server has joined since clients were last served for that.
    joined: bool,
    /// Whether all bytes were carried, from clients to servers and back, as far as possible.
    carried: bool,
    /// The moment of the round, in milliseconds.
    now: u64,
    /// The second of the round.
    second: u64,
    /// The second of the last sweep of the clients.
    rested: u64,
    ticker: Ticker,
    room: Room,
    ghost within: { second < 2 ^ 63 },
}

/// Makes the state of the file that lists the servers, if there is one.
fn listing_of<'a>(
    alloc: Global,
    settings: &'a ProxySettings,
    ring: &Ring,
) -> Result<Option<Listing<'a>>, AllocError> {
    let Some(path) = &settings.list else {
        return Ok(None);
    };
    let listing = Listing::new(alloc, path.as_str(), ring, settings.addresses.as_slice())?;
    Ok(Some(listing))
}

impl<'a> ProxyLoop<'a> {
    /// Makes the loop of a proxy without a client, for a listener at an address, upstreams that were not tried, and the look-ups of their
    /// hosts' names. A random number decides when upstreams that failed are tried again.
    pub fn new(
        alloc: Global,
        listen: &'a str,
        ring: Ring,
        settings: &'a ProxySettings,
        operators: Operators,
        lookups: Option<Lookups>,
        random: u64,
    ) -> Result<Self, ServeError> {
        let others = files_of(&ring, settings, &operators);
        let freed = Vec::with_capacity(alloc, SERVER_LIMIT)?;
        let woken = Woken::with_capacity(alloc, MAX_SESSIONS)?;
        let clients = Clients::new(alloc, MAX_SESSIONS, settings.terms.idle, settings.buffers)?;
        let listing = listing_of(alloc, settings, &ring)?;
        let pool = Upstreams::new(alloc, &ring, settings, lookups, random)?;
        Ok(ProxyLoop {
            handler: ProxyHandler::new(alloc, ring, settings)?,
            alloc,
            listen,
            settings,
            operators,
            clients,
            pool,
            joining: Joining::new(&settings.join),
            listing,
            next: None,
            woken,
            freed,
            resumed: 0,
            unsent: false,
            joined: false,
            carried: true,
            now: 0,
            second: 0,
            rested: 0,
            ticker: Ticker::new(settings.terms.report, 0),
            room: Room::new(others),
        })
    }

    /// Returns whether it serves as many clients as its open files allow, with the one that waits.
    fn is_full(&self) -> bool {
        let waiting = usize::from(self.next.is_some());
        self.room
            .is_full(self.clients.len().saturating_add(waiting))
    }

    /// Returns whether somebody makes progress without an event, or may be let in, given what is known of the backlog.
    fn goes_on(&self, backlog: Backlog) -> bool {
        let is_awaited = self.next.is_some() || (backlog == Backlog::More && !self.is_full());
        !self.carried
            || self.clients.goes_on()
            || self.operators.goes_on()
            || self.pool.is_stirred()
            || self.has_joined()
            || (is_awaited && self.pool.is_tried())
    }

    /// Returns in how many milliseconds something must be done without an event, at the earliest.
    fn left(&self) -> Option<u64> {
        let second = earlier(self.clients.due(), self.ticker.due());
        let second = earlier(second, self.operators.due());
        let millis = second.map(|second| second.saturating_mul(1000));
        let looked = self.listing.as_ref().map(|listing| listing.due());
        let due = earlier(earlier(millis, looked), self.pool.due(self.now))?;
        Some(due.saturating_sub(self.now))
    }

    /// Carries the bytes to servers and from them, and then serves the clients that can go on. Each is served once for all bytes that
    /// arrived together, so that its answers are sent together. While more than half of what may be kept is, the links' empty buffers keep little.
    fn pump_links(&mut self) {
        for _ in 0..MAX_PASSES {
            let others = self.pool.pump_links(
                &mut self.handler.proxy,
                &mut self.handler.piece,
                &mut self.woken.sessions,
                &mut self.freed,
                self.now,
            );
            self.clients.count_others(&self.handler);
            self.carried = !others && self.woken.is_empty() && self.freed.is_empty();
            if self.carried {
                return;
            }
            if others {
                self.serve_all();
            } else {
                if !self.freed.is_empty() {
                    self.resume();
                }
                self.answer();
            }
            self.clients.shed(&mut self.handler);
            if self.clients.kept() > self.settings.buffers / 2 {
                self.pool.sweep(&mut self.handler.proxy, true);
            }
        }
    }

    /// Serves the clients whose requests wait for a link that fell below its mark, until each such link has reached its mark again.
    fn resume(&mut self) {
        for _ in 0..MAX_SESSIONS {
            self.resume_next();
        }
        self.freed.clear();
    }

    /// Serves the next client, if its request may have waited for a link that fell below its mark, unless each such link has reached its mark
    /// again. The next pass begins with the client behind it: otherwise a few could keep a slow server's link for themselves.
    fn resume_next(&mut self) {
        let freed = self.freed.as_slice();
        if self.handler.are_marked(freed) {
            return;
        }
        let key = self.resumed % MAX_SESSIONS;
        self.resumed = key + 1;
        if let Some(client) = self.clients.get_mut(key)
            && self.handler.can_resume(client, freed)
        {
            client.kept.release();
            self.clients.serve(&mut self.handler, key, self.second);
        }
    }

    /// Serves the clients whose commands were answered. What is kept for one that is ready already, and is served in its turn, is counted now.
    fn answer(&mut self) {
        self.woken.group();
        for _ in 0..self.woken.len() {
            let Some(key) = self.take_woken() else {
                break;
            };
            self.clients.serve(&mut self.handler, key, self.second);
            self.clients.recount(&self.handler, key);
        }
    }

    /// Takes a client whose commands were answered.
    fn take_woken(&mut self) -> Option<usize> {
        for _ in 0..self.woken.len() {
            let session = self.woken.take()?;
            if let Some(key) = self.handler.key_of(session) {
                return Some(key);
            }
        }
        None
    }

    /// Serves all clients: a link was lost, or a server has joined, so that no link holds any of them.
    fn serve_all(&mut self) {
        for key in 0..MAX_SESSIONS {
            if let Some(client) = self.clients.get_mut(key) {
                client.kept.release_anew();
            }
        }
        self.woken.sessions.clear();
        self.freed.clear();
        self.clients.serve_all(&mut self.handler, self.second);
    }

    /// Loses the upstreams on which a reply is late, and answers the clients whose commands are lost by that.
    fn give_up(&mut self) {
        if self.pool.give_up(&mut self.handler.proxy, self.now) {
            self.carried = false;
            self.serve_all();
        }
    }

    /// Lets the waiting client in, once each upstream was tried.
    fn let_in(&mut self, registry: &Registry) {
        if !self.pool.is_tried() {
            return;
        }
        if let Some(stream) = self.next.take() {
            self.clients
                .admit(&mut self.handler, stream, registry, self.second);
        }
    }

    /// Makes the server of `--join` join once enough clients were accepted, and tries it.
    fn join<R: Net>(&mut self, rt: &R, registry: &Registry, accepted: u64) {
        let Some(server) = self.joining.server(accepted) else {
            return;
        };
        let joined = self.pool.join(&mut self.handler.proxy, server, true);
        if joined.is_ok() {
            self.pool.reconnect(rt, registry, self.now);
            self.joined = true;
        }
        self.joining.note(joined);
    }

    /// Looks at the file that lists the servers, if there is one, and makes the pool follow it. If a link is lost by that, the clients
    /// whose commands are lost are answered.
    fn look<R: Files + Eprint>(&mut self, rt: &R) {
        let Some(listing) = &mut self.listing else {
            return;
        };
        let before = self.pool.len();
        let is_lost = listing.look(rt, &mut self.pool, &mut self.handler.proxy, self.now);
        self.joined |= self.pool.len() > before;
        if is_lost {
            self.carried = false;
            self.serve_all();
        }
    }

    /// Returns whether a server has joined and was tried, and clients are still to be served for that.
    fn has_joined(&self) -> bool {
        self.joined && self.pool.is_settled()
    }

    /// Serves all clients once a server that joined was tried: a request that waits for another link may be the new server's now.
    fn follow_join(&mut self) {
        if self.has_joined() {
            self.joined = false;
            self.carried = false;
            self.serve_all();
        }
    }

    /// Returns what was done for its clients, `accepted` of which were accepted.
    fn done(&self, accepted: u64) -> Report {
        self.clients
            .report(self.second, accepted, self.handler.tally.passed)
    }

    /// Returns the clients to list to an operator next, if one has asked.
    fn listed(&mut self) -> Result<Option<Listed>, AllocError> {
        let Some(from) = self.operators.listing() else {
            return Ok(None);
        };
        let listed = self.clients.listed(
            &self.handler,
            self.alloc,
            from,
            self.second,
            Awaits::Replies,
        )?;
        Ok(Some(listed))
    }

    /// Answers operators, after `accepted` clients were accepted.
    fn show<R: Clock + Files>(&mut self, rt: &R, accepted: u64) {
        if !self.operators.is_stirred() {
            return;
        }
        let Ok(listed) = self.listed() else {
            self.operators.turn_away();
            return;
        };
        let report = self.done(accepted);
        let (pid, time, resident) = (process_number(), wall_clock(rt), resident_memory(rt));
        let clients = report.figures(pid, time, resident, MAX_SESSIONS);
        let handler = &self.handler;
        let done = Done {
            clients,
            missed: handler.tally.missed,
        };
        let (pool, proxy) = (&self.pool, &handler.proxy);
        show(
            self.alloc,
            &mut self.operators,
            &listed,
            &done,
            pool,
            proxy,
            self.settings,
        );
    }

    /// Prints on standard error what was done, after `accepted` clients were accepted.
    fn report<R: Eprint>(&self, rt: &R, accepted: u64) {
        let report = self.done(accepted);
        // Best effort: a failed write to standard error must not stop serving.
        let _ = match self.handler.tally.missed {
            None => eprintln!(rt; "{PROGRAM}: {report}"),
            Some(missed) => eprintln!(rt; "{PROGRAM}: {report} missed={missed}"),
        };
        self.pool.report(rt, &self.handler.proxy);
    }
}

impl<'a, R: Net + Clock + Files + Print + EprintSeldom> LoopHandler<R, Stopwatch>
    for ProxyLoop<'a> {
    fn ready(&mut self, rt: &R) {
        // Best effort: a failed write to standard output must not stop serving.
        let _ = println!(rt; "listening {}", self.listen);
    }

    /// Follows the list of servers, tries the upstreams that are down if it is time for them, and reports what is new of the servers.
    fn before(&mut self, rt: &R, registry: &Registry, backlog: Backlog) -> Option<Duration> {
        self.operators.before(registry, self.second);
        self.look(rt);
        self.pool.reconnect(rt, registry, self.now);
        self.pool.tell(rt, self.second);
        self.joining.tell(rt, self.second);
        self.clients.tell_refused(rt, PROGRAM, backlog, self.second);
        if backlog != Backlog::Nobody && self.is_full() {
            self.room.tell(rt, PROGRAM, self.second);
        }
        let soon = self.clients.is_busy()
            || self.unsent
            || backlog.is_refused()
            || self.joining.is_due();
        poll_timeout(self.goes_on(backlog), soon, self.left())
    }

    fn begin(&mut self, rt: &R, clock: &mut Stopwatch) {
        self.now = clock.millis(rt);
        self.second = self.now / 1000;
    }

    fn wake(&mut self, event: &Event) {
        let Token(key) = event.token();
        if self.operators.has(event.token()) {
            self.operators.note(event);
        } else if key >= MAX_SESSIONS {
            self.pool.note(event, self.now);
        } else {
            self.clients.wake(event, self.second);
        }
    }

    /// Serves the clients that are ready, and carries the bytes of the links. Then it loses the upstreams on which a reply is late once all that
    /// arrived was taken, and answers the clients whose commands are lost.
    fn carry_on(&mut self, registry: &Registry) {
        self.clients.serve_ready(&mut self.handler, self.second);
        self.pump_links();
        self.give_up();
        self.follow_join();
        self.let_in(registry);
    }

    fn is_open(&self) -> bool {
        self.pool.is_tried() && !self.is_full()
    }

    /// Lets a client in. With the client that the settings name, a server joins first, and the client is let in once that server was
    /// tried.
    fn admit(&mut self, rt: &R, registry: &Registry, stream: TcpStream, accepted: u64) {
        self.join(rt, registry, accepted);
        self.next = Some(stream);
        self.let_in(registry);
    }

    fn finish(&mut self, rt: &R, accepted: u64) {
        self.show(rt, accepted);
        self.clients.tell(rt, PROGRAM, self.second);
        self.handler.tell(rt, self.second);
        if self.second == self.rested {
            return;
        }
        self.rested = self.second;
        self.clients.sweep(&mut self.handler, self.second);
        let is_used = self.clients.is_busy();
        self.unsent = self.pool.sweep(&mut self.handler.proxy, is_used);
        if self.ticker.comes(self.second) {
            self.report(rt, accepted);
        }
    }

    fn is_empty(&self) -> bool {
        self.clients.is_empty() && self.next.is_none()
    }
}
