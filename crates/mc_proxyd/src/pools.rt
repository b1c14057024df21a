//! The upstream servers of a ring.
ghost use Rattle.std.specs.Prelude.{◌<◌, length};

use crate::lookups::Lookups;
use crate::notices::Cause;
use crate::servers::NamedServer;
use crate::settings::ProxySettings;
use crate::upstreams::Upstream;
use mc_admin::LinkFigures;
use mc_net::{AfterPump, KEPT_ROOM, step_after};
use mc_program::earlier;
use mc_proxy::{LINK_MARK, MAX_SESSIONS, PENDING_ROOM, Proxy, ProxyError};
use mc_ring::{Address, Ring};
use mio::event::Event;
use mio::{Registry, Token};
use std::alloc::{AllocError, Global};
use std::net::Net;

/// The upstream servers of a ring, by their places.
#[derive(Drop)]
pub struct Upstreams {
    alloc: Global,
    upstreams: Vec<Upstream>,
    /// The look-ups of hosts; none if no server may have a host's name.
    lookups: Option<Lookups>,
    /// The timeout in milliseconds after which a server with a pending command loses its link; 0 for never.
    timeout: u64,
    /// A random number, another at each try, which decides when upstreams that failed are tried again.
    random: u64,
}

impl Upstreams {
    /// Makes a pool of upstreams, none of them tried, with the look-ups of their hosts, and a random number to begin with.
    pub fn new(
        alloc: Global,
        ring: &Ring,
        settings: &ProxySettings,
        lookups: Option<Lookups>,
        random: u64,
    ) -> Result<Upstreams, AllocError> {
        let mut upstreams = Vec::with_capacity(alloc, ring.servers().len())?;
        for (place, name) in ring.servers().iter().enumerate() {
            let address = settings.addresses.get(place).unwrap_or(name);
            upstreams.push(upstream_to(alloc, name, address)?)?;
        }
        Ok(Upstreams {
            alloc,
            upstreams,
            lookups,
            timeout: settings.timeout,
            random,
        })
    }

    /// Returns how many upstreams there are.
    pub fn len(&self) -> usize {
        self.upstreams.len()
    }

    /// Returns whether each upstream was tried.
    pub fn is_tried(&self) -> bool {
        self.upstreams.iter().all(|upstream| upstream.tried)
    }

    /// Returns whether each upstream is up, or its last try has failed.
    pub fn is_settled(&self) -> bool {
        self.upstreams.iter().all(Upstream::is_settled)
    }

    /// Returns when something must be done for an upstream without an event, at the earliest.
    pub fn due(&self, now: u64) -> Option<u64> {
        self.upstreams.iter().fold(None, |due, upstream| {
            earlier(due, upstream.due(now, self.timeout))
        })
    }

    /// Returns whether the socket of an upstream may be ready.
    pub fn is_stirred(&self) -> bool {
        self.upstreams.iter().any(|upstream| upstream.stirred)
    }

    /// Tries the upstreams that are down if it is time for them, and goes on with the tries whose look-ups have ended.
    pub fn reconnect<R: Net>(&mut self, rt: &R, registry: &Registry, now: u64) {
        let mut random = self.random;
        let lookups = &mut self.lookups;
        for (place, upstream) in self.upstreams.iter_mut().enumerate() {
            random = next_random(random);
            upstream.reconnect(rt, registry, lookups, token_of(place), now, random >> 32);
        }
        self.random = random;
    }

    /// Loses the upstreams on which a reply is late, and returns whether there was one.
    pub fn give_up(&mut self, proxy: &mut Proxy, now: u64) -> bool {
        let mut any = false;
        for (place, upstream) in self.upstreams.iter_mut().enumerate() {
            if upstream.is_late(now, self.timeout) {
                upstream.lose_by(proxy, place, Cause::Late, now);
                any = true;
            }
        }
        any
    }

    /// Prints on standard error the state of each upstream.
    pub fn report<R: Eprint>(&self, rt: &R, proxy: &Proxy) {
        for (place, upstream) in self.upstreams.iter().enumerate() {
            upstream.report(rt, proxy.waiting(place));
        }
    }

    /// Returns the state of each upstream, as figures.
    pub fn figures(&self, proxy: &Proxy) -> Result<Vec<LinkFigures<'_>>, AllocError> {
        let mut links = Vec::with_capacity(self.alloc, self.upstreams.len())?;
        for (place, upstream) in self.upstreams.iter().enumerate() {
            links.push(upstream.figures(proxy.waiting(place)))?;
        }
        Ok(links)
    }

    /// Prints on standard error what is new of the servers, of each at most one line a second.
    pub fn tell<R: Eprint>(&mut self, rt: &R, second: u64) {
        for upstream in self.upstreams.iter_mut() {
            upstream.tell(rt, second);
        }
    }

    /// Makes a server join that was not tried. If it is awaited, new clients wait until it was tried. At an error nothing has changed.
    pub fn join(
        &mut self,
        proxy: &mut Proxy,
        server: &NamedServer,
        awaited: bool,
    ) -> Result<(), ProxyError> {
        let mut upstream = upstream_to(self.alloc, &server.name, &server.address)?;
        upstream.tried = !awaited;
        let name = server.name.clone()?;
        self.upstreams.reserve(1)?;
        proxy.join_server(name, false)?;
        self.upstreams.push(upstream)?;
        Ok(())
    }

    /// Moves the server at a place to another address from a moment on. The result is whether its link was lost by that. At an error
    /// nothing has changed.
    pub fn relocate(
        &mut self,
        proxy: &mut Proxy,
        place: usize,
        address: &Address,
        now: u64,
    ) -> Result<bool, AllocError> {
        let address = String::from_utf8_lossy(self.alloc, address.as_bytes())?;
        match self.upstreams.get_mut(place) {
            Some(upstream) => Ok(upstream.relocate(proxy, place, address, now)),
            None => Ok(false),
        }
    }

    /// Records an event of the upstream whose token it has, at a moment.
    pub fn note(&mut self, event: &Event, now: u64) {
        let Token(token) = event.token();
        let Some(place) = token.checked_sub(MAX_SESSIONS) else {
            return;
        };
        if let Some(upstream) = self.upstreams.get_mut(place) {
            upstream.note(event, now);
        }
    }

    /// Carries the bytes of the upstreams that have something to send, or may have received something, at a moment. It appends the
    /// sessions that were answered to `woken`, and the places of the links that fell below their mark to `freed`. The result is whether
    /// any other session may go on, since an upstream was lost or there was no memory to note a place.
    ///
    /// An upstream that fails is dropped and its link is lost: its pending commands are lost, and it is tried again. One whose link is not up is
    /// asked whether it answers, and has no commands.
    pub fn pump_links(
        &mut self,
        proxy: &mut Proxy,
        piece: &mut [u8],
        woken: &mut Vec<u64>,
        freed: &mut Vec<usize>,
        now: u64,
    ) -> bool
        requires piece { 0 < length piece.old }
    {
        let mut others = false;
        for (place, upstream) in self.upstreams.iter_mut().enumerate() {
            if !upstream.stirred && proxy.link_output(place).is_empty() {
                continue;
            }
            let was_marked = is_marked(proxy, place);
            let pumped = upstream.pump(proxy, place, piece, woken);
            if self.timeout > 0 {
                upstream.note_waiting(proxy, place, now);
            }
            match step_after(pumped) {
                AfterPump::GoOn | AfterPump::Wait | AfterPump::Short(_) => {}
                AfterPump::Close | AfterPump::TurnAway => {
                    upstream.lose(proxy, place, now);
                    others = true;
                }
            }
            if was_marked && !is_marked(proxy, place) {
                others |= freed.push(place).is_err();
            }
        }
        others
    }

    /// Frees the memory that the links' empty buffers have reserved: all of it or, while the links are used, what exceeds [`KEPT_ROOM`]
    /// bytes. Once a second is enough unless memory is scarce: a link with many large commands or replies then reserves anew. The result is
    /// whether a link has unsent bytes, so that its buffer is to be freed later.
    pub fn sweep(&self, proxy: &mut Proxy, is_used: bool) -> bool {
        let kept = if is_used { KEPT_ROOM } else { 0 };
        let mut unsent = false;
        for place in 0..self.upstreams.len() {
            proxy.link_shrink_if_idle(place, kept);
            unsent |= !proxy.link_output(place).is_empty();
        }
        unsent
    }
}

/// Returns whether the link at a place has reached its mark of unsent bytes.
pub fn is_marked(proxy: &Proxy, place: usize) -> bool {
    proxy.link_output(place).len() >= LINK_MARK
}

/// Returns how many bytes are kept for the links of a proxy: what is unsent on them, and for their pending commands, also those of clients that are gone.
pub fn kept_for_links(proxy: &Proxy) -> u64 {
    (0..proxy.ring().servers().len()).fold(
        0,
        |bytes, place| bytes.saturating_add(link_bytes(proxy, place)),
    )
}

/// Returns how many bytes are kept for the link at a place: what is unsent on it, and for its pending commands.
fn link_bytes(proxy: &Proxy, place: usize) -> u64 {
    let pending = proxy.waiting(place) as u64;
    let unsent = proxy.link_output(place).len() as u64;
    unsent.saturating_add(pending.saturating_mul(PENDING_ROOM))
}

/// Returns the token of the server at a place. No client has it.
fn token_of(place: usize) -> Token {
    Token(MAX_SESSIONS.saturating_add(place))
}

/// Makes an upstream of a name and an address, to which no connection was begun.
fn upstream_to(alloc: Global, name: &Address, address: &Address) -> Result<Upstream, AllocError> {
    let name = String::from_utf8_lossy(alloc, name.as_bytes())?;
    let address = String::from_utf8_lossy(alloc, address.as_bytes())?;
    Ok(Upstream::new(alloc, name, address))
}

/// Returns the number after a random one: a step of a generator that has each number of 64 bits in turn.
fn next_random(random: u64) -> u64 {
    random
        .wrapping_mul(6_364_136_223_846_793_005)
        .wrapping_add(1_442_695_040_888_963_407)
}
