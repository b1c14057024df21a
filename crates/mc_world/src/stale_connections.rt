//! A lost generation of a link, as its server still has it.
ghost use Rattle.std.specs.Prelude.{◌≡◌, drop, map, slice_get, take, IfOk};
ghost use Rattle.mc_proxy.specs.SessionState.{link_at};
ghost use Rattle.mc_world.specs.WorldState.{proxy_in};

use crate::proxies::Proxies;
use mc_link::Tag;
use mc_text::consume_front;
use std::alloc::{AllocError, Global};
use std::collections::VecDeque;
use std::marker::Model;

/// A lost generation whose end its server has not seen.
#[derive(Drop)]
pub struct StaleConnection {
    /// The number of the proxy whose link it was.
    proxy: usize,
    /// Which generation it is.
    generation: u64,
    /// The number of the server's connection.
    connection: u64,
    /// The bytes that the link had for the server when it was lost.
    bytes: Vec<u8>,
    /// How many of them have arrived.
    arrived: usize,
    /// The tags of the commands that the server has not taken.
    untaken: VecDeque<Tag>,
}

impl Model for StaleConnection {
    ghost use Rattle.std.specs.Prelude.{◌≤◌, ◌*◌, drop, vec_len};
    ghost use Rattle.mc_world.specs.WorldState.{StaleState};

    ghost Value = { StaleState };

    ghost view = { λ w. record {
      proxy = w.proxy;
      generation = w.generation;
      connection = w.connection;
      going = drop w.arrived w.bytes.items;
      untaken = w.untaken.items;
    } };

    ghost invariant = { λ w. 2 * w.arrived ≤ vec_len w.bytes };
}

impl StaleConnection {
    /// A lost generation, with the bytes that are on their way and the tags of the commands that were not taken.
    pub(crate) fn new(
        proxy: usize,
        generation: u64,
        connection: u64,
        bytes: Vec<u8>,
        untaken: VecDeque<Tag>,
    ) -> StaleConnection
        ensures { result ≡ record { proxy = proxy; generation = generation; connection = connection; going = bytes.items; untaken = untaken.items } }
    {
        StaleConnection {
            proxy,
            generation,
            connection,
            bytes,
            arrived: 0,
            untaken,
        }
    }

    /// The number of the proxy whose link it was.
    pub fn proxy(&self) -> usize
        ensures { result ≡ self.now.proxy }
    {
        self.proxy
    }

    /// Which generation it is.
    pub fn generation(&self) -> u64
        ensures { result ≡ self.now.generation }
    {
        self.generation
    }

    /// The number of the server's connection.
    pub fn connection(&self) -> u64
        ensures { result ≡ self.now.connection }
    {
        self.connection
    }

    /// The bytes on their way to the server.
    pub fn going(&self) -> &[u8]
        ensures { result.now ≡ self.now.going }
    {
        let (_, going) = self.bytes.split_at(self.arrived);
        going
    }

    /// The first of them: this number, or all.
    pub(crate) fn first(&self, count: usize) -> &[u8]
        ensures { result.now ≡ take count self.now.going }
    {
        let going = self.going();
        let (piece, _) = going.split_at(count.min(going.len()));
        piece
    }

    /// The first of them have arrived: this number, or all.
    pub(crate) fn arrive(&mut self, count: usize)
        ensures { self.new ≡ record self.old { going = drop count self.old.going } }
    {
        let moved = count.min(self.going().len());
        self.arrived = consume_front(&mut self.bytes, self.arrived + moved);
    }

    /// The tag of the command that the server takes next.
    pub fn next(&self) -> Option<Tag>
        ensures { result ≡ slice_get self.now.untaken 0 }
    {
        self.untaken.front().copied()
    }

    /// The server has taken it.
    pub(crate) fn taken(&mut self)
        ensures { self.new ≡ record self.old { untaken = drop 1 self.old.untaken } }
    {
        self.untaken.pop_front();
    }
}

/// The tags of the pending commands on the link of a proxy to a place, from a number on.
pub(crate) fn tags_from(
    alloc: Global,
    proxies: &Proxies,
    proxy: usize,
    place: usize,
    first: usize,
) -> Result<VecDeque<Tag>, AllocError>
    ensures { IfOk result (λ tags. tags.items ≡ drop first (map (λ waiting. waiting.1) (link_at (proxy_in proxies.now proxy).links place).waiting)) }
{
    let count = proxies.waiting(proxy, place);
    let mut tags = VecDeque::with_capacity(alloc, count.saturating_sub(first))?;
    for number in first..count {
        if let Some(tag) = proxies.tag(proxy, place, number) {
            tags.push_back(tag)?;
        }
    }
    Ok(tags)
}
