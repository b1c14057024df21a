//! A server with its ways.
ghost use Rattle.std.specs.Prelude.{◌≡◌, [], ◌≤◌, ◌<◌, ◌+◌, ◌-◌, ◌^◌, ◌↔◌, length, IfOk, IsTrue, OnOk, OnErr};

use crate::errors::{Step, WorldError};
use crate::stale_connections::StaleConnection;
use crate::turning::serve;
use crate::ways::{NO_WAY, Way};
use mc_history::Entry;
use mc_link::Tag;
use mc_server::Server;
use mc_store::Store;
use std::alloc::Global;
use std::marker::Model;

/// A server with its ways.
#[derive(Drop)]
pub struct Site<S: Store + Drop> {
    pub(crate) alloc: Global,
    pub(crate) server: Server<S>,
    /// What it took in all its lives.
    pub(crate) history: Vec<Entry>,
    /// How many entries of the history it took before its life began.
    pub(crate) begun: usize,
    /// The way of each proxy, by its number.
    pub(crate) ways: Vec<Way>,
    /// The lost generations whose end the server has not seen, in the order in which they were lost.
    pub(crate) lost: Vec<StaleConnection>,
}

impl<S: Store + Drop> Model for Site<S> {
    ghost use Rattle.mc_world.specs.WorldState.{SiteState};

    ghost Value = { SiteState };

    ghost view = { λ s. record {
      server = s.server;
      history = s.history.items;
      begun = s.begun;
      ways = s.ways.items;
      lost = s.lost.items;
    } };
}

impl<S: Store + Drop> Site<S> {
    ghost use Rattle.mc_server.specs.ServerState.{connection_at, output_of};
    ghost use Rattle.mc_server.specs.Turns.{waiting_of};
    ghost use Rattle.mc_world.specs.Happens.{Arrives, Does, Enters, returned, taken_one};
    ghost use Rattle.mc_world.specs.Serving.{ServesProxy};
    ghost use Rattle.mc_world.specs.WorldState.{way_by, with_way};

    /// A server with these ways, by the numbers of their proxies, over connections that it has admitted.
    pub(crate) fn first(alloc: Global, server: Server<S>, ways: Vec<Way>) -> Self
        ensures { result ≡ record { server = server; history = []; begun = 0; ways = ways.items; lost = [] } }
    {
        Site {
            alloc,
            server,
            history: Vec::new(alloc),
            begun: 0,
            ways,
            lost: Vec::new(alloc),
        }
    }

    /// What the server took in all its lives, in order.
    pub fn history(&self) -> &[Entry]
        ensures { result.now ≡ self.now.history }
    {
        self.history.as_slice()
    }

    /// The way of a proxy; one that has not been up if there is no such proxy.
    pub fn way(&self, proxy: usize) -> Way
        ensures { result ≡ way_by self.now proxy }
    {
        match self.ways.get(proxy) {
            Some(way) => *way,
            None => NO_WAY,
        }
    }

    /// The way of a proxy is another now. Nothing changes if there is no such proxy.
    pub(crate) fn set_way(&mut self, proxy: usize, way: Way)
        ensures { self.new ≡ record self.old { ways = with_way proxy way self.old.ways } }
    {
        if let Some(place) = self.ways.get_mut(proxy) {
            *place = way;
        }
    }

    /// Whether a whole request of a connection has arrived.
    pub(crate) fn has_request(&self, connection: u64) -> bool
        ensures { IsTrue result ↔ (0 < length (waiting_of (connection_at self.now.server connection))) }
    {
        match self.server.ready(connection) {
            Ok(ready) => ready,
            Err(_) => false,
        }
    }

    /// Bytes of a proxy's living generation arrive.
    pub fn arrive(&mut self, proxy: usize, piece: &[u8]) -> Result<(), WorldError>
        ensures arrived { OnOk result (Arrives proxy piece.now self.old self.new) }
        ensures err { OnErr result (self.new ≡ self.old) }
    {
        let connection = self.way(proxy).connection;
        self.server.feed(connection, piece)?;
        Ok(())
    }

    /// The bytes on the way back to a proxy from its living generation.
    pub fn output(&self, proxy: usize) -> &[u8]
        ensures { result.now ≡ output_of (connection_at self.now.server (way_by self.now proxy).connection) }
    {
        self.server.output(self.way(proxy).connection)
    }

    /// Releases the first of them, which the proxy was given.
    pub fn give(&mut self, proxy: usize, count: usize)
        requires { count ≤ length (output_of (connection_at self.old.server (way_by self.old proxy).connection)) }
        ensures { self.new ≡ returned proxy count self.old }
    {
        let connection = self.way(proxy).connection;
        self.server.taken_out(connection, count);
    }

    /// A reply of a proxy's living generation was taken.
    pub fn replied(&mut self, proxy: usize)
        requires { 1 ≤ (way_by self.old proxy).ahead }
        ensures { self.new ≡ taken_one proxy self.old }
    {
        let mut way = self.way(proxy);
        way.ahead -= 1;
        self.set_way(proxy, way);
    }

    /// The server takes a request of a proxy's living generation, if a whole one has arrived: the command of
    /// this tag.
    pub fn turn(&mut self, proxy: usize, tag: Tag, moment: u64) -> Result<Step, WorldError>
        requires moment { moment < 2 ^ 63 }
        requires room { (way_by self.old proxy).ahead < 2 ^ 64 - 1 }
        requires serves { ServesProxy (way_by self.old proxy).connection self.old.server }
        ensures enters { IfOk result (λ step. Does step (Enters proxy moment tag self.old self.new) (self.new ≡ self.old)) }
        ensures applies { IfOk result (λ step. (step ≡ Step.Done) ↔ (0 < length (waiting_of (connection_at self.old.server (way_by self.old proxy).connection)))) }
        ensures err { OnErr result (self.new ≡ self.old) }
        ensures err_applies { OnErr result (0 < length (waiting_of (connection_at self.old.server (way_by self.old proxy).connection))) }
    {
        let mut way = self.way(proxy);
        let Step::Done = serve(
            self.alloc,
            &mut self.server,
            &mut self.history,
            way.connection,
            tag,
            moment,
        )?
        else {
            return Ok(Step::Nothing);
        };
        way.ahead += 1;
        self.set_way(proxy, way);
        Ok(Step::Done)
    }
}
