//! A server joins a pool, or a proxy learns one.
ghost use Rattle.std.specs.Prelude.{◌≡◌, ◌<◌, [], Some, length, replicate, IfErr, IfOk, OnOk, OnErr};
ghost use Rattle.mc_world.specs.WorldState.{no_way, with_way};
ghost use Rattle.mc_world.specs.Refusals.{cause_in, join_refusal_of, learn_refusal_of, refusal_in, refusal_of};

use crate::errors::WorldError;
use crate::pools::Pool;
use crate::sites::Site;
use crate::ways::{NO_WAY, Way};
use mc_ring::{Address, SERVER_LIMIT};
use mc_server::Server;
use mc_store::Store;
use std::alloc::{AllocError, Global};

impl<S: Store + Drop> Pool<S> {
    ghost use Rattle.mc_world.specs.Joins.{LearnsServer, ServerJoins};
    ghost use Rattle.mc_world.specs.Serving.{PoolServes};
    ghost use Rattle.mc_world.specs.WorldState.{proxy_at};

    /// Why no server of this address can join at a proxy, if none can: there is no such proxy, it has not learned all servers, or its
    /// ring has 64 servers, or one of this address.
    pub fn join_refusal(&self, proxy: usize, address: &Address) -> Option<WorldError>
        ensures { result ≡ join_refusal_of self.now proxy address.now }
    {
        if proxy >= self.proxies.count() {
            return Some(WorldError::NoProxy);
        }
        if self.proxies.servers(proxy) < self.sites.len() {
            return Some(WorldError::Behind);
        }
        self.refusal(proxy, address)
    }

    /// Why a proxy cannot learn a server under this address, if it cannot: there is no such proxy, it knows all servers, or its ring has
    /// 64 servers, or one of this address.
    pub fn learn_refusal(&self, proxy: usize, address: &Address) -> Option<WorldError>
        ensures { result ≡ learn_refusal_of self.now proxy address.now }
    {
        if proxy >= self.proxies.count() {
            return Some(WorldError::NoProxy);
        }
        if self.proxies.servers(proxy) >= self.sites.len() {
            return Some(WorldError::NoServer);
        }
        self.refusal(proxy, address)
    }

    /// Why the ring of a proxy cannot have a server of this address too, if it cannot: it has 64, or one of this address.
    fn refusal(&self, proxy: usize, address: &Address) -> Option<WorldError>
        ensures { result ≡ refusal_of (proxy_at self.now proxy).ring.servers address.now }
    {
        if self.proxies.servers(proxy) >= SERVER_LIMIT {
            return Some(WorldError::RingFull);
        }
        if self.proxies.has_server(proxy, address) {
            return Some(WorldError::AlreadyThere);
        }
        None
    }

    /// Adds a server that has admitted nobody at a proxy that knows all servers, at the last place, and returns that place. The proxy's
    /// link to it is up, of the first generation, and it has admitted that link's connection.
    ///
    /// At an error the pool is as it was, and the server is returned with the cause: its cache is as it was. The cause is that of
    /// [`Pool::join_refusal`], and otherwise `Memory`.
    pub fn join(
        &mut self,
        proxy: usize,
        address: Address,
        mut server: Server<S>,
    ) -> Result<usize, (WorldError, Server<S>)>
        requires serves { PoolServes self.old }
        requires fresh { server ≡ record { cache = server.cache; connections = []; admitted = 0 } }
        ensures joined { OnOk result (ServerJoins proxy address server.cache self.old self.new) }
        ensures place { IfOk result (λ place. place ≡ length (proxy_at self.old proxy).ring.servers) }
        ensures refused { refusal_in result ≡ join_refusal_of self.old proxy address }
        ensures given_back { IfErr result (λ refused. refused.1.cache ≡ server.cache) }
        ensures err { OnErr result (self.new ≡ self.old) }
    {
        if let Some(cause) = self.join_refusal(proxy, &address) {
            return Err((cause, server));
        }
        let Ok(()) = self.sites.reserve(1) else {
            return Err((WorldError::Memory, server));
        };
        let place = self.proxies.servers(proxy);
        let Ok(ways) = joined_ways(self.alloc, self.proxies.count(), proxy) else {
            return Err((WorldError::Memory, server));
        };
        let Ok(_) = server.admit() else {
            return Err((WorldError::Memory, server));
        };
        let Ok(_) = self.proxies.join_server(proxy, address, true) else {
            return Err((WorldError::Memory, server));
        };
        self.sites
            .push_reserved(Site::first(self.alloc, server, ways));
        Ok(place)
    }

    /// A proxy learns the server of its next place, under this address, and returns that place. Its link is down, and has not been up.
    ///
    /// At an error the pool is as it was. The cause is that of [`Pool::learn_refusal`], and otherwise `Memory`.
    pub fn learn(&mut self, proxy: usize, address: Address) -> Result<usize, WorldError>
        ensures learned { OnOk result (LearnsServer proxy address self.old self.new) }
        ensures place { IfOk result (λ place. place ≡ length (proxy_at self.old proxy).ring.servers) }
        ensures refused { cause_in result ≡ learn_refusal_of self.old proxy address }
        ensures err { OnErr result (self.new ≡ self.old) }
    {
        if let Some(cause) = self.learn_refusal(proxy, &address) {
            return Err(cause);
        }
        let place = self.proxies.join_server(proxy, address, false)?;
        Ok(place)
    }
}

/// The ways of this many proxies, of which one has a link of the first generation, over the first connection.
fn joined_ways(alloc: Global, proxies: usize, proxy: usize) -> Result<Vec<Way>, AllocError>
    ensures { IfOk result (λ ways. ways.items ≡ with_way proxy (record { generation = 1; connection = 0; ahead = 0 }) (replicate proxies no_way)) }
{
    let mut ways = vec![in alloc; NO_WAY; proxies]?;
    if let Some(way) = ways.get_mut(proxy) {
        way.generation = 1;
    }
    Ok(ways)
}
