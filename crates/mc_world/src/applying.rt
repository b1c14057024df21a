//! Whether an event applies to a pool. No call takes memory.
ghost use Rattle.std.specs.Prelude.{◌<◌, ◌↔◌, ℕ, IsTrue};

use crate::events::Event;
use crate::pools::Pool;
use mc_store::Store;
use mc_text::Block;

impl<S: Store + Drop> Pool<S> {
    ghost use Rattle.mc_world.specs.Applies.{CanReachLate, CanReachProxy, CanReachServer, CanReturn, CanServe, CanServeLate, HasLost};
    ghost use Rattle.mc_world.specs.Courses.{Applies, ByWay};
    ghost use Rattle.mc_world.specs.Serving.{PoolServes};

    /// Whether an event applies: if it does not, its call does nothing.
    pub fn applies(&self, event: &Event<Block>) -> bool
        requires serves { PoolServes self.now }
        ensures { IsTrue result ↔ Applies event.now self.now }
    {
        match event {
            Event::ClientBytes { client, bytes } => {
                self.proxies.is_open(self.home(*client), *client) && !bytes.as_slice().is_empty()
            }
            Event::ClientGone { client } => self.proxies.is_open(self.home(*client), *client),
            Event::ProxyTurn { client } => self.proxies.can_turn(self.home(*client), *client),
            Event::ToServer {
                proxy,
                server,
                generation,
                count,
            } => *count > 0 && self.is_on_its_way(*proxy, *server, *generation),
            Event::ServerTurn {
                proxy,
                server,
                generation,
                moment,
            } => *moment < 1 << 63 && self.can_serve(*proxy, *server, *generation),
            Event::ToProxy {
                proxy,
                server,
                count,
            } => *count > 0 && self.comes_back(*proxy, *server),
            Event::ReplyTurn { proxy, server } => {
                self.proxies.is_up(*proxy, *server) && self.proxies.has_reply(*proxy, *server)
            }
            Event::Emit { client } => self.proxies.has_answer(self.home(*client), *client),
            Event::ClientTakes { client, count } => {
                *count > 0 && !self.output(*client).is_empty()
            }
            Event::LinkLost { proxy, server } => self.proxies.is_up(*proxy, *server),
            Event::LinkBack { proxy, server } => self.can_return(*proxy, *server),
            Event::ServerSeesEnd {
                proxy,
                server,
                generation,
            } => self.has_lost(*proxy, *server, *generation),
        }
    }

    /// Whether bytes of a generation of a proxy's link, living or lost, are on their way to its server.
    fn is_on_its_way(&self, proxy: usize, place: usize, generation: u64) -> bool
        ensures { (count : ℕ) → 0 < count → (IsTrue result
            ↔ ByWay proxy place generation self.now (CanReachServer proxy place count self.now) (CanReachLate proxy place generation count self.now)) }
    {
        if self.lives(proxy, place, generation) {
            return !self.proxies.link_output(proxy, place).is_empty();
        }
        let Some(site) = self.sites.get(place) else {
            return false;
        };
        match site.lost_way(proxy, generation) {
            Some(i) => !site.lost()[i].going().is_empty(),
            None => false,
        }
    }

    /// Whether a whole request of a generation of a proxy's link, living or lost, has arrived at its server.
    fn can_serve(&self, proxy: usize, place: usize, generation: u64) -> bool
        ensures { IsTrue result ↔ ByWay proxy place generation self.now (CanServe proxy place self.now) (CanServeLate proxy place generation self.now) }
    {
        let Some(site) = self.sites.get(place) else {
            return false;
        };
        if self.lives(proxy, place, generation) {
            return site.has_request(site.way(proxy).connection);
        }
        match site.lost_way(proxy, generation) {
            Some(i) => site.has_request(site.lost()[i].connection()),
            None => false,
        }
    }

    /// Whether bytes of a proxy's living generation are on their way to it.
    fn comes_back(&self, proxy: usize, place: usize) -> bool
        ensures { (count : ℕ) → 0 < count → (IsTrue result ↔ CanReachProxy proxy place count self.now) }
    {
        let Some(site) = self.sites.get(place) else {
            return false;
        };
        if !self.proxies.is_up(proxy, place) {
            return false;
        }
        !site.output(proxy).is_empty()
    }

    /// Whether a proxy's link can come up again.
    fn can_return(&self, proxy: usize, place: usize) -> bool
        requires serves { PoolServes self.now }
        ensures { IsTrue result ↔ CanReturn proxy place self.now }
    {
        let Some(site) = self.sites.get(place) else {
            return false;
        };
        if self.proxies.is_up(proxy, place) {
            return false;
        }
        if !self.proxies.has_link(proxy, place) {
            return false;
        }
        if site.way(proxy).generation == u64::MAX {
            return false;
        }
        site.server.can_admit()
    }

    /// Whether a generation of a proxy's link is lost and its server has not seen the end.
    fn has_lost(&self, proxy: usize, place: usize, generation: u64) -> bool
        ensures { IsTrue result ↔ HasLost proxy place generation self.now }
    {
        match self.sites.get(place) {
            Some(site) => site.lost_way(proxy, generation).is_some(),
            None => false,
        }
    }
}
