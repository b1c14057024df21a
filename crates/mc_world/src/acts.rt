//! What a drain does at a client or at a server.
ghost use Rattle.std.specs.Prelude.{◌≡◌, slice_get};

use crate::events::Event;
use crate::pools::Pool;
use mc_store::Store;
use mc_text::Block;

/// What a drain does, with the number of the client, the place of the server, or the proxy's number and the place of the server.
#[derive(Clone, Copy)]
pub(crate) enum Act {
    /// The server sees the end of the first of its lost generations.
    SeeEnd(usize),
    /// Its proxy takes a request of the client.
    TakeRequest(u64),
    /// All bytes that the link has for the server arrive there.
    ReachServer(usize, usize),
    /// The server takes a request of the proxy.
    Serve(usize, usize),
    /// All bytes of the server arrive at the proxy.
    ReachProxy(usize, usize),
    /// The proxy takes a reply of the server.
    TakeReply(usize, usize),
    /// An answer is emitted to the client.
    PutAnswer(u64),
    /// The client takes all bytes that were emitted to it.
    TakeBytes(u64),
}

impl<S: Store + Drop> Pool<S> {
    ghost use Rattle.mc_world.specs.Acts.{coming_of, event_of, generation_of};
    ghost use Rattle.mc_world.specs.declared.acts.Act.TheVariants.{SeeEnd};

    /// The event of an act, which applies if the act does.
    pub(crate) fn event_of(&self, act: Act, moment: u64) -> Event<Block>
        ensures { result ≡ event_of act moment self.now }
    {
        match act {
            Act::SeeEnd(server) => self.end_of(server),
            Act::TakeRequest(client) => Event::ProxyTurn { client },
            Act::ReachServer(proxy, server) => Event::ToServer {
                proxy,
                server,
                generation: self.generation(proxy, server),
                count: self.proxies.link_output(proxy, server).len(),
            },
            Act::Serve(proxy, server) => Event::ServerTurn {
                proxy,
                server,
                generation: self.generation(proxy, server),
                moment,
            },
            Act::ReachProxy(proxy, server) => Event::ToProxy {
                proxy,
                server,
                count: self.coming(proxy, server).len(),
            },
            Act::TakeReply(proxy, server) => Event::ReplyTurn { proxy, server },
            Act::PutAnswer(client) => Event::Emit { client },
            Act::TakeBytes(client) => Event::ClientTakes {
                client,
                count: self.output(client).len(),
            },
        }
    }

    /// The end of the first lost generation at a place: of generation 0 if there is none.
    fn end_of(&self, place: usize) -> Event<Block>
        ensures { result ≡ event_of (SeeEnd place) 0 self.now }
    {
        let first = match self.sites.get(place) {
            Some(site) => site.lost().first(),
            None => None,
        };
        match first {
            Some(way) => Event::ServerSeesEnd {
                proxy: way.proxy(),
                server: place,
                generation: way.generation(),
            },
            None => Event::ServerSeesEnd {
                proxy: 0,
                server: place,
                generation: 0,
            },
        }
    }

    /// The generation of a proxy's link that lives at a place, or lived last: 0 if there is no server.
    fn generation(&self, proxy: usize, place: usize) -> u64
        ensures { result ≡ generation_of proxy (slice_get self.now.sites place) }
    {
        match self.sites.get(place) {
            Some(site) => site.way(proxy).generation,
            None => 0,
        }
    }

    /// The bytes on the way from a server to a proxy.
    fn coming(&self, proxy: usize, place: usize) -> &[u8]
        ensures { result.now ≡ coming_of proxy (slice_get self.now.sites place) }
    {
        match self.sites.get(place) {
            Some(site) => site.output(proxy),
            None => &[],
        }
    }
}
