//! An event, and its form without bytes.
ghost use Rattle.std.specs.Prelude.{◌≡◌};

use mc_text::Block;

/// What happens, in one step. `B` is the type of a client's bytes: a log keeps none.
#[derive(Clone, Copy, Debug, PartialEq, Eq)]
pub enum Event<B> {
    /// A client sends bytes.
    ClientBytes {
        /// The client's number.
        client: u64,
        /// The bytes.
        bytes: B,
    },
    /// A client goes.
    ClientGone {
        /// The client's number.
        client: u64,
    },
    /// Its proxy takes a request of a client.
    ProxyTurn {
        /// The client's number.
        client: u64,
    },
    /// Bytes of a generation arrive at a server.
    ToServer {
        /// The proxy's number.
        proxy: usize,
        /// The server's place.
        server: usize,
        /// Which generation of the proxy's link.
        generation: u64,
        /// How many bytes; all if fewer are on their way.
        count: usize,
    },
    /// A server takes a request of a generation.
    ServerTurn {
        /// The proxy's number.
        proxy: usize,
        /// The server's place.
        server: usize,
        /// Which generation of the proxy's link.
        generation: u64,
        /// The moment: seconds since 1970, below 2^63.
        moment: u64,
    },
    /// Bytes of a server arrive at the proxy.
    ToProxy {
        /// The proxy's number.
        proxy: usize,
        /// The server's place.
        server: usize,
        /// How many bytes; all if fewer are on their way.
        count: usize,
    },
    /// The proxy takes a reply of a server.
    ReplyTurn {
        /// The proxy's number.
        proxy: usize,
        /// The server's place.
        server: usize,
    },
    /// The answer to the oldest unanswered request of a client is emitted.
    Emit {
        /// The client's number.
        client: u64,
    },
    /// A client takes bytes.
    ClientTakes {
        /// The client's number.
        client: u64,
        /// How many bytes; all if fewer were emitted.
        count: usize,
    },
    /// The link to a server is lost.
    LinkLost {
        /// The proxy's number.
        proxy: usize,
        /// The server's place.
        server: usize,
    },
    /// The link to a server comes up again.
    LinkBack {
        /// The proxy's number.
        proxy: usize,
        /// The server's place.
        server: usize,
    },
    /// A server sees the end of a lost generation.
    ServerSeesEnd {
        /// The proxy's number.
        proxy: usize,
        /// The server's place.
        server: usize,
        /// Which generation of the proxy's link.
        generation: u64,
    },
}

impl Event<Block> {
    ghost use Rattle.mc_world.specs.Bare.{bare};

    /// The event without the bytes of a client, as a log keeps it.
    pub fn bare(&self) -> Event<()>
        ensures { result ≡ bare self.now }
    {
        match *self {
            Event::ClientBytes { client, .. } => Event::ClientBytes { client, bytes: () },
            Event::ClientGone { client } => Event::ClientGone { client },
            Event::ProxyTurn { client } => Event::ProxyTurn { client },
            Event::ToServer {
                proxy,
                server,
                generation,
                count,
            } => Event::ToServer {
                proxy,
                server,
                generation,
                count,
            },
            Event::ServerTurn {
                proxy,
                server,
                generation,
                moment,
            } => Event::ServerTurn {
                proxy,
                server,
                generation,
                moment,
            },
            Event::ToProxy {
                proxy,
                server,
                count,
            } => Event::ToProxy {
                proxy,
                server,
                count,
            },
            Event::ReplyTurn { proxy, server } => Event::ReplyTurn { proxy, server },
            Event::Emit { client } => Event::Emit { client },
            Event::ClientTakes { client, count } => Event::ClientTakes { client, count },
            Event::LinkLost { proxy, server } => Event::LinkLost { proxy, server },
            Event::LinkBack { proxy, server } => Event::LinkBack { proxy, server },
            Event::ServerSeesEnd {
                proxy,
                server,
                generation,
            } => Event::ServerSeesEnd {
                proxy,
                server,
                generation,
            },
        }
    }
}
