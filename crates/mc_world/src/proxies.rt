//! The proxies of a pool, by their numbers.
ghost use Rattle.mc_proxy.specs.Joins.{JoinsServer};
ghost use Rattle.mc_ring.specs.Rings.{IsRing};
ghost use Rattle.mc_world.specs.Restarts.{without_link};
ghost use Rattle.std.specs.Prelude.{◌≡◌, ◌≢◌, ◌≤◌, ◌<◌, ◌+◌, ◌↔◌, ◌⊎◌, ◌++◌, true, false, length, drop, map, option_map, slice_get, IsErrOf, IsTrue, IfErr, IfOk, OnErr, OnOk};

use mc_link::Tag;
use mc_proxy::{Emit, LinkStep, Proxy, ProxyError, SessionTurn};
use mc_ring::Address;
use std::marker::Model;

/// The proxies of a pool, by their numbers. Contracts see the list of them. A number without a proxy has one without servers and clients.
#[derive(Drop)]
pub struct Proxies {
    list: Vec<Proxy>,
}

impl Model for Proxies {
    ghost use Rattle.std.specs.Prelude.{List};
    ghost use Rattle.mc_proxy.specs.ProxyState.{ProxyState};

    ghost Value = { List ProxyState };

    ghost view = { λ p. p.list.items };
}

impl Proxies {
    ghost use Rattle.mc_link.specs.LinkState.{can_come_back, up_link};
    ghost use Rattle.mc_link.specs.Turns.{HasReply};
    ghost use Rattle.mc_proxy.specs.Emits.{IsEmit};
    ghost use Rattle.mc_proxy.specs.Joins.{JoinsServer, has_server};
    ghost use Rattle.mc_ring.specs.Rings.{IsRing};
    ghost use Rattle.mc_proxy.specs.LinkTurns.{IsLinkTurn, lost_at};
    ghost use Rattle.mc_proxy.specs.ProxyState.{ProxyState, output_of, sent_by, session_at, without};
    ghost use Rattle.mc_proxy.specs.SessionState.{link_at};
    ghost use Rattle.mc_proxy.specs.SessionTurns.{IsFed, IsTurn};
    ghost use Rattle.mc_proxy.specs.Turns.{Alone, CanTurn, HasAnswer, Steps};
    ghost use Rattle.mc_world.specs.Pools.{relinked};
    ghost use Rattle.mc_world.specs.WorldState.{proxy_in, with_proxy};

    /// Proxies, the first being number 0.
    pub fn new(list: Vec<Proxy>) -> Proxies
        ensures { result ≡ list.items }
    {
        Proxies { list }
    }

    /// How many there are.
    pub fn count(&self) -> usize
        ensures { result ≡ length self.now }
    {
        self.list.len()
    }

    /// Whether a proxy has a link to a server, up or down.
    pub fn has_link(&self, proxy: usize, server: usize) -> bool
        ensures { IsTrue result ↔ (server < length (proxy_in self.now proxy).links) }
    {
        match self.list.get(proxy) {
            Some(it) => server < it.ring().servers().len(),
            None => false,
        }
    }

    /// How many servers the ring of a proxy has.
    pub fn servers(&self, proxy: usize) -> usize
        ensures ring { result ≡ length (proxy_in self.now proxy).ring.servers }
        ensures linked { result ≡ length (proxy_in self.now proxy).links }
    {
        match self.list.get(proxy) {
            Some(it) => it.ring().servers().len(),
            None => 0,
        }
    }

    /// Whether the ring of a proxy has a server of this address.
    pub fn has_server(&self, proxy: usize, address: &Address) -> bool
        ensures { result ≡ has_server (proxy_in self.now proxy).ring.servers address.now }
    {
        match self.list.get(proxy) {
            Some(it) => it.ring().servers().contains(address),
            None => false,
        }
    }

    /// Whether a client's session is open.
    pub fn is_open(&self, proxy: usize, client: u64) -> bool
        ensures { IsTrue result ↔ (session_at (proxy_in self.now proxy) client ≢ None) }
    {
        match self.list.get(proxy) {
            Some(it) => it.is_open(client),
            None => false,
        }
    }

    /// Whether a request of a client can be taken.
    pub fn can_turn(&self, proxy: usize, client: u64) -> bool
        ensures { IsTrue result ↔ CanTurn client (proxy_in self.now proxy) }
    {
        match self.list.get(proxy) {
            Some(it) => it.can_turn(client),
            None => false,
        }
    }

    /// Whether an answer to a client can be emitted.
    pub fn has_answer(&self, proxy: usize, client: u64) -> bool
        ensures { IsTrue result ↔ HasAnswer client (proxy_in self.now proxy) }
    {
        match self.list.get(proxy) {
            Some(it) => it.has_answer(client),
            None => false,
        }
    }

    /// The bytes that were emitted to a client and that it has not taken.
    pub fn output(&self, proxy: usize, client: u64) -> &[u8]
        ensures { result.now ≡ output_of (session_at (proxy_in self.now proxy) client) }
    {
        match self.list.get(proxy) {
            Some(it) => it.output(client),
            None => &[],
        }
    }

    /// Whether the link to a server is up.
    pub fn is_up(&self, proxy: usize, server: usize) -> bool
        ensures { result ≡ (link_at (proxy_in self.now proxy).links server).up }
    {
        match self.list.get(proxy) {
            Some(it) => it.is_up(server),
            None => false,
        }
    }

    /// The bytes that a link has for its server.
    pub fn link_output(&self, proxy: usize, server: usize) -> &[u8]
        ensures { result.now ≡ (link_at (proxy_in self.now proxy).links server).output }
    {
        match self.list.get(proxy) {
            Some(it) => it.link_output(server),
            None => &[],
        }
    }

    /// How many commands are pending on a link.
    pub fn waiting(&self, proxy: usize, server: usize) -> usize
        ensures { result ≡ length (link_at (proxy_in self.now proxy).links server).waiting }
    {
        match self.list.get(proxy) {
            Some(it) => it.waiting(server),
            None => 0,
        }
    }

    /// The tag of the pending command of a number.
    pub fn tag(&self, proxy: usize, server: usize, place: usize) -> Option<Tag>
        ensures { result ≡ option_map (λ waiting. waiting.1) (slice_get (link_at (proxy_in self.now proxy).links server).waiting place) }
    {
        match self.list.get(proxy) {
            Some(it) => it.tag(server, place),
            None => None,
        }
    }

    /// Whether a whole reply to the oldest pending command of a link has arrived.
    pub fn has_reply(&self, proxy: usize, server: usize) -> bool
        ensures { IsTrue result ↔ HasReply (link_at (proxy_in self.now proxy).links server) }
    {
        match self.list.get(proxy) {
            Some(it) => it.has_reply(server),
            None => false,
        }
    }

    /// A client's bytes are fed to its session. It fails with `NoSession` or `Memory`.
    pub fn feed(&mut self, proxy: usize, client: u64, piece: &[u8]) -> Result<(), ProxyError>
        ensures fed { OnOk result ((now : ProxyState) × Steps client (proxy_in self.old proxy) now (Alone (IsFed piece.now)) × (self.new ≡ with_proxy proxy now self.old)) }
        ensures no_session { IsErrOf result ProxyError.NoSession ↔ (session_at (proxy_in self.old proxy) client ≡ None) }
        ensures only { IfErr result (λ e. (e ≡ ProxyError.NoSession) ⊎ (e ≡ ProxyError.Memory)) }
        ensures err { OnErr result (self.new ≡ self.old) }
    {
        match self.list.get_mut(proxy) {
            Some(it) => it.feed(client, piece),
            None => Err(ProxyError::NoSession),
        }
    }

    /// A request of a client is taken, if one can be. It fails with `NoSession` or `Memory`.
    pub fn turn(&mut self, proxy: usize, client: u64) -> Result<SessionTurn, ProxyError>
        ensures turn { IfOk result (λ turn. (now : ProxyState)
            × Steps client (proxy_in self.old proxy) now (IsTurn client turn (proxy_in self.old proxy).ring (proxy_in self.old proxy).losses)
            × (self.new ≡ with_proxy proxy now self.old)) }
        ensures memory { IsErrOf result ProxyError.Memory → CanTurn client (proxy_in self.old proxy) }
        ensures no_session { IsErrOf result ProxyError.NoSession ↔ (session_at (proxy_in self.old proxy) client ≡ None) }
        ensures only { IfErr result (λ e. (e ≡ ProxyError.NoSession) ⊎ (e ≡ ProxyError.Memory)) }
        ensures err { OnErr result (self.new ≡ self.old) }
    {
        match self.list.get_mut(proxy) {
            Some(it) => it.turn(client),
            None => Err(ProxyError::NoSession),
        }
    }

    /// The answer to the oldest unanswered request of a client is emitted, if it is known. It fails with `NoSession` or `Memory`.
    pub fn emit(&mut self, proxy: usize, client: u64) -> Result<Emit, ProxyError>
        ensures emit { IfOk result (λ emit. (now : ProxyState) × Steps client (proxy_in self.old proxy) now (Alone (IsEmit emit)) × (self.new ≡ with_proxy proxy now self.old)) }
        ensures memory { IsErrOf result ProxyError.Memory → HasAnswer client (proxy_in self.old proxy) }
        ensures no_session { IsErrOf result ProxyError.NoSession ↔ (session_at (proxy_in self.old proxy) client ≡ None) }
        ensures only { IfErr result (λ e. (e ≡ ProxyError.NoSession) ⊎ (e ≡ ProxyError.Memory)) }
        ensures err { OnErr result (self.new ≡ self.old) }
    {
        match self.list.get_mut(proxy) {
            Some(it) => it.emit(client),
            None => Err(ProxyError::NoSession),
        }
    }

    /// Releases the first bytes that were emitted to a client, which it has taken.
    pub fn taken_out(&mut self, proxy: usize, client: u64, count: usize)
        requires { count ≤ length (output_of (session_at (proxy_in self.old proxy) client)) }
        ensures { self.new ≡ with_proxy proxy (sent_by client count (session_at (proxy_in self.old proxy) client) (proxy_in self.old proxy)) self.old }
    {
        if let Some(it) = self.list.get_mut(proxy) {
            it.taken_out(client, count);
        }
    }

    /// A client goes. It fails with `NoSession`.
    pub fn gone(&mut self, proxy: usize, client: u64) -> Result<(), ProxyError>
        ensures gone { OnOk result (self.new ≡ with_proxy proxy (record (proxy_in self.old proxy) { sessions = without client (proxy_in self.old proxy).sessions }) self.old) }
        ensures not_open { OnOk result (session_at (proxy_in self.new proxy) client ≡ None) }
        ensures no_session { IsErrOf result ProxyError.NoSession ↔ (session_at (proxy_in self.old proxy) client ≡ None) }
        ensures only { IfErr result (λ e. e ≡ ProxyError.NoSession) }
        ensures err { OnErr result (self.new ≡ self.old) }
    {
        match self.list.get_mut(proxy) {
            Some(it) => it.gone(client),
            None => Err(ProxyError::NoSession),
        }
    }

    /// Releases the first bytes that a link has for its server, which have arrived there.
    pub fn link_taken_out(&mut self, proxy: usize, server: usize, count: usize)
        requires { count ≤ length (link_at (proxy_in self.old proxy).links server).output }
        ensures { self.new ≡ with_proxy proxy (relinked server
            (record (link_at (proxy_in self.old proxy).links server) { output = drop count (link_at (proxy_in self.old proxy).links server).output })
            (proxy_in self.old proxy)) self.old }
    {
        if let Some(it) = self.list.get_mut(proxy) {
            it.link_taken_out(server, count);
        }
    }

    /// Takes the bytes that arrived next from a server, whose link is up. It fails with `Memory`.
    pub fn link_feed(&mut self, proxy: usize, server: usize, piece: &[u8]) -> Result<(), ProxyError>
        requires up { (link_at (proxy_in self.old proxy).links server).up ≡ true }
        ensures fed { OnOk result (self.new ≡ with_proxy proxy (relinked server
            (record (link_at (proxy_in self.old proxy).links server) { unread = (link_at (proxy_in self.old proxy).links server).unread ++ piece.now })
            (proxy_in self.old proxy)) self.old) }
        ensures err { OnErr result (self.new ≡ self.old) }
    {
        match self.list.get_mut(proxy) {
            Some(it) => it.link_feed(server, piece),
            None => Err(ProxyError::NoLink),
        }
    }

    /// Takes the reply to the oldest pending command of a link that is up, if it has arrived whole. It fails with `Memory`.
    pub fn link_turn(&mut self, proxy: usize, server: usize) -> Result<LinkStep, ProxyError>
        requires up { (link_at (proxy_in self.old proxy).links server).up ≡ true }
        ensures turn { IfOk result (λ turn. (now : ProxyState) × IsLinkTurn server turn (proxy_in self.old proxy) now × (self.new ≡ with_proxy proxy now self.old)) }
        ensures memory { OnErr result (HasReply (link_at (proxy_in self.old proxy).links server)) }
        ensures err { OnErr result (self.new ≡ self.old) }
    {
        match self.list.get_mut(proxy) {
            Some(it) => it.link_turn(server),
            None => Err(ProxyError::NoLink),
        }
    }

    /// Loses a link that is up, and gives the bytes that it had for its server. It takes no memory.
    pub fn lost(&mut self, proxy: usize, server: usize) -> Result<Vec<u8>, ProxyError>
        requires up { (link_at (proxy_in self.old proxy).links server).up ≡ true }
        ensures lost { IfOk result (λ bytes. (bytes.items ≡ (link_at (proxy_in self.old proxy).links server).output)
            × (self.new ≡ with_proxy proxy (lost_at server (proxy_in self.old proxy)) self.old)) }
        ensures ok { IfErr result (λ _. ⊥) }
    {
        match self.list.get_mut(proxy) {
            Some(it) => it.lost(server),
            None => Err(ProxyError::NoLink),
        }
    }

    /// Loses each proxy's link to a server, if it is up, with its bytes. It takes no memory.
    pub fn lose_all(&mut self, server: usize)
        ensures { self.new ≡ map (without_link server) self.old }
    {
        for it in self.list.iter_mut() {
            lose(it, server);
        }
    }

    /// Brings up a link that is down, as its next generation, if one is left.
    pub fn back(&mut self, proxy: usize, server: usize)
        requires there { server < length (proxy_in self.old proxy).links }
        requires can { can_come_back (link_at (proxy_in self.old proxy).links server) ≡ true }
        ensures { self.new ≡ with_proxy proxy (relinked server (up_link ((link_at (proxy_in self.old proxy).links server).generation + 1)) (proxy_in self.old proxy)) self.old }
    {
        if let Some(it) = self.list.get_mut(proxy) {
            it.back(server).unwrap();
        }
    }

    /// Adds a server to the ring of a proxy that exists, at its last place. It fails with `RingFull`, `AlreadyThere` or `Memory`.
    pub fn join_server(
        &mut self,
        proxy: usize,
        address: Address,
        up: bool,
    ) -> Result<usize, ProxyError>
        requires there { proxy < length self.old }
        ensures joined { IfOk result (λ place. (now : ProxyState) × JoinsServer address up place (proxy_in self.old proxy) now × IsRing now.ring
            × (self.new ≡ with_proxy proxy now self.old)) }
        ensures err { OnErr result (self.new ≡ self.old) }
    {
        match self.list.get_mut(proxy) {
            Some(it) => join(it, address, up),
            None => Err(ProxyError::NoLink),
        }
    }
}

/// Adds a server to the ring of a proxy, at its last place. It fails with `RingFull`, `AlreadyThere` or `Memory`.
fn join(proxy: &mut Proxy, address: Address, up: bool) -> Result<usize, ProxyError>
    ensures joined { IfOk result (λ place. JoinsServer address up place proxy.old proxy.new × IsRing proxy.new.ring) }
    ensures err { OnErr result (proxy.new ≡ proxy.old) }
{
    let place = proxy.join_server(address, up)?;
    let _ = proxy.ring().servers();
    Ok(place)
}

/// Loses a proxy's link to a server, if it is up.
fn lose(proxy: &mut Proxy, server: usize)
    ensures { proxy.new ≡ without_link server proxy.old }
{
    if proxy.is_up(server) {
        let Ok(_) = proxy.lost(server) else {
            return;
        };
    }
}
