//! The proxy's links.
ghost use Rattle.mc_proxy.specs.Joins.{joined_link};
ghost use Rattle.std.specs.Prelude.{◌≡◌, ◌+◌, ◌-◌, ◌^◌, ◌<◌, ◌≤◌, ◌↔◌, ◌⊎◌, ◌++◌, true, false, length, drop, option_map, slice_get, IsErrOf, IsOkUnless, IsTrue, IfOk, IfErr, OnOk, OnErr};

use crate::errors::ProxyError;
use crate::proxies::Proxy;
use crate::turns::LinkStep;
use mc_link::{Link, Tag};
use mc_ring::Address;
use mc_route::Outcome;
use std::alloc::Global;

impl Proxy {
    ghost use Rattle.mc_link.specs.LinkState.{can_come_back, up_link};
    ghost use Rattle.mc_link.specs.Turns.{HasReply};
    ghost use Rattle.mc_ring.specs.Rings.{RingState};
    ghost use Rattle.mc_proxy.specs.SessionState.{link_at, with_link};
    ghost use Rattle.mc_proxy.specs.Joins.{JoinsServer, has_server};
    ghost use Rattle.mc_proxy.specs.LinkTurns.{IsLinkTurn, lost_at};
    ghost use Rattle.mc_proxy.specs.Noting.{noted};

    /// Returns whether the link to the server at a place is up. It is false if the ring has no server there.
    pub fn is_up(&self, server: usize) -> bool
        ensures { result ≡ (link_at self.now.links server).up }
    {
        self.links.get(server).is_some_and(Link::is_up)
    }

    /// Returns a link's output that was not consumed: none if the link is down or missing.
    pub fn link_output(&self, server: usize) -> &[u8]
        ensures { result.now ≡ (link_at self.now.links server).output }
    {
        self.links.get(server).map_or(&[], Link::output)
    }

    /// Consumes the first `count` bytes of a link's output, which were sent to its server. It takes no memory.
    pub fn link_taken_out(&mut self, server: usize, count: usize)
        requires { count ≤ length (link_at self.old.links server).output }
        ensures { self.new ≡ record self.old {
          links = with_link server
              (record (link_at self.old.links server) { output = drop count (link_at self.old.links server).output }) self.old.links;
        } }
    {
        let Some(link) = self.links.get_mut(server) else {
            return;
        };
        link.taken_out(count);
    }

    /// Takes the bytes that arrived next from a server.
    pub fn link_feed(&mut self, server: usize, piece: &[u8]) -> Result<(), ProxyError>
        ensures fed { OnOk result (self.new ≡ record self.old {
          links = with_link server
              (record (link_at self.old.links server) { unread = (link_at self.old.links server).unread ++ piece.now }) self.old.links;
        }) }
        ensures no_link { IsErrOf result ProxyError.NoLink ↔ (length self.old.links ≤ server) }
        ensures state { IsErrOf result ProxyError.LinkState ↔ ((server < length self.old.links) × ((link_at self.old.links server).up ≡ false)) }
        ensures only { IfErr result (λ e. (e ≡ ProxyError.NoLink) ⊎ (e ≡ ProxyError.LinkState) ⊎ (e ≡ ProxyError.Memory)) }
        ensures err { OnErr result (self.new ≡ self.old) }
    {
        let Some(link) = self.links.get_mut(server) else {
            return Err(ProxyError::NoLink);
        };
        Ok(link.feed(piece)?)
    }

    /// Takes the reply to the oldest pending command of a link, if it has arrived whole. If the bytes are no reply to it, or
    /// no command is pending, the link is lost as by [`Proxy::lost`].
    ///
    /// It takes memory only for a value, which is copied out once.
    pub fn link_turn(&mut self, server: usize) -> Result<LinkStep, ProxyError>
        ensures turn { IfOk result (λ turn. IsLinkTurn server turn self.old self.new) }
        ensures memory { IsErrOf result ProxyError.Memory → HasReply (link_at self.old.links server) }
        ensures no_link { IsErrOf result ProxyError.NoLink ↔ (length self.old.links ≤ server) }
        ensures state { IsErrOf result ProxyError.LinkState ↔ ((server < length self.old.links) × ((link_at self.old.links server).up ≡ false)) }
        ensures only { IfErr result (λ e. (e ≡ ProxyError.NoLink) ⊎ (e ≡ ProxyError.LinkState) ⊎ (e ≡ ProxyError.Memory)) }
        ensures err { OnErr result (self.new ≡ self.old) }
    {
        let Some(link) = self.links.get_mut(server) else {
            return Err(ProxyError::NoLink);
        };
        match link.turn(self.alloc)? {
            mc_link::LinkTurn::Took(tag, reply) => {
                self.note(tag, Outcome::Reply(reply));
                Ok(LinkStep::Took)
            }
            mc_link::LinkTurn::Idle => Ok(LinkStep::Idle),
            mc_link::LinkTurn::Strange => {
                self.lost(server)?;
                Ok(LinkStep::Strange)
            }
        }
    }

    /// Returns whether a whole reply to the oldest pending command of a link has arrived, which a turn of the link takes. It
    /// is false if the link is down or missing. It takes no memory.
    pub fn has_reply(&self, server: usize) -> bool
        ensures { IsTrue result ↔ HasReply (link_at self.now.links server) }
    {
        self.links.get(server).is_some_and(Link::has_reply)
    }

    /// Loses a link that is up: each of its pending commands is lost, and the unread bytes are dropped. It returns the output
    /// that was not consumed, and takes no memory.
    pub fn lost(&mut self, server: usize) -> Result<Vec<u8>, ProxyError>
        ensures bytes { IfOk result (λ bytes. bytes.items ≡ (link_at self.old.links server).output) }
        ensures lost { OnOk result (self.new ≡ lost_at server self.old) }
        ensures no_link { IsErrOf result ProxyError.NoLink ↔ (length self.old.links ≤ server) }
        ensures state { IsErrOf result ProxyError.LinkState ↔ ((server < length self.old.links) × ((link_at self.old.links server).up ≡ false)) }
        ensures only { IfErr result (λ e. (e ≡ ProxyError.NoLink) ⊎ (e ≡ ProxyError.LinkState)) }
        ensures err { OnErr result (self.new ≡ self.old) }
    {
        let Some(link) = self.links.get_mut(server) else {
            return Err(ProxyError::NoLink);
        };
        let lost = link.lose(self.alloc)?;
        for (_, tag) in lost.waiting {
            self.note(tag, Outcome::Lost);
        }
        Ok(lost.bytes)
    }

    /// Records the outcome of a command. If its session is gone, the outcome is dropped.
    #[tactic(auto, using(crate::proofs::NotingLemmas::noted_gone))]
    fn note(&mut self, tag: Tag, outcome: Outcome)
        ensures { self.new ≡ record self.old { sessions = noted tag outcome self.old.sessions } }
    {
        let Some(session) = self.sessions.get_mut(tag.session) else {
            return;
        };
        session.note(tag, outcome);
    }

    /// Brings up a link that is down, and returns its new generation: one more than the last.
    pub fn back(&mut self, server: usize) -> Result<u64, ProxyError>
        ensures generation { IfOk result (λ generation. generation ≡ (link_at self.old.links server).generation + 1) }
        ensures back { IfOk result (λ generation. self.new ≡ record self.old { links = with_link server (up_link generation) self.old.links }) }
        ensures no_link { IsErrOf result ProxyError.NoLink ↔ (length self.old.links ≤ server) }
        ensures state { IsErrOf result ProxyError.LinkState
            ↔ ((server < length self.old.links) × (can_come_back (link_at self.old.links server) ≡ false)) }
        ensures only { IfErr result (λ e. (e ≡ ProxyError.NoLink) ⊎ (e ≡ ProxyError.LinkState)) }
        ensures err { OnErr result (self.new ≡ self.old) }
    {
        let Some(link) = self.links.get_mut(server) else {
            return Err(ProxyError::NoLink);
        };
        Ok(link.back()?)
    }

    /// Returns how many commands are pending on a link: none if it is down or missing.
    pub fn waiting(&self, server: usize) -> usize
        ensures { result ≡ length (link_at self.now.links server).waiting }
    {
        self.links.get(server).map_or(0, Link::waiting)
    }

    /// Returns the tag of the pending command number `place` of a link, the oldest being number 0.
    pub fn tag(&self, server: usize, place: usize) -> Option<Tag>
        ensures { result ≡ option_map (λ waiting. waiting.1) (slice_get (link_at self.now.links server).waiting place) }
    {
        self.links.get(server)?.tag(place)
    }

    /// Frees the memory of each empty buffer of a link that has room for more than `kept` bytes or commands. It is for a link
    /// that is idle.
    pub fn link_shrink_if_idle(&mut self, server: usize, kept: usize)
        ensures { self.new ≡ self.old }
    {
        let Some(link) = self.links.get_mut(server) else {
            return;
        };
        link.shrink_if_idle(kept);
    }

    /// Adds a server at the last place, and returns that place. Its link is up, of the first generation, or down. Requests
    /// that were taken before keep their owners, and no item moves.
    pub fn join_server(&mut self, address: Address, up: bool) -> Result<usize, ProxyError>
        ensures joined { IfOk result (λ place. JoinsServer address up place self.old self.new) }
        ensures full { IsErrOf result ProxyError.RingFull ↔ (64 ≤ length self.old.ring.servers) }
        ensures there { IsErrOf result ProxyError.AlreadyThere
            ↔ ((length self.old.ring.servers < 64) × (has_server self.old.ring.servers address ≡ true)) }
        ensures only { IfErr result (λ e. (e ≡ ProxyError.RingFull) ⊎ (e ≡ ProxyError.AlreadyThere) ⊎ (e ≡ ProxyError.Memory)) }
        ensures err { OnErr result (self.new ≡ self.old) }
    {
        let ring = self.ring.with_server(self.alloc, address)?;
        let link = joining(self.alloc, up);
        let place = self.links.len();
        self.links.push(link)?;
        self.ring = ring;
        Ok(place)
    }
}

/// Makes the link of a server that joins: up, of the first generation, or down.
fn joining(alloc: Global, up: bool) -> Link
    ensures { result.state ≡ joined_link up }
{
    let mut link = Link::new(alloc);
    if up {
        link.back().unwrap();
    }
    link
}
