//! A pool: its proxies, and its servers with their ways.
ghost use Rattle.std.specs.Prelude.{◌≡◌, ◌↔◌, length, IfOk, IsTrue, OnErr};

use crate::errors::{Step, WorldError};
use crate::proxies::Proxies;
use crate::sites::Site;
use mc_history::Entry;
use mc_proxy::{Emit, ProxyError, SessionTurn};
use mc_store::Store;
use std::alloc::Global;
use std::marker::Model;

/// Proxies, and their servers with their ways, by the places of the rings.
#[derive(Drop)]
pub struct Pool<S: Store + Drop> {
    pub(crate) alloc: Global,
    /// The proxy of each client, by the client's number.
    pub(crate) homes: Vec<usize>,
    pub(crate) proxies: Proxies,
    pub(crate) sites: Vec<Site<S>>,
}

impl<S: Store + Drop> Model for Pool<S> {
    ghost use Rattle.mc_world.specs.WorldState.{PoolState};

    ghost Value = { PoolState };

    ghost view = { λ p. record { homes = p.homes.items; proxies = p.proxies; sites = p.sites.items } };
}

impl<S: Store + Drop> Pool<S> {
    ghost use Rattle.mc_proxy.specs.ProxyState.{output_of};
    ghost use Rattle.mc_world.specs.Applies.{CanHear, CanPutAnswer, CanTakeBytes, CanTakeRequest, IsThere, IsUp};
    ghost use Rattle.mc_world.specs.Happens.{Does};
    ghost use Rattle.mc_world.specs.Pools.{ClientGoes, HearsClient, PutsAnswer, TakesBytes, TakesRequest};
    ghost use Rattle.mc_world.specs.WorldState.{histories_of, home_of, session_of};

    /// A pool of these proxies and servers, with the proxy of each client.
    pub fn new(alloc: Global, homes: Vec<usize>, proxies: Proxies, sites: Vec<Site<S>>) -> Pool<S>
        ensures { result ≡ record { homes = homes.items; proxies = proxies; sites = sites.items } }
    {
        Pool {
            alloc,
            homes,
            proxies,
            sites,
        }
    }

    /// How many proxies there are.
    pub fn proxies(&self) -> usize
        ensures { result ≡ length self.now.proxies }
    {
        self.proxies.count()
    }

    /// Whether a proxy's link to a server is up.
    pub fn is_up(&self, proxy: usize, place: usize) -> bool
        ensures { IsTrue result ↔ IsUp proxy place self.now }
    {
        self.proxies.is_up(proxy, place)
    }

    /// The number of a client's proxy: 0 if there is no such client.
    pub fn home(&self, client: u64) -> usize
        ensures { result ≡ home_of self.now client }
    {
        match self.homes.get(client as usize) {
            Some(home) => *home,
            None => 0,
        }
    }

    /// The servers with their ways, by the places of the rings.
    pub fn sites(&self) -> &[Site<S>]
        ensures { result.now ≡ self.now.sites }
    {
        self.sites.as_slice()
    }

    /// The bytes that were emitted to a client and that it has not taken.
    pub fn output(&self, client: u64) -> &[u8]
        ensures { result.now ≡ output_of (session_of self.now client) }
    {
        self.proxies.output(self.home(client), client)
    }

    /// What the server of a place took in all its lives, in order: empty if there is no server.
    pub fn history(&self, place: usize) -> &[Entry]
        ensures { result.now ≡ histories_of self.now.sites place }
    {
        match self.sites.get(place) {
            Some(site) => site.history(),
            None => &[],
        }
    }

    /// A client's bytes are fed to its session.
    pub fn hear(&mut self, client: u64, piece: &[u8]) -> Result<Step, WorldError>
        ensures hears { IfOk result (λ step. Does step (HearsClient client piece.now self.old self.new) (self.new ≡ self.old)) }
        ensures applies { IfOk result (λ step. (step ≡ Step.Done) ↔ CanHear client piece.now self.old) }
        ensures err { OnErr result (self.new ≡ self.old) }
        ensures err_applies { OnErr result (CanHear client piece.now self.old) }
    {
        if piece.is_empty() {
            return Ok(Step::Nothing);
        }
        let home = self.home(client);
        match self.proxies.feed(home, client, piece) {
            Ok(()) => Ok(Step::Done),
            Err(ProxyError::NoSession) => Ok(Step::Nothing),
            Err(_) => Err(WorldError::Memory),
        }
    }

    /// Its proxy takes a request of a client.
    pub fn take_request(&mut self, client: u64) -> Result<Step, WorldError>
        ensures takes { IfOk result (λ step. Does step (TakesRequest client self.old self.new) (self.new ≡ self.old)) }
        ensures applies { IfOk result (λ step. (step ≡ Step.Done) ↔ CanTakeRequest client self.old) }
        ensures err { OnErr result (self.new ≡ self.old) }
        ensures err_applies { OnErr result (CanTakeRequest client self.old) }
    {
        let home = self.home(client);
        let turn = match self.proxies.turn(home, client) {
            Ok(turn) => turn,
            Err(ProxyError::NoSession) => return Ok(Step::Nothing),
            Err(_) => return Err(WorldError::Memory),
        };
        let SessionTurn::Took = turn else {
            return Ok(Step::Nothing);
        };
        Ok(Step::Done)
    }

    /// The answer to the oldest unanswered request of a client is emitted.
    pub fn put_answer(&mut self, client: u64) -> Result<Step, WorldError>
        ensures puts { IfOk result (λ step. Does step (PutsAnswer client self.old self.new) (self.new ≡ self.old)) }
        ensures applies { IfOk result (λ step. (step ≡ Step.Done) ↔ CanPutAnswer client self.old) }
        ensures err { OnErr result (self.new ≡ self.old) }
        ensures err_applies { OnErr result (CanPutAnswer client self.old) }
    {
        let home = self.home(client);
        let emit = match self.proxies.emit(home, client) {
            Ok(emit) => emit,
            Err(ProxyError::NoSession) => return Ok(Step::Nothing),
            Err(_) => return Err(WorldError::Memory),
        };
        let Emit::Done = emit else {
            return Ok(Step::Nothing);
        };
        Ok(Step::Done)
    }

    /// A client takes the first of the bytes that were emitted to it: this number, or all. The call takes
    /// no memory.
    pub fn client_takes(&mut self, client: u64, count: usize) -> Step
        ensures takes { Does result (TakesBytes client count self.old self.new) (self.new ≡ self.old) }
        ensures applies { (result ≡ Step.Done) ↔ CanTakeBytes client count self.old }
    {
        let moved = count.min(self.output(client).len());
        if moved == 0 {
            return Step::Nothing;
        }
        let home = self.home(client);
        self.proxies.taken_out(home, client, moved);
        Step::Done
    }

    /// A client goes. The call takes no memory.
    pub fn client_goes(&mut self, client: u64) -> Step
        ensures goes { Does result (ClientGoes client self.old self.new) (self.new ≡ self.old) }
        ensures applies { (result ≡ Step.Done) ↔ IsThere client self.old }
    {
        let home = self.home(client);
        match self.proxies.gone(home, client) {
            Ok(()) => Step::Done,
            Err(_) => Step::Nothing,
        }
    }
}
