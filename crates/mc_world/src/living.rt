//! What happens on the living generations of the links of a pool's proxies.
ghost use Rattle.std.specs.Prelude.{◌≡◌, ◌<◌, ◌^◌, ◌↔◌, length, IsTrue, IfOk, OnErr};

use crate::errors::{Step, WorldError};
use crate::pools::Pool;
use mc_proxy::LinkStep;
use mc_store::Store;

impl<S: Store + Drop> Pool<S> {
    ghost use Rattle.mc_world.specs.Applies.{CanReachProxy, CanReachServer, CanReturn, CanServe, CanTakeReply, IsUp, Lives};
    ghost use Rattle.mc_world.specs.Happens.{Does};
    ghost use Rattle.mc_world.specs.Pools.{LinkReturns, LosesLink, ReachesProxy, ReachesServer, ServerTakes, TakesReply};
    ghost use Rattle.mc_world.specs.Serving.{PoolServes};

    /// Whether a generation of a proxy's link lives.
    pub fn lives(&self, proxy: usize, place: usize, generation: u64) -> bool
        ensures { IsTrue result ↔ Lives proxy place generation self.now }
    {
        if !self.proxies.is_up(proxy, place) {
            return false;
        }
        match self.sites.get(place) {
            Some(site) => site.way(proxy).generation == generation,
            None => false,
        }
    }

    /// Bytes of a proxy's living generation arrive at a server: this number, or all.
    pub fn reach_server(
        &mut self,
        proxy: usize,
        place: usize,
        count: usize,
    ) -> Result<Step, WorldError>
        requires serves { PoolServes self.old }
        ensures reaches { IfOk result (λ step. Does step (ReachesServer proxy place count self.old self.new) (self.new ≡ self.old)) }
        ensures applies { IfOk result (λ step. (step ≡ Step.Done) ↔ CanReachServer proxy place count self.old) }
        ensures err { OnErr result (self.new ≡ self.old) }
        ensures err_applies { OnErr result (CanReachServer proxy place count self.old) }
    {
        let Some(site) = self.sites.get_mut(place) else {
            return Ok(Step::Nothing);
        };
        if !self.proxies.is_up(proxy, place) {
            return Ok(Step::Nothing);
        }
        let output = self.proxies.link_output(proxy, place);
        let moved = count.min(output.len());
        if moved == 0 {
            return Ok(Step::Nothing);
        }
        let (piece, _) = output.split_at(moved);
        site.arrive(proxy, piece)?;
        self.proxies.link_taken_out(proxy, place, moved);
        Ok(Step::Done)
    }

    /// A server takes a request of a proxy's living generation.
    pub fn server_turn(
        &mut self,
        proxy: usize,
        place: usize,
        moment: u64,
    ) -> Result<Step, WorldError>
        requires moment { moment < 2 ^ 63 }
        requires serves { PoolServes self.old }
        ensures takes { IfOk result (λ step. Does step (ServerTakes proxy place moment self.old self.new) (self.new ≡ self.old)) }
        ensures applies { IfOk result (λ step. (step ≡ Step.Done) ↔ CanServe proxy place self.old) }
        ensures err { OnErr result (self.new ≡ self.old) }
        ensures err_applies { OnErr result (CanServe proxy place self.old) }
    {
        let Some(site) = self.sites.get_mut(place) else {
            return Ok(Step::Nothing);
        };
        if !self.proxies.is_up(proxy, place) {
            return Ok(Step::Nothing);
        }
        let ahead = site.way(proxy).ahead;
        if ahead >= self.proxies.waiting(proxy, place) {
            return Ok(Step::Nothing);
        }
        let Some(tag) = self.proxies.tag(proxy, place, ahead) else {
            return Ok(Step::Nothing);
        };
        let Step::Done = site.turn(proxy, tag, moment)? else {
            return Ok(Step::Nothing);
        };
        Ok(Step::Done)
    }

    /// Bytes of a proxy's living generation arrive there: this number, or all.
    pub fn reach_proxy(
        &mut self,
        proxy: usize,
        place: usize,
        count: usize,
    ) -> Result<Step, WorldError>
        ensures reaches { IfOk result (λ step. Does step (ReachesProxy proxy place count self.old self.new) (self.new ≡ self.old)) }
        ensures applies { IfOk result (λ step. (step ≡ Step.Done) ↔ CanReachProxy proxy place count self.old) }
        ensures err { OnErr result (self.new ≡ self.old) }
        ensures err_applies { OnErr result (CanReachProxy proxy place count self.old) }
    {
        let Some(site) = self.sites.get_mut(place) else {
            return Ok(Step::Nothing);
        };
        if !self.proxies.is_up(proxy, place) {
            return Ok(Step::Nothing);
        }
        let output = site.output(proxy);
        let moved = count.min(output.len());
        if moved == 0 {
            return Ok(Step::Nothing);
        }
        let (piece, _) = output.split_at(moved);
        self.proxies.link_feed(proxy, place, piece)?;
        site.give(proxy, moved);
        Ok(Step::Done)
    }

    /// A proxy takes a reply.
    pub fn take_reply(&mut self, proxy: usize, place: usize) -> Result<Step, WorldError>
        requires serves { PoolServes self.old }
        ensures takes { IfOk result (λ step. Does step (TakesReply proxy place self.old self.new) (self.new ≡ self.old)) }
        ensures applies { IfOk result (λ step. (step ≡ Step.Done) ↔ CanTakeReply proxy place self.old) }
        ensures err { OnErr result (self.new ≡ self.old) }
        ensures err_applies { OnErr result (CanTakeReply proxy place self.old) }
    {
        if !self.proxies.is_up(proxy, place) {
            return Ok(Step::Nothing);
        }
        let LinkStep::Took = self.proxies.link_turn(proxy, place)? else {
            return Ok(Step::Nothing);
        };
        self.sites[place].replied(proxy);
        Ok(Step::Done)
    }

    /// A proxy's link is lost.
    pub fn lose_link(&mut self, proxy: usize, place: usize) -> Result<Step, WorldError>
        requires serves { PoolServes self.old }
        ensures loses { IfOk result (λ step. Does step (LosesLink proxy place self.old self.new) (self.new ≡ self.old)) }
        ensures applies { IfOk result (λ step. (step ≡ Step.Done) ↔ IsUp proxy place self.old) }
        ensures err { OnErr result (self.new ≡ self.old) }
        ensures err_applies { OnErr result (IsUp proxy place self.old) }
    {
        let Some(site) = self.sites.get_mut(place) else {
            return Ok(Step::Nothing);
        };
        if !self.proxies.is_up(proxy, place) {
            return Ok(Step::Nothing);
        }
        site.cut_off(&mut self.proxies, proxy, place)?;
        Ok(Step::Done)
    }

    /// A proxy's link comes up again.
    pub fn return_link(&mut self, proxy: usize, place: usize) -> Result<Step, WorldError>
        requires serves { PoolServes self.old }
        ensures returns { IfOk result (λ step. Does step (LinkReturns proxy place self.old self.new) (self.new ≡ self.old)) }
        ensures applies { IfOk result (λ step. (step ≡ Step.Done) ↔ CanReturn proxy place self.old) }
        ensures err { OnErr result (self.new ≡ self.old) }
        ensures err_applies { OnErr result (CanReturn proxy place self.old) }
    {
        let Some(site) = self.sites.get_mut(place) else {
            return Ok(Step::Nothing);
        };
        if self.proxies.is_up(proxy, place) {
            return Ok(Step::Nothing);
        }
        if !self.proxies.has_link(proxy, place) {
            return Ok(Step::Nothing);
        }
        let generation = site.way(proxy).generation;
        if generation == u64::MAX {
            return Ok(Step::Nothing);
        }
        let Step::Done = site.come_back(proxy, generation + 1)? else {
            return Ok(Step::Nothing);
        };
        self.proxies.back(proxy, place);
        Ok(Step::Done)
    }
}
