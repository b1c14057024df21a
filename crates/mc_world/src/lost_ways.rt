//! What happens on the lost generations of the links of a pool's proxies.
ghost use Rattle.std.specs.Prelude.{◌≡◌, ◌<◌, ◌^◌, ◌↔◌, ℕ, true, IfOk, OnErr};

use crate::errors::{Step, WorldError};
use crate::pools::Pool;
use mc_store::Store;

impl<S: Store + Drop> Pool<S> {
    ghost use Rattle.mc_world.specs.Applies.{CanReachLate, CanServeLate, HasLost, is_way};
    ghost use Rattle.mc_world.specs.Happens.{Does};
    ghost use Rattle.mc_world.specs.Pools.{EndSeen, LateBytes, LateTurn};
    ghost use Rattle.mc_world.specs.Serving.{PoolServes};

    /// Bytes of a lost generation of a proxy's link arrive at its server: this number, or all.
    pub fn late_bytes(
        &mut self,
        proxy: usize,
        place: usize,
        generation: u64,
        count: usize,
    ) -> Result<Step, WorldError>
        ensures reaches { IfOk result (λ step. Does step ((i : ℕ) × (h : LateBytes place i count self.old self.new) × (is_way proxy generation h.arrives.way ≡ true))
            (self.new ≡ self.old)) }
        ensures applies { IfOk result (λ step. (step ≡ Step.Done) ↔ CanReachLate proxy place generation count self.old) }
        ensures err { OnErr result (self.new ≡ self.old) }
        ensures err_applies { OnErr result (CanReachLate proxy place generation count self.old) }
    {
        let Some(site) = self.sites.get_mut(place) else {
            return Ok(Step::Nothing);
        };
        let Some(i) = site.lost_way(proxy, generation) else {
            return Ok(Step::Nothing);
        };
        if count == 0 || site.lost()[i].going().is_empty() {
            return Ok(Step::Nothing);
        }
        site.arrive_late(i, count)?;
        Ok(Step::Done)
    }

    /// A server takes a request of a lost generation of a proxy's link.
    pub fn late_turn(
        &mut self,
        proxy: usize,
        place: usize,
        generation: u64,
        moment: u64,
    ) -> Result<Step, WorldError>
        requires moment { moment < 2 ^ 63 }
        requires serves { PoolServes self.old }
        ensures takes { IfOk result (λ step. Does step ((i : ℕ) × (h : LateTurn place i moment self.old self.new) × (is_way proxy generation h.enters.way ≡ true))
            (self.new ≡ self.old)) }
        ensures applies { IfOk result (λ step. (step ≡ Step.Done) ↔ CanServeLate proxy place generation self.old) }
        ensures err { OnErr result (self.new ≡ self.old) }
        ensures err_applies { OnErr result (CanServeLate proxy place generation self.old) }
    {
        let Some(site) = self.sites.get_mut(place) else {
            return Ok(Step::Nothing);
        };
        let Some(i) = site.lost_way(proxy, generation) else {
            return Ok(Step::Nothing);
        };
        let Step::Done = site.turn_late(i, moment)? else {
            return Ok(Step::Nothing);
        };
        Ok(Step::Done)
    }

    /// A server sees the end of a lost generation of a proxy's link. The call takes no memory.
    pub fn see_end(&mut self, proxy: usize, place: usize, generation: u64) -> Step
        requires serves { PoolServes self.old }
        ensures ends { Does result ((i : ℕ) × (h : EndSeen place i self.old self.new) × (is_way proxy generation h.ends.way ≡ true)) (self.new ≡ self.old) }
        ensures applies { (result ≡ Step.Done) ↔ HasLost proxy place generation self.old }
    {
        let Some(site) = self.sites.get_mut(place) else {
            return Step::Nothing;
        };
        let Some(i) = site.lost_way(proxy, generation) else {
            return Step::Nothing;
        };
        site.end(i);
        Step::Done
    }
}
