//! The law of linearizability for worlds.
ghost use Rattle.mc_linearizable.specs.Linearizable.{IsAccountedWorld, IsLinearizableWorld};

use mc_store::Store;
use mc_world::World;

/// Each world, of any number of proxies, is linearizable, each key by itself, whatever was done to the world by its calls (`linearizable`). It is
/// linearizable by an order by which the world gives account (`accounted`). Clients have the proxies of the world's pool (`home_of`): that these never
/// change is in `every_run_is_linearizable`. The call does nothing: its contract is the law.
pub fn worlds_are_linearizable<S: Store + Drop>(world: &World<S>)
    ensures linearizable { IsLinearizableWorld world.now }
    ensures accounted { IsAccountedWorld world.now }
{
    world.opens_well();
    world.gives_account();
}
