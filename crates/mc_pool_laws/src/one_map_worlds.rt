//! The law of one map for worlds.
ghost use Rattle.mc_pool_laws.specs.OneMaps.{ActsAsOneMap};

use mc_store::Store;
use mc_world::World;

/// A law on public calls alone. Each world, of 1 to 64 proxies and stores of any kind, gives account, whatever was done to it by its calls. If its run is
/// plain, the histories of all its servers are those of one map, which takes all their commands in the order of their turns. The call does nothing:
/// its contract is the law.
pub fn worlds_act_as_one_map<S: Store + Drop>(world: &World<S>)
    ensures { ActsAsOneMap world.now }
{
    world.opens_well();
    world.gives_account();
}
