//! The world that a pool script begins with.
ghost use Rattle.std.specs.Prelude.{◌≡◌, ◌<◌, ◌+◌, ◌^◌, All, length, IfOk, IsOkUnless};
ghost use Rattle.mc_pool_script.specs.Plays.{IsOpenedFor};
ghost use Rattle.mc_pool_script.specs.Stores.{IsEmptyStore};
ghost use Rattle.mc_world.specs.Steps.{GivesAccount};

use crate::scripts::PoolScript;
use mc_script::{ScriptStore, SimError};
use mc_world::World;
use std::alloc::Global;

/// The world that a script begins with, with its choice for lost commands: nothing has happened in it.
pub fn opened_world<S: ScriptStore>(
    alloc: Global,
    script: &PoolScript,
) -> Result<World<S>, SimError>
    ensures opened { IfOk result (λ world. IsOpenedFor script.now world) }
    ensures account { IfOk result GivesAccount }
    ensures only_memory { IsOkUnless result SimError.Memory }
{
    let (budget, items) = (script.budget(), script.items());
    let clients = vec![in alloc; script.clients(); script.proxies()]?;
    let losses = script.losses();
    let ring = script.ring(alloc)?;
    let stores = empty_stores(alloc, script.servers(), items)?;
    let clients = clients.as_slice();
    let Ok(world) = World::with_proxies(alloc, ring, losses, clients, budget, items, stores) else {
        return Err(SimError::Memory);
    };
    Ok(world)
}

/// This number of empty stores, one for each server.
fn empty_stores<S: ScriptStore>(
    alloc: Global,
    count: usize,
    items: usize,
) -> Result<Vec<S>, SimError>
    requires { items + 1 < 2 ^ 64 }
    ensures count { IfOk result (λ stores. length stores.items ≡ count) }
    ensures empty { IfOk result (λ stores. All (λ store. IsEmptyStore items (S.items store) (S.most store)) stores.items) }
    ensures only_memory { IsOkUnless result SimError.Memory }
{
    let mut stores = Vec::new(alloc);
    for _ in 0..count {
        stores.push(S::opened(alloc, items)?)?;
    }
    Ok(stores)
}
