//! A world plays a pool script.
ghost use Rattle.std.specs.Prelude.{◌≡◌, ◌<◌, ◌+◌, ◌^◌, IfOk, IsOkUnless, OnOk};
ghost use Rattle.mc_cache.specs.CacheState.{opening_cache};
ghost use Rattle.mc_pool_script.specs.PoolLines.{HasMoment};
ghost use Rattle.mc_pool_script.specs.Plays.{HasPlayed, KeepsOpening, Plays};
ghost use Rattle.mc_world.specs.Drains.{Drains};
ghost use Rattle.mc_world.specs.Joins.{HasLearnedServer, HasServerJoined};
ghost use Rattle.mc_world.specs.ProxyRestarts.{IsAnew, ProxyDies};
ghost use Rattle.mc_world.specs.Restarts.{HasServerRestarted};
ghost use Rattle.mc_world.specs.Quiet.{IsQuiet};
ghost use Rattle.mc_world.specs.Rounds.{DrainsInRounds};
ghost use Rattle.mc_world.specs.Steps.{GivesAccount};

use crate::lines::PoolLine;
use crate::scripts::PoolScript;
use crate::worlds::opened_world;
use mc_ring::Address;
use mc_script::{ScriptStore, SimError};
use mc_world::{Step, World};
use std::alloc::Global;

/// A world that has played a script.
#[derive(Drop)]
pub struct Played<S: ScriptStore> {
    /// The world after the script.
    pub world: World<S>,
    /// What each line did, in order. A server that joins, is learned or restarts is `Done`, and so are a proxy
    /// that restarts and a drain.
    pub steps: Vec<Step>,
}

/// A world that has played a script: it executed the lines in order.
pub fn played_script<S: ScriptStore>(
    alloc: Global,
    script: &PoolScript,
) -> Result<Played<S>, SimError>
    ensures played { IfOk result (λ played. HasPlayed script.now played.steps.items played.world) }
    ensures only_memory { IsOkUnless result SimError.Memory }
{
    let mut world = opened_world(alloc, script)?;
    let mut steps = Vec::with_capacity(alloc, script.lines().len())?;
    for line in script.lines() {
        steps.push(play(alloc, &mut world, script.items(), line)?)?;
    }
    Ok(Played { world, steps })
}

/// Plays one line.
fn play<S: ScriptStore>(
    alloc: Global,
    world: &mut World<S>,
    items: usize,
    line: &PoolLine,
) -> Result<Step, SimError>
    requires items { items ≡ world.old.items }
    requires few { items + 1 < 2 ^ 64 }
    requires moment { HasMoment line.now (2 ^ 63) }
    ensures plays { IfOk result (λ step. Plays (opening_cache world.old.budget world.old.items 0) line.now step world.old.course world.new.course) }
    ensures keeps { OnOk result (KeepsOpening world.old world.new) }
    ensures account { OnOk result (GivesAccount world.new) }
    ensures only_memory { IsOkUnless result SimError.Memory }
{
    match line {
        PoolLine::Event(event) => match world.step(event) {
            Ok(step) => Ok(step),
            Err(_) => Err(SimError::Memory),
        },
        PoolLine::Join(proxy, address) => {
            join(alloc, world, items, *proxy, address)?;
            Ok(Step::Done)
        }
        PoolLine::Learn(proxy, address) => {
            learn(world, *proxy, address)?;
            Ok(Step::Done)
        }
        PoolLine::ProxyRestart(proxy) => {
            restart_proxy(world, *proxy)?;
            Ok(Step::Done)
        }
        PoolLine::Restart(server) => {
            restart(alloc, world, items, *server)?;
            Ok(Step::Done)
        }
        PoolLine::Drain(moment) => {
            drain(world, *moment)?;
            Ok(Step::Done)
        }
    }
}

/// Drains the world: does all that is left to do.
fn drain<S: ScriptStore>(world: &mut World<S>, moment: u64) -> Result<(), SimError>
    requires moment { moment < 2 ^ 63 }
    ensures drains { OnOk result (Drains moment world.old.course world.new.course) }
    ensures rounds { OnOk result (DrainsInRounds moment world.old.course world.new.course) }
    ensures quiet { OnOk result (IsQuiet world.new.course) }
    ensures keeps { OnOk result (KeepsOpening world.old world.new) }
    ensures account { OnOk result (GivesAccount world.new) }
    ensures only_memory { IsOkUnless result SimError.Memory }
{
    match world.drain(moment) {
        Ok(()) => Ok(()),
        Err(_) => Err(SimError::Memory),
    }
}

/// Lets a proxy learn a server.
fn learn<S: ScriptStore>(
    world: &mut World<S>,
    proxy: usize,
    address: &Address,
) -> Result<(), SimError>
    ensures learns { OnOk result (HasLearnedServer proxy address.now world.old.course world.new.course) }
    ensures keeps { OnOk result (KeepsOpening world.old world.new) }
    ensures account { OnOk result (GivesAccount world.new) }
    ensures only_memory { IsOkUnless result SimError.Memory }
{
    let address = address.copy()?;
    match world.learn_server(proxy, address) {
        Ok(_) => Ok(()),
        Err(_) => Err(SimError::Memory),
    }
}

/// Lets a proxy restart.
fn restart_proxy<S: ScriptStore>(world: &mut World<S>, proxy: usize) -> Result<(), SimError>
    ensures dies { OnOk result (ProxyDies proxy world.old.course world.new.course) }
    ensures anew { OnOk result (IsAnew proxy world.new.course.pool) }
    ensures keeps { OnOk result (KeepsOpening world.old world.new) }
    ensures account { OnOk result (GivesAccount world.new) }
    ensures only_memory { IsOkUnless result SimError.Memory }
{
    match world.restart_proxy(proxy) {
        Ok(()) => Ok(()),
        Err(_) => Err(SimError::Memory),
    }
}

/// Lets a server join at a proxy.
fn join<S: ScriptStore>(
    alloc: Global,
    world: &mut World<S>,
    items: usize,
    proxy: usize,
    address: &Address,
) -> Result<(), SimError>
    requires items { items ≡ world.old.items }
    requires few { items + 1 < 2 ^ 64 }
    ensures joins { OnOk result (HasServerJoined proxy address.now (opening_cache world.old.budget world.old.items 0) world.old.course world.new.course) }
    ensures keeps { OnOk result (KeepsOpening world.old world.new) }
    ensures account { OnOk result (GivesAccount world.new) }
    ensures only_memory { IsOkUnless result SimError.Memory }
{
    let store = S::opened(alloc, items)?;
    let address = address.copy()?;
    match world.join_server_at(proxy, address, store) {
        Ok(_) => Ok(()),
        Err(_) => Err(SimError::Memory),
    }
}

/// Lets a server restart.
fn restart<S: ScriptStore>(
    alloc: Global,
    world: &mut World<S>,
    items: usize,
    server: usize,
) -> Result<(), SimError>
    requires items { items ≡ world.old.items }
    requires few { items + 1 < 2 ^ 64 }
    ensures restarts { OnOk result (HasServerRestarted server (opening_cache world.old.budget world.old.items 0) world.old.course world.new.course) }
    ensures keeps { OnOk result (KeepsOpening world.old world.new) }
    ensures account { OnOk result (GivesAccount world.new) }
    ensures only_memory { IsOkUnless result SimError.Memory }
{
    let store = S::opened(alloc, items)?;
    match world.restart_server(server, store) {
        Ok(()) => Ok(()),
        Err(_) => Err(SimError::Memory),
    }
}
