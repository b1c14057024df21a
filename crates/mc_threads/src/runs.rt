//! A run: one server on each thread, and the proxy on the caller's.
ghost use Rattle.std.specs.Prelude.{◌≡◌, ℕ, ◌≢◌, ◌<◌, ◌↔◌, [], length, vec_len, map, IfErr, IfOk, IsErrOf, IsOkUnless};
ghost use Rattle.mc_cache.specs.CacheState.{IsWithinBounds, opening_cache};
ghost use Rattle.mc_proxy.specs.declared.limits.TheConstants.{MAX_SESSIONS};
ghost use Rattle.mc_threads.specs.Accounts.{RunAccount, at, outs_of, texts_of};
ghost use Rattle.mc_threads.specs.Causes.{EndsRun};
ghost use Rattle.mc_threads.specs.Workers.{AreLet, WasRefused};

use crate::errors::{Ended, ThreadsError, error_of};
use crate::joins::{join_all, settle_all};
use crate::links::Ends;
use crate::opening::opened_proxy;
use crate::rounds::talk;
use crate::start::{add, start_all};
use crate::traits::{Clock, Gate};
use crate::worker::Bounds;
use mc_proxy::MAX_SESSIONS;
use mc_ring::Ring;
use std::alloc::Global;
use std::sync::Wait;
use std::sync::atomic::AtomicBool;
use std::thread;
use std::thread::{Scope, Threads};
use std::time::Clock as Time;

/// A pool: the ring by which requests are routed, with a server at each of its places, and the bounds of each server's cache.
#[derive(Drop)]
pub struct PoolConfig {
    /// The ring.
    pub ring: Ring,
    /// The most that the items of a cache cost in all: the bytes of their keys and values, and 64 for each.
    pub budget: u64,
    /// The most items of a cache.
    pub items: usize,
}

/// The answers to each client, and the clocks.
#[derive(Drop)]
pub struct Ran<C> {
    /// The answers to each client's requests.
    pub outputs: Vec<Vec<u8>>,
    /// The clocks of the servers, in the order in which they were given.
    pub clocks: Vec<C>,
}

/// Empty outputs, for this number of clients.
fn empty_outputs(alloc: Global, clients: usize) -> Result<Vec<Vec<u8>>, Ended>
    ensures len { IfOk result (λ outputs. vec_len outputs ≡ clients) }
    ensures empty { IfOk result (λ outputs. (client : ℕ) → outs_of outputs.items client ≡ []) }
    ensures err { IsOkUnless result Ended.Memory }
{
    let mut outputs = Vec::new(alloc);
    for _ in 0..clients {
        add(&mut outputs, Vec::new(alloc))?;
    }
    Ok(outputs)
}

/// A run inside the scope of its threads.
fn run_in<'s, E: 's, C: Clock + Send + Drop + 's, G: Gate + Sync, R: Threads + Wait + Time + Sync>(
    rt: &'s R,
    scope: &Scope<'s, E>,
    alloc: Global,
    config: &PoolConfig,
    inputs: &[Vec<Vec<u8>>],
    clocks: Vec<C>,
    gate: &'s G,
    stop: &'s AtomicBool,
) -> Result<Ran<C>, Ended>
    requires bounds { IsWithinBounds config.now.budget config.now.items }
    requires clocks { vec_len clocks ≡ length config.now.ring.servers }
    ensures account { IfOk result (λ ran. RunAccount config.now.ring (opening_cache config.now.budget config.now.items 0) (texts_of inputs.now) (outs_of ran.outputs.items)
        (at (map C.times clocks.items)) (at (map C.times ran.clocks.items))) }
    ensures outputs { IfOk result (λ ran. vec_len ran.outputs ≡ length inputs.now) }
    ensures clocks { IfOk result (λ ran. vec_len ran.clocks ≡ vec_len clocks) }
    ensures let_in { IfOk result (λ ran. AreLet (vec_len clocks) (G.lets gate.now) (G.knows gate.now) (at (map C.times clocks.items)) (at (map C.times ran.clocks.items))) }
    ensures cause { IfErr result (λ cause. EndsRun (vec_len clocks) (G.lets gate.now) (G.refuses gate.now) cause) }
{
    let mut proxy = opened_proxy(alloc, &config.ring, inputs)?;
    let mut outputs = empty_outputs(alloc, inputs.len())?;
    let bounds = Bounds {
        budget: config.budget,
        items: config.items,
    };
    let mut ends = Vec::new(alloc);
    let mut children = Vec::new(alloc);
    let mut results = Vec::with_capacity(alloc, clocks.len())?;
    let started = start_all(
        rt,
        scope,
        alloc,
        bounds,
        clocks,
        gate,
        stop,
        &mut ends,
        &mut children,
    );
    if let Err(ended) = started {
        join_all(rt, stop, children, Err(ended), &mut results)?;
        return Err(ended);
    }
    let own = talk(rt, stop, alloc, &mut proxy, &mut ends, &mut outputs);
    join_all(rt, stop, children, own, &mut results)?;
    let clocks = settle_all(alloc, results, &mut ends)?;
    Ok(Ran { outputs, clocks })
}

/// Runs a pool until all requests of its clients are answered. For each clock it has a server on a thread of its own; the proxy is on
/// the caller's thread, with two rings of 65,536 bytes for each link.
///
/// `inputs` has the pieces of each client's text. Each server takes a request only if the gate lets it, at the next moment of its own
/// clock. At the end it is sent `quit`, which it takes as any other request. The account gives the answers to each client and the
/// moments of each clock.
///
/// At an error no output is returned, and the clocks are dropped. This call may wait, and waits as long as the gate refuses.
pub fn run_threads<C: Clock + Send + Drop, G: Gate + Sync, R: Threads + Wait + Time + Sync>(
    rt: &R,
    alloc: Global,
    config: &PoolConfig,
    inputs: &[Vec<Vec<u8>>],
    clocks: Vec<C>,
    gate: &G,
) -> Result<Ran<C>, ThreadsError>
    requires { IsWithinBounds config.now.budget config.now.items }
    ensures account { IfOk result (λ ran. RunAccount config.now.ring (opening_cache config.now.budget config.now.items 0) (texts_of inputs.now) (outs_of ran.outputs.items)
        (at (map C.times clocks.items)) (at (map C.times ran.clocks.items))) }
    ensures outputs { IfOk result (λ ran. vec_len ran.outputs ≡ length inputs.now) }
    ensures clocks { IfOk result (λ ran. vec_len ran.clocks ≡ vec_len clocks) }
    ensures let_in { IfOk result (λ ran. AreLet (vec_len clocks) (G.lets gate.now) (G.knows gate.now) (at (map C.times clocks.items)) (at (map C.times ran.clocks.items))) }
    ensures clock_count { IsErrOf result ThreadsError.ClockCount ↔ (vec_len clocks ≢ length config.now.ring.servers) }
    ensures too_many { IsErrOf result ThreadsError.TooManyClients
        ↔ ((vec_len clocks ≡ length config.now.ring.servers) × (MAX_SESSIONS < length inputs.now)) }
    ensures gate_shut { IsErrOf result ThreadsError.GateShut
        → (server : ℕ) × (server < vec_len clocks) × WasRefused (G.lets gate.now server) (G.refuses gate.now server) }
{
    if clocks.len() != config.ring.servers().len() {
        return Err(ThreadsError::ClockCount);
    }
    if inputs.len() > MAX_SESSIONS {
        return Err(ThreadsError::TooManyClients);
    }
    let stop = AtomicBool::new(false);
    let shared = &stop;
    let ran = thread::scope(
        thread::scope_env(),
        rt,
        move |scope| -> Result<Ran<C>, Ended>
            requires bounds { IsWithinBounds config.now.budget config.now.items }
            requires clocks { vec_len clocks ≡ length config.now.ring.servers }
            ensures account { IfOk result (λ ran. RunAccount config.entry.now.ring (opening_cache config.entry.now.budget config.entry.now.items 0) (texts_of inputs.entry.now) (outs_of ran.outputs.items)
                (at (map C.times clocks.items)) (at (map C.times ran.clocks.items))) }
            ensures outputs { IfOk result (λ ran. vec_len ran.outputs ≡ length inputs.entry.now) }
            ensures clocks { IfOk result (λ ran. vec_len ran.clocks ≡ vec_len clocks) }
            ensures let_in { IfOk result (λ ran. AreLet (vec_len clocks) (G.lets gate.entry.now) (G.knows gate.entry.now) (at (map C.times clocks.items)) (at (map C.times ran.clocks.items))) }
            ensures cause { IfErr result (λ cause. EndsRun (vec_len clocks) (G.lets gate.entry.now) (G.refuses gate.entry.now) cause) }
        { run_in(rt, scope, alloc, config, inputs, clocks, gate, shared) },
    );
    ran.map_err(error_of)
}
