//! A pool on threads.

use crate::lent::{Open, Ticks};
use crate::tallies::Tally;
use crate::thread_loads::{BUDGET, ITEMS, ring_of};
use mc_threads::{PoolConfig, run_threads};
use std::alloc::{AllocError, Global};
use std::sync::Wait;
use std::thread::Threads;
use std::time::Clock;

/// Answers the requests of the clients, by this number of servers on threads of their own.
pub fn play<R: Threads + Wait + Clock + Sync>(
    rt: &R,
    alloc: Global,
    servers: u64,
    inputs: &[Vec<Vec<u8>>],
) -> anyhow::Result<Tally> {
    let config = PoolConfig {
        ring: ring_of(alloc, servers)?,
        budget: BUDGET,
        items: ITEMS,
    };
    let ran = run_threads(rt, alloc, &config, inputs, clocks(alloc, servers)?, &Open)?;
    Ok(Tally::of(ran.outputs.as_slice()))
}

/// This number of clocks.
fn clocks(alloc: Global, count: u64) -> Result<Vec<Ticks>, AllocError> {
    let mut all = Vec::new(alloc);
    for _ in 0..count {
        all.push(Ticks {
            times: Vec::new(alloc),
        })?;
    }
    Ok(all)
}
