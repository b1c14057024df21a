//! Plays gets and sets of eight clients over a pool, on threads and on one thread.
//!
//! `threads SERVERS REQUESTS` plays this number of requests by [`mc_threads::run_threads`], and `one SERVERS REQUESTS` plays them by
//! a proxy and servers on one thread. `load SERVERS REQUESTS` only makes the clients' texts. A tool that times a process measures the
//! cost of a request: the time of one of the first two, less that of the last.
//!
//! Without a further argument both play [`FEW`] requests over 1, 2 and 4 servers. A line has the number of answers and of gets that
//! hit. No client uses another's keys, so both numbers are equal in any order of the threads.

use crate::tallies::Tally;
use crate::thread_loads::{CLIENTS, inputs};
use crate::{single, threaded};
use anyhow::{Context, bail};
use std::env::Args;
use std::sync::Wait;
use std::thread::Threads;
use std::time::Clock;

/// How many requests a run without arguments has.
const FEW: u64 = 800;

/// Plays the run that the arguments name.
pub fn play_as_asked<R: Print + Threads + Wait + Clock + Sync + AllocGlobal>(
    rt: &R,
    arguments: &mut Args,
) -> anyhow::Result<()> {
    let Some(how) = arguments.next() else {
        return play_little(rt);
    };
    let servers = number(arguments, "no servers")?;
    let requests = number(arguments, "no requests")?;
    play(rt, how.as_str(), servers, requests)
}

/// The next argument, which is a number.
fn number(arguments: &mut Args, missing: &'static str) -> anyhow::Result<u64> {
    Ok(arguments.next().context(missing)?.parse()?)
}

/// Plays few requests, on threads and on one thread.
pub fn play_little<R: Print + Threads + Wait + Clock + Sync + AllocGlobal>(
    rt: &R,
) -> anyhow::Result<()> {
    for servers in [1, 2, 4] {
        play(rt, "threads", servers, FEW)?;
        play(rt, "one", servers, FEW)?;
    }
    Ok(())
}

/// Plays this number of requests over this number of servers, and prints the result.
fn play<R: Print + Threads + Wait + Clock + Sync + AllocGlobal>(
    rt: &R,
    how: &str,
    servers: u64,
    requests: u64,
) -> anyhow::Result<()> {
    let alloc = rt.alloc();
    let inputs = inputs(alloc, requests)?;
    let tally = match how {
        "threads" => threaded::play(rt, alloc, servers, inputs.as_slice())?,
        "one" => single::play(alloc, servers, inputs.as_slice())?,
        "load" => Tally::of(&[]),
        _ => bail!("usage: mc_tools threads [threads | one | load] SERVERS REQUESTS"),
    };
    println!(rt;
        "{how}: servers {servers}, clients {CLIENTS}, requests {requests}, answers {}, hits {}",
        tally.answers, tally.hits
    )?;
    Ok(())
}
