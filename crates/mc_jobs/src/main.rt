//! Plays whole jobs, each of a kind that users wait for, and prints how much was asked and a digest of all answers.
//!
//! `JOB SEED` plays the job of that name at full size, with requests made from the seed: `pages`, `large`, `counters`, `pool`, `scripts`
//! or `awkward`. Each seed makes other requests of the same kinds and sizes. A tool that times a process measures the cost of a job.
//! Without arguments each job is played at a small part of its size.
#![tactic(auto)]

mod awkward;
mod counters;
mod digests;
mod errors;
mod keys;
mod large;
mod pages;
mod pool;
mod randoms;
mod scripts;
mod served;

use anyhow::{Context, bail};
use errors::JobError;
use randoms::Random;
use std::alloc::Global;
use std::env;

/// The names of all jobs.
const JOBS: [&str; 6] = ["pages", "large", "counters", "pool", "scripts", "awkward"];

/// The number of parts that the size of a job is divided into for a run without arguments.
const QUICK: u64 = 500;

/// The result of a job: how much was asked, in requests or in events of scripts, and a digest of all answers.
#[derive(Clone, Copy)]
pub struct Played {
    pub asked: u64,
    pub digest: u64,
}

fn main(rt: HostRuntime) -> anyhow::Result<()> {
    let mut arguments = env::args(&rt)?;
    let _program = arguments.next();
    let Some(job) = arguments.next() else {
        for job in JOBS {
            run(&rt, job, 1, QUICK)?;
        }
        return Ok(());
    };
    let seed = arguments.next().context("no seed")?.parse::<u64>()?;
    run(&rt, job.as_str(), seed, 1)
}

/// Plays a job at one of `parts` parts of its size, and prints the result.
fn run(rt: &HostRuntime, job: &str, seed: u64, parts: u64) -> anyhow::Result<()> {
    let Some(played) = play(rt.alloc(), job, seed, parts)? else {
        bail!("usage: mc_jobs [pages | large | counters | pool | scripts | awkward] [SEED]");
    };
    println!(rt;
        "{job}: {} asked, digest {:016x}",
        played.asked, played.digest
    )?;
    Ok(())
}

/// The result of a job; `None` if no job has the name.
fn play(alloc: Global, job: &str, seed: u64, parts: u64) -> Result<Option<Played>, JobError> {
    let random = Random::new(seed);
    let played = match job {
        "pages" => pages::play(alloc, random, parts)?,
        "large" => large::play(alloc, random, parts)?,
        "counters" => counters::play(alloc, random, parts)?,
        "pool" => pool::play(alloc, random, parts)?,
        "scripts" => scripts::play(alloc, random, parts)?,
        "awkward" => awkward::play(alloc, random, parts)?,
        _ => return Ok(None),
    };
    Ok(Some(played))
}
