//! Measures how fast a server takes bytes that arrive in pieces.
//!
//! Without a further argument each case runs at a thousandth of its size, and its line has the number of bytes that were fed and
//! of those that were answered. With the argument `measure` each case runs at full size, and its line has the speed too. After
//! each case it runs again at a tenth of the size: the time for a byte should be equal.
//!
//! `case KIND SIZE PIECE` runs one case alone, and `load KIND SIZE PIECE` only makes what its client would send. So a tool that
//! counts instructions measures the cost of a request: the difference of two sizes of `case`, less that of `load`.
//! `link GETS SIZE PIECE` sends this number of gets over one link, whose values have SIZE bytes, and reads the server's bytes in pieces.
//! `hold ITEMS` makes a cache that stores exactly ITEMS items: the memory of two such runs shows the cost of an item.

use crate::cases::{CASES, Case, Kind};
use crate::figures::Figures;
use crate::{held, links};
use anyhow::{Context, bail};
use std::env::Args;
use std::time::Instant;

/// The number that a run without an argument divides the sizes by.
const QUICK: u64 = 1_000;

/// Measures what the arguments ask for.
pub fn measure(rt: &HostRuntime, arguments: &mut Args) -> anyhow::Result<()> {
    let Some(mode) = arguments.next() else {
        return measure_little(rt);
    };
    match mode.as_str() {
        "link" => play_link(rt, arguments),
        "hold" => held::hold(rt, number(arguments, "no items")?),
        "measure" => run_all(rt, 1, true),
        "case" => run(rt, &case_of(arguments)?, 1, false),
        "load" => load(rt, &case_of(arguments)?),
        _ => bail!(
            "usage: mc_tools bench [measure | hold ITEMS | link GETS SIZE PIECE | case KIND SIZE PIECE | load KIND SIZE PIECE]"
        ),
    }
}

/// Runs each case at a thousandth of its size.
pub fn measure_little(rt: &HostRuntime) -> anyhow::Result<()> {
    run_all(rt, QUICK, false)
}

/// The next argument, which is a number.
fn number(arguments: &mut Args, missing: &'static str) -> anyhow::Result<u64> {
    Ok(arguments.next().context(missing)?.parse()?)
}

/// Sends gets over one link, as the arguments ask.
fn play_link(rt: &HostRuntime, arguments: &mut Args) -> anyhow::Result<()> {
    let gets = number(arguments, "no gets")?;
    let size = number(arguments, "no size")?;
    let piece = number(arguments, "no piece")?;
    links::measure(rt, gets, size as usize, piece as usize)
}

/// The case that the arguments name.
fn case_of(arguments: &mut Args) -> anyhow::Result<Case> {
    let kind = arguments
        .next()
        .and_then(|word| Kind::named(&word))
        .context("no kind")?;
    Ok(Case {
        kind,
        size: number(arguments, "no size")?,
        piece: number(arguments, "no piece")? as usize,
        asks_first: false,
    })
}

/// Makes what a case's client would send, and prints its name.
fn load(rt: &HostRuntime, case: &Case) -> anyhow::Result<()> {
    println!(rt; "{}", case.load(rt.alloc(), 1)?.name)?;
    Ok(())
}

/// Runs each case at a part of its size and at a tenth of that.
fn run_all(rt: &HostRuntime, parts: u64, is_timed: bool) -> anyhow::Result<()> {
    for (kind, size, piece, asks_first) in CASES {
        let case = Case {
            kind,
            size,
            piece,
            asks_first,
        };
        run(rt, &case, parts, is_timed)?;
        run(rt, &case, parts.saturating_mul(10), is_timed)?;
    }
    Ok(())
}

/// Runs a case at a part of its size and prints what was fed and answered, and the speed if the run is timed.
fn run(rt: &HostRuntime, case: &Case, parts: u64, is_timed: bool) -> anyhow::Result<()> {
    let load = case.load(rt.alloc(), parts)?;
    let start = Instant::now(rt)?;
    let figures = Figures::of_run(rt.alloc(), &load, case)?;
    let time = start.elapsed(rt)?;
    let line = figures.line(rt.alloc(), &load, case)?;
    if is_timed {
        println!(rt; "{line}, {}", figures.speed(rt.alloc(), time)?)?;
    } else {
        println!(rt; "{line}")?;
    }
    Ok(())
}
