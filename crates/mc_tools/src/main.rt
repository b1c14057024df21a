//! Tools that measure speed, and tools that tests compare with models of their own. No program uses them.
//!
//! `bench ..` measures how fast a server takes bytes (`bench.rt`). `threads ..` plays a load over a pool on threads and on one thread
//! (`threads.rt`). `read_back` encodes commands and decodes replies (`read_back.rt`). Without arguments each of them runs at its
//! smallest size, the last one first.
#![tactic(auto)]

mod bench;
mod cases;
mod figures;
mod held;
mod lent;
mod links;
mod loads;
mod read_back;
mod served;
mod single;
mod spelled_cases;
mod tallies;
mod thread_loads;
mod threaded;
mod threads;

use anyhow::bail;
use std::env;

fn main(rt: HostRuntime) -> anyhow::Result<()> {
    let mut arguments = env::args(&rt)?;
    let _program = arguments.next();
    let Some(tool) = arguments.next() else {
        read_back::play(&rt)?;
        bench::measure_little(&rt)?;
        return threads::play_little(&rt);
    };
    match tool.as_str() {
        "bench" => bench::measure(&rt, &mut arguments),
        "threads" => threads::play_as_asked(&rt, &mut arguments),
        "read_back" => read_back::play(&rt),
        _ => bail!("usage: mc_tools [bench .. | threads .. | read_back]"),
    }
}
