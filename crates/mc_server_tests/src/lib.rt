//! Tests of a server's crates together, for what no clause says and no script can bring about.
//!
//! A script of `tests/examples/` plays bytes to a server. These tests cover the rest: numbers that are used up, refused memory, output that
//! is taken in parts, answers within a limit, and streams that move little or fail. The expected answers are worked out by hand from the
//! protocol's rules, and are never taken from what the program wrote.
//!
//! # Fixtures
//!
//! The tests of several crates use these: a store that is refused memory, servers over it, the two sides of a stream in memory, and texts.
//!
//! [`new_server`] is a server with a [`Setup`], over a [`MeagreStore`], which has memory for a limited number of new keys; [`server_over`] is
//! one over another store. A [`Stream`] gives bytes and takes them. The [`Calls`] of its [`Sides`] say how many bytes a call moves, and
//! whether it blocks, is interrupted or fails. Nothing here is part of a program.
#![tactic(auto)]

/// A call, which is made again if it is refused memory.
#[macro_export]
macro_rules! again {
    ($call:expr) => {{
        for _ in 0..3 {
            if let Ok(done) = $call {
                return Ok(done);
            }
        }
        $call
    }};
}

#[cfg(test)]
mod bounds;
#[cfg(test)]
mod caches;
mod fixture_texts;
#[cfg(test)]
mod gathers;
#[cfg(test)]
mod hashers;
#[cfg(test)]
mod large;
#[cfg(test)]
mod limits;
mod meagre;
#[cfg(test)]
mod pumps;
#[cfg(test)]
mod readers;
#[cfg(test)]
mod refusals;
#[cfg(test)]
mod replies;
mod servers;
#[cfg(test)]
mod stores;
mod streams;
#[cfg(test)]
mod texts;

pub use fixture_texts::{read_so, with_value};
pub use meagre::MeagreStore;
pub use servers::{MOMENT, Setup, WIDE, new_server, server_over};
pub use streams::{Call, Calls, MANY, SCRIPTS, Sides, Sink, Source, Stream};
