//! Tests of rings, links, proxies and worlds, for what no clause says and no script can bring about.
//!
//! `mc_server_tests` has the tests of servers. The expected answers are worked out by hand from the protocol's rules, or are another
//! program's figures, and are never taken from what the program wrote.
//!
//! # Threads
//!
//! Tests of a pool on threads: worked examples over several servers, and a test that their threads run at the same time.
//!
//! No clause says that threads run side by side. Here a gate holds each server back until each other server has taken a request.
#![tactic(auto)]

#[cfg(test)]
mod errors;
#[cfg(test)]
mod joins;
#[cfg(test)]
mod lent;
#[cfg(test)]
mod marks;
#[cfg(test)]
mod pools;
#[cfg(test)]
mod proxies;
#[cfg(test)]
mod proxy_pumps;
#[cfg(test)]
mod requests;
#[cfg(test)]
mod rings;
#[cfg(test)]
mod runs;
#[cfg(test)]
mod worlds;
