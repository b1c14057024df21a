//! A pool on threads: one thread for each server, and the proxy on the caller's thread. Two rings of bytes between threads make each
//! link.
//!
//! [`run_threads`] takes each client's pieces, and answers all their requests. If it returns `Ok` it gives account, whatever order the
//! machine gave to the threads (`specs/Accounts.antt`). All requests have one order, and each server has a legal history of exactly
//! its commands in that order. Each client was sent the answers to all its requests. Each clock gave the moments of its server's
//! history, and one for `quit`.
//!
//! A [`Clock`] gives the moments of one server, and a [`Gate`] says when a server may take its next request. No clause says that
//! `run_threads` returns, nor that two servers' threads run at the same time. To read on: `runs.rt` has the run, `rounds.rt` the
//! proxy's side, `worker.rt` a server's.
#![tactic(auto)]

mod errors;
mod joins;
mod laws;
mod links;
mod opening;
mod rounds;
mod runs;
mod start;
mod traits;
mod worker;

pub use errors::ThreadsError;
pub use laws::{each_clients_commands_are_in_order, no_command_is_made_twice};
pub use runs::{PoolConfig, Ran, run_threads};
pub use traits::{Clock, Gate};
pub use worker::REFUSALS;
