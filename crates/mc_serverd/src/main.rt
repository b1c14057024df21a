//! A memcached server on a socket.
//!
//! The exit status is 0 if `--check` was given, or if as many connections as `--accept` names were served. Else it is that of
//! [`mc_program`]. The program first reads its arguments, then obeys `--check`, and then listens.
//!
//! # How it serves
//!
//! It accepts, reads, serves and writes the connections of its clients.
//!
//! [`serve`] serves the connections of a listener ([`bind`]) over one cache, with [`Settings`], at the moments of a clock
//! ([`SystemSeconds`]). Its core is [`mc_pump::pump`], which carries one connection's bytes between a server and the two
//! sides of a stream, and has the law of one connection. [`command`] and [`Options`] are the command line of the program [`PROGRAM`].
//!
//! [`tell_memory`] reports how much memory a server with its settings may come to take. [`serve`] reports on standard error, at
//! most once in a second, that a request was refused whose answer may be too large. If the settings ask for it, it also reports
//! what it has done. The store counts its operations, so that no layer between has to.
//!
//! [`serve`] waits for its sockets, and may wait for ever. [`bind`] resolves a name, and may wait for that. No other call waits. No
//! contract says what a socket carries. Proved of a client's turn are that its connection alone is pumped, at the clock's moment,
//! and what is done with it afterwards; of the system's clock, that it never goes back.
#![tactic(auto)]

mod cas_from;
mod chosen;
mod clocks;
mod counted;
mod figures;
mod groups;
mod handlers;
mod items;
mod kinds;
mod memory;
mod options;
mod refusals;
mod server_loops;
mod serving;
mod settings;
mod sides;
mod store_stats;

use clocks::SystemSeconds;
use mc_net::{Operators, bind};
use mc_program::{
    EprintSeldom, Failure, LogOption, LoggingRuntime, ServeError, exit_status, is_read,
    open_streams, read_words, tell_open_files,
};
use mc_server::MAX_CONNECTIONS;
use memory::tell_memory;
use options::{Options, PROGRAM, command};
use server_loops::other_files;
use serving::serve;
use std::alloc::Global;
use std::fs::Files;
use std::net::Net;
use std::process::ExitCode;
use std::random::RandomSource;
use std::rt::{Clock, Env};
use std::sync::Wait;

fn main(rt: HostRuntime) -> ExitCode {
    open_streams(&rt);
    let mut option = LogOption::Nothing;
    let served = run(&rt, &mut option);
    if let Err(failure) = &served {
        failure.tell(&LoggingRuntime::new(&rt, PROGRAM, option), PROGRAM);
    }
    ExitCode::from(exit_status(&served))
}

/// Reads the arguments, sets the form of the log, and then prints the settings or serves.
fn run<R>(rt: &R, option: &mut LogOption) -> Result<(), Failure>
where
    R: Env + Clock + Files + Print + Eprint + Net + RandomSource + Wait + AllocGlobal,
{
    let alloc = rt.alloc();
    let words = read_words(rt)?;
    let matches = command(alloc)?.try_get_matches_from(words.as_slice())?;
    *option = LogOption::of(&matches);
    let options = Options::of(&matches).map_err(Failure::Refused)?;
    if options.check {
        return check(rt, &options);
    }
    let is_read = is_read(rt, options.log.is_any());
    match Operators::new(rt, alloc, &options.admin) {
        Ok(operators) => {
            let logged = LoggingRuntime::new(rt, PROGRAM, options.log);
            let served = listen_and_serve(&logged, alloc, &options, operators, is_read);
            served.map_err(|error| Failure::at(rt, error, options.listen, is_read))
        }
        Err(error) => {
            let listen = options.admin.listen.unwrap_or("");
            Err(Failure::at(rt, error, listen, is_read))
        }
    }
}

/// Listens, reports how much memory it may take if its operator reads that, and serves.
fn listen_and_serve<R>(
    rt: &R,
    alloc: Global,
    options: &Options<'_>,
    operators: Operators,
    is_read: bool,
) -> Result<(), ServeError>
where
    R: Clock + Files + Print + EprintSeldom + Net + RandomSource + Wait + AllocGlobal,
{
    let listener = bind(rt, options.listen)?;
    if is_read {
        tell_memory(rt, &options.settings);
    }
    tell_open_files(rt, PROGRAM, other_files(operators.files()), MAX_CONNECTIONS);
    serve(
        rt,
        alloc,
        options.listen,
        listener,
        &options.settings,
        operators,
        &mut SystemSeconds::new(rt),
    )
}

/// Prints the settings.
fn check<R: Print>(rt: &R, options: &Options<'_>) -> Result<(), Failure> {
    let written = println!(rt; "{options}");
    written.map_err(|_| Failure::Output)
}
