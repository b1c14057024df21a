//! A memcached proxy on a TCP socket.
//!
//! The exit status is 0 after `--check`, or after serving the number of clients of `--accept`. Otherwise it is that of [`mc_program`]: a list of
//! servers that is no ring is refused like any other word. The program reads the words first, then the list, then it obeys `--check`, then it listens.
//!
//! # How it serves
//!
//! Clients and servers connect by sockets, over one [`mc_proxy::Proxy`].
//!
//! [`serve`] serves the clients that a listener accepts, and keeps a connection to each server of the ring, if the server can be reached. Each server
//! is tried once before the first client is accepted, and again and again while it is down, with backoff. No client waits for a connection, nor for a
//! look-up of a host: look-ups have threads of their own. Once a connection is established, its server is asked for its version, and its link is up
//! once it has answered: the system accepts connections even for a stopped process. A connection that is given up is reset. [`ProxySettings`] says
//! when serving ends, how long a command may wait for its reply, when an idle client is closed, and how often the proxy reports its work. It also
//! says where the servers are, which one joins and which file lists them. A server that is appended to that file joins, and a new address behind a
//! name replaces the old one. The number of clients is limited so that each server has a descriptor ([`files_of`]). The pumps are
//! [`mc_proxy_pump::pump_client`] and [`mc_proxy_pump::pump_link`], which have the law of a client's stream and of a server's. [`command`] and
//! [`Options`] are the command line of [`PROGRAM`], and a [`NamedServer`] is what a word of it names. [`tell_mistake`] reports which word, or which
//! line of the file, names none.
//!
//! The answer to a request whose command is lost is a choice of [`ProxySettings`] too, the same for all clients.
//!
//! On standard error it reports changes of its servers by lines `mc_proxyd: <server> <what>`. A line is printed if it differs from the last one about
//! the server, and at most one a second for each. The line of a new address is printed at once, beside these. A server that is reachable from the
//! start gets no line. A lost server is back once it answers.
//!
//! [`serve`] blocks on its sockets, possibly for ever; it and [`Options::of`] block on the file of servers. No contract says what a socket or a file
//! carries, what a look-up finds, or that a thread begins.
#![tactic(auto)]

mod changes;
mod delays;
mod figures;
mod handlers;
mod holds;
mod joining;
mod limits;
mod listings;
mod lists;
mod looks;
mod lookups;
mod losses;
mod mistakes;
mod notices;
mod options;
mod pools;
mod probes;
mod proxy_loops;
mod questions;
mod refusals;
mod resolving;
mod rooms;
mod servers;
mod serving;
mod settings;
mod turns;
mod upstreams;
mod waits;
mod woken;
mod words;

ghost use Rattle.std.specs.Prelude.{◌≡◌};
ghost use Rattle.mc_program.specs.Statuses.{status_of};

use clap::ArgMatches;
use lists::Mistake;
use mc_net::{Operators, bind};
use mc_program::{
    EprintSeldom, Failure, LogOption, LoggingRuntime, ServeError, exit_status, is_read,
    open_streams, read_words, tell_open_files,
};
use mc_proxy::MAX_SESSIONS;
use mc_ring::Ring;
use mistakes::tell_mistake;
use options::{ListError, Options, PROGRAM, ServerSource, command};
use rooms::files_of;
use serving::serve;
use settings::ProxySettings;
use std::alloc::Global;
use std::fs::Files;
use std::net::{Net, TcpListener, TcpStream};
use std::process::ExitCode;
use std::random::RandomSource;
use std::rt::{Clock, Env};
use std::sync::Wait;
use std::thread::Threads;

fn main(rt: HostRuntime) -> ExitCode {
    open_streams(&rt);
    let mut option = LogOption::Nothing;
    let served = run(&rt, &mut option);
    if let Err(failure) = &served {
        failure.tell(&LoggingRuntime::new(&rt, PROGRAM, option), PROGRAM);
    }
    ExitCode::from(exit_status(&served))
}

/// Reads the words and the form of log lines they ask for, and obeys them.
fn run<R>(rt: &R, option: &mut LogOption) -> Result<(), Failure>
where
    R: Net<Listener = TcpListener, Stream = TcpStream>,
    R: Env + Clock + Files + Print + Eprint + RandomSource + Wait + Threads + AllocGlobal,
    R: Copy + Send + 'static,
{
    let alloc = rt.alloc();
    let words = read_words(rt)?;
    let matches = command(alloc)?.try_get_matches_from(words.as_slice())?;
    *option = LogOption::of(&matches);
    let logged = LoggingRuntime::new(rt, PROGRAM, *option);
    match Options::of(rt, alloc, &matches) {
        Ok(options) => obey(rt, &logged, alloc, options),
        Err(error) => Err(refusal_of(&logged, &matches, error)),
    }
}

/// Prints how large the ring is, or serves by `rt`. Names are looked up in threads of `system`.
fn obey<S, R>(system: &S, rt: &R, alloc: Global, options: Options<'_>) -> Result<(), Failure>
where
    S: Net<Listener = TcpListener, Stream = TcpStream>,
    S: Env + Print + Wait + Threads + AllocGlobal + Copy + Send + 'static,
    R: Clock + Files + Print + EprintSeldom + Net + RandomSource + Wait,
{
    let Options {
        listen,
        ring,
        settings,
        log,
        admin,
        check,
    } = options;
    admin.check().map_err(Failure::Refused)?;
    if check {
        return print_size(system, &ring, &settings);
    }
    let is_read = is_read(system, log.is_any());
    match Operators::new(system, alloc, &admin) {
        Ok(operators) => {
            let served = listen_and_serve(system, rt, alloc, listen, &settings, operators, ring);
            served.map_err(|error| Failure::at(system, error, listen, is_read))
        }
        Err(error) => {
            let listen = admin.listen.unwrap_or("");
            Err(Failure::at(system, error, listen, is_read))
        }
    }
}

/// Listens, and serves by `rt`. Names are looked up in threads of `system`.
fn listen_and_serve<S, R>(
    system: &S,
    rt: &R,
    alloc: Global,
    listen: &str,
    settings: &ProxySettings,
    operators: Operators,
    ring: Ring,
) -> Result<(), ServeError>
where
    S: Net<Listener = TcpListener, Stream = TcpStream>,
    S: Threads + Wait + Copy + Send + 'static,
    R: Clock + Files + Print + EprintSeldom + Net + RandomSource + Wait,
{
    let listener = bind(rt, listen)?;
    let others = files_of(&ring, settings, &operators);
    tell_open_files(rt, PROGRAM, others, MAX_SESSIONS);
    serve(
        system, rt, alloc, listen, listener, settings, operators, ring,
    )
}

/// Why a word of `--buffers` is refused.
const BAD_BUFFERS: &str =
    "invalid value for '--buffers <bytes>': neither in 4194304..=1099511627776 nor a number of K, M or G from 4M to 1024G";

/// Why a word of `--answer` is refused.
const BAD_ANSWER: &str =
    "invalid value for '--answer <bytes>': neither in 1024..=1099511627776 nor a number of K, M or G up to 1024G";

/// Why a word of `--held` is refused.
const BAD_HELD: &str =
    "invalid value for '--held <bytes>': neither in 1..=1099511627776 nor a number of K, M or G up to 1024G";

/// Returns how the program ends if the words, or the file that they name, name no pool. The mistake of a list is printed too.
fn refusal_of<R: Eprint>(rt: &R, matches: &ArgMatches<'_>, error: ListError) -> Failure {
    if let ListError::At(place, mistake) = error {
        tell_mistake(rt, matches, place, mistake);
    }
    failure_of(error)
}

/// Returns how the program ends if the words name no pool.
fn failure_of(error: ListError) -> Failure
    ensures bad { error ≡ ListError.Bad → status_of result ≡ 2 }
    ensures mistake { (place : ServerSource) → (mistake : Mistake) → error ≡ ListError.At place mistake → status_of result ≡ 2 }
    ensures held { error ≡ ListError.Held → status_of result ≡ 2 }
    ensures buffers { error ≡ ListError.Buffers → status_of result ≡ 2 }
    ensures answer { error ≡ ListError.Answer → status_of result ≡ 2 }
    ensures memory { error ≡ ListError.Memory → result ≡ Failure.Serve ServeError.Memory }
{
    match error {
        ListError::Bad | ListError::At(_, _) => Failure::Refused("bad server list"),
        ListError::Held => Failure::Refused(BAD_HELD),
        ListError::Buffers => Failure::Refused(BAD_BUFFERS),
        ListError::Answer => Failure::Refused(BAD_ANSWER),
        ListError::Memory => Failure::Serve(ServeError::Memory),
    }
}

/// Prints how many servers and points a ring has, and those of the settings that are not at their defaults.
fn print_size<R: Print>(rt: &R, ring: &Ring, settings: &ProxySettings) -> Result<(), Failure> {
    let servers = ring.servers().len();
    let points = ring.points().len();
    let written = println!(rt; "servers {servers} points {points}{settings}");
    written.map_err(|_| Failure::Output)
}
