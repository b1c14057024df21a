//! The command line of a proxy, and the pool that its words name.
ghost use Rattle.std.specs.Prelude.{◌≡◌, ◌⊎◌, ◌==◌, if◌then◌else◌, None, Some, Ok, OnOk, IfOk, IfErr, map};
ghost use Rattle.std.specs.Option.{option_map};
ghost use Rattle.mc_proxyd.specs.Lists.{list_error_at, list_error_by};
ghost use Rattle.mc_proxyd.specs.Mistakes.{join_mistake};
ghost use Rattle.mc_proxyd.specs.Servers.{address_of, name_of};
ghost use Rattle.mc_proxyd.specs.declared.options.ListError.TheVariants.{Memory};

use crate::lists::{Mistake, next_server, servers_in, text_of};
use crate::losses::{losses_named, lost};
use crate::servers::NamedServer;
use crate::settings::ProxySettings;
use crate::words::servers_of;
use clap::builder::ValueParser;
use clap::{Arg, ArgMatches, Command};
use mc_program::{
    AdminTerms, LogOption, Terms, VERSION, accept, admin, admin_name, flag, idle, listen, log,
    number, report, size, size_within,
};
use mc_ring::{Address, Ring, RingError};
use std::alloc::{AllocError, Global};
use std::fs::Files;
use thiserror::Error;

/// The most that `--held`, `--buffers` and `--answer` may be: 1 TiB.
const MOST_BYTES: u64 = 1_099_511_627_776;

/// The least that `--buffers` may be: 4 MiB.
const LEAST_BUFFERS: u64 = 4_194_304;

/// The least that `--answer` may be: 1 KiB.
const LEAST_ANSWER: u64 = 1024;

/// The program's name.
pub const PROGRAM: &str = "mc_proxyd";

/// What a command line asks for.
#[derive(Drop)]
pub struct Options<'a> {
    /// Where to listen: `<host>:<port>`.
    pub listen: &'a str,
    /// The servers.
    pub ring: Ring,
    /// The settings to serve with.
    pub settings: ProxySettings,
    /// The form of the lines on standard error.
    pub log: LogOption,
    /// Where operators are answered.
    pub admin: AdminTerms<'a>,
    /// Whether to print how many servers and points there are, and end.
    pub check: bool,
}

/// Where a list of servers has a mistake.
#[derive(Clone, Copy, Debug, PartialEq, Eq)]
pub enum ServerSource {
    /// In the file of `--servers`.
    File,
    /// In the words of the servers.
    Words,
    /// In the word of `--join`, which `--join-after` wants.
    Join,
}

/// Why the words name no pool.
#[derive(Clone, Copy, Debug, PartialEq, Eq, Error)]
pub enum ListError {
    /// 1: a word names no server, or servers make no ring. For a list of servers [`At`](ListError::At) says which word or line, and where.
    #[error("bad server list")]
    Bad,
    /// 2: no memory.
    #[error("out of memory")]
    Memory,
    /// 3: the word of `--held` is no number of bytes, or is outside its limits.
    #[error("bad number of bytes")]
    Held,
    /// 4: the list of servers, or the server of `--join`, has this mistake.
    #[error("{1}")]
    At(ServerSource, Mistake),
    /// 5: the word of `--buffers` is no number of bytes, or is outside its limits.
    #[error("bad number of bytes for all clients")]
    Buffers,
    /// 6: the word of `--answer` is no number of bytes, or is outside its limits.
    #[error("bad number of bytes of an answer")]
    Answer,
}

impl From<AllocError> for ListError {
    ghost from_gives = { λ _ e. e ≡ Memory };

    fn from(_e: AllocError) -> ListError {
        ListError::Memory
    }
}

impl From<RingError> for ListError {
    ghost from_gives = { λ error e. e ≡ list_error_by error };

    fn from(error: RingError) -> ListError {
        match error {
            RingError::Memory => ListError::Memory,
            RingError::NoServer | RingError::TooMany | RingError::Doubled | RingError::BadAddress =>
                { ListError::Bad }
        }
    }
}

impl<'a> Options<'a> {
    /// Returns what matches of [`command`] ask for. It reads the file that they name.
    pub fn of<R: Files>(
        rt: &R,
        alloc: Global,
        matches: &ArgMatches<'a>,
    ) -> Result<Options<'a>, ListError> {
        let listen = matches.get_str("listen").ok_or(ListError::Bad)?;
        let timeout = matches.get_one::<u64>("timeout").ok_or(ListError::Bad)?;
        let list = matches.get_str("servers");
        let servers = match list {
            Some(path) => listed(rt, alloc, path)?,
            None => named(alloc, matches.get_strs("server").unwrap_or(&[]))?,
        };
        let after = matches.get_one::<u64>("join-after").unwrap_or(0);
        let join = joining(alloc, servers.as_slice(), matches.get_str("join"), after)?;
        let held = size_of(matches, "held", 1).ok_or(ListError::Held)?;
        let buffers = size_of(matches, "buffers", LEAST_BUFFERS).ok_or(ListError::Buffers)?;
        let answer = size_of(matches, "answer", LEAST_ANSWER).ok_or(ListError::Answer)?;
        let list = owned(alloc, list)?;
        let (names, addresses) = unzipped(alloc, servers)?;
        let ring = Ring::new(alloc, names.as_slice())?;
        Ok(Options {
            listen,
            ring,
            settings: ProxySettings {
                terms: Terms::of(matches),
                losses: losses_named(matches.get_str("lost").unwrap_or("")),
                held,
                buffers,
                answer,
                timeout,
                addresses,
                list,
                join,
            },
            log: LogOption::of(matches),
            admin: AdminTerms::of(matches),
            check: matches.get_flag("check"),
        })
    }
}

/// Returns the bytes that the word of an option names, if they are from `least` to [`MOST_BYTES`].
fn size_of(matches: &ArgMatches<'_>, name: &str, least: u64) -> Option<u64> {
    size_within(matches.get_str(name).unwrap_or(""), least, MOST_BYTES)
}

/// Returns the servers that a file lists. The error is its mistake.
fn listed<R: Files>(rt: &R, alloc: Global, path: &str) -> Result<Vec<NamedServer>, ListError> {
    let servers = match text_of(rt, alloc, path) {
        Ok(text) => servers_in(alloc, text.as_str()),
        Err(mistake) => Err(mistake),
    };
    match servers {
        Ok(servers) => Ok(servers),
        Err(mistake) => Err(list_error_at(ServerSource::File, mistake)),
    }
}

/// Returns the servers of words. The error is their mistake.
fn named(alloc: Global, words: &[&str]) -> Result<Vec<NamedServer>, ListError> {
    match servers_of(alloc, words) {
        Ok(servers) => Ok(servers),
        Err(mistake) => Err(list_error_at(ServerSource::Words, mistake)),
    }
}

/// Returns the error of a mistake at a place, for the caller that asks for a pool.
fn list_error_at(place: ServerSource, mistake: Mistake) -> ListError
    ensures { result ≡ list_error_at place mistake }
{
    match mistake {
        Mistake::Memory => ListError::Memory,
        _ => ListError::At(place, mistake),
    }
}

/// Parts the names of servers from their addresses.
fn unzipped(
    alloc: Global,
    servers: Vec<NamedServer>,
) -> Result<(Vec<Address>, Vec<Address>), AllocError> {
    let mut names = Vec::with_capacity(alloc, servers.len())?;
    let mut addresses = Vec::with_capacity(alloc, servers.len())?;
    for NamedServer { name, address } in servers {
        names.push(name)?;
        addresses.push(address)?;
    }
    Ok((names, addresses))
}

/// Copies a text, if there is one.
fn owned(alloc: Global, text: Option<&str>) -> Result<Option<String>, AllocError> {
    match text {
        Some(text) => Ok(Some(text.to_string(alloc)?)),
        None => Ok(None),
    }
}

/// Returns which server joins, and with which client: none if the client's number is 0, and else the server of the word. The error is the mistake
/// of the word, or that there is no word.
fn joining(
    alloc: Global,
    servers: &[NamedServer],
    join: Option<&str>,
    after: u64,
) -> Result<Option<(NamedServer, u64)>, ListError>
    ensures nobody { after ≡ 0 → result ≡ Ok None }
    ensures after { IfOk result (λ joins. option_map (λ joins. joins.1) joins ≡ (if after == 0 then None else Some after)) }
    ensures name { IfOk result (λ joins. option_map (λ joins. joins.0.name) joins
        ≡ (if after == 0 then None else option_map (λ word. name_of word.now) join.entry)) }
    ensures address { IfOk result (λ joins. option_map (λ joins. joins.0.address) joins
        ≡ (if after == 0 then None else option_map (λ word. address_of word.now) join.entry)) }
    ensures right { OnOk result ((after ≡ 0) ⊎ (join_mistake (map (λ server. server.name) servers.now) join.entry ≡ None)) }
    ensures mistake { IfErr result (λ error. (error ≡ ListError.Memory)
        ⊎ (option_map (λ mistake. list_error_at ServerSource.Join mistake) (join_mistake (map (λ server. server.name) servers.now) join.entry) ≡ Some error)) }
{
    if after == 0 {
        return Ok(None);
    }
    match joiner(alloc, servers, join) {
        Ok(server) => Ok(Some((server, after))),
        Err(mistake) => Err(list_error_at(ServerSource::Join, mistake)),
    }
}

/// Returns the server of the word of `--join`, which joins the present servers, if there is a word.
fn joiner(
    alloc: Global,
    servers: &[NamedServer],
    join: Option<&str>,
) -> Result<NamedServer, Mistake>
    ensures name { IfOk result (λ server. option_map (λ word. name_of word.now) join.entry ≡ Some server.name) }
    ensures address { IfOk result (λ server. option_map (λ word. address_of word.now) join.entry ≡ Some server.address) }
    ensures right { OnOk result (join_mistake (map (λ server. server.name) servers.now) join.entry ≡ None) }
    ensures mistake { IfErr result (λ mistake. (mistake ≡ Mistake.Memory)
        ⊎ (join_mistake (map (λ server. server.name) servers.now) join.entry ≡ Some mistake)) }
{
    let word = join.ok_or(Mistake::NoneAtAll)?;
    next_server(alloc, servers, word, servers.len() as u64 + 1)
}

/// Returns the command of a proxy program, with the meaning, the default and the limits of each option.
pub fn command<'a>(alloc: Global) -> Result<Command<'a>, AllocError> {
    Command::new(alloc, PROGRAM)
        .version(VERSION)
        .about("A memcached proxy: spreads keys over servers by libketama's ring")
        .arg(listen(alloc, "127.0.0.1:11212"))?
        .arg(buffers(alloc))?
        .arg(held(alloc))?
        .arg(answer(alloc))?
        .arg(timeout(alloc))?
        .arg(lost(alloc))?
        .arg(idle(alloc))?
        .arg(report(alloc))?
        .arg(admin(alloc))?
        .arg(admin_name(alloc))?
        .arg(accept(
            alloc,
            "End once that many clients were accepted and all are gone; 0 for never",
        ))?
        .arg(servers(alloc)?)?
        .arg(join(alloc))?
        .arg(number(
            alloc,
            "join-after",
            "n",
            "With which accepted client the server of --join joins; 0 for none",
        ))?
        .arg(log(
            alloc,
            "Say on standard error, as at a terminal or for the journal, why it cannot listen; each line with its time in UTC, or as a JSON object",
        ))?
        .arg(flag(
            alloc,
            "check",
            "Print how many servers and points there are and end, without listening",
        ))?
        .arg(server(alloc)?)
}

fn buffers<'a>(alloc: Global) -> Arg<'a> {
    size(
        alloc,
        "buffers",
        "268435456",
        "The most bytes of requests, replies and answers that are kept for all clients; 4194304 to 1099511627776, or with K, M or G",
    )
}

fn held<'a>(alloc: Global) -> Arg<'a> {
    size(
        alloc,
        "held",
        "268435456",
        "Stop reading a client with pending answers for which more bytes of requests, replies and answers are kept, until it is fewer; 1 to 1099511627776, or with K, M or G",
    )
}

fn answer<'a>(alloc: Global) -> Arg<'a> {
    size(
        alloc,
        "answer",
        "268435456",
        "The most bytes of an answer, and no more than half of --buffers: a request whose replies are more closes its connection; 1024 to 1099511627776, or with K, M or G",
    )
}

fn timeout<'a>(alloc: Global) -> Arg<'a> {
    Arg::new(alloc, "timeout")
        .long("timeout")
        .value_name("milliseconds")
        .value_parser(ValueParser::unsigned(0, u64::MAX))
        .default_value("1000")
        .help(
            "Give up the connection to a server whose next reply takes that long, or any reply four times as long; 0 for never",
        )
}

fn join<'a>(alloc: Global) -> Arg<'a> {
    Arg::new(alloc, "join")
        .long("join")
        .value_name("host:port")
        .help("A server that joins while the proxy runs: see --join-after")
}

fn servers<'a>(alloc: Global) -> Result<Arg<'a>, AllocError> {
    Arg::new(alloc, "servers")
        .long("servers")
        .value_name("file")
        .help(
            "A file with the servers, one a line, in place of words; what is appended to it joins while the proxy runs",
        )
        .conflicts_with("server")?
        .conflicts_with("join")
}

fn server<'a>(alloc: Global) -> Result<Arg<'a>, AllocError> {
    Arg::new(alloc, "server")
        .value_name("server")
        .num_args(1..)
        .help(
            "The servers, 1 to 64, each [<name>:<port>=]<host>:<port>; keys are spread by the names, without one by the address",
        )
        .required_unless_present("servers")
}
