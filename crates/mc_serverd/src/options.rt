//! The command line of a server.

use crate::cas_from::{CasFrom, cas_from_named};
use crate::items::{items_for, items_named};
use crate::kinds::{KINDS, StoreKind, kind_named};
use crate::settings::{Service, Settings, USUAL_ANSWER, USUAL_BUFFERS, USUAL_RESERVE};
use clap::builder::ValueParser;
use clap::{Arg, ArgMatches, Command};
use mc_cache::MAX_BUDGET;
use mc_program::{
    AdminTerms, LogOption, Terms, VERSION, accept, admin, admin_name, flag, idle, listen, log,
    number, report, size, size_within,
};
use std::alloc::{AllocError, Global};
use std::fmt;
use std::fmt::{Display, Formatter};

/// The smallest limit of an answer: the bound for a request without a value.
const LEAST_ANSWER: u64 = 1024;

/// Why a word of `--budget` is refused.
const BAD_BUDGET: &str =
    "invalid value for '--budget <bytes>': neither in 1..=1099511627776 nor a number of K, M or G up to 1024G";

/// Why a word of `--items` is refused.
const BAD_ITEMS: &str = "invalid value for '--items <n>': neither auto nor in 1..=16777216";

/// Why a word of `--cas-from` is refused.
const BAD_CAS_FROM: &str =
    "invalid value for '--cas-from <n>': neither now nor in 0..=9223372036854775807";

/// Why a word of `--answer` is refused.
const BAD_ANSWER: &str =
    "invalid value for '--answer <bytes>': neither in 1024..=1099511627776 nor a number of K, M or G up to 1024G";

/// The fewest bytes that may be kept for clients.
const LEAST_BUFFERS: u64 = 4_194_304;

/// Why a word of `--buffers` is refused.
const BAD_BUFFERS: &str =
    "invalid value for '--buffers <bytes>': neither in 4194304..=1099511627776 nor a number of K, M or G from 4M to 1024G";

/// The most bytes that may be kept in reserve.
const MAX_RESERVE: u64 = 1_073_741_824;

/// Why a word of `--reserve` is refused.
const BAD_RESERVE: &str =
    "invalid value for '--reserve <bytes>': neither in 0..=1073741824 nor a number of K, M or G up to 1G";

/// The program's name.
pub const PROGRAM: &str = "mc_serverd";

/// What a command line asks for.
#[derive(Clone, Copy, Debug)]
pub struct Options<'a> {
    /// The address to listen at: `<host>:<port>`.
    pub listen: &'a str,
    /// What to serve with.
    pub settings: Settings,
    /// The form of the log lines on standard error.
    pub log: LogOption,
    /// The settings of the operators' port.
    pub admin: AdminTerms<'a>,
    /// Whether to print the settings and end.
    pub check: bool,
}

impl<'a> Options<'a> {
    /// Reads the matches of [`command`]. An error says which word is refused, and why: of `--budget`, `--items`, `--cas-from`,
    /// `--answer`, `--buffers`, `--reserve` or `--admin-name`. The command refuses the others.
    pub fn of(matches: &ArgMatches<'a>) -> Result<Options<'a>, &'static str> {
        let budget = size_of(matches, "budget", 1).ok_or(BAD_BUDGET)?;
        let items = items_named(word_of(matches, "items")).ok_or(BAD_ITEMS)?;
        let cas_from = word_of(matches, "cas-from");
        let cas_from = cas_from_named(cas_from).ok_or(BAD_CAS_FROM)?;
        let answer = size_of(matches, "answer", LEAST_ANSWER).ok_or(BAD_ANSWER)?;
        let buffers = size_of(matches, "buffers", LEAST_BUFFERS).ok_or(BAD_BUFFERS)?;
        let reserve = size_within(word_of(matches, "reserve"), 0, MAX_RESERVE).ok_or(BAD_RESERVE)?;
        let kind = kind_named(word_of(matches, "store"));
        let service = Service {
            terms: Terms::of(matches),
            answer: answer as usize,
            buffers,
            memory_exit: matches.get_one::<u64>("memory-exit").unwrap_or(0),
            reserve: reserve as usize,
        };
        let settings = Settings::new(budget, items_for(items, budget), kind, cas_from, service);
        let admin = AdminTerms::of(matches);
        admin.check()?;
        Ok(Options {
            listen: word_of(matches, "listen"),
            settings: settings.ok_or(BAD_BUDGET)?,
            log: LogOption::of(matches),
            admin,
            check: matches.get_flag("check"),
        })
    }
}

/// Returns the word of an option; empty if there is none.
fn word_of<'a>(matches: &ArgMatches<'a>, name: &str) -> &'a str {
    matches.get_str(name).unwrap_or("")
}

/// Returns the bytes that the word of an option names, if they are from `least` to [`MAX_BUDGET`].
fn size_of(matches: &ArgMatches<'_>, name: &str, least: u64) -> Option<u64> {
    size_within(word_of(matches, name), least, MAX_BUDGET)
}

/// Prints the address and the settings: four of them always, and of the others those that are not at their defaults.
impl Display for Options<'_> {
    fn fmt<W: fmt::Write>(&self, f: &mut Formatter<W>) -> fmt::Result {
        let Settings {
            budget,
            items,
            kind,
            cas_from,
            service,
        } = self.settings;
        let accept = service.terms.accept;
        let listen = self.listen;
        write!(
            f,
            "listen {listen} budget {budget} items {items} accept {accept}"
        )?;
        if kind == StoreKind::Lru {
            f.write_str(" store lru")?;
        }
        if cas_from != CasFrom::Last(0) {
            write!(f, " cas-from {cas_from}")?;
        }
        write_service(service, f)?;
        write!(f, "{}{}", self.log, self.admin)
    }
}

/// Writes how clients are served, except the settings at their defaults.
fn write_service<W: fmt::Write>(service: Service, f: &mut Formatter<W>) -> fmt::Result {
    let Terms { idle, report, .. } = service.terms;
    if service.answer != USUAL_ANSWER {
        write!(f, " answer {}", service.answer)?;
    }
    if service.buffers != USUAL_BUFFERS {
        write!(f, " buffers {}", service.buffers)?;
    }
    if idle > 0 {
        write!(f, " idle {idle}")?;
    }
    if report > 0 {
        write!(f, " report {report}")?;
    }
    if service.memory_exit > 0 {
        write!(f, " memory-exit {}", service.memory_exit)?;
    }
    if service.reserve != USUAL_RESERVE {
        write!(f, " reserve {}", service.reserve)?;
    }
    Ok(())
}

/// Returns the command of a server program, with the meaning, the default and the limits of each option.
pub fn command<'a>(alloc: Global) -> Result<Command<'a>, AllocError> {
    Command::new(alloc, PROGRAM)
        .version(VERSION)
        .about("A memcached server: a cache that is proved, for clients of the text protocol")
        .arg(listen(alloc, "127.0.0.1:11211"))?
        .arg(budget(alloc))?
        .arg(items(alloc))?
        .arg(store(alloc))?
        .arg(cas_from(alloc))?
        .arg(answer(alloc))?
        .arg(buffers(alloc))?
        .arg(idle(alloc))?
        .arg(report(alloc))?
        .arg(memory_exit(alloc))?
        .arg(reserve(alloc))?
        .arg(admin(alloc))?
        .arg(admin_name(alloc))?
        .arg(accept(
            alloc,
            "End once that many connections were accepted and all are closed; 0 for never",
        ))?
        .arg(log(
            alloc,
            "Say on standard error, as at a terminal or for the journal, why it cannot listen, and how much memory it may take; each line with its time in UTC, or as a JSON object",
        ))?
        .arg(flag(
            alloc,
            "check",
            "Print the settings and end, without listening",
        ))
}

fn budget<'a>(alloc: Global) -> Arg<'a> {
    size(
        alloc,
        "budget",
        "67108864",
        "What the items may cost in all, an item its key's and its value's bytes and 64: 1 to 1099511627776, or with K, M or G, as 2G",
    )
}

fn items<'a>(alloc: Global) -> Arg<'a> {
    Arg::new(alloc, "items")
        .long("items")
        .value_name("n")
        .default_value("65536")
        .help(
            "The most items: 1 to 16777216, or auto: one for each 120 bytes of --budget, from 65536 on. Their table is reserved at the start",
        )
}

fn store<'a>(alloc: Global) -> Arg<'a> {
    Arg::new(alloc, "store")
        .long("store")
        .value_name("kind")
        .value_parser(ValueParser::Names(&KINDS))
        .default_value("table")
        .help(
            "What items are kept in: a table of the server's own, or the crate lru's cache with the standard library's hasher",
        )
}

fn cas_from<'a>(alloc: Global) -> Arg<'a> {
    Arg::new(alloc, "cas-from")
        .long("cas-from")
        .value_name("n")
        .default_value("0")
        .help(
            "Give items cas numbers above this one, 0 to 9223372036854775807; or now: above those of any start before, by the clock",
        )
}

fn memory_exit<'a>(alloc: Global) -> Arg<'a> {
    number(
        alloc,
        "memory-exit",
        "seconds",
        "End with status 4 once clients were closed for want of memory for that long, with no pause of more than 2 seconds and no item stored; 0 for never",
    )
}

fn answer<'a>(alloc: Global) -> Arg<'a> {
    size(
        alloc,
        "answer",
        "268435456",
        "The most bytes of an answer: a request whose answer may have more closes its connection; 1024 to 1099511627776, or with K, M or G, and no more than --buffers less 2M",
    )
}

fn buffers<'a>(alloc: Global) -> Arg<'a> {
    size(
        alloc,
        "buffers",
        "268435456",
        "What may be kept for all clients together, beside 16K for each: unread requests and unsent answers. A client that needs more waits, and one that keeps much and makes no progress is closed; 4194304 to 1099511627776, or with K, M or G",
    )
}

fn reserve<'a>(alloc: Global) -> Arg<'a> {
    size(
        alloc,
        "reserve",
        "4194304",
        "Memory that is kept to serve clients with when the system gives none: 0 to 1073741824 bytes, or with K, M or G",
    )
}
