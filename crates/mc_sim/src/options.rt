//! The command line of the program.
ghost use Rattle.std.specs.Prelude.{◌≡◌, if◌then◌else◌};

use crate::kinds::{KINDS, StoreKind, kind_named};
use crate::texts::Printed;
use clap::builder::ValueParser;
use clap::{Arg, ArgMatches, Command};
use mc_program::{VERSION, flag};
use std::alloc::{AllocError, Global};

/// What a command line asks for.
#[derive(Clone, Copy, Debug)]
pub struct Options {
    /// The kind of store that servers keep their items in.
    pub kind: StoreKind,
    /// What to print.
    pub printed: Printed,
    /// Whether to report what each line does.
    pub trace: bool,
}

impl Options {
    /// The options in the matches of [`command`].
    pub fn of(matches: &ArgMatches<'_>) -> Options {
        Options {
            kind: kind_named(matches.get_str("store").unwrap_or("lru")),
            printed: printed_by(matches.get_flag("account")),
            trace: matches.get_flag("trace"),
        }
    }
}

/// What to print, by whether the account is asked for.
fn printed_by(account: bool) -> Printed
    ensures { result ≡ (if account then Printed.Account else Printed.Outputs) }
{
    if account {
        Printed::Account
    } else {
        Printed::Outputs
    }
}

/// The command of the program, with the meaning of each option.
pub fn command<'a>(alloc: Global) -> Result<Command<'a>, AllocError> {
    Command::new(alloc, "mc_sim")
        .version(VERSION)
        .about(
            "Plays a script on standard input, of a memcached server or of a pool, and prints what its clients are sent",
        )
        .after_help(
            "The line 'drain <moment>' of a pool's script does all that is left to do, at that second. The line 'restart <server>' lets a server begin anew with nothing, and 'proxyrestart <proxy>' a proxy without its clients. With several proxies an event names a link by '<proxy>:<server>'. The line 'losses missed', before its first event, makes a lost get a miss",
        )
        .arg(
            Arg::new(alloc, "store")
                .long("store")
                .value_name("kind")
                .value_parser(ValueParser::Names(&KINDS))
                .default_value("lru")
                .help("What servers keep their items in; what is printed does not depend on it"),
        )?
        .arg(flag(
            alloc,
            "account",
            "Of a pool, print then what each event did, what each client sent, and what each server took",
        ))?
        .arg(flag(
            alloc,
            "trace",
            "Of a pool, say on standard error what each line did",
        ))
}
