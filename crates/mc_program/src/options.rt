//! Options that programs on sockets share.

use clap::builder::ValueParser;
use clap::{Arg, ArgAction};
use std::alloc::Global;

/// Makes the option that says where to listen, and where without it.
pub fn listen<'a>(alloc: Global, usual: &'a str) -> Arg<'a> {
    Arg::new(alloc, "listen")
        .long("listen")
        .value_name("host:port")
        .default_value(usual)
        .help("Where to listen: a host's name or IPv4 address, and a port from 1 to 65535")
}

/// Makes the option that says when an idle client is closed.
pub fn idle<'a>(alloc: Global) -> Arg<'a> {
    number(
        alloc,
        "idle",
        "seconds",
        "Close a client that has sent nothing for that long, and has no pending answer; 0 for never",
    )
}

/// Makes the option that says how often a program reports what it has done.
pub fn report<'a>(alloc: Global) -> Arg<'a> {
    number(
        alloc,
        "report",
        "seconds",
        "Report on standard error what was done, each time that many seconds have passed; 0 for never",
    )
}

/// Makes the option that says after how many clients a program ends.
pub fn accept<'a>(alloc: Global, help: &'a str) -> Arg<'a> {
    number(alloc, "accept", "n", help)
}

/// The words of the option of lines.
const LOGS: [&str; 2] = ["text", "json"];

/// Makes the option for the form of a program's lines: `--log`, `--log=text` or `--log=json`.
pub fn log<'a>(alloc: Global, help: &'a str) -> Arg<'a> {
    Arg::new(alloc, "log")
        .long("log")
        .value_name("form")
        .value_parser(ValueParser::Names(&LOGS))
        .num_args(0..=1)
        .require_equals(true)
        .default_missing_value("text")
        .help(help)
}

/// Makes an option without a value.
pub fn flag<'a>(alloc: Global, name: &'a str, help: &'a str) -> Arg<'a> {
    Arg::new(alloc, name)
        .long(name)
        .action(ArgAction::SetTrue)
        .help(help)
}

/// Makes an option whose value is any number of 64 bits, and 0 without it.
pub fn number<'a>(alloc: Global, name: &'a str, unit: &'a str, help: &'a str) -> Arg<'a> {
    Arg::new(alloc, name)
        .long(name)
        .value_name(unit)
        .value_parser(ValueParser::unsigned(0, u64::MAX))
        .default_value("0")
        .help(help)
}

/// Makes an option whose value is a number of bytes, as [`size_within`](crate::size_within) parses it.
pub fn size<'a>(alloc: Global, name: &'a str, usual: &'a str, help: &'a str) -> Arg<'a> {
    Arg::new(alloc, name)
        .long(name)
        .value_name("bytes")
        .default_value(usual)
        .help(help)
}
