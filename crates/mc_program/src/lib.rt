//! What all programs on sockets share: their options, their lines on standard error, and their exit status.
//!
//! [`listen`], [`idle`], [`report`] and [`accept`] are options that such programs share, and [`number`], [`size`] and [`flag`] make others.
//! [`size_within`] parses a number of bytes. [`Terms`] are what the words say of all clients, [`AdminTerms`] what they say of operators ([`admin`],
//! [`admin_name`]), and [`VERSION`] is what `--version` prints. [`ServeError`] is why a program cannot serve, and [`ListenError`] why it cannot
//! listen. [`is_read`] returns whether an operator reads standard error. [`LoggingRuntime`] is a runtime whose lines on standard error have the [`Form`]
//! that the words ask for ([`log`], [`LogOption`]); by [`EprintSeldom`] a line says how many like it were suppressed. [`open_streams`] opens
//! `/dev/null` for standard input, output and error, if they are closed at the start.
//!
//! The exit status is 0 if the program ended without a failure, or the words ask for the version. It is 1 if standard output cannot be written, and
//! 2 if the words are refused, or ask for help. It is 3 if the program cannot listen. It is 4 if there was no memory to start with, or none for as
//! long as the words say. Standard error says why.
//!
//! # Lines for operators
//!
//! [`open_files`] asks the system how many files and sockets may be open at a time, and [`served`] returns how many connections that leaves.
//! [`tell_open_files`] prints a line for the operator if these may be too few. A [`Ticker`] says when something is due that is done once in a number
//! of seconds. An [`OncePerSecond`] limits lines to one a second, and counts those that it suppresses. [`earlier`] is the earlier of two moments, either of
//! which may be missing. None of these allocates or knows a socket, and only [`tell_open_files`] may block, on standard error.
#![tactic(auto)]

mod admins;
mod descriptors;
mod errors;
mod failures;
mod forwards;
mod logs;
mod operators;
mod options;
mod sizes;
mod sockets;
mod streams;
mod terms;
mod tickers;
mod version;
mod words;

pub use admins::{AdminTerms, admin, admin_name};
pub use descriptors::{OWN_FILES, open_files, served, tell_open_files};
pub use errors::{ListenError, ServeError};
pub use failures::{Failure, exit_status};
pub use logs::{EprintSeldom, Form, LogOption, LoggingRuntime, Spelling, form_by, spelling_of};
pub use operators::is_read;
pub use options::{accept, flag, idle, listen, log, number, report, size};
pub use sizes::size_within;
pub use sockets::SocketError;
pub use streams::open_streams;
pub use terms::Terms;
pub use tickers::{OncePerSecond, Said, Ticker, earlier};
pub use version::VERSION;
pub use words::read_words;
