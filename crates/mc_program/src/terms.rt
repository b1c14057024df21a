//! The terms on which clients are served.

use clap::ArgMatches;

/// The terms on which clients are served.
#[derive(Clone, Copy, Debug)]
pub struct Terms {
    /// After how many clients the program ends, once all of them are gone; 0 for never.
    pub accept: u64,
    /// The seconds after which a client is closed that has sent nothing and has no pending answer; 0 for never.
    pub idle: u64,
    /// The seconds between two reports of what the program has done; 0 for never.
    pub report: u64,
}

impl Terms {
    /// Returns the terms that words ask for: 0 for those that are not given.
    pub fn of(matches: &ArgMatches<'_>) -> Terms {
        Terms {
            accept: matches.get_one::<u64>("accept").unwrap_or(0),
            idle: matches.get_one::<u64>("idle").unwrap_or(0),
            report: matches.get_one::<u64>("report").unwrap_or(0),
        }
    }
}
