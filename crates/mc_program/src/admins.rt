//! Where operators are answered.
ghost use Rattle.std.specs.Prelude.{◌≡◌, is_ok};
ghost use Rattle.mc_program.specs.Admins.{is_name};

use clap::builder::ValueParser;
use clap::{Arg, ArgMatches};
use mc_text::is_host;
use std::alloc::Global;
use std::fmt;
use std::fmt::{Display, Formatter};

/// The terms on which operators are answered.
#[derive(Clone, Copy, Debug)]
pub struct AdminTerms<'a> {
    /// The host and port at which they are answered, `<host>:<port>`; nowhere without one.
    pub listen: Option<&'a str>,
    /// Another name by which a request of HTTP may call the program; empty for none.
    pub name: &'a str,
}

/// Why a word of `--admin-name` is refused.
const BAD_NAME: &str =
    "invalid value for '--admin-name <host>': not 1 to 255 letters, digits, dots and hyphens";

impl<'a> AdminTerms<'a> {
    /// Returns the terms that words ask for.
    pub fn of(matches: &ArgMatches<'a>) -> AdminTerms<'a> {
        AdminTerms {
            listen: matches.get_str("admin"),
            name: matches.get_str("admin-name").unwrap_or(""),
        }
    }

    /// Checks the terms. The error says why the words are refused: the other name is given, and is no host.
    pub fn check(&self) -> Result<(), &'static str>
        ensures { is_ok result ≡ is_name self.now.name.now }
    {
        if is_name(self.name.as_bytes()) {
            Ok(())
        } else {
            Err(BAD_NAME)
        }
    }
}

/// Returns whether a word is empty, or a host.
fn is_name(word: &[u8]) -> bool
    ensures { result ≡ is_name word.now }
{
    word.is_empty() || is_host(word)
}

/// Prints the terms that are not at their default, behind other settings.
impl Display for AdminTerms<'_> {
    fn fmt<W: fmt::Write>(&self, f: &mut Formatter<W>) -> fmt::Result {
        if let Some(listen) = self.listen {
            write!(f, " admin {listen}")?;
        }
        if !self.name.is_empty() {
            write!(f, " admin-name {}", self.name)?;
        }
        Ok(())
    }
}

/// Makes the option that says where operators are answered.
pub fn admin<'a>(alloc: Global) -> Arg<'a> {
    Arg::new(alloc, "admin")
        .long("admin")
        .value_name("host:port")
        .help(
            "Where operators are answered: /metrics and /healthz over HTTP, and lines as stats; without it nowhere",
        )
}

/// Makes the option that says by which name beside its address the listener of operators may be called.
pub fn admin_name<'a>(alloc: Global) -> Arg<'a> {
    Arg::new(alloc, "admin-name")
        .long("admin-name")
        .value_name("host")
        .value_parser(ValueParser::NonEmptyString)
        .help(
            "A name by which a request of HTTP may call --admin, beside its address and localhost",
        )
}
