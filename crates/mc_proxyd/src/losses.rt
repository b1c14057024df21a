//! The choice for lost commands, on the command line.
ghost use Rattle.std.specs.Prelude.{◌≡◌};
ghost use Rattle.mc_proxyd.specs.Losses.{losses_named};

use clap::Arg;
use clap::builder::ValueParser;
use mc_proxy::Losses;
use std::alloc::Global;

/// The words of `--lost`.
const WORDS: [&str; 2] = ["told", "missed"];

/// Returns the choice that a word names. Any other word stands for [`Losses::Told`].
pub fn losses_named(word: &str) -> Losses
    ensures { result ≡ losses_named word.now }
{
    if word == "missed" {
        Losses::Missed
    } else {
        Losses::Told
    }
}

/// Returns the option `--lost`.
pub fn lost<'a>(alloc: Global) -> Arg<'a> {
    Arg::new(alloc, "lost")
        .long("lost")
        .value_name("answer")
        .value_parser(ValueParser::Names(&WORDS))
        .default_value("told")
        .help(
            "If a server is lost: 'told' answers its requests SERVER_ERROR link lost; 'missed' makes a get miss, and says nothing to noreply or q",
        )
}
