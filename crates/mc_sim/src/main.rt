//! Plays the script on standard input, of a server or of a pool, and prints what its clients were sent. Options ask for the account of a
//! pool ([`options`]), or choose the kind of store that the servers keep their items in.
//!
//! The exit status is 0 if the script was played to its end, and 2 at a bad line. It is 2 also if words are refused or ask for help, 3
//! if a read or a write failed, and 4 if memory was refused. Standard error has the reason. The words are read before the script.
#![tactic(auto)]

mod endings;
mod kinds;
mod options;
mod runs;
mod texts;
mod traces;

use endings::{Ending, exit_status};
use mc_program::read_words;
use mc_script::read_input;
use options::{Options, command};
use runs::run;
use std::io;
use std::process::ExitCode;
use std::rt::Env;
use traces::trace;

fn main(rt: HostRuntime) -> ExitCode {
    let ended = play(&rt);
    if let Err(ending) = &ended {
        ending.tell(&rt);
    }
    ExitCode::from(exit_status(&ended))
}

/// Reads the words, and then plays the script.
fn play<R>(rt: &R) -> Result<(), Ending>
where
    R: Env + Input + Print + Eprint + AllocGlobal,
{
    let alloc = rt.alloc();
    let words = read_words(rt)?;
    let matches = command(alloc)?.try_get_matches_from(words.as_slice())?;
    let options = Options::of(&matches);
    let mut writer = io::writer(rt);
    if !options.trace {
        run(
            alloc,
            options.kind,
            options.printed,
            &mut rt.reader(),
            &mut writer,
        )?;
        return Ok(());
    }
    // The script is read first, so that each line can be reported.
    let input = read_input(alloc, &mut rt.reader())?;
    trace(rt, alloc, input.as_slice())?;
    run(
        alloc,
        options.kind,
        options.printed,
        &mut input.as_slice(),
        &mut writer,
    )?;
    Ok(())
}
