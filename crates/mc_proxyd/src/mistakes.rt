//! How a mistake in a list of servers, which ends the program, is reported.

use crate::lists::Mistake;
use crate::options::{PROGRAM, ServerSource};
use clap::ArgMatches;

/// Prints on standard error the mistake of a list of servers: with the path of the file, or with the number and the text of the word. The
/// matches are those of the command that names the list.
pub fn tell_mistake<R: Eprint>(
    rt: &R,
    matches: &ArgMatches<'_>,
    place: ServerSource,
    mistake: Mistake,
) {
    // Best effort: if this write fails, the exit status still says that the list is bad.
    let _ = match (place, mistake.in_word()) {
        (ServerSource::File, _) => {
            let path = matches.get_str("servers").unwrap_or("");
            eprintln!(rt; "{PROGRAM}: {path}: {mistake}")
        }
        (ServerSource::Words, Some((number, what))) => {
            let word = word_at(matches, number);
            eprintln!(rt; "{PROGRAM}: server {number} '{word}' {what}")
        }
        (ServerSource::Words, None) => eprintln!(rt; "{PROGRAM}: {mistake}"),
        (ServerSource::Join, Some((_, what))) => {
            let word = matches.get_str("join").unwrap_or("");
            eprintln!(rt; "{PROGRAM}: --join '{word}' {what}")
        }
        (ServerSource::Join, None) => eprintln!(rt; "{PROGRAM}: --join-after without --join"),
    };
}

/// Returns the word of a server, by its number among them.
fn word_at<'a>(matches: &ArgMatches<'a>, number: u64) -> &'a str {
    let Some(words) = matches.get_strs("server") else {
        return "";
    };
    let place = (number as usize).saturating_sub(1);
    words.get(place).copied().unwrap_or("")
}
