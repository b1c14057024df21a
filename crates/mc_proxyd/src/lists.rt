//! Lists of servers in files.
ghost use Rattle.std.specs.Prelude.{◌≡◌, ◌<◌, ◌≤◌, ◌⊎◌, ◌∷◌, ◌++◌, [], true, false, map, filter, vec_len, length, Some, None, IfNone, IfOk, IfErr, OnOk, IsErrAnd, IsOkUnless, MatchOption};
ghost use Rattle.std.specs.List.{after_first, before_first, list_any, position_or_len};
ghost use Rattle.std.specs.Str.{bytes_eq};
ghost use Rattle.std.specs.IoError.{error_kind, raw_os_error};
ghost use Rattle.mc_program.specs.Sockets.{socket_error_of};
ghost use Rattle.mc_proxyd.specs.Files.{is_hash, is_line_feed, is_some_word, word_of, words_of};
ghost use Rattle.mc_proxyd.specs.Mistakes.{line_mistake, mistake_in, name_mistake, names_after, word_mistake};
ghost use Rattle.mc_proxyd.specs.Servers.{address_of, is_server, name_of};
ghost use Rattle.mc_proxyd.specs.declared.lists.Mistake.TheVariants.{Unread, Memory};

use crate::limits::LIST_LIMIT;
use crate::options::ListError;
use crate::servers::NamedServer;
use mc_program::SocketError;
use mc_ring::{Address, SERVER_LIMIT};
use std::alloc::{AllocError, AllocFailed, Global};
use std::fs::Files;
use std::io::Read;
use std::{fs, io};
use thiserror::Error;

/// The mistake of a line or a word that names no server.
const NO_SERVER: &str = "is no [<name>:<port>=]<host>:<port>";

/// The mistake of one whose server has the name of an earlier one.
const DOUBLED: &str = "has the name of an earlier one";

/// The mistake of one whose server is one too many for a ring.
const ONE_TOO_MANY: &str = "is one too many: at most 64 servers";

/// Why a file, or words, are no list of servers.
#[derive(Clone, Copy, Debug, PartialEq, Eq, Error)]
pub enum Mistake {
    /// The system cannot read the file, for this reason.
    #[error("{0}")]
    Unread(SocketError),
    /// The path is no file: a folder, a pipe or a device.
    #[error("not a file")]
    NoFile,
    /// It has more bytes than [`LIST_LIMIT`].
    #[error("longer than {LIST_LIMIT} bytes")]
    TooLong,
    /// The line of this number, or the word, is no server's.
    #[error("line {0} {NO_SERVER}")]
    NoServer(u64),
    /// The line of this number, or the word, has the name of an earlier one.
    #[error("line {0} {DOUBLED}")]
    Doubled(u64),
    /// With the line of this number, or the word, there are more servers than a ring may have.
    #[error("line {0} {ONE_TOO_MANY}")]
    TooMany(u64),
    /// The last line, of this number, has no line end.
    #[error("line {0} has no line end")]
    Unended(u64),
    /// No line, or no word, names a server.
    #[error("no server")]
    NoneAtAll,
    /// There is no memory for it.
    #[error("out of memory")]
    Memory,
}

impl Mistake {
    /// Returns the number of the word that has the mistake, and the mistake; none if it is of no word.
    pub fn in_word(&self) -> Option<(u64, &'static str)> {
        match self {
            Mistake::NoServer(number) => Some((*number, NO_SERVER)),
            Mistake::Doubled(number) => Some((*number, DOUBLED)),
            Mistake::TooMany(number) => Some((*number, ONE_TOO_MANY)),
            _ => None,
        }
    }
}

impl From<AllocError> for Mistake {
    ghost from_gives = { λ _ mistake. mistake ≡ Memory };

    fn from(_e: AllocError) -> Mistake {
        Mistake::Memory
    }
}

impl<T: Drop> From<AllocFailed<T>> for Mistake {
    ghost from_gives = { λ _ mistake. mistake ≡ Memory };

    fn from(_e: AllocFailed<T>) -> Mistake {
        Mistake::Memory
    }
}

impl From<io::Error> for Mistake {
    ghost from_gives = { λ error mistake. mistake ≡ Unread (socket_error_of (raw_os_error error) (error_kind error)) };

    fn from(error: io::Error) -> Mistake {
        Mistake::Unread(SocketError::of(&error))
    }
}

/// Returns the text of a file. The error is why the system cannot read it, or that it is no file, or one of more than [`LIST_LIMIT`]
/// bytes. Bytes that are no UTF-8 are replaced by another sign, which no address has.
pub fn text_of<R: Files>(rt: &R, alloc: Global, path: &str) -> Result<String, Mistake> {
    if !fs::metadata(rt, path)?.is_file() {
        return Err(Mistake::NoFile);
    }
    let mut bytes = Vec::new(alloc);
    let most = LIST_LIMIT as u64 + 1;
    fs::open(rt, path)?.take(most).read_to_end(&mut bytes)?;
    if bytes.len() > LIST_LIMIT {
        return Err(Mistake::TooLong);
    }
    Ok(String::from_utf8_lossy(alloc, bytes.as_slice())?)
}

/// Returns the servers that the lines of a text name, in their order. The error is the first mistake in it, or `Memory`.
pub fn servers_in(alloc: Global, text: &str) -> Result<Vec<NamedServer>, Mistake>
    ensures names { IfOk result (λ servers. map (λ server. server.name) servers.items ≡ map name_of (words_of text.now)) }
    ensures addresses { IfOk result (λ servers. map (λ server. server.address) servers.items ≡ map address_of (words_of text.now)) }
    ensures some { IfOk result (λ servers. 1 ≤ vec_len servers) }
    ensures few { IfOk result (λ servers. vec_len servers ≤ SERVER_LIMIT) }
    ensures right { OnOk result (mistake_in text.now ≡ None) }
    ensures mistake { IfErr result (λ mistake. (mistake ≡ Mistake.Memory) ⊎ (mistake_in text.now ≡ Some mistake)) }
{
    let mut servers = Vec::new(alloc);
    let mut number = 1u64;
    let mut rest = text;
    while let Some((line, more)) = first_line(rest) {
        add(alloc, &mut servers, word_of(line), number)?;
        number = number.saturating_add(1);
        rest = more;
    }
    if !word_of(rest).is_empty() {
        return Err(Mistake::Unended(number));
    }
    if servers.as_slice().is_empty() {
        return Err(Mistake::NoneAtAll);
    }
    Ok(servers)
}

/// Adds the server of the word of a line of this number, if it has one. The error is the mistake of that line, or `Memory`.
fn add(
    alloc: Global,
    servers: &mut Vec<NamedServer>,
    word: &str,
    number: u64,
) -> Result<(), Mistake>
    requires { vec_len servers.old ≤ SERVER_LIMIT }
    ensures names { OnOk result (map (λ server. server.name) servers.new.items
        ≡ names_after (map (λ server. server.name) servers.old.items) word.now) }
    ensures addresses { OnOk result (map (λ server. server.address) servers.new.items
        ≡ map (λ server. server.address) servers.old.items ++ map address_of (filter is_some_word (word.now ∷ []))) }
    ensures few { vec_len servers.new ≤ SERVER_LIMIT }
    ensures right { OnOk result (line_mistake number (map (λ server. server.name) servers.old.items) word.now ≡ None) }
    ensures mistake { IfErr result (λ mistake. (mistake ≡ Mistake.Memory)
        ⊎ (line_mistake number (map (λ server. server.name) servers.old.items) word.now ≡ Some mistake)) }
{
    if word.is_empty() {
        return Ok(());
    }
    let server = next_server(alloc, servers.as_slice(), word, number)?;
    servers.push(server)?;
    Ok(())
}

/// Returns the server of a word, after those of earlier words; `number` is that of its line or word. The error is its mistake, or
/// `Memory`.
pub fn next_server(
    alloc: Global,
    servers: &[NamedServer],
    word: &str,
    number: u64,
) -> Result<NamedServer, Mistake>
    ensures name { IfOk result (λ server. server.name ≡ name_of word.now) }
    ensures address { IfOk result (λ server. server.address ≡ address_of word.now) }
    ensures few { OnOk result (length servers.now < SERVER_LIMIT) }
    ensures right { OnOk result (word_mistake number (map (λ server. server.name) servers.now) word.now ≡ None) }
    ensures mistake { IfErr result (λ mistake. (mistake ≡ Mistake.Memory)
        ⊎ (word_mistake number (map (λ server. server.name) servers.now) word.now ≡ Some mistake)) }
{
    let server = server_at(alloc, word, number)?;
    match name_mistake(servers, &server.name, number) {
        Some(mistake) => Err(mistake),
        None => Ok(server),
    }
}

/// Returns the mistake of a server of this name in the line of this number, after those of earlier lines.
fn name_mistake(servers: &[NamedServer], name: &Address, number: u64) -> Option<Mistake>
    ensures mistake { result ≡ name_mistake number (map (λ server. server.name) servers.now) name.now }
    ensures few { IfNone result (length servers.now < SERVER_LIMIT) }
{
    if has_name(servers, name) {
        return Some(Mistake::Doubled(number));
    }
    if servers.len() >= SERVER_LIMIT {
        return Some(Mistake::TooMany(number));
    }
    None
}

/// Returns whether one of the servers has this name.
fn has_name(servers: &[NamedServer], name: &Address) -> bool
    ensures { result ≡ list_any (λ other. bytes_eq other name.now) (map (λ server. server.name) servers.now) }
{
    let [server, servers @ ..] = servers else {
        return false;
    };
    server.name == *name || has_name(servers, name)
}

/// Returns the server of the word of a line of this number.
fn server_at(alloc: Global, word: &str, number: u64) -> Result<NamedServer, Mistake>
    ensures name { IfOk result (λ server. server.name ≡ name_of word.now) }
    ensures address { IfOk result (λ server. server.address ≡ address_of word.now) }
    ensures no_server { is_server word.now ≡ false → IsErrAnd result (λ mistake. mistake ≡ Mistake.NoServer number) }
    ensures memory { is_server word.now ≡ true → IsOkUnless result Mistake.Memory }
{
    match NamedServer::new(alloc, word) {
        Ok(server) => Ok(server),
        Err(ListError::Memory) => Err(Mistake::Memory),
        Err(_) => Err(Mistake::NoServer(number)),
    }
}

/// Returns the first line of a text, without its line feed, and the text after that; none if it has no line feed.
fn first_line(text: &str) -> Option<(&str, &str)>
    ensures { MatchOption result (position_or_len is_line_feed text.now ≡ length text.now)
        (λ parts. (position_or_len is_line_feed text.now < length text.now)
        × (parts.0.now ≡ before_first is_line_feed text.now) × (parts.1.now ≡ after_first is_line_feed text.now)) }
{
    text.split_once('\n')
}

/// Returns the word of a line: the text before a `#`, without the white space around it. A line without a word names no server.
fn word_of(line: &str) -> &str
    ensures { result.now ≡ word_of line.now }
{
    without_comment(line).trim_ascii()
}

/// Returns the text before a `#` in a line.
fn without_comment(line: &str) -> &str
    ensures { result.now ≡ before_first is_hash line.now }
{
    match line.split_once('#') {
        Some((front, _)) => front,
        None => line,
    }
}
