//! Scripts of events.
ghost use Rattle.std.specs.Prelude.{◌≡◌, ℕ, ◌<◌, ◌≤◌, ◌↔◌, All, is_some, IfOk, IfErr, IfSome, IsErrOf, MatchOption, None, Ok, Err};
ghost use Rattle.std.specs.Result.{result_err};
ghost use Rattle.mc_script.specs.Events.{IsEventOf};
ghost use Rattle.mc_script.specs.ScriptSeen.{Explains, script_seen};
ghost use Rattle.mc_script.specs.Scripts.{event_named, event_of, events_of, script_of, server_of};
ghost use Rattle.mc_cache.specs.CacheState.{IsWithinBounds};

use crate::errors::SimError;
use crate::escapes::{is_escaped, read_escaped};
use crate::events::{Script, ServerEvent};
use crate::lines::{LineIter, cut_at_space, lines_of};
use crate::numbers::{read_limit, read_moment, read_place};
use mc_cache::{MAX_BUDGET, MAX_ITEMS};
use mc_server::MAX_CONNECTIONS;
use mc_text::Block;
use std::alloc::{AllocError, Global};

/// The script that a text is. The error is the first bad line from the top, and a text without lines has a bad line 1. This holds also
/// if memory for the script is refused, so `Memory` says that the text is a script.
pub fn read_script(alloc: Global, input: &[u8]) -> Result<Script, SimError>
    ensures script { IfOk result (λ script. script_of input.now ≡ Ok (script_seen script)) }
    ensures error { IfErr result (λ error. Explains error (script_of input.now)) }
    ensures bad_line { (line : ℕ) → IsErrOf result (SimError.BadLine line) ↔ (script_of input.now ≡ Err line) }
{
    match read_lines(alloc, input) {
        Ok(script) => Ok(script),
        Err(error) => match bad_line(input) {
            Some(number) => Err(SimError::BadLine(number)),
            None => Err(error),
        },
    }
}

/// The number of the first bad line of a text.
fn bad_line(input: &[u8]) -> Option<u64>
    ensures { result ≡ result_err (script_of input.now) }
{
    let mut lines = lines_of(input);
    let Some((number, line)) = lines.next() else {
        return Some(1);
    };
    let Some((connections, _, _)) = read_server(line) else {
        return Some(number);
    };
    bad_event(connections, lines)
}

/// The number of the first line that is no event of this number of connections.
fn bad_event(connections: u64, lines: LineIter<'_>) -> Option<u64>
    ensures { result ≡ result_err (events_of connections lines.entry) }
{
    for (number, line) in lines {
        if !is_event(connections, line) {
            return Some(number);
        }
    }
    None
}

/// Reads as `read_script` does, but may need memory before it reaches the first bad line.
fn read_lines(alloc: Global, input: &[u8]) -> Result<Script, SimError>
    ensures script { IfOk result (λ script. script_of input.now ≡ Ok (script_seen script)) }
    ensures error { IfErr result (λ error. Explains error (script_of input.now)) }
{
    let mut lines = lines_of(input);
    let Some((number, line)) = lines.next() else {
        return Err(SimError::BadLine(1));
    };
    let Some((connections, budget, items)) = read_server(line) else {
        return Err(SimError::BadLine(number));
    };
    let events = read_events(alloc, connections, lines)?;
    Ok(Script {
        connections,
        budget,
        items,
        events,
    })
}

/// The events of lines, one each, of this number of connections.
fn read_events(
    alloc: Global,
    connections: u64,
    lines: LineIter<'_>,
) -> Result<Vec<ServerEvent>, SimError>
    ensures events { IfOk result (λ events. events_of connections lines.entry ≡ Ok events.items) }
    ensures all { IfOk result (λ events. All (IsEventOf connections) events.items) }
    ensures error { IfErr result (λ error. Explains error (events_of connections lines.entry)) }
{
    let mut events = Vec::new(alloc);
    for (number, line) in lines {
        match read_event(alloc, connections, line)? {
            Some(event) => events.push(event)?,
            None => return Err(SimError::BadLine(number)),
        }
    }
    Ok(events)
}

/// The connections, the budget and the items of a server's line.
#[tactic(auto, unfolding(crate::specs::Scripts::server_of))]
fn read_server(line: &[u8]) -> Option<(u64, u64, usize)>
    ensures server { result ≡ server_of line.now }
    ensures few { IfSome result (λ server. server.0 ≤ 1024) }
    ensures bounds { IfSome result (λ server. IsWithinBounds server.1 server.2) }
{
    let (command, rest) = cut_at_space(line)?;
    let (connections, rest) = cut_at_space(rest)?;
    let (budget, items) = cut_at_space(rest)?;
    let connections = read_limit(connections, MAX_CONNECTIONS as u64)?;
    let budget = read_limit(budget, MAX_BUDGET)?;
    let items = read_limit(items, MAX_ITEMS as u64)?;
    (command == b"server".as_slice()).then_some((connections, budget, items as usize))
}

/// The event of a line, of one of this number of connections.
fn read_event(
    alloc: Global,
    connections: u64,
    line: &[u8],
) -> Result<Option<ServerEvent>, AllocError>
    ensures event { IfOk result (λ event. event ≡ event_of connections line.now) }
    ensures of { IfOk result (λ event. IfSome event (λ event. IsEventOf connections event)) }
{
    let Some((name, connection, rest)) = parts_of(connections, line) else {
        return Ok(None);
    };
    read_event_named(alloc, name, connection, rest)
}

/// Whether a line is an event of one of this number of connections.
fn is_event(connections: u64, line: &[u8]) -> bool
    ensures { result ≡ is_some (event_of connections line.now) }
{
    let Some((name, _, rest)) = parts_of(connections, line) else {
        return false;
    };
    is_event_named(name, rest)
}

/// The command of a line, the number of its connection, which is below `connections`, and the text after that.
#[tactic(auto, unfolding(crate::specs::Scripts::event_of))]
fn parts_of(connections: u64, line: &[u8]) -> Option<(&[u8], u64, &[u8])>
    ensures event { MatchOption result (event_of connections line.now ≡ None)
        (λ parts. event_of connections line.now ≡ event_named parts.0.now parts.1 parts.2.now) }
    ensures inside { IfSome result (λ parts. parts.1 < connections) }
{
    let (name, rest) = cut_at_space(line)?;
    let (connection, rest) = cut_at_space(rest)?;
    Some((name, read_place(connection, connections)?, rest))
}

/// The event of a command, by the number of its connection and the text after that.
#[tactic(auto, unfolding(crate::specs::Scripts::event_named))]
fn read_event_named(
    alloc: Global,
    name: &[u8],
    connection: u64,
    rest: &[u8],
) -> Result<Option<ServerEvent>, AllocError>
    ensures event { IfOk result (λ event. event ≡ event_named name.now connection rest.now) }
    ensures of { IfOk result (λ event. IfSome event (λ event. (connections : ℕ) → connection < connections → IsEventOf connections event)) }
{
    if name == b"bytes".as_slice() {
        return Ok(read_escaped(alloc, rest)?.map(|bytes| ServerEvent::Bytes {
            connection,
            bytes: Block::from(bytes),
        }));
    }
    if name == b"turn".as_slice() {
        return Ok(read_moment(rest).map(|moment| ServerEvent::Turn { connection, moment }));
    }
    Ok(None)
}

/// Whether a command is an event's, by the text after the number of its connection.
#[tactic(auto, unfolding(crate::specs::Scripts::event_named))]
fn is_event_named(name: &[u8], rest: &[u8]) -> bool
    ensures { (connection : ℕ) → result ≡ is_some (event_named name.now connection rest.now) }
{
    if name == b"bytes".as_slice() {
        return is_escaped(rest);
    }
    name == b"turn".as_slice() && read_moment(rest).is_some()
}
