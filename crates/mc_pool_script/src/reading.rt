//! A line of a pool script, by its name and the text after that.
ghost use Rattle.std.specs.Prelude.{◌≡◌, ◌^◌, IfOk, IfSome, IsOkUnless};
ghost use Rattle.mc_pool_script.specs.PoolLines.{HasMoment, line_of, numbers_line};

use crate::client_lines::{read_bytes, read_takes};
use crate::commands::{Command, command_of};
use crate::joins::read_join;
use crate::lines::PoolLine;
use crate::server_lines::{
    read_end, read_link, read_serve, read_server, read_to_proxy, read_to_server,
};
use mc_ring::Address;
use mc_script::{SimError, cut_at_space, read_moment, read_place};
use mc_world::Event;
use std::alloc::Global;

/// The meaning of a line, if there are this many clients and these servers, of which each proxy knows this many.
#[tactic(auto, unfolding(crate::specs::PoolLines::line_of))]
pub fn read_line(
    alloc: Global,
    clients: u64,
    servers: &[Address],
    known: &[usize],
    line: &[u8],
) -> Result<Option<PoolLine>, SimError>
    ensures line { IfOk result (λ found. found ≡ line_of clients servers.now known.now line.now) }
    ensures moment { IfOk result (λ found. IfSome found (λ line. HasMoment line (2 ^ 63))) }
    ensures only_memory { IsOkUnless result SimError.Memory }
{
    let Some((name, text)) = cut_at_space(line) else {
        return Ok(None);
    };
    let Some(command) = command_of(name) else {
        return Ok(None);
    };
    match command {
        Command::Bytes => read_bytes(alloc, clients, text),
        Command::Join => read_join(alloc, servers, known, text),
        _ => Ok(read_numbers(clients, servers.len(), known, command, text)),
    }
}

/// The meaning of a line whose words are numbers alone, by its command and the text after its name.
fn read_numbers(
    clients: u64,
    servers: usize,
    known: &[usize],
    command: Command,
    text: &[u8],
) -> Option<PoolLine>
    ensures line { result ≡ numbers_line clients servers known.now command text.now }
    ensures moment { IfSome result (λ line. HasMoment line (2 ^ 63)) }
{
    match command {
        Command::Gone => Some(PoolLine::Event(Event::ClientGone {
            client: read_place(text, clients)?,
        })),
        Command::Turn => Some(PoolLine::Event(Event::ProxyTurn {
            client: read_place(text, clients)?,
        })),
        Command::Emit => Some(PoolLine::Event(Event::Emit {
            client: read_place(text, clients)?,
        })),
        Command::Reply => {
            let (proxy, server) = read_link(known, text)?;
            Some(PoolLine::Event(Event::ReplyTurn { proxy, server }))
        }
        Command::Lost => {
            let (proxy, server) = read_link(known, text)?;
            Some(PoolLine::Event(Event::LinkLost { proxy, server }))
        }
        Command::Back => {
            let (proxy, server) = read_link(known, text)?;
            Some(PoolLine::Event(Event::LinkBack { proxy, server }))
        }
        Command::Takes => read_takes(clients, text),
        Command::ToServer => read_to_server(known, text),
        Command::Serve => read_serve(known, text),
        Command::ToProxy => read_to_proxy(known, text),
        Command::End => read_end(known, text),
        Command::Restart => Some(PoolLine::Restart(read_server(servers, text)?)),
        Command::ProxyRestart => Some(PoolLine::ProxyRestart(read_server(known.len(), text)?)),
        Command::Drain => Some(PoolLine::Drain(read_moment(text)?)),
        Command::Bytes | Command::Join => None,
    }
}
