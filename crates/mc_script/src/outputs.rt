//! The outputs of a script: a server plays its events.
ghost use Rattle.std.specs.Prelude.{◌≡◌, ◌<◌, ◌^◌, ◌-◌, ◌++◌, ◌↔◌, length, IsSome, IsOk, IsErrOf, IsOkUnless, IfOk, OnOk};
ghost use Rattle.mc_server.specs.ServerState.{connection_at, with_fresh};
ghost use Rattle.mc_script.specs.Answers.{Answers, cache_of};
ghost use Rattle.mc_script.specs.Escapes.{client_lines};
ghost use Rattle.mc_script.specs.Events.{moment_of, number_of};
ghost use Rattle.mc_script.specs.Plays.{Plays, opened, outputs_of};
ghost use Rattle.mc_script.specs.ScriptSeen.{script_seen};

use crate::errors::SimError;
use crate::escapes::push_client_line;
use crate::events::{Script, ServerEvent};
use crate::stores::ScriptStore;
use mc_cache::Cache;
use mc_item::CasCounter;
use mc_server::{Server, ServerError};
use std::alloc::{AllocError, Global};

/// A server that has played a script: its outputs are the bytes that it sends to the clients.
///
/// The outputs are the answers of one legal history: each turn takes the next request or fault of its connection's
/// text, if it has arrived whole, and no other. For given refusals of memory, no other outputs are right.
pub fn played_server<S: ScriptStore>(alloc: Global, script: &Script) -> Result<Server<S>, SimError>
    ensures outputs { IfOk result (λ server. Answers (script_seen script.now) (outputs_of script.now.connections server)) }
    ensures only_memory { IsOkUnless result SimError.Memory }
{
    let mut server = opened_server(alloc, script)?;
    for event in &script.events {
        play(&mut server, event)?;
    }
    Ok(server)
}

/// Appends lines that say what the clients of the first connections were sent.
pub fn push_output_lines<S: ScriptStore>(
    server: &Server<S>,
    connections: u64,
    out: &mut Vec<u8>,
) -> Result<(), AllocError>
    ensures { OnOk result (out.new.items ≡ out.old.items ++ client_lines (outputs_of connections server.now)) }
{
    for client in 0..connections {
        push_client_line(client, server.output(client), out)?;
    }
    Ok(())
}

/// A server with an empty cache and new connections, as the script says.
fn opened_server<S: ScriptStore>(alloc: Global, script: &Script) -> Result<Server<S>, SimError>
    ensures server { IfOk result (λ server. server ≡ opened (cache_of (script_seen script.now)) script.now.connections) }
    ensures only_memory { IsOkUnless result SimError.Memory }
{
    let store = S::opened(alloc, script.items)?;
    let cache = Cache::new(
        alloc,
        store,
        script.budget,
        script.items,
        CasCounter::starting_at(0),
    );
    let mut server = Server::new(alloc, cache);
    for _ in 0..script.connections {
        admit(&mut server)?;
    }
    Ok(server)
}

/// Opens one more connection.
fn admit<S: ScriptStore>(server: &mut Server<S>) -> Result<(), SimError>
    requires room { length server.old.connections < 1024 }
    requires number { server.old.admitted < 2 ^ 64 - 1 }
    ensures admitted { OnOk result (server.new ≡ with_fresh server.old) }
    ensures only_memory { IsOkUnless result SimError.Memory }
{
    refused_memory_alone(server.admit().map(|_| ()))
}

/// Plays one event.
fn play<S: ScriptStore>(server: &mut Server<S>, event: &ServerEvent) -> Result<(), SimError>
    requires connection { IsSome (connection_at server.old (number_of event.now)) }
    requires moment { moment_of event.now < 2 ^ 63 }
    ensures played { OnOk result (Plays event.now server.old server.new) }
    ensures only_memory { IsOkUnless result SimError.Memory }
{
    refused_memory_alone(match event {
        ServerEvent::Bytes { connection, bytes } => server.feed(*connection, bytes.as_slice()),
        ServerEvent::Turn { connection, moment } => server.turn(*connection, *moment).map(|_| ()),
    })
}

/// The result of a server's call that can fail only for want of memory.
fn refused_memory_alone(called: Result<(), ServerError>) -> Result<(), SimError>
    requires connection { ¬ IsErrOf called ServerError.NoConnection }
    requires few { ¬ IsErrOf called ServerError.TooMany }
    ensures ok { IsOk result ↔ IsOk called }
    ensures only_memory { IsOkUnless result SimError.Memory }
{
    match called {
        Ok(()) => Ok(()),
        Err(ServerError::Memory) => Err(SimError::Memory),
        Err(ServerError::NoConnection | ServerError::TooMany) => unreachable!(),
    }
}
