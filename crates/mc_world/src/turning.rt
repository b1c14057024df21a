//! A server takes a request, and its history records it.
ghost use Rattle.std.specs.Prelude.{◌≡◌, ◌<◌, ◌+◌, ◌-◌, ◌^◌, ◌↔◌, length, IfOk, OnErr};
ghost use Rattle.mc_server.specs.ServerState.{connection_at};
ghost use Rattle.mc_server.specs.Turns.{waiting_of};
ghost use Rattle.mc_world.specs.Happens.{Does, EntersOn};
ghost use Rattle.mc_world.specs.Serving.{ServesProxy};

use crate::errors::{Step, WorldError};
use mc_history::Entry;
use mc_link::Tag;
use mc_request::Fault;
use mc_server::{Server, Turn};
use mc_store::Store;
use mc_text::Block;
use std::alloc::Global;

/// The server takes a request of a connection, if a whole one has arrived: the command of this tag. The history records it with the bytes
/// that the server appended, which show whether memory was refused. A place in the history and room for the bytes are reserved before the
/// turn.
pub(crate) fn serve<S: Store + Drop>(
    alloc: Global,
    server: &mut Server<S>,
    history: &mut Vec<Entry>,
    connection: u64,
    tag: Tag,
    moment: u64,
) -> Result<Step, WorldError>
    requires moment { moment < 2 ^ 63 }
    requires serves { ServesProxy connection server.old }
    ensures enters { IfOk result (λ step. Does step (EntersOn connection moment tag server.old server.new history.old.items history.new.items)
        ((server.new ≡ server.old) × (history.new.items ≡ history.old.items))) }
    ensures applies { IfOk result (λ step. (step ≡ Step.Done) ↔ (0 < length (waiting_of (connection_at server.old connection)))) }
    ensures err_applies { OnErr result (0 < length (waiting_of (connection_at server.old connection))) }
    ensures err { OnErr result ((server.new ≡ server.old) × (history.new.items ≡ history.old.items)) }
{
    if !server.ready(connection)? {
        return Ok(Step::Nothing);
    }
    history.reserve(1)?;
    let mut reply = Vec::with_capacity(alloc, server.bound(connection)?)?;
    let before = server.output(connection).len();
    let Turn::Took = server.turn(connection, moment)? else {
        return Ok(Step::Nothing);
    };
    let (_, appended) = server.output(connection).split_at(before);
    let refused = appended == Fault::OutOfMemory.line();
    reply.extend_from_slice(appended).unwrap();
    reply.shrink_to_fit();
    history.push_reserved(Entry {
        client: tag.session,
        request: tag.request,
        atom: tag.atom,
        moment,
        refused,
        reply: Block::from(reply),
    });
    Ok(Step::Done)
}
