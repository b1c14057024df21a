//! A world whose caller gives the stores, runs events in sequence, and adds a server.
//!
//! A call that is refused memory is made again. So the client is answered as with ample memory, or as with the store refused, whichever
//! allocation is refused: `tests/gate/refused.py` refuses each of them in turn.

use crate::pools::ring;
use crate::rings::AT_A;
use mc_ring::{Address, RingError};
use mc_server_tests::again;
use mc_store::ListStore;
use mc_text::Block;
use mc_world::{Entry, Event, Step, World, WorldError};
use std::alloc::{AllocError, Global};
use std::test::Fail;

/// The text of the client before the second server joins, and after it.
const SAID: [&[u8]; 2] = [b"set a 0 0 1\r\nx\r\n", b"get a\r\nflush_all\r\n"];

/// What the client is answered in all: with ample memory; then with the store refused.
const ANSWERS: [&[u8]; 2] = [
    b"STORED\r\nVALUE a 0 1\r\nx\r\nEND\r\nOK\r\n",
    b"SERVER_ERROR out of memory storing object\r\nEND\r\nOK\r\n",
];

/// A world of one client and one server, over a store that its caller gives.
fn opened_once(alloc: Global) -> Result<World<ListStore>, WorldError> {
    let Ok(ring) = ring(alloc, &AT_A) else {
        return Err(WorldError::Memory);
    };
    let mut stores = Vec::new(alloc);
    stores.push(ListStore::new(alloc))?;
    World::with_stores(alloc, ring, 1, 67_108_864, 1_000, stores)
}

fn opened(alloc: Global) -> Result<World<ListStore>, WorldError> {
    again!(opened_once(alloc))
}

fn block(alloc: Global, bytes: &[u8]) -> Result<Block, AllocError> {
    again!(Block::from_slice(alloc, bytes))
}

fn step(world: &mut World<ListStore>, event: &Event<Block>) -> Result<Step, WorldError> {
    again!(world.step(event))
}

fn address(alloc: Global, text: &[u8]) -> Result<Address, RingError> {
    again!(Address::new(alloc, text))
}

fn put_out(world: &World<ListStore>) -> Result<Vec<u8>, WorldError> {
    again!(world.put_out(0))
}

/// The client sends a text.
fn say(alloc: Global, world: &mut World<ListStore>, text: &[u8]) -> Result<bool, Fail> {
    let bytes = block(alloc, text)?;
    let said = step(world, &Event::ClientBytes { client: 0, bytes })?;
    Ok(matches!(said, Step::Done))
}

/// Has the proxy take a request, and a server answer one command, in sequence. An event that does not apply does nothing. It returns how many
/// were refused memory.
fn run_once(world: &mut World<ListStore>, server: usize) -> usize {
    let events = [
        Event::ProxyTurn { client: 0 },
        Event::ToServer {
            proxy: 0,
            server,
            generation: 1,
            count: usize::MAX,
        },
        Event::ServerTurn {
            proxy: 0,
            server,
            generation: 1,
            moment: 100,
        },
        Event::ToProxy {
            proxy: 0,
            server,
            count: usize::MAX,
        },
        Event::ReplyTurn { proxy: 0, server },
        Event::Emit { client: 0 },
    ];
    world.run(&events)
}

/// Runs these events until none is refused memory: what was refused is done then, and what was done does not apply again.
fn run(world: &mut World<ListStore>, server: usize) -> bool {
    for _ in 0..4 {
        if run_once(world, server) == 0 {
            return true;
        }
    }
    false
}

/// Adds a server of the second address. The first one is there already, so its store is given back, and serves for the second.
fn join_once(
    alloc: Global,
    world: &mut World<ListStore>,
    (there, new): (&Address, &Address),
) -> Result<usize, WorldError> {
    let Err(refused) = world.join_server(there.copy()?, ListStore::new(alloc)) else {
        return Err(WorldError::BadWorld);
    };
    if !matches!(refused.0, WorldError::AlreadyThere) {
        return Err(WorldError::BadWorld);
    }
    match world.join_server(new.copy()?, refused.1) {
        Ok(place) => Ok(place),
        Err((cause, _)) => Err(cause),
    }
}

/// The place at which a server joins.
fn joined(alloc: Global, world: &mut World<ListStore>) -> Result<usize, Fail> {
    let there = address(alloc, b"127.0.0.1:11211")?;
    let new = address(alloc, b"127.0.0.1:11212")?;
    Ok(join(alloc, world, (&there, &new))?)
}

fn join(
    alloc: Global,
    world: &mut World<ListStore>,
    addresses: (&Address, &Address),
) -> Result<usize, WorldError> {
    again!(join_once(alloc, world, addresses))
}

/// Whether a server took one command alone: the second of the third request, which was answered so.
fn is_flushed(history: &[Entry]) -> bool {
    let Some(entry) = history.first() else {
        return false;
    };
    history.len() == 1
        && (entry.client, entry.request, entry.atom) == (0, 2, 1)
        && !entry.refused
        && entry.reply.as_slice() == b"OK\r\n".as_slice()
}

/// Whether the client sends both texts, and each request is taken and answered: the first two by the first server, the last by both.
fn is_played(alloc: Global, world: &mut World<ListStore>) -> Result<bool, Fail> {
    let [before, after] = SAID;
    let is_set = say(alloc, world, before)? && run(world, 0);
    let is_joined = joined(alloc, world)? == 1;
    let is_said = say(alloc, world, after)?;
    let is_run = run(world, 0) && run(world, 0) && run(world, 1);
    Ok(is_set && is_joined && is_said && is_run)
}

/// Whether all goes as expected in a new world. No item moves to the server that joins, and a key that it does not own stays where it is.
fn is_joined(alloc: Global) -> Result<bool, Fail> {
    let mut world = opened(alloc)?;
    let is_played = is_played(alloc, &mut world)?;
    let bytes = put_out(&world)?;
    let are_answers = ANSWERS.iter().any(|answers| bytes.as_slice() == *answers);
    let are_taken = world.history(0).len() == 3 && is_flushed(world.history(1));
    Ok(is_played && are_answers && are_taken)
}

#[test]
fn a_server_joins_a_world(rt: HostRuntime) -> Result<(), Fail> {
    assert!(rt; is_joined(rt.alloc())?);
    Ok(())
}
