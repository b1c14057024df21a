//! The pool of a threaded run, on one thread.

use crate::tallies::Tally;
use crate::thread_loads::{BUDGET, CLIENTS, ITEMS, MOMENT, ring_of};
use anyhow::bail;
use mc_cache::Cache;
use mc_item::CasCounter;
use mc_proxy::{Emit, LinkStep, Proxy, ProxyError, SessionTurn};
use mc_server::{Server, ServerError, Turn};
use mc_store::{FixedHasher, LruStore};
use std::alloc::{AllocError, Global};

/// The most requests of a client, replies of a server, or answers to a client that are taken in one round: as many as on threads.
const AT_ONCE: u64 = 256;

/// A server over a hashed store, with one connection.
type Served = Server<LruStore<FixedHasher>>;

/// Answers the requests of the clients, by this number of servers.
pub fn play(alloc: Global, servers: u64, inputs: &[Vec<Vec<u8>>]) -> anyhow::Result<Tally> {
    let mut outputs = empty_outputs(alloc)?;
    let mut served = opened_servers(alloc, servers)?;
    let mut proxy = Proxy::new(alloc, ring_of(alloc, servers)?)?;
    open(&mut proxy, servers, inputs)?;
    play_rounds(&mut proxy, &mut served, &mut outputs)?;
    Ok(Tally::of(outputs.as_slice()))
}

/// Brings this number of links up, and feeds the proxy all bytes of the clients.
fn open(proxy: &mut Proxy, servers: u64, inputs: &[Vec<Vec<u8>>]) -> Result<(), ProxyError> {
    for place in 0..servers {
        proxy.back(place as usize)?;
    }
    for pieces in inputs {
        admit(proxy, pieces)?;
    }
    Ok(())
}

/// Plays rounds until all clients are answered.
fn play_rounds(
    proxy: &mut Proxy,
    servers: &mut Vec<Served>,
    outputs: &mut Vec<Vec<u8>>,
) -> anyhow::Result<()> {
    for _ in 0..u64::MAX {
        round(proxy, servers, outputs)?;
        if is_quiet(proxy) {
            break;
        }
    }
    Ok(())
}

/// Admits a client that sends these pieces.
fn admit(proxy: &mut Proxy, pieces: &Vec<Vec<u8>>) -> Result<(), ProxyError> {
    let client = proxy.admit()?;
    for piece in pieces {
        proxy.feed(client, piece.as_slice())?;
    }
    Ok(())
}

/// This number of servers over empty caches.
fn opened_servers(alloc: Global, count: u64) -> anyhow::Result<Vec<Served>> {
    let mut servers = Vec::new(alloc);
    for _ in 0..count {
        servers.push(opened_server(alloc)?)?;
    }
    Ok(servers)
}

fn opened_server(alloc: Global) -> anyhow::Result<Served> {
    let store = LruStore::new(alloc, ITEMS)?;
    let cache = Cache::new(alloc, store, BUDGET, ITEMS, CasCounter::starting_at(0));
    let mut server = Server::new(alloc, cache);
    server.admit()?;
    Ok(server)
}

/// An empty output for each client.
fn empty_outputs(alloc: Global) -> Result<Vec<Vec<u8>>, AllocError> {
    let mut outputs = Vec::new(alloc);
    for _ in 0..CLIENTS {
        outputs.push(Vec::new(alloc))?;
    }
    Ok(outputs)
}

/// One round: takes requests of each client, lets each server answer the bytes that arrived, and answers each client.
fn round(
    proxy: &mut Proxy,
    servers: &mut Vec<Served>,
    outputs: &mut Vec<Vec<u8>>,
) -> anyhow::Result<()> {
    for client in 0..CLIENTS {
        ask(proxy, client)?;
    }
    for place in 0..servers.len() {
        serve(proxy, place, &mut servers[place])?;
        take_replies(proxy, place)?;
    }
    for client in 0..outputs.len() {
        answer(proxy, client as u64, &mut outputs[client])?;
    }
    Ok(())
}

/// Takes the requests of a client that need not wait.
fn ask(proxy: &mut Proxy, client: u64) -> Result<(), ProxyError> {
    for _ in 0..AT_ONCE {
        if proxy.turn(client)? != SessionTurn::Took {
            break;
        }
    }
    Ok(())
}

/// Moves the bytes of the link of a place to its server, lets it answer, and moves the answers back.
fn serve(proxy: &mut Proxy, place: usize, server: &mut Served) -> anyhow::Result<()> {
    let sent = proxy.link_output(place);
    let count = sent.len();
    server.feed(0, sent)?;
    proxy.link_taken_out(place, count);
    take_requests(server)?;
    let replied = server.output(0);
    let count = replied.len();
    proxy.link_feed(place, replied)?;
    server.taken_out(0, count);
    Ok(())
}

/// Answers all requests that have arrived at a server.
fn take_requests(server: &mut Served) -> Result<(), ServerError> {
    for _ in 0..u64::MAX {
        if server.turn(0, MOMENT)? != Turn::Took {
            break;
        }
    }
    Ok(())
}

/// Takes replies of the server of a place.
fn take_replies(proxy: &mut Proxy, place: usize) -> anyhow::Result<()> {
    for _ in 0..AT_ONCE {
        match proxy.link_turn(place)? {
            LinkStep::Took => {}
            LinkStep::Idle => break,
            LinkStep::Strange => bail!("a strange reply"),
        }
    }
    Ok(())
}

/// Answers a client as far as its answers are known.
fn answer(proxy: &mut Proxy, client: u64, output: &mut Vec<u8>) -> anyhow::Result<()> {
    for _ in 0..AT_ONCE {
        if proxy.emit(client)? != Emit::Done {
            break;
        }
    }
    let more = proxy.output(client);
    let count = more.len();
    output.extend_from_slice(more)?;
    proxy.taken_out(client, count);
    Ok(())
}

/// Whether all clients are answered.
fn is_quiet(proxy: &Proxy) -> bool {
    for client in 0..CLIENTS {
        if proxy.ready(client) || proxy.unanswered(client) != 0 {
            return false;
        }
    }
    true
}
