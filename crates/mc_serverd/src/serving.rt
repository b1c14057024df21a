//! Serving a listener.
ghost use Rattle.std.specs.Prelude.{◌≡◌, ◌+◌, [], IfOk};
ghost use Rattle.mc_cache.specs.CacheState.{opening_cache};
ghost use Rattle.mc_serverd.specs.CasFrom.{last_number};
ghost use Rattle.mc_serverd.specs.Chosen.{held_by};

use crate::cas_from::last_number;
use crate::chosen::ChosenStore;
use crate::clocks::SystemSeconds;
use crate::counted::Counted;
use crate::kinds::StoreKind;
use crate::server_loops::ServerLoop;
use crate::settings::Settings;
use crate::store_stats::StoreStats;
use mc_cache::Cache;
use mc_item::CasCounter;
use mc_net::{Operators, serve_rounds};
use mc_program::{EprintSeldom, ListenError, ServeError};
use mc_server::Server;
use mc_store::{LruStore, TableStore};
use mc_table::SecretState;
use mio::net::TcpListener;
use std::alloc::Global;
use std::fs::Files;
use std::hash::RandomState;
use std::net::Net;
use std::random::RandomSource;
use std::rc::Rc;
use std::rt::Clock;
use std::sync::Wait;

/// The error of a server that cannot listen since its hashes have no seed.
const NO_SEED: ServeError = ServeError::Listen(ListenError::NoSeed);

/// Serves the connections that a listener accepts, over one cache, at the clock's moments. Random numbers key its hashes.
///
/// Once everything is reserved that it needs at the start, the table of the items too, it prints `listening` and the address. A client that
/// connects after that line is served.
///
/// It returns once as many connections as the settings say were accepted and all of them are closed. Without such a limit it serves for
/// ever, unless the settings say after how many seconds without memory it ends. A connection that fails is closed, and the others go on. A
/// round of the poll reads the clock once. Operators are served at the end of a round, by what the server has done. A write to standard
/// error waits for its reader; if it fails nothing else changes.
pub fn serve<R: Net + RandomSource + Wait + Files + Print + EprintSeldom + Clock>(
    rt: &R,
    alloc: Global,
    listen: &str,
    listener: TcpListener,
    settings: &Settings,
    operators: Operators,
    clock: &mut SystemSeconds<'_, R>,
) -> Result<(), ServeError> {
    let counts = Rc::new(alloc, StoreStats::new()).map_err(|_| ServeError::Memory)?;
    let start = clock.now();
    let server = new_server(rt, alloc, settings, counts.clone()?, start)?;
    let service = settings.service;
    let mut host = ServerLoop::new(alloc, listen, server, counts, settings, operators, start)?;
    serve_rounds(rt, alloc, listener, service.terms.accept, clock, &mut host)
}

/// Makes a server without a connection that starts in a second, over an empty cache. Random numbers key the hashes of the cache, and
/// its store counts its operations. It takes the reserve.
fn new_server<R: RandomSource>(
    rt: &R,
    alloc: Global,
    settings: &Settings,
    counts: Rc<StoreStats>,
    second: u64,
) -> Result<Server<Counted<ChosenStore>>, ServeError>
    ensures cache { let last = last_number settings.now.cas_from second in
        IfOk result (λ server. server.cache ≡ opening_cache settings.now.budget settings.now.items last) }
    ensures alone { IfOk result (λ server. server.connections ≡ []) }
{
    let store = new_store(rt, alloc, settings.kind, settings.items)?;
    let counter = CasCounter::starting_at(last_number(settings.cas_from, second));
    let store = Counted::new(store, counts);
    let cache = Cache::new(alloc, store, settings.budget, settings.items, counter);
    let mut server = Server::new(alloc, cache);
    server
        .keep_reserve(settings.service.reserve)
        .map_err(|_| ServeError::Memory)?;
    Ok(server)
}

/// Makes a store of this kind with no item, and room for `items` and one more.
fn new_store<R: RandomSource>(
    rt: &R,
    alloc: Global,
    kind: StoreKind,
    items: usize,
) -> Result<ChosenStore, ServeError>
    ensures empty { IfOk result (λ store. (held_by store).items ≡ []) }
    ensures most { IfOk result (λ store. (held_by store).most ≡ items + 1) }
{
    match kind {
        StoreKind::Table => {
            let hasher = SecretState::new(rt).map_err(|_| NO_SEED)?;
            match TableStore::with_hasher(alloc, items, hasher) {
                Ok(store) => Ok(ChosenStore::Table(store)),
                Err(_) => Err(ServeError::Memory),
            }
        }
        StoreKind::Lru => {
            let hasher = RandomState::new(rt).map_err(|_| NO_SEED)?;
            match LruStore::with_hasher(alloc, items, hasher) {
                Ok(store) => Ok(ChosenStore::Lru(store)),
                Err(_) => Err(ServeError::Memory),
            }
        }
    }
}
