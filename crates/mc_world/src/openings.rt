//! How a world is opened: its proxies with all clients admitted and all links up, and its servers.
ghost use Rattle.std.specs.Prelude.{◌≡◌, ◌<◌, ◌+◌, ◌++◌, ◌^◌, [], length, replicate, sum, All, IfOk, IsOkUnless, OnOk};
ghost use Rattle.mc_cache.specs.CacheState.{HasRoom, IsWithinBounds, opening_cache};
ghost use Rattle.mc_world.specs.Worlds.{first_site, homes_from, nobody, opening_proxies, opening_proxy, world_opened};
ghost use Rattle.mc_world.specs.declared.errors.WorldError.TheVariants as errors;

use crate::clients::Client;
use crate::courses::Course;
use crate::errors::WorldError;
use crate::pools::Pool;
use crate::proxies::Proxies;
use crate::sites::Site;
use crate::ways::Way;
use mc_cache::Cache;
use mc_item::CasCounter;
use mc_proxy::Proxy;
use mc_ring::Ring;
use mc_route::Losses;
use mc_server::Server;
use mc_store::{ListStore, Store};
use std::alloc::Global;

/// A course in which nothing has happened, with a proxy for each of these numbers of clients, and a store for each server of the ring.
pub(crate) fn opened_course<S: Store + Drop>(
    alloc: Global,
    ring: &Ring,
    losses: Losses,
    clients: &[usize],
    budget: u64,
    items: usize,
    stores: Vec<S>,
) -> Result<Course<S>, WorldError>
    requires few { sum clients.now < 2 ^ 64 }
    requires bounds { IsWithinBounds budget items }
    requires each { length stores.items ≡ length ring.now.servers }
    requires empty { All (λ store. S.items store ≡ []) stores.items }
    requires room { All (λ store. HasRoom items (S.most store)) stores.items }
    ensures opened { IfOk result (λ course. course ≡ (world_opened losses ring.now clients.now budget items).course) }
    ensures only_memory { IsOkUnless result errors.Memory }
{
    let sites = opened_sites(alloc, budget, items, stores, clients.len())?;
    let proxies = opened_proxies(alloc, ring, losses, clients)?;
    let homes = homes_of(alloc, clients)?;
    let clients = opened_clients(alloc, homes.len())?;
    Ok(Course {
        alloc,
        pool: Pool::new(alloc, homes, Proxies::new(proxies), sites),
        clients,
        log: Vec::new(alloc),
    })
}

/// The number of the proxy of each client.
fn homes_of(alloc: Global, clients: &[usize]) -> Result<Vec<usize>, WorldError>
    ensures homes { IfOk result (λ homes. homes.items ≡ homes_from 0 clients.now) }
    ensures only_memory { IsOkUnless result errors.Memory }
{
    let mut homes = Vec::new(alloc);
    for proxy in 0..clients.len() {
        push_home(&mut homes, proxy, clients[proxy])?;
    }
    Ok(homes)
}

/// This number of clients more have this proxy.
fn push_home(homes: &mut Vec<usize>, proxy: usize, clients: usize) -> Result<(), WorldError>
    ensures pushed { OnOk result (homes.new.items ≡ homes.old.items ++ replicate clients proxy) }
    ensures only_memory { IsOkUnless result errors.Memory }
{
    for _ in 0..clients {
        homes.push(proxy)?;
    }
    Ok(())
}

/// A proxy for each of these numbers of clients. Sessions have their clients' numbers.
fn opened_proxies(
    alloc: Global,
    ring: &Ring,
    losses: Losses,
    clients: &[usize],
) -> Result<Vec<Proxy>, WorldError>
    requires few { sum clients.now < 2 ^ 64 }
    ensures opened { IfOk result (λ proxies. proxies.items ≡ opening_proxies losses ring.now 0 clients.now) }
    ensures only_memory { IsOkUnless result errors.Memory }
{
    let mut proxies = Vec::with_capacity(alloc, clients.len())?;
    let mut first = 0;
    for place in 0..clients.len() {
        let count = clients[place];
        proxies.push(opened_proxy(alloc, ring.copy()?, losses, first, count)?)?;
        first += count;
    }
    Ok(proxies)
}

/// A proxy that has admitted this number of clients, the first under this number, and whose links are all up with the first
/// generation. The clients of the numbers before have come and gone.
fn opened_proxy(
    alloc: Global,
    ring: Ring,
    losses: Losses,
    first: usize,
    clients: usize,
) -> Result<Proxy, WorldError>
    requires few { first + clients < 2 ^ 64 }
    ensures opened { IfOk result (λ proxy. proxy ≡ opening_proxy losses ring first clients) }
    ensures only_memory { IsOkUnless result errors.Memory }
{
    let mut proxy = raised_proxy(alloc, ring, losses)?;
    pass_by(&mut proxy, first)?;
    for _ in 0..clients {
        proxy.admit()?;
    }
    Ok(proxy)
}

/// A proxy that has admitted no client, and whose links are all up with the first generation.
fn raised_proxy(alloc: Global, ring: Ring, losses: Losses) -> Result<Proxy, WorldError>
    ensures opened { IfOk result (λ proxy. proxy ≡ opening_proxy losses ring 0 0) }
    ensures only_memory { IsOkUnless result errors.Memory }
{
    let places = ring.servers().len();
    let mut proxy = Proxy::with_losses(alloc, ring, losses)?;
    for place in 0..places {
        proxy.back(place)?;
    }
    Ok(proxy)
}

/// This number of clients come to a proxy that has admitted none, and go at once.
fn pass_by(proxy: &mut Proxy, clients: usize) -> Result<(), WorldError>
    requires { proxy.old ≡ opening_proxy proxy.old.losses proxy.old.ring 0 0 }
    ensures passed { OnOk result (proxy.new ≡ opening_proxy proxy.old.losses proxy.old.ring clients 0) }
    ensures only_memory { IsOkUnless result errors.Memory }
{
    for _ in 0..clients {
        let client = proxy.admit()?;
        proxy.gone(client)?;
    }
    Ok(())
}

/// A server for each of these stores, which has admitted the connection of each of this many proxies.
fn opened_sites<S: Store + Drop>(
    alloc: Global,
    budget: u64,
    items: usize,
    stores: Vec<S>,
    proxies: usize,
) -> Result<Vec<Site<S>>, WorldError>
    requires bounds { IsWithinBounds budget items }
    requires empty { All (λ store. S.items store ≡ []) stores.items }
    requires room { All (λ store. HasRoom items (S.most store)) stores.items }
    ensures opened { IfOk result (λ sites. sites.items ≡ replicate (length stores.items) (first_site (opening_cache budget items 0) proxies)) }
    ensures only_memory { IsOkUnless result errors.Memory }
{
    let mut sites = Vec::with_capacity(alloc, stores.len())?;
    for store in stores {
        sites.push(opened_site(alloc, budget, items, store, proxies)?)?;
    }
    Ok(sites)
}

/// A server over a store, which has admitted the connection of each of this many proxies.
fn opened_site<S: Store + Drop>(
    alloc: Global,
    budget: u64,
    items: usize,
    store: S,
    proxies: usize,
) -> Result<Site<S>, WorldError>
    requires bounds { IsWithinBounds budget items }
    requires empty { S.items store ≡ [] }
    requires room { HasRoom items (S.most store) }
    ensures opened { IfOk result (λ site. site ≡ first_site (opening_cache budget items 0) proxies) }
    ensures only_memory { IsOkUnless result errors.Memory }
{
    let mut server = fresh_server(alloc, budget, items, store);
    let mut ways = Vec::with_capacity(alloc, proxies)?;
    for _ in 0..proxies {
        let connection = server.admit()?;
        ways.push(Way {
            generation: 1,
            connection,
            ahead: 0,
        })?;
    }
    Ok(Site::first(alloc, server, ways))
}

/// A server over a store, which has admitted nobody.
pub(crate) fn fresh_server<S: Store + Drop>(
    alloc: Global,
    budget: u64,
    items: usize,
    store: S,
) -> Server<S>
    requires bounds { IsWithinBounds budget items }
    requires empty { S.items store ≡ [] }
    requires room { HasRoom items (S.most store) }
    ensures { result ≡ record { cache = opening_cache budget items 0; connections = []; admitted = 0 } }
{
    let counter = CasCounter::starting_at(0);
    let cache = Cache::new(alloc, store, budget, items, counter);
    Server::new(alloc, cache)
}

/// Clients that sent and took nothing.
fn opened_clients(alloc: Global, clients: usize) -> Result<Vec<Client>, WorldError>
    ensures opened { IfOk result (λ list. list.items ≡ replicate clients nobody) }
    ensures only_memory { IsOkUnless result errors.Memory }
{
    let mut list = Vec::with_capacity(alloc, clients)?;
    for _ in 0..clients {
        list.push(Client::new(alloc))?;
    }
    Ok(list)
}

/// This number of stores without items.
pub(crate) fn empty_stores(alloc: Global, count: usize) -> Result<Vec<ListStore>, WorldError>
    ensures empty { IfOk result (λ stores. stores.items ≡ replicate count []) }
    ensures only_memory { IsOkUnless result errors.Memory }
{
    let mut stores = Vec::with_capacity(alloc, count)?;
    for _ in 0..count {
        stores.push(ListStore::new(alloc))?;
    }
    Ok(stores)
}
