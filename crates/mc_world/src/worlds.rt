//! The world: a pool with the log of what was done to it, and its account.
ghost use Rattle.std.specs.Prelude.{◌≡◌, ◌≤◌, ◌↔◌, ◌⊎◌, [], ◌∷◌, length, sum, All, IfErr, IfOk, IsErrOf, IsTrue, OnOk, OnErr};

use crate::clients::Client;
use crate::courses::Course;
use crate::errors::{Step, WorldError};
use crate::events::Event;
use crate::logs::Logged;
use crate::openings::{empty_stores, fresh_server, opened_course};
use mc_cache::is_within_bounds;
use mc_history::Entry;
use mc_ring::{Address, Ring};
use mc_route::Losses;
use mc_store::{ListStore, Store};
use mc_text::Block;
use std::alloc::Global;
use std::marker::Model;

/// The most clients of a world, of all its proxies.
pub const MAX_CLIENTS: usize = 1024;

/// The most proxies of a world.
pub const MAX_PROXIES: usize = 64;

/// Proxies and their servers, the ways between them, their clients, and all that was done. Contracts see all of it, and that it gives
/// account. Each client's bytes are its requests' answers in order. Each server's executed commands are one history, which the abstract
/// cache replays life by life. Each answered command is once in its owner's history, and each lost one at most once.
#[derive(Drop)]
pub struct World<S: Store + Drop> {
    alloc: Global,
    pub(crate) course: Course<S>,
    /// The choice for lost commands.
    losses: Losses,
    /// The ring at the opening, without servers that joined later.
    opening: Ring,
    budget: u64,
    items: usize,
}

impl<S: Store + Drop> Model for World<S> {
    ghost use Rattle.mc_world.specs.CourseHolds.{WorldHolds};
    ghost use Rattle.mc_world.specs.Worlds.{WorldState};

    ghost Value = { WorldState };

    ghost view = { λ w. record { course = w.course; losses = w.losses; opening = w.opening; budget = w.budget; items = w.items } };

    ghost invariant = { λ w. WorldHolds (record { course = w.course; losses = w.losses; opening = w.opening; budget = w.budget; items = w.items }) };
}

impl World<ListStore> {
    ghost use Rattle.mc_world.specs.Openings.{CanOpen};
    ghost use Rattle.mc_world.specs.Steps.{GivesAccount};
    ghost use Rattle.mc_world.specs.Worlds.{opening_world};

    /// A world of one proxy, over plain lists, in which nothing has happened: its clients are admitted, and all links are up with the first
    /// generation. The choice for lost commands is [`Losses::Told`].
    ///
    /// The call returns `BadWorld` for more than [`MAX_CLIENTS`] clients, and for bounds that no cache may have: 1 to 1,099,511,627,776
    /// bytes, and 1 to 16,777,216 items.
    pub fn new(
        alloc: Global,
        ring: Ring,
        clients: usize,
        budget: u64,
        items: usize,
    ) -> Result<World<ListStore>, WorldError>
        ensures opened { IfOk result (λ world. world ≡ opening_world ring clients budget items) }
        ensures bad { IsErrOf result WorldError.BadWorld ↔ (CanOpen ring (clients ∷ []) budget items (length ring.servers) → ⊥) }
        ensures only { IfErr result (λ e. (e ≡ WorldError.BadWorld) ⊎ (e ≡ WorldError.Memory)) }
        ensures account { IfOk result GivesAccount }
    {
        if clients > MAX_CLIENTS || !is_within_bounds(budget, items) {
            return Err(WorldError::BadWorld);
        }
        let stores = empty_stores(alloc, ring.servers().len())?;
        World::with_stores(alloc, ring, clients, budget, items, stores)
    }
}

impl<S: Store + Drop> World<S> {
    ghost use Rattle.mc_cache.specs.CacheState.{HasRoom, IsWithinBounds};
    ghost use Rattle.mc_ring.specs.Rings.{IsRing};
    ghost use Rattle.mc_world.specs.Courses.{Applies};
    ghost use Rattle.mc_world.specs.Joins.{HasLearnedServer, HasServerJoined};
    ghost use Rattle.mc_world.specs.Refusals.{cause_in, join_refusal_of, learn_refusal_of, refusal_in, restart_refusal_of};
    ghost use Rattle.mc_world.specs.Restarts.{HasServerRestarted};
    ghost use Rattle.mc_world.specs.Openings.{CanOpen};
    ghost use Rattle.mc_world.specs.Steps.{GivesAccount, RunsTo, StepsTo};
    ghost use Rattle.mc_world.specs.WorldState.{proxy_at};
    ghost use Rattle.mc_world.specs.Worlds.{cache_of, history_of, opening_world, put_out_of, text_of, world_opened};

    /// A world of one proxy in which nothing has happened: its clients are admitted, and all links are up with the first generation. There is a
    /// store for each server of the ring; each is empty, and may store more items than the limit. The choice for lost commands is
    /// [`Losses::Told`].
    ///
    /// The call returns `BadWorld` for more than [`MAX_CLIENTS`] clients, for bounds that no cache may have, and if the number of
    /// stores is not the number of servers.
    pub fn with_stores(
        alloc: Global,
        ring: Ring,
        clients: usize,
        budget: u64,
        items: usize,
        stores: Vec<S>,
    ) -> Result<World<S>, WorldError>
        requires empty { All (λ store. S.items store ≡ []) stores.items }
        requires room { All (λ store. HasRoom items (S.most store)) stores.items }
        ensures opened { IfOk result (λ world. world ≡ opening_world ring clients budget items) }
        ensures bad { IsErrOf result WorldError.BadWorld ↔ (CanOpen ring (clients ∷ []) budget items (length stores.items) → ⊥) }
        ensures only { IfErr result (λ e. (e ≡ WorldError.BadWorld) ⊎ (e ≡ WorldError.Memory)) }
        ensures account { IfOk result GivesAccount }
    {
        World::with_losses(alloc, ring, Losses::Told, clients, budget, items, stores)
    }

    /// Likewise, with a choice for lost commands.
    pub fn with_losses(
        alloc: Global,
        ring: Ring,
        losses: Losses,
        clients: usize,
        budget: u64,
        items: usize,
        stores: Vec<S>,
    ) -> Result<World<S>, WorldError>
        requires empty { All (λ store. S.items store ≡ []) stores.items }
        requires room { All (λ store. HasRoom items (S.most store)) stores.items }
        ensures opened { IfOk result (λ world. world ≡ world_opened losses ring (clients ∷ []) budget items) }
        ensures bad { IsErrOf result WorldError.BadWorld ↔ (CanOpen ring (clients ∷ []) budget items (length stores.items) → ⊥) }
        ensures only { IfErr result (λ e. (e ≡ WorldError.BadWorld) ⊎ (e ≡ WorldError.Memory)) }
        ensures account { IfOk result GivesAccount }
    {
        World::with_proxies(alloc, ring, losses, &[clients], budget, items, stores)
    }

    /// Likewise, with a proxy for each of these numbers of clients. The first proxy has the first clients, and so on.
    ///
    /// The call also returns `BadWorld` for no proxy, and for more than [`MAX_PROXIES`].
    pub fn with_proxies(
        alloc: Global,
        ring: Ring,
        losses: Losses,
        clients: &[usize],
        budget: u64,
        items: usize,
        stores: Vec<S>,
    ) -> Result<World<S>, WorldError>
        requires empty { All (λ store. S.items store ≡ []) stores.items }
        requires room { All (λ store. HasRoom items (S.most store)) stores.items }
        ensures opened { IfOk result (λ world. world ≡ world_opened losses ring clients.now budget items) }
        ensures bad { IsErrOf result WorldError.BadWorld ↔ (CanOpen ring clients.now budget items (length stores.items) → ⊥) }
        ensures only { IfErr result (λ e. (e ≡ WorldError.BadWorld) ⊎ (e ≡ WorldError.Memory)) }
        ensures account { IfOk result GivesAccount }
    {
        if !are_few(clients)
            || !is_within_bounds(budget, items)
            || stores.len() != ring.servers().len()
        {
            return Err(WorldError::BadWorld);
        }
        let course = opened_course(alloc, &ring, losses, clients, budget, items, stores)?;
        Ok(World {
            alloc,
            course,
            losses,
            opening: ring,
            budget,
            items,
        })
    }

    /// Executes an event if it applies. At `Memory` nothing has changed, and the event applies.
    pub fn step(&mut self, event: &Event<Block>) -> Result<Step, WorldError>
        ensures steps { IfOk result (λ step. StepsTo event.now step self.old.course self.new.course) }
        ensures opened { (self.new.opening ≡ self.old.opening) × (self.new.budget ≡ self.old.budget) × (self.new.items ≡ self.old.items) × (self.new.losses ≡ self.old.losses) }
        ensures account { GivesAccount self.new }
        ensures err { OnErr result (self.new ≡ self.old) }
        ensures err_applies { OnErr result (Applies event.now self.old.course.pool) }
        ensures cause { IfErr result (λ e. e ≡ WorldError.Memory) }
    {
        self.course.step(event).map_err(|_| WorldError::Memory)
    }

    /// Executes events in sequence, and returns how many were refused memory: those have changed nothing.
    pub fn run(&mut self, events: &[Event<Block>]) -> usize
        ensures runs { RunsTo events.now self.old.course self.new.course result }
        ensures opened { (self.new.opening ≡ self.old.opening) × (self.new.budget ≡ self.old.budget) × (self.new.items ≡ self.old.items) × (self.new.losses ≡ self.old.losses) }
        ensures account { GivesAccount self.new }
    {
        let mut refused = 0;
        for event in events {
            if self.step(event).is_err() {
                refused += 1;
            }
        }
        self.gives_account();
        refused
    }

    /// Each world gives account. The call does nothing: its contract is the law.
    pub fn gives_account(&self)
        ensures { GivesAccount self.now }
    {
        let _ = &self.alloc;
    }

    /// Each world was opened with a ring, and with bounds that a cache may have. The call does nothing: its contract is the law.
    pub fn opens_well(&self)
        ensures ring { IsRing self.now.opening }
        ensures bounds { IsWithinBounds self.now.budget self.now.items }
    {
        let _ = self.opening.servers();
    }

    /// Adds a server over this store at the last place, with the bounds of the others, and returns that place. It joins at the first
    /// proxy: see [`World::join_server_at`].
    pub fn join_server(&mut self, address: Address, store: S) -> Result<usize, (WorldError, S)>
        requires empty { S.items store ≡ [] }
        requires room { HasRoom self.old.items (S.most store) }
        ensures joined { OnOk result (HasServerJoined 0 address (cache_of self.old) self.old.course self.new.course) }
        ensures place { IfOk result (λ place. place ≡ length (proxy_at self.old.course.pool 0).ring.servers) }
        ensures opened { (self.new.opening ≡ self.old.opening) × (self.new.budget ≡ self.old.budget) × (self.new.items ≡ self.old.items) × (self.new.losses ≡ self.old.losses) }
        ensures account { GivesAccount self.new }
        ensures refused { refusal_in result ≡ join_refusal_of self.old.course.pool 0 address }
        ensures given_back { IfErr result (λ refused. (S.items refused.1 ≡ []) × HasRoom self.old.items (S.most refused.1)) }
        ensures err { OnErr result (self.new ≡ self.old) }
    {
        self.join_server_at(0, address, store)
    }

    /// Adds a server over this store at the last place, with the bounds of the others, and returns that place. It joins at this proxy,
    /// whose link to it is up; another proxy learns it later ([`World::learn_server`]). A request that was taken before keeps its owners,
    /// and no item moves.
    ///
    /// The error is `NoProxy` if there is no such proxy, else `Behind` if it has not learned all servers, else `RingFull` if its ring has
    /// 64 servers, else `AlreadyThere` if that has one of this address, else `Memory` if memory is refused. Then nothing has changed,
    /// and the store is returned, as empty as it was.
    pub fn join_server_at(
        &mut self,
        proxy: usize,
        address: Address,
        store: S,
    ) -> Result<usize, (WorldError, S)>
        requires empty { S.items store ≡ [] }
        requires room { HasRoom self.old.items (S.most store) }
        ensures joined { OnOk result (HasServerJoined proxy address (cache_of self.old) self.old.course self.new.course) }
        ensures place { IfOk result (λ place. place ≡ length (proxy_at self.old.course.pool proxy).ring.servers) }
        ensures opened { (self.new.opening ≡ self.old.opening) × (self.new.budget ≡ self.old.budget) × (self.new.items ≡ self.old.items) × (self.new.losses ≡ self.old.losses) }
        ensures account { GivesAccount self.new }
        ensures refused { refusal_in result ≡ join_refusal_of self.old.course.pool proxy address }
        ensures given_back { IfErr result (λ refused. (S.items refused.1 ≡ []) × HasRoom self.old.items (S.most refused.1)) }
        ensures err { OnErr result (self.new ≡ self.old) }
    {
        let server = fresh_server(self.alloc, self.budget, self.items, store);
        match self.course.join(proxy, address, server) {
            Ok(place) => Ok(place),
            Err((cause, server)) => Err((cause, server.into_store())),
        }
    }

    /// A proxy learns the server of its next place, under this address, and returns that place. Its link to it is down until it comes back.
    ///
    /// The error is `NoProxy` if there is no such proxy, else `NoServer` if it knows all servers, else `RingFull` if its ring has 64
    /// servers, else `AlreadyThere` if that has one of this address, else `Memory` if memory is refused. Then nothing has changed.
    pub fn learn_server(&mut self, proxy: usize, address: Address) -> Result<usize, WorldError>
        ensures learned { OnOk result (HasLearnedServer proxy address self.old.course self.new.course) }
        ensures place { IfOk result (λ place. place ≡ length (proxy_at self.old.course.pool proxy).ring.servers) }
        ensures opened { (self.new.opening ≡ self.old.opening) × (self.new.budget ≡ self.old.budget) × (self.new.items ≡ self.old.items) × (self.new.losses ≡ self.old.losses) }
        ensures account { GivesAccount self.new }
        ensures refused { cause_in result ≡ learn_refusal_of self.old.course.pool proxy address }
        ensures err { OnErr result (self.new ≡ self.old) }
    {
        self.course.learn(proxy, address)
    }

    /// The server of a place dies and begins anew over this store, with the bounds of the others. Each proxy's link to it is lost, if it was up. Each
    /// of its connections and lost generations is gone with its bytes. Its cache is empty, and numbers of items begin at 1.
    ///
    /// The error is `NoServer` if no server has this place, else `Memory` if memory is refused. Then nothing has changed, and the store
    /// is returned, as empty as it was.
    pub fn restart_server(&mut self, server: usize, store: S) -> Result<(), (WorldError, S)>
        requires empty { S.items store ≡ [] }
        requires room { HasRoom self.old.items (S.most store) }
        ensures restarted { OnOk result (HasServerRestarted server (cache_of self.old) self.old.course self.new.course) }
        ensures opened { (self.new.opening ≡ self.old.opening) × (self.new.budget ≡ self.old.budget) × (self.new.items ≡ self.old.items) × (self.new.losses ≡ self.old.losses) }
        ensures account { GivesAccount self.new }
        ensures refused { refusal_in result ≡ restart_refusal_of (length self.old.course.pool.sites) server }
        ensures given_back { IfErr result (λ refused. (S.items refused.1 ≡ []) × HasRoom self.old.items (S.most refused.1)) }
        ensures err { OnErr result (self.new ≡ self.old) }
    {
        let fresh = fresh_server(self.alloc, self.budget, self.items, store);
        match self.course.restart(server, fresh) {
            Ok(()) => Ok(()),
            Err((cause, server)) => Err((cause, server.into_store())),
        }
    }

    /// The bytes that a client sent.
    pub fn text(&self, client: u64) -> &[u8]
        ensures { result.now ≡ text_of self.now.course client }
    {
        match self.course.clients.get(client as usize) {
            Some(client) => client.text.as_slice(),
            None => &[],
        }
    }

    /// All bytes that were emitted to a client: those that it took, and those that it has not taken. A client that goes takes all.
    pub fn put_out(&self, client: u64) -> Result<Vec<u8>, WorldError>
        ensures put_out { IfOk result (λ bytes. bytes.items ≡ put_out_of self.now.course client) }
        ensures cause { IfErr result (λ e. e ≡ WorldError.Memory) }
    {
        let taken: &[u8] = match self.course.clients.get(client as usize) {
            Some(client) => client.taken.as_slice(),
            None => &[],
        };
        let output = self.course.pool.output(client);
        let mut bytes = Vec::with_capacity(self.alloc, taken.len().saturating_add(output.len()))?;
        bytes.extend_from_slice(taken)?;
        bytes.extend_from_slice(output)?;
        Ok(bytes)
    }

    /// What the server of a place took in all its lives, in order: empty if there is no server.
    pub fn history(&self, server: usize) -> &[Entry]
        ensures { result.now ≡ history_of self.now.course server }
    {
        self.course.pool.history(server)
    }

    /// What was done, the oldest first, without the bytes of clients.
    pub fn log(&self) -> &[Logged]
        ensures { result.now ≡ self.now.course.log }
    {
        self.course.log.as_slice()
    }
}

/// Whether there are 1 to [`MAX_PROXIES`] proxies with these numbers of clients, and at most [`MAX_CLIENTS`] clients.
fn are_few(clients: &[usize]) -> bool
    ensures { IsTrue result ↔ ((1 ≤ length clients.now) × (length clients.now ≤ MAX_PROXIES) × (sum clients.now ≤ MAX_CLIENTS)) }
{
    if clients.is_empty() || clients.len() > MAX_PROXIES {
        return false;
    }
    let mut all = 0;
    for count in clients {
        if *count > MAX_CLIENTS - all {
            return false;
        }
        all += *count;
    }
    true
}
