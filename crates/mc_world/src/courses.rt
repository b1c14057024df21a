//! The course of a world: its pool, its clients, and the log of its events.
ghost use Rattle.mc_world.specs.Logs.{Log};
ghost use Rattle.mc_world.specs.Restarts.{losses_of};
ghost use Rattle.mc_world.specs.declared.logs.Logged.TheVariants.{Restarted};
ghost use Rattle.std.specs.Prelude.{◌≡◌, ◌<◌, ◌^◌, ◌↔◌, ◌++◌, [], ◌∷◌, length, IfErr, IfOk, OnOk, OnErr};

use crate::clients::Client;
use crate::errors::{Step, WorldError};
use crate::events::Event;
use crate::logs::Logged;
use crate::pools::Pool;
use mc_ring::Address;
use mc_server::Server;
use mc_store::Store;
use mc_text::Block;
use std::alloc::{AllocError, Global};
use std::marker::Model;
use std::mem;

/// A pool, its clients by the numbers of their sessions, and the log of what was done. Contracts see all three.
#[derive(Drop)]
pub(crate) struct Course<S: Store + Drop> {
    pub(crate) alloc: Global,
    pub(crate) pool: Pool<S>,
    pub(crate) clients: Vec<Client>,
    pub(crate) log: Vec<Logged>,
}

impl<S: Store + Drop> Model for Course<S> {
    ghost use Rattle.mc_world.specs.Worlds.{CourseState};

    ghost Value = { CourseState };

    ghost view = { λ c. record { pool = c.pool; clients = c.clients.items; log = c.log.items } };
}

impl<S: Store + Drop> Course<S> {
    ghost use Rattle.mc_world.specs.Applies.{CanHear, CanReachLate, CanReachServer, CanServe, CanServeLate, CanTakeBytes, IsThere};
    ghost use Rattle.mc_world.specs.Courses.{Applies, ByWay, CourseServes, HappensTo, IsDone};
    ghost use Rattle.mc_world.specs.Happens.{Does};
    ghost use Rattle.mc_world.specs.Joins.{HasLearnedServer, HasServerJoined};
    ghost use Rattle.mc_world.specs.Refusals.{cause_in, join_refusal_of, learn_refusal_of, refusal_in, restart_refusal_of};
    ghost use Rattle.mc_world.specs.Restarts.{HasServerRestarted};
    ghost use Rattle.mc_world.specs.WorldState.{proxy_at};
    ghost use Rattle.mc_world.specs.declared.errors.Step.TheVariants.{Done};
    ghost use Rattle.mc_world.specs.declared.events.Event.TheVariants.{ClientBytes, ClientGone, ClientTakes, ServerTurn, ToServer};

    /// Executes an event if it applies, and logs it. Room in the log is reserved first, so after the event nothing can fail. If the
    /// event does not apply, no memory is asked for. At an error nothing has changed.
    pub(crate) fn step(&mut self, event: &Event<Block>) -> Result<Step, WorldError>
        requires serves { CourseServes self.old }
        ensures done { IfOk result (λ step. Does step (IsDone event.now self.old self.new) (self.new ≡ self.old)) }
        ensures applies { IfOk result (λ step. (step ≡ Done) ↔ Applies event.now self.old.pool) }
        ensures err { OnErr result (self.new ≡ self.old) }
        ensures err_applies { OnErr result (Applies event.now self.old.pool) }
    {
        if !self.pool.applies(event) {
            return Ok(Step::Nothing);
        }
        self.log.reserve(1)?;
        let log = mem::replace(&mut self.log, Vec::new(self.alloc));
        let happened = self.happen(event);
        self.log = log;
        let Step::Done = happened? else {
            return Ok(Step::Nothing);
        };
        self.log.push_reserved(Logged::Happened(event.bare()));
        Ok(Step::Done)
    }

    /// Adds a server that has admitted nobody at a proxy that knows all servers, at the last place, and returns that place. At an
    /// error nothing has changed, and the server is returned with the cause.
    pub(crate) fn join(
        &mut self,
        proxy: usize,
        address: Address,
        server: Server<S>,
    ) -> Result<usize, (WorldError, Server<S>)>
        requires serves { CourseServes self.old }
        requires fresh { server ≡ record { cache = server.cache; connections = []; admitted = 0 } }
        ensures joined { OnOk result (HasServerJoined proxy address server.cache self.old self.new) }
        ensures place { IfOk result (λ place. place ≡ length (proxy_at self.old.pool proxy).ring.servers) }
        ensures refused { refusal_in result ≡ join_refusal_of self.old.pool proxy address }
        ensures given_back { IfErr result (λ refused. refused.1.cache ≡ server.cache) }
        ensures err { OnErr result (self.new ≡ self.old) }
    {
        if let Some(cause) = self.pool.join_refusal(proxy, &address) {
            return Err((cause, server));
        }
        let Ok(()) = self.log.reserve(1) else {
            return Err((WorldError::Memory, server));
        };
        let Ok(copy) = address.clone() else {
            return Err((WorldError::Memory, server));
        };
        let place = self.pool.join(proxy, address, server)?;
        self.log.push_reserved(Logged::Joined {
            proxy,
            server: place,
            address: copy,
            up: true,
        });
        Ok(place)
    }

    /// A proxy learns the server of its next place, under this address, and returns that place. Its link is down. At an error nothing has
    /// changed.
    pub(crate) fn learn(&mut self, proxy: usize, address: Address) -> Result<usize, WorldError>
        ensures learned { OnOk result (HasLearnedServer proxy address self.old self.new) }
        ensures place { IfOk result (λ place. place ≡ length (proxy_at self.old.pool proxy).ring.servers) }
        ensures refused { cause_in result ≡ learn_refusal_of self.old.pool proxy address }
        ensures err { OnErr result (self.new ≡ self.old) }
    {
        if let Some(cause) = self.pool.learn_refusal(proxy, &address) {
            return Err(cause);
        }
        self.log.reserve(1)?;
        let copy = address.clone()?;
        let place = self.pool.learn(proxy, address)?;
        self.log.push_reserved(Logged::Joined {
            proxy,
            server: place,
            address: copy,
            up: false,
        });
        Ok(place)
    }

    /// Replaces a server by another, which has admitted nobody. The link of each proxy to it is lost first, if it is up. At an error
    /// nothing has changed, and the new server is returned with the cause.
    pub(crate) fn restart(
        &mut self,
        place: usize,
        server: Server<S>,
    ) -> Result<(), (WorldError, Server<S>)>
        requires serves { CourseServes self.old }
        requires fresh { server ≡ record { cache = server.cache; connections = []; admitted = 0 } }
        ensures restarted { OnOk result (HasServerRestarted place server.cache self.old self.new) }
        ensures refused { refusal_in result ≡ restart_refusal_of (length self.old.pool.sites) place }
        ensures given_back { IfErr result (λ refused. refused.1.cache ≡ server.cache) }
        ensures err { OnErr result (self.new ≡ self.old) }
    {
        if place >= self.pool.sites().len() {
            return Err((WorldError::NoServer, server));
        }
        let kept = self.log.len();
        let Ok(()) = push_restart(&mut self.log, &self.pool, place) else {
            self.log.truncate(kept);
            return Err((WorldError::Memory, server));
        };
        self.pool.restart(place, server);
        Ok(())
    }

    /// Executes the event, without logging it.
    fn happen(&mut self, event: &Event<Block>) -> Result<Step, WorldError>
        requires serves { CourseServes self.old }
        ensures happens { IfOk result (λ step. Does step (HappensTo event.now self.old self.new) (self.new ≡ self.old)) }
        ensures applies { IfOk result (λ step. (step ≡ Done) ↔ Applies event.now self.old.pool) }
        ensures err { OnErr result (self.new ≡ self.old) }
    {
        match event {
            Event::ClientBytes { client, bytes } => self.hear(*client, bytes.as_slice()),
            Event::ClientGone { client } => self.let_go(*client),
            Event::ProxyTurn { client } => self.pool.take_request(*client),
            Event::ToServer {
                proxy,
                server,
                generation,
                count,
            } => self.reach_server(*proxy, *server, *generation, *count),
            Event::ServerTurn {
                proxy,
                server,
                generation,
                moment,
            } => self.serve(*proxy, *server, *generation, *moment),
            Event::ToProxy {
                proxy,
                server,
                count,
            } => self.pool.reach_proxy(*proxy, *server, *count),
            Event::ReplyTurn { proxy, server } => self.pool.take_reply(*proxy, *server),
            Event::Emit { client } => self.pool.put_answer(*client),
            Event::ClientTakes { client, count } => self.give(*client, *count),
            Event::LinkLost { proxy, server } => self.pool.lose_link(*proxy, *server),
            Event::LinkBack { proxy, server } => self.pool.return_link(*proxy, *server),
            Event::ServerSeesEnd {
                proxy,
                server,
                generation,
            } => Ok(self.pool.see_end(*proxy, *server, *generation)),
        }
    }

    /// A client sends bytes. Its text is extended once its session has them.
    fn hear(&mut self, number: u64, bytes: &[u8]) -> Result<Step, WorldError>
        requires serves { CourseServes self.old }
        ensures happens { IfOk result (λ step. Does step (HappensTo (ClientBytes number bytes.now) self.old self.new) (self.new ≡ self.old)) }
        ensures applies { IfOk result (λ step. (step ≡ Done) ↔ CanHear number bytes.now self.old.pool) }
        ensures err { OnErr result (self.new ≡ self.old) }
    {
        let Some(client) = self.clients.get_mut(number as usize) else {
            return Ok(Step::Nothing);
        };
        client.text.reserve(bytes.len())?;
        let Step::Done = self.pool.hear(number, bytes)? else {
            return Ok(Step::Nothing);
        };
        client.text.extend_from_slice(bytes).unwrap();
        Ok(Step::Done)
    }

    /// A client goes. Bytes that were emitted to it, and that it has not taken, are kept with those that it took.
    fn let_go(&mut self, number: u64) -> Result<Step, WorldError>
        requires serves { CourseServes self.old }
        ensures happens { IfOk result (λ step. Does step (HappensTo (ClientGone number) self.old self.new) (self.new ≡ self.old)) }
        ensures applies { IfOk result (λ step. (step ≡ Done) ↔ IsThere number self.old.pool) }
        ensures err { OnErr result (self.new ≡ self.old) }
    {
        let Some(client) = self.clients.get_mut(number as usize) else {
            return Ok(Step::Nothing);
        };
        let output = Vec::from_slice(self.alloc, self.pool.output(number))?;
        client.taken.reserve(output.len())?;
        let Step::Done = self.pool.client_goes(number) else {
            return Ok(Step::Nothing);
        };
        client.taken.extend_from_slice(output.as_slice()).unwrap();
        Ok(Step::Done)
    }

    /// A client takes the first of the bytes that were emitted to it: this number, or all.
    fn give(&mut self, number: u64, count: usize) -> Result<Step, WorldError>
        requires serves { CourseServes self.old }
        ensures happens { IfOk result (λ step. Does step (HappensTo (ClientTakes number count) self.old self.new) (self.new ≡ self.old)) }
        ensures applies { IfOk result (λ step. (step ≡ Done) ↔ CanTakeBytes number count self.old.pool) }
        ensures err { OnErr result (self.new ≡ self.old) }
    {
        let Some(client) = self.clients.get_mut(number as usize) else {
            return Ok(Step::Nothing);
        };
        let output = self.pool.output(number);
        let (first, _) = output.split_at(count.min(output.len()));
        let piece = Vec::from_slice(self.alloc, first)?;
        client.taken.reserve(piece.len())?;
        let Step::Done = self.pool.client_takes(number, count) else {
            return Ok(Step::Nothing);
        };
        client.taken.extend_from_slice(piece.as_slice()).unwrap();
        Ok(Step::Done)
    }

    /// Bytes of a generation arrive at its server.
    fn reach_server(
        &mut self,
        proxy: usize,
        server: usize,
        generation: u64,
        count: usize,
    ) -> Result<Step, WorldError>
        requires serves { CourseServes self.old }
        ensures happens { IfOk result (λ step. Does step (HappensTo (ToServer proxy server generation count) self.old self.new) (self.new ≡ self.old)) }
        ensures applies { IfOk result (λ step. (step ≡ Done)
            ↔ ByWay proxy server generation self.old.pool (CanReachServer proxy server count self.old.pool) (CanReachLate proxy server generation count self.old.pool)) }
        ensures err { OnErr result (self.new ≡ self.old) }
    {
        if self.pool.lives(proxy, server, generation) {
            return self.pool.reach_server(proxy, server, count);
        }
        self.pool.late_bytes(proxy, server, generation, count)
    }

    /// A server takes a request of a generation.
    fn serve(
        &mut self,
        proxy: usize,
        server: usize,
        generation: u64,
        moment: u64,
    ) -> Result<Step, WorldError>
        requires serves { CourseServes self.old }
        ensures happens { IfOk result (λ step. Does step (HappensTo (ServerTurn proxy server generation moment) self.old self.new) (self.new ≡ self.old)) }
        ensures applies { IfOk result (λ step. (step ≡ Done)
            ↔ ((moment < 2 ^ 63) × ByWay proxy server generation self.old.pool (CanServe proxy server self.old.pool) (CanServeLate proxy server generation self.old.pool))) }
        ensures err { OnErr result (self.new ≡ self.old) }
    {
        if moment >= 1 << 63 {
            return Ok(Step::Nothing);
        }
        if self.pool.lives(proxy, server, generation) {
            return self.pool.server_turn(proxy, server, moment);
        }
        self.pool.late_turn(proxy, server, generation, moment)
    }
}

/// Logs that the server of a place restarts: before it, each link of a proxy to it that is up is lost.
fn push_restart<S: Store + Drop>(
    log: &mut Vec<Logged>,
    pool: &Pool<S>,
    place: usize,
) -> Result<(), AllocError>
    ensures logged { OnOk result (log.new.items ≡ (log.old.items ++ losses_of place 0 pool.now.proxies) ++ Restarted place ∷ []) }
    ensures err { OnErr result ((more : Log) × (log.new.items ≡ log.old.items ++ more)) }
{
    for proxy in 0..pool.proxies() {
        if pool.is_up(proxy, place) {
            log.push(Logged::Happened(Event::LinkLost {
                proxy,
                server: place,
            }))?;
        }
    }
    log.push(Logged::Restarted { server: place })?;
    Ok(())
}
