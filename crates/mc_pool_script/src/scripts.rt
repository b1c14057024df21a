//! Pool scripts.
ghost use Rattle.std.specs.Prelude.{ℕ, ◌≡◌, ◌≤◌, ◌<◌, ◌+◌, ◌++◌, ◌*◌, ◌^◌, None, Ok, length, slice_index_or, IfOk, IfErr, IfSome, IsOkUnless, OnErr, OnOk};
ghost use Rattle.mc_cache.specs.CacheState.{IsWithinBounds};
ghost use Rattle.mc_ring.specs.Refusals.{cause_of, refusal_in};
ghost use Rattle.mc_ring.specs.Rings.{Shows};
ghost use Rattle.mc_script.specs.ScriptSeen.{Explains};
ghost use Rattle.mc_pool_script.specs.PoolLines.{HasMoment, line_of};
ghost use Rattle.mc_pool_script.specs.PoolScripts.{Gives, IsOpeningRing, IsPoolScript, clients_of, followed, head_of, joined_by, known_after, known_of, last_limits_of, limits_of, losses_named, losses_of, pairs_of_pool, point_of, pool_script_of, read_all, read_more, refusal_of_pool, servers_of, with_line, with_losses, with_point};

use crate::addresses::first_addresses;
use crate::lines::PoolLine;
use crate::losses::losses_named;
use crate::points::read_point;
use crate::reading::read_line;
use mc_cache::{MAX_BUDGET, MAX_ITEMS};
use mc_ring::{Address, Point, Ring, RingError, SERVER_LIMIT};
use mc_route::Losses;
use mc_script::{LineIter, SimError, cut_at_space, lines_of, read_limit};
use mc_world::{MAX_CLIENTS, MAX_PROXIES};
use std::alloc::{AllocError, Global};
use std::marker::Model;

/// A pool script. Contracts see its content.
#[derive(Drop)]
pub struct PoolScript {
    servers: usize,
    /// How many clients each proxy has.
    clients: u64,
    proxies: usize,
    budget: u64,
    items: usize,
    points: Vec<Point>,
    /// The choice for lost commands, if a line names it.
    losses: Option<Losses>,
    lines: Vec<PoolLine>,
    /// The addresses of all servers, those that join included.
    addresses: Vec<Address>,
    /// How many of them each proxy knows.
    known: Vec<usize>,
}

impl Model for PoolScript {
    ghost use Rattle.std.specs.Prelude.{◌≡◌};
    ghost use Rattle.mc_pool_script.specs.PoolScripts.{IsPoolScript, PoolSeen, known_of, servers_of};

    ghost Value = { PoolSeen };

    ghost view = { λ s. record { servers = s.servers; clients = s.clients; proxies = s.proxies; budget = s.budget; items = s.items; points = s.points.items; losses = s.losses; lines = s.lines.items } };

    ghost invariant = { λ s. IsPoolScript (record { servers = s.servers; clients = s.clients; proxies = s.proxies; budget = s.budget; items = s.items; points = s.points.items; losses = s.losses; lines = s.lines.items })
        × (s.addresses.items ≡ servers_of (record { servers = s.servers; clients = s.clients; proxies = s.proxies; budget = s.budget; items = s.items; points = s.points.items; losses = s.losses; lines = s.lines.items }))
        × (s.known.items ≡ known_of (record { servers = s.servers; clients = s.clients; proxies = s.proxies; budget = s.budget; items = s.items; points = s.points.items; losses = s.losses; lines = s.lines.items })) };
}

impl PoolScript {
    /// How many clients each proxy has: 1 to 1024.
    pub fn clients(&self) -> usize
        ensures clients { result ≡ self.now.clients }
        ensures script { IsPoolScript self.now }
    {
        self.clients as usize
    }

    /// How many proxies the pool has: 1 to 64.
    pub fn proxies(&self) -> usize
        ensures proxies { result ≡ self.now.proxies }
        ensures script { IsPoolScript self.now }
    {
        self.proxies
    }

    /// How many clients the pool has: 1 to 1024, of the numbers from 0 on.
    pub fn all_clients(&self) -> usize
        ensures clients { result ≡ clients_of self.now }
        ensures script { IsPoolScript self.now }
    {
        self.clients as usize * self.proxies
    }

    /// How many servers it begins with: 1 to 64.
    pub fn servers(&self) -> usize
        ensures servers { result ≡ self.now.servers }
        ensures script { IsPoolScript self.now }
    {
        self.servers
    }

    /// The budget of each server's cache, in bytes: 1 to 1,099,511,627,776.
    pub fn budget(&self) -> u64
        ensures budget { result ≡ self.now.budget }
        ensures script { IsPoolScript self.now }
    {
        self.budget
    }

    /// How many items each server's cache has room for: 1 to 16,777,216.
    pub fn items(&self) -> usize
        ensures items { result ≡ self.now.items }
        ensures script { IsPoolScript self.now }
    {
        self.items
    }

    /// The choice for lost commands: [`Losses::Told`] if no line names it.
    pub fn losses(&self) -> Losses
        ensures losses { result ≡ losses_of self.now }
        ensures script { IsPoolScript self.now }
    {
        self.losses.unwrap_or(Losses::Told)
    }

    /// The lines after the head, the points and the choice, in order.
    pub fn lines(&self) -> &[PoolLine]
        ensures lines { result.now ≡ self.now.lines }
        ensures script { IsPoolScript self.now }
    {
        self.lines.as_slice()
    }

    /// The number of servers once all lines were played: the first ones, and those that join.
    pub fn server_count(&self) -> usize
        ensures { result ≡ length (servers_of self.now) }
    {
        self.addresses.as_slice().len()
    }

    /// The ring that the pool begins with: the first servers, with the points that the script gives, or with their own 160
    /// each if it gives none.
    pub fn ring(&self, alloc: Global) -> Result<Ring, SimError>
        ensures ring { IfOk result (λ ring. IsOpeningRing self.now ring) }
        ensures only_memory { IsOkUnless result SimError.Memory }
    {
        let servers = first_addresses(alloc, self.servers as u64)?;
        match made_ring(alloc, servers.as_slice(), self.points.as_slice()) {
            Ok(ring) => Ok(ring),
            Err(error) => Err(refused_memory(error)),
        }
    }

    /// Adds a line to the script, if it is one, and returns whether it did.
    #[tactic(auto, unfolding(crate::specs::PoolScripts::read_more))]
    fn read(&mut self, alloc: Global, line: &[u8]) -> Result<bool, SimError>
        ensures read { IfOk result (λ more. Gives more (read_more self.old line.now) self.new) }
        ensures only_memory { IsOkUnless result SimError.Memory }
    {
        let Some((name, text)) = cut_at_space(line) else {
            return Ok(false);
        };
        if name == b"point".as_slice() && self.lines.is_empty() {
            return self.add_point(text);
        }
        if name == b"losses".as_slice() && self.lines.is_empty() {
            return Ok(self.add_losses(text));
        }
        self.add_line(alloc, line)
    }

    /// Adds a point, if the text is one, and returns whether it did.
    fn add_point(&mut self, text: &[u8]) -> Result<bool, SimError>
        ensures read { IfOk result (λ more. Gives more (with_point self.old (point_of self.old.servers text.now)) self.new) }
        ensures only_memory { IsOkUnless result SimError.Memory }
    {
        let Some(point) = read_point(self.servers, text) else {
            return Ok(false);
        };
        self.points.push(point)?;
        Ok(true)
    }

    /// Adds a choice for lost commands, if the word names one and no line has named one before, and returns whether it
    /// did.
    fn add_losses(&mut self, word: &[u8]) -> bool
        ensures { Gives result (with_losses self.old (losses_named word.now)) self.new }
    {
        if self.losses.is_some() {
            return false;
        }
        let Some(losses) = losses_named(word) else {
            return false;
        };
        self.losses = Some(losses);
        true
    }

    /// Adds an event's line, if it is one, and returns whether it did.
    fn add_line(&mut self, alloc: Global, line: &[u8]) -> Result<bool, SimError>
        ensures read { IfOk result (λ more. Gives more (with_line self.old (line_of (clients_of self.old) (servers_of self.old) (known_of self.old) line.now)) self.new) }
        ensures only_memory { IsOkUnless result SimError.Memory }
    {
        let addresses = self.addresses.as_slice();
        let known = self.known.as_slice();
        let clients = self.clients * self.proxies as u64;
        let Some(found) = read_line(alloc, clients, addresses, known, line)? else {
            return Ok(false);
        };
        self.follow(found)?;
        Ok(true)
    }

    /// Adds the meaning of a line. If a server joins, its address is added too, and its proxy knows one more.
    fn follow(&mut self, line: PoolLine) -> Result<(), AllocError>
        requires moment { HasMoment line (2 ^ 63) }
        ensures followed { OnOk result (self.new ≡ followed self.old line) }
    {
        self.lines.reserve(1)?;
        add_joined(&mut self.addresses, &line)?;
        count_known(&mut self.known, &line);
        self.lines.push(line).unwrap();
        Ok(())
    }
}

/// Adds the address of a new server that joins by a line.
fn add_joined(addresses: &mut Vec<Address>, line: &PoolLine) -> Result<(), AllocError>
    ensures joined { OnOk result (addresses.new.items ≡ addresses.old.items ++ joined_by line.now) }
    ensures err { OnErr result (addresses.new.items ≡ addresses.old.items) }
{
    if let PoolLine::Join(_, address) = line {
        addresses.push(address.copy()?)?;
    }
    Ok(())
}

/// Counts one more server for the proxy that knows it after a line.
fn count_known(known: &mut Vec<usize>, line: &PoolLine)
    requires few { (proxy : ℕ) → slice_index_or known.old.items proxy 0 + 1 < 2 ^ 64 }
    ensures { known.new.items ≡ known_after known.old.items line.now }
{
    let (PoolLine::Join(proxy, _) | PoolLine::Learn(proxy, _)) = line else {
        return;
    };
    if *proxy < known.len() {
        known[*proxy] += 1;
    }
}

/// A ring of these servers, with these points, or with the servers' own if there are none.
fn made_ring(alloc: Global, servers: &[Address], points: &[Point]) -> Result<Ring, RingError>
    ensures servers { IfOk result (λ ring. ring.servers ≡ servers.now) }
    ensures points { IfOk result (λ ring. Shows (pairs_of_pool servers.now points.now) ring.points) }
    ensures refused { refusal_in result ≡ refusal_of_pool servers.now points.now }
{
    if points.is_empty() {
        return Ring::new(alloc, servers);
    }
    Ring::of_points(alloc, servers, points)
}

/// The error of a ring that failed only for want of memory.
fn refused_memory(error: RingError) -> SimError
    requires { cause_of error ≡ None }
    ensures { result ≡ SimError.Memory }
{
    match error {
        RingError::Memory => SimError::Memory,
        RingError::NoServer | RingError::TooMany | RingError::Doubled | RingError::BadAddress =>
            unreachable!(),
    }
}

/// The script that a text is. The error is the first bad line from the top, and a text without lines has a bad line 1.
pub fn read_pool_script(alloc: Global, input: &[u8]) -> Result<PoolScript, SimError>
    ensures script { IfOk result (λ script. pool_script_of input.now ≡ Ok script) }
    ensures error { IfErr result (λ error. Explains error (pool_script_of input.now)) }
{
    let mut lines = lines_of(input);
    let Some((number, line)) = lines.next() else {
        return Err(SimError::BadLine(1));
    };
    let Some(script) = read_head(alloc, line)? else {
        return Err(SimError::BadLine(number));
    };
    read_rest(alloc, script, lines)
}

/// Adds all lines to a script.
fn read_rest(
    alloc: Global,
    mut script: PoolScript,
    lines: LineIter<'_>,
) -> Result<PoolScript, SimError>
    ensures script { IfOk result (λ all. read_all script lines.entry ≡ Ok all) }
    ensures error { IfErr result (λ error. Explains error (read_all script lines.entry)) }
{
    for (number, line) in lines {
        let more = script.read(alloc, line)?;
        if !more {
            return Err(SimError::BadLine(number));
        }
    }
    Ok(script)
}

/// The script of a first line alone.
fn read_head(alloc: Global, line: &[u8]) -> Result<Option<PoolScript>, SimError>
    ensures head { IfOk result (λ head. head ≡ head_of line.now) }
    ensures only_memory { IsOkUnless result SimError.Memory }
{
    let Some((servers, clients, budget, items, proxies)) = read_limits(line) else {
        return Ok(None);
    };
    let addresses = first_addresses(alloc, servers)?;
    let known = vec![in alloc; servers as usize; proxies]?;
    Ok(Some(PoolScript {
        servers: servers as usize,
        clients,
        proxies,
        budget,
        items,
        points: Vec::new(alloc),
        losses: None,
        lines: Vec::new(alloc),
        addresses,
        known,
    }))
}

/// The servers, clients of each proxy, budget, items and proxies of a first line.
#[tactic(auto, unfolding(crate::specs::PoolScripts::limits_of))]
fn read_limits(line: &[u8]) -> Option<(u64, u64, u64, usize, usize)>
    ensures limits { result ≡ limits_of line.now }
    ensures servers { IfSome result (λ limits. (1 ≤ limits.0) × (limits.0 ≤ 64)) }
    ensures clients { IfSome result (λ limits. (1 ≤ limits.1) × (limits.1 * limits.4 ≤ 1024)) }
    ensures bounds { IfSome result (λ limits. IsWithinBounds limits.2 limits.3) }
    ensures proxies { IfSome result (λ limits. (1 ≤ limits.4) × (limits.4 ≤ 64)) }
{
    let (command, rest) = cut_at_space(line)?;
    let (servers, rest) = cut_at_space(rest)?;
    let (clients, rest) = cut_at_space(rest)?;
    let (budget, rest) = cut_at_space(rest)?;
    let servers = read_limit(servers, SERVER_LIMIT as u64)?;
    let clients = read_limit(clients, MAX_CLIENTS as u64)?;
    let budget = read_limit(budget, MAX_BUDGET)?;
    let (items, proxies) = read_last_limits(rest)?;
    let fits = command == b"pool".as_slice() && clients * proxies as u64 <= MAX_CLIENTS as u64;
    fits.then_some((servers, clients, budget, items, proxies))
}

/// The items and proxies of the last words of a first line: one proxy if the line does not say.
#[tactic(auto, unfolding(crate::specs::PoolScripts::last_limits_of))]
fn read_last_limits(text: &[u8]) -> Option<(usize, usize)>
    ensures limits { result ≡ last_limits_of text.now }
    ensures items { IfSome result (λ limits. (1 ≤ limits.0) × (limits.0 ≤ 2 ^ 24)) }
    ensures proxies { IfSome result (λ limits. (1 ≤ limits.1) × (limits.1 ≤ 64)) }
{
    let (items, proxies) = match cut_at_space(text) {
        Some((items, proxies)) => (items, proxies),
        None => (text, b"1".as_slice()),
    };
    let items = read_limit(items, MAX_ITEMS as u64)?;
    let proxies = read_limit(proxies, MAX_PROXIES as u64)?;
    Some((items as usize, proxies as usize))
}
