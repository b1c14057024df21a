//! Rings: which server owns a key.
ghost use Rattle.std.specs.Prelude.{◌≡◌, ◌<◌, ◌++◌, ◌∷◌, [], ℕ, length, IfOk, IsErrOf, IsOkUnless};

use crate::addresses::Address;
use crate::errors::RingError;
use crate::points::{Point, hash_of, holder_of, points_of_all, points_with, put_in_order};
use mc_text::Key;
use std::alloc::{AllocError, Global};
use std::marker::Model;

/// The most servers that a ring has.
pub const SERVER_LIMIT: usize = 64;

/// Servers, and the points by which each key has one of them as its owner. Contracts see the servers and the points.
#[derive(Clone, Debug, Drop)]
pub struct Ring {
    servers: Vec<Address>,
    points: Vec<Point>,
}

impl Model for Ring {
    ghost use Rattle.mc_ring.specs.Rings.{RingState, IsRing};

    ghost Value = { RingState };

    ghost view = { λ r. record { servers = r.servers.items; points = r.points.items } };

    ghost invariant = { λ r. IsRing (record { servers = r.servers.items; points = r.points.items }) };
}

impl Ring {
    ghost use Rattle.mc_ring.specs.Points.{points_of, pairs_at, pairs_of, hash_of};
    ghost use Rattle.mc_ring.specs.Owners.{owner_of};
    ghost use Rattle.mc_ring.specs.Rings.{Shows, IsRing, MovesOnlyTo};
    ghost use Rattle.mc_ring.specs.Refusals.{refusal_in, refusal_of, refusal_of_points, refusal_of_more};

    /// Makes a ring of 1 to 64 servers, no two alike, each with its 160 points.
    pub fn new(alloc: Global, servers: &[Address]) -> Result<Ring, RingError>
        ensures servers { IfOk result (λ ring. ring.servers ≡ servers.now) }
        ensures points { IfOk result (λ ring. Shows (pairs_of servers.now) ring.points) }
        ensures refused { refusal_in result ≡ refusal_of servers.now }
    {
        check(servers)?;
        let mut points = points_of_all(alloc, servers)?;
        put_in_order(&mut points);
        let servers = copied(alloc, servers)?;
        Ok(Ring { servers, points })
    }

    /// Makes a ring of these servers and of the caller's own points, each for one of the servers. A point that is given
    /// twice for one server counts once.
    pub fn of_points(
        alloc: Global,
        servers: &[Address],
        points: &[Point],
    ) -> Result<Ring, RingError>
        ensures servers { IfOk result (λ ring. ring.servers ≡ servers.now) }
        ensures points { IfOk result (λ ring. Shows points.now ring.points) }
        ensures refused { refusal_in result ≡ refusal_of_points servers.now points.now }
    {
        if points.is_empty() {
            return Err(RingError::NoServer);
        }
        check(servers)?;
        check_places(points, servers.len())?;
        let mut points = Vec::from_slice(alloc, points)?;
        put_in_order(&mut points);
        let servers = copied(alloc, servers)?;
        Ok(Ring { servers, points })
    }

    /// Makes a ring with one server more, after the others and with its 160 points. The servers and points of this ring
    /// stay as they are, even those given to [`Ring::of_points`].
    pub fn with_server(&self, alloc: Global, server: Address) -> Result<Ring, RingError>
        ensures servers { IfOk result (λ ring. ring.servers ≡ self.now.servers ++ server ∷ []) }
        ensures points { IfOk result (λ ring. Shows (self.now.points ++ pairs_at (length self.now.servers) (points_of server)) ring.points) }
        ensures moves { IfOk result (λ ring. MovesOnlyTo (length self.now.servers) self.now.points ring.points) }
        ensures refused { refusal_in result ≡ refusal_of_more self.now.servers server }
    {
        let held = self.servers.as_slice();
        check_more(held, &server)?;
        let points = points_with(alloc, self.points.as_slice(), &server, held.len())?;
        let servers = servers_with(alloc, held, server)?;
        Ok(Ring { servers, points })
    }

    /// Returns a copy with the same servers and points; the contract of `clone` relates only the fields.
    pub fn copy(&self) -> Result<Ring, AllocError>
        ensures { IfOk result (λ copy. copy ≡ self.now) }
    {
        self.clone()
    }

    /// Returns the place of the server that owns a key, counted from 0. It takes no memory.
    pub fn owner(&self, key: &Key) -> usize
        ensures owner { result ≡ owner_of self.now.points (hash_of key.now) }
        ensures inside { result < length self.now.servers }
    {
        self.owner_of_bytes(key.as_bytes())
    }

    /// Returns the place of the server that owns a borrowed key, counted from 0. It takes no memory.
    pub fn owner_of_bytes(&self, key: &[u8]) -> usize
        ensures owner { result ≡ owner_of self.now.points (hash_of key.now) }
        ensures inside { result < length self.now.servers }
    {
        holder_of(&self.points, hash_of(key)).place
    }

    /// Returns the servers, in the order in which they were given.
    pub fn servers(&self) -> &[Address]
        ensures servers { result.now ≡ self.now.servers }
        ensures ring { IsRing self.now }
    {
        self.servers.as_slice()
    }

    /// Returns the points, in rising order of their numbers, then of places; each once.
    pub fn points(&self) -> &[Point]
        ensures points { result.now ≡ self.now.points }
        ensures ring { IsRing self.now }
    {
        self.points.as_slice()
    }
}

ghost use Rattle.std.specs.Prelude.{nat_lt};
ghost use Rattle.std.specs.List.{list_all};
ghost use Rattle.mc_ring.specs.Rings.{has_doubled};
ghost use Rattle.mc_ring.specs.Refusals.{refusal_in, refusal_of, refusal_of_pairs, refusal_of_more};

/// Checks that these servers can form a ring.
fn check(servers: &[Address]) -> Result<(), RingError>
    ensures refused { refusal_in result ≡ refusal_of servers.now }
    ensures never_memory { ¬ IsErrOf result RingError.Memory }
{
    if servers.is_empty() {
        return Err(RingError::NoServer);
    }
    if servers.len() > SERVER_LIMIT {
        return Err(RingError::TooMany);
    }
    if has_doubled(servers) {
        return Err(RingError::Doubled);
    }
    Ok(())
}

/// Returns whether two of the servers are alike.
fn has_doubled(servers: &[Address]) -> bool
    ensures { result ≡ has_doubled servers.now }
{
    let mut left = servers;
    while let [server, rest @ ..] = left {
        if rest.contains(server) {
            return true;
        }
        left = rest;
    }
    false
}

/// Checks that each point belongs to one of `count` servers.
fn check_places(points: &[Point], count: usize) -> Result<(), RingError>
    ensures { refusal_in result ≡ refusal_of_pairs count points.now }
{
    if !has_places_below(points, count) {
        return Err(RingError::BadAddress);
    }
    Ok(())
}

fn has_places_below(points: &[Point], count: usize) -> bool
    ensures { result ≡ list_all (λ p. nat_lt p.place count) points.now }
{
    points.iter().all(|p| p.place < count)
}

/// Checks that a server can be added to those of a ring.
fn check_more(servers: &[Address], server: &Address) -> Result<(), RingError>
    ensures { refusal_in result ≡ refusal_of_more servers.now server.now }
{
    if servers.len() >= SERVER_LIMIT {
        return Err(RingError::TooMany);
    }
    if servers.contains(server) {
        return Err(RingError::Doubled);
    }
    Ok(())
}

/// Copies the servers, and adds one after them.
fn servers_with(
    alloc: Global,
    servers: &[Address],
    server: Address,
) -> Result<Vec<Address>, RingError>
    ensures servers { IfOk result (λ copies. copies.items ≡ servers.now ++ server ∷ []) }
    ensures only_memory { IsOkUnless result RingError.Memory }
{
    let mut copies = copied(alloc, servers)?;
    copies.push(server)?;
    Ok(copies)
}

/// Copies the servers.
fn copied(alloc: Global, servers: &[Address]) -> Result<Vec<Address>, AllocError>
    ensures { IfOk result (λ copies. copies.items ≡ servers.now) }
{
    let mut copies = Vec::new(alloc);
    for server in servers {
        copies.push(server.copy()?)?;
    }
    Ok(copies)
}
