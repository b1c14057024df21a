//! Points: where the servers are on the ring, and where a key is.
ghost use Rattle.std.specs.Prelude.{◌≡◌, ◌≤◌, ◌<◌, ◌+◌, ◌++◌, length, Some, Contains, IfOk, OnOk};
ghost use Rattle.md5.specs.Md5.{md5, word_at};
ghost use Rattle.mc_ring.specs.Points.{label, points_of_digest, points_of, hash_of, pair_at, pairs_at, pairs_of};
ghost use Rattle.mc_ring.specs.Owners.{holder_of};
ghost use Rattle.mc_ring.specs.Rings.{IsRising, Shows};

use crate::addresses::Address;
use itoa::Buffer;
use md5::{DIGEST_LEN, Digest, Md5};
use std::alloc::{AllocError, Global};

/// How many digests a server has.
const DIGESTS: u8 = 40;

/// How many points a server has: four of each digest.
pub const POINTS_OF_SERVER: usize = 160;

/// A point of a ring, and the server that it belongs to. Points are ordered by their number, then by place.
#[derive(Clone, Copy, Debug, PartialEq, Eq, PartialOrd, Ord)]
pub struct Point {
    /// The point.
    pub point: u32,
    /// The server's place in the ring's list, counted from 0.
    pub place: usize,
}

/// Returns the hash of a key's bytes, which is the key's place on the ring.
#[tactic(auto, unfolding(crate::specs::Points::hash_of))]
pub fn hash_of(key: &[u8]) -> u32
    ensures { result ≡ hash_of key.now }
{
    word_at(&Md5::digest(key), 0)
}

/// Returns four bytes of a digest as a number, the least first.
fn word_at(digest: &[u8; DIGEST_LEN], at: usize) -> u32
    requires { at + 4 ≤ 16 }
    ensures { result ≡ word_at digest.now at }
{
    u32::from_le_bytes([digest[at], digest[at + 1], digest[at + 2], digest[at + 3]])
}

/// Returns the digest of number `k` of a server.
fn digest_of(server: &Address, k: u8) -> [u8; DIGEST_LEN]
    ensures { result ≡ md5 (label server.now k) }
{
    let mut number = Buffer::new();
    let mut hasher = Md5::new();
    hasher.update(server.as_bytes());
    hasher.update(b"-");
    hasher.update(number.format(k).as_bytes());
    hasher.finalize()
}

/// Returns the point of four bytes of a digest, for the server at a place.
fn point_at(digest: &[u8; DIGEST_LEN], at: usize, place: usize) -> Point
    requires { at + 4 ≤ 16 }
    ensures { result ≡ pair_at place (word_at digest.now at) }
{
    Point {
        point: word_at(digest, at),
        place,
    }
}

/// Returns the four points of a digest, for the server at a place.
#[tactic(auto, unfolding(crate::specs::Points::points_of_digest))]
fn points_of_digest(digest: &[u8; DIGEST_LEN], place: usize) -> [Point; 4]
    ensures { result ≡ pairs_at place (points_of_digest digest.now) }
{
    [
        point_at(digest, 0, place),
        point_at(digest, 4, place),
        point_at(digest, 8, place),
        point_at(digest, 12, place),
    ]
}

/// Appends the points of a server. At an error some of them may be appended.
pub fn push_points(
    points: &mut Vec<Point>,
    server: &Address,
    place: usize,
) -> Result<(), AllocError>
    ensures { OnOk result (points.new.items ≡ points.old.items ++ pairs_at place (points_of server.now)) }
{
    for k in 0..DIGESTS {
        points.extend_from_slice(&points_of_digest(&digest_of(server, k), place))?;
    }
    Ok(())
}

/// Returns the points of all servers, in the servers' order.
pub fn points_of_all(alloc: Global, servers: &[Address]) -> Result<Vec<Point>, AllocError>
    ensures { IfOk result (λ points. points.items ≡ pairs_of servers.now) }
{
    let mut points = Vec::with_capacity(alloc, servers.len().saturating_mul(POINTS_OF_SERVER))?;
    for (place, server) in servers.iter().enumerate() {
        push_points(&mut points, server, place)?;
    }
    Ok(points)
}

/// Sorts points in rising order, and keeps each once. It takes no memory.
pub fn put_in_order(points: &mut Vec<Point>)
    ensures { Shows points.old.items points.new.items }
{
    points.sort_unstable();
    points.dedup();
}

/// Returns the points of a ring with those of one server more, in rising order, each once. The last sort keeps what
/// rises already and merges it.
pub fn points_with(
    alloc: Global,
    held: &[Point],
    server: &Address,
    place: usize,
) -> Result<Vec<Point>, AllocError>
    ensures { IfOk result (λ points. Shows (held.now ++ pairs_at place (points_of server.now)) points.items) }
{
    let mut added = Vec::with_capacity(alloc, POINTS_OF_SERVER)?;
    push_points(&mut added, server, place)?;
    added.sort_unstable();
    joined(alloc, held, added.as_slice())
}

/// Merges two lists of points into one, in rising order, each once.
fn joined(alloc: Global, held: &[Point], added: &[Point]) -> Result<Vec<Point>, AllocError>
    ensures { IfOk result (λ points. Shows (held.now ++ added.now) points.items) }
{
    let mut points = Vec::with_capacity(alloc, held.len().saturating_add(added.len()))?;
    points.extend_from_slice(held)?;
    points.extend_from_slice(added)?;
    points.sort()?;
    points.dedup();
    Ok(points)
}

/// Returns the point that holds a hash: the least that is not below it, else the least of all.
pub fn holder_of(points: &[Point], hash: u32) -> Point
    requires pointed { 0 < length points.now }
    requires rising { IsRising points.now }
    ensures holds { holder_of points.now hash ≡ Some result }
    ensures member { Contains points.now result }
{
    let place = points.partition_point(|p| p.point < hash);
    if place < points.len() {
        points[place]
    } else {
        points[0]
    }
}
