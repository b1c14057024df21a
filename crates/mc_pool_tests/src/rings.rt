//! Rings to which a server joins, compared with figures that Python's hashlib computes.

use crate::pools::{TWO, ring};
use mc_ring::{Address, Point, Ring, RingError};
use mc_text::Key;
use std::alloc::Global;
use std::test::Fail;

/// A pool of one server, with one point: the hash of `a`.
pub const AT_A: [Point; 1] = [Point {
    point: 0xb975_c10c,
    place: 0,
}];

/// How many keys are looked up: `k0`, `k1` and so on.
const KEYS: usize = 1_000;

/// A ring to which a server of this address joined.
fn grown(alloc: Global, before: &Ring, address: &[u8]) -> Result<Ring, RingError> {
    before.with_server(alloc, Address::new(alloc, address)?)
}

/// How many of the keys the last server of a ring owns, which joined; none if another key has another owner than before.
fn taken_by_the_joined(alloc: Global, before: &Ring, after: &Ring) -> Result<Option<usize>, Fail> {
    let joined = before.servers().len();
    let mut taken = 0usize;
    for number in 0..KEYS {
        let text = format!(in alloc; "k{number}")?;
        let key = Key::plain(alloc, text.as_bytes())?;
        let owner = after.owner(&key);
        if owner == joined {
            taken = taken.saturating_add(1);
        } else if owner != before.owner(&key) {
            return Ok(None);
        }
    }
    Ok(Some(taken))
}

/// How many keys a server of this address takes that joins a ring.
fn taken(alloc: Global, before: &Ring, address: &[u8]) -> Result<Option<usize>, Fail> {
    let after = grown(alloc, before, address)?;
    taken_by_the_joined(alloc, before, &after)
}

/// Each key stays at its owner, or goes to the server that joins. Of servers with one point it takes nearly all, and a third of three with all
/// their points.
#[test]
fn keys_stay_or_go_to_the_server_that_joins(rt: HostRuntime) -> Result<(), Fail> {
    let alloc = rt.alloc();
    let one = ring(alloc, &AT_A)?;
    let two = ring(alloc, &TWO)?;
    let whole = Ring::new(alloc, two.servers())?;
    let counts = [
        taken(alloc, &one, b"127.0.0.1:11212")?,
        taken(alloc, &two, b"127.0.0.1:11213")?,
        taken(alloc, &whole, b"127.0.0.1:11213")?,
    ];
    assert_eq!(rt; counts, [Some(1_000), Some(990), Some(357)]);
    Ok(())
}
