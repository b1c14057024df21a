//! The ring, which decides which server owns a key: libketama's continuum with equal weights.
//!
//! A caller meets the calls in this order. [`Address::new`] parses a server's address, and [`Ring::new`] makes the ring of a list
//! of servers. [`Ring::owner`] returns the place of the server that owns a key; [`Ring::owner_of_bytes`] does so for a borrowed
//! key. [`Ring::with_server`] makes a ring with one server more, and [`Ring::of_points`] one with the caller's own points.
//! [`Ring::servers`] and [`Ring::points`] show what a ring is made of. [`Ring::copy`] and [`Address::copy`] make another one like it.
//!
//! In a ring of [`Ring::new`] each server has 160 points: four of each of the 40 MD5 digests of `host:port-k`. A key belongs to
//! the server of the least point that is not below the key's hash or, if there is none, of the least point of all. The definitions
//! in `specs/` say this of a set of pairs; the code keeps them sorted and finds an owner by binary search. A new server takes keys
//! from the others and moves none between them.
//!
//! `owner` and `owner_of_bytes` take no memory. A refused call keeps nothing.
#![tactic(auto)]

mod addresses;
mod errors;
mod examples;
mod laws;
mod points;
mod rings;

pub use addresses::Address;
pub use errors::RingError;
pub use examples::{
    equal_points, hash_of_a, hash_of_abc, past_the_last_point, the_next_point, the_point_itself,
};
pub use laws::{
    every_server_has_its_points, only_members_count, points_are_one, shown_points_own_alike,
};
pub use points::{POINTS_OF_SERVER, Point};
pub use rings::{Ring, SERVER_LIMIT};
