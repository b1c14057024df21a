//! Laws of the definitions: what a ring's owner depends on.
ghost use Rattle.std.specs.Prelude.{◌≡◌, ℕ, List, length};
ghost use Rattle.mc_ring.specs.declared.points.Point.{Point};
ghost use Rattle.mc_ring.specs.Points.{points_of};
ghost use Rattle.mc_ring.specs.Owners.{owner_of};
ghost use Rattle.mc_ring.specs.Rings.{HasSame, Shows};

use crate::points::POINTS_OF_SERVER;

/// The owner of a hash depends only on which pairs there are, not on their order, nor on how often each is listed.
pub fn only_members_count()
    ensures { (pairs others : List Point) (hash : ℕ) → HasSame pairs others → owner_of pairs hash ≡ owner_of others hash }
{}

/// The owner among the points that show some pairs is the owner among these pairs.
pub fn shown_points_own_alike()
    ensures { (pairs points : List Point) (hash : ℕ) → Shows pairs points → owner_of points hash ≡ owner_of pairs hash }
{}

/// Only one list of points shows some pairs.
pub fn points_are_one()
    ensures { (pairs points others : List Point) → Shows pairs points → Shows pairs others → points ≡ others }
{}

/// Each server has as many points as the constant says.
pub fn every_server_has_its_points()
    ensures { (address : List ℕ) → length (points_of address) ≡ POINTS_OF_SERVER }
{}
