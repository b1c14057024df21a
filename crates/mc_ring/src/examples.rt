//! Worked examples, computed from the definitions alone.
ghost use Rattle.std.specs.Prelude.{◌≡◌, [], ◌∷◌, codes};
ghost use Rattle.mc_ring.specs.Points.{hash_of, pair_at};
ghost use Rattle.mc_ring.specs.Owners.{owner_of};

/// The digest of `a` begins 0c, c1, 75, b9.
pub fn hash_of_a()
    ensures { hash_of (codes "a") ≡ 0xb975c10c }
{}

/// The digest of `abc` begins 90, 01, 50, 98.
pub fn hash_of_abc()
    ensures { hash_of (codes "abc") ≡ 0x98500190 }
{}

/// A point that equals the hash holds it.
#[tactic(auto, unfolding(crate::specs::Owners::holder_of))]
pub fn the_point_itself()
    ensures { owner_of (pair_at 1 0xb975c10c ∷ pair_at 0 0xc0000000 ∷ []) 0xb975c10c ≡ 1 }
{}

/// A hash goes to the least point that is not below it.
#[tactic(auto, unfolding(crate::specs::Owners::holder_of))]
pub fn the_next_point()
    ensures { owner_of (pair_at 1 0xb975c10c ∷ pair_at 0 0xc0000000 ∷ []) 0x98500190 ≡ 1 }
{}

/// Past the last point, a hash goes to the least of all.
#[tactic(auto, unfolding(crate::specs::Owners::holder_of))]
pub fn past_the_last_point()
    ensures { owner_of (pair_at 1 0x20000000 ∷ pair_at 0 0x10000000 ∷ []) 0xb975c10c ≡ 0 }
{}

/// Of equal points the one with the least place counts.
#[tactic(auto, unfolding(crate::specs::Owners::holder_of))]
pub fn equal_points()
    ensures { owner_of (pair_at 2 0x98500190 ∷ pair_at 1 0x98500190 ∷ pair_at 0 0xb975c10c ∷ []) 0x98500190 ≡ 1 }
{}
