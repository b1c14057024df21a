//! Worked examples of deadlines, computed from the definitions alone.
ghost use Rattle.std.specs.Prelude.{◌≡◌, ℕ, pos, negsuc, true, false, Some, None};
ghost use Rattle.mc_item.specs.Deadlines.{at, deadline_of, is_dead, left_of};

/// 30 days count from the moment of the command on.
pub fn thirty_days_are_from_the_moment_on()
    ensures deadline { deadline_of (pos 2592000) 1000000000 ≡ at 1002592000 }
    ensures live { is_dead (deadline_of (pos 2592000) 1000000000) 1002591999 ≡ false }
    ensures a_second_left { left_of (deadline_of (pos 2592000) 1000000000) 1002591999 ≡ Some 1 }
    ensures dead { is_dead (deadline_of (pos 2592000) 1000000000) 1002592000 ≡ true }
    ensures nothing_left { left_of (deadline_of (pos 2592000) 1000000000) 1002592000 ≡ Some 0 }
{}

/// One second more is a moment by itself, which has long passed.
pub fn a_second_more_is_a_moment()
    ensures deadline { deadline_of (pos 2592001) 1000000000 ≡ at 2592001 }
    ensures dead { is_dead (deadline_of (pos 2592001) 1000000000) 1000000000 ≡ true }
    ensures nothing_left { left_of (deadline_of (pos 2592001) 1000000000) 1000000000 ≡ Some 0 }
{}

/// Below 0 it is expired at every moment.
pub fn below_zero_is_dead_at_once()
    ensures dead { (moment : ℕ) → is_dead (deadline_of (negsuc 0) 1000000000) moment ≡ true }
{}

/// With 0 it never expires.
pub fn zero_is_never()
    ensures live { (moment : ℕ) → is_dead (deadline_of (pos 0) 1000000000) moment ≡ false }
    ensures no_end { (moment : ℕ) → left_of (deadline_of (pos 0) 1000000000) moment ≡ None }
{}
