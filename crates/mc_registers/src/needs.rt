//! Why the laws have premises: runs in which one premise fails, and so does what the law promises.
ghost use Rattle.std.specs.Prelude.{◌≡◌, pos, [], ◌∷◌, None, codes};
ghost use Rattle.mc_request.specs.declared.faults.Fault.TheVariants.{OutOfMemory};
ghost use Rattle.mc_request.specs.declared.parts.StoreMode.TheVariants.{Set, Add, Append};
ghost use Rattle.mc_reply.specs.declared.replies.Marks.TheVariants.{Won, WonStale};
ghost use Rattle.mc_reply.specs.declared.replies.Reply.TheVariants.{Stored, Exists, Deleted, Number, Fault};
ghost use Rattle.mc_cache.specs.CacheState.{opening_cache};
ghost use Rattle.mc_cache.specs.Replay.{granted};
ghost use Rattle.mc_cache_laws.specs.Examples.{cas_of, get_with_number, store_of};
ghost use Rattle.mc_registers.specs.Examples.{the_key, storing, comparing, getting, getting_number, deleting, counting_up, making_counter, making_counter_comparing, limiting_at, making, making_shown, recaching_at, making_at, adding_at, storing_at, invalidating_at, a_hit, a_numbered_hit, IsLife};
ghost use Rattle.mc_registers.specs.Laws.{done_on};
ghost use Rattle.mc_registers.specs.Registers.{IsRun};

/// Another client stored in between, so a hit shows its value.
pub fn another_value_is_read()
    ensures { IsLife (storing Set (codes "a") Stored ∷ storing Set (codes "b") Stored ∷ getting (a_hit (codes "b")) ∷ []) }
{}

/// A value is joined to the stored one, or is refused. Or its item is forgotten, and an `mg` with `N` makes another, either before the read or as
/// the read itself. Then another value is shown.
pub fn other_values_are_read()
    ensures joined { IsLife (storing Set (codes "a") Stored ∷ storing Append (codes "b") Stored ∷ getting (a_hit (codes "ab")) ∷ []) }
    ensures refused { IsLife (storing Set (codes "a") Stored ∷ storing Set (codes "b") (Fault OutOfMemory) ∷ getting (a_hit (codes "a")) ∷ []) }
    ensures made { IsLife (storing Set (codes "a") Stored ∷ making Won ∷ getting (a_hit (codes "")) ∷ []) }
    ensures filled { IsLife (storing Set (codes "a") Stored ∷ making_shown ∷ []) }
{}

/// Another client stored a number in between, so a count returns a number that was returned before.
pub fn another_number_is_counted()
    ensures { IsLife (storing Set (codes "5") Stored ∷ counting_up 1 (Number 6) ∷ storing Set (codes "5") Stored ∷ counting_up 1 (Number 6) ∷ []) }
{}

/// A counter is forgotten, and a count that makes an item returns a number that was returned before.
pub fn forgotten_counters_begin_anew()
    ensures { IsLife (making_counter 1 ∷ counting_up 1 (Number 2) ∷ making_counter 1 ∷ counting_up 1 (Number 2) ∷ []) }
{}

/// A counter that limits a rate is forgotten, dead, or deleted, and a second request is counted as the first.
pub fn limits_begin_anew()
    ensures forgotten { IsLife (limiting_at 100 (codes "1") ∷ limiting_at 105 (codes "1") ∷ []) }
    ensures dead { IsLife (limiting_at 100 (codes "1") ∷ limiting_at 110 (codes "1") ∷ []) }
    ensures deleted { IsLife (limiting_at 0 (codes "1") ∷ deleting Deleted ∷ limiting_at 5 (codes "1") ∷ []) }
{}

/// A lock is forgotten, released, or dead, and a second client takes it.
pub fn forgotten_locks_are_taken()
    ensures forgotten { IsLife (storing Add (codes "a") Stored ∷ storing Add (codes "b") Stored ∷ []) }
    ensures deleted { IsLife (storing Add (codes "a") Stored ∷ deleting Deleted ∷ storing Add (codes "b") Stored ∷ []) }
    ensures dead { IsLife (adding_at 100 (codes "a") ∷ adding_at 110 (codes "b") ∷ []) }
{}

/// Another client stored in between. A `cas` with the number that the hit showed is refused, and one with another number stores.
pub fn another_number_is_compared()
    ensures refused { IsLife (storing Set (codes "a") Stored ∷ getting_number (a_numbered_hit 1 (codes "a")) ∷ storing Set (codes "b") Stored
        ∷ comparing 1 (codes "c") Exists ∷ []) }
    ensures stored { IsLife (storing Set (codes "a") Stored ∷ getting_number (a_numbered_hit 1 (codes "a")) ∷ storing Set (codes "b") Stored
        ∷ comparing 2 (codes "c") Stored ∷ []) }
{}

/// A server begins anew, and its first number is that of another value in the life before: a `cas` with it stores.
pub fn numbers_fit_another_life()
    ensures before { IsLife (storing Set (codes "a") Stored ∷ getting_number (a_numbered_hit 1 (codes "a")) ∷ []) }
    ensures after { IsLife (storing Set (codes "b") Stored ∷ comparing 1 (codes "c") Stored ∷ []) }
{}

/// Two caches begin at the same number. The first shows a number, and a `cas` with it stores in the second.
pub fn old_numbers_fit_another_cache()
    ensures before { done_on the_key (opening_cache 1000 10 0) (granted 0 (store_of Set (pos 0) the_key (codes "a")) ∷ granted 0 (get_with_number the_key) ∷ [])
        ≡ storing Set (codes "a") Stored ∷ getting_number (a_numbered_hit 1 (codes "a")) ∷ [] }
    ensures after { done_on the_key (opening_cache 1000 10 0) (granted 0 (store_of Set (pos 0) the_key (codes "b")) ∷ granted 0 (cas_of 1 the_key (codes "c")) ∷ [])
        ≡ storing Set (codes "b") Stored ∷ comparing 1 (codes "c") Stored ∷ [] }
{}

/// An `ma` that makes an item, by `N`, is done though no item has the number that it compares.
pub fn counters_are_made_anew()
    ensures anew { IsRun 1 None (making_counter_comparing 1 ∷ []) }
    ensures deleted { IsLife (storing Set (codes "a") Stored ∷ getting_number (a_numbered_hit 1 (codes "a")) ∷ deleting Deleted
        ∷ making_counter_comparing 1 ∷ []) }
{}

/// An item that was won is forgotten, dead, or called stale, or another is stored in its place. Then a second client wins.
pub fn marks_are_won_again()
    ensures forgotten { IsLife (making Won ∷ making Won ∷ []) }
    ensures dead { IsLife (making_at 100 ∷ making_at 110 ∷ []) }
    ensures stale { IsLife (storing_at 100 ∷ recaching_at 105 Won ∷ invalidating_at 106 ∷ recaching_at 107 WonStale ∷ []) }
    ensures stored { IsLife (storing_at 100 ∷ recaching_at 105 Won ∷ storing_at 106 ∷ recaching_at 107 Won ∷ []) }
{}
