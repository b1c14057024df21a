//! Worked examples of the register: histories that it may have. Each is a run by choices that the proof names.
ghost use Rattle.std.specs.Prelude.{[], ◌∷◌, pos, codes};
ghost use Rattle.mc_request.specs.declared.faults.Fault.TheVariants.{OutOfMemory};
ghost use Rattle.mc_request.specs.declared.parts.StoreMode.TheVariants.{Set, Add, Append};
ghost use Rattle.mc_reply.specs.declared.replies.Marks.TheVariants.{Plain, Won, WonStale, StaleSent, Sent};
ghost use Rattle.mc_reply.specs.declared.replies.Reply.TheVariants.{Stored, NotStored, Exists, Deleted, Number, Miss, Fault};
ghost use Rattle.mc_cache_laws.specs.Examples.{store_of, get_of};
ghost use Rattle.mc_registers.specs.Examples.{the_key, answered_at, storing, comparing, getting, getting_number, deleting, counting_up, showing_count, limiting_at, making, recaching_at, storing_at, invalidating_at, a_hit, a_numbered_hit, IsLife};

/// A stored value is shown, until another is stored in its place, or joined to it.
pub fn stored_values_are_shown()
    ensures set { IsLife (storing Set (codes "a") Stored ∷ getting (a_hit (codes "a")) ∷ []) }
    ensures twice { IsLife (storing Set (codes "a") Stored ∷ storing Set (codes "b") Stored ∷ getting (a_hit (codes "b")) ∷ []) }
    ensures joined { IsLife (storing Set (codes "a") Stored ∷ storing Append (codes "b") Stored ∷ getting (a_hit (codes "ab")) ∷ []) }
{}

/// An item may be forgotten before any command: then a get misses, and an `add` stores. A dead item is forgotten.
pub fn items_are_forgotten()
    ensures missed { IsLife (storing Set (codes "a") Stored ∷ getting Miss ∷ getting Miss ∷ []) }
    ensures added { IsLife (storing Add (codes "a") Stored ∷ storing Add (codes "b") Stored ∷ getting (a_hit (codes "b")) ∷ []) }
    ensures held { IsLife (storing Add (codes "a") Stored ∷ storing Add (codes "b") NotStored ∷ deleting Deleted ∷ storing Add (codes "b") Stored ∷ []) }
    ensures dead { IsLife (answered_at 100 (store_of Set (pos 10) the_key (codes "a")) Stored ∷ answered_at 109 (get_of the_key) (a_hit (codes "a"))
        ∷ answered_at 110 (get_of the_key) Miss ∷ []) }
{}

/// A count goes on from the stored number.
pub fn counters_are_counted()
    ensures { IsLife (storing Set (codes "5") Stored ∷ counting_up 1 (Number 6) ∷ counting_up 2 (Number 8) ∷ getting (a_hit (codes "8")) ∷ []) }
{}

/// An `ma` with `N` counts from 1 until the item is dead, and then begins anew.
pub fn limits_are_counted()
    ensures { IsLife (limiting_at 100 (codes "1") ∷ limiting_at 105 (codes "2") ∷ limiting_at 109 (codes "3") ∷ limiting_at 110 (codes "1") ∷ []) }
{}

/// An `ma` with `v` shows the number that it counts to.
pub fn shown_counts_are_counted()
    ensures { IsLife (storing Set (codes "5") Stored ∷ counting_up 1 (Number 6) ∷ showing_count 2 (codes "8") ∷ counting_up 1 (Number 9) ∷ []) }
{}

/// A `cas` stores once for a number. Between two numbers of a key are numbers of other keys.
pub fn numbers_are_compared()
    ensures { IsLife (storing Set (codes "a") Stored ∷ getting_number (a_numbered_hit 4 (codes "a")) ∷ comparing 4 (codes "b") Stored
        ∷ comparing 4 (codes "c") Exists ∷ getting_number (a_numbered_hit 9 (codes "b")) ∷ []) }
{}

/// A store that is refused leaves the stored item.
pub fn refused_stores_change_nothing()
    ensures { IsLife (storing Set (codes "a") Stored ∷ storing Set (codes "b") (Fault OutOfMemory) ∷ getting (a_hit (codes "a")) ∷ []) }
{}

/// One of the clients that find a mark is asked to fill the item.
pub fn marks_are_won()
    ensures made { IsLife (making Won ∷ making Sent ∷ getting (a_hit (codes "")) ∷ []) }
    ensures ending { IsLife (storing_at 100 ∷ recaching_at 105 Won ∷ recaching_at 106 Sent ∷ []) }
    ensures stale { IsLife (storing_at 100 ∷ recaching_at 105 Won ∷ invalidating_at 106 ∷ recaching_at 107 WonStale ∷ recaching_at 108 StaleSent ∷ []) }
    ensures fresh { IsLife (storing Set (codes "a") Stored ∷ recaching_at 105 Plain ∷ []) }
    ensures hit { IsLife (storing Set (codes "a") Stored ∷ making Plain ∷ getting (a_hit (codes "a")) ∷ []) }
{}
