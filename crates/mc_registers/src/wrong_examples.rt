//! Worked examples of the register: histories that no register has, whatever it forgets and
//! whatever numbers it gives.
ghost use Rattle.std.specs.Prelude.{[], ◌∷◌, pos, codes};
ghost use Rattle.mc_request.specs.declared.faults.Fault.TheVariants.{OutOfMemory};
ghost use Rattle.mc_request.specs.declared.parts.StoreMode.TheVariants.{Set, Add, Replace};
ghost use Rattle.mc_reply.specs.declared.replies.Marks.TheVariants.{Won};
ghost use Rattle.mc_reply.specs.declared.replies.Reply.TheVariants.{Stored, NotStored, Deleted, Number, Miss, Fault};
ghost use Rattle.mc_cache_laws.specs.Examples.{store_of, get_of};
ghost use Rattle.mc_registers.specs.Examples.{the_key, answered_at, storing, comparing, getting, getting_number, deleting, counting_up, recaching_at, storing_at, a_hit, a_numbered_hit, IsNoLife};

/// A hit after a deletion, or after a miss, is of an item that was stored since.
pub fn deleted_items_are_not_shown()
    ensures deleted { IsNoLife (storing Set (codes "a") Stored ∷ deleting Deleted ∷ getting (a_hit (codes "a")) ∷ []) }
    ensures missed { IsNoLife (storing Set (codes "a") Stored ∷ getting Miss ∷ getting (a_hit (codes "a")) ∷ []) }
    ensures replaced { IsNoLife (storing Replace (codes "a") Stored ∷ []) }
    ensures held { IsNoLife (storing Add (codes "a") NotStored ∷ []) }
{}

/// A hit shows the last value that was stored, and no value that was refused.
pub fn old_values_are_not_shown()
    ensures older { IsNoLife (storing Set (codes "a") Stored ∷ storing Set (codes "b") Stored ∷ getting (a_hit (codes "a")) ∷ []) }
    ensures added { IsNoLife (storing Set (codes "a") Stored ∷ storing Add (codes "b") Stored ∷ getting (a_hit (codes "a")) ∷ []) }
    ensures refused { IsNoLife (storing Set (codes "a") Stored ∷ storing Set (codes "b") (Fault OutOfMemory) ∷ getting (a_hit (codes "b")) ∷ []) }
    ensures skipped { IsNoLife (storing Set (codes "5") Stored ∷ counting_up 1 (Number 7) ∷ []) }
{}

/// A number is given once in a life.
pub fn numbers_are_not_given_twice()
    ensures again { IsNoLife (storing Set (codes "a") Stored ∷ getting_number (a_numbered_hit 3 (codes "a")) ∷ storing Set (codes "b") Stored
        ∷ getting_number (a_numbered_hit 3 (codes "b")) ∷ []) }
    ensures compared { IsNoLife (storing Set (codes "a") Stored ∷ getting_number (a_numbered_hit 3 (codes "a")) ∷ storing Set (codes "b") Stored
        ∷ comparing 3 (codes "c") Stored ∷ []) }
{}

/// A dead item is not shown.
pub fn dead_items_are_not_shown()
    ensures { IsNoLife (answered_at 100 (store_of Set (pos 10) the_key (codes "a")) Stored ∷ answered_at 110 (get_of the_key) (a_hit (codes "a")) ∷ []) }
{}

/// A mark is won once, and no item is won that has no mark.
pub fn marks_are_not_won_twice()
    ensures twice { IsNoLife (storing_at 100 ∷ recaching_at 105 Won ∷ recaching_at 106 Won ∷ []) }
    ensures fresh { IsNoLife (storing Set (codes "a") Stored ∷ recaching_at 105 Won ∷ []) }
{}
