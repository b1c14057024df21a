//! What an application may rely on, of one key: laws of its register. The functions do nothing: their contracts are the laws.
ghost use Rattle.std.specs.Prelude.{ℕ, Option};
ghost use Rattle.mc_item.specs.declared.bodies.Body.{Body};
ghost use Rattle.mc_registers.specs.Guarantees.{ReadsSeeOwnWrites, CountersCount, CountersCountWhileHeld, AddsExclude, CasLosesNothing, OldNumbersDoNotFit, CasLosesNothingAcross};
ghost use Rattle.mc_registers.specs.Recache.{RecacheHasOneWinner, EachWinIsMarked};

/// A client was answered that its whole value is stored. Since then no other command was answered that it stored, counted or deleted, and no `mg` with
/// `N` was shown W. Then a client is shown that value: by a hit, or by any other `mg`. In the run `another_value_is_read` another command stored. In
/// the runs `other_values_are_read` the value was joined to another or refused, or an `mg` made an item.
pub fn reads_see_own_writes()
    ensures { (last : ℕ) → (held : Option Body) → ReadsSeeOwnWrites last held }
{}

/// After a count that showed a number, each count gives the next one, once and in order, until another command writes. No count may ask for an item to
/// be made, by `N`. `incr` and `decr` show their number, and `ma` with `v` its value. In the run `another_number_is_counted` another command writes,
/// and in `forgotten_counters_begin_anew` a count makes an item.
pub fn counters_count()
    ensures { (last : ℕ) → (held : Option Body) → CountersCount last held }
{}

/// While an item is neither forgotten nor dead, each count goes on from the number that a first one showed, until another command writes. This
/// holds of an `ma` with `N` too, which makes an item if there is none: so it may limit a rate. In the runs `limits_begin_anew` the item is
/// forgotten, dead or deleted.
pub fn counters_count_while_held()
    ensures { (last : ℕ) → (held : Option Body) → CountersCountWhileHeld last held }
{}

/// If an item is held and no command writes, no `add` stores until the item is forgotten or dead: it is a lock with an expiry.
/// In the runs `forgotten_locks_are_taken` it is forgotten, deleted or dead.
pub fn adds_exclude()
    ensures { (last : ℕ) → (body : Body) → AddsExclude last body }
{}

/// A reply showed a number: a hit of `gets` or `gats`, or a meta command with `c`. If an update that needs it is done, nothing was stored, counted
/// or deleted in between, in one life of the server. Such an update is a `cas`, or an `ms`, `md` or `ma` with `C`. In the runs
/// `another_number_is_compared` it is refused, or compares another number, and in `numbers_fit_another_life` the server began anew in between.
/// In a run of `counters_are_made_anew` an `ma` makes an item by `N`.
pub fn cas_loses_nothing()
    ensures { (last : ℕ) → (held : Option Body) → CasLosesNothing last held }
{}

/// If the numbers of a life begin above a number, no update that needs it is done: no `cas`, and no `ms`, `md` or `ma` with `C`. In the run
/// `numbers_fit_another_life` they begin below it. In a run of `counters_are_made_anew` an `ma` makes an item by `N`.
pub fn old_numbers_do_not_fit()
    ensures { (last : ℕ) → OldNumbersDoNotFit last }
{}

/// A reply showed a number in one life, and the numbers of a later life begin above it. Then no update that needs it is done in the later life. So a
/// `cas`, or an `ms`, `md` or `ma` with `C`, loses nothing across the two. It is `old_numbers_do_not_fit` for a number that a reply showed. In the runs
/// `numbers_fit_another_life` both lives begin at the same number. This is a law of registers alone: in a `World` each life begins at one number.
pub fn cas_loses_nothing_across_lives()
    ensures { (first : ℕ) → (later : ℕ) → CasLosesNothingAcross first later }
{}

/// Between two commands that write, at most one `mg` shows W, if the item is neither forgotten nor dead (`one`). Whatever is forgotten, a second one
/// shows it only if it asks for an item to be made, by `N` (`marked`). In the runs `marks_are_won_again` the item is forgotten, dead, called stale, or
/// stored anew.
pub fn recache_has_one_winner()
    ensures one { (last : ℕ) → (held : Option Body) → RecacheHasOneWinner last held }
    ensures marked { (last : ℕ) → (held : Option Body) → EachWinIsMarked last held }
{}
