//! Each key of a server is a register: laws of its cache. The functions do nothing: their contracts are the laws.
ghost use Rattle.std.specs.Prelude.{ℕ, List, None};
ghost use Rattle.mc_cache.specs.CacheState.{IsWithinBounds, opening_cache};
ghost use Rattle.mc_cache.specs.Replay.{Command};
ghost use Rattle.mc_account.specs.Orders.{Order};
ghost use Rattle.mc_history.specs.Histories.{IsLegal};
ghost use Rattle.mc_history.specs.declared.entries.Entry.{Entry};
ghost use Rattle.mc_registers.specs.Registers.{Done, IsRun};
ghost use Rattle.mc_registers.specs.Laws.{done_on};
ghost use Rattle.mc_registers.specs.Restarts.{CasLosesNothingAcrossRestarts};
ghost use Rattle.mc_registers.specs.Records.{RecordEach, on_key};

/// A cache executes commands from its opening on, at whatever moments. Then those on one key are a run of the register. So a hit is never stale or
/// wrong: only a miss may be due to forgetting.
pub fn keys_are_registers()
    ensures { (budget limit counter : ℕ) → IsWithinBounds budget limit → (commands : List Command) → (key : List ℕ)
        → IsRun counter None (done_on key (opening_cache budget limit counter) commands) }
{}

/// The same holds for what a server in a pool took in one life. Its legal history records commands and replies, and those on each key are a run of the
/// register.
pub fn histories_are_registers()
    ensures { (order : Order) → (place budget limit counter : ℕ) → IsWithinBounds budget limit → (history : List Entry)
        → IsLegal order place (opening_cache budget limit counter) history
        → (all : List Done) × RecordEach order place history all × ((key : List ℕ) → IsRun counter None (on_key key all)) }
{}

/// A cache executed some commands, on whatever keys. The numbers of a later cache begin above the first one's, by at least one for each command. Then
/// no number that a reply of the first showed of a key fits that key's item in the later one. No `cas` with it is done there, and no `ms`, `md` or `ma`
/// with `C`. In `old_numbers_fit_another_cache` both caches begin at the same number. An `ma` that makes an item by `N` compares nothing
/// (`counters_are_made_anew`).
pub fn cas_loses_nothing_across_restarts()
    ensures { (budget limit first : ℕ) → IsWithinBounds budget limit → (room most later : ℕ) → IsWithinBounds room most
        → CasLosesNothingAcrossRestarts (opening_cache budget limit first) (opening_cache room most later) }
{}
