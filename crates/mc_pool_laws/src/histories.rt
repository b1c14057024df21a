//! Laws of the commands that servers executed. The functions do nothing: their contracts are the laws.
ghost use Rattle.std.specs.Prelude.{ℕ, ◌≡◌, ◌==◌, List, [], codes, None, Some, length, map, slice_get, if◌then◌else◌};
ghost use Rattle.mc_ring.specs.Rings.{RingState};
ghost use Rattle.mc_route.specs.declared.losses.Losses.{Losses};
ghost use Rattle.mc_cache.specs.CacheState.{CacheState, IsWithinBounds, opening_cache};
ghost use Rattle.mc_account.specs.Orders.{Order};
ghost use Rattle.mc_history.specs.declared.entries.Entry.{Entry};
ghost use Rattle.mc_history.specs.Histories.{tag_in};
ghost use Rattle.mc_registers.specs.Registers.{Done, IsRun};
ghost use Rattle.mc_registers.specs.Records.{RecordEach, on_key};
ghost use Rattle.mc_world.specs.Accounts.{Account, Accounts, WasTaken};
ghost use Rattle.mc_world.specs.Homes.{Homes};
ghost use Rattle.mc_world.specs.Logs.{Log, before, in_life, moments_of, number_of, serves};
ghost use Rattle.mc_pool_laws.specs.Sent.{IsReplayed};
ghost use Rattle.mc_pool_laws.specs.Wanted.{AreWanted};

/// A server's history has one entry for each of its turns in the log, at that turn's moment.
pub fn histories_have_their_turns()
    ensures count { (home : Homes) (losses : Losses) (ring : RingState) (opening : CacheState) (texts outs : ℕ → List ℕ) (histories : ℕ → List Entry) (log : Log)
        → Account home losses ring opening texts outs histories log → (place : ℕ) → length (histories place) ≡ number_of (serves place) log }
    ensures moments { (home : Homes) (losses : Losses) (ring : RingState) (opening : CacheState) (texts outs : ℕ → List ℕ) (histories : ℕ → List Entry) (log : Log)
        → Account home losses ring opening texts outs histories log → (place : ℕ) → map (λ (e : Entry). e.moment) (histories place) ≡ moments_of place log }
{}

/// A cache that begins as the server's did replays the entries of each of its lives; a restart begins a life. Each entry is of a command of
/// its client's text, which goes to this server by its proxy's ring of the moment at which its request was taken. Its reply is the one that the cache
/// gives at this point.
pub fn histories_are_replayed()
    ensures { (home : Homes) (losses : Losses) (ring : RingState) (opening : CacheState) (texts outs : ℕ → List ℕ) (histories : ℕ → List Entry) (log : Log)
        → Account home losses ring opening texts outs histories log → (place life : ℕ)
        → IsReplayed home ring texts log place opening (in_life place life log (histories place)) }
{}

/// This shows why caches replay histories life by life: a server that restarts keeps nothing. In this account a client stores an item, and the
/// answer says so. Its server restarts, and its link comes up again. The client gets the item, and the answer is a miss. One cache does not
/// replay both commands.
pub fn restarted_servers_keep_nothing()
    ensures { (losses : Losses) → (ring : RingState) × (outs : ℕ → List ℕ) × (histories : ℕ → List Entry) × (log : Log)
        × Account (λ _. 0) losses ring (opening_cache 1000 10 0) (λ client. if 0 == client then codes "set k 0 0 1\r\nv\r\nget k\r\n" else []) outs histories log
        × (outs 0 ≡ codes "STORED\r\nEND\r\n")
        × (IsReplayed (λ _. 0) ring (λ client. if 0 == client then codes "set k 0 0 1\r\nv\r\nget k\r\n" else []) log 0 (opening_cache 1000 10 0) (histories 0) → ⊥) }
{}

/// In each life of a server each key is a register that may forget. The history of that life records commands and replies, and those on the
/// key are a run of the register (`mc_registers`). A life's first number is above 0.
pub fn lives_are_registers()
    ensures { (home : Homes) (losses : Losses) (ring : RingState) (budget items : ℕ) (order : Order) (texts outs : ℕ → List ℕ) (histories : ℕ → List Entry) (log : Log)
        → IsWithinBounds budget items → Accounts home losses ring (opening_cache budget items 0) order texts outs histories log → (place life : ℕ)
        → (all : List Done) × RecordEach order place (in_life place life log (histories place)) all × ((key : List ℕ) → IsRun 0 None (on_key key all)) }
{}

/// Memory is refused only to a command that needs it: it stores an item under a key that is missing then, or makes the stored value longer.
pub fn only_stores_are_refused()
    ensures { (home : Homes) (losses : Losses) (ring : RingState) (opening : CacheState) (texts outs : ℕ → List ℕ) (histories : ℕ → List Entry) (log : Log)
        → Account home losses ring opening texts outs histories log → (place life : ℕ)
        → AreWanted home ring texts log place opening (in_life place life log (histories place)) }
{}

/// No command is executed twice, in two servers or at two turns of one.
pub fn commands_are_executed_once()
    ensures { (home : Homes) (losses : Losses) (ring : RingState) (opening : CacheState) (texts outs : ℕ → List ℕ) (histories : ℕ → List Entry) (log : Log)
        → Account home losses ring opening texts outs histories log → (r s j k : ℕ) (d e : Entry) → slice_get (histories r) j ≡ Some d
        → slice_get (histories s) k ≡ Some e → tag_in d ≡ tag_in e → (r ≡ s) × (j ≡ k) }
{}

/// A command is executed only after its request was taken.
pub fn commands_are_executed_when_taken()
    ensures { (home : Homes) (losses : Losses) (ring : RingState) (opening : CacheState) (texts outs : ℕ → List ℕ) (histories : ℕ → List Entry) (log : Log)
        → Account home losses ring opening texts outs histories log → (place k : ℕ) (e : Entry) → slice_get (histories place) k ≡ Some e
        → WasTaken (tag_in e) (before (serves place) k log) }
{}
