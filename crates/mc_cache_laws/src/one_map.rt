//! When caches are one map: laws of the step. The functions do nothing: their contracts are the laws.
ghost use Rattle.std.specs.Prelude.{◌≡◌, ℕ, List};
ghost use Rattle.mc_cache.specs.CacheState.{CacheState, IsWithinBounds};
ghost use Rattle.mc_cache.specs.Replay.{replay, replies};
ghost use Rattle.mc_cache_laws.specs.OneMap.{OneMap};
ghost use Rattle.mc_cache_laws.specs.MapLaws.{IsUnflushed, StepsAsMap, EvictsNothing};
ghost use Rattle.mc_cache_laws.specs.Pools.{Executed, Caches, pool_after, pool_replies, commands_at, replies_at, StepPlainly, AreMap, AreUnflushed, opening_caches, empty_map, ActAsMap};

/// A command that compares no number and shows none, and is no flush, is answered as by a map if its store is not refused and
/// nothing is evicted. The cache then holds the map's items.
pub fn caches_step_as_maps()
    ensures { (s : CacheState) → IsUnflushed s → StepsAsMap s }
{}

/// Nothing is evicted if there is room for one more item, however long its value.
pub fn wide_caches_evict_nothing()
    ensures { (s : CacheState) → IsUnflushed s → EvictsNothing s }
{}

/// Several servers act together as one map if the owner of each key executes its commands. Each command is answered what the
/// map answers, in the order in which the commands were executed, whatever server executed them. This holds from empty
/// servers on.
pub fn pools_act_as_one_map()
    ensures act { (owner : List ℕ → ℕ) → (map : OneMap) → (caches : Caches) → (es : List Executed) → AreMap owner map caches
        → AreUnflushed caches → StepPlainly owner caches es → ActAsMap owner map caches es }
    ensures opening { (owner : List ℕ → ℕ) → (budget limit counter : ℕ) → IsWithinBounds budget limit → (es : List Executed)
        → StepPlainly owner (opening_caches budget limit counter) es
        → ActAsMap owner empty_map (opening_caches budget limit counter) es }
{}

/// Each server replays its own commands, in their order.
pub fn servers_replay_their_own_commands()
    ensures state { (caches : Caches) → (es : List Executed) → (place : ℕ)
        → pool_after caches es place ≡ replay (caches place) (commands_at place es) }
    ensures replies { (caches : Caches) → (es : List Executed) → (place : ℕ)
        → replies_at place es (pool_replies caches es) ≡ replies (caches place) (commands_at place es) }
{}
