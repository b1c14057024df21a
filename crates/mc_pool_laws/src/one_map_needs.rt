//! Why the laws of one map have a premise. The function does nothing: its contract is the law.
ghost use Rattle.std.specs.Prelude.{ℕ, ◌≡◌, List, codes};
ghost use Rattle.mc_ring.specs.Rings.{RingState};
ghost use Rattle.mc_route.specs.Routes.{owner_in};
ghost use Rattle.mc_route.specs.declared.losses.Losses.{Losses};
ghost use Rattle.mc_cache.specs.CacheState.{opening_cache};
ghost use Rattle.mc_cache_laws.specs.Pools.{ArePlainSteps, opening_caches};
ghost use Rattle.mc_account.specs.Lookups.{command_at};
ghost use Rattle.mc_account.specs.Orders.{Order};
ghost use Rattle.mc_history.specs.declared.entries.Entry.{Entry};
ghost use Rattle.mc_world.specs.Accounts.{Accounts};
ghost use Rattle.mc_world.specs.Logs.{Log, number_of, restarts};
ghost use Rattle.mc_pool_laws.specs.Executions.{commands_of};
ghost use Rattle.mc_pool_laws.specs.OneMaps.{AreOfOneMap, joins};

/// This shows why no server may restart. In this account a client stores an item, and the answer says so. Its server restarts, and its link
/// comes up again. The client gets the item, and the answer is a miss. No server joined, and each command is a plain step of a cache that
/// goes on. The histories are not those of one map.
pub fn restarted_servers_are_not_one_map()
    ensures { (losses : Losses) → (ring : RingState) × (order : Order) × (texts : ℕ → List ℕ) × (outs : ℕ → List ℕ) × (histories : ℕ → List Entry) × (log : Log)
        × Accounts (λ _. 0) losses ring (opening_cache 1000 10 0) order texts outs histories log
        × (texts 0 ≡ codes "set k 0 0 1\r\nv\r\nget k\r\n") × (outs 0 ≡ codes "STORED\r\nEND\r\n")
        × (number_of joins log ≡ 0) × (number_of (restarts 0) log ≡ 1)
        × ((place : ℕ) → ArePlainSteps (opening_cache 1000 10 0) (commands_of (command_at order) (histories place)))
        × (AreOfOneMap (owner_in ring) (opening_caches 1000 10 0) (command_at order) histories log → ⊥) }
{}
