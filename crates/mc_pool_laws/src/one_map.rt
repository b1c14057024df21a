//! Laws of the histories of an account. The functions do nothing: their contracts are the laws.
ghost use Rattle.std.specs.Prelude.{ℕ, List};
ghost use Rattle.mc_ring.specs.Rings.{RingState};
ghost use Rattle.mc_route.specs.declared.losses.Losses.{Losses};
ghost use Rattle.mc_cache.specs.CacheState.{IsWithinBounds, opening_cache};
ghost use Rattle.mc_account.specs.Lookups.{command_at};
ghost use Rattle.mc_account.specs.Orders.{Order};
ghost use Rattle.mc_history.specs.declared.entries.Entry.{Entry};
ghost use Rattle.mc_world.specs.Accounts.{Account, Accounts};
ghost use Rattle.mc_world.specs.Homes.{Homes};
ghost use Rattle.mc_world.specs.Logs.{Log};
ghost use Rattle.mc_pool_laws.specs.Executions.{sent_at};
ghost use Rattle.mc_pool_laws.specs.OneMaps.{ArePlainlyOfOneMap};

/// No server joined at any proxy, and none restarted; no store was refused, nothing was evicted, and no command was a flush, compared an item's
/// number, or showed it. Then all histories of an account are those of one map, which takes the commands of all servers, by whichever proxies, in the
/// order of their turns. The commands of the entries may be looked up in what the clients sent, or in any order of the account.
pub fn accounts_are_of_one_map()
    ensures by_texts { (home : Homes) (losses : Losses) (ring : RingState) (budget items : ℕ) (texts outs : ℕ → List ℕ) (histories : ℕ → List Entry) (log : Log)
        → IsWithinBounds budget items → Account home losses ring (opening_cache budget items 0) texts outs histories log
        → ArePlainlyOfOneMap ring budget items (sent_at ring texts) histories log }
    ensures by_order { (home : Homes) (losses : Losses) (ring : RingState) (budget items : ℕ) (order : Order) (texts outs : ℕ → List ℕ) (histories : ℕ → List Entry) (log : Log)
        → IsWithinBounds budget items → Accounts home losses ring (opening_cache budget items 0) order texts outs histories log
        → ArePlainlyOfOneMap ring budget items (command_at order) histories log }
{}
