//! Laws of worlds. The functions do nothing: their contracts are the laws.
ghost use Rattle.std.specs.Prelude.{◌≡◌, ◌∷◌, ◌++◌, ◌+◌, ◌^◌, ◌<◌, ℕ, Bool, List, [], All, Some, length, map, slice_get, take, true, if◌then◌else◌};
ghost use Rattle.mc_ring.specs.Rings.{RingState};
ghost use Rattle.mc_route.specs.declared.losses.Losses.{Losses};
ghost use Rattle.mc_route.specs.declared.outcomes.Outcome.TheVariants.{Lost, Reply};
ghost use Rattle.mc_cache.specs.CacheState.{CacheState};
ghost use Rattle.mc_server.specs.ServerState.{connection_at, output_of};
ghost use Rattle.mc_proxy.specs.ProxyState.{output_of as output_at};
ghost use Rattle.mc_account.specs.Lanes.{Lane, fresh_lane};
ghost use Rattle.mc_account.specs.Orders.{Order, note, note_all};
ghost use Rattle.mc_account.specs.Holds.{grown};
ghost use Rattle.mc_world.specs.Accounts.{Account, AccountsForCommands};
ghost use Rattle.mc_world.specs.Homes.{Homes, of_proxy};
ghost use Rattle.mc_world.specs.Logs.{Log, before, is_up, number_of, up_by};
ghost use Rattle.mc_world.specs.declared.logs.Logged.{Logged};
ghost use Rattle.mc_world.specs.Pools.{ClientGoes, TakesBytes, EndSeen, LateBytes, LateTurn, LinkReturns, HearsClient, LosesLink, PoolHolds, PutsAnswer, ReachesProxy, ReachesServer, ServerTakes, TakesReply, TakesRequest, asked_by, relaned};
ghost use Rattle.mc_world.specs.WorldState.{PoolState, SiteState, begun_of, histories_of, home_of, link_of, session_of, way_by};
ghost use Rattle.mc_history.specs.Named.{AreReplied};

/// A pool in which nothing has happened gives account.
pub fn nothing_gives_account()
    ensures { (home : Homes) (losses : Losses) (ring : RingState) (opening : CacheState)
        → Account home losses ring opening (λ _. []) (λ _. []) (λ _. []) [] }
{}

/// A pool that holds still holds after what a client does, or its proxy for it.
pub fn clients_keep_pools()
    ensures hears { (opening : CacheState) (texts sent : ℕ → List ℕ) (order : Order) (lanes : ℕ → ℕ → Lane) (client : ℕ) (piece : List ℕ) (old new : PoolState)
        → ((number : ℕ) → All (λ b. b < 256) (grown client piece texts number)) → HearsClient client piece old new
        → PoolHolds opening texts sent order lanes old → PoolHolds opening (grown client piece texts) sent order lanes new }
    ensures takes { (opening : CacheState) (texts sent : ℕ → List ℕ) (order : Order) (lanes : ℕ → ℕ → Lane) (client : ℕ) (old new : PoolState)
        → (taking : TakesRequest client old new) → PoolHolds opening texts sent order lanes old
        → PoolHolds opening texts sent (order ++ asked_by taking ∷ []) lanes new }
    ensures takes_bytes { (opening : CacheState) (texts sent : ℕ → List ℕ) (order : Order) (lanes : ℕ → ℕ → Lane) (client count : ℕ) (old new : PoolState)
        → TakesBytes client count old new → PoolHolds opening texts sent order lanes old
        → PoolHolds opening texts (grown client (take count (output_at (session_of old client))) sent) order lanes new }
    ensures goes { (opening : CacheState) (texts sent : ℕ → List ℕ) (order : Order) (lanes : ℕ → ℕ → Lane) (client : ℕ) (old new : PoolState)
        → ClientGoes client old new → PoolHolds opening texts sent order lanes old → PoolHolds opening texts sent order lanes new }
    ensures puts { (opening : CacheState) (texts sent : ℕ → List ℕ) (order : Order) (lanes : ℕ → ℕ → Lane) (client : ℕ) (old new : PoolState)
        → PutsAnswer client old new → PoolHolds opening texts sent order lanes old → PoolHolds opening texts sent order lanes new }
{}

/// A pool that holds still holds after what happens on a living generation, and after its loss.
pub fn living_ways_keep_pools()
    ensures reaches_server { (opening : CacheState) (texts sent : ℕ → List ℕ) (order : Order) (lanes : ℕ → ℕ → Lane) (proxy place count : ℕ) (old new : PoolState)
        → ReachesServer proxy place count old new → PoolHolds opening texts sent order lanes old
        → PoolHolds opening texts sent order
        (relaned proxy place (record (lanes proxy place) { out = (lanes proxy place).out ++ take count (link_of old proxy place).output }) lanes) new }
    ensures server_takes { (opening : CacheState) (texts sent : ℕ → List ℕ) (order : Order) (lanes : ℕ → ℕ → Lane) (proxy place moment : ℕ) (old new : PoolState)
        → (taking : ServerTakes proxy place moment old new) → moment < 2 ^ 63
        → PoolHolds opening texts sent order lanes old → PoolHolds opening texts sent order lanes new }
    ensures reaches_proxy { (opening : CacheState) (texts sent : ℕ → List ℕ) (order : Order) (lanes : ℕ → ℕ → Lane) (proxy place count : ℕ) (old new : PoolState)
        → (reach : ReachesProxy proxy place count old new) → PoolHolds opening texts sent order lanes old
        → PoolHolds opening texts sent order (relaned proxy place (record (lanes proxy place) {
          came = (lanes proxy place).came ++ take count (output_of (connection_at reach.there.site.server (way_by reach.there.site proxy).connection));
        }) lanes) new }
    ensures takes_reply { (opening : CacheState) (texts sent : ℕ → List ℕ) (order : Order) (lanes : ℕ → ℕ → Lane) (proxy place : ℕ) (old new : PoolState)
        → (taking : TakesReply proxy place old new) → PoolHolds opening texts sent order lanes old
        → PoolHolds opening texts sent (note taking.answers.tag (Reply taking.answers.reply) order)
        (relaned proxy place (record (lanes proxy place) { replies = (lanes proxy place).replies ++ taking.answers.reply ∷ [] }) lanes) new }
    ensures loses { (opening : CacheState) (texts sent : ℕ → List ℕ) (order : Order) (lanes : ℕ → ℕ → Lane) (proxy place : ℕ) (old new : PoolState)
        → LosesLink proxy place old new → PoolHolds opening texts sent order lanes old
        → PoolHolds opening texts sent (note_all (map (λ waiting. waiting.1) (link_of old proxy place).waiting) Lost order) lanes new }
{}

/// A pool that holds still holds after late bytes and late turns of a lost generation, its end, and the return of a link.
pub fn lost_ways_keep_pools()
    ensures late_bytes { (opening : CacheState) (texts sent : ℕ → List ℕ) (order : Order) (lanes : ℕ → ℕ → Lane) (place i count : ℕ) (old new : PoolState)
        → LateBytes place i count old new → PoolHolds opening texts sent order lanes old → PoolHolds opening texts sent order lanes new }
    ensures late_turn { (opening : CacheState) (texts sent : ℕ → List ℕ) (order : Order) (lanes : ℕ → ℕ → Lane) (place i moment : ℕ) (old new : PoolState)
        → (taking : LateTurn place i moment old new) → moment < 2 ^ 63
        → PoolHolds opening texts sent order lanes old → PoolHolds opening texts sent order lanes new }
    ensures end_seen { (opening : CacheState) (texts sent : ℕ → List ℕ) (order : Order) (lanes : ℕ → ℕ → Lane) (place i : ℕ) (old new : PoolState)
        → EndSeen place i old new → PoolHolds opening texts sent order lanes old → PoolHolds opening texts sent order lanes new }
    ensures returns_link { (opening : CacheState) (texts sent : ℕ → List ℕ) (order : Order) (lanes : ℕ → ℕ → Lane) (proxy place : ℕ) (old new : PoolState)
        → LinkReturns proxy place old new → PoolHolds opening texts sent order lanes old
        → PoolHolds opening texts sent order (relaned proxy place (fresh_lane (length (of_proxy (home_of old) proxy order))) lanes) new }
{}

/// A pool in the state in which its calls leave it (`PoolHolds`) gives account of its commands. Each client's requests were taken in order.
/// Each server's history since its life began is legal, and all its entries are of commands that were sent to it. No command has two entries
/// in all histories. A known reply of a command is that of its entry in the history of its server.
pub fn pools_account_for_commands()
    ensures commands { (opening : CacheState) (texts sent : ℕ → List ℕ) (order : Order) (lanes : ℕ → ℕ → Lane) (pool : PoolState)
        → PoolHolds opening texts sent order lanes pool → AccountsForCommands opening order texts (histories_of pool.sites) (begun_of pool.sites) }
    ensures replied { (opening : CacheState) (texts sent : ℕ → List ℕ) (order : Order) (lanes : ℕ → ℕ → Lane) (pool : PoolState) (place : ℕ) (site : SiteState)
        → PoolHolds opening texts sent order lanes pool → slice_get pool.sites place ≡ Some site → AreReplied place order site.history }
{}

/// A log that grows: its last event decides counts and links, and the place before an earlier event stays.
pub fn logs_go_on()
    ensures counts { (is : Logged → Bool) (log : Log) (e : Logged)
        → number_of is (log ++ e ∷ []) ≡ number_of is log + (if is e then 1 else 0) }
    ensures links { (proxy place : ℕ) (log : Log) (e : Logged) → is_up proxy place (log ++ e ∷ []) ≡ up_by proxy place e (is_up proxy place log) }
    ensures stays { (is : Logged → Bool) (number : ℕ) (log : Log) (e : Logged) → number < number_of is log
        → before is number (log ++ e ∷ []) ≡ before is number log }
    ensures last { (is : Logged → Bool) (log : Log) (e : Logged) → is e ≡ true
        → before is (number_of is log) (log ++ e ∷ []) ≡ log }
{}
