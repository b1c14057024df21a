//! A pool is linearizable, each key by itself. The functions do nothing: their contracts are the laws.
ghost use Rattle.std.specs.Prelude.{ℕ, ◌≡◌, ◌≤◌, ◌++◌, List, Some};
ghost use Rattle.mc_ring.specs.Rings.{IsRing, RingState};
ghost use Rattle.mc_route.specs.Routes.{owner_in};
ghost use Rattle.mc_route.specs.declared.losses.Losses.{Losses};
ghost use Rattle.mc_cache.specs.CacheState.{CacheState, IsWithinBounds, opening_cache};
ghost use Rattle.mc_account.specs.Lookups.{IsBefore, asked_at};
ghost use Rattle.mc_account.specs.Orders.{Order, TakenRequest};
ghost use Rattle.mc_history.specs.declared.entries.Entry.{Entry};
ghost use Rattle.mc_history.specs.Histories.{tag_in};
ghost use Rattle.mc_world.specs.Accounts.{Accounts};
ghost use Rattle.mc_world.specs.Homes.{Homes, home_in};
ghost use Rattle.mc_world.specs.Logs.{IsRingAfter, Log, before, number_of, takes};
ghost use Rattle.mc_world.specs.Runs.{Call, Calls};
ghost use Rattle.mc_world.specs.Worlds.{CourseState, history_of, homes_from, put_out_of, text_of, world_opened};
ghost use Rattle.mc_pool_laws.specs.OneMaps.{joins};
ghost use Rattle.mc_linearizable.specs.Linearizable.{ComesFirst, Executed, IsEarlier, IsLinearizablePool, IsNotRoutedBack, WasReplied};

/// This holds by any account, whichever servers joined or restarted. Each client was given the answers to its own requests, in order, and the
/// commands on a key have one order. In that order a register that may forget gives the replies that the proxies took. The order keeps to real
/// time, except for lost commands, each of which is in it at most once. In the account `lost_commands_may_come_late` such a command is at a
/// place that real time does not give.
///
/// This holds for any number of proxies. Between two proxies the order keeps to real time unless the second routes the key back to a lower place. It does not if
/// it has the servers up to the first command's place, under the same addresses (`HasServersTo`): so not from a server of the opening ring, and not if
/// no server joins (`unjoined_pools_keep_to_real_time`). It may while it lacks one of them: in the account `two_rings_show_older_values` it does.
///
/// With `Losses::Missed` a lost `get` is answered as a miss. Such an answer implies nothing about the register.
pub fn pools_are_linearizable()
    ensures { (home : Homes) (losses : Losses) (ring : RingState) (budget items counter : ℕ) (order : Order) (texts outs : ℕ → List ℕ) (histories : ℕ → List Entry) (log : Log)
        → IsRing ring → IsWithinBounds budget items → Accounts home losses ring (opening_cache budget items counter) order texts outs histories log
        → IsLinearizablePool home losses counter order texts outs histories log }
{}

/// This holds whatever is done to a pool of any number of proxies: an order exists by which it gives account, and by which it is linearizable
/// (`linearizable`). A client's proxy follows from its number (`homes_from`), and never changes (`homes`).
pub fn every_run_is_linearizable()
    ensures linearizable { (losses : Losses) (ring : RingState) (clients : List ℕ) (budget items : ℕ) (calls : List Call) (c : CourseState) → IsRing ring → IsWithinBounds budget items
        → Calls (opening_cache budget items 0) calls (world_opened losses ring clients budget items).course c
        → (order : Order) × Accounts (home_in (homes_from 0 clients)) losses ring (opening_cache budget items 0) order (text_of c) (put_out_of c) (history_of c) c.log
        × IsLinearizablePool (home_in (homes_from 0 clients)) losses 0 order (text_of c) (put_out_of c) (history_of c) c.log }
    ensures homes { (losses : Losses) (ring : RingState) (clients : List ℕ) (budget items : ℕ) (calls : List Call) (c : CourseState)
        → Calls (opening_cache budget items 0) calls (world_opened losses ring clients budget items).course c → c.pool.homes ≡ homes_from 0 clients }
{}

/// No key is routed back between two commands on it if its owner in the ring that routed the second has no lower place than its owner in the ring that
/// routed the first (`kept`). So none is whose owner is the same in both rings. No key is if the second ring has the servers of the first, and then
/// others or none (`grown`), or if no server joins (`unjoined`).
pub fn rings_that_grow_route_no_key_back()
    ensures kept { (home : Homes) (losses : Losses) (ring : RingState) (opening : CacheState) (order : Order) (texts outs : ℕ → List ℕ) (histories : ℕ → List Entry) (log : Log)
        → Accounts home losses ring opening order texts outs histories log → (key : List ℕ) (a b : Executed order histories key) (old new : RingState)
        → IsRingAfter (home a.entry.client) ring (before (takes a.entry.client) a.entry.request log) old
        → IsRingAfter (home b.entry.client) ring (before (takes b.entry.client) b.entry.request log) new
        → owner_in old key ≤ owner_in new key → IsNotRoutedBack home log a b }
    ensures grown { (home : Homes) (losses : Losses) (ring : RingState) (opening : CacheState) (order : Order) (texts outs : ℕ → List ℕ) (histories : ℕ → List Entry) (log : Log)
        → IsRing ring → Accounts home losses ring opening order texts outs histories log → (key : List ℕ) (a b : Executed order histories key) (old new : RingState)
        → IsRingAfter (home a.entry.client) ring (before (takes a.entry.client) a.entry.request log) old
        → IsRingAfter (home b.entry.client) ring (before (takes b.entry.client) b.entry.request log) new
        → (more : List (List ℕ)) → new.servers ≡ old.servers ++ more → IsNotRoutedBack home log a b }
    ensures unjoined { (home : Homes) (losses : Losses) (ring : RingState) (opening : CacheState) (order : Order) (texts outs : ℕ → List ℕ) (histories : ℕ → List Entry) (log : Log)
        → Accounts home losses ring opening order texts outs histories log → number_of joins log ≡ 0 → (key : List ℕ) (a b : Executed order histories key)
        → IsNotRoutedBack home log a b }
{}

/// A key has one owner by the rings that routed two commands on it, of whichever proxies. Then its order keeps to real time between the two: if a proxy took
/// the reply to the first, and the first one's request was answered before the second one's was taken, the first comes first. So a server that joins
/// does not matter to a key that it does not take.
pub fn keys_that_stay_keep_to_real_time()
    ensures { (home : Homes) (losses : Losses) (ring : RingState) (opening : CacheState) (order : Order) (texts outs : ℕ → List ℕ) (histories : ℕ → List Entry) (log : Log)
        → IsRing ring → Accounts home losses ring opening order texts outs histories log → (key : List ℕ) (a b : Executed order histories key) (e f : TakenRequest)
        → asked_at order a.entry.client a.entry.request ≡ Some e → asked_at order b.entry.client b.entry.request ≡ Some f → owner_in e.ring key ≡ owner_in f.ring key
        → WasReplied order (tag_in a.entry) → IsEarlier (tag_in a.entry) (tag_in b.entry) log → ComesFirst a b }
{}

/// In a linearizable pool in which no server joins, each key's order keeps to real time between all clients, whichever proxies they use.
pub fn unjoined_pools_keep_to_real_time()
    ensures { (home : Homes) (losses : Losses) (counter : ℕ) (order : Order) (texts outs : ℕ → List ℕ) (histories : ℕ → List Entry) (log : Log)
        → IsLinearizablePool home losses counter order texts outs histories log → number_of joins log ≡ 0 → (key : List ℕ) (a b : Executed order histories key)
        → WasReplied order (tag_in a.entry) → IsEarlier (tag_in a.entry) (tag_in b.entry) log → ComesFirst a b }
{}

/// The proxy took the replies to two commands of one client on a key. Then the one that the client sent first is first in the key's order,
/// even if the client did not wait for the first answer. In the account `lost_commands_may_come_late` the first one was lost, and in
/// `lost_commands_may_come_early` the second.
pub fn pipelined_commands_keep_their_order()
    ensures { (home : Homes) (losses : Losses) (ring : RingState) (opening : CacheState) (order : Order) (texts outs : ℕ → List ℕ) (histories : ℕ → List Entry) (log : Log)
        → IsRing ring → Accounts home losses ring opening order texts outs histories log → (key : List ℕ) (a b : Executed order histories key)
        → a.entry.client ≡ b.entry.client → IsBefore (tag_in a.entry) (tag_in b.entry) → WasReplied order (tag_in a.entry) → WasReplied order (tag_in b.entry)
        → ComesFirst a b }
{}
