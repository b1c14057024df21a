//! Laws of what a drain does, and of what it leaves. The functions do nothing: their contracts are the laws.
ghost use Rattle.std.specs.Prelude.{ℕ, ◌≡◌, ◌++◌, true, List, length};
ghost use Rattle.std.specs.List.{concat, list_all};
ghost use Rattle.mc_request.specs.Requests.{requests_of};
ghost use Rattle.mc_ring.specs.Rings.{RingState};
ghost use Rattle.mc_route.specs.declared.losses.Losses.{Losses};
ghost use Rattle.mc_cache.specs.CacheState.{CacheState};
ghost use Rattle.mc_world.specs.Accounts.{Account};
ghost use Rattle.mc_world.specs.Applies.{IsThere};
ghost use Rattle.mc_world.specs.Homes.{Homes};
ghost use Rattle.mc_world.specs.Drains.{Drains};
ghost use Rattle.mc_world.specs.Logs.{Log};
ghost use Rattle.mc_world.specs.Quiet.{IsQuiet};
ghost use Rattle.mc_world.specs.Worlds.{CourseState, history_of, put_out_of, taken_by, text_of};
ghost use Rattle.mc_pool_laws.specs.Drained.{is_of_drain_at};
ghost use Rattle.mc_pool_laws.specs.Outcomes.{AreAnswersFrom};

/// In the entries that a drain at a moment adds to the log, no client sends or goes, no link is lost or comes up, and no server
/// joins. Each server takes its requests at that moment.
pub fn drains_add_what_is_left()
    ensures { (moment : ℕ) (old new : CourseState) → Drains moment old new
        → (added : Log) × (new.log ≡ old.log ++ added) × (list_all (is_of_drain_at moment) added ≡ true) }
{}

/// If nothing is left to do, each client that has not gone took the answers to all its requests.
pub fn quiet_worlds_have_answered()
    ensures { (home : Homes) (losses : Losses) (ring : RingState) (opening : CacheState) (c : CourseState)
        → Account home losses ring opening (text_of c) (put_out_of c) (history_of c) c.log → IsQuiet c → (client : ℕ) → IsThere client c.pool
        → (answers : List (List ℕ)) × (length answers ≡ length (requests_of (text_of c client))) × (taken_by c client ≡ concat answers)
        × AreAnswersFrom home losses ring (text_of c) (history_of c) c.log client 0 answers }
{}
