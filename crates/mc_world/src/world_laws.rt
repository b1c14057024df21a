//! Laws of the course of a world. The functions do nothing: their contracts are the laws.
ghost use Rattle.std.specs.Prelude.{◌≡◌, ◌<◌, ◌-◌, ◌^◌, ℕ, [], List, true, All, IfOk};
ghost use Rattle.mc_ring.specs.Rings.{IsRing, RingState};
ghost use Rattle.mc_route.specs.declared.losses.Losses.{Losses};
ghost use Rattle.mc_cache.specs.CacheState.{CacheState, HasRoom, IsWithinBounds, opening_cache};
ghost use Rattle.mc_cache_laws.specs.GoodCaches.{IsGoodCache};
ghost use Rattle.mc_account.specs.Lanes.{fresh_lane};
ghost use Rattle.mc_world.specs.Courses.{Applies, IsDone};
ghost use Rattle.mc_world.specs.CourseHolds.{CourseHolds};
ghost use Rattle.mc_world.specs.Pools.{PoolHolds};
ghost use Rattle.mc_world.specs.Serving.{PoolServes};
ghost use Rattle.mc_world.specs.Accounts.{Account};
ghost use Rattle.mc_world.specs.Homes.{home_in};
ghost use Rattle.mc_world.specs.Logs.{number_of, takes};
ghost use Rattle.mc_world.specs.Quiet.{IsQuiet, is_inner};
ghost use Rattle.mc_world.specs.Runs.{Call, Calls};
ghost use Rattle.mc_world.specs.Steps.{RunsTo};
ghost use Rattle.mc_world.specs.Worlds.{CourseState, history_of, homes_from, opening_pool, put_out_of, text_of, world_opened};
ghost use Rattle.mc_world.specs.declared.events.Event.{Event};

use crate::errors::WorldError;
use crate::events::Event;
use crate::worlds::World;
use mc_ring::Ring;
use mc_route::Losses;
use mc_store::Store;
use mc_text::Block;
use std::alloc::Global;

/// A pool that was just opened holds with nothing taken (`PoolHolds`): its links are up, and each server has taken nothing.
pub fn opening_pools_hold()
    ensures { (losses : Losses) (opening : CacheState) (ring : RingState) (clients : List ℕ) → IsGoodCache opening
        → PoolHolds opening (λ _. []) (λ _. []) [] (λ _ _. fresh_lane 0) (opening_pool losses opening ring clients) }
{}

/// Each event that is done keeps the invariant of a course (`CourseHolds`).
pub fn courses_go_on()
    ensures { (ring : RingState) (opening : CacheState) (event : Event (List ℕ)) (old new : CourseState)
        → CourseHolds ring opening old → IsDone event old new → CourseHolds ring opening new }
{}

/// In each course that holds (`CourseHolds`), the servers serve the proxies, over each link and on each lost generation.
pub fn courses_serve()
    ensures { (ring : RingState) (opening : CacheState) (c : CourseState) → CourseHolds ring opening c → PoolServes c.pool }
{}

/// This holds of all events, in whatever order, and whichever servers join or restart. Each client's bytes are its requests' answers in order,
/// without gap. Each server's executed commands are one history, which the abstract cache replays life by life. Each answered command is once in its
/// owner's history, each lost one at most once. The owner is that of the moment at which the request was taken. A client's proxy follows from its
/// number and from how many clients each proxy has (`homes_from`), and never changes.
pub fn every_run_gives_account()
    ensures { (losses : Losses) (ring : RingState) (clients : List ℕ) (budget items : ℕ) (calls : List Call) (c : CourseState) → IsRing ring → IsWithinBounds budget items
        → Calls (opening_cache budget items 0) calls (world_opened losses ring clients budget items).course c
        → Account (home_in (homes_from 0 clients)) losses ring (opening_cache budget items 0) (text_of c) (put_out_of c) (history_of c) c.log }
{}

/// The theorem on public calls alone: for any ring, choice for lost commands, clients of each proxy, bounds, stores and list of events, the world that executed
/// them gives account.
pub fn every_world_gives_account<S: Store + Drop>(
    alloc: Global,
    ring: Ring,
    losses: Losses,
    clients: &[usize],
    budget: u64,
    items: usize,
    stores: Vec<S>,
    events: &[Event<Block>],
) -> Result<World<S>, WorldError>
    requires empty { All (λ store. S.items store ≡ []) stores.items }
    requires room { All (λ store. HasRoom items (S.most store)) stores.items }
    ensures took { IfOk result (λ world. (refusals : ℕ) × RunsTo events.now (world_opened losses ring clients.now budget items).course world.course refusals) }
    ensures account { IfOk result (λ world. Account (home_in (homes_from 0 clients.now)) losses ring (opening_cache budget items 0) (text_of world.course)
        (put_out_of world.course) (history_of world.course) world.course.log) }
{
    let mut world = World::with_proxies(alloc, ring, losses, clients, budget, items, stores)?;
    world.run(events);
    Ok(world)
}

/// A pool is quiet if no event applies that moves bytes, takes a turn, emits an answer or shows a server an end. This holds whatever was done, and
/// whichever servers joined or restarted. In a quiet pool each request of each client that has not gone is answered, and nothing is left on any way.
/// No client had 2^64 - 1 requests.
pub fn nothing_is_stuck()
    ensures { (losses : Losses) (ring : RingState) (clients : List ℕ) (budget items : ℕ) (calls : List Call) (c : CourseState) → IsRing ring → IsWithinBounds budget items
        → Calls (opening_cache budget items 0) calls (world_opened losses ring clients budget items).course c
        → ((client : ℕ) → number_of (takes client) c.log < 2 ^ 64 - 1)
        → ((event : Event (List ℕ)) → is_inner event ≡ true → Applies event c.pool → ⊥) → IsQuiet c }
{}
