//! Joining the workers.
ghost use Rattle.std.specs.Prelude.{◌≡◌, ℕ, ◌<◌, ◌≤◌, Ok, Some, vec_len, vec_capacity, slice_get, slice_index_or, Err, IfOk, IsErrOf, IsOkUnless};
ghost use Rattle.std.specs.PromisedHandle.{KeepsEach};
ghost use Rattle.rtrb.specs.Ring.{sent, received};
ghost use Rattle.mc_threads.specs.Causes.{IsLeast};
ghost use Rattle.mc_threads.specs.Starts.{AreEndsOf, HasSettled};

use crate::errors::{Ended, with_worker};
use crate::links::Ends;
use crate::start::add;
use crate::traits::Clock;
use crate::worker::Done;
use std::alloc::Global;
use std::sync::atomic::{AtomicBool, Ordering};
use std::thread::{Promise, PromisedHandle, Threads};

/// Joins all workers, once the caller's thread has ended, and returns the least cause of all threads, if one failed. Each worker's result is
/// kept.
#[tactic(auto, using(crate::proofs::LeastLemmas::least_new))]
pub fn join_all<T: Drop, P: Promise<Result<T, Ended>>, R: Threads>(
    rt: &R,
    stop: &AtomicBool,
    children: Vec<PromisedHandle<Result<T, Ended>, P>>,
    own: Result<(), Ended>,
    results: &mut Vec<Result<T, Ended>>,
) -> Result<(), Ended>
    requires room { (vec_len results.old ≡ 0) × (vec_len children ≤ vec_capacity results.old) }
    ensures len { vec_len results.new ≡ vec_len children }
    ensures joined { KeepsEach P.Promise (vec_len children) children.items results.new.items }
    ensures least { IsLeast own results.new.items result }
{
    if own.is_err() {
        stop.store(true, Ordering::SeqCst);
    }
    let mut least = own;
    for child in children {
        let joined = child.join(rt);
        least = with_worker(least, &joined);
        let Ok(()) = results.push(joined) else {
            unreachable!()
        };
    }
    least
}

/// Brings both ends of both rings of a worker together: no byte is on the way.
fn settle<C: Drop>(done: Done<C>, ends: &mut Ends) -> Result<C, Ended>
    requires { AreEndsOf ends.old done }
    ensures clock { IfOk result (λ clock. clock ≡ done.clock) }
    ensures went { IfOk result (λ _. received done.from ≡ sent ends.old.to) }
    ensures came { IfOk result (λ _. sent done.to ≡ received ends.old.from) }
    ensures err { IsOkUnless result Ended.EndsDiffer }
{
    let Done {
        mut to,
        mut from,
        clock,
    } = done;
    if from.slots_beside(&mut ends.to) != 0 || ends.from.slots_beside(&mut to) != 0 {
        return Err(Ended::EndsDiffer);
    }
    Ok(clock)
}

/// Brings the ends of all workers' rings together, and returns the workers' clocks.
pub fn settle_all<C: Clock + Drop>(
    alloc: Global,
    results: Vec<Result<Done<C>, Ended>>,
    ends: &mut Vec<Ends>,
) -> Result<Vec<C>, Ended>
    requires len { vec_len results ≡ vec_len ends.old }
    requires rings { (server : ℕ) (done : Done C) (e : Ends) → slice_get results.items server ≡ Some (Ok done) → AreEndsOf (slice_index_or ends.old.items server e) done }
    ensures len { IfOk result (λ clocks. vec_len clocks ≡ vec_len results) }
    ensures settled { IfOk result (λ clocks. (server : ℕ) → server < vec_len results
        → HasSettled C C.times results.items clocks.items ends.old.items server) }
    ensures shut { IsErrOf result Ended.GateShut → (server : ℕ) × (slice_get results.items server ≡ Some (Err Ended.GateShut)) }
{
    let mut clocks = Vec::new(alloc);
    let mut place = 0;
    for joined in results {
        let done = joined?;
        let clock = settle(done, &mut ends[place])?;
        add(&mut clocks, clock)?;
        place += 1;
    }
    Ok(clocks)
}
