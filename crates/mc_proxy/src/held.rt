//! How many bytes are kept for requests that were taken and are not answered.
ghost use Rattle.std.specs.Prelude.{◌≡◌, ◌+◌, ◌-◌, ◌^◌, length, min, true};
ghost use Rattle.mc_request.specs.LinesSeen.{asked_of};
ghost use Rattle.mc_request.specs.Parts.{update_seen};
ghost use Rattle.mc_request.specs.WellFormed.{is_well_formed};
ghost use Rattle.mc_reply.specs.Seen.{value_len};
ghost use Rattle.mc_route.specs.Routes.{route_of_taken, route_of_update};
ghost use Rattle.mc_proxy.specs.Held.{kept_by, kept_by_all, keys_len, keys_len_of};

use mc_reply::Reply;
use mc_request::{Keys, Parsed, Request, RequestRef, Update};
use mc_ring::Ring;
use mc_route::Outcome;
use mc_text::Block;

/// The bytes of memory that a request takes until it is answered, beside its commands and the keys of a retrieval command: its place among
/// the unanswered ones, and a key of 250 bytes.
pub const REQUEST_ROOM: u64 = 512;

/// The bytes of memory that a command takes until its request is answered, beside the bytes of its key and of the value in its reply: the
/// place of its outcome, and that of its key.
pub const COMMAND_ROOM: u64 = 192;

/// The bytes of memory that a link takes for a pending command, beside the bytes to send.
pub const PENDING_ROOM: u64 = 192;

/// Returns how many bytes the outcomes keep of values, as far as 64 bits count.
pub fn kept_by_all(outcomes: &[Outcome]) -> u64
    ensures { result ≡ min (kept_by_all outcomes.now) (2 ^ 64 - 1) }
{
    let mut kept: u64 = 0;
    for outcome in outcomes {
        kept = kept.saturating_add(kept_by(outcome) as u64);
    }
    kept
}

/// Returns how many bytes outcomes keep of values, as far as 64 bits count, once one of them was set: all kept `kept` before, of which that one kept
/// `before`, and it keeps `now`. A command gets one outcome with a value, so all are seldom counted anew.
pub fn kept_once_set(outcomes: &[Outcome], kept: u64, before: usize, now: u64) -> u64
    requires { before ≡ 0 → min (kept + now) (2 ^ 64 - 1) ≡ min (kept_by_all outcomes.now) (2 ^ 64 - 1) }
    ensures { result ≡ min (kept_by_all outcomes.now) (2 ^ 64 - 1) }
{
    if before == 0 {
        kept.saturating_add(now)
    } else {
        kept_by_all(outcomes)
    }
}

/// Returns how many bytes an outcome keeps of a value.
pub fn kept_by(outcome: &Outcome) -> usize
    ensures { result ≡ kept_by outcome.now }
{
    match outcome {
        Outcome::Awaited | Outcome::Lost => 0,
        Outcome::Reply(reply) => value_len(reply),
    }
}

/// Returns how many bytes of a value a reply shows.
fn value_len(reply: &Reply<Block>) -> usize
    ensures { result ≡ value_len reply.now }
{
    match reply {
        Reply::Hit { value, .. } => value.len(),
        Reply::Meta {
            value: Some(value),
            ..
        } => value.len(),
        _ => 0,
    }
}

/// Returns how many bytes the keys of a retrieval command have, as far as 64 bits count; 0 for anything else.
pub fn keys_len_of(what: &Parsed) -> u64
    ensures { result ≡ min (keys_len_of what.now) (2 ^ 64 - 1) }
{
    match what {
        Parsed::Whole(request) => match request {
            Request::Get { keys, .. } => keys_len(keys),
            _ => 0,
        },
        Parsed::Faulty(_) => 0,
    }
}

/// Returns how many bytes some keys have, as far as 64 bits count.
#[tactic(auto, using(crate::proofs::HeldLemmas::keys_len_step))]
fn keys_len(keys: &Keys) -> u64
    ensures { result ≡ min (keys_len keys.now) (2 ^ 64 - 1) }
{
    let mut bytes: u64 = 0;
    for at in 0..keys.len() {
        bytes = bytes.saturating_add(keys.key(at).as_bytes().len() as u64);
    }
    bytes
}

/// Returns how many commands a borrowed request has: none if it is a fault.
pub fn command_count(asked: &RequestRef<'_>, ring: &Ring) -> usize
    requires { is_well_formed (asked_of asked.now) ≡ true }
    ensures { result ≡ length (route_of_taken ring.now (asked_of asked.now)) }
{
    match asked {
        RequestRef::Get { keys, .. } => keys.len(),
        RequestRef::Update { update, .. } => update_count(update, ring),
        RequestRef::Meta { .. } => 1,
        RequestRef::MetaNoop | RequestRef::Version | RequestRef::Quit | RequestRef::Faulty(_) => 0,
    }
}

/// Returns how many commands a borrowed update has: a flush has one for each server.
#[tactic(auto, using(mc_route::proofs::RouteLemmas::each_steps))]
fn update_count(update: &Update<&[u8], &[u8]>, ring: &Ring) -> usize
    ensures { result ≡ length (route_of_update ring.now (update_seen update.now)) }
{
    match update {
        Update::FlushAll { .. } => ring.servers().len(),
        Update::Store { .. }
        | Update::Touch { .. }
        | Update::Delete { .. }
        | Update::Count { .. } => 1,
    }
}
