//! A storage command of a classic line, from the reader that has it to its link.
ghost use Rattle.std.specs.Prelude.{◌≡◌, ◌<◌, ◌∷◌, ◌++◌, [], true, length, map, IfOk, OnOk, OnErr};
ghost use Rattle.std.specs.Bool.{OnFalse, OnTrue};
ghost use Rattle.std.specs.VecDeque.{deque_len, deque_capacity};
ghost use Rattle.mc_text.specs.Keys.{is_key};
ghost use Rattle.mc_request.specs.LinesSeen.{asked_of};
ghost use Rattle.mc_request.specs.WellFormed.{is_well_formed};
ghost use Rattle.mc_route.specs.Kept.{kept_of};
ghost use Rattle.mc_route.specs.Routes.{route_of_taken};
ghost use Rattle.mc_codec.specs.LentStores.{atom_of};
ghost use Rattle.mc_codec.specs.Spellings.{spelling_of_atom};
ghost use Rattle.mc_proxy.specs.SessionState.{link_at, states, with_link};
ghost use Rattle.mc_proxy.specs.Sending.{at_once, handed, handed_to, outcome_by, roomy_at, IsRoomy};

use crate::sending::{is_up_at, make_room_on, outcome_at_once};
use crate::session_errors::SessionError;
use crate::unanswered::Unanswered;
use mc_codec::{LentStore, store_len};
use mc_link::{Link, Tag};
use mc_request::{Parsed, Request, RequestRef, StoreMode, Update};
use mc_ring::Ring;
use mc_route::{Losses, Outcome};
use mc_text::{Block, Key};
use std::alloc::Global;
use std::collections::VecDeque;

/// Returns whether a text may begin with a storage command of a classic line, by its first byte. A wrong answer costs time only.
#[inline(always)]
pub fn may_store(unread: &[u8]) -> bool {
    matches!(unread, [b's' | b'c' | b'a' | b'r' | b'p', ..])
}

/// Sends a borrowed storage command of a classic line to the link of its key's owner, and appends it to the unanswered requests. It
/// returns false for any other request. The tag has the number of the session and that of the request.
///
/// It copies the key once for the command and once for the answer, and the data block once, to the link. All memory is taken before
/// the command is sent.
pub fn send_store(
    alloc: Global,
    asked: &RequestRef<'_>,
    session: u64,
    request: u64,
    ring: &Ring,
    losses: Losses,
    links: &mut [Link],
    unanswered: &mut VecDeque<Unanswered>,
) -> Result<bool, SessionError>
    requires { is_well_formed (asked_of asked.now) ≡ true }
    ensures sent { IfOk result (λ sent. OnTrue sent (states links.new
        ≡ handed session request 0 (route_of_taken ring.now (asked_of asked.now)) (states links.old))) }
    ensures waits { IfOk result (λ sent. OnTrue sent (unanswered.new.items ≡ unanswered.old.items ++ record {
      what = kept_of (asked_of asked.now);
      losses = losses;
      outcomes = map (at_once (states links.old)) (route_of_taken ring.now (asked_of asked.now));
    } ∷ [])) }
    ensures links_same { IfOk result (λ sent. OnFalse sent (states links.new ≡ states links.old)) }
    ensures unanswered_same { IfOk result (λ sent. OnFalse sent (unanswered.new.items ≡ unanswered.old.items)) }
    ensures links_kept { OnErr result (states links.new ≡ states links.old) }
    ensures unanswered_kept { OnErr result (unanswered.new.items ≡ unanswered.old.items) }
{
    let RequestRef::Update { update, noreply } = asked else {
        return Ok(false);
    };
    let Update::Store {
        mode,
        compare,
        key,
        flags,
        exptime,
        block,
    } = update
    else {
        return Ok(false);
    };
    let kept = kept_store(alloc, *mode, *compare, key, *flags, *exptime, *noreply)?;
    let store = LentStore {
        mode: *mode,
        compare: *compare,
        key: Key::of_bytes(alloc, key)?,
        flags: *flags,
        exptime: *exptime,
        block: *block,
    };
    let place = ring.owner_of_bytes(key);
    let outcomes = prepare_store(alloc, unanswered, links, place, &store)?;
    let tag = Tag {
        session,
        request,
        atom: 0,
    };
    hand_over_store(links, place, store, tag);
    unanswered.push_back_reserved(Unanswered::new(kept, losses, outcomes));
    Ok(true)
}

/// Returns what is kept of a storage command for its answer: all but its data block.
fn kept_store(
    alloc: Global,
    mode: StoreMode,
    compare: Option<u64>,
    key: &[u8],
    flags: u32,
    exptime: i64,
    noreply: bool,
) -> Result<Parsed, SessionError>
    requires { is_key key.now ≡ true }
    ensures { IfOk result (λ kept. kept ≡ Parsed.Whole (Request.Update (Update.Store mode compare key.now flags exptime []) noreply)) }
{
    let update = Update::Store {
        mode,
        compare,
        key: Key::of_bytes(alloc, key)?,
        flags,
        exptime,
        block: Block::new(alloc),
    };
    Ok(Parsed::Whole(Request::Update { update, noreply }))
}

/// Takes all the memory that a storage command needs: for its immediate outcome, for its place among the unanswered requests, and
/// for its spelling on the link at a place. It returns the outcome.
fn prepare_store(
    alloc: Global,
    unanswered: &mut VecDeque<Unanswered>,
    links: &mut [Link],
    place: usize,
    store: &LentStore<'_>,
) -> Result<Vec<Outcome>, SessionError>
    ensures outcomes { IfOk result (λ outcomes. outcomes.items ≡ outcome_by (link_at (states links.old) place) ∷ []) }
    ensures place { OnOk result (deque_len unanswered.new < deque_capacity unanswered.new) }
    ensures roomy { OnOk result (IsRoomy (length (spelling_of_atom (atom_of store.now))) 1 (roomy_at links.new place)) }
    ensures unchanged { states links.new ≡ states links.old }
    ensures unanswered_kept { unanswered.new.items ≡ unanswered.old.items }
{
    let mut outcomes = Vec::with_capacity(alloc, 1)?;
    outcomes.push(outcome_at_once(links, place))?;
    unanswered.reserve(1)?;
    make_room_on(links, place, store_len(store), 1)?;
    Ok(outcomes)
}

/// Sends a storage command to the link at a place, if that is up. It takes no memory.
fn hand_over_store(links: &mut [Link], place: usize, store: LentStore<'_>, tag: Tag)
    requires { IsRoomy (length (spelling_of_atom (atom_of store))) 1 (roomy_at links.old place) }
    ensures { states links.new
        ≡ with_link place (handed_to tag (atom_of store.entry) (link_at (states links.old) place)) (states links.old) }
{
    if is_up_at(links, place) {
        links[place].send_store(store, tag).unwrap();
    }
}
