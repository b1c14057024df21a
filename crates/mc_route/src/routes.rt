//! From a request to its servers. [`atoms`] is the public form, of an owned request; a proxy routes a borrowed one.
ghost use Rattle.std.specs.Prelude.{◌≡◌, ◌+◌, ◌≤◌, ◌++◌, ◌∷◌, [], length, IfOk, OnOk};
ghost use Rattle.std.specs.VecDeque.{deque_len, deque_capacity};
ghost use Rattle.mc_reply.specs.Spelling.{meta_key};
ghost use Rattle.mc_route.specs.Routes.{to_each, to_owner, to_place, route_of_gets, route_of_update, route_of};

use crate::errors::RouteError;
use mc_reply::key_of;
use mc_request::{Atom, Keys, MetaCommand, Request, Update};
use mc_ring::Ring;
use mc_text::{Block, Key};
use std::alloc::{AllocError, Global};
use std::collections::VecDeque;

/// A command, and the server that it goes to.
#[derive(Debug, Drop)]
pub struct Routed {
    /// The server's place in the ring's list, counted from 0.
    pub server: usize,
    pub atom: Atom<Block>,
}

/// Returns the commands of a request, each with its server. There is one for each key, in order, to the key's owner. A
/// flush has one for each server, in their order. `mn`, `version` and `quit` have none.
///
/// It copies the keys and blocks.
pub fn atoms(alloc: Global, request: &Request, ring: &Ring) -> Result<Vec<Routed>, RouteError>
    ensures { IfOk result (λ routed. routed.items ≡ route_of ring.now request.now) }
{
    let mut routed = VecDeque::with_capacity(alloc, command_count(request, ring))?;
    push_copied(&mut routed, ring, request)?;
    Ok(routed.into_vec())
}

/// Returns how many commands a request has.
fn command_count(request: &Request, ring: &Ring) -> usize
    ensures { result ≡ length (route_of ring.now request.now) }
{
    match request {
        Request::Get { keys, .. } => keys.len(),
        Request::Update { update, .. } => update_count(update, ring),
        Request::Meta { .. } => 1,
        Request::MetaNoop | Request::Version | Request::Quit => 0,
    }
}

/// Returns how many commands an update has.
#[tactic(auto, using(crate::proofs::RouteLemmas::each_steps))]
pub fn update_count(update: &Update<Key, Block>, ring: &Ring) -> usize
    ensures { result ≡ length (route_of_update ring.now update.now) }
{
    match update {
        Update::FlushAll { .. } => ring.servers().len(),
        _ => 1,
    }
}

/// Appends the commands of a request. It copies keys and blocks; at an error some commands may be appended.
fn push_copied(
    routed: &mut VecDeque<Routed>,
    ring: &Ring,
    request: &Request,
) -> Result<(), AllocError>
    requires { deque_len routed.old + length (route_of ring.now request.now) ≤ deque_capacity routed.old }
    ensures { OnOk result (routed.new.items ≡ routed.old.items ++ route_of ring.now request.now) }
{
    match request {
        Request::Get {
            keys,
            exptime,
            with_cas,
        } => push_copied_keys(routed, ring, keys, *exptime, *with_cas)?,
        Request::Update { update, .. } => push_update(routed, ring, update.clone()?),
        Request::Meta { command, .. } => push_meta(routed, ring, command.clone()?),
        Request::MetaNoop | Request::Version | Request::Quit => {}
    }
    Ok(())
}

/// Appends a command; there must be room for it.
fn push(routed: &mut VecDeque<Routed>, server: usize, atom: Atom<Block>)
    requires { deque_len routed.old + 1 ≤ deque_capacity routed.old }
    ensures items { routed.new.items ≡ routed.old.items ++ to_place server atom ∷ [] }
    ensures len { deque_len routed.new ≡ deque_len routed.old + 1 }
    ensures room { deque_capacity routed.old ≤ deque_capacity routed.new }
{
    routed.push_back_reserved(Routed { server, atom });
}

/// Appends the command on one key of a retrieval command.
fn push_get(
    routed: &mut VecDeque<Routed>,
    ring: &Ring,
    key: Key,
    exptime: Option<i64>,
    with_cas: bool,
)
    requires { deque_len routed.old + 1 ≤ deque_capacity routed.old }
    ensures items { routed.new.items ≡ routed.old.items ++ route_of_gets ring.now exptime with_cas (key ∷ []) }
    ensures len { deque_len routed.new ≡ deque_len routed.old + 1 }
    ensures room { deque_capacity routed.old ≤ deque_capacity routed.new }
{
    let server = ring.owner(&key);
    let atom = Atom::Get {
        key,
        exptime,
        with_cas,
    };
    push(routed, server, atom);
}

/// Appends the commands of a retrieval command. It copies the keys; at an error some commands may be appended.
fn push_copied_keys(
    routed: &mut VecDeque<Routed>,
    ring: &Ring,
    keys: &Keys,
    exptime: Option<i64>,
    with_cas: bool,
) -> Result<(), AllocError>
    requires { deque_len routed.old + length keys.now ≤ deque_capacity routed.old }
    ensures { OnOk result (routed.new.items ≡ routed.old.items ++ route_of_gets ring.now exptime with_cas keys.now) }
{
    for at in 0..keys.len() {
        push_get(routed, ring, keys.key(at).clone()?, exptime, with_cas);
    }
    Ok(())
}

/// Appends the commands of a retrieval command. It moves the keys.
pub fn push_moved_keys(
    routed: &mut VecDeque<Routed>,
    ring: &Ring,
    keys: Keys,
    exptime: Option<i64>,
    with_cas: bool,
)
    requires { deque_len routed.old + length keys ≤ deque_capacity routed.old }
    ensures { routed.new.items ≡ routed.old.items ++ route_of_gets ring.now exptime with_cas keys }
{
    let (first, more) = keys.into_parts();
    push_get(routed, ring, first, exptime, with_cas);
    for key in more {
        push_get(routed, ring, key, exptime, with_cas);
    }
}

/// Appends the command of an update, to the owner of its key; a flush to each server.
pub fn push_update(routed: &mut VecDeque<Routed>, ring: &Ring, update: Update<Key, Block>)
    requires { deque_len routed.old + length (route_of_update ring.now update) ≤ deque_capacity routed.old }
    ensures { routed.new.items ≡ routed.old.items ++ route_of_update ring.now update }
{
    let server = match &update {
        Update::Store { key, .. }
        | Update::Touch { key, .. }
        | Update::Delete { key, .. }
        | Update::Count { key, .. } => ring.owner(key),
        Update::FlushAll { delay } => return push_flush(routed, ring, *delay),
    };
    push(routed, server, Atom::Update(update));
}

/// Appends a flush for each server, in the servers' order.
#[tactic(auto, using(crate::proofs::RouteLemmas::each_steps))]
fn push_flush(routed: &mut VecDeque<Routed>, ring: &Ring, delay: i64)
    requires { deque_len routed.old + length (to_each 0 ring.now.servers (Atom.Update (Update.FlushAll delay))) ≤ deque_capacity routed.old }
    ensures { routed.new.items ≡ routed.old.items ++ to_each 0 ring.now.servers (Atom.Update (Update.FlushAll delay)) }
{
    for server in 0..ring.servers().len() {
        push(routed, server, Atom::Update(Update::FlushAll { delay }));
    }
}

/// Appends a meta command, to the owner of its key.
pub fn push_meta(routed: &mut VecDeque<Routed>, ring: &Ring, command: MetaCommand<Key, Block>)
    requires { deque_len routed.old + 1 ≤ deque_capacity routed.old }
    ensures { routed.new.items ≡ routed.old.items ++ to_owner ring.now (meta_key command) (Atom.Meta command) ∷ [] }
{
    let server = ring.owner_of_bytes(key_of(&command));
    push(routed, server, Atom::Meta(command));
}
