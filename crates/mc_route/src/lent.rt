//! From a borrowed request to its servers.
ghost use Rattle.std.specs.Prelude.{◌≡◌, ◌<◌, ◌++◌, true, length, IfOk, OnOk, OnErr};
ghost use Rattle.std.specs.List.{list_all};
ghost use Rattle.mc_text.specs.Keys.{is_plain_key};
ghost use Rattle.mc_request.specs.LinesSeen.{asked_of};
ghost use Rattle.mc_request.specs.Parts.{update_seen, meta_said};
ghost use Rattle.mc_request.specs.WellFormed.{is_well_formed, has_key, has_meta_key};
ghost use Rattle.mc_route.specs.Kept.{emptied, emptied_meta, kept_of};
ghost use Rattle.mc_route.specs.Routes.{route_of, route_of_taken};

use crate::errors::RouteError;
use crate::kept::{meta_without_block, update_without_block};
use crate::routes::{Routed, push_meta, push_moved_keys, push_update, update_count};
use mc_request::{MetaCommand, MetaForm, Parsed, Request, RequestRef, Update, keys_of};
use mc_ring::Ring;
use mc_text::WordIter;
use std::alloc::Global;
use std::collections::VecDeque;

/// Appends the commands of a borrowed request to a queue, each with its server. It returns what is kept for the answer: the
/// request without its data block, or the fault, which has no command.
///
/// A queue that is kept and consumed from the front takes no memory for most requests. The call copies each key, once for
/// its command and once for the answer; the block; and the flag words of a meta command. If there is no memory, the queue
/// has the commands that it had.
pub fn route(
    alloc: Global,
    asked: &RequestRef<'_>,
    ring: &Ring,
    routed: &mut VecDeque<Routed>,
) -> Result<Parsed, RouteError>
    requires { is_well_formed (asked_of asked.now) ≡ true }
    ensures routed { OnOk result (routed.new.items ≡ routed.old.items ++ route_of_taken ring.now (asked_of asked.now)) }
    ensures kept { IfOk result (λ kept. kept ≡ kept_of (asked_of asked.now)) }
    ensures err { OnErr result (routed.new.items ≡ routed.old.items) }
{
    match asked {
        RequestRef::Get {
            keys,
            exptime,
            with_cas,
        } => route_keys(alloc, keys.again(), *exptime, *with_cas, ring, routed),
        RequestRef::Update { update, noreply } => route_update(
            alloc, update, *noreply, ring, routed,
        ),
        RequestRef::Meta { command, form } => route_meta(alloc, command, form, ring, routed),
        RequestRef::MetaNoop => Ok(Parsed::Whole(Request::MetaNoop)),
        RequestRef::Version => Ok(Parsed::Whole(Request::Version)),
        RequestRef::Quit => Ok(Parsed::Whole(Request::Quit)),
        RequestRef::Faulty(fault) => Ok(Parsed::Faulty(*fault)),
    }
}

/// Appends the commands of a retrieval command, given the words that are its keys.
fn route_keys(
    alloc: Global,
    words: WordIter<'_>,
    exptime: Option<i64>,
    with_cas: bool,
    ring: &Ring,
    routed: &mut VecDeque<Routed>,
) -> Result<Parsed, RouteError>
    requires some { 0 < length words }
    requires plain { list_all is_plain_key words ≡ true }
    ensures routed { OnOk result (routed.new.items ≡ routed.old.items ++ route_of ring.now (Request.Get words.entry exptime with_cas)) }
    ensures kept { IfOk result (λ kept. kept ≡ Parsed.Whole (Request.Get words.entry exptime with_cas)) }
    ensures err { OnErr result (routed.new.items ≡ routed.old.items) }
{
    let keys = keys_of(alloc, words)?;
    let sent = keys.clone()?;
    routed.reserve(keys.len())?;
    push_moved_keys(routed, ring, sent, exptime, with_cas);
    Ok(Parsed::Whole(Request::Get {
        keys,
        exptime,
        with_cas,
    }))
}

/// Appends the commands of an update.
fn route_update(
    alloc: Global,
    update: &Update<&[u8], &[u8]>,
    noreply: bool,
    ring: &Ring,
    routed: &mut VecDeque<Routed>,
) -> Result<Parsed, RouteError>
    requires { has_key (update_seen update.now) ≡ true }
    ensures routed { OnOk result
        (routed.new.items ≡ routed.old.items ++ route_of ring.now (Request.Update (update_seen update.now) noreply)) }
    ensures kept { IfOk result (λ kept. kept ≡ Parsed.Whole (Request.Update (emptied (update_seen update.now)) noreply)) }
    ensures err { OnErr result (routed.new.items ≡ routed.old.items) }
{
    let sent = update.owned(alloc)?;
    let update = update_without_block(alloc, &sent)?;
    routed.reserve(update_count(&sent, ring))?;
    push_update(routed, ring, sent);
    Ok(Parsed::Whole(Request::Update { update, noreply }))
}

/// Appends the command of a meta command.
fn route_meta(
    alloc: Global,
    command: &MetaCommand<&[u8], &[u8]>,
    form: &MetaForm<WordIter<'_>>,
    ring: &Ring,
    routed: &mut VecDeque<Routed>,
) -> Result<Parsed, RouteError>
    requires { has_meta_key (meta_said form.now.coded command.now) ≡ true }
    ensures routed { OnOk result
        (routed.new.items ≡ routed.old.items ++ route_of ring.now (Request.Meta (meta_said form.now.coded command.now) form.now)) }
    ensures kept { IfOk result (λ kept. kept ≡ Parsed.Whole (Request.Meta (emptied_meta (meta_said form.now.coded command.now)) form.now)) }
    ensures err { OnErr result (routed.new.items ≡ routed.old.items) }
{
    let sent = command.owned(alloc, form.coded)?;
    let command = meta_without_block(alloc, &sent)?;
    let form = form.owned(alloc)?;
    routed.reserve(1)?;
    push_meta(routed, ring, sent);
    Ok(Parsed::Whole(Request::Meta { command, form }))
}
