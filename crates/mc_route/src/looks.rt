//! Whether a server gets any command of a borrowed request.
ghost use Rattle.std.specs.Prelude.{◌≡◌, ◌==◌, true};
ghost use Rattle.std.specs.List.{list_any};
ghost use Rattle.mc_text.specs.Keys.{is_key};
ghost use Rattle.mc_request.specs.LinesSeen.{asked_of};
ghost use Rattle.mc_request.specs.Parts.{key_bytes, update_seen, meta_said};
ghost use Rattle.mc_request.specs.WellFormed.{is_well_formed, has_meta_key};
ghost use Rattle.mc_reply.specs.Spelling.{meta_key};
ghost use Rattle.mc_route.specs.Looks.{goes_to};
ghost use Rattle.mc_route.specs.Routes.{owner_in, route_of_taken, route_of_update};

use mc_request::{MetaCommand, RequestRef, Update, key_bytes};
use mc_ring::Ring;
use mc_text::{CODED_ROOM, WordIter};

/// Returns whether a borrowed request has a command for the server at a place: a flush has one for each server, and a
/// fault, `mn`, `version` and `quit` have none. It takes no memory.
///
/// For a retrieval command it computes the keys' digests, up to the first key that the server owns.
pub fn goes_to(asked: &RequestRef<'_>, ring: &Ring, place: usize) -> bool
    requires { is_well_formed (asked_of asked.now) ≡ true }
    ensures { result ≡ goes_to place (route_of_taken ring.now (asked_of asked.now)) }
{
    match asked {
        RequestRef::Get { keys, .. } => keys_go_to(keys.again(), ring, place),
        RequestRef::Update { update, .. } => update_goes_to(update, ring, place),
        RequestRef::Meta { command, form } => meta_goes_to(command, form.coded, ring, place),
        RequestRef::MetaNoop | RequestRef::Version | RequestRef::Quit | RequestRef::Faulty(_) =>
            false,
    }
}

/// Returns whether the server at a place owns one of some keys.
fn keys_go_to(keys: WordIter<'_>, ring: &Ring, place: usize) -> bool
    ensures { result ≡ list_any (λ key. owner_in ring.now key == place) keys.entry }
{
    for key in keys {
        if ring.owner_of_bytes(key) == place {
            return true;
        }
    }
    false
}

/// Returns whether an update has a command for the server at a place.
fn update_goes_to(update: &Update<&[u8], &[u8]>, ring: &Ring, place: usize) -> bool
    ensures { result ≡ goes_to place (route_of_update ring.now (update_seen update.now)) }
{
    match update {
        Update::Store { key, .. }
        | Update::Touch { key, .. }
        | Update::Delete { key, .. }
        | Update::Count { key, .. } => ring.owner_of_bytes(key) == place,
        Update::FlushAll { .. } => place < ring.servers().len(),
    }
}

/// Returns whether the server at a place owns the key of a meta command. A flush has no key, but it has no meta form.
fn meta_goes_to(command: &MetaCommand<&[u8], &[u8]>, coded: bool, ring: &Ring, place: usize) -> bool
    requires { has_meta_key (meta_said coded command.now) ≡ true }
    ensures { result ≡ (owner_in ring.now (meta_key (meta_said coded command.now)) == place) }
{
    match command {
        MetaCommand::Get { key, .. } => word_goes_to(key, coded, ring, place),
        MetaCommand::Update { update, .. } => match update {
            Update::Store { key, .. }
            | Update::Touch { key, .. }
            | Update::Delete { key, .. }
            | Update::Count { key, .. } => word_goes_to(key, coded, ring, place),
            Update::FlushAll { .. } => ring.owner_of_bytes(&[]) == place,
        },
    }
}

/// Returns whether the server at a place owns the key that a word of a meta command says.
fn word_goes_to(word: &[u8], coded: bool, ring: &Ring, place: usize) -> bool
    requires { is_key (key_bytes coded word.now) ≡ true }
    ensures { result ≡ (owner_in ring.now (key_bytes coded word.now) == place) }
{
    let mut room = [0; CODED_ROOM];
    ring.owner_of_bytes(key_bytes(coded, word, &mut room)) == place
}
