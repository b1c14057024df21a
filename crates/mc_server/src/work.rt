//! How much work a request costs.
ghost use Rattle.std.specs.Prelude.{◌≡◌, ◌+◌, ◌<◌, ◌/◌, ◌^◌, true, length};
ghost use Rattle.mc_text.specs.Keys.{is_key};
ghost use Rattle.mc_request.specs.Parts.{update_seen, meta_said, key_bytes as key_said};
ghost use Rattle.mc_request.specs.WellFormed.{has_meta_key};
ghost use Rattle.mc_cache.specs.CacheState.{value_at};
ghost use Rattle.mc_server.specs.Work.{joins, update_work, meta_work};

use crate::limits::WORK_BYTES;
use mc_cache::Cache;
use mc_request::{MetaCommand, StoreMode, Update, key_bytes};
use mc_store::Store;
use mc_text::CODED_ROOM;

/// The work of a retrieval of one key.
pub const LONE_WORK: u64 = 2;

/// Returns the work of a store that copies this many bytes.
#[inline(always)]
pub fn work_of_bytes(bytes: usize) -> u64
    ensures { result ≡ 1 + bytes / WORK_BYTES }
{
    1 + (bytes / WORK_BYTES) as u64
}

/// Returns the work of an update. It looks the key up only if the update joins its block to the stored value.
pub fn work_of_update<S: Store + Drop>(update: &Update<&[u8], &[u8]>, cache: &Cache<S>) -> u64
    ensures { result ≡ update_work (update_seen update.now) cache.now }
{
    match update {
        Update::Store {
            mode,
            key,
            block,
            ..
        } => {
            let joined = if joins(*mode) { cache.room(key) } else { 0 };
            work_of_bytes(block.len() + joined)
        }
        Update::Touch { .. }
        | Update::Delete { .. }
        | Update::Count { .. }
        | Update::FlushAll { .. } => 1,
    }
}

/// Returns the work of a meta command, by the word of its key.
pub fn work_of_meta<S: Store + Drop>(
    command: &MetaCommand<&[u8], &[u8]>,
    coded: bool,
    cache: &Cache<S>,
) -> u64
    requires { has_meta_key (meta_said coded command.now) ≡ true }
    ensures { result ≡ meta_work (meta_said coded command.now) cache.now }
{
    match command {
        MetaCommand::Get { .. } => 1,
        MetaCommand::Update { update, .. } => match update {
            Update::Store {
                mode,
                key,
                block,
                ..
            } => {
                let joined = if joins(*mode) {
                    len_at(coded, key, cache)
                } else {
                    0
                };
                work_of_bytes(block.len() + joined)
            }
            Update::Touch { .. }
            | Update::Delete { .. }
            | Update::Count { .. }
            | Update::FlushAll { .. } => 1,
        },
    }
}

/// Returns whether a store joins its block to the stored value.
#[inline(always)]
fn joins(mode: StoreMode) -> bool
    ensures { result ≡ joins mode }
{
    matches!(mode, StoreMode::Append | StoreMode::Prepend)
}

/// Returns the length of the value under the key of a meta command's word.
#[inline(never)]
fn len_at<S: Store + Drop>(coded: bool, word: &[u8], cache: &Cache<S>) -> usize
    requires { is_key (key_said coded word.now) ≡ true }
    ensures len { result ≡ length (value_at (key_said coded word.now) cache.now.items) }
    ensures bound { result < 2 ^ 63 }
{
    let mut room = [0; CODED_ROOM];
    cache.room(key_bytes(coded, word, &mut room))
}
