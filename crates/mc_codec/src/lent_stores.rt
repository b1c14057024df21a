//! The canonical spelling of a storage command whose data block is borrowed, so that no copy of the block is made for it.
ghost use Rattle.std.specs.Prelude.{◌≡◌, ◌+◌, ◌^◌, ◌<◌, ◌≤◌, ◌++◌, length, vec_len, vec_capacity, codes, IsOk, OnOk, OnErr};
ghost use Rattle.mc_codec.specs.LentStores.{atom_of};
ghost use Rattle.mc_codec.specs.Spellings.{line_words, spaced, spelling_of_atom};

use crate::spelled_lines::{append_stored, store_name, stored_len};
use mc_request::{ReadError, StoreMode};
use mc_text::{Key, append};

/// `set`, `add`, `replace`, `append`, `prepend` or `cas`, with its own key and a borrowed data block.
#[derive(Drop)]
pub struct LentStore<'a> {
    /// How it stores.
    pub mode: StoreMode,
    /// `cas`: stores only if the key is stored and its item has this number.
    pub compare: Option<u64>,
    /// The key.
    pub key: Key,
    /// The client flags.
    pub flags: u32,
    /// When its item expires, as the command says it.
    pub exptime: i64,
    /// The data block.
    pub block: &'a [u8],
}

/// Returns how many bytes the canonical spelling of a storage command has. It takes no memory.
pub fn store_len(store: &LentStore<'_>) -> usize
    ensures { result ≡ length (spelling_of_atom (atom_of store.now)) }
{
    line_len(store) + 2 + block_len(store.block)
}

/// Returns how many bytes its line has, without its end.
fn line_len(store: &LentStore<'_>) -> usize
    ensures len { result ≡ length (spaced (line_words (atom_of store.now))) }
    ensures bound { result ≤ 1000 }
{
    store_name(store.mode, store.compare).len()
        + stored_len(
            &store.key,
            store.flags,
            store.exptime,
            store.block,
            store.compare,
        )
}

/// Returns how many bytes a data block and its end have.
fn block_len(block: &[u8]) -> usize
    ensures len { result ≡ length (block.now ++ codes "\r\n") }
    ensures bound { result < 2 ^ 63 + 2 }
{
    block.len() + 2
}

/// Appends its line, without its end.
fn append_line(out: &mut Vec<u8>, store: &LentStore<'_>)
    requires { vec_len out.old + length (spaced (line_words (atom_of store.now))) ≤ vec_capacity out.old }
    ensures items { out.new.items ≡ out.old.items ++ spaced (line_words (atom_of store.now)) }
    ensures len { vec_len out.new ≡ vec_len out.old + length (spaced (line_words (atom_of store.now))) }
    ensures room { vec_capacity out.old ≤ vec_capacity out.new }
{
    append(out, store_name(store.mode, store.compare));
    append_stored(
        out,
        &store.key,
        store.flags,
        store.exptime,
        store.block,
        store.compare,
    );
}

/// Appends a data block and its end.
fn append_block(out: &mut Vec<u8>, block: &[u8])
    requires { vec_len out.old + length (block.now ++ codes "\r\n") ≤ vec_capacity out.old }
    ensures items { out.new.items ≡ out.old.items ++ (block.now ++ codes "\r\n") }
    ensures len { vec_len out.new ≡ vec_len out.old + length (block.now ++ codes "\r\n") }
    ensures room { vec_capacity out.old ≤ vec_capacity out.new }
{
    append(out, block);
    append(out, b"\r\n");
}

/// Appends the canonical spelling of a storage command, or nothing if there is no memory. It takes no memory if the vector
/// has room for the [`store_len`] bytes of the spelling.
pub fn write_store(store: &LentStore<'_>, out: &mut Vec<u8>) -> Result<(), ReadError>
    ensures ok { OnOk result (out.new.items ≡ out.old.items ++ spelling_of_atom (atom_of store.now)) }
    ensures len { OnOk result (vec_len out.new ≡ vec_len out.old + length (spelling_of_atom (atom_of store.now))) }
    ensures succeeds { vec_len out.old + length (spelling_of_atom (atom_of store.now)) ≤ vec_capacity out.old → IsOk result }
    ensures err { OnErr result ((out.new.items ≡ out.old.items) × (vec_len out.new ≡ vec_len out.old)) }
    ensures room { vec_capacity out.old ≤ vec_capacity out.new }
{
    out.reserve(store_len(store))?;
    append_line(out, store);
    append(out, b"\r\n");
    append_block(out, store.block);
    Ok(())
}
