//! The canonical spelling of a command: what a proxy sends for it.
ghost use Rattle.std.specs.Prelude.{◌≡◌, ◌+◌, ◌-◌, ◌*◌, ◌^◌, ◌<◌, ◌≤◌, ◌++◌, length, vec_len, vec_capacity, IsOk, OnOk, OnErr};
ghost use Rattle.std.specs.Option.{option_copied};
ghost use Rattle.mc_codec.specs.Spellings.{block_in, block_lines, block_of_atom, line_words, spaced, spelling_of_atom};

use crate::spelled_lines::{append_get, append_update, get_len, update_len};
use crate::spelled_metas::{append_meta, meta_len};
use mc_request::{Atom, MetaCommand, ReadError, Update};
use mc_text::{Block, Key, append};

/// Returns how many bytes the canonical spelling of a command has. It takes no memory.
pub fn spelled_len(atom: &Atom<Block>) -> usize
    ensures { result ≡ length (spelling_of_atom atom.now) }
{
    line_len(atom) + 2 + block_len(atom)
}

/// Returns the data block of an update, if it has one.
fn block_in(update: &Update<Key, Block>) -> Option<&Block>
    ensures { option_copied result ≡ block_in update.now }
{
    match update {
        Update::Store { block, .. } => Some(block),
        _ => None,
    }
}

/// Returns the data block of a command, if it has one.
fn block_of(atom: &Atom<Block>) -> Option<&Block>
    ensures { option_copied result ≡ block_of_atom atom.now }
{
    match atom {
        Atom::Get { .. } | Atom::Meta(MetaCommand::Get { .. }) => None,
        Atom::Update(update) | Atom::Meta(MetaCommand::Update { update, .. }) => block_in(update),
    }
}

/// Returns how many bytes a data block and its end have, and 0 if there is no block.
fn block_len(atom: &Atom<Block>) -> usize
    ensures len { result ≡ length (block_lines (block_of_atom atom.now)) }
    ensures bound { result < 2 ^ 63 + 2 }
{
    match block_of(atom) {
        None => 0,
        Some(block) => {
            let bytes = block.as_slice();
            bytes.len() + 2
        }
    }
}

/// Returns how many bytes the line of a command has, without its end.
fn line_len(atom: &Atom<Block>) -> usize
    ensures len { result ≡ length (spaced (line_words atom.now)) }
    ensures bound { result ≤ 1000 }
{
    match atom {
        Atom::Get {
            key,
            exptime,
            with_cas,
        } => get_len(key, *exptime, *with_cas),
        Atom::Update(update) => update_len(update),
        Atom::Meta(command) => meta_len(command),
    }
}

/// Appends the line of a command, without its end.
fn append_line(out: &mut Vec<u8>, atom: &Atom<Block>)
    requires { vec_len out.old + length (spaced (line_words atom.now)) ≤ vec_capacity out.old }
    ensures items { out.new.items ≡ out.old.items ++ spaced (line_words atom.now) }
    ensures len { vec_len out.new ≡ vec_len out.old + length (spaced (line_words atom.now)) }
    ensures room { vec_capacity out.old ≤ vec_capacity out.new }
{
    match atom {
        Atom::Get {
            key,
            exptime,
            with_cas,
        } => append_get(out, key, *exptime, *with_cas),
        Atom::Update(update) => append_update(out, update),
        Atom::Meta(command) => append_meta(out, command),
    }
}

/// Appends the data block of a command and its end, if it has one.
fn append_block(out: &mut Vec<u8>, atom: &Atom<Block>)
    requires { vec_len out.old + length (block_lines (block_of_atom atom.now)) ≤ vec_capacity out.old }
    ensures items { out.new.items ≡ out.old.items ++ block_lines (block_of_atom atom.now) }
    ensures len { vec_len out.new ≡ vec_len out.old + length (block_lines (block_of_atom atom.now)) }
    ensures room { vec_capacity out.old ≤ vec_capacity out.new }
{
    if let Some(block) = block_of(atom) {
        append(out, block.as_slice());
        append(out, b"\r\n");
    }
}

/// Appends the canonical spelling of a command, or nothing if there is no memory. It takes no memory if the vector has
/// room for the [`spelled_len`] bytes of the spelling.
pub fn write_atom(atom: &Atom<Block>, out: &mut Vec<u8>) -> Result<(), ReadError>
    ensures ok { OnOk result (out.new.items ≡ out.old.items ++ spelling_of_atom atom.now) }
    ensures len { OnOk result (vec_len out.new ≡ vec_len out.old + length (spelling_of_atom atom.now)) }
    ensures succeeds { vec_len out.old + length (spelling_of_atom atom.now) ≤ vec_capacity out.old → IsOk result }
    ensures err { OnErr result ((out.new.items ≡ out.old.items) × (vec_len out.new ≡ vec_len out.old)) }
    ensures room { vec_capacity out.old ≤ vec_capacity out.new }
{
    out.reserve(spelled_len(atom))?;
    append_line(out, atom);
    append(out, b"\r\n");
    append_block(out, atom);
    Ok(())
}
