//! The printed account of a world that has played a script.
ghost use Rattle.std.specs.Prelude.{◌≡◌, ◌++◌, codes, decimal, OnOk};
ghost use Rattle.mc_script.specs.Escapes.{named_line};
ghost use Rattle.mc_pool_script.specs.Printed.{account_lines, entry_line, entry_name, event_lines, histories_lines, history_lines, numbered, refusal_words, text_lines, word_of};

use crate::plays::Played;
use itoa::Buffer;
use mc_script::{ScriptStore, push_named_line};
use mc_world::{Entry, Step, World};
use std::alloc::{AllocError, Global};

/// Appends the account of a play to a text: what each line did, what each of the first clients sent, and what each of the first
/// servers took.
pub fn push_account<S: ScriptStore>(
    alloc: Global,
    played: &Played<S>,
    clients: usize,
    servers: usize,
    out: &mut Vec<u8>,
) -> Result<(), AllocError>
    ensures { OnOk result (out.new.items ≡ out.old.items ++ account_lines played.now.steps.items clients servers played.now.world.course) }
{
    push_event_lines(played.steps.as_slice(), out)?;
    push_text_lines(&played.world, clients, out)?;
    push_histories(alloc, &played.world, servers, out)
}

/// Appends a line for each step.
fn push_event_lines(steps: &[Step], out: &mut Vec<u8>) -> Result<(), AllocError>
    ensures { OnOk result (out.new.items ≡ out.old.items ++ event_lines steps.now) }
{
    let mut number = 0;
    for step in steps {
        push_named_line(b"event", number, word_of(*step), out)?;
        number += 1;
    }
    Ok(())
}

/// What a step did, in a word.
fn word_of(step: Step) -> &'static [u8]
    ensures { result.now ≡ word_of step }
{
    match step {
        Step::Done => b"done",
        Step::Nothing => b"nothing",
    }
}

/// Appends a line for each of the first clients, with its text.
fn push_text_lines<S: ScriptStore>(
    world: &World<S>,
    clients: usize,
    out: &mut Vec<u8>,
) -> Result<(), AllocError>
    ensures { OnOk result (out.new.items ≡ out.old.items ++ text_lines clients world.now.course) }
{
    for client in 0..clients as u64 {
        push_named_line(b"text", client, world.text(client), out)?;
    }
    Ok(())
}

/// Appends the histories of the first servers. One buffer holds the name of each entry in turn.
fn push_histories<S: ScriptStore>(
    alloc: Global,
    world: &World<S>,
    servers: usize,
    out: &mut Vec<u8>,
) -> Result<(), AllocError>
    ensures { OnOk result (out.new.items ≡ out.old.items ++ histories_lines servers world.now.course) }
{
    let mut name = Vec::new(alloc);
    for place in 0..servers {
        push_history(place, world.history(place), &mut name, out)?;
    }
    Ok(())
}

/// Appends the lines of a server's history. The buffer is for the name of an entry: its content before the call has no meaning.
fn push_history(
    place: usize,
    entries: &[Entry],
    name: &mut Vec<u8>,
    out: &mut Vec<u8>,
) -> Result<(), AllocError>
    ensures { OnOk result (out.new.items ≡ out.old.items ++ history_lines place entries.now) }
{
    push_count(place, entries.len(), out)?;
    for entry in entries {
        push_entry(place, entry, name, out)?;
    }
    Ok(())
}

/// Appends the number of commands that a server took.
fn push_count(place: usize, count: usize, out: &mut Vec<u8>) -> Result<(), AllocError>
    ensures { OnOk result (out.new.items ≡ out.old.items ++ named_line (codes "history") place (decimal count)) }
{
    let mut digits = Buffer::new();
    push_named_line(
        b"history",
        place as u64,
        digits.format(count).as_bytes(),
        out,
    )
}

/// Appends the line of an entry. The buffer is for its name.
fn push_entry(
    place: usize,
    entry: &Entry,
    name: &mut Vec<u8>,
    out: &mut Vec<u8>,
) -> Result<(), AllocError>
    ensures { OnOk result (out.new.items ≡ out.old.items ++ entry_line place entry.now) }
{
    write_entry_name(place, entry, name)?;
    push_named_line(name.as_slice(), entry.moment, entry.reply.as_slice(), out)
}

/// Writes the name of an entry to a buffer, in place of its content: its client, and whether its store was refused memory. The buffer
/// keeps its room, so it asks for memory only if a name is longer than those before.
fn write_entry_name(place: usize, entry: &Entry, name: &mut Vec<u8>) -> Result<(), AllocError>
    ensures { OnOk result (name.new.items ≡ entry_name place entry.now) }
{
    name.clear();
    push_numbered(b"server ", place as u64, name)?;
    push_numbered(b", client ", entry.client, name)?;
    push_numbered(b", request ", entry.request, name)?;
    push_numbered(b", command ", entry.atom as u64, name)?;
    name.extend_from_slice(refusal_words(entry.refused))?;
    name.extend_from_slice(b", moment")
}

/// The words for a store that was refused memory.
fn refusal_words(refused: bool) -> &'static [u8]
    ensures { result.now ≡ refusal_words refused }
{
    if refused { b", refused" } else { b"" }
}

/// Appends words and a number.
fn push_numbered(words: &[u8], number: u64, out: &mut Vec<u8>) -> Result<(), AllocError>
    ensures { OnOk result (out.new.items ≡ out.old.items ++ numbered words.now number) }
{
    let mut digits = Buffer::new();
    out.extend_from_slice(words)?;
    out.extend_from_slice(digits.format(number).as_bytes())
}
