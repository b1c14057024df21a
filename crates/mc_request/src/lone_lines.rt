//! Command lines that no data block follows.
ghost use Rattle.std.specs.Prelude.{◌≡◌, ◌&&◌, true, None, Err, if◌then◌else◌};
ghost use Rattle.std.specs.List.{list_all};
ghost use Rattle.mc_text.specs.Keys.{is_plain_key};
ghost use Rattle.mc_request.specs.Names.{at_most, at_least, between, noreply_of};
ghost use Rattle.mc_request.specs.Meanings.{meaning_from, keys_line, gat_line, touch_line, delete_line, without_zero, count_parts, count_line, flush_parts, flush_line};
ghost use Rattle.mc_request.specs.LinesSeen.{asked_of, line_of_taken, meaning_of};

use crate::faults::Fault;
use crate::lines::{CommandLine, RequestRef};
use crate::meta::Counting;
use crate::names::{is_noreply, noreply_of, noreply_word};
use crate::parts::{Direction, Update};
use mc_text::{WordIter, are_plain_keys, is_plain_key, read_i64, read_u64};

/// Reads a `get`, or with an exptime a `gat`, by its keys. A word that is no key refuses the line.
#[inline(always)]
pub fn keys_line(exptime: Option<i64>, with_cas: bool, keys: WordIter<'_>) -> CommandLine<'_>
    ensures { meaning_of result ≡ meaning_from None (if at_least 1 keys.entry then keys_line exptime with_cas keys.entry else Err Fault.UnknownCommand) }
{
    if !keys.has_next() {
        return CommandLine::Alone(RequestRef::Faulty(Fault::UnknownCommand));
    }
    if !are_plain_keys(&keys) {
        return CommandLine::Alone(RequestRef::Faulty(Fault::BadFormat));
    }
    CommandLine::Alone(RequestRef::Get {
        keys,
        exptime,
        with_cas,
    })
}

/// Returns whether there are words, and each is a plain key.
#[inline(always)]
pub fn has_plain_keys(words: &WordIter<'_>) -> bool
    ensures { result ≡ (at_least 1 words.now && list_all is_plain_key words.now) }
{
    words.has_next() && are_plain_keys(words)
}

/// Reads `gat <exptime> <key>*`.
#[inline(never)]
pub fn gat_line(with_cas: bool, mut words: WordIter<'_>) -> CommandLine<'_>
    ensures { meaning_of result ≡ meaning_from None (if at_least 2 words.entry then gat_line with_cas words.entry else Err Fault.UnknownCommand) }
{
    let Some(exptime) = words.next() else {
        return CommandLine::Alone(RequestRef::Faulty(Fault::UnknownCommand));
    };
    if !words.has_next() {
        return CommandLine::Alone(RequestRef::Faulty(Fault::UnknownCommand));
    }
    match read_i64(exptime) {
        Some(exptime) => keys_line(Some(exptime), with_cas, words),
        None => CommandLine::Alone(RequestRef::Faulty(Fault::BadFormat)),
    }
}

/// Reads `touch <key> <exptime> [noreply]`.
#[inline(never)]
pub fn touch_line(mut words: WordIter<'_>) -> CommandLine<'_>
    ensures { meaning_of result ≡ meaning_from None (if between 2 3 words.entry then touch_line words.entry else Err Fault.UnknownCommand) }
{
    let (Some(key), Some(exptime)) = (words.next(), words.next()) else {
        return CommandLine::Alone(RequestRef::Faulty(Fault::UnknownCommand));
    };
    let noreply = match noreply_of(words) {
        Ok(noreply) => noreply,
        Err(fault) => return CommandLine::Alone(RequestRef::Faulty(fault)),
    };
    if !is_plain_key(key) {
        return CommandLine::Alone(RequestRef::Faulty(Fault::BadFormat));
    }
    let Some(exptime) = read_i64(exptime) else {
        return CommandLine::Alone(RequestRef::Faulty(Fault::BadFormat));
    };
    CommandLine::Alone(RequestRef::Update {
        update: Update::Touch { key, exptime },
        noreply,
    })
}

/// Reads `delete <key> [0] [noreply]`.
#[inline(never)]
pub fn delete_line(mut words: WordIter<'_>) -> CommandLine<'_>
    ensures { meaning_of result ≡ meaning_from None (if between 1 3 words.entry then delete_line words.entry else Err Fault.UnknownCommand) }
{
    let Some(key) = words.next() else {
        return CommandLine::Alone(RequestRef::Faulty(Fault::UnknownCommand));
    };
    let noreply = match noreply_after_zero(words) {
        Ok(noreply) => noreply,
        Err(fault) => return CommandLine::Alone(RequestRef::Faulty(fault)),
    };
    if !is_plain_key(key) {
        return CommandLine::Alone(RequestRef::Faulty(Fault::BadFormat));
    }
    CommandLine::Alone(RequestRef::Update {
        update: Update::Delete {
            key,
            compare: None,
            invalidate: false,
        },
        noreply,
    })
}

/// Returns whether the reply of a deletion is hidden, by the words after its key.
fn noreply_after_zero(mut words: WordIter<'_>) -> Result<bool, Fault>
    ensures { result ≡ (if at_most 2 words.entry then noreply_of (without_zero words.entry) else Err Fault.UnknownCommand) }
{
    let Some(word) = words.next() else {
        return Ok(false);
    };
    let zero = word == b"0".as_slice();
    let Some(last) = words.next() else {
        return if zero { Ok(false) } else { noreply_word(word) };
    };
    if words.next().is_some() {
        Err(Fault::UnknownCommand)
    } else if zero {
        noreply_word(last)
    } else {
        Err(Fault::BadFormat)
    }
}

/// Reads `incr <key> <delta> [noreply]`, and `decr` likewise.
#[inline(never)]
pub fn count_line(direction: Direction, mut words: WordIter<'_>) -> CommandLine<'_>
    ensures { meaning_of result ≡ meaning_from None (if between 2 3 words.entry then count_line direction words.entry else Err Fault.UnknownCommand) }
{
    let (Some(key), Some(delta)) = (words.next(), words.next()) else {
        return CommandLine::Alone(RequestRef::Faulty(Fault::UnknownCommand));
    };
    let (delta, noreply) = match count_parts(key, delta, words) {
        Ok(parts) => parts,
        Err(fault) => return CommandLine::Alone(RequestRef::Faulty(fault)),
    };
    CommandLine::Alone(RequestRef::Update {
        update: Update::Count {
            key,
            counting: Counting {
                direction,
                delta,
                compare: None,
                create: None,
                exptime: None,
            },
        },
        noreply,
    })
}

/// Returns the amount of a count, and whether its reply is hidden.
fn count_parts(key: &[u8], delta: &[u8], rest: WordIter<'_>) -> Result<(u64, bool), Fault>
    ensures { result ≡ (if at_most 1 rest.entry then count_parts key.now delta.now rest.entry else Err Fault.UnknownCommand) }
{
    let noreply = noreply_of(rest);
    if let Err(Fault::UnknownCommand) = noreply {
        return Err(Fault::UnknownCommand);
    }
    if !is_plain_key(key) {
        return Err(Fault::BadFormat);
    }
    let delta = read_u64(delta).ok_or(Fault::BadDelta)?;
    Ok((delta, noreply?))
}

/// Reads `flush_all [delay] [noreply]`.
#[inline(never)]
pub fn flush_line(words: WordIter<'_>) -> CommandLine<'_>
    ensures { meaning_of result ≡ meaning_from None (if at_most 2 words.entry then flush_line words.entry else Err Fault.UnknownCommand) }
{
    match flush_parts(words) {
        Ok((delay, noreply)) => CommandLine::Alone(RequestRef::Update {
            update: Update::FlushAll { delay },
            noreply,
        }),
        Err(fault) => CommandLine::Alone(RequestRef::Faulty(fault)),
    }
}

/// Returns the delay of a flush, and whether its reply is hidden.
fn flush_parts(mut words: WordIter<'_>) -> Result<(i64, bool), Fault>
    ensures { result ≡ (if at_most 2 words.entry then flush_parts words.entry else Err Fault.UnknownCommand) }
{
    let Some(first) = words.next() else {
        return Ok((0, false));
    };
    let Some(second) = words.next() else {
        if is_noreply(first) {
            return Ok((0, true));
        }
        return Ok((read_i64(first).ok_or(Fault::BadFormat)?, false));
    };
    if words.next().is_some() {
        return Err(Fault::UnknownCommand);
    }
    let delay = read_i64(first).ok_or(Fault::BadFormat)?;
    let noreply = noreply_word(second)?;
    Ok((delay, noreply))
}

/// Reads a line of `version`, `quit` or `mn`, after whose name there is no word.
#[inline(never)]
#[tactic(auto, using(crate::proofs::LineLemmas::taken_alone))]
pub fn bare_line<'a>(asked: RequestRef<'a>, mut words: WordIter<'_>) -> CommandLine<'a>
    ensures { meaning_of result ≡ meaning_from None (if at_most 0 words.entry then line_of_taken (asked_of asked.entry) else Err Fault.UnknownCommand) }
{
    if words.next().is_some() {
        CommandLine::Alone(RequestRef::Faulty(Fault::UnknownCommand))
    } else {
        CommandLine::Alone(asked)
    }
}
