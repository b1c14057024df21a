//! The answers to clients, appended to the bytes that are still to be sent.
ghost use Rattle.std.specs.Prelude.{◌≡◌, ◌+◌, ◌-◌, ◌^◌, ◌<◌, ◌≤◌, ◌++◌, [], true, min, max, length, vec_len, vec_capacity, IsOk, OnOk, OnErr};
ghost use Rattle.std.specs.Option.{ForSome};
ghost use Rattle.mc_request.specs.Atoms.{atoms_of};
ghost use Rattle.mc_request.specs.Faults.{fault_line};
ghost use Rattle.mc_request.specs.Parts.{key_bytes};
ghost use Rattle.mc_text.specs.Keys.{is_key};
ghost use Rattle.mc_reply.specs.Spelling.{is_shown, reply_line, head_line, key_part, end_line, version_line, noop_line, meta_key, answer_of};
ghost use Rattle.mc_reply.specs.MetaSpelling.{key_word, meta_by, meta_line};
ghost use Rattle.mc_reply.specs.MetaRooms.{flags_room, part_room};
ghost use Rattle.mc_reply.specs.Parts.{part_of};
ghost use Rattle.mc_reply.specs.Seen.{reply_seen, bytes_seen, value_len, shown_len};

pub use crate::appends::LINE_ROOM;
use crate::appends::{append_head, append_key_part, append_reply_line, short_line};
use crate::flag_appends::flags_room;
use crate::meta_appends::{BESIDE_FLAGS_ROOM, append_meta};
use crate::replies::Reply;
use mc_request::{Fault, FlagWords, MetaCommand, MetaForm, Request, Update};
use mc_text::{Block, CODED_LIMIT, KEY_LIMIT, Key, WordIter, append, write_coded};
use std::alloc::AllocError;
use thiserror::Error;

/// The most bytes that [`write_key`] appends beside a value's bytes. If a vector has room left for these and the
/// value, the call takes no memory.
pub const KEY_ROOM: usize = 384;

/// The most bytes that [`write_meta`] appends beside a value's bytes. If a vector has room left for these and the
/// value, the call takes no memory.
pub const META_ROOM: usize = 512;

/// The most bytes that the flag words of a meta command return in its answer, if a reader accepted them.
pub const FLAGS_ROOM: usize = 480;

/// The most bytes that [`write_part`] appends beside a value's bytes; [`part_room`] returns the bound of one request. If
/// a vector has room left for these and the value, the call takes no memory.
pub const PART_ROOM: usize = 512;

/// Why a call of this crate gave up.
#[derive(Debug, Drop, Error)]
pub enum ReplyError {
    /// 1: no memory. Nothing has been appended.
    #[error("out of memory")]
    Memory,
}

impl From<AllocError> for ReplyError {
    ghost from_gives = { λ _ e. e ≡ Memory };

    fn from(_e: AllocError) -> ReplyError {
        ReplyError::Memory
    }
}

impl From<ReplyError> for AllocError {
    fn from(_e: ReplyError) -> AllocError {
        AllocError
    }
}

ghost use Rattle.mc_reply.specs.declared.answers.ReplyError.TheVariants.{Memory};

/// Returns whether the reply to a command of this request is shown. `noreply` never hides an error line.
pub fn shown(request: &Request, reply: &Reply<&[u8]>) -> bool
    ensures { result ≡ is_shown request.now reply.now }
{
    !reply.is_hidden(request.hides())
}

/// Appends what a key of a retrieval command adds by its reply: the item if it is found, and nothing if it is not.
pub fn write_key(key: &[u8], reply: &Reply<&[u8]>, out: &mut Vec<u8>) -> Result<(), ReplyError>
    requires { length key.now ≤ KEY_LIMIT }
    ensures ok { OnOk result (out.new.items ≡ out.old.items ++ key_part key.now (bytes_seen reply.now)) }
    ensures len { vec_len out.new ≤ vec_len out.old + value_len (bytes_seen reply.now) + KEY_ROOM }
    ensures succeeds { vec_len out.old + value_len (bytes_seen reply.now) + KEY_ROOM ≤ vec_capacity out.old → IsOk result }
    ensures err { OnErr result (out.new.items ≡ out.old.items) }
    ensures room { vec_capacity out.old ≤ vec_capacity out.new }
{
    out.reserve(value_len(reply) + KEY_ROOM)?;
    append_key_part(out, key, reply);
    Ok(())
}

/// Appends what is in front of the value of a found item, by the value's length: [`write_key`] without the value and the line end
/// after it. It is for a caller that sends the value without copying it.
#[inline(never)]
pub fn write_head(
    key: &[u8],
    flags: u32,
    bytes: usize,
    cas: Option<u64>,
    out: &mut Vec<u8>,
) -> Result<(), ReplyError>
    requires { length key.now ≤ KEY_LIMIT }
    ensures ok { OnOk result (out.new.items ≡ out.old.items ++ head_line key.now flags bytes cas) }
    ensures len { vec_len out.new ≤ vec_len out.old + KEY_ROOM }
    ensures succeeds { vec_len out.old + KEY_ROOM ≤ vec_capacity out.old → IsOk result }
    ensures err { OnErr result (out.new.items ≡ out.old.items) }
    ensures room { vec_capacity out.old ≤ vec_capacity out.new }
{
    out.reserve(KEY_ROOM)?;
    append_head(out, key, flags, bytes, cas);
    Ok(())
}

/// Appends the end of the answer to a retrieval command, which is after its last key.
pub fn write_end(out: &mut Vec<u8>) -> Result<(), ReplyError>
    ensures ok { OnOk result (out.new.items ≡ out.old.items ++ end_line) }
    ensures len { vec_len out.new ≤ vec_len out.old + LINE_ROOM }
    ensures succeeds { vec_len out.old + LINE_ROOM ≤ vec_capacity out.old → IsOk result }
    ensures err { OnErr result (out.new.items ≡ out.old.items) }
    ensures room { vec_capacity out.old ≤ vec_capacity out.new }
{
    out.reserve(LINE_ROOM)?;
    append(out, b"END\r\n");
    Ok(())
}

/// Appends the answer to a meta command, by the word of its key and by its flag words as a client wrote them. A key in
/// base64 has one word, so none is made anew.
pub fn write_meta(
    word: &[u8],
    form: &MetaForm<WordIter<'_>>,
    reply: &Reply<&[u8]>,
    out: &mut Vec<u8>,
) -> Result<(), ReplyError>
    requires key { is_key (key_bytes form.now.coded word.now) ≡ true }
    requires flags { flags_room form.now.flags ≤ FLAGS_ROOM }
    ensures ok { OnOk result
        (out.new.items ≡ out.old.items ++ meta_line form.now (key_bytes form.now.coded word.now) (bytes_seen reply.now)) }
    ensures len { vec_len out.new ≤ vec_len out.old + value_len (bytes_seen reply.now) + META_ROOM }
    ensures succeeds { vec_len out.old + value_len (bytes_seen reply.now) + META_ROOM ≤ vec_capacity out.old → IsOk result }
    ensures err { OnErr result (out.new.items ≡ out.old.items) }
    ensures room { vec_capacity out.old ≤ vec_capacity out.new }
{
    write_meta_by(form.coded, word, form.flags.again(), META_ROOM, reply, out)
}

/// Appends the answer to a meta command, and makes room for this many bytes first. An error line is the same as for any command.
fn write_meta_by(
    coded: bool,
    word: &[u8],
    flags: WordIter<'_>,
    room: usize,
    reply: &Reply<&[u8]>,
    out: &mut Vec<u8>,
) -> Result<(), ReplyError>
    requires word { length word.now ≤ CODED_LIMIT }
    requires flags { min (flags_room flags + BESIDE_FLAGS_ROOM) (2 ^ 64 - 1) ≤ room }
    requires line { LINE_ROOM ≤ room }
    ensures ok { OnOk result (out.new.items ≡ out.old.items ++ meta_by coded word.now flags.entry (bytes_seen reply.now)) }
    ensures len { vec_len out.new ≤ vec_len out.old + value_len (bytes_seen reply.now) + room }
    ensures succeeds { vec_len out.old + value_len (bytes_seen reply.now) + room ≤ vec_capacity out.old → IsOk result }
    ensures err { OnErr result (out.new.items ≡ out.old.items) }
    ensures room { vec_capacity out.old ≤ vec_capacity out.new }
{
    if let Reply::Fault(fault) = reply {
        return write_fault(*fault, out);
    }
    out.reserve(value_len(reply).saturating_add(room))?;
    append_meta(out, coded, word, flags, reply);
    Ok(())
}

/// Appends the answer to `mn`.
pub fn write_noop(out: &mut Vec<u8>) -> Result<(), ReplyError>
    ensures ok { OnOk result (out.new.items ≡ out.old.items ++ noop_line) }
    ensures len { vec_len out.new ≤ vec_len out.old + LINE_ROOM }
    ensures succeeds { vec_len out.old + LINE_ROOM ≤ vec_capacity out.old → IsOk result }
    ensures err { OnErr result (out.new.items ≡ out.old.items) }
    ensures room { vec_capacity out.old ≤ vec_capacity out.new }
{
    out.reserve(LINE_ROOM)?;
    append(out, b"MN\r\n");
    Ok(())
}

/// Appends the answer to `version`.
pub fn write_version(out: &mut Vec<u8>) -> Result<(), ReplyError>
    ensures ok { OnOk result (out.new.items ≡ out.old.items ++ version_line) }
    ensures len { vec_len out.new ≤ vec_len out.old + LINE_ROOM }
    ensures succeeds { vec_len out.old + LINE_ROOM ≤ vec_capacity out.old → IsOk result }
    ensures err { OnErr result (out.new.items ≡ out.old.items) }
    ensures room { vec_capacity out.old ≤ vec_capacity out.new }
{
    out.reserve(LINE_ROOM)?;
    append(out, b"VERSION 1.6.0\r\n");
    Ok(())
}

/// Appends the line of a reply: the answer to a command that shows no item. A found item has no such line.
pub fn write_line(reply: &Reply<&[u8]>, out: &mut Vec<u8>) -> Result<(), ReplyError>
    ensures ok { OnOk result (out.new.items ≡ out.old.items ++ reply_line (bytes_seen reply.now)) }
    ensures len { vec_len out.new ≤ vec_len out.old + LINE_ROOM }
    ensures succeeds { vec_len out.old + LINE_ROOM ≤ vec_capacity out.old → IsOk result }
    ensures err { OnErr result (out.new.items ≡ out.old.items) }
    ensures room { vec_capacity out.old ≤ vec_capacity out.new }
{
    out.reserve(LINE_ROOM)?;
    append_reply_line(out, reply);
    Ok(())
}

/// Appends the answer to a text that is no request: the line of its fault.
pub fn write_fault(fault: Fault, out: &mut Vec<u8>) -> Result<(), ReplyError>
    ensures ok { OnOk result (out.new.items ≡ out.old.items ++ fault_line fault) }
    ensures len { vec_len out.new ≤ vec_len out.old + LINE_ROOM }
    ensures succeeds { vec_len out.old + LINE_ROOM ≤ vec_capacity out.old → IsOk result }
    ensures err { OnErr result (out.new.items ≡ out.old.items) }
    ensures room { vec_capacity out.old ≤ vec_capacity out.new }
{
    out.reserve(LINE_ROOM)?;
    append(out, short_line(fault));
    Ok(())
}

/// Appends what the reply to the command number `at` of a request adds to the request's answer. Commands are counted
/// from 0. Without a reply it appends the answer that the request gets without replies.
pub fn write_part(
    request: &Request,
    at: usize,
    reply: Option<&Reply<&[u8]>>,
    out: &mut Vec<u8>,
) -> Result<(), ReplyError>
    requires { ForSome reply (λ _. at < length (atoms_of request.now)) }
    ensures ok { OnOk result
        (out.new.items ≡ out.old.items ++ part_of request.now at (reply_seen reply.entry)) }
    ensures len { vec_len out.new ≤ vec_len out.old + shown_len (reply_seen reply.entry) + part_room request.now }
    ensures succeeds { vec_len out.old + shown_len (reply_seen reply.entry) + part_room request.now ≤ vec_capacity out.old → IsOk result }
    ensures err { OnErr result (out.new.items ≡ out.old.items) }
    ensures room { vec_capacity out.old ≤ vec_capacity out.new }
{
    let Some(reply) = reply else {
        return write_alone(request, out);
    };
    match request {
        Request::Get { keys, .. } => {
            let count = keys.len();
            out.reserve(value_len(reply) + PART_ROOM)?;
            append_key_part(out, keys.key(at).as_bytes(), reply);
            if at + 1 == count {
                append(out, b"END\r\n");
            }
        }
        Request::Update { .. } if shown(request, reply) => write_line(reply, out)?,
        Request::Meta { command, form } if shown(request, reply) => {
            write_owned_meta(command, form, reply, out)?;
        }
        _ => {}
    }
    Ok(())
}

/// Returns how many bytes a reply adds at most to the answer to a request, beside the value that it shows:
/// [`PART_ROOM`], for a request that a reader took; [`usize::MAX`] if it is more.
pub fn part_room(request: &Request) -> usize
    ensures { result ≡ min (part_room request.now) (2 ^ 64 - 1) }
{
    match request {
        Request::Meta { form, .. } => meta_room(form),
        _ => PART_ROOM,
    }
}

/// Returns how many bytes the answer to a meta command has at most, beside the value that it shows.
fn meta_room(form: &MetaForm<FlagWords>) -> usize
    ensures { result ≡ min (max PART_ROOM (flags_room form.now.flags + BESIDE_FLAGS_ROOM)) (2 ^ 64 - 1) }
{
    flags_room(form.flags.words())
        .saturating_add(BESIDE_FLAGS_ROOM)
        .max(PART_ROOM)
}

/// Appends the answer to an owned meta command. A key in base64 is encoded again.
fn write_owned_meta(
    command: &MetaCommand<Key, Block>,
    form: &MetaForm<FlagWords>,
    reply: &Reply<&[u8]>,
    out: &mut Vec<u8>,
) -> Result<(), ReplyError>
    ensures ok { OnOk result
        (out.new.items ≡ out.old.items ++ meta_line form.now (meta_key command.now) (bytes_seen reply.now)) }
    ensures len { vec_len out.new ≤ vec_len out.old + value_len (bytes_seen reply.now)
        + max PART_ROOM (flags_room form.now.flags + BESIDE_FLAGS_ROOM) }
    ensures succeeds { vec_len out.old + value_len (bytes_seen reply.now)
        + max PART_ROOM (flags_room form.now.flags + BESIDE_FLAGS_ROOM) ≤ vec_capacity out.old → IsOk result }
    ensures err { OnErr result (out.new.items ≡ out.old.items) }
    ensures room { vec_capacity out.old ≤ vec_capacity out.new }
{
    let mut room = [0; CODED_LIMIT];
    let word = word_of(form.coded, key_of(command), &mut room);
    write_meta_by(
        form.coded,
        word,
        form.flags.words(),
        meta_room(form),
        reply,
        out,
    )
}

/// Returns the bytes of a meta command's key. It takes no memory.
pub fn key_of(command: &MetaCommand<Key, Block>) -> &[u8]
    ensures key { result.now ≡ meta_key command.now }
    ensures size { length result.now ≤ KEY_LIMIT }
{
    let update = match command {
        MetaCommand::Get { key, .. } => return key.as_bytes(),
        MetaCommand::Update { update, .. } => update,
    };
    match update {
        Update::Store { key, .. }
        | Update::Touch { key, .. }
        | Update::Delete { key, .. }
        | Update::Count { key, .. } => key.as_bytes(),
        Update::FlushAll { .. } => b"",
    }
}

/// Returns the word of a key: the key itself, or its encoding, which is written into the room.
fn word_of<'a>(coded: bool, key: &'a [u8], room: &'a mut [u8; CODED_LIMIT]) -> &'a [u8]
    requires { length key.now ≤ KEY_LIMIT }
    ensures word { result.now ≡ key_word coded key.now }
    ensures size { length result.now ≤ CODED_LIMIT }
{
    if coded { write_coded(key, room) } else { key }
}

/// Appends the answer that a request gets without replies.
fn write_alone(request: &Request, out: &mut Vec<u8>) -> Result<(), ReplyError>
    ensures ok { OnOk result (out.new.items ≡ out.old.items ++ answer_of request.now []) }
    ensures len { vec_len out.new ≤ vec_len out.old + LINE_ROOM }
    ensures succeeds { vec_len out.old + LINE_ROOM ≤ vec_capacity out.old → IsOk result }
    ensures err { OnErr result (out.new.items ≡ out.old.items) }
    ensures room { vec_capacity out.old ≤ vec_capacity out.new }
{
    match request {
        Request::Version => write_version(out),
        Request::Get { .. } => write_end(out),
        Request::MetaNoop => write_noop(out),
        Request::Update { .. } | Request::Meta { .. } | Request::Quit => Ok(()),
    }
}

/// Returns how many bytes of a value a reply shows: fewer than 2^63. It takes no memory.
pub fn value_len(reply: &Reply<&[u8]>) -> usize
    ensures len { result ≡ value_len (bytes_seen reply.now) }
    ensures bound { result < 2 ^ 63 }
{
    match reply {
        Reply::Hit { value, .. } => value.len(),
        Reply::Meta {
            value: Some(value),
            ..
        } => value.len(),
        _ => 0,
    }
}
