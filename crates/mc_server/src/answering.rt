//! Serving the first request of a reader: the cache executes its commands, and the answer is appended to the output.
ghost use Rattle.std.specs.Prelude.{◌≡◌, ◌+◌, ◌≤◌, ◌<◌, ◌^◌, ◌-◌, ◌++◌, min, Bool, true, false, ℕ, List, length, vec_len, vec_capacity, ◌↔◌, Ok, IfOk, IsOkUnless, OnOk, OnErr};
ghost use Rattle.std.specs.List.{list_all};
ghost use Rattle.mc_text.specs.Keys.{is_key, is_plain_key};
ghost use Rattle.mc_request.specs.Hides.{hides_of};
ghost use Rattle.mc_request.specs.LinesSeen.{asked_of};
ghost use Rattle.mc_request.specs.Parts.{update_seen, meta_said};
ghost use Rattle.mc_request.specs.WellFormed.{is_well_formed, is_good_request, is_good_meta, is_good_block, is_meta_key, has_meta_key};
ghost use Rattle.mc_request.specs.declared.parts.Atom.TheVariants.{Get as GetOne, Meta as MetaAtom};
ghost use Rattle.mc_request.specs.declared.parts.Request.TheVariants.{Get, Meta, Update as AnUpdate};
ghost use Rattle.mc_request.specs.declared.parts.Parsed.TheVariants.{Whole};
ghost use Rattle.mc_request.specs.declared.parts.Update.{Update as AnyUpdate};
ghost use Rattle.mc_request_reader.specs.Peeks.{set_of};
ghost use Rattle.mc_reply.specs.Replies.{filled};
ghost use Rattle.mc_reply.specs.Seen.{value_len};
ghost use Rattle.mc_reply.specs.Spelling.{key_part};
ghost use Rattle.mc_cache.specs.CacheState.{value_at, front_value};
ghost use Rattle.mc_cache.specs.Memory.{may_refuse};
ghost use Rattle.mc_cache.specs.Refusals.{HasKey, is_refusal};
ghost use Rattle.mc_cache.specs.Step.{step_of};
ghost use Rattle.mc_server.specs.Served.{IsServed};
ghost use Rattle.mc_server.specs.Rooms.{keys_room, room_of, taken_bound, meta_value_room};
ghost use Rattle.mc_server.specs.Work.{work_of, update_work, meta_work};

use crate::ahead::Ahead;
use crate::limits::AnswerLimit;
use crate::turns::ServerError;
use crate::work::{work_of_meta, work_of_update};
use mc_cache::Cache;
use mc_reply::{
    KEY_ROOM, LINE_ROOM, META_ROOM, Reply, write_end, write_fault, write_key, write_line,
    write_meta, write_noop, write_version,
};
use mc_request::{Hides, MetaCommand, MetaForm, RequestRef, Update, key_bytes};
use mc_request_reader::TakenSet;
use mc_store::{Hint, Store};
use mc_text::{CODED_ROOM, VALUE_LIMIT, WordIter};
use std::alloc::AllocError;

/// The most bytes that a command adds to an answer beside the value that it shows, as reported to a caller.
pub const COMMAND_BOUND: usize = 1024;

/// The most digits of a number of 64 bits.
pub const NUMBER_ROOM: usize = 20;

/// The most bytes of room that are made for values by the length of the longest, without a look at each. If that would be
/// more, each key is looked up.
const ROOM_BY_LONGEST: usize = 65_536;

/// Returns enough bytes of room for the answer to a request; [`usize::MAX`] if it may need that or more.
pub fn room_for<S: Store + Drop>(asked: &RequestRef<'_>, cache: &Cache<S>) -> usize
    requires { is_well_formed (asked_of asked.now) ≡ true }
    ensures enough { min (room_of (asked_of asked.now) cache.now) (2 ^ 64 - 1) ≤ result }
    ensures most { result ≤ room_of (asked_of asked.now) cache.now + ROOM_BY_LONGEST }
{
    match asked {
        RequestRef::Get { keys, .. } => room_for_get(keys, cache),
        RequestRef::Meta { command, form } => {
            META_ROOM.saturating_add(enough_for_value(command, form.coded, cache))
        }
        RequestRef::Update { .. }
        | RequestRef::MetaNoop
        | RequestRef::Version
        | RequestRef::Quit
        | RequestRef::Faulty(_) => LINE_ROOM,
    }
}

/// Returns a bound on the answer to a request, as reported to a caller; [`usize::MAX`] if it is that or more.
pub fn bound_for<S: Store + Drop>(asked: &RequestRef<'_>, cache: &Cache<S>) -> usize
    requires { is_well_formed (asked_of asked.now) ≡ true }
    ensures { result ≡ min (taken_bound (asked_of asked.now) cache.now) (2 ^ 64 - 1) }
{
    match asked {
        RequestRef::Get { keys, .. } => bound_for_get(keys, cache),
        RequestRef::Meta { command, form } => {
            COMMAND_BOUND.saturating_add(room_for_value(command, form.coded, cache))
        }
        RequestRef::Update { .. }
        | RequestRef::MetaNoop
        | RequestRef::Version
        | RequestRef::Quit
        | RequestRef::Faulty(_) => COMMAND_BOUND,
    }
}

/// Returns enough bytes of room for the answer to a `get` or `gets` of these keys; [`usize::MAX`] if it may need that or more.
#[inline]
pub fn room_for_get<S: Store + Drop>(keys: &WordIter<'_>, cache: &Cache<S>) -> usize
    ensures enough { min (LINE_ROOM + keys_room KEY_ROOM keys.now cache.now) (2 ^ 64 - 1) ≤ result }
    ensures most { result ≤ LINE_ROOM + keys_room KEY_ROOM keys.now cache.now + ROOM_BY_LONGEST }
{
    LINE_ROOM.saturating_add(enough_for_keys(keys, cache))
}

/// Returns a bound on the answer to a `get` or `gets` of these keys, as reported to a caller; [`usize::MAX`] if it is that or more.
pub fn bound_for_get<S: Store + Drop>(keys: &WordIter<'_>, cache: &Cache<S>) -> usize
    ensures { result ≡ min (keys_room COMMAND_BOUND keys.now cache.now) (2 ^ 64 - 1) }
{
    room_for_keys(COMMAND_BOUND, keys.again(), cache)
}

/// Returns enough bytes for the values under some keys and what is beside them; [`usize::MAX`] if that may be it or more.
///
/// It bounds the number of keys by the bytes of their text and one; if that is too much, by its spaces and one.
fn enough_for_keys<S: Store + Drop>(keys: &WordIter<'_>, cache: &Cache<S>) -> usize
    ensures enough { min (keys_room KEY_ROOM keys.now cache.now) (2 ^ 64 - 1) ≤ result }
    ensures most { result ≤ keys_room KEY_ROOM keys.now cache.now + ROOM_BY_LONGEST }
{
    let longest = cache.longest();
    if longest <= ROOM_BY_LONGEST {
        let each = longest + KEY_ROOM;
        let by_bytes = each.saturating_mul(keys.text().len() + 1);
        if by_bytes <= ROOM_BY_LONGEST {
            return by_bytes;
        }
        let by_spaces = each.saturating_mul(keys.most());
        if by_spaces <= ROOM_BY_LONGEST {
            return by_spaces;
        }
    }
    room_for_keys(KEY_ROOM, keys.again(), cache)
}

/// Returns enough bytes for the value that a meta command shows, by the word of its key.
fn enough_for_value<S: Store + Drop>(
    command: &MetaCommand<&[u8], &[u8]>,
    coded: bool,
    cache: &Cache<S>,
) -> usize
    requires { has_meta_key (meta_said coded command.now) ≡ true }
    ensures enough { meta_value_room (meta_said coded command.now) cache.now ≤ result }
    ensures most { result ≤ meta_value_room (meta_said coded command.now) cache.now + ROOM_BY_LONGEST }
{
    let longest = cache.longest();
    match command {
        MetaCommand::Get { get, .. } if get.show.value && longest <= ROOM_BY_LONGEST => longest,
        _ => room_for_value(command, coded, cache),
    }
}

/// Returns the most bytes of a value that a meta command shows, by the word of its key.
fn room_for_value<S: Store + Drop>(
    command: &MetaCommand<&[u8], &[u8]>,
    coded: bool,
    cache: &Cache<S>,
) -> usize
    requires { has_meta_key (meta_said coded command.now) ≡ true }
    ensures room { result ≡ meta_value_room (meta_said coded command.now) cache.now }
{
    let mut room = [0; CODED_ROOM];
    match command {
        MetaCommand::Get { key, get } if get.show.value => {
            cache.room(key_bytes(coded, key, &mut room))
        }
        MetaCommand::Update { update, show } if show.value => match update {
            Update::Store { .. } => VALUE_LIMIT,
            Update::Count { .. } => NUMBER_ROOM,
            Update::Touch { .. } | Update::Delete { .. } | Update::FlushAll { .. } => 0,
        },
        _ => 0,
    }
}

/// Returns the bytes of the values under some keys, and `beside` more for each; [`usize::MAX`] if it is that or more.
fn room_for_keys<S: Store + Drop>(beside: usize, keys: WordIter<'_>, cache: &Cache<S>) -> usize
    requires { beside < 2 ^ 16 }
    ensures { result ≡ min (keys_room beside keys.entry cache.now) (2 ^ 64 - 1) }
{
    let mut room: usize = 0;
    for key in keys {
        room = room.saturating_add(cache.room(key) + beside);
    }
    room
}

/// Serves a request at a moment, if its answer is within a limit, and returns whether it is. Then `work` is set to the work that it cost.
///
/// It takes the memory that it may need before it changes anything: room for the answer, and the block of a value that is stored under a
/// stored key. If the answer is not within the limit, or at an error, nothing has changed.
#[inline]
pub fn serve_within<S: Store + Drop>(
    asked: &RequestRef<'_>,
    cache: &mut Cache<S>,
    moment: u64,
    limit: AnswerLimit,
    ahead: &mut Ahead,
    output: &mut Vec<u8>,
    work: &mut u64,
) -> Result<bool, ServerError>
    requires moment { moment < 2 ^ 63 }
    requires well_formed { is_well_formed (asked_of asked.now) ≡ true }
    ensures served { result ≡ Ok true → (number : ℕ)
        → IsServed number cache.old (asked_of asked.now) moment cache.new output.old.items output.new.items }
    ensures len { OnOk result (vec_len output.new ≤ vec_len output.old + room_of (asked_of asked.now) cache.old) }
    ensures work { result ≡ Ok true → work.new ≡ min (work_of (asked_of asked.now) cache.old) (2 ^ 64 - 1) }
    ensures refused { (result ≡ Ok false) ↔ (limit.bytes < min (taken_bound (asked_of asked.now) cache.old) (2 ^ 64 - 1)) }
    ensures cache_unchanged { result ≡ Ok false → cache.new ≡ cache.old }
    ensures output_unchanged { result ≡ Ok false → output.new.items ≡ output.old.items }
    ensures only_memory { IsOkUnless result ServerError.Memory }
    ensures cache_kept { OnErr result (cache.new ≡ cache.old) }
    ensures output_kept { OnErr result (output.new.items ≡ output.old.items) }
{
    let room = room_for(asked, cache);
    if limit.is_passed(room, asked, cache) {
        return Ok(false);
    }
    output.reserve(room)?;
    *work = serve(asked, cache, moment, ahead, output)?;
    Ok(true)
}

/// Serves a request at a moment, given hints of the next keys' slots, and returns the work that it cost. The cache may take memory to store an item. Beside
/// that, it takes memory only for the block of a value that is stored under a stored key, and if there is none nothing has changed.
pub fn serve<S: Store + Drop>(
    asked: &RequestRef<'_>,
    cache: &mut Cache<S>,
    moment: u64,
    ahead: &mut Ahead,
    output: &mut Vec<u8>,
) -> Result<u64, AllocError>
    requires moment { moment < 2 ^ 63 }
    requires well_formed { is_well_formed (asked_of asked.now) ≡ true }
    requires room { vec_len output.old + room_of (asked_of asked.now) cache.old ≤ vec_capacity output.old }
    ensures served { OnOk result ((number : ℕ)
        → IsServed number cache.old (asked_of asked.now) moment cache.new output.old.items output.new.items) }
    ensures len { OnOk result (vec_len output.new ≤ vec_len output.old + room_of (asked_of asked.now) cache.old) }
    ensures work { IfOk result (λ work. work ≡ min (work_of (asked_of asked.now) cache.old) (2 ^ 64 - 1)) }
    ensures cache_kept { OnErr result (cache.new ≡ cache.old) }
    ensures output_kept { OnErr result (output.new.items ≡ output.old.items) }
{
    let hides = asked.hides();
    Ok(match asked {
        RequestRef::Get {
            keys,
            exptime,
            with_cas,
        } => {
            let keys = keys.again();
            serve_keys(keys, *exptime, *with_cas, cache, moment, ahead, output)
        }
        RequestRef::Update { update, .. } => {
            serve_update(update, hides, cache, ahead.next(), moment, output)?
        }
        RequestRef::Meta { command, form } => {
            let hint = ahead.next_for(form.coded);
            serve_meta(command, form, hides, cache, hint, moment, output)?
        }
        RequestRef::MetaNoop => {
            write_noop(output).unwrap();
            1
        }
        RequestRef::Version => {
            write_version(output).unwrap();
            1
        }
        RequestRef::Quit => 1,
        RequestRef::Faulty(fault) => {
            ahead.refuse();
            write_fault(*fault, output).unwrap();
            1
        }
    })
}

/// Serves a command that may change what is stored, given a hint of its key's slot, and returns the work that it cost.
fn serve_update<S: Store + Drop>(
    update: &Update<&[u8], &[u8]>,
    hides: Hides,
    cache: &mut Cache<S>,
    hint: Hint,
    moment: u64,
    output: &mut Vec<u8>,
) -> Result<u64, AllocError>
    requires moment { moment < 2 ^ 63 }
    requires key { HasKey (update_seen update.now) }
    requires room { vec_len output.old + LINE_ROOM ≤ vec_capacity output.old }
    ensures served { OnOk result ((number : ℕ) → (noreply : Bool)
        → hides_of (AnUpdate (update_seen update.now) noreply) ≡ hides
        → IsServed number cache.old (Whole (AnUpdate (update_seen update.now) noreply)) moment cache.new output.old.items output.new.items) }
    ensures len { OnOk result (vec_len output.new ≤ vec_len output.old + LINE_ROOM) }
    ensures work { IfOk result (λ work. work ≡ update_work (update_seen update.now) cache.old) }
    ensures cache_kept { OnErr result (cache.new ≡ cache.old) }
    ensures output_kept { OnErr result (output.new.items ≡ output.old.items) }
{
    let work = work_of_update(update, cache);
    let reply = cache.update(update, hint, moment)?;
    if !reply.is_hidden(hides) {
        write_line(&reply.with(b"".as_slice()), output).unwrap();
    }
    Ok(work)
}

/// Serves a `set` whose key and block are owned: no byte of the block is copied. There is room for its line, so it cannot fail: if the
/// cache is refused memory, the answer says so.
pub fn serve_set<S: Store + Drop>(
    set: TakenSet,
    cache: &mut Cache<S>,
    moment: u64,
    output: &mut Vec<u8>,
)
    requires moment { moment < 2 ^ 63 }
    requires room { vec_len output.old + LINE_ROOM ≤ vec_capacity output.old }
    ensures served { (number : ℕ) → IsServed number cache.old (set_of set) moment cache.new output.old.items output.new.items }
    ensures len { vec_len output.new ≤ vec_len output.old + LINE_ROOM }
{
    let TakenSet {
        key,
        flags,
        exptime,
        block,
        noreply,
    } = set;
    let reply = cache.set(key, flags, exptime, block, moment);
    if !reply.is_hidden(hides_by(noreply)) {
        write_line(&reply.with(b"".as_slice()), output).unwrap();
    }
}

/// Returns what an update hides of its answer.
fn hides_by(noreply: bool) -> Hides
    ensures { (update : AnyUpdate (List ℕ) (List ℕ)) → hides_of (AnUpdate update noreply) ≡ result }
{
    if noreply {
        Hides::ReplyLine
    } else {
        Hides::Nothing
    }
}

/// Serves a meta command by the word of its key, given a hint of its slot, and returns the work that it cost. The value that it shows is
/// read from the front of the cache.
fn serve_meta<S: Store + Drop>(
    command: &MetaCommand<&[u8], &[u8]>,
    form: &MetaForm<WordIter<'_>>,
    hides: Hides,
    cache: &mut Cache<S>,
    hint: Hint,
    moment: u64,
    output: &mut Vec<u8>,
) -> Result<u64, AllocError>
    requires moment { moment < 2 ^ 63 }
    requires well_formed { is_good_request (Meta (meta_said form.now.coded command.now) form.now) ≡ true }
    requires room { vec_len output.old + (META_ROOM + meta_value_room (meta_said form.now.coded command.now) cache.old) ≤ vec_capacity output.old }
    ensures served { OnOk result ((number : ℕ)
        → hides_of (Meta (meta_said form.now.coded command.now) form.now) ≡ hides
        → IsServed number cache.old (Whole (Meta (meta_said form.now.coded command.now) form.now)) moment cache.new output.old.items output.new.items) }
    ensures len { OnOk result (vec_len output.new
        ≤ vec_len output.old + (META_ROOM + meta_value_room (meta_said form.now.coded command.now) cache.old)) }
    ensures work { IfOk result (λ work. work ≡ meta_work (meta_said form.now.coded command.now) cache.old) }
    ensures cache_kept { OnErr result (cache.new ≡ cache.old) }
    ensures output_kept { OnErr result (output.new.items ≡ output.old.items) }
{
    let work = work_of_meta(command, form.coded, cache);
    let reply = meta_reply(command, form.coded, cache, hint, moment)?;
    if !reply.is_hidden(hides) {
        write_meta(
            command.word(),
            form,
            &reply.with(cache.front_value()),
            output,
        )
        .unwrap();
    }
    Ok(work)
}

/// Returns the cache's reply to a meta command by the word of its key, given a hint of its slot. The value that it shows is first.
fn meta_reply<S: Store + Drop>(
    command: &MetaCommand<&[u8], &[u8]>,
    coded: bool,
    cache: &mut Cache<S>,
    hint: Hint,
    moment: u64,
) -> Result<Reply<()>, AllocError>
    requires moment { moment < 2 ^ 63 }
    requires key { has_meta_key (meta_said coded command.now) ≡ true }
    requires good { is_good_meta (is_meta_key coded) is_good_block (meta_said coded command.now) ≡ true }
    ensures step { IfOk result (λ reply. step_of cache.old (MetaAtom (meta_said coded command.now)) moment (is_refusal reply)
        ≡ (cache.new, filled reply (front_value cache.new.items))) }
    ensures refusal { IfOk result (λ reply. is_refusal reply ≡ true
        → may_refuse cache.old (MetaAtom (meta_said coded command.now)) moment ≡ true) }
    ensures fits { IfOk result (λ reply. value_len (filled reply (front_value cache.new.items))
        ≤ meta_value_room (meta_said coded command.now) cache.old) }
    ensures err { OnErr result (cache.new ≡ cache.old) }
{
    let mut room = [0; CODED_ROOM];
    match command {
        MetaCommand::Get { key, get } => {
            Ok(cache.meta_get(key_bytes(coded, key, &mut room), hint, get, moment))
        }
        MetaCommand::Update { update, show } => {
            cache.meta_update(&update.said(coded, &mut room), hint, show, moment)
        }
    }
}

/// Serves a retrieval command, key by key: each value is copied once, from the cache into the output. It returns the work that it cost.
pub fn serve_keys<S: Store + Drop>(
    keys: WordIter<'_>,
    exptime: Option<i64>,
    with_cas: bool,
    cache: &mut Cache<S>,
    moment: u64,
    ahead: &mut Ahead,
    output: &mut Vec<u8>,
) -> u64
    requires moment { moment < 2 ^ 63 }
    requires plain { list_all is_plain_key keys ≡ true }
    requires room { vec_len output.old + (LINE_ROOM + keys_room KEY_ROOM keys cache.old) ≤ vec_capacity output.old }
    ensures served { (number : ℕ)
        → IsServed number cache.old (Whole (Get keys.entry exptime with_cas)) moment cache.new output.old.items output.new.items }
    ensures len { vec_len output.new ≤ vec_len output.old + (LINE_ROOM + keys_room KEY_ROOM keys.entry cache.old) }
    ensures work { result ≡ min (1 + length keys.entry) (2 ^ 64 - 1) }
{
    let mut work: u64 = 1;
    for key in keys {
        let hint = ahead.next();
        serve_key(key, hint, exptime, with_cas, cache, moment, output);
        work = work.saturating_add(1);
    }
    write_end(output).unwrap();
    work
}

/// Serves a key of a retrieval command, given a hint of its slot. The value that it shows is read from the front of the cache.
fn serve_key<S: Store + Drop>(
    key: &[u8],
    hint: Hint,
    exptime: Option<i64>,
    with_cas: bool,
    cache: &mut Cache<S>,
    moment: u64,
    output: &mut Vec<u8>,
)
    requires moment { moment < 2 ^ 63 }
    requires key { is_key key.now ≡ true }
    requires room { vec_len output.old + length (value_at key.now cache.old.items) + KEY_ROOM ≤ vec_capacity output.old }
    ensures cache { cache.new ≡ (step_of cache.old (GetOne key.now exptime with_cas) moment false).0 }
    ensures answered { output.new.items ≡ output.old.items
        ++ key_part key.now (step_of cache.old (GetOne key.now exptime with_cas) moment false).1 }
    ensures len { vec_len output.new ≤ vec_len output.old + length (value_at key.now cache.old.items) + KEY_ROOM }
    ensures room { vec_capacity output.old ≤ vec_capacity output.new }
    ensures shrinks { (other : List ℕ)
        → length (value_at other cache.new.items) ≤ length (value_at other cache.old.items) }
{
    let reply = cache.get(key, hint, exptime, with_cas, moment);
    let reply = reply.with(cache.front_value());
    write_key(key, &reply, output).unwrap();
}
