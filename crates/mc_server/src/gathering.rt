//! Serving a retrieval: a large value is written without a copy.
ghost use Rattle.std.specs.Prelude.{◌≡◌, ◌+◌, ◌*◌, ◌-◌, ◌≤◌, ◌<◌, ◌^◌, ◌++◌, true, false, ℕ, List, [], ◌∷◌, length, min, drop, codes, None, Ok, vec_len, vec_capacity, IfSome};
ghost use Rattle.std.specs.List.{list_all};
ghost use Rattle.mc_text.specs.Keys.{is_plain_key};
ghost use Rattle.mc_request.specs.declared.parts.Request.TheVariants.{Get};
ghost use Rattle.mc_request.specs.declared.parts.Parsed.TheVariants.{Whole};
ghost use Rattle.mc_stream.specs.Sides.{Writes};
ghost use Rattle.mc_cache.specs.CacheState.{value_at, front_value};
ghost use Rattle.mc_server.specs.Gathers.{PutsOut};
ghost use Rattle.mc_server.specs.Served.{IsServed};
ghost use Rattle.mc_server.specs.Rooms.{keys_room};

use crate::ahead::Ahead;
use crate::answering::serve_keys;
use crate::work::LONE_WORK;
use mc_cache::Cache;
use mc_reply::{KEY_ROOM, LINE_ROOM, write_end, write_head};
use mc_store::{Hint, Store};
use mc_stream::Gather;
use mc_text::{WordIter, append, consume_front};

/// A value of this many bytes or more is written without a copy: 64 KiB. Copying a shorter one costs no more than that saves.
pub const GATHER_MIN: usize = 65_536;

/// The room that is made for the answer to a retrieval of one key whose value has at most `GATHER_MIN` bytes.
const GATHER_ROOM: usize = LINE_ROOM + KEY_ROOM + GATHER_MIN;

/// What a retrieval has left of an output.
#[derive(Clone, Copy)]
pub struct Put {
    /// The number of bytes at the front of the output that were taken out.
    pub sent: usize,
    /// The number of bytes that the writer took.
    pub went: usize,
    /// The work that the retrieval cost.
    pub work: u64,
}

/// Serves a `get` or `gets` of these keys, for whose answer there is this room in an output, of which the first `sent` bytes were
/// taken out.
///
/// If there is one key, and its value is large, the writer is given all at once: what is unsent, the line in front of the value,
/// the value without a copy, and the end. What it does not take stays in the output. Any other answer is appended there.
pub fn serve_get<S: Store + Drop, W: Gather>(
    keys: WordIter<'_>,
    room: usize,
    with_cas: bool,
    cache: &mut Cache<S>,
    moment: u64,
    ahead: &mut Ahead,
    sent: usize,
    output: &mut Vec<u8>,
    writer: &mut W,
) -> Put
    requires moment { moment < 2 ^ 63 }
    requires plain { list_all is_plain_key keys ≡ true }
    requires room { vec_len output.old + (LINE_ROOM + keys_room KEY_ROOM keys cache.old) ≤ vec_capacity output.old }
    requires half { 2 * sent ≤ vec_len output.old }
    ensures put { (number : ℕ) → PutsOut number moment result.went (W.contents writer.old) (W.contents writer.new) cache.old cache.new
        (Whole (Get keys.entry None with_cas)) (drop sent output.old.items) (drop result.sent output.new.items) }
    ensures len { length (drop result.sent output.new.items)
        ≤ length (drop sent output.old.items) + (LINE_ROOM + keys_room KEY_ROOM keys.entry cache.old) }
    ensures work { result.work ≡ min (1 + length keys.entry) (2 ^ 64 - 1) }
    ensures half { 2 * result.sent ≤ vec_len output.new }
{
    if room >= GATHER_ROOM
        && let Some(key) = lone_key(&keys)
    {
        return serve_lone(
            key,
            ahead.next(),
            with_cas,
            cache,
            moment,
            sent,
            output,
            writer,
        );
    }
    let work = serve_keys(keys, None, with_cas, cache, moment, ahead, output);
    Put {
        sent,
        went: 0,
        work,
    }
}

/// Returns the key of a retrieval that has no other.
fn lone_key<'a>(keys: &WordIter<'a>) -> Option<&'a [u8]>
    ensures { IfSome result (λ key. keys.now ≡ key.now ∷ []) }
{
    let mut keys = keys.again();
    let key = keys.next()?;
    if keys.has_next() {
        return None;
    }
    Some(key)
}

/// Serves a retrieval of one key, given a hint of its slot. Its value is large.
#[inline(never)]
fn serve_lone<S: Store + Drop, W: Gather>(
    key: &[u8],
    hint: Hint,
    with_cas: bool,
    cache: &mut Cache<S>,
    moment: u64,
    sent: usize,
    output: &mut Vec<u8>,
    writer: &mut W,
) -> Put
    requires moment { moment < 2 ^ 63 }
    requires plain { is_plain_key key.now ≡ true }
    requires room { vec_len output.old + (LINE_ROOM + keys_room KEY_ROOM (key.now ∷ []) cache.old) ≤ vec_capacity output.old }
    requires half { 2 * sent ≤ vec_len output.old }
    ensures put { (number : ℕ) → PutsOut number moment result.went (W.contents writer.old) (W.contents writer.new) cache.old cache.new
        (Whole (Get (key.now ∷ []) None with_cas)) (drop sent output.old.items) (drop result.sent output.new.items) }
    ensures len { length (drop result.sent output.new.items)
        ≤ length (drop sent output.old.items) + (LINE_ROOM + keys_room KEY_ROOM (key.now ∷ []) cache.old) }
    ensures work { result.work ≡ LONE_WORK }
    ensures half { 2 * result.sent ≤ vec_len output.new }
{
    if !serve_head(key, hint, with_cas, cache, moment, output) {
        return Put {
            sent,
            went: 0,
            work: LONE_WORK,
        };
    }
    put_out(sent, output, cache.front_value(), writer)
}

/// Serves a retrieval of one key, given a hint of its slot, except for the value and what follows it. It returns whether there is
/// a value: it is that of the cache's first item. If there is none the answer is whole.
fn serve_head<S: Store + Drop>(
    key: &[u8],
    hint: Hint,
    with_cas: bool,
    cache: &mut Cache<S>,
    moment: u64,
    output: &mut Vec<u8>,
) -> bool
    requires moment { moment < 2 ^ 63 }
    requires plain { is_plain_key key.now ≡ true }
    requires room { vec_len output.old + (LINE_ROOM + KEY_ROOM) ≤ vec_capacity output.old }
    ensures hit { result ≡ true → (number : ℕ) → IsServed number cache.old (Whole (Get (key.now ∷ []) None with_cas)) moment cache.new
        output.old.items (output.new.items ++ (front_value cache.new.items ++ codes "\r\nEND\r\n")) }
    ensures shown { result ≡ true → (rest : List ℕ) × (output.new.items ≡ output.old.items ++ (codes "VALUE " ++ rest)) }
    ensures fits { result ≡ true → length (front_value cache.new.items) ≤ length (value_at key.now cache.old.items) }
    ensures miss { result ≡ false → (number : ℕ) → IsServed number cache.old (Whole (Get (key.now ∷ []) None with_cas)) moment cache.new
        output.old.items output.new.items }
    ensures longer { vec_len output.old ≤ vec_len output.new }
    ensures len { vec_len output.new ≤ vec_len output.old + KEY_ROOM }
    ensures room { vec_capacity output.old ≤ vec_capacity output.new }
{
    let Some(head) = cache.get_head(key, hint, with_cas, moment) else {
        write_end(output).unwrap();
        return false;
    };
    write_head(key, head.0, cache.front_value().len(), head.1, output).unwrap();
    true
}

/// Gives a writer what is unsent of an output, a value and the end of a retrieval's answer, in one call. What it does not take stays
/// in the output, which has room for it.
fn put_out<W: Gather>(sent: usize, output: &mut Vec<u8>, value: &[u8], writer: &mut W) -> Put
    requires sent { sent ≤ vec_len output.old }
    requires room { vec_len output.old + length value.now + 7 ≤ vec_capacity output.old }
    ensures wrote { Writes (Ok result.went) (drop sent output.old.items ++ (value.now ++ codes "\r\nEND\r\n"))
        (W.contents writer.old) (W.contents writer.new) }
    ensures left { drop result.sent output.new.items
        ≡ drop result.went (drop sent output.old.items ++ (value.now ++ codes "\r\nEND\r\n")) }
    ensures work { result.work ≡ LONE_WORK }
    ensures half { 2 * result.sent ≤ vec_len output.new }
{
    let end = b"\r\nEND\r\n".as_slice();
    let (_, unsent) = output.split_at(sent);
    let went = writer.gather(unsent, value, end);
    let taken = went.min(unsent.len());
    let (value_left, behind) = left_of(value, went - taken);
    let (end_left, _) = left_of(end, behind);
    append(output, value_left);
    append(output, end_left);
    Put {
        sent: consume_front(output, sent + taken),
        went,
        work: LONE_WORK,
    }
}

/// Returns what is left of a part once `count` bytes were taken, and how many of these are behind it.
fn left_of(part: &[u8], count: usize) -> (&[u8], usize)
    ensures left { result.0.now ≡ drop count part.now }
    ensures short { length result.0.now ≤ length part.now }
    ensures behind { result.1 ≡ count - length part.now }
{
    if count >= part.len() {
        return (&[], count - part.len());
    }
    let (_, left) = part.split_at(count);
    (left, 0)
}
