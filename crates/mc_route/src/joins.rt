//! From the outcomes of a request's commands to its answer.
ghost use Rattle.std.specs.Prelude.{◌≡◌, ◌+◌, ◌-◌, ◌^◌, ◌<◌, ◌≤◌, ◌++◌, ◌∷◌, ◌||◌, not, List, map, min, length, vec_len, vec_capacity, IsOk, OnOk, OnErr};
ghost use Rattle.mc_request.specs.Atoms.{atoms_of};
ghost use Rattle.mc_reply.specs.Spelling.{answer_of, blocks_of, end_line};
ghost use Rattle.mc_reply.specs.MetaRooms.{part_room};
ghost use Rattle.mc_reply.specs.Seen.{bytes_seen, value_len};
ghost use Rattle.mc_route.specs.declared.outcomes.Outcome.{Outcome};
ghost use Rattle.mc_route.specs.Joins.{has_lost, outcome_part, joined_answer};
ghost use Rattle.mc_route.specs.Losses.{hides_any, hides_loss, is_missed, is_retrieval, is_silent, is_unreported, joined_with, reply_or_miss};
ghost use Rattle.mc_route.specs.Rooms.{outcome_room, outcomes_room, join_room};

use crate::errors::RouteError;
use crate::losses::Losses;
use crate::outcomes::Outcome;
use mc_reply::{KEY_ROOM, LINE_ROOM, Reply, part_room, write_end, write_key, write_part};
use mc_request::{Hides, Keys, MetaCommand, Request};
use mc_text::{Block, Key};

/// The answer to a client if a command of its request was lost.
const LOST_LINE: &[u8] = b"SERVER_ERROR link lost\r\n";

/// Appends the answer to a request by the outcomes of its commands, in their order. If a command was lost, or its reply is pending, the answer
/// is the line of a lost link alone, even to a client that asked for no answer. Otherwise it is what one server would give.
///
/// It takes memory once, for [`join_room`] bytes, and none if there is that room. If there is no memory, nothing is appended.
pub fn join(request: &Request, outcomes: &[Outcome], out: &mut Vec<u8>) -> Result<(), RouteError>
    ensures ok { OnOk result (out.new.items ≡ out.old.items ++ joined_answer request.now outcomes.now) }
    ensures len { vec_len out.new ≤ vec_len out.old + join_room request.now outcomes.now }
    ensures succeeds { vec_len out.old + join_room request.now outcomes.now ≤ vec_capacity out.old → IsOk result }
    ensures err { OnErr result (out.new.items ≡ out.old.items) }
    ensures room { vec_capacity out.old ≤ vec_capacity out.new }
{
    join_with(Losses::Told, request, outcomes, out)
}

/// Appends the answer to a request by the outcomes of its commands, in their order. If a command was lost, or its reply is pending, the answer
/// is as [`Losses`] says. Otherwise it is what one server would give.
///
/// It takes memory as [`join`] does.
#[tactic(auto, using(crate::proofs::LossLemmas::joined_answered, crate::proofs::LossLemmas::joined_unanswered))]
pub fn join_with(
    losses: Losses,
    request: &Request,
    outcomes: &[Outcome],
    out: &mut Vec<u8>,
) -> Result<(), RouteError>
    ensures ok { OnOk result (out.new.items ≡ out.old.items ++ joined_with losses request.now outcomes.now) }
    ensures len { vec_len out.new ≤ vec_len out.old + join_room request.now outcomes.now }
    ensures succeeds { vec_len out.old + join_room request.now outcomes.now ≤ vec_capacity out.old → IsOk result }
    ensures err { OnErr result (out.new.items ≡ out.old.items) }
    ensures room { vec_capacity out.old ≤ vec_capacity out.new }
{
    out.reserve(join_room(request, outcomes))?;
    if is_answered(losses, request, outcomes) {
        append_answer(request, outcomes, out);
    } else if !is_silent(losses, request) {
        out.extend_from_slice(LOST_LINE)?;
    }
    Ok(())
}

/// Returns whether a request is answered by replies: no command was lost, or its lost commands count as misses.
fn is_answered(losses: Losses, request: &Request, outcomes: &[Outcome]) -> bool
    ensures { result ≡ (not (has_lost outcomes.now) || is_missed losses request.now) }
{
    !has_lost(outcomes) || is_missed(losses, request)
}

/// Returns whether a command of a request was lost and its answer does not say so: a retrieval counts it as a miss, and another request hides
/// its reply. With [`Losses::Told`] it is never so. It takes no memory.
pub fn hides_loss(losses: Losses, request: &Request, outcomes: &[Outcome]) -> bool
    ensures { result ≡ hides_loss losses request.now outcomes.now }
{
    is_unreported(losses, request) && has_lost(outcomes)
}

/// Returns whether the answer to a request says nothing of its lost commands.
fn is_unreported(losses: Losses, request: &Request) -> bool
    ensures { result ≡ is_unreported losses request.now }
{
    is_missed(losses, request) || is_silent(losses, request)
}

/// Returns whether a request counts its lost commands as misses.
fn is_missed(losses: Losses, request: &Request) -> bool
    ensures { result ≡ is_missed losses request.now }
{
    match losses {
        Losses::Told => false,
        Losses::Missed => is_retrieval(request),
    }
}

/// Returns whether a request, if it is no retrieval, gets no answer if a command of it was lost.
fn is_silent(losses: Losses, request: &Request) -> bool
    ensures { result ≡ is_silent losses request.now }
{
    match losses {
        Losses::Told => false,
        Losses::Missed => hides_any(request.hides()),
    }
}

/// Returns whether a request asks for items.
fn is_retrieval(request: &Request) -> bool
    ensures { result ≡ is_retrieval request.now }
{
    match request {
        Request::Get { .. } => true,
        Request::Meta { command, .. } => match command {
            MetaCommand::Get { .. } => true,
            MetaCommand::Update { .. } => false,
        },
        Request::Update { .. } | Request::MetaNoop | Request::Version | Request::Quit => false,
    }
}

/// Returns whether a request that hides this hides any of its replies.
fn hides_any(hides: Hides) -> bool
    ensures { result ≡ hides_any hides }
{
    match hides {
        Hides::Nothing => false,
        Hides::ReplyLine | Hides::Misses | Hides::Success | Hides::SuccessAndMisses => true,
    }
}

/// Returns the most bytes that [`join`] appends; [`usize::MAX`] if they are that many or more.
pub fn join_room(request: &Request, outcomes: &[Outcome]) -> usize
    ensures { result ≡ min (join_room request.now outcomes.now) (2 ^ 64 - 1) }
{
    outcomes_room(outcomes).saturating_add(part_room(request))
}

/// Returns how many bytes the outcomes of the commands add to an answer at most; [`usize::MAX`] if they are that many or more.
fn outcomes_room(outcomes: &[Outcome]) -> usize
    ensures { result ≡ min (outcomes_room outcomes.now) (2 ^ 64 - 1) }
{
    let mut room: usize = 0;
    for outcome in outcomes {
        room = room.saturating_add(outcome_room(outcome));
    }
    room
}

/// Returns how many bytes the outcome of a command adds to an answer at most.
fn outcome_room(outcome: &Outcome) -> usize
    ensures { result ≡ outcome_room outcome.now }
{
    match outcome {
        Outcome::Lost | Outcome::Awaited => 0,
        Outcome::Reply(reply) => shown_len(reply) + KEY_ROOM,
    }
}

/// Returns how many bytes of a value a reply shows: fewer than 2^63.
fn shown_len(reply: &Reply<Block>) -> usize
    ensures len { result ≡ value_len reply.now }
    ensures bound { result < 2 ^ 63 }
{
    match reply {
        Reply::Hit { value, .. } => block_len(value),
        Reply::Meta {
            value: Some(value),
            ..
        } => block_len(value),
        _ => 0,
    }
}

/// Returns how many bytes a block has.
fn block_len(block: &Block) -> usize
    ensures len { result ≡ length block.now }
    ensures bound { result < 2 ^ 63 }
{
    block.as_slice().len()
}

/// Returns whether a command was lost.
fn has_lost(outcomes: &[Outcome]) -> bool
    ensures { result ≡ has_lost outcomes.now }
{
    for outcome in outcomes {
        if !matches!(outcome, Outcome::Reply(_)) {
            return true;
        }
    }
    false
}

/// Appends the answer to a request by the replies to its commands. A lost command counts as a miss.
fn append_answer(request: &Request, outcomes: &[Outcome], out: &mut Vec<u8>)
    requires room { vec_len out.old + join_room request.now outcomes.now ≤ vec_capacity out.old }
    ensures items { out.new.items ≡ out.old.items ++ answer_of request.now (map reply_or_miss outcomes.now) }
    ensures len { vec_len out.new ≤ vec_len out.old + join_room request.now outcomes.now }
    ensures room { vec_capacity out.old ≤ vec_capacity out.new }
{
    match request {
        Request::Get { keys, .. } => append_items(keys, outcomes, out),
        Request::Update { .. } | Request::Meta { .. } => append_line(request, outcomes, out),
        Request::MetaNoop | Request::Version | Request::Quit => {
            write_part(request, 0, None, out).unwrap();
        }
    }
}

/// Appends the answer to a request of one command, by its outcome.
fn append_line(request: &Request, outcomes: &[Outcome], out: &mut Vec<u8>)
    requires one { length (atoms_of request.now) ≡ 1 }
    requires room { vec_len out.old + join_room request.now outcomes.now ≤ vec_capacity out.old }
    ensures items { out.new.items ≡ out.old.items ++ answer_of request.now (map reply_or_miss outcomes.now) }
    ensures len { vec_len out.new ≤ vec_len out.old + join_room request.now outcomes.now }
    ensures room { vec_capacity out.old ≤ vec_capacity out.new }
{
    if let [outcome, ..] = outcomes {
        append_part(request, outcome, out);
    } else {
        write_part(request, 0, None, out).unwrap();
    }
}

/// Appends what a command adds to the answer to its request, which has no other command.
fn append_part(request: &Request, outcome: &Outcome, out: &mut Vec<u8>)
    requires one { length (atoms_of request.now) ≡ 1 }
    requires room { vec_len out.old + outcome_room outcome.now + part_room request.now ≤ vec_capacity out.old }
    ensures items { (others : List Outcome) → out.new.items ≡ out.old.items ++ answer_of request.now (map reply_or_miss (outcome.now ∷ others)) }
    ensures len { vec_len out.new ≤ vec_len out.old + outcome_room outcome.now + part_room request.now }
    ensures room { vec_capacity out.old ≤ vec_capacity out.new }
{
    let reply = reply_or_miss(outcome);
    write_part(request, 0, Some(&reply), out).unwrap();
}

/// Returns the reply to a command, with its value borrowed; a miss if the command was lost, or if its reply is pending.
fn reply_or_miss(outcome: &Outcome) -> Reply<&[u8]>
    ensures reply { bytes_seen result ≡ reply_or_miss outcome.now }
    ensures room { value_len (bytes_seen result) ≤ outcome_room outcome.now }
{
    match outcome {
        Outcome::Reply(reply) => reply.lent(),
        Outcome::Lost | Outcome::Awaited => Reply::Miss,
    }
}

/// Appends the answer to a retrieval command: the items of its keys, and the end. A key whose command was lost is a miss.
fn append_items(keys: &Keys, outcomes: &[Outcome], out: &mut Vec<u8>)
    requires room { vec_len out.old + (outcomes_room outcomes.now + LINE_ROOM) ≤ vec_capacity out.old }
    ensures items { out.new.items ≡ out.old.items ++ (blocks_of keys.now (map reply_or_miss outcomes.now) ++ end_line) }
    ensures len { vec_len out.new ≤ vec_len out.old + (outcomes_room outcomes.now + LINE_ROOM) }
    ensures room { vec_capacity out.old ≤ vec_capacity out.new }
{
    for at in 0..keys.len().min(outcomes.len()) {
        append_item(keys.key(at), &outcomes[at], out);
    }
    write_end(out).unwrap();
}

/// Appends what a key of a retrieval command adds, by the outcome of its command.
fn append_item(key: &Key, outcome: &Outcome, out: &mut Vec<u8>)
    requires { vec_len out.old + outcome_room outcome.now ≤ vec_capacity out.old }
    ensures items { out.new.items ≡ out.old.items ++ outcome_part key.now outcome.now }
    ensures len { vec_len out.new ≤ vec_len out.old + outcome_room outcome.now }
    ensures room { vec_capacity out.old ≤ vec_capacity out.new }
{
    if let Outcome::Reply(Reply::Hit { flags, cas, value }) = outcome {
        let hit = Reply::Hit {
            flags: *flags,
            cas: *cas,
            value: value.as_slice(),
        };
        write_key(key.as_bytes(), &hit, out).unwrap();
    }
}
