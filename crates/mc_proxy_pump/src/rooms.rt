//! How much memory is kept for a session, and whether its next step may take more.
ghost use Rattle.std.specs.Prelude.{◌≡◌, ◌+◌, ◌-◌, ◌^◌, ◌<◌, ◌≤◌, min, IfSome, length};
ghost use Rattle.mc_proxy.specs.Held.{held_of};
ghost use Rattle.mc_proxy.specs.ProxyState.{output_of, session_at};
ghost use Rattle.mc_proxy_pump.specs.Rooms.{request_room};

use mc_proxy::{COMMAND_ROOM, PENDING_ROOM, Proxy, REQUEST_ROOM, UNSENT_MARK};
use mc_ring::SERVER_LIMIT;
use mc_stream::Pumped;

/// Returns how many bytes of memory are kept for a session: its buffers with what is reserved in them ([`Proxy::reserved`]), and what is kept for
/// its unanswered requests ([`Proxy::held`]). It is 0 if the session is not open.
pub fn kept_for(proxy: &Proxy, session: u64) -> u64
    ensures { min (held_of (session_at proxy.now session)) (2 ^ 64 - 1) ≤ result }
{
    let reserved = proxy.reserved(session) as u64;
    reserved.saturating_add(proxy.held(session))
}

/// Returns how many bytes a request of this number of commands takes, beside those of its keys and its block, as far as 64 bits count.
pub fn request_room(commands: usize) -> u64
    ensures { result ≡ min (request_room commands) (2 ^ 64 - 1) }
{
    let commands = commands as u64;
    REQUEST_ROOM.saturating_add(commands.saturating_mul(COMMAND_ROOM + PENDING_ROOM))
}

/// Returns whether the next request of a session, for which `kept` bytes are kept, may be taken: with it, no more than `most` bytes are. It is true
/// if no request has arrived whole. A request of one command needs no room if no other is unanswered: its data block goes to the link, and
/// the memory of the block is free again.
///
/// A key has a byte and a space in front, and a flush has a command for each server, so what is reserved bounds the commands. They are counted
/// only if that bound does not fit.
pub fn may_take(proxy: &Proxy, session: u64, kept: u64, most: u64) -> bool {
    let commands = proxy.reserved(session) / 2 + SERVER_LIMIT;
    if kept.saturating_add(request_room(commands)) <= most {
        return true;
    }
    let need = need_to_take(proxy, session, kept);
    !proxy.ready(session) || need.is_none_or(|need| need <= most)
}

/// Returns whether the next answer of a session may be emitted: no more than `answer` bytes are kept for its request. It is true if no answer is known. It
/// needs no room: it takes the place of its replies, and a client that gets no more room must be able to free what it keeps.
pub fn may_emit(proxy: &Proxy, session: u64, answer: u64) -> bool {
    proxy.held_by_oldest(session) <= answer || !proxy.has_answer(session)
}

/// Returns how many of `bytes` bytes may be read of a session: all of them if no more than `most` are kept then, else those for which memory is
/// reserved.
pub fn readable(proxy: &Proxy, session: u64, bytes: usize, most: u64) -> usize
    ensures { result ≤ bytes }
{
    let room = most.saturating_sub(kept_for(proxy, session));
    proxy.readable(session, bytes, room as usize)
}

/// Returns whether the next answer of a session is known, and less is unsent than the mark.
fn emits_next(proxy: &Proxy, session: u64) -> bool {
    proxy.has_answer(session) && proxy.output(session).len() < UNSENT_MARK
}

/// Returns how many bytes are kept for a session once its next request is taken, if that needs room.
fn need_to_take(proxy: &Proxy, session: u64, kept: u64) -> Option<u64> {
    let commands = proxy.next_commands(session);
    let is_small = proxy.unanswered(session) == 0 && commands <= 1;
    (!is_small).then_some(kept.saturating_add(request_room(commands)))
}

/// Returns how many bytes would have to be kept for a session so that its pump can go on, if that is more than `most`: to take its next request, else to
/// read `bytes` bytes. A pump that has not ended by [`Pumped::Again`] lacks nothing, nor does one whose next answer is emitted first.
pub fn shortage(pump: Pumped, proxy: &Proxy, session: u64, bytes: usize, most: u64) -> Option<u64>
    ensures { IfSome result (λ need. (pump ≡ Pumped.Again) × (most < need)) }
{
    if pump != Pumped::Again || emits_next(proxy, session) {
        return None;
    }
    let kept = kept_for(proxy, session);
    let need = if proxy.ready(session) {
        need_to_take(proxy, session, kept)
    } else if readable(proxy, session, bytes, most) > 0 {
        None
    } else {
        Some(kept.saturating_add(proxy.growth(session, bytes) as u64))
    };
    match need {
        Some(need) if need > most => Some(need),
        _ => None,
    }
}
