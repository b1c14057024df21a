//! The high-water marks at which a session's turns wait, to the byte.

use crate::pools::{ONE, pool};
use mc_proxy::{
    Emit, LINK_MARK, LinkStep, MAX_UNANSWERED, Proxy, ProxyError, SessionTurn, UNSENT_MARK,
};
use mc_server_tests::with_value;
use std::test::Fail;

const GET: &[u8] = b"get a\r\n";

/// A value of 1,048,576 bytes: a set of it has 1,048,597 bytes, and an answer 1,048,602.
const SIXTEENS: usize = 65_536;

/// The result of the turn after a request.
fn ask(proxy: &mut Proxy, request: &[u8]) -> Result<SessionTurn, ProxyError> {
    proxy.feed(0, request)?;
    proxy.turn(0)
}

/// Whether a request is taken this number of times in sequence.
fn is_taken(proxy: &mut Proxy, request: &[u8], times: usize) -> Result<bool, ProxyError> {
    let mut is_so = true;
    for _ in 0..times {
        is_so &= ask(proxy, request)? == SessionTurn::Took;
    }
    Ok(is_so)
}

/// Whether a server's bytes are taken as a reply.
fn is_reply(proxy: &mut Proxy, reply: &[u8]) -> Result<bool, ProxyError> {
    proxy.link_feed(0, reply)?;
    Ok(proxy.link_turn(0)? == LinkStep::Took)
}

/// The result of the turn after this number of bytes were sent to the client.
fn turn_after(proxy: &mut Proxy, sent: usize) -> Result<SessionTurn, ProxyError> {
    proxy.taken_out(0, sent.min(proxy.output(0).len()));
    proxy.turn(0)
}

/// The result of the turn after this number of bytes were sent to the server.
fn turn_after_link(proxy: &mut Proxy, sent: usize) -> Result<SessionTurn, ProxyError> {
    proxy.link_taken_out(0, sent.min(proxy.link_output(0).len()));
    proxy.turn(0)
}

/// 1,024 requests are unanswered: the next one waits until an answer is emitted.
fn unanswered(proxy: &mut Proxy) -> Result<bool, ProxyError> {
    let are_taken = is_taken(proxy, GET, MAX_UNANSWERED)?;
    let waits = ask(proxy, GET)? == SessionTurn::Waiting;
    let still = is_reply(proxy, b"END\r\n")? && proxy.turn(0)? == SessionTurn::Waiting;
    let is_out = proxy.emit(0)? == Emit::Done && proxy.output(0) == b"END\r\n".as_slice();
    let then = proxy.turn(0)? == SessionTurn::Took && proxy.turn(0)? == SessionTurn::Idle;
    Ok(are_taken && waits && still && is_out && then)
}

/// Eight sets are unsent, 168 bytes more than the mark: the request after them waits until 169 are sent.
fn unsent_on_a_link(proxy: &mut Proxy, set: &[u8]) -> Result<bool, ProxyError> {
    let are_taken = is_taken(proxy, set, 8)? && proxy.link_output(0).len() == LINK_MARK + 168;
    let waits = ask(proxy, GET)? == SessionTurn::Waiting;
    let still = turn_after_link(proxy, 168)? == SessionTurn::Waiting;
    let then = turn_after_link(proxy, 1)? == SessionTurn::Took;
    Ok(are_taken && waits && still && then)
}

/// Four answers are unsent, 104 bytes more than the mark: the next request waits until 105 are sent.
fn unsent_to_a_client(proxy: &mut Proxy, answer: &[u8]) -> Result<bool, ProxyError> {
    let mut are_out = true;
    for _ in 0..4 {
        let is_asked = is_taken(proxy, GET, 1)?;
        are_out &= is_asked && is_reply(proxy, answer)? && proxy.emit(0)? == Emit::Done;
    }
    let are_all = are_out && proxy.output(0).len() == UNSENT_MARK + 104;
    let waits = ask(proxy, GET)? == SessionTurn::Waiting;
    let still = turn_after(proxy, 104)? == SessionTurn::Waiting;
    let then = turn_after(proxy, 1)? == SessionTurn::Took;
    Ok(are_all && waits && still && then)
}

#[test]
fn marks_hold_requests_up(rt: HostRuntime) -> Result<(), Fail> {
    let alloc = rt.alloc();
    let set = with_value(alloc, b"set a 0 0 1048576\r\n", SIXTEENS, b"\r\n")?;
    let answer = with_value(alloc, b"VALUE a 0 1048576\r\n", SIXTEENS, b"\r\nEND\r\n")?;
    let by_count = unanswered(&mut pool(alloc, &ONE)?)?;
    let by_link = unsent_on_a_link(&mut pool(alloc, &ONE)?, &set)?;
    let by_client = unsent_to_a_client(&mut pool(alloc, &ONE)?, &answer)?;
    assert!(rt; by_count && by_link && by_client);
    Ok(())
}
