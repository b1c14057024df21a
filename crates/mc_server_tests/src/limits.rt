//! Turns whose answers are within a limit.

use crate::servers::{MOMENT, WIDE, new_server};
use mc_server::Limited::{self, Refused, Turned};
use mc_server::Turn::{Idle, Took};
use mc_server::{AnswerLimit, Server};
use mc_store::Store;
use std::test::Fail;

/// The limit of each turn, and what the turn then does: a set, and a get of two keys, one of which is stored with a value of
/// 5 bytes.
const TURNS: [(usize, Limited); 5] = [
    (1_023, Refused),
    (1_024, Turned(Took)),
    (2_052, Refused),
    (2_053, Turned(Took)),
    (0, Turned(Idle)),
];

/// Whether each turn of a connection does what is expected.
fn are_limited<S: Store + Drop>(server: &mut Server<S>, number: u64) -> Result<bool, Fail> {
    let mut are_so = true;
    for (bytes, limited) in TURNS {
        are_so &= server.turn_within(number, MOMENT, AnswerLimit { bytes })? == limited;
    }
    Ok(are_so)
}

/// A request is refused below its bound, and taken at it.
#[test]
fn answers_are_within_a_limit(rt: HostRuntime) -> Result<(), Fail> {
    let mut server = new_server(rt.alloc(), WIDE)?;
    let number = server.admit()?;
    server.feed(number, b"set a 0 0 5\r\nvalue\r\nget a b\r\n")?;
    let are_limited = are_limited(&mut server, number)?;
    let answers = b"STORED\r\nVALUE a 0 5\r\nvalue\r\nEND\r\n".as_slice();
    assert!(rt; are_limited && server.output(number) == answers);
    Ok(())
}
