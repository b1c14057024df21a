//! A pump that sends large values to a stream in memory from where they are stored.

use crate::fixture_texts::with_value;
use crate::meagre::MeagreStore;
use crate::pumps::{ALL, SIXTEENS, server_with_value};
use crate::servers::{MOMENT, WIDE, new_server};
use crate::streams::Call::{Blocks, Fails, Interrupts, Moves};
use crate::streams::{Call, MANY, Sides, Stream};
use mc_pump::{Pumped, Watch, pump_gathering};
use mc_server::{AnswerLimit, Server, ServerError};
use std::alloc::Global;
use std::test::Fail;

/// Pumps a connection until it is done or failed. It returns which, and what the watch noted.
fn pumped(server: &mut Server<MeagreStore>, number: u64, stream: &mut Stream) -> (Pumped, Watch) {
    let mut ended = false;
    let mut watch = Watch::new(AnswerLimit::none());
    let mut piece = [0u8; 64];
    let Stream { source, sink } = stream;
    for _ in 0..MANY {
        let last = pump_gathering(
            server, number, &mut ended, source, sink, &mut piece, MOMENT, &mut watch,
        );
        if last == Pumped::Done || last == Pumped::Failed {
            return (last, watch);
        }
    }
    (Pumped::Again, watch)
}

/// How the writes to a client go, repeatedly, that is shown a value of 500,000 bytes, with 18 bytes before it and 7 after it. They take all,
/// a part of the line, the line, a part of the value, all except the end, a part of the end, or nothing.
const WRITES: [&[Call]; 11] = [
    ALL,
    &[Moves(10), Moves(usize::MAX)],
    &[Moves(3), Moves(2), Moves(18), Moves(usize::MAX)],
    &[Moves(5), Moves(300_000)],
    &[Moves(300_000)],
    &[Moves(500_023), Moves(usize::MAX)],
    &[Moves(500_027), Moves(usize::MAX)],
    &[Moves(0), Moves(usize::MAX), Moves(usize::MAX)],
    &[Blocks, Moves(usize::MAX)],
    &[Interrupts, Moves(100_000), Blocks],
    &[Blocks, Blocks, Moves(7), Interrupts, Moves(usize::MAX)],
];

/// A miss, and three hits, one of which is of two keys.
const ASKED: &[u8] = b"get b\r\nget a\r\nget a b\r\nget a\r\n";

/// Whether a client whose writes go so is answered this.
fn is_answered(alloc: Global, writes: &'static [Call], answers: &[u8]) -> Result<bool, Fail> {
    let mut stream = Stream::new(alloc, ASKED, Sides::new((ALL, writes)))?;
    let mut server = server_with_value(alloc)?;
    let number = server.admit()?;
    let (last, watch) = pumped(&mut server, number, &mut stream);
    let is_counted = watch.tally.requests == 4 && watch.tally.written == answers.len() as u64;
    Ok(last == Pumped::Done && is_counted && stream.sink.taken.as_slice() == answers)
}

/// However much each call takes, a client gets its whole answers.
#[test]
fn large_values_are_shown_whole(rt: HostRuntime) -> Result<(), Fail> {
    let alloc = rt.alloc();
    let shown = with_value(alloc, b"VALUE a 0 500000\r\n", SIXTEENS, b"\r\nEND\r\n")?;
    let mut answers = b"END\r\n".to_vec(alloc)?;
    answers.extend_from_slice(&shown.repeat(alloc, 3)?)?;
    for writes in WRITES {
        assert!(rt; is_answered(alloc, writes, answers.as_slice())?);
    }
    Ok(())
}

/// How a value is set, how many times 16 bytes it then has, and how many writes show it twice. A value of 65,535 bytes is copied, and both
/// answers go by one write; one of 65,536 goes by a write of its own each time.
const SIZES: [(&[u8], usize, usize); 2] = [
    (b"set a 0 0 65535\r\nfedcba987654321", 4_095, 1),
    (b"set a 0 0 65536\r\n", 4_096, 2),
];

/// Opens a connection, sends a request, drops the answer, and returns the connection's number.
fn number_after(server: &mut Server<MeagreStore>, request: &[u8]) -> Result<u64, ServerError> {
    let number = server.admit()?;
    server.feed(number, request)?;
    server.turn(number, MOMENT)?;
    server.taken_out(number, server.output(number).len());
    Ok(number)
}

/// How many writes show a value twice that is set so.
fn writes_of(alloc: Global, set: &[u8], sixteens: usize) -> Result<usize, Fail> {
    let request = with_value(alloc, set, sixteens, b"\r\n")?;
    let mut stream = Stream::new(alloc, b"get a\r\nget a\r\n", Sides::new((ALL, ALL)))?;
    let mut server = new_server(alloc, WIDE)?;
    let number = number_after(&mut server, &request)?;
    let (last, _) = pumped(&mut server, number, &mut stream);
    let made = stream.sink.calls.made;
    Ok(if last == Pumped::Done { made } else { 0 })
}

/// A value of 64 KiB is large, and no smaller one is.
#[test]
fn values_are_large_from_a_size_on(rt: HostRuntime) -> Result<(), Fail> {
    for (set, sixteens, writes) in SIZES {
        assert!(rt; writes_of(rt.alloc(), set, sixteens)? == writes);
    }
    Ok(())
}

/// Whether a stream's connection ends so, with these bytes written to it.
fn ends_so(
    server: &mut Server<MeagreStore>,
    stream: &mut Stream,
    last: Pumped,
    answer: &[u8],
) -> Result<bool, ServerError> {
    let number = server.admit()?;
    let (pumped, _) = pumped(server, number, stream);
    server.close(number)?;
    Ok(pumped == last && stream.sink.taken.as_slice() == answer)
}

/// If the stream of a client fails while it is shown a large value, only its connection ends, and its requests before that are done.
#[test]
fn a_failing_stream_ends_one_connection(rt: HostRuntime) -> Result<(), Fail> {
    let alloc = rt.alloc();
    let asked = b"set b 0 0 1\r\nx\r\nget a\r\n";
    let mut failing = Stream::new(alloc, asked, Sides::new((ALL, &[Fails])))?;
    let mut later = Stream::new(alloc, b"get b\r\n", Sides::new((ALL, ALL)))?;
    let mut server = server_with_value(alloc)?;
    let has_failed = ends_so(&mut server, &mut failing, Pumped::Failed, b"")?;
    let answer = b"VALUE b 0 1\r\nx\r\nEND\r\n";
    let is_done = ends_so(&mut server, &mut later, Pumped::Done, answer)?;
    assert!(rt; has_failed && is_done);
    Ok(())
}
