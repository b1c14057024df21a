//! A pump between a server and streams in memory, which move few bytes a call, block, are interrupted and fail.

use crate::fixture_texts::with_value;
use crate::meagre::MeagreStore;
use crate::servers::{MOMENT, WIDE, new_server};
use crate::streams::Call::{Blocks, Fails, Interrupts, Moves};
use crate::streams::{Call, Calls, MANY, SCRIPTS, Sides, Stream};
use mc_pump::{MAX_ROUNDS, Pumped, QUANTUM, UNSENT_MARK, Want, Watch, pump};
use mc_server::{AnswerLimit, Server, ServerError};
use std::alloc::Global;
use std::test::Fail;

/// The bytes that a client sends, and its answers.
struct Exchange {
    sent: &'static [u8],
    answers: &'static [u8],
}

const EXCHANGES: [Exchange; 2] = [
    Exchange {
        sent: b"set a 0 0 1\r\nx\r\nget a\r\n",
        answers: b"STORED\r\nVALUE a 0 1\r\nx\r\nEND\r\n",
    },
    Exchange {
        sent: b"add a 0 0 1\r\nx\r\nadd a 0 0 1\r\ny\r\nappend a 9 9 1\r\nz\r\nreplace b 0 0 1\r\ny\r\nget a\r\ndelete a 0\r\ndelete a\r\n",
        answers: b"STORED\r\nNOT_STORED\r\nSTORED\r\nNOT_STORED\r\nVALUE a 0 2\r\nxz\r\nEND\r\nDELETED\r\nNOT_FOUND\r\n",
    },
];

/// An exchange of one connection that stores a key, and of a later one that reads it.
const OLDER: Exchange = Exchange {
    sent: b"set older 5 0 5\r\nfirst\r\n",
    answers: b"STORED\r\n",
};

const KEPT: Exchange = Exchange {
    sent: b"get older\r\n",
    answers: b"VALUE older 5 5\r\nfirst\r\nEND\r\n",
};

/// Pumps a connection once, by pieces of 16 bytes.
fn pump_once(
    server: &mut Server<MeagreStore>,
    number: u64,
    ended: &mut bool,
    stream: &mut Stream,
    watch: &mut Watch,
) -> Pumped {
    let mut piece = [0u8; 16];
    let Stream { source, sink } = stream;
    pump(
        server, number, ended, source, sink, &mut piece, MOMENT, watch,
    )
}

/// Pumps a connection once, by pieces of 2,048 bytes.
fn pump_wide(
    server: &mut Server<MeagreStore>,
    number: u64,
    ended: &mut bool,
    stream: &mut Stream,
    watch: &mut Watch,
) -> Pumped {
    let mut piece = [0u8; 2_048];
    let Stream { source, sink } = stream;
    pump(
        server, number, ended, source, sink, &mut piece, MOMENT, watch,
    )
}

/// Pumps a connection until it is done or failed, by pieces of 2,048 bytes if it is wide, otherwise of 16, and returns which.
fn pumped_by(
    server: &mut Server<MeagreStore>,
    number: u64,
    stream: &mut Stream,
    is_wide: bool,
) -> Pumped {
    let mut ended = false;
    let mut watch = Watch::new(AnswerLimit::none());
    for _ in 0..MANY {
        let last = if is_wide {
            pump_wide(server, number, &mut ended, stream, &mut watch)
        } else {
            pump_once(server, number, &mut ended, stream, &mut watch)
        };
        if last == Pumped::Done || last == Pumped::Failed {
            return last;
        }
    }
    Pumped::Again
}

/// Pumps a connection by pieces of 16 bytes until it is done or failed, and returns which.
fn pumped(server: &mut Server<MeagreStore>, number: u64, stream: &mut Stream) -> Pumped {
    pumped_by(server, number, stream, false)
}

/// Plays a text on a connection of its own, which is then closed. It returns the last pump, the calls that were made, and the bytes that the
/// client was sent.
fn play(
    alloc: Global,
    server: &mut Server<MeagreStore>,
    sent: &[u8],
    sides: Sides,
) -> Result<(Pumped, Sides, Vec<u8>), Fail> {
    let mut stream = Stream::new(alloc, sent, sides)?;
    let last = pumped_alone(server, &mut stream)?;
    Ok((last, stream.sides(), stream.sink.taken))
}

/// Pumps a connection of its own, which is then closed, and returns the last pump.
fn pumped_alone(
    server: &mut Server<MeagreStore>,
    stream: &mut Stream,
) -> Result<Pumped, ServerError> {
    let number = server.admit()?;
    let last = pumped(server, number, stream);
    server.close(number)?;
    Ok(last)
}

/// The calls of an exchange, if the server answers all of it.
fn calls_of(
    alloc: Global,
    server: &mut Server<MeagreStore>,
    exchange: &Exchange,
    calm: Sides,
) -> Result<Option<Sides>, Fail> {
    let (last, made, taken) = play(alloc, server, exchange.sent, calm)?;
    let is_whole = last == Pumped::Done && taken.as_slice() == exchange.answers;
    Ok(is_whole.then_some(made))
}

/// Plays an exchange to a server that stores an older key, with calls one of which ends its connection. The exchange must fail, with correct
/// bytes sent until then. The server must still store the older key, and its next connection, which is sent the first exchange, must get all
/// its answers. Returns whether all this holds.
fn fails_alone(
    alloc: Global,
    exchange: &Exchange,
    calm: Sides,
    sides: Sides,
) -> Result<bool, Fail> {
    let [next, _] = &EXCHANGES;
    let mut server = new_server(alloc, WIDE)?;
    let is_stored = is_whole(alloc, &mut server, &OLDER, calm)?;
    let has_failed = has_failed(alloc, &mut server, exchange, sides)?;
    let is_kept = is_whole(alloc, &mut server, &KEPT, calm)?;
    let is_served = is_whole(alloc, &mut server, next, calm)?;
    Ok(is_stored && has_failed && is_kept && is_served)
}

/// Whether the server answers all of an exchange.
fn is_whole(
    alloc: Global,
    server: &mut Server<MeagreStore>,
    exchange: &Exchange,
    calm: Sides,
) -> Result<bool, Fail> {
    Ok(calls_of(alloc, server, exchange, calm)?.is_some())
}

/// Whether an exchange fails, with correct bytes sent until then.
fn has_failed(
    alloc: Global,
    server: &mut Server<MeagreStore>,
    exchange: &Exchange,
    sides: Sides,
) -> Result<bool, Fail> {
    let (failed, _, before) = play(alloc, server, exchange.sent, sides)?;
    Ok(failed == Pumped::Failed && exchange.answers.starts_with(before.as_slice()))
}

/// A way to end a connection: whether a write ends it, and how the call goes.
const ENDS: [(bool, Call); 3] = [(false, Fails), (true, Fails), (true, Moves(0))];

/// Whether an exchange gets all its answers, and fails alone whichever of its calls ends its connection.
fn is_pumped(alloc: Global, exchange: &Exchange, calm: Sides) -> Result<bool, Fail> {
    let Some(made) = calls_of(alloc, &mut new_server(alloc, WIDE)?, exchange, calm)? else {
        return Ok(false);
    };
    let mut is_so = true;
    for (is_write, call) in ENDS {
        for number in 0..made.made(is_write) {
            is_so &= fails_alone(alloc, exchange, calm, calm.with(is_write, number, call))?;
        }
    }
    Ok(is_so)
}

/// Each exchange gets all its answers under each pair of scripts. Then each single call of such a run ends the connection, a write alone
/// too. The items that an older connection stored stay, and the next connection of the server is answered as if nothing had happened.
#[test]
fn pump_never_works(rt: HostRuntime) -> Result<(), Fail> {
    for exchange in &EXCHANGES {
        for scripts in SCRIPTS {
            assert!(rt; is_pumped(rt.alloc(), exchange, Sides::new(scripts))?);
        }
    }
    Ok(())
}

/// Calls that move all bytes.
pub const ALL: &[Call] = &[Moves(usize::MAX)];

/// 500,000 bytes.
pub const SIXTEENS: usize = 31_250;

/// A server that stores a value of 500,000 bytes.
pub fn server_with_value(alloc: Global) -> Result<Server<MeagreStore>, Fail> {
    let mut server = new_server(alloc, WIDE)?;
    let stored = with_value(alloc, b"set a 0 0 500000\r\n", SIXTEENS, b"\r\n")?;
    play(
        alloc,
        &mut server,
        stored.as_slice(),
        Sides::new((ALL, ALL)),
    )?;
    Ok(server)
}

/// How many bytes are unsent after pumps, the last of which is the first that cannot go on.
fn unsent_after_pumps(server: &mut Server<MeagreStore>, number: u64, stream: &mut Stream) -> usize {
    let mut watch = Watch::new(AnswerLimit::none());
    for _ in 0..MANY {
        if pump_once(server, number, &mut false, stream, &mut watch) != Pumped::Again {
            break;
        }
    }
    server.output(number).len()
}

/// A client asks for a value of 500,000 bytes twenty times, and at first takes no byte. The ninth answer is beyond the high-water mark, so
/// that no tenth request is read.
#[test]
fn unsent_answers_stop_reads(rt: HostRuntime) -> Result<(), Fail> {
    let alloc = rt.alloc();
    let answer = with_value(alloc, b"VALUE a 0 500000\r\n", SIXTEENS, b"\r\nEND\r\n")?;
    let answers = answer.repeat(alloc, 20)?;
    let asked = b"get a\r\n".repeat(alloc, 20)?;
    let mut stream = Stream::new(alloc, &asked, Sides::new((&[Moves(7)], &[Blocks])))?;
    let mut server = server_with_value(alloc)?;
    let stops = stops_at(&mut server, &mut stream, answer.len())?;
    assert!(rt; stops && stream.sink.taken.as_slice() == answers.as_slice());
    Ok(())
}

/// Whether no more is read once nine answers of this many bytes are unsent, and all is done once the client takes them.
fn stops_at(
    server: &mut Server<MeagreStore>,
    stream: &mut Stream,
    answer: usize,
) -> Result<bool, ServerError> {
    let number = server.admit()?;
    let unsent = unsent_after_pumps(server, number, stream);
    let still = unsent_after_pumps(server, number, stream);
    let nine = answer.saturating_mul(9);
    let are_unsent = unsent == nine && still == nine && nine >= UNSENT_MARK;
    let is_stopped = are_unsent && stream.source.calls.made == 9;
    stream.sink.calls = Calls::new(&[Moves(100_000), Blocks]);
    Ok(is_stopped && pumped(server, number, stream) == Pumped::Done)
}

/// A pump of a client that always sends ends after its rounds, so that others are served.
#[test]
fn a_pump_ends_though_more_comes(rt: HostRuntime) -> Result<(), Fail> {
    let sides = Sides::new((&[Moves(1)], &[Moves(1)]));
    let mut stream = Stream::new(rt.alloc(), &[b'x'; 1_000], sides)?;
    let mut server = new_server(rt.alloc(), WIDE)?;
    let number = server.admit()?;
    let mut watch = Watch::new(AnswerLimit::none());
    let last = pump_once(&mut server, number, &mut false, &mut stream, &mut watch);
    assert!(rt; last == Pumped::Again && stream.source.calls.made == MAX_ROUNDS as usize);
    Ok(())
}

/// A request whose answer may be larger than the limit is not taken, nor any after it: those before it are served.
#[test]
fn larger_answers_fail_a_pump(rt: HostRuntime) -> Result<(), Fail> {
    let sent = b"get b\r\nget a\r\nset a 0 0 1\r\nx\r\n";
    let mut stream = Stream::new(rt.alloc(), sent, Sides::new((ALL, ALL)))?;
    let mut server = server_with_value(rt.alloc())?;
    let is_limited = is_limited(&mut server, &mut stream)?;
    assert!(rt; is_limited);
    Ok(())
}

/// Whether a pump with a limit of 500,000 bytes answers the first request alone, and fails at one whose answer may have 501,024.
fn is_limited(server: &mut Server<MeagreStore>, stream: &mut Stream) -> Result<bool, ServerError> {
    let number = server.admit()?;
    let mut watch = Watch::new(AnswerLimit { bytes: 500_000 });
    let last = pump_once(server, number, &mut false, stream, &mut watch);
    let is_refused = last == Pumped::Failed && server.bound(number)? == 501_024;
    let is_one = watch.tally.requests == 1 && server.output(number) == b"END\r\n".as_slice();
    Ok(is_refused && is_one)
}

/// A pump of a connection that may keep little does not read, or does not take a request, until there is room, and says for what.
#[test]
fn a_pump_waits_for_room(rt: HostRuntime) -> Result<(), Fail> {
    let mut stream = Stream::new(rt.alloc(), b"get b\r\nget a\r\n", Sides::new((ALL, ALL)))?;
    let mut server = server_with_value(rt.alloc())?;
    let waits = waits_for_room(&mut server, &mut stream)?;
    assert!(rt; waits);
    Ok(())
}

/// Whether a pump reads nothing with room for a byte, answers the first request alone with room for 100,000, and the second one with room for
/// 600,000.
fn waits_for_room(
    server: &mut Server<MeagreStore>,
    stream: &mut Stream,
) -> Result<bool, ServerError> {
    let number = server.admit()?;
    let mut watch = Watch::new(AnswerLimit::none());
    watch.most = 1;
    let unread = pump_once(server, number, &mut false, stream, &mut watch) == Pumped::Again;
    let is_unread = unread && watch.want == Some(Want::Read(16)) && stream.source.calls.made == 0;
    watch.most = 100_000;
    let untaken = pump_once(server, number, &mut false, stream, &mut watch) == Pumped::Again;
    let is_one = untaken && watch.want == Some(Want::Answer(501_024)) && watch.tally.requests == 1;
    watch.most = 600_000;
    let last = pump_once(server, number, &mut false, stream, &mut watch);
    let is_all = last != Pumped::Failed && watch.want.is_none() && watch.tally.requests == 2;
    Ok(is_unread && is_one && is_all)
}

/// How the reads of a large `set` and of a `get` after it go, and how many there are with the one that returns the end.
struct WideReads {
    reads: &'static [Call],
    made: usize,
}

const WIDE_READS: [WideReads; 3] = [
    WideReads {
        reads: ALL,
        made: 16,
    },
    WideReads {
        reads: &[Moves(20_000), Blocks, Moves(17_000), Interrupts, Moves(1)],
        made: 90,
    },
    WideReads {
        reads: &[Moves(1_500)],
        made: 335,
    },
];

/// Nine pieces of 2,048 bytes begin a block of 500,000. Then a read asks for as many bytes as have arrived: five more reads are enough.
/// However they are cut, the value is stored, and the bytes after it are answered.
#[test]
fn a_large_block_is_read_where_it_is_kept(rt: HostRuntime) -> Result<(), Fail> {
    let alloc = rt.alloc();
    let sent = with_value(alloc, b"set a 0 0 500000\r\n", SIXTEENS, b"\r\nget a\r\n")?;
    let head = b"STORED\r\nVALUE a 0 500000\r\n";
    let answers = with_value(alloc, head, SIXTEENS, b"\r\nEND\r\n")?;
    for case in &WIDE_READS {
        assert!(rt; is_read_so(alloc, case, &sent, &answers)?);
    }
    Ok(())
}

/// Whether a new server answers this to what is sent, in as many reads as the case has.
fn is_read_so(alloc: Global, case: &WideReads, sent: &[u8], answers: &[u8]) -> Result<bool, Fail> {
    let mut stream = Stream::new(alloc, sent, Sides::new((case.reads, ALL)))?;
    let mut server = new_server(alloc, WIDE)?;
    let number = server.admit()?;
    let last = pumped_by(&mut server, number, &mut stream, true);
    let is_answered = stream.sink.taken.as_slice() == answers;
    Ok(last == Pumped::Done && is_answered && stream.source.calls.made == case.made)
}

/// A pump takes no more turns once they have cost its quantum, though whole requests are pending. The next pump goes on.
#[test]
fn a_pump_ends_once_its_quantum_is_spent(rt: HostRuntime) -> Result<(), Fail> {
    let asked = b"mn\r\n".repeat(rt.alloc(), 2_000)?;
    let mut stream = Stream::new(rt.alloc(), &asked, Sides::new((ALL, ALL)))?;
    let mut server = new_server(rt.alloc(), WIDE)?;
    let number = server.admit()?;
    server.feed(number, b"mn\r\n")?;
    let mut watch = Watch::new(AnswerLimit::none());
    let last = pump_wide(&mut server, number, &mut false, &mut stream, &mut watch);
    let is_spent = watch.tally.requests == QUANTUM && server.ready(number)?;
    let is_done = pumped_by(&mut server, number, &mut stream, true) == Pumped::Done;
    assert!(rt; last == Pumped::Again && is_spent && is_done);
    assert!(rt; stream.sink.taken.len() == asked.len() + 4);
    Ok(())
}
