//! The pumps of a proxy between streams in memory, its clients' and its server's, which move few bytes a call, block, are
//! interrupted and fail.

use crate::pools::{ONE, pool};
use mc_proxy::Proxy;
use mc_proxy_pump::{ClientTally, Pumped, pump_client, pump_link};
use mc_server::Server;
use mc_server_tests::Call::{Fails, Moves};
use mc_server_tests::{Call, MANY, MOMENT, MeagreStore, SCRIPTS, Sides, Stream, WIDE, new_server};
use mc_stream::IoStats;
use std::alloc::{AllocError, Global};
use std::test::Fail;

/// The bytes that a client sends, and the answer to each of its requests, with whether that request is sent to a server.
struct Exchange {
    sent: &'static [u8],
    answers: &'static [(&'static [u8], bool)],
}

const EXCHANGES: [Exchange; 3] = [
    Exchange {
        sent: b"set a 0 0 1\r\nx\r\nget a\r\n",
        answers: &[
            (b"STORED\r\n", true),
            (b"VALUE a 0 1\r\nx\r\nEND\r\n", true),
        ],
    },
    Exchange {
        sent: b"mg b v q k\r\nms b 2 F7 q O1\r\nxy\r\nmg b v q k\r\nmd c q\r\nmn\r\nget b\r\n",
        answers: &[
            (b"", true),
            (b"", true),
            (b"VA 2 kb\r\nxy\r\n", true),
            (b"", true),
            (b"MN\r\n", false),
            (b"VALUE b 7 2\r\nxy\r\nEND\r\n", true),
        ],
    },
    Exchange {
        sent: b"add a 0 0 1\r\nx\r\nadd a 0 0 1\r\ny\r\nappend a 9 9 1\r\nz\r\nreplace b 0 0 1\r\ny\r\nget a\r\ndelete a 0\r\ndelete a\r\n",
        answers: &[
            (b"STORED\r\n", true),
            (b"NOT_STORED\r\n", true),
            (b"STORED\r\n", true),
            (b"NOT_STORED\r\n", true),
            (b"VALUE a 0 2\r\nxz\r\nEND\r\n", true),
            (b"DELETED\r\n", true),
            (b"NOT_FOUND\r\n", true),
        ],
    },
];

/// The most requests of an exchange.
const REQUESTS: usize = 7;

/// The bytes that a client is sent if the first `known` of its requests were answered, and the link was lost then.
fn answers_until(alloc: Global, exchange: &Exchange, known: usize) -> Result<Vec<u8>, AllocError> {
    let mut answers = Vec::new(alloc);
    for (at, (answer, is_sent)) in exchange.answers.iter().enumerate() {
        let is_lost = *is_sent && at >= known;
        let line = if is_lost {
            b"SERVER_ERROR link lost\r\n"
        } else {
            *answer
        };
        answers.extend_from_slice(line)?;
    }
    Ok(answers)
}

/// Whether a client was sent its answers, or from some request on the line of a lost link.
fn are_answers(alloc: Global, exchange: &Exchange, taken: &[u8]) -> Result<bool, AllocError> {
    for known in 0..=REQUESTS {
        if answers_until(alloc, exchange, known)?.as_slice() == taken {
            return Ok(true);
        }
    }
    Ok(false)
}

/// A proxy over one server, and the stream between the two.
#[derive(Drop)]
struct Pool {
    proxy: Proxy,
    link: Stream,
    server: Server<MeagreStore>,
    /// The number of the stream's connection.
    number: u64,
}

fn new_pool(alloc: Global, sides: Sides) -> Result<Pool, Fail> {
    let mut server = new_server(alloc, WIDE)?;
    let number = server.admit()?;
    Ok(Pool {
        proxy: pool(alloc, &ONE)?,
        link: Stream::open(alloc, sides),
        server,
        number,
    })
}

/// Brings a lost link up, over a new stream and a new connection.
fn mend(alloc: Global, pool: &mut Pool, sides: Sides) -> Result<(), Fail> {
    if !pool.proxy.is_up(0) {
        pool.server.close(pool.number)?;
        pool.number = pool.server.admit()?;
        pool.link = Stream::open(alloc, sides);
        pool.proxy.back(0)?;
    }
    Ok(())
}

/// The server takes the bytes that were written to it, and its answers can be read.
fn serve(server: &mut Server<MeagreStore>, number: u64, link: &mut Stream) -> Result<(), Fail> {
    server.feed(number, link.sink.taken.as_slice())?;
    link.sink.taken.clear();
    for _ in 0..REQUESTS {
        server.turn(number, MOMENT)?;
    }
    link.source.bytes.extend_from_slice(server.output(number))?;
    server.taken_out(number, server.output(number).len());
    Ok(())
}

/// Pumps the link, and loses it if that fails, or if the server's input has ended.
fn pump_server(proxy: &mut Proxy, link: &mut Stream, woken: &mut Vec<u64>) -> Result<(), Fail> {
    let mut piece = [0u8; 16];
    let Stream { source, sink } = link;
    let pumped = pump_link(
        proxy,
        0,
        source,
        sink,
        &mut piece,
        woken,
        &mut IoStats::new(),
    );
    if (pumped == Pumped::Failed || pumped == Pumped::Done) && proxy.is_up(0) {
        proxy.lost(0)?;
    }
    Ok(())
}

/// Pumps a session and the link in turn until the session is done or failed, and returns which.
fn pumped(
    pool: &mut Pool,
    session: u64,
    client: &mut Stream,
    woken: &mut Vec<u64>,
) -> Result<Pumped, Fail> {
    let mut ended = false;
    let mut piece = [0u8; 16];
    for _ in 0..MANY {
        let Stream { source, sink } = client;
        let last = pump_client(
            &mut pool.proxy,
            session,
            &mut ended,
            source,
            sink,
            &mut piece,
            &mut ClientTally::new(false),
        );
        if last == Pumped::Done || last == Pumped::Failed {
            return Ok(last);
        }
        pump_server(&mut pool.proxy, &mut pool.link, woken)?;
        serve(&mut pool.server, pool.number, &mut pool.link)?;
    }
    Ok(Pumped::Again)
}

/// Plays an exchange in a session of its own, whose client then goes. It returns the last pump, the calls that were made on
/// the client's stream, and the bytes that the client was sent.
fn play(
    alloc: Global,
    pool: &mut Pool,
    sent: &[u8],
    sides: Sides,
) -> Result<(Pumped, Sides, Vec<u8>), Fail> {
    let session = pool.proxy.admit()?;
    let mut client = Stream::new(alloc, sent, sides)?;
    let mut woken = Vec::new(alloc);
    let last = pumped(pool, session, &mut client, &mut woken)?;
    pool.proxy.gone(session)?;
    Ok((last, client.sides(), client.sink.taken))
}

/// The calls on the client's stream, if the client gets all its answers.
fn calls_of(
    alloc: Global,
    pool: &mut Pool,
    exchange: &Exchange,
    sides: Sides,
) -> Result<Option<Sides>, Fail> {
    let (last, made, taken) = play(alloc, pool, exchange.sent, sides)?;
    let is_whole = last == Pumped::Done
        && taken.as_slice() == answers_until(alloc, exchange, REQUESTS)?.as_slice();
    Ok(is_whole.then_some(made))
}

/// A way to end a stream: whether the stream is the link's, whether a write ends it, and how the call goes.
type End = (bool, bool, Call);

/// Each read fails, and each write fails or takes nothing; and the server's end of the link is closed.
const ENDS: [End; 7] = [
    (false, false, Fails),
    (false, true, Fails),
    (false, true, Moves(0)),
    (true, false, Fails),
    (true, false, Moves(0)),
    (true, true, Fails),
    (true, true, Moves(0)),
];

/// How the calls on a client's stream and on the link's go.
#[derive(Clone, Copy)]
struct Streams {
    client: Sides,
    link: Sides,
}

impl Streams {
    /// These streams, with one call replaced, which ends its stream so.
    fn with(self, (is_link, is_write, call): End, number: usize) -> Self {
        if is_link {
            let link = self.link.with(is_write, number, call);
            Streams { link, ..self }
        } else {
            let client = self.client.with(is_write, number, call);
            Streams { client, ..self }
        }
    }

    /// How many calls were made of the side of such an end.
    fn made(self, (is_link, is_write, _): End) -> usize {
        let sides = if is_link { self.link } else { self.client };
        sides.made(is_write)
    }
}

/// Whether an exchange goes right when one call ends a stream. If that is the client's, the client was sent a beginning of its
/// answers. If it is the link's, the client was sent for each request the answer, or the line of a lost link. The next client
/// of the same proxy gets all its answers, once the link is up.
fn ends_alone(
    alloc: Global,
    exchange: &Exchange,
    calm: Streams,
    end: End,
    number: usize,
) -> Result<bool, Fail> {
    let streams = calm.with(end, number);
    let mut pool = new_pool(alloc, streams.link)?;
    let is_so = ends_so(alloc, &mut pool, exchange, streams.client, end)?;
    Ok(is_so && serves_on(alloc, &mut pool, calm)?)
}

/// Whether a client whose stream or whose proxy's link ends was sent what it should be.
fn ends_so(
    alloc: Global,
    pool: &mut Pool,
    exchange: &Exchange,
    sides: Sides,
    (is_link, _, _): End,
) -> Result<bool, Fail> {
    let (last, _, taken) = play(alloc, pool, exchange.sent, sides)?;
    if is_link {
        return Ok(last == Pumped::Done && are_answers(alloc, exchange, &taken)?);
    }
    let answers = answers_until(alloc, exchange, REQUESTS)?;
    Ok(last == Pumped::Failed && answers.starts_with(&taken))
}

/// Whether the next client gets all its answers, once the link is up.
fn serves_on(alloc: Global, pool: &mut Pool, calm: Streams) -> Result<bool, Fail> {
    mend(alloc, pool, calm.link)?;
    let [first, _, _] = &EXCHANGES;
    Ok(calls_of(alloc, pool, first, calm.client)?.is_some())
}

/// The calls on both streams if no call ends one, if the client gets all its answers.
fn calm_calls(alloc: Global, exchange: &Exchange, calm: Streams) -> Result<Option<Streams>, Fail> {
    let mut pool = new_pool(alloc, calm.link)?;
    let client = calls_of(alloc, &mut pool, exchange, calm.client)?;
    let link = pool.link.sides();
    Ok(client.map(|client| Streams { client, link }))
}

/// Whether an exchange gets all its answers if no call ends a stream, and goes right whichever of its calls does.
fn is_pumped(alloc: Global, exchange: &Exchange, calm: Streams) -> Result<bool, Fail> {
    let Some(made) = calm_calls(alloc, exchange, calm)? else {
        return Ok(false);
    };
    let mut is_so = true;
    for end in ENDS {
        for number in 0..made.made(end) {
            is_so &= ends_alone(alloc, exchange, calm, end, number)?;
        }
    }
    Ok(is_so)
}

/// The client's stream follows each pair of scripts, and the link's another.
#[test]
fn proxy_pump_never_works(rt: HostRuntime) -> Result<(), Fail> {
    for exchange in &EXCHANGES {
        for (client, link) in SCRIPTS.iter().zip(SCRIPTS.iter().rev()) {
            let calm = Streams {
                client: Sides::new(*client),
                link: Sides::new(*link),
            };
            assert!(rt; is_pumped(rt.alloc(), exchange, calm)?);
        }
    }
    Ok(())
}

/// Each call moves all bytes.
const WHOLE: (&[Call], &[Call]) = (&[Moves(usize::MAX)], &[Moves(usize::MAX)]);

/// Pumps a session while no more than `most` bytes may be kept for it. It returns how the pump ended, and what it lacks.
fn pumped_within(
    proxy: &mut Proxy,
    session: u64,
    client: &mut Stream,
    most: u64,
) -> (Pumped, Option<u64>) {
    let Stream { source, sink } = client;
    let mut tally = ClientTally::new(false);
    tally.most = most;
    let pumped = pump_client(
        proxy,
        session,
        &mut false,
        source,
        sink,
        &mut [0u8; 16],
        &mut tally,
    );
    (pumped, tally.short)
}

/// The keys of a get whose answer is too large to be copied without room.
const LARGE_KEYS: usize = 5;

/// What an answer shows of an item with a large value.
fn large_item(alloc: Global) -> Result<Vec<u8>, AllocError> {
    let mut item = Vec::from_slice(alloc, b"VALUE a 0 1000000\r\n")?;
    for _ in 0..1_000_000 {
        item.push(b'x')?;
    }
    item.extend_from_slice(b"\r\n")?;
    Ok(item)
}

/// Some items, and the end of an answer.
fn answer_of(alloc: Global, item: &[u8], count: usize) -> Result<Vec<u8>, AllocError> {
    let mut answer = Vec::new(alloc);
    for _ in 0..count {
        answer.extend_from_slice(item)?;
    }
    answer.extend_from_slice(b"END\r\n")?;
    Ok(answer)
}

/// Whether a client is read only if there is room for a read, and a large answer is emitted though there is no room: it takes the place of its replies.
fn waits_for_room(alloc: Global) -> Result<bool, Fail> {
    let mut pool = new_pool(alloc, Sides::new(WHOLE))?;
    mend(alloc, &mut pool, Sides::new(WHOLE))?;
    let session = pool.proxy.admit()?;
    let mut client = Stream::open(alloc, Sides::new(WHOLE));
    client.source.bytes.extend_from_slice(b"get a a a a a\r\n")?;
    let unread = pumped_within(&mut pool.proxy, session, &mut client, 15);
    let mut is_so = unread == (Pumped::Again, Some(16)) && !pool.proxy.ready(session);
    let taken = pumped_within(&mut pool.proxy, session, &mut client, u64::MAX);
    is_so &= taken == (Pumped::Blocked, None) && pool.proxy.unanswered(session) == 1;
    let item = large_item(alloc)?;
    let reply = answer_of(alloc, item.as_slice(), 1)?;
    for _ in 0..LARGE_KEYS {
        pool.proxy.link_feed(0, reply.as_slice())?;
        pool.proxy.link_turn(0)?;
    }
    pumped_within(&mut pool.proxy, session, &mut client, 0);
    let answer = answer_of(alloc, item.as_slice(), LARGE_KEYS)?;
    Ok(is_so && client.sink.taken.as_slice() == answer.as_slice())
}

#[test]
fn a_client_waits_for_room(rt: HostRuntime) -> Result<(), Fail> {
    assert!(rt; waits_for_room(rt.alloc())?);
    Ok(())
}
