//! Sessions over links: dialogues of a proxy with its clients and its servers, step by step.
//!
//! A call that is refused memory is made again. So a dialogue goes the same way whichever allocation of it is refused, and
//! `tests/gate/refused.py` refuses each of them in turn.

use mc_proxy::LinkStep::{self, Idle, Strange, Took};
use mc_proxy::{Emit, Losses, Proxy, ProxyError, SessionTurn};
use mc_ring::{Address, Point, Ring, RingError};
use mc_server_tests::again;
use std::alloc::Global;
use std::test::Fail;

/// A step of a dialogue, with its expected result.
#[derive(Drop)]
enum Step {
    /// A client sends bytes, and its session takes exactly this number of requests.
    Asks(u64, &'static [u8], usize),
    /// Exactly these bytes are unsent to a server, and are sent.
    Sends(usize, &'static [u8]),
    /// A server's bytes arrive, one at a time, with a turn of the link after each; the last turn returns this.
    Hears(usize, &'static [u8], LinkStep),
    /// This number of answers are emitted, and no more are known. Then exactly these bytes are unsent to the client, and are
    /// sent.
    Tells(u64, usize, &'static [u8]),
    /// A link is lost, and these bytes were not sent.
    Loses(usize, &'static [u8]),
    /// A link comes up, in this generation.
    Returns(usize, u64),
    /// Whether a session is finished: it is closed to input, and all that was taken of it is answered.
    Ends(u64, bool),
    /// A client goes.
    Goes(u64),
    /// A client connects, under this number.
    Comes(u64),
    /// A server of this address joins at this place, and its link is up.
    Joins(&'static [u8], usize),
}

use Step::{Asks, Comes, Ends, Goes, Hears, Joins, Loses, Returns, Sends, Tells};

/// `a` belongs to the second server, `abc` and `b` to the first. Both links are up, and two clients are admitted.
const DIALOGUES: [&[Step]; 11] = [
    // two clients, each answered in the order of its keys and requests, though replies arrive in another
    &[
        Asks(0, b"get abc a\r\n", 1),
        Asks(1, b"get abc\r\nget a\r\n", 2),
        Asks(0, b"version\r\n", 1),
        Sends(0, b"get abc\r\nget abc\r\n"),
        Sends(1, b"get a\r\nget a\r\n"),
        Hears(1, b"VALUE a 0 1\r\nx\r\nEND\r\nEND\r\n", Took),
        Tells(0, 0, b""),
        Tells(1, 0, b""),
        Hears(
            0,
            b"VALUE abc 0 1\r\ny\r\nEND\r\nVALUE abc 0 1\r\nz\r\nEND\r\n",
            Took,
        ),
        Tells(
            0,
            2,
            b"VALUE abc 0 1\r\ny\r\nVALUE a 0 1\r\nx\r\nEND\r\nVERSION 1.6.0\r\n",
        ),
        Tells(1, 2, b"VALUE abc 0 1\r\nz\r\nEND\r\nEND\r\n"),
    ],
    // a server is sent one spelling of each command, without the requests that the proxy answers itself
    &[
        Asks(
            0,
            b"mg abc v k q O1\r\nmg abc v k q O1\r\nma YWJj q N30 b t k\r\n",
            3,
        ),
        Sends(
            0,
            b"mg YWJj b v\r\nmg YWJj b v\r\nma YWJj b t N30 J0 D1 MI\r\n",
        ),
        Hears(0, b"VA 1\r\nx\r\nEN\r\nHD t30\r\n", Took),
        Tells(0, 3, b"VA 1 kabc O1\r\nx\r\n"),
        Asks(0, b"gets a\r\nget abc a\n", 2),
        Sends(0, b"get abc\r\n"),
        Sends(1, b"gets a\r\nget a\r\n"),
        Hears(0, b"END\r\n", Took),
        Hears(
            1,
            b"VALUE a 7 2 5\r\n\r\n\r\nEND\r\nVALUE a 0 1\r\nx\r\nEND\r\n",
            Took,
        ),
        Tells(
            0,
            2,
            b"VALUE a 7 2 5\r\n\r\n\r\nEND\r\nVALUE a 0 1\r\nx\r\nEND\r\n",
        ),
        Asks(
            0,
            b"set a 007 -1 1 noreply\r\nx\r\nset a 0 0 1 noreply\r\nx\r\n",
            2,
        ),
        Sends(1, b"set a 7 -1 1\r\nx\r\nset a 0 0 1\r\nx\r\n"),
        Hears(
            1,
            b"STORED\r\nSERVER_ERROR out of memory storing object\r\n",
            Took,
        ),
        Tells(0, 2, b"SERVER_ERROR out of memory storing object\r\n"),
    ],
    // commands that are pending on a link are lost with it, and so are those that arrive while it is down; nothing is sent
    // again
    &[
        Asks(0, b"incr a 1\r\nget abc\r\n", 2),
        Loses(1, b"incr a 1\r\n"),
        Asks(0, b"set a 0 0 1 noreply\r\nx\r\nflush_all\r\n", 2),
        Returns(1, 2),
        Asks(0, b"get a\r\n", 1),
        Sends(1, b"get a\r\n"),
        Sends(0, b"get abc\r\nflush_all 0\r\n"),
        Hears(0, b"END\r\nOK\r\n", Took),
        Hears(1, b"VALUE a 0 1\r\n1\r\nEND\r\n", Took),
        Tells(
            0,
            5,
            b"SERVER_ERROR link lost\r\nEND\r\nSERVER_ERROR link lost\r\nSERVER_ERROR link lost\r\nVALUE a 0 1\r\n1\r\nEND\r\n",
        ),
    ],
    // a protocol violation loses the link, at its first byte, and the pending commands of all clients
    &[
        Asks(0, b"get a\r\nincr a 1\r\n", 2),
        Asks(1, b"get a\r\n", 1),
        Hears(1, b"VALUE b", Strange),
        Tells(
            0,
            2,
            b"SERVER_ERROR link lost\r\nSERVER_ERROR link lost\r\n",
        ),
        Tells(1, 1, b"SERVER_ERROR link lost\r\n"),
        Returns(1, 2),
        Hears(1, b"E", Strange),
        Returns(1, 3),
    ],
    // a refused line, a quiet request and `quit`
    &[
        Asks(0, b"get\r\nmg a v q\r\n", 2),
        Asks(1, b"quit\r\n", 1),
        Ends(0, false),
        Ends(1, false),
        Asks(0, b"quit\r\nget a\r\n", 1),
        Hears(1, b"EN\r\n", Took),
        Ends(0, false),
        Tells(0, 3, b"ERROR\r\n"),
        Ends(0, true),
        Tells(1, 1, b""),
        Ends(1, true),
        Goes(1),
        Ends(1, false),
    ],
    // requests of a client that has gone are sent; a later client gets no answer to them, and all of its own, over a loss too
    &[
        Asks(0, b"get abc\r\nset a 0 0 1\r\nx\r\n", 2),
        Goes(0),
        Comes(2),
        Asks(2, b"get a\r\nget abc\r\n", 2),
        Sends(0, b"get abc\r\nget abc\r\n"),
        Sends(1, b"set a 0 0 1\r\nx\r\nget a\r\n"),
        Hears(1, b"STORED\r\n", Took),
        Loses(1, b""),
        Hears(
            0,
            b"VALUE abc 0 1\r\nx\r\nEND\r\nVALUE abc 0 1\r\ny\r\nEND\r\n",
            Took,
        ),
        Returns(1, 2),
        Asks(2, b"get a\r\n", 1),
        Sends(1, b"get a\r\n"),
        Hears(1, b"VALUE a 0 1\r\nz\r\nEND\r\n", Took),
        Tells(
            2,
            3,
            b"SERVER_ERROR link lost\r\nVALUE abc 0 1\r\ny\r\nEND\r\nVALUE a 0 1\r\nz\r\nEND\r\n",
        ),
        Tells(1, 0, b""),
    ],
    // nothing of a truncated reply is sent on, and nothing of it is before the bytes that arrive once the link is up
    &[
        Asks(0, b"get a abc\r\nmg abc v q\r\n", 2),
        Sends(0, b"get abc\r\nmg YWJj b v\r\n"),
        Sends(1, b"get a\r\n"),
        Hears(1, b"VALUE a 0 1\r\nx\r\nEND\r\n", Took),
        Hears(0, b"VALUE abc 0 1\r\ny", Idle),
        Loses(0, b""),
        Tells(
            0,
            2,
            b"SERVER_ERROR link lost\r\nSERVER_ERROR link lost\r\n",
        ),
        Returns(0, 2),
        Asks(0, b"get abc\r\n", 1),
        Sends(0, b"get abc\r\n"),
        Hears(0, b"VALUE abc 0 1\r\nz\r\nEND\r\n", Took),
        Tells(0, 1, b"VALUE abc 0 1\r\nz\r\nEND\r\n"),
    ],
    // a server that joins is sent the commands of the keys that it owns from then on, even if another owned them before, and
    // no item moves to it
    &[
        Asks(0, b"set b 7 0 2\r\nxy\r\nget b\r\n", 2),
        Joins(b"127.0.0.1:11213", 2),
        Asks(0, b"get b a\r\nms b 2 F7\r\nxy\r\nmg b v f k O1\r\n", 3),
        Sends(0, b"set b 7 0 2\r\nxy\r\nget b\r\n"),
        Sends(1, b"get a\r\n"),
        Sends(
            2,
            b"get b\r\nms Yg== 2 b T0 F7 MS\r\nxy\r\nmg Yg== b f v\r\n",
        ),
        Hears(2, b"END\r\nHD\r\nVA 2 f7\r\nxy\r\n", Took),
        Hears(1, b"VALUE a 0 1\r\nx\r\nEND\r\n", Took),
        Tells(0, 0, b""),
        Hears(0, b"STORED\r\nVALUE b 7 2\r\nxy\r\nEND\r\n", Took),
        Tells(
            0,
            5,
            b"STORED\r\nVALUE b 7 2\r\nxy\r\nEND\r\nVALUE a 0 1\r\nx\r\nEND\r\nHD\r\nVA 2 f7 kb O1\r\nxy\r\n",
        ),
    ],
    // while both links are down each command is lost, and requests that need no server are answered
    &[
        Loses(0, b""),
        Loses(1, b""),
        Asks(0, b"set a 0 0 1 noreply\r\nx\r\nget a b\r\nversion\r\n", 3),
        Tells(
            0,
            3,
            b"SERVER_ERROR link lost\r\nSERVER_ERROR link lost\r\nVERSION 1.6.0\r\n",
        ),
    ],
    // a reply that its command cannot have loses the link at the first byte that shows it, and all pending commands are
    // answered
    &[
        Asks(0, b"set a 0 0 1\r\nx\r\nget a\r\n", 2),
        Hears(1, b"STORED\n", Strange),
        Tells(
            0,
            2,
            b"SERVER_ERROR link lost\r\nSERVER_ERROR link lost\r\n",
        ),
        Returns(1, 2),
        Asks(0, b"incr a 1\r\nget a\r\n", 2),
        Hears(1, b"00", Strange),
        Tells(
            0,
            2,
            b"SERVER_ERROR link lost\r\nSERVER_ERROR link lost\r\n",
        ),
        Returns(1, 3),
        Asks(0, b"incr a 1\r\nget a\r\n", 2),
        Hears(1, b"18446744073709551616", Strange),
        Tells(
            0,
            2,
            b"SERVER_ERROR link lost\r\nSERVER_ERROR link lost\r\n",
        ),
        Returns(1, 4),
        Asks(0, b"mg a v\r\nget a\r\n", 2),
        Hears(1, b"VA 1 t", Strange),
        Tells(
            0,
            2,
            b"SERVER_ERROR link lost\r\nSERVER_ERROR link lost\r\n",
        ),
        Returns(1, 5),
    ],
    // and so does a reply to `get` with an error line, with a value above the limit, or with a value of more bytes than it says
    &[
        Asks(0, b"get a\r\nset a 0 0 1\r\nx\r\n", 2),
        Hears(1, b"ER", Strange),
        Tells(
            0,
            2,
            b"SERVER_ERROR link lost\r\nSERVER_ERROR link lost\r\n",
        ),
        Returns(1, 2),
        Asks(0, b"get a abc\r\nget a\r\n", 2),
        Hears(0, b"END\r\n", Took),
        Hears(1, b"VALUE a 0 1048577", Strange),
        Tells(
            0,
            2,
            b"SERVER_ERROR link lost\r\nSERVER_ERROR link lost\r\n",
        ),
        Returns(1, 3),
        Asks(0, b"get a\r\nget a\r\n", 2),
        Hears(1, b"VALUE a 0 1\r\nx\r\nEND\r\nVALUE a 0 1\r\nxy", Strange),
        Tells(
            0,
            2,
            b"VALUE a 0 1\r\nx\r\nEND\r\nSERVER_ERROR link lost\r\n",
        ),
        Returns(1, 4),
    ],
];

/// The pool of the dialogues above, whose lost commands are missed.
const MISSED: [&[Step]; 3] = [
    // a get of four keys shows those of the living server: if the link is lost while they are pending, and if it is down
    &[
        Asks(0, b"get abc a b a\r\n", 1),
        Sends(0, b"get abc\r\nget b\r\n"),
        Hears(
            0,
            b"VALUE abc 0 1\r\ny\r\nEND\r\nVALUE b 0 1\r\nz\r\nEND\r\n",
            Took,
        ),
        Tells(0, 0, b""),
        Loses(1, b"get a\r\nget a\r\n"),
        Tells(0, 1, b"VALUE abc 0 1\r\ny\r\nVALUE b 0 1\r\nz\r\nEND\r\n"),
        Asks(0, b"gat 60 a abc\r\ngets a\r\n", 2),
        Sends(0, b"gat 60 abc\r\n"),
        Hears(0, b"VALUE abc 0 1\r\ny\r\nEND\r\n", Took),
        Tells(0, 2, b"VALUE abc 0 1\r\ny\r\nEND\r\nEND\r\n"),
    ],
    // a request that hides its reply is silent, so that the next answer is that of the next request
    &[
        Asks(0, b"set a 0 0 1 noreply\r\nx\r\n", 1),
        Loses(1, b"set a 0 0 1\r\nx\r\n"),
        Asks(0, b"add a 0 0 1 noreply\r\nx\r\nget abc\r\n", 2),
        Asks(
            0,
            b"mg a v\r\nmg a v q\r\nms a 1 q\r\nx\r\nmd a q\r\nmn\r\n",
            5,
        ),
        Sends(0, b"get abc\r\n"),
        Hears(0, b"VALUE abc 0 1\r\ny\r\nEND\r\n", Took),
        Tells(0, 8, b"VALUE abc 0 1\r\ny\r\nEND\r\nEN\r\nMN\r\n"),
    ],
    // a request that changes items, and does not hide its reply, is answered that it was lost; and a fault is answered
    &[
        Loses(1, b""),
        Asks(0, b"incr a 1\r\nadd a 0 0 1\r\nx\r\ndelete a\r\n", 3),
        Asks(
            0,
            b"flush_all\r\nflush_all noreply\r\nincr a x noreply\r\n",
            3,
        ),
        Sends(0, b"flush_all 0\r\nflush_all 0\r\n"),
        Hears(0, b"OK\r\nOK\r\n", Took),
        Tells(
            0,
            6,
            b"SERVER_ERROR link lost\r\nSERVER_ERROR link lost\r\nSERVER_ERROR link lost\r\nSERVER_ERROR link lost\r\nCLIENT_ERROR invalid numeric delta argument\r\n",
        ),
    ],
];

/// The addresses of a pool's servers.
const ADDRESSES: [&[u8]; 2] = [b"127.0.0.1:11211", b"127.0.0.1:11212"];

/// A pool of one server, which owns every key.
pub const ONE: [Point; 1] = [Point { point: 0, place: 0 }];

/// A pool of two servers: the first owns `abc`, whose hash this is, and the second `a`.
pub const TWO: [Point; 2] = [
    Point {
        point: 0x9850_0190,
        place: 0,
    },
    Point {
        point: 0xb975_c10c,
        place: 1,
    },
];

/// A ring of as many servers as there are points, one for each.
pub fn ring(alloc: Global, points: &[Point]) -> Result<Ring, RingError> {
    let mut servers = Vec::new(alloc);
    for (address, _) in ADDRESSES.iter().zip(points) {
        servers.push(Address::new(alloc, address)?)?;
    }
    Ring::of_points(alloc, servers.as_slice(), points)
}

/// A proxy over as many servers as there are points, with two clients, whose links are up.
pub fn pool(alloc: Global, points: &[Point]) -> Result<Proxy, ProxyError> {
    pool_with(alloc, points, Losses::Told)
}

/// Likewise, with this choice for lost commands.
fn pool_with(alloc: Global, points: &[Point], losses: Losses) -> Result<Proxy, ProxyError> {
    let mut proxy = Proxy::with_losses(alloc, ring(alloc, points)?, losses)?;
    open(&mut proxy, points.len())?;
    Ok(proxy)
}

/// Brings this number of links up, and admits two clients.
fn open(proxy: &mut Proxy, links: usize) -> Result<(), ProxyError> {
    for place in 0..links {
        proxy.back(place)?;
    }
    admit(proxy)?;
    admit(proxy)?;
    Ok(())
}

fn pool_of_two(alloc: Global, losses: Losses) -> Result<Proxy, ProxyError> {
    again!(pool_with(alloc, &TWO, losses))
}

fn admit(proxy: &mut Proxy) -> Result<u64, ProxyError> {
    again!(proxy.admit())
}

fn feed(proxy: &mut Proxy, session: u64, bytes: &[u8]) -> Result<(), ProxyError> {
    again!(proxy.feed(session, bytes))
}

fn turn(proxy: &mut Proxy, session: u64) -> Result<SessionTurn, ProxyError> {
    again!(proxy.turn(session))
}

fn emit(proxy: &mut Proxy, session: u64) -> Result<Emit, ProxyError> {
    again!(proxy.emit(session))
}

fn link_feed(proxy: &mut Proxy, server: usize, bytes: &[u8]) -> Result<(), ProxyError> {
    again!(proxy.link_feed(server, bytes))
}

fn link_turn(proxy: &mut Proxy, server: usize) -> Result<LinkStep, ProxyError> {
    again!(proxy.link_turn(server))
}

fn join(proxy: &mut Proxy, alloc: Global, address: &[u8]) -> Result<usize, ProxyError> {
    again!(join_once(proxy, alloc, address))
}

fn join_once(proxy: &mut Proxy, alloc: Global, address: &[u8]) -> Result<usize, ProxyError> {
    let address = Address::new(alloc, address)?;
    proxy.join_server(address, true)
}

/// Whether a step has its expected result.
fn goes_so(alloc: Global, proxy: &mut Proxy, step: &Step) -> Result<bool, ProxyError> {
    Ok(match step {
        Asks(session, bytes, count) => {
            feed(proxy, *session, bytes)?;
            taken(proxy, *session)? == *count
        }
        Sends(server, bytes) => sends(proxy, *server, bytes),
        Hears(server, bytes, wanted) => hears(proxy, *server, bytes)? == *wanted,
        Tells(session, count, bytes) => {
            emitted(proxy, *session)? == *count && tells(proxy, *session, bytes)
        }
        Loses(server, bytes) => proxy.lost(*server)?.as_slice() == *bytes,
        Returns(server, generation) => proxy.back(*server)? == *generation,
        Ends(session, is_finished) => proxy.finished(*session) == *is_finished,
        Goes(session) => {
            proxy.gone(*session)?;
            true
        }
        Comes(session) => admit(proxy)? == *session,
        Joins(address, place) => join(proxy, alloc, address)? == *place,
    })
}

/// More requests than a client here sends at a time.
const MANY: usize = 10;

/// How many requests a session takes, until it takes no more.
fn taken(proxy: &mut Proxy, session: u64) -> Result<usize, ProxyError> {
    for count in 0..MANY {
        if turn(proxy, session)? != SessionTurn::Took {
            return Ok(count);
        }
    }
    Ok(MANY)
}

/// How many answers are emitted, until no more is known.
fn emitted(proxy: &mut Proxy, session: u64) -> Result<usize, ProxyError> {
    for count in 0..MANY {
        if emit(proxy, session)? != Emit::Done {
            return Ok(count);
        }
    }
    Ok(MANY)
}

/// Sends a server all unsent bytes, and returns whether they are these.
fn sends(proxy: &mut Proxy, server: usize, wanted: &[u8]) -> bool {
    let is_so = proxy.link_output(server) == wanted;
    let count = proxy.link_output(server).len();
    proxy.link_taken_out(server, count);
    is_so
}

/// Sends a client all unsent bytes, and returns whether they are these.
fn tells(proxy: &mut Proxy, session: u64, wanted: &[u8]) -> bool {
    let is_so = proxy.output(session) == wanted;
    let count = proxy.output(session).len();
    proxy.taken_out(session, count);
    is_so
}

/// Feeds a server's bytes, one at a time, and returns the link's last turn.
fn hears(proxy: &mut Proxy, server: usize, bytes: &[u8]) -> Result<LinkStep, ProxyError> {
    let mut last = Idle;
    for byte in bytes {
        link_feed(proxy, server, &[*byte])?;
        last = link_turn(proxy, server)?;
    }
    Ok(last)
}

/// Whether a dialogue with a new pool goes as expected.
fn goes_on_so(alloc: Global, losses: Losses, steps: &[Step]) -> Result<bool, ProxyError> {
    let mut proxy = pool_of_two(alloc, losses)?;
    each_goes_so(alloc, &mut proxy, steps)
}

/// Whether each step of a dialogue has its expected result.
fn each_goes_so(alloc: Global, proxy: &mut Proxy, steps: &[Step]) -> Result<bool, ProxyError> {
    for step in steps {
        if !goes_so(alloc, proxy, step)? {
            return Ok(false);
        }
    }
    Ok(true)
}

#[test]
fn dialogues_of_a_pool_go_so(rt: HostRuntime) -> Result<(), Fail> {
    for steps in DIALOGUES {
        assert!(rt; goes_on_so(rt.alloc(), Losses::Told, steps)?);
    }
    Ok(())
}

#[test]
fn dialogues_with_missed_losses_go_so(rt: HostRuntime) -> Result<(), Fail> {
    for steps in MISSED {
        assert!(rt; goes_on_so(rt.alloc(), Losses::Missed, steps)?);
    }
    Ok(())
}
