//! The answers to a client of a server some of whose calls are refused memory.
//!
//! A call that is refused memory is made again. So a client is answered as with ample memory, or as with one store refused, whichever
//! allocation is refused: `tests/gate/refused.py` refuses each of them in turn.
ghost use Rattle.std.specs.Prelude.{◌≡◌, ◌+◌, [], IfOk};

use crate::servers::{Setup, WIDE, new_server, server_over};
use mc_server::{Server, ServerError, Turn};
use mc_store::{FixedHasher, LruStore, Store, StoreError, TableStore};
use std::alloc::{AllocError, Global};
use std::test::Fail;

/// The texts that a client sends to a new server with this setup, and the answers that it may get in all.
struct Example {
    name: &'static str,
    server: Setup,
    /// The moment of each text, the text, and how many times it is sent.
    said: &'static [(u32, &'static [u8], usize)],
    /// With ample memory; then with one store refused.
    answers: &'static [&'static [u8]],
}

const EXAMPLES: [Example; 24] = [
    Example {
        name: "set_then_get",
        server: WIDE,
        said: &[(100, b"set a 0 0 1\r\nx\r\nget a\r\n", 1)],
        answers: &[
            b"STORED\r\nVALUE a 0 1\r\nx\r\nEND\r\n",
            b"SERVER_ERROR out of memory storing object\r\nEND\r\n",
        ],
    },
    Example {
        name: "line_ended_by_a_line_feed_alone",
        server: WIDE,
        said: &[(100, b"set a 0 0 1\r\nx\r\nget a\n", 1)],
        answers: &[
            b"STORED\r\nVALUE a 0 1\r\nx\r\nEND\r\n",
            b"SERVER_ERROR out of memory storing object\r\nEND\r\n",
        ],
    },
    Example {
        name: "value_holds_line_ends",
        server: WIDE,
        said: &[(100, b"set a 0 0 7\r\n\r\nEND\r\n\r\ngets a\r\n", 1)],
        answers: &[
            b"STORED\r\nVALUE a 0 7 1\r\n\r\nEND\r\n\r\nEND\r\n",
            b"SERVER_ERROR out of memory storing object\r\nEND\r\n",
        ],
    },
    Example {
        name: "value_of_no_bytes_and_a_doubled_key",
        server: WIDE,
        said: &[(100, b"set a 7 0 0\r\n\r\nget a a\r\n", 1)],
        answers: &[
            b"STORED\r\nVALUE a 7 0\r\n\r\nVALUE a 7 0\r\n\r\nEND\r\n",
            b"SERVER_ERROR out of memory storing object\r\nEND\r\n",
        ],
    },
    Example {
        name: "bad_chunk",
        server: WIDE,
        said: &[(100, b"set a 0 0 1\r\nxyzget a\r\n", 1)],
        answers: &[b"CLIENT_ERROR bad data chunk\r\nEND\r\n"],
    },
    Example {
        name: "expiry",
        server: WIDE,
        said: &[
            (
                1000000000,
                b"set a 0 2592000 1\r\nx\r\nset b 0 2592001 1\r\ny\r\nset c 0 -1 1\r\nz\r\nset d 0 0 1\r\nw\r\nget b c d\r\n",
                1,
            ),
            (1002591999, b"get a\r\n", 1),
            (1002592000, b"get a d\r\n", 1),
        ],
        answers: &[
            b"STORED\r\nSTORED\r\nSTORED\r\nSTORED\r\nVALUE d 0 1\r\nw\r\nEND\r\nVALUE a 0 1\r\nx\r\nEND\r\nVALUE d 0 1\r\nw\r\nEND\r\n",
            b"SERVER_ERROR out of memory storing object\r\nSTORED\r\nSTORED\r\nSTORED\r\nVALUE d 0 1\r\nw\r\nEND\r\nEND\r\nVALUE d 0 1\r\nw\r\nEND\r\n",
            b"STORED\r\nSERVER_ERROR out of memory storing object\r\nSTORED\r\nSTORED\r\nVALUE d 0 1\r\nw\r\nEND\r\nVALUE a 0 1\r\nx\r\nEND\r\nVALUE d 0 1\r\nw\r\nEND\r\n",
            b"STORED\r\nSTORED\r\nSERVER_ERROR out of memory storing object\r\nSTORED\r\nVALUE d 0 1\r\nw\r\nEND\r\nVALUE a 0 1\r\nx\r\nEND\r\nVALUE d 0 1\r\nw\r\nEND\r\n",
            b"STORED\r\nSTORED\r\nSTORED\r\nSERVER_ERROR out of memory storing object\r\nEND\r\nVALUE a 0 1\r\nx\r\nEND\r\nEND\r\n",
        ],
    },
    Example {
        name: "numbers",
        server: WIDE,
        said: &[(
            100,
            b"set a 0 0 20\r\n18446744073709551615\r\nincr a 1\r\nset a 0 0 1\r\n5\r\ndecr a 10\r\nset a 0 0 1\r\nx\r\nincr a 1\r\nincr b 1\r\nincr a y\r\n",
            1,
        )],
        answers: &[
            b"STORED\r\n0\r\nSTORED\r\n0\r\nSTORED\r\nCLIENT_ERROR cannot increment or decrement non-numeric value\r\nNOT_FOUND\r\nCLIENT_ERROR invalid numeric delta argument\r\n",
            b"SERVER_ERROR out of memory storing object\r\nNOT_FOUND\r\nSTORED\r\n0\r\nSTORED\r\nCLIENT_ERROR cannot increment or decrement non-numeric value\r\nNOT_FOUND\r\nCLIENT_ERROR invalid numeric delta argument\r\n",
        ],
    },
    Example {
        name: "cas",
        server: WIDE,
        said: &[(
            100,
            b"set a 0 0 1\r\nx\r\ncas a 0 0 1 1\r\ny\r\ncas a 0 0 1 1\r\nz\r\ncas b 0 0 1 1\r\nz\r\ngets a\r\n",
            1,
        )],
        answers: &[
            b"STORED\r\nSTORED\r\nEXISTS\r\nNOT_FOUND\r\nVALUE a 0 1 2\r\ny\r\nEND\r\n",
            b"SERVER_ERROR out of memory storing object\r\nNOT_FOUND\r\nNOT_FOUND\r\nNOT_FOUND\r\nEND\r\n",
        ],
    },
    Example {
        name: "evicts_by_last_use",
        server: Setup {
            budget: 132,
            ..WIDE
        },
        said: &[
            (
                100,
                b"set a 0 0 1\r\nx\r\nset b 0 0 1\r\ny\r\nget a\r\nset c 0 0 1\r\nz\r\nget a b c\r\nset a 0 0 68\r\n",
                1,
            ),
            (100, b"x", 68),
            (100, b"\r\nget a b c\r\n", 1),
        ],
        answers: &[
            b"STORED\r\nSTORED\r\nVALUE a 0 1\r\nx\r\nEND\r\nSTORED\r\nVALUE a 0 1\r\nx\r\nVALUE c 0 1\r\nz\r\nEND\r\nSERVER_ERROR object too large for cache\r\nVALUE a 0 1\r\nx\r\nVALUE c 0 1\r\nz\r\nEND\r\n",
            b"SERVER_ERROR out of memory storing object\r\nSTORED\r\nEND\r\nSTORED\r\nVALUE b 0 1\r\ny\r\nVALUE c 0 1\r\nz\r\nEND\r\nSERVER_ERROR object too large for cache\r\nVALUE b 0 1\r\ny\r\nVALUE c 0 1\r\nz\r\nEND\r\n",
            b"STORED\r\nSERVER_ERROR out of memory storing object\r\nVALUE a 0 1\r\nx\r\nEND\r\nSTORED\r\nVALUE a 0 1\r\nx\r\nVALUE c 0 1\r\nz\r\nEND\r\nSERVER_ERROR object too large for cache\r\nVALUE a 0 1\r\nx\r\nVALUE c 0 1\r\nz\r\nEND\r\n",
            b"STORED\r\nSTORED\r\nVALUE a 0 1\r\nx\r\nEND\r\nSERVER_ERROR out of memory storing object\r\nVALUE a 0 1\r\nx\r\nVALUE b 0 1\r\ny\r\nEND\r\nSERVER_ERROR object too large for cache\r\nVALUE a 0 1\r\nx\r\nVALUE b 0 1\r\ny\r\nEND\r\n",
        ],
    },
    Example {
        name: "refused_store_leaves_the_order",
        server: Setup {
            budget: 132,
            ..WIDE
        },
        said: &[(
            100,
            b"set a 0 0 1\r\nx\r\nset b 0 0 1\r\ny\r\nget a\r\nset c 0 0 1\r\nz\r\nset d 0 0 1\r\nw\r\nget a b c d\r\n",
            1,
        )],
        answers: &[
            b"STORED\r\nSTORED\r\nVALUE a 0 1\r\nx\r\nEND\r\nSTORED\r\nSTORED\r\nVALUE c 0 1\r\nz\r\nVALUE d 0 1\r\nw\r\nEND\r\n",
            b"SERVER_ERROR out of memory storing object\r\nSTORED\r\nEND\r\nSTORED\r\nSTORED\r\nVALUE c 0 1\r\nz\r\nVALUE d 0 1\r\nw\r\nEND\r\n",
            b"STORED\r\nSERVER_ERROR out of memory storing object\r\nVALUE a 0 1\r\nx\r\nEND\r\nSTORED\r\nSTORED\r\nVALUE c 0 1\r\nz\r\nVALUE d 0 1\r\nw\r\nEND\r\n",
            b"STORED\r\nSTORED\r\nVALUE a 0 1\r\nx\r\nEND\r\nSERVER_ERROR out of memory storing object\r\nSTORED\r\nVALUE a 0 1\r\nx\r\nVALUE d 0 1\r\nw\r\nEND\r\n",
            b"STORED\r\nSTORED\r\nVALUE a 0 1\r\nx\r\nEND\r\nSTORED\r\nSERVER_ERROR out of memory storing object\r\nVALUE a 0 1\r\nx\r\nVALUE c 0 1\r\nz\r\nEND\r\n",
        ],
    },
    Example {
        name: "noreply_errors",
        server: WIDE,
        said: &[(
            100,
            b"set a 0 0 1 noreply\r\nx\r\nset a z 0 1 noreply\r\ny\r\nget a\r\n",
            1,
        )],
        answers: &[
            b"CLIENT_ERROR bad command line format\r\nVALUE a 0 1\r\nx\r\nEND\r\n",
            b"SERVER_ERROR out of memory storing object\r\nCLIENT_ERROR bad command line format\r\nEND\r\n",
        ],
    },
    Example {
        name: "quiet_miss",
        server: WIDE,
        said: &[(100, b"mg a v q\r\nmn\r\nmg a v\r\n", 1)],
        answers: &[b"MN\r\nEN\r\n"],
    },
    Example {
        name: "coded_keys",
        server: WIDE,
        said: &[(100, b"ms YWJj 1 b\r\nx\r\nmg abc v k\r\nmg YWJj k b\r\n", 1)],
        answers: &[
            b"HD\r\nVA 1 kabc\r\nx\r\nHD kYWJj b\r\n",
            b"SERVER_ERROR out of memory storing object\r\nEN\r\nEN\r\n",
        ],
    },
    Example {
        name: "longest_key_and_line",
        server: WIDE,
        said: &[
            (100, b"set ", 1),
            (100, b"k", 250),
            (100, b" 0 0 1\r\nx\r\nset ", 1),
            (100, b"k", 251),
            (100, b" 0 0 1\r\nx\r\n", 1),
            (100, b" ", 65527),
            (100, b"version\r\n", 1),
        ],
        answers: &[
            b"STORED\r\nCLIENT_ERROR bad command line format\r\nVERSION 1.6.0\r\n",
            b"SERVER_ERROR out of memory storing object\r\nCLIENT_ERROR bad command line format\r\nVERSION 1.6.0\r\n",
        ],
    },
    Example {
        name: "line_too_long",
        server: WIDE,
        said: &[(100, b" ", 65528), (100, b"version\r\nget a\r\n", 1)],
        answers: &[b"CLIENT_ERROR line too long\r\n"],
    },
    Example {
        name: "value_too_large",
        server: WIDE,
        said: &[
            (100, b"set a 0 0 1\r\nx\r\nset a 0 0 1048577\r\n", 1),
            (100, b"y", 1048577),
            (100, b"\r\nget a\r\n", 1),
        ],
        answers: &[
            b"STORED\r\nSERVER_ERROR object too large for cache\r\nVALUE a 0 1\r\nx\r\nEND\r\n",
            b"SERVER_ERROR out of memory storing object\r\nSERVER_ERROR object too large for cache\r\nEND\r\n",
        ],
    },
    Example {
        name: "flush_with_a_delay",
        server: WIDE,
        said: &[
            (100, b"set a 0 0 1\r\nx\r\nflush_all 10\r\n", 1),
            (109, b"get a\r\nset b 0 0 1\r\ny\r\n", 1),
            (110, b"get a b\r\n", 1),
        ],
        answers: &[
            b"STORED\r\nOK\r\nVALUE a 0 1\r\nx\r\nEND\r\nSTORED\r\nEND\r\n",
            b"SERVER_ERROR out of memory storing object\r\nOK\r\nEND\r\nSTORED\r\nEND\r\n",
            b"STORED\r\nOK\r\nVALUE a 0 1\r\nx\r\nEND\r\nSERVER_ERROR out of memory storing object\r\nEND\r\n",
        ],
    },
    Example {
        name: "flush_at_a_moment",
        server: WIDE,
        said: &[
            (100, b"flush_all 2592001\r\nset a 0 0 1\r\nx\r\n", 1),
            (2592000, b"get a\r\n", 1),
            (2592001, b"get a\r\n", 1),
        ],
        answers: &[
            b"OK\r\nSTORED\r\nVALUE a 0 1\r\nx\r\nEND\r\nEND\r\n",
            b"OK\r\nSERVER_ERROR out of memory storing object\r\nEND\r\nEND\r\n",
        ],
    },
    Example {
        name: "flush_at_a_moment_that_is_past",
        server: WIDE,
        said: &[(
            3000000,
            b"set a 0 0 1\r\nx\r\nflush_all 2592001\r\nget a\r\n",
            1,
        )],
        answers: &[
            b"STORED\r\nOK\r\nEND\r\n",
            b"SERVER_ERROR out of memory storing object\r\nOK\r\nEND\r\n",
        ],
    },
    Example {
        name: "counts",
        server: WIDE,
        said: &[(
            100,
            b"ma n N0 J5 v\r\nma n v\r\nma n D10 M- v\r\nma m q\r\nma m\r\n",
            1,
        )],
        answers: &[
            b"VA 1\r\n5\r\nVA 1\r\n6\r\nVA 1\r\n0\r\nNF\r\n",
            b"SERVER_ERROR out of memory storing object\r\nNF\r\nNF\r\nNF\r\n",
        ],
    },
    Example {
        name: "meta",
        server: WIDE,
        said: &[(
            100,
            b"ms a 1 T10\r\nx\r\nmg a t s f c v O7 k\r\nmg a T30 t\r\nmd a C9 k\r\nmd a C1 q\r\nmg a\r\n",
            1,
        )],
        answers: &[
            b"HD\r\nVA 1 t10 s1 f0 c1 O7 ka\r\nx\r\nHD t30\r\nEX ka\r\nEN\r\n",
            b"SERVER_ERROR out of memory storing object\r\nEN\r\nEN\r\nNF ka\r\nEN\r\n",
        ],
    },
    Example {
        name: "bad_flags",
        server: WIDE,
        said: &[(
            100,
            b"mg a v v\r\nmg a z\r\nmg a Tx\r\n\r\nget\r\nstats\r\n",
            1,
        )],
        answers: &[
            b"CLIENT_ERROR invalid flag\r\nCLIENT_ERROR invalid flag\r\nCLIENT_ERROR bad token in command line format\r\nERROR\r\nERROR\r\nERROR\r\n",
        ],
    },
    Example {
        name: "add_append_replace_delete",
        server: WIDE,
        said: &[(
            100,
            b"add a 0 0 1\r\nx\r\nadd a 0 0 1\r\ny\r\nappend a 9 9 1\r\nz\r\nreplace b 0 0 1\r\ny\r\nget a\r\ndelete a 0\r\ndelete a\r\n",
            1,
        )],
        answers: &[
            b"STORED\r\nNOT_STORED\r\nSTORED\r\nNOT_STORED\r\nVALUE a 0 2\r\nxz\r\nEND\r\nDELETED\r\nNOT_FOUND\r\n",
            b"SERVER_ERROR out of memory storing object\r\nSTORED\r\nSTORED\r\nNOT_STORED\r\nVALUE a 0 2\r\nyz\r\nEND\r\nDELETED\r\nNOT_FOUND\r\n",
            b"STORED\r\nNOT_STORED\r\nSERVER_ERROR out of memory storing object\r\nNOT_STORED\r\nVALUE a 0 1\r\nx\r\nEND\r\nDELETED\r\nNOT_FOUND\r\n",
        ],
    },
    Example {
        name: "numbers_used_up",
        server: Setup {
            last: u64::MAX,
            ..WIDE
        },
        said: &[(100, b"set a 0 0 1\r\nx\r\nget a\r\n", 1)],
        answers: &[b"SERVER_ERROR cas numbers used up\r\nEND\r\n"],
    },
];

/// More requests than a client here sends at a time.
const MANY: usize = 20;

/// A text of fewer bytes comes in single bytes too.
const SHORT: usize = 256;

/// The sizes of the pieces in which an example's texts arrive: whole, and, if they are short, in single bytes.
fn pieces(example: &Example) -> &'static [usize] {
    let is_short = example
        .said
        .iter()
        .all(|(_, text, times)| text.len() < SHORT && *times == 1);
    if is_short {
        &[usize::MAX, 1]
    } else {
        &[usize::MAX]
    }
}

fn admit<S: Store + Drop>(server: &mut Server<S>) -> Result<u64, ServerError> {
    again!(server.admit())
}

fn repeated(alloc: Global, text: &[u8], times: usize) -> Result<Vec<u8>, AllocError> {
    again!(text.repeat(alloc, times))
}

fn feed<S: Store + Drop>(
    server: &mut Server<S>,
    number: u64,
    bytes: &[u8],
) -> Result<(), ServerError> {
    again!(server.feed(number, bytes))
}

fn turn<S: Store + Drop>(
    server: &mut Server<S>,
    number: u64,
    moment: u32,
) -> Result<Turn, ServerError> {
    again!(server.turn(number, u64::from(moment)))
}

/// Takes each whole request.
fn take_all<S: Store + Drop>(
    server: &mut Server<S>,
    number: u64,
    moment: u32,
) -> Result<(), ServerError> {
    for _ in 0..MANY {
        if turn(server, number, moment)? != Turn::Took {
            return Ok(());
        }
    }
    Ok(())
}

/// Whether a client of a new server, whose texts arrive in pieces of this size, gets one of the answers that it may get.
fn is_answered<S: Store + Drop>(
    alloc: Global,
    server: &mut Server<S>,
    example: &Example,
    piece: usize,
) -> Result<bool, Fail> {
    let number = admit(server)?;
    for (moment, text, times) in example.said {
        let bytes = repeated(alloc, text, *times)?;
        for part in bytes.chunks(piece.max(1)) {
            feed(server, number, part)?;
            take_all(server, number, *moment)?;
        }
    }
    Ok(
        example
            .answers
            .iter()
            .any(|answers| server.output(number) == *answers),
    )
}

/// Whether a client of a server over a list is answered so, however its texts arrive.
fn are_answered(alloc: Global, example: &Example) -> Result<bool, Fail> {
    let mut are_so = true;
    for piece in pieces(example) {
        let mut server = new_server(alloc, example.server)?;
        are_so &= is_answered(alloc, &mut server, example, *piece)?;
    }
    Ok(are_so)
}

#[test]
fn clients_are_answered_all_the_same(rt: HostRuntime) -> Result<(), Fail> {
    for example in &EXAMPLES {
        assert!(rt; are_answered(rt.alloc(), example)?, "{}", example.name);
    }
    Ok(())
}

fn new_lru(alloc: Global, items: usize) -> Result<LruStore<FixedHasher>, StoreError>
    ensures empty { IfOk result (λ store. store.items ≡ []) }
    ensures most { IfOk result (λ store. store.most ≡ items + 1) }
{
    again!(LruStore::new(alloc, items))
}

fn new_table(alloc: Global, items: usize) -> Result<TableStore<FixedHasher>, StoreError>
    ensures empty { IfOk result (λ store. store.items ≡ []) }
    ensures most { IfOk result (λ store. store.most ≡ items + 1) }
{
    again!(TableStore::new(alloc, items))
}

/// Whether a client of a server over lru's cache is answered so, however its texts arrive.
fn are_answered_over_lru(alloc: Global, example: &Example) -> Result<bool, Fail> {
    let mut are_so = true;
    for piece in pieces(example) {
        let store = new_lru(alloc, example.server.items)?;
        let mut server = server_over(alloc, store, example.server)?;
        are_so &= is_answered(alloc, &mut server, example, *piece)?;
    }
    Ok(are_so)
}

/// Likewise over lru's cache, except for the examples in which a list has memory for a limited number of keys.
#[test]
fn clients_are_answered_all_the_same_over_lru(rt: HostRuntime) -> Result<(), Fail> {
    for example in &EXAMPLES {
        if example.server.keys == u64::MAX {
            assert!(rt;
                are_answered_over_lru(rt.alloc(), example)?,
                "{}",
                example.name
            );
        }
    }
    Ok(())
}

/// Whether a client of a server over a table is answered so, however its texts arrive.
fn are_answered_over_a_table(alloc: Global, example: &Example) -> Result<bool, Fail> {
    let mut are_so = true;
    for piece in pieces(example) {
        let store = new_table(alloc, example.server.items)?;
        let mut server = server_over(alloc, store, example.server)?;
        are_so &= is_answered(alloc, &mut server, example, *piece)?;
    }
    Ok(are_so)
}

/// Likewise over a table.
#[test]
fn clients_are_answered_all_the_same_over_a_table(rt: HostRuntime) -> Result<(), Fail> {
    for example in &EXAMPLES {
        if example.server.keys == u64::MAX {
            assert!(rt;
                are_answered_over_a_table(rt.alloc(), example)?,
                "{}",
                example.name
            );
        }
    }
    Ok(())
}
