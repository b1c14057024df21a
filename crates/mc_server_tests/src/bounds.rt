//! The answers to a client of a server that has no number or no memory left.

use crate::meagre::MeagreStore;
use crate::servers::{MOMENT, Setup, WIDE, new_server};
use mc_server::{Server, ServerError};
use std::alloc::Global;
use std::test::Fail;

/// The pieces that a client sends to a new server with this setup, and the answer to each.
struct Dialogue {
    name: &'static str,
    server: Setup,
    said: &'static [(&'static [u8], &'static [u8])],
}

const DIALOGUES: [Dialogue; 5] = [
    Dialogue {
        name: "numbers_used_up",
        server: Setup {
            last: u64::MAX,
            ..WIDE
        },
        said: &[(
            b"set a 0 0 1\r\nx\r\nget a\r\n",
            b"SERVER_ERROR cas numbers used up\r\nEND\r\n",
        )],
    },
    Dialogue {
        name: "the_last_number",
        server: Setup {
            last: u64::MAX - 1,
            ..WIDE
        },
        said: &[
            (
                b"set a 0 0 1\r\nx\r\ngets a\r\n",
                b"STORED\r\nVALUE a 0 1 18446744073709551615\r\nx\r\nEND\r\n",
            ),
            (
                b"set b 0 0 1\r\ny\r\n",
                b"SERVER_ERROR cas numbers used up\r\n",
            ),
        ],
    },
    Dialogue {
        name: "no_memory_for_a_key",
        server: Setup { keys: 0, ..WIDE },
        said: &[(
            b"set a 0 0 1\r\nx\r\nget a\r\n",
            b"SERVER_ERROR out of memory storing object\r\nEND\r\n",
        )],
    },
    // An item of a key and a value of one byte each costs 66 bytes, so there is room for two. A refused key leaves the items,
    // their order and the counter. A stored key is still overwritten.
    Dialogue {
        name: "no_memory_for_a_third_key",
        server: Setup {
            budget: 132,
            keys: 2,
            ..WIDE
        },
        said: &[
            (
                b"set a 0 0 1\r\nx\r\nset b 0 0 1\r\ny\r\nget a\r\n",
                b"STORED\r\nSTORED\r\nVALUE a 0 1\r\nx\r\nEND\r\n",
            ),
            (
                b"set c 0 0 1\r\nz\r\nadd c 0 0 1 noreply\r\nz\r\n",
                b"SERVER_ERROR out of memory storing object\r\nSERVER_ERROR out of memory storing object\r\n",
            ),
            (
                b"set b 0 0 1\r\nz\r\ngets a b c\r\n",
                b"STORED\r\nVALUE a 0 1 1\r\nx\r\nVALUE b 0 1 3\r\nz\r\nEND\r\n",
            ),
        ],
    },
    // With room for three: of `a`, `b` and `d`, `a` was used last. A refused key leaves this order, so the command that makes
    // `d` a byte longer evicts `a`.
    Dialogue {
        name: "a_refused_key_leaves_the_order",
        server: Setup {
            budget: 198,
            keys: 3,
            ..WIDE
        },
        said: &[
            (
                b"set d 0 0 1\r\nw\r\nset a 0 0 1\r\nx\r\nset b 0 0 1\r\ny\r\nget a\r\n",
                b"STORED\r\nSTORED\r\nSTORED\r\nVALUE a 0 1\r\nx\r\nEND\r\n",
            ),
            (
                b"set c 0 0 1\r\nz\r\nappend d 0 0 1\r\nw\r\nget a b c d\r\n",
                b"SERVER_ERROR out of memory storing object\r\nSTORED\r\nVALUE a 0 1\r\nx\r\nVALUE d 0 2\r\nww\r\nEND\r\n",
            ),
        ],
    },
];

/// The most requests of a piece.
const REQUESTS: usize = 4;

/// Whether a piece is answered so, once its requests are taken.
fn is_answered(
    server: &mut Server<MeagreStore>,
    number: u64,
    (sent, answers): (&[u8], &[u8]),
) -> Result<bool, ServerError> {
    server.feed(number, sent)?;
    for _ in 0..REQUESTS {
        server.turn(number, MOMENT)?;
    }
    let is_so = server.output(number) == answers;
    server.taken_out(number, server.output(number).len());
    Ok(is_so)
}

/// Whether a dialogue goes as expected, on the first connection of a server.
fn goes_on_so(server: &mut Server<MeagreStore>, dialogue: &Dialogue) -> Result<bool, ServerError> {
    let number = server.admit()?;
    let mut is_so = true;
    for said in dialogue.said {
        is_so &= is_answered(server, number, *said)?;
    }
    Ok(is_so)
}

/// Whether a dialogue with a new server goes as expected.
fn goes_so(alloc: Global, dialogue: &Dialogue) -> Result<bool, Fail> {
    let mut server = new_server(alloc, dialogue.server)?;
    Ok(goes_on_so(&mut server, dialogue)?)
}

#[test]
fn dialogues_are_so(rt: HostRuntime) -> Result<(), Fail> {
    for dialogue in &DIALOGUES {
        assert!(rt; goes_so(rt.alloc(), dialogue)?, "{}", dialogue.name);
    }
    Ok(())
}
