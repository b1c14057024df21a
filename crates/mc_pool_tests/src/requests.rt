//! A request by calls: its commands as servers are sent them, what each reply adds to its answer, and the part of it that the answer needs.
//!
//! A call that is refused memory is made again, and finds all as it was: `tests/gate/refused.py` refuses each allocation in turn.
ghost use Rattle.std.specs.Prelude.{◌≡◌, ◌<◌, length, IfOk};
ghost use Rattle.mc_request.specs.Atoms.{atoms_of};

use crate::pools::{TWO, ring};
use mc_codec::{spelled_len, write_atom};
use mc_reply::{Marks, Reply, ReplyError, Shown, shown, write_part};
use mc_request::{Atom, Fault, ReadError, Request};
use mc_request_reader::{Next, Reader};
use mc_route::{Outcome, atoms, join, without_block};
use mc_server_tests::again;
use mc_text::Block;
use std::alloc::Global;
use std::test::Fail;

/// A command of a request: as a server is sent it, the reply to it, whether the reply is shown, and what it adds to the answer.
struct Part {
    sent: &'static [u8],
    reply: Reply<&'static [u8]>,
    is_shown: bool,
    adds: &'static [u8],
}

/// A request as a client sends it, and its commands.
struct Example {
    text: &'static [u8],
    parts: &'static [Part],
}

const NOTHING: Shown = Shown {
    cas: None,
    flags: None,
    size: None,
    left: None,
    marks: Marks::Plain,
};

const EXAMPLES: [Example; 8] = [
    Example {
        text: b"gats 60 a b a\r\n",
        parts: &[
            Part {
                sent: b"gats 60 a\r\n",
                reply: Reply::Hit {
                    flags: 5,
                    cas: Some(u64::MAX),
                    value: b"x\r\n",
                },
                is_shown: true,
                adds: b"VALUE a 5 3 18446744073709551615\r\nx\r\n\r\n",
            },
            Part {
                sent: b"gats 60 b\r\n",
                reply: Reply::Miss,
                is_shown: true,
                adds: b"",
            },
            Part {
                sent: b"gats 60 a\r\n",
                reply: Reply::Miss,
                is_shown: true,
                adds: b"END\r\n",
            },
        ],
    },
    Example {
        text: b"cas a 007 -1 1 018 noreply\r\nx\r\n",
        parts: &[Part {
            sent: b"cas a 7 -1 1 18\r\nx\r\n",
            reply: Reply::Exists,
            is_shown: false,
            adds: b"",
        }],
    },
    Example {
        text: b"set a 0 0 1 noreply\r\nx\r\n",
        parts: &[Part {
            sent: b"set a 0 0 1\r\nx\r\n",
            reply: Reply::Fault(Fault::OutOfMemory),
            is_shown: true,
            adds: b"SERVER_ERROR out of memory storing object\r\n",
        }],
    },
    Example {
        text: b"incr a 5\r\n",
        parts: &[Part {
            sent: b"incr a 5\r\n",
            reply: Reply::Number(u64::MAX),
            is_shown: true,
            adds: b"18446744073709551615\r\n",
        }],
    },
    Example {
        text: b"mg abc v k q O1\r\n",
        parts: &[Part {
            sent: b"mg YWJj b v\r\n",
            reply: Reply::Meta {
                shown: NOTHING,
                value: Some(b"x"),
            },
            is_shown: true,
            adds: b"VA 1 kabc O1\r\nx\r\n",
        }],
    },
    Example {
        text: b"ms abc 2 q k MA\r\nxy\r\n",
        parts: &[Part {
            sent: b"ms YWJj 2 b T0 F0 MA\r\nxy\r\n",
            reply: Reply::Meta {
                shown: NOTHING,
                value: None,
            },
            is_shown: false,
            adds: b"",
        }],
    },
    Example {
        text: b"ms YWJj 2 b q k MA\r\nxy\r\n",
        parts: &[Part {
            sent: b"ms YWJj 2 b T0 F0 MA\r\nxy\r\n",
            reply: Reply::NotStored,
            is_shown: true,
            adds: b"NS kYWJj b\r\n",
        }],
    },
    Example {
        text: b"md abc q C3\r\n",
        parts: &[Part {
            sent: b"md YWJj b C3\r\n",
            reply: Reply::NotFound,
            is_shown: false,
            adds: b"",
        }],
    },
];

/// Requests of no commands, and their answers.
const ALONE: [(&[u8], &[u8]); 3] = [
    (b"version\r\n", b"VERSION 1.6.0\r\n"),
    (b"mn\r\n", b"MN\r\n"),
    (b"quit\r\n", b""),
];

fn feed(reader: &mut Reader, text: &[u8]) -> Result<(), ReadError> {
    again!(reader.feed(text))
}

fn next(reader: &mut Reader) -> Result<Next, ReadError> {
    again!(reader.next())
}

/// The first request of a text.
fn request_of(alloc: Global, text: &[u8]) -> Result<Request, Fail> {
    let mut reader = Reader::new(alloc);
    feed(&mut reader, text)?;
    match next(&mut reader)? {
        Next::Request(request) => Ok(request),
        Next::Fault(_) | Next::More | Next::Closed => Err("no request".into()),
    }
}

fn commands(alloc: Global, request: &Request) -> Result<Vec<Atom<Block>>, ReadError>
    ensures { IfOk result (λ atoms. atoms.items ≡ atoms_of request.now) }
{
    again!(request.atoms(alloc))
}

fn spell(atom: &Atom<Block>, out: &mut Vec<u8>) -> Result<(), ReadError> {
    again!(write_atom(atom, out))
}

fn add(
    request: &Request,
    at: usize,
    reply: &Reply<&[u8]>,
    out: &mut Vec<u8>,
) -> Result<(), ReplyError>
    requires { at < length (atoms_of request.now) }
{
    again!(write_part(request, at, Some(reply), out))
}

fn add_alone(request: &Request, out: &mut Vec<u8>) -> Result<(), ReplyError> {
    again!(write_part(request, 0, None, out))
}

/// Whether a server is sent a command so.
fn is_sent(alloc: Global, atom: &Atom<Block>, sent: &[u8]) -> Result<bool, ReadError> {
    let mut out = Vec::new(alloc);
    spell(atom, &mut out)?;
    Ok(out.as_slice() == sent && spelled_len(atom) == sent.len())
}

/// Whether a command of a request is sent so, and its reply is shown or hidden and adds to the answer what it should.
fn is_part(alloc: Global, request: &Request, at: usize, part: &Part) -> Result<bool, Fail> {
    let commands = commands(alloc, request)?;
    let Some(atom) = commands.get(at) else {
        return Ok(false);
    };
    let is_sent = is_sent(alloc, atom, part.sent)?;
    let mut added = Vec::new(alloc);
    add(request, at, &part.reply, &mut added)?;
    let is_shown = shown(request, &part.reply) == part.is_shown;
    Ok(is_sent && is_shown && added.as_slice() == part.adds)
}

/// Whether a request has these commands and no more.
fn has_parts(alloc: Global, example: &Example) -> Result<bool, Fail> {
    let request = request_of(alloc, example.text)?;
    let mut are_so = commands(alloc, &request)?.len() == example.parts.len();
    for (at, part) in example.parts.iter().enumerate() {
        are_so &= is_part(alloc, &request, at, part)?;
    }
    Ok(are_so)
}

/// Whether a request has no commands, and is answered so.
fn is_alone(alloc: Global, text: &[u8], answer: &[u8]) -> Result<bool, Fail> {
    let request = request_of(alloc, text)?;
    let mut added = Vec::new(alloc);
    add_alone(&request, &mut added)?;
    Ok(commands(alloc, &request)?.is_empty() && added.as_slice() == answer)
}

#[test]
fn requests_have_their_parts(rt: HostRuntime) -> Result<(), Fail> {
    for example in &EXAMPLES {
        assert!(rt; has_parts(rt.alloc(), example)?);
    }
    for (text, answer) in ALONE {
        assert!(rt; is_alone(rt.alloc(), text, answer)?);
    }
    Ok(())
}

/// How many commands a request has, and its answer if they are lost.
fn routed(alloc: Global, request: &Request) -> Result<(usize, Vec<u8>), Fail> {
    let ring = ring(alloc, &TWO)?;
    let commands = atoms(alloc, request, &ring)?.len();
    let kept = without_block(alloc, request)?;
    let mut answer = Vec::new(alloc);
    join(&kept, &[Outcome::Lost], &mut answer)?;
    Ok((commands, answer))
}

/// Whether the first request of a text has this number of commands, and is answered so if they are lost.
fn is_kept(alloc: Global, text: &[u8], count: usize) -> Result<bool, Fail> {
    let request = request_of(alloc, text)?;
    let (commands, answer) = routed(alloc, &request)?;
    Ok(commands == count && answer.as_slice() == b"SERVER_ERROR link lost\r\n".as_slice())
}

/// Requests, and how many commands each has.
const KEPT: [(&[u8], usize); 2] = [(b"get a abc\r\n", 2), (b"ms a 1 c k\r\nx\r\n", 1)];

#[test]
fn requests_are_kept(rt: HostRuntime) -> Result<(), Fail> {
    for (text, count) in KEPT {
        assert!(rt; is_kept(rt.alloc(), text, count)?, "{count} commands");
    }
    Ok(())
}
