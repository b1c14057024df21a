//! How fast the parts of a proxy forward gets: from a client's bytes to the bytes for a server, and from its bytes to the
//! answer.

use anyhow::Context;
use mc_codec::spelled_len;
use mc_link::{Link, LinkTurn, Tag};
use mc_request::Parsed;
use mc_request_reader::{Peek, Reader};
use mc_ring::{Address, Ring};
use mc_route::{Outcome, Routed, join, route};
use std::alloc::{AllocError, Global};
use std::collections::VecDeque;

/// How many gets are in flight at a time.
const BATCH: u64 = 100;

/// One client's requests over one link.
#[derive(Drop)]
struct Lane {
    reader: Reader,
    ring: Ring,
    link: Link,
    /// The commands of the request that was taken. Its memory is kept.
    routed: VecDeque<Routed>,
    /// The parts of the requests in flight that their answers need, the oldest first.
    requests: Vec<Parsed>,
    /// The answers to the client.
    answers: Vec<u8>,
}

/// Plays gets, each of which finds a value of `value` bytes, with the server's bytes in pieces. It prints how many bytes were
/// sent to the server, and how many to the client.
pub fn measure(rt: &HostRuntime, gets: u64, value: usize, piece: usize) -> anyhow::Result<()> {
    let alloc = rt.alloc();
    let batch = gets.min(BATCH);
    let asked = asked(alloc, batch)?;
    let came = came(alloc, batch, value)?;
    let batches = gets.checked_div(batch).unwrap_or(0);
    let (sent, answered) = Lane::new(alloc)?.play(alloc, batches, &asked, &came, piece)?;
    println!(rt;
        "{gets} gets of {value} bytes, heard in pieces of {piece}: {sent} bytes sent, {answered} answered"
    )?;
    Ok(())
}

impl Lane {
    fn new(alloc: Global) -> anyhow::Result<Lane> {
        let ring = Ring::new(alloc, &[Address::new(alloc, b"127.0.0.1:11211")?])?;
        let mut link = Link::new(alloc);
        link.back()?;
        Ok(Lane {
            reader: Reader::new(alloc),
            ring,
            link,
            routed: VecDeque::new(alloc),
            requests: Vec::new(alloc),
            answers: Vec::new(alloc),
        })
    }

    /// Plays a batch repeatedly, and returns how many bytes were sent and answered.
    fn play(
        &mut self,
        alloc: Global,
        batches: u64,
        asked: &[u8],
        came: &[u8],
        piece: usize,
    ) -> anyhow::Result<(u64, u64)> {
        let mut sent = 0u64;
        let mut answered = 0u64;
        for _ in 0..batches {
            sent = sent.wrapping_add(self.send(alloc, asked)?);
            answered = answered.wrapping_add(self.hear(alloc, came, piece)?);
        }
        Ok((sent, answered))
    }

    /// Reads the client's bytes, sends each command, and returns how many bytes were sent.
    fn send(&mut self, alloc: Global, asked: &[u8]) -> anyhow::Result<u64> {
        self.reader.feed(asked)?;
        for _ in 0..asked.len() {
            if !self.take(alloc).context("no request is taken")? {
                break;
            }
            self.send_routed().context("no command is sent")?;
        }
        let sent = self.link.output().len();
        self.link.taken_out(sent);
        Ok(sent as u64)
    }

    /// Takes the first request, and returns whether there was one; `None` if memory is refused. An [`anyhow::Error`] has
    /// hundreds of bytes, which each call would move.
    #[inline(never)]
    fn take(&mut self, alloc: Global) -> Option<bool> {
        let front = match &self.reader.peek() {
            Peek::First(asked, front) => {
                let kept = route(alloc, asked, &self.ring, &mut self.routed).ok()?;
                self.requests.push(kept).ok()?;
                *front
            }
            Peek::More | Peek::Closed => return Some(false),
        };
        self.reader.consume(front);
        Some(true)
    }

    /// Sends the commands of the request that was taken last. It returns `None` if memory is refused, or the link is down.
    #[inline(never)]
    fn send_routed(&mut self) -> Option<()> {
        let request = self.requests.len().saturating_sub(1) as u64;
        for atom in 0..self.routed.len() {
            let routed = self.routed.pop_front()?;
            let tag = Tag {
                session: 0,
                request,
                atom,
            };
            self.link.make_room(spelled_len(&routed.atom), 1).ok()?;
            self.link.send(routed.atom, tag).ok()?;
        }
        Some(())
    }

    /// Reads the server's bytes, answers each request, and returns how many bytes the answers have.
    fn hear(&mut self, alloc: Global, came: &[u8], piece: usize) -> anyhow::Result<u64> {
        for bytes in came.chunks(piece.max(1)) {
            self.link.feed(bytes)?;
            for _ in 0..=bytes.len() {
                if !self.answer_next(alloc).context("no reply is answered")? {
                    break;
                }
            }
        }
        let answered = self.answers.len();
        self.answers.clear();
        self.requests.clear();
        Ok(answered as u64)
    }

    /// Answers the request of the next reply, and returns whether one arrived; `None` if memory is refused, or the reply is a
    /// protocol violation.
    fn answer_next(&mut self, alloc: Global) -> Option<bool> {
        match self.link.turn(alloc).ok()? {
            LinkTurn::Took(tag, reply) => {
                self.answer(tag, Outcome::Reply(reply))?;
                Some(true)
            }
            LinkTurn::Idle => Some(false),
            LinkTurn::Strange => None,
        }
    }

    /// Answers a request of one command.
    fn answer(&mut self, tag: Tag, outcome: Outcome) -> Option<()> {
        let Parsed::Whole(request) = self.requests.get(tag.request as usize)? else {
            return None;
        };
        join(request, &[outcome], &mut self.answers).ok()
    }
}

/// This number of gets of a key of 20 bytes.
fn asked(alloc: Global, gets: u64) -> Result<Vec<u8>, AllocError> {
    b"get key:0000000000000001\r\n".repeat(alloc, gets as usize)
}

/// As many replies to them.
fn came(alloc: Global, gets: u64, value: usize) -> Result<Vec<u8>, AllocError> {
    let line = format!(in alloc; "VALUE key:0000000000000001 0 {value}\r\n")?;
    let mut reply = Vec::from_slice(alloc, line.as_bytes())?;
    reply.extend_from_slice(&b"x".repeat(alloc, value)?)?;
    reply.extend_from_slice(b"\r\nEND\r\n")?;
    reply.repeat(alloc, gets as usize)
}
