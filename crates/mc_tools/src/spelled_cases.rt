//! A case: a command, and the bytes that arrive in answer to it.

use anyhow::{Context, Result};
use mc_codec::{NextReply, ReplyReader, write_atom};
use mc_reply::Reply;
use mc_request::{Atom, Head, Request};
use mc_request_reader::{Next, Reader};
use mc_route::{Outcome, join};
use mc_text::Block;
use std::alloc::Global;

/// Plays a line, and appends its printed line.
pub fn play_line(alloc: Global, line: &[u8], output: &mut Vec<u8>) -> Result<()> {
    let text = word_at(alloc, line, 0)?.context("no command")?;
    match Asked::of_text(alloc, text.as_slice(), output)? {
        Some(mut asked) => asked.hear_line(alloc, line, output),
        None => push(b"none", output),
    }
}

/// The bytes of a line's word, by its number, if the line has that many.
fn word_at(alloc: Global, line: &[u8], number: usize) -> Result<Option<Vec<u8>>> {
    match line.split(|b| *b == b' ').nth(number) {
        Some(digits) => Ok(Some(hex::decode(alloc, digits)?)),
        None => Ok(None),
    }
}

/// Appends bytes.
fn push(bytes: &[u8], output: &mut Vec<u8>) -> Result<()> {
    output.extend_from_slice(bytes)?;
    Ok(())
}

/// A command that was sent, and the bytes that arrived.
#[derive(Drop)]
struct Asked {
    /// The request of its spelling.
    request: Request,
    head: Head,
    reader: ReplyReader,
}

impl Asked {
    /// The first command of a text, if it has one. Its spelling is appended.
    fn of_text(alloc: Global, text: &[u8], output: &mut Vec<u8>) -> Result<Option<Asked>> {
        let Some(atom) = first_command(alloc, text)? else {
            return Ok(None);
        };
        let mut spelling = Vec::new(alloc);
        write_atom(&atom, &mut spelling)?;
        push_hex(alloc, spelling.as_slice(), output)?;
        let request = first_request(alloc, spelling.as_slice())?.context("no request is spelled")?;
        Ok(Some(Asked {
            request,
            head: atom.into_head(),
            reader: ReplyReader::new(alloc),
        }))
    }

    /// Takes the pieces of a line, which are after its first word, until one is a protocol
    /// violation.
    fn hear_line(&mut self, alloc: Global, line: &[u8], output: &mut Vec<u8>) -> Result<()> {
        for number in 1..=line.len() {
            let Some(piece) = word_at(alloc, line, number)? else {
                break;
            };
            if !self.hear(alloc, piece.as_slice(), output)? {
                break;
            }
        }
        Ok(())
    }

    /// Takes a piece, appends its replies, and returns whether more may arrive.
    fn hear(&mut self, alloc: Global, piece: &[u8], output: &mut Vec<u8>) -> Result<bool> {
        self.reader.feed(piece)?;
        for _ in 0..=piece.len() {
            match self.reader.next(alloc, &self.head)? {
                NextReply::Reply(reply) => self.push_reply(alloc, reply, output)?,
                NextReply::More(_) => {
                    push(b" more", output)?;
                    return Ok(true);
                }
                NextReply::Strange => {
                    push(b" strange", output)?;
                    return Ok(false);
                }
            }
        }
        Ok(true)
    }

    /// Appends a reply by its spelling: the answer to the request that the command's spelling is.
    fn push_reply(&self, alloc: Global, reply: Reply<Block>, output: &mut Vec<u8>) -> Result<()> {
        let mut answer = Vec::new(alloc);
        join(&self.request, &[Outcome::Reply(reply)], &mut answer)?;
        push(b" ", output)?;
        push_hex(alloc, answer.as_slice(), output)
    }
}

/// The first request of a text, if it has one.
fn first_request(alloc: Global, text: &[u8]) -> Result<Option<Request>> {
    let mut reader = Reader::new(alloc);
    reader.feed(text)?;
    Ok(match reader.next()? {
        Next::Request(request) => Some(request),
        Next::Fault(_) | Next::More | Next::Closed => None,
    })
}

/// The first command of the first request of a text, if it has one.
fn first_command(alloc: Global, text: &[u8]) -> Result<Option<Atom<Block>>> {
    let Some(request) = first_request(alloc, text)? else {
        return Ok(None);
    };
    Ok(request.atoms(alloc)?.into_iter().next())
}

/// Appends bytes in hexadecimal digits.
fn push_hex(alloc: Global, bytes: &[u8], output: &mut Vec<u8>) -> Result<()> {
    push(hex::encode(alloc, bytes)?.as_bytes(), output)
}
