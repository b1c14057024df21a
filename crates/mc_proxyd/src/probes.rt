//! The question by which a server shows that it answers, before the first command is sent to it.
ghost use Rattle.std.specs.Prelude.{◌≡◌, ◌-◌, ℕ, List, ◌++◌, [], codes, drop, take, IfOk, OnOk};
ghost use Rattle.std.specs.Io.KnownBytes.{Appends, Consumes};
ghost use Rattle.mc_text.specs.LineSeen.{line_seen};
ghost use Rattle.mc_proxyd.specs.Probes.{answer_by, is_all, line_by};

use crate::limits::PROBE_LIMIT;
use crate::notices::Cause;
use mc_stream::{Pumped, read_once, write_once};
use mc_text::{Line, Unready, next_line, text};
use std::alloc::{AllocError, Global};
use std::io::{Read, Write};

/// The question. Each server of memcached's protocol answers it at once, by one line, and it changes nothing.
const QUESTION: &[u8] = b"version\r\n";

/// What a server's bytes are of the answer.
#[derive(Clone, Copy, Debug, PartialEq, Eq)]
pub enum ProbeAnswer {
    /// The line has arrived whole, and nothing behind it.
    Whole,
    /// They are the beginning of the line.
    Partial,
    /// A protocol violation: they are no such line, or more than it, or it is longer than [`PROBE_LIMIT`] bytes.
    Strange,
}

/// The question that was put to a server, and the bytes that the server has sent since.
#[derive(Drop)]
pub struct Probe {
    /// How many bytes of the question were sent.
    sent: usize,
    /// The bytes of the answer so far.
    said: Vec<u8>,
}

impl Probe {
    /// Makes a question of which no byte was sent.
    pub fn new(alloc: Global) -> Probe
        ensures sent { result.sent ≡ 0 }
        ensures said { result.said.items ≡ [] }
    {
        Probe {
            sent: 0,
            said: Vec::new(alloc),
        }
    }

    /// Returns the bytes of the question that are not sent.
    fn unsent(&self) -> &[u8]
        ensures { result.now ≡ drop self.now.sent (codes "version\r\n") }
    {
        let (_, unsent) = QUESTION.split_at(self.sent.min(QUESTION.len()));
        unsent
    }

    /// Takes bytes that have arrived, and returns what all so far are of the answer.
    fn take(&mut self, came: &[u8]) -> Result<ProbeAnswer, AllocError>
        ensures said { IfOk result (λ answer. self.new.said.items ≡ self.old.said.items ++ came.now) }
        ensures answer { IfOk result (λ answer. answer ≡ answer_by (self.old.said.items ++ came.now)) }
        ensures sent { self.new.sent ≡ self.old.sent }
    {
        self.said.extend_from_slice(came)?;
        Ok(answer_by(self.said.as_slice()))
    }

    /// Sends of the question what the socket takes, reads once, and returns what has arrived of the answer. The error is why the connection
    /// is of no use: it has ended or failed, or there is no memory for its bytes.
    pub fn turn<R: Read, W: Write>(
        &mut self,
        reader: &mut R,
        writer: &mut W,
    ) -> Result<ProbeAnswer, Cause>
        ensures answer { IfOk result (λ answer. answer ≡ answer_by self.new.said.items) }
        ensures read { OnOk result ((came : List ℕ) × Consumes (R.remaining reader.old) (R.remaining reader.new) came
            × (self.new.said.items ≡ self.old.said.items ++ came)) }
    {
        self.send(writer)?;
        let mut piece = [0; PROBE_LIMIT];
        let mut ended = false;
        match read_once(reader, &mut piece, &mut ended) {
            Ok(_) if ended => Err(Cause::Ended),
            Ok(count) => {
                let (came, _) = piece.split_at(count);
                Ok(self.take(came)?)
            }
            Err(Pumped::Again) => Ok(answer_by(self.said.as_slice())),
            Err(_) => Err(Cause::Ended),
        }
    }

    /// Sends of the question what the socket takes.
    fn send<W: Write>(&mut self, writer: &mut W) -> Result<(), Cause>
        ensures sent { OnOk result (Appends (W.contents writer.old) (W.contents writer.new)
            (take (self.new.sent - self.old.sent) (drop self.old.sent (codes "version\r\n")))) }
        ensures said { self.new.said ≡ self.old.said }
    {
        match write_once(writer, self.unsent()) {
            Ok(count) => self.sent = self.sent.saturating_add(count),
            Err(Pumped::Again) => {}
            Err(_) => return Err(Cause::Ended),
        }
        Ok(())
    }
}

/// Returns what bytes are of a server's answer.
pub fn answer_by(said: &[u8]) -> ProbeAnswer
    ensures { result ≡ answer_by said.now }
{
    match text(b"VERSION ", said) {
        Ok(_) => line_by(said.len(), next_line(said)),
        Err(Unready::More(_)) => ProbeAnswer::Partial,
        Err(Unready::Strange) => ProbeAnswer::Strange,
    }
}

/// Returns what this number of bytes is of an answer, of which this line is at their front.
fn line_by(count: usize, line: Line<'_>) -> ProbeAnswer
    ensures { result ≡ line_by count (line_seen line.entry) }
{
    match line {
        Line::Whole { content, taken } if is_all(count, content.len(), taken) => ProbeAnswer::Whole,
        Line::Partial if count < PROBE_LIMIT => ProbeAnswer::Partial,
        _ => ProbeAnswer::Strange,
    }
}

/// Returns whether a line that takes `taken` bytes, `content` of them before its end, is all of `count` bytes, ends in CR LF, and is short
/// enough.
fn is_all(count: usize, content: usize, taken: usize) -> bool
    ensures { result ≡ is_all count content taken }
{
    taken == count && taken <= PROBE_LIMIT && content < taken && taken - content == 2
}
