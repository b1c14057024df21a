//! The bytes of a request, however they are cut.
ghost use Rattle.std.specs.Prelude.{◌≡◌, ◌≤◌, drop, length, false, if◌then◌else◌, IfOk};
ghost use Rattle.std.specs.Str.Lines.{strip_carriage_return};
ghost use Rattle.mc_admin.specs.Requests.{is_http_line, after, too_long, bounded, is_over};

use std::alloc::{AllocError, Global};
use std::marker::Model;

/// The most bytes of a request.
pub const REQUEST_LIMIT: usize = 4096;

/// The phase of a request.
#[derive(Clone, Copy, Debug, PartialEq, Eq)]
pub enum Phase {
    /// In its first line.
    Line,
    /// At the start of a line of a head of HTTP, after the first.
    Start,
    /// After a carriage return at the start of such a line.
    Return,
    /// Further on such a line.
    Field,
    /// It is a line, which has ended.
    LineEnded,
    /// It is a head of HTTP, which has ended.
    HeadEnded,
    /// Its first line has not ended in as many bytes as it may have.
    LineTooLong,
    /// It is a head of HTTP, which has not ended in as many bytes as it may have.
    HeadTooLarge,
}

/// A request while it arrives. It takes no memory after it was made, and looks at each byte a constant number of times. Contracts
/// see its bytes, and its phase.
#[derive(Drop)]
pub struct Inbox {
    text: Vec<u8>,
    phase: Phase,
}

impl Model for Inbox {
    ghost use Rattle.mc_admin.specs.Requests.{InboxState, HasRoom};
    ghost use Rattle.std.specs.Prelude.{vec_len, vec_capacity};

    ghost Value = { InboxState };

    ghost view = { λ i. record { text = i.text.items; phase = i.phase } };

    ghost invariant = { λ i. HasRoom (vec_len i.text) (vec_capacity i.text) i.phase };
}

impl Inbox {
    ghost use Rattle.mc_admin.specs.Requests.{fresh_inbox, with_byte, taking};

    /// Makes a request of which no byte has arrived, with room for all of it.
    pub fn new(alloc: Global) -> Result<Inbox, AllocError>
        ensures { IfOk result (λ inbox. inbox ≡ fresh_inbox) }
    {
        Ok(Inbox {
            text: Vec::with_capacity(alloc, REQUEST_LIMIT)?,
            phase: Phase::Line,
        })
    }

    /// Returns the phase of the request.
    pub fn phase(&self) -> Phase
        ensures { result ≡ self.now.phase }
    {
        self.phase
    }

    /// Returns its bytes so far.
    pub fn text(&self) -> &[u8]
        ensures { result.now ≡ self.now.text }
    {
        self.text.as_slice()
    }

    /// Returns whether it has ended: nothing more is taken of it.
    pub fn is_over(&self) -> bool
        ensures { result ≡ is_over self.now.phase }
    {
        is_over(self.phase)
    }

    /// Takes bytes until the request ends, and returns how many were taken.
    #[tactic(auto, using(crate::proofs::InboxLemmas::taking_over, crate::proofs::InboxLemmas::taking_next, crate::proofs::InboxLemmas::taking_end))]
    pub fn take(&mut self, piece: &[u8]) -> usize
        ensures taken { taking self.old piece.now ≡ (self.new, drop result piece.now) }
        ensures within { result ≤ length piece.now }
    {
        let mut count = 0;
        for byte in piece {
            if self.is_over() {
                return count;
            }
            self.push(*byte);
            count += 1;
        }
        count
    }

    /// Takes a byte.
    #[tactic(auto, unfolding(crate::specs::Requests::with_byte))]
    fn push(&mut self, byte: u8)
        requires { is_over self.old.phase ≡ false }
        ensures { self.new ≡ with_byte self.old byte }
    {
        let phase = after(self.phase, self.text.as_slice(), byte);
        self.text.push(byte).unwrap();
        self.phase = bounded(phase, self.text.len());
    }

    /// Drops the request: the next one begins.
    pub fn clear(&mut self)
        ensures { self.new ≡ fresh_inbox }
    {
        self.text.clear();
        self.phase = Phase::Line;
    }
}

/// Returns the phase of a request after one more byte, with these bytes in front of it.
fn after(phase: Phase, text: &[u8], byte: u8) -> Phase
    ensures { result ≡ after phase text.now byte }
{
    match phase {
        Phase::Line if byte != b'\n' => Phase::Line,
        Phase::Line => after_line(text),
        Phase::Start => match byte {
            b'\n' => Phase::HeadEnded,
            b'\r' => Phase::Return,
            _ => Phase::Field,
        },
        Phase::Return if byte == b'\n' => Phase::HeadEnded,
        Phase::Return => Phase::Field,
        Phase::Field if byte == b'\n' => Phase::Start,
        Phase::Field => Phase::Field,
        ended => ended,
    }
}

/// Returns the phase of a request after its first line.
fn after_line(line: &[u8]) -> Phase
    ensures { result ≡ (if is_http_line line.now then Phase.Start else Phase.LineEnded) }
{
    if is_http_line(line) {
        Phase::Start
    } else {
        Phase::LineEnded
    }
}

/// Returns whether a line is the first of a request of HTTP.
fn is_http_line(line: &[u8]) -> bool
    ensures { result ≡ is_http_line line.now }
{
    let content = without_carriage_return(line);
    let (_, version) = content.split_at(content.len().saturating_sub(9));
    version.starts_with(b" HTTP/")
}

/// Returns a line without one carriage return at its end.
pub fn without_carriage_return(line: &[u8]) -> &[u8]
    ensures { result.now ≡ strip_carriage_return line.now }
{
    match line {
        [front @ .., b'\r'] => front,
        _ => line,
    }
}

/// Returns the phase of a request of this length: one at its limit has ended.
fn bounded(phase: Phase, len: usize) -> Phase
    ensures { result ≡ bounded phase len }
{
    if len < REQUEST_LIMIT {
        phase
    } else {
        too_long(phase)
    }
}

/// Returns the final phase of a request that has not ended within its limit.
fn too_long(phase: Phase) -> Phase
    ensures { result ≡ too_long phase }
{
    match phase {
        Phase::Line => Phase::LineTooLong,
        Phase::Start | Phase::Return | Phase::Field => Phase::HeadTooLarge,
        ended => ended,
    }
}

/// Returns whether a request has ended.
fn is_over(phase: Phase) -> bool
    ensures { result ≡ is_over phase }
{
    match phase {
        Phase::Line | Phase::Start | Phase::Return | Phase::Field => false,
        _ => true,
    }
}
