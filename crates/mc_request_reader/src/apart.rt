//! A line and its data block, kept apart from the other bytes, so that the block is copied once.
ghost use Rattle.std.specs.Prelude.{◌≡◌, ◌<◌, ◌≤◌, ◌+◌, ◌-◌, ◌^◌, ◌↔◌, min, ℕ, List, [], ◌++◌, length, true, false, None, Some, IsTrue, IfOk, IfSome, IfNone, OnOk, OnErr};
ghost use Rattle.mc_request_reader.specs.ApartFields.{Announces};
ghost use Rattle.mc_request_reader.specs.Hosts.{names_host};
ghost use Rattle.mc_request_reader.specs.Reads.{Comes, ReadsBy};

use crate::incoming::Incoming;
use crate::peeks::{Front, Peek, TakenSet};
use crate::reader::Reader;
use crate::steps::{LINE_END, asked_beside, block_after, set_beside};
use mc_request::ReadError;
use mc_text::{Block, Line, next_line};
use std::alloc::Global;
use std::io;
use std::io::Read;
use std::marker::Model;

/// The fewest bytes of a piece whose front may be kept apart. A client that sends less at a time gets one buffer, so that a few
/// bytes cause no second reservation.
pub const LEAST_PIECE: usize = 1_024;

/// The fewest bytes of a data block that is kept apart: to copy fewer costs less than to reserve memory for them.
pub const LEAST_BLOCK: usize = 4_096;

/// A whole line that announces a data block, and what has arrived after it. Contracts see the bytes of both, in sequence.
///
/// All bytes that arrive after the line are in one list, those after the block too.
#[derive(Drop)]
pub struct Apart {
    /// The line with its end.
    line: Vec<u8>,
    /// What has arrived after it.
    block: Incoming,
    /// The size in bytes of the block and the line end after it.
    wanted: usize,
}

impl Model for Apart {
    ghost use Rattle.mc_request_reader.specs.Reader.{ReaderState};
    ghost use Rattle.mc_request_reader.specs.ApartFields.{joined, IsApart};

    ghost Value = { ReaderState };

    ghost view = { λ r. joined r.line.items r.block };

    ghost invariant = { λ r. IsApart r.line.items r.wanted };
}

impl Apart {
    ghost use Rattle.mc_request_reader.specs.Reader.{fresh_reader, rest_of, kept_of, KeepsRest, KeepsLittle};
    ghost use Rattle.mc_request_reader.specs.ApartFields.{begun_by};
    ghost use Rattle.mc_request_reader.specs.Peeks.{Peeks, HasNone, IsFirst, IsWellFormedPeek, front_of, past, set_of};

    /// Keeps a piece apart, if it begins with a whole `set` line whose data block is large, and has no more than that block. It returns
    /// none too if there is no memory for that: the piece is then kept like any other.
    pub fn begin(alloc: Global, piece: &[u8]) -> Option<Apart>
        ensures begun { IfSome result (λ apart. apart ≡ begun_by piece.now) }
        ensures little { IfSome result (λ apart. KeepsLittle apart) }
    {
        let (line, rest, wanted) = cut(piece)?;
        if rest.len() > wanted {
            return None;
        }
        let Ok(line) = Vec::from_slice(alloc, line) else {
            return None;
        };
        let block = Incoming::begin(alloc, rest, wanted)?;
        Some(Apart {
            line,
            block,
            wanted,
        })
    }

    /// Appends a piece to what has arrived.
    ///
    /// At `Memory` no byte is consumed.
    #[inline(never)]
    pub fn append(&mut self, piece: &[u8]) -> Result<(), ReadError>
        ensures fed { OnOk result ((text : List ℕ) → rest_of self.new text ≡ rest_of self.old (piece.now ++ text)) }
        ensures closed { self.new.closed ≡ self.old.closed }
        ensures after_end { self.old.closed ≡ true → self.new ≡ self.old }
        ensures kept { OnOk result (self.new.held ≡ self.old.held + kept_of self.old (length piece.now)) }
        ensures cause { OnErr result (0 < kept_of self.old (length piece.now)) }
        ensures little { KeepsLittle self.new }
        ensures err { OnErr result (self.new ≡ self.old) }
    {
        self.block.append(piece, self.wanted)?;
        Ok(())
    }

    /// Reads once, straight into the data block, if many of its bytes are still missing. It returns none if few are, or if there is no
    /// memory for them: then nothing was read.
    #[inline(never)]
    pub fn read_from<R: Read>(&mut self, reader: &mut R) -> Option<io::Result<usize>>
        ensures read { IfSome result (λ read. ReadsBy read (R.remaining reader.old) (R.remaining reader.new) (Comes self.old self.new)
            (self.new ≡ self.old)) }
        ensures closed { self.new.closed ≡ self.old.closed }
        ensures little { KeepsLittle self.new }
        ensures none { IfNone result (self.new ≡ self.old) }
        ensures unread { IfNone result (reader.new ≡ reader.old) }
    {
        self.block.read_from(reader, self.wanted)
    }

    /// Returns the first request or fault, borrowed, if it has arrived whole. Its line is read once more.
    pub fn peek(&self) -> Peek<'_>
        ensures seen { Peeks self.now result }
        ensures well_formed { IsWellFormedPeek result }
    {
        if self.needs_more() {
            return Peek::More;
        }
        match asked_beside(self.line.as_slice(), self.block.as_slice()) {
            Some((asked, size)) => {
                let closes = asked.ends();
                Peek::First(asked, Front { size, closes })
            }
            None => Peek::More,
        }
    }

    /// Returns the `set`, if it has arrived whole, nothing after it has, and there is memory for its key. Its block is moved out, and
    /// not copied. What is left of it here is of no use.
    pub fn take_set(&mut self, alloc: Global) -> Option<TakenSet>
        ensures first { IfSome result (λ set. IsFirst self.old (set_of set) fresh_reader) }
        ensures none { IfNone result (self.new ≡ self.old) }
    {
        if !self.is_alone() {
            return None;
        }
        let mut set = set_beside(alloc, self.line.as_slice(), self.block.as_slice())?;
        let mut bytes = self.block.take(alloc);
        bytes.truncate(bytes.len() - LINE_END.len());
        bytes.shrink_to_fit();
        set.block = Block::from(bytes);
        Some(set)
    }

    /// Consumes what a look showed, and moves what has arrived after it to a reader to which nothing has arrived. It takes no memory.
    pub fn go_on(&mut self, front: Front, alloc: Global, others: &mut Reader)
        requires shown { front_of self.old ≡ Some front }
        requires idle { others.old ≡ fresh_reader }
        ensures rest { KeepsRest (past front self.old) others.new }
        ensures little { KeepsLittle others.new }
    {
        if self.block.len() > self.wanted {
            *others = Reader::of_buffer(alloc, self.block.take(alloc), self.wanted);
        }
    }

    /// Returns how many bytes are reserved for the line and for what arrives after it.
    pub fn reserved(&self) -> usize
        ensures { min self.now.held (2 ^ 64 - 1) ≤ result }
    {
        self.line.capacity().saturating_add(self.block.reserved())
    }

    /// Returns how many bytes more are reserved once it has read or appended `more` further bytes.
    pub fn growth(&self, more: usize) -> usize {
        self.block.growth(more, self.wanted)
    }

    /// Returns how many further bytes can arrive within what is reserved.
    pub fn spare(&self) -> usize {
        self.block.spare()
    }

    /// Returns whether the bytes begin with `host:`. They begin with `set`. It reads no byte.
    #[inline(always)]
    pub fn names_host(&self) -> bool
        ensures { result ≡ names_host self.now.unread }
    {
        let _ = &self.line;
        false
    }

    /// Returns whether it is known that nothing is whole until more bytes arrive. It reads no byte.
    pub fn needs_more(&self) -> bool
        ensures { result ≡ true → HasNone self.now self.now }
    {
        self.block.len() < self.wanted
    }

    /// Returns whether a whole request or fault has arrived. It reads no byte.
    pub fn ready(&self) -> bool
        ensures { IsTrue result ↔ (0 < length (rest_of self.now [])) }
    {
        self.block.len() >= self.wanted
    }

    /// Returns whether a whole request or fault has arrived, and nothing after it. It reads no byte.
    pub fn is_alone(&self) -> bool
        ensures { result ≡ true → 0 < length (rest_of self.now []) }
    {
        self.block.len() == self.wanted
    }
}

/// Cuts a piece that begins with a whole `set` line whose data block is large: into the line with its end, and what is after it. It
/// also returns how many bytes are wanted there.
fn cut(piece: &[u8]) -> Option<(&[u8], &[u8], usize)>
    ensures joins { IfSome result (λ cut. piece.now ≡ cut.0.now ++ cut.1.now) }
    ensures announces { IfSome result (λ cut. Announces cut.0.now cut.2) }
    ensures known { IfSome result (λ cut. (more : List ℕ) → names_host (cut.0.now ++ more) ≡ false) }
    ensures some { IfSome result (λ cut. 0 < length piece.now) }
{
    let [b's', b'e', b't', b' ', ..] = piece else {
        return None;
    };
    match next_line(piece) {
        Line::Whole { content, taken } if may_be_large(content) => {
            let (line, rest) = piece.split_at(taken);
            let wanted = block_after(line, LEAST_BLOCK)?;
            Some((line, rest, wanted))
        }
        Line::Whole { .. } | Line::Partial | Line::TooLong => None,
    }
}

/// Returns whether a `set` line may announce a large block: it ends with four digits, or with a word. A wrong answer affects only the speed.
fn may_be_large(content: &[u8]) -> bool {
    match content {
        [.., first, second, third, last] if last.is_ascii_digit() => {
            first.is_ascii_digit() && second.is_ascii_digit() && third.is_ascii_digit()
        }
        _ => true,
    }
}
