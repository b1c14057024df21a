//! A reader of requests, fed in pieces.
ghost use Rattle.std.specs.Prelude.{◌≡◌, ◌<◌, ◌≤◌, ◌+◌, ◌↔◌, ℕ, List, [], ◌++◌, length, drop, vec_len, true, false, Some, IsTrue, OnOk, OnErr};

mod owned;

use crate::peeks::{Front, Look, Peek};
use crate::unread::Unread;
use mc_request::{Fault, ReadError, Request};
use std::alloc::Global;
use std::marker::Model;

/// What a reader returns.
#[derive(Debug, Drop)]
pub enum Next {
    /// A whole request.
    Request(Request),
    /// A fault, whose last byte has arrived.
    Fault(Fault),
    /// Nothing is whole until more bytes arrive.
    More,
    /// Nothing is read any more, after `quit` or a line too long.
    Closed,
}

/// A reader of the requests of one connection. Contracts see what it stands for: the bytes that are not consumed, the block that is
/// dropped while it arrives, whether it is closed, and how many bytes it keeps.
///
/// Each byte is read a constant number of times, however the text is cut. The end of a line is searched for once. A line whose
/// block has not arrived whole is read once more when it has. A refused block is dropped while it arrives. After a `feed` or a
/// `consume` it is known whether something is whole. If nothing is, no call reads a byte until more arrive, with one exception. If
/// a `consume` brought a short line to the front, of at most 512 bytes, each [`Reader::peek`] and each [`Reader::ready`] reads the words
/// of it that may announce a block. That lasts until the next feed. If something is whole, `ready` reads no byte, and `peek` and
/// [`Reader::look`] each read what is first, at each call: its line, and `peek` also the two bytes after its data block. If nothing is
/// whole, a reader keeps fewer than [`REQUEST_LIMIT`](crate::REQUEST_LIMIT) bytes.
#[derive(Drop)]
pub struct Reader {
    alloc: Global,
    unread: Unread,
}

impl Model for Reader {
    ghost use Rattle.mc_request_reader.specs.Reader.{ReaderState, KeepsLittle};

    ghost Value = { ReaderState };

    ghost view = { λ r. r.unread };

    ghost invariant = { λ r. KeepsLittle r.unread };
}

impl Reader {
    ghost use Rattle.mc_request.specs.Requests.{requests_of};
    ghost use Rattle.mc_request_reader.specs.Reader.{fresh_reader, rest_of, kept_of, KeepsRest, KeepsLittle};
    ghost use Rattle.mc_request_reader.specs.Peeks.{Looks, Peeks, IsWellFormedLook, IsWellFormedPeek, front_of, past};

    /// Makes a reader to which nothing has arrived. It takes no memory.
    pub fn new(alloc: Global) -> Self
        ensures { result ≡ fresh_reader }
    {
        Reader {
            alloc,
            unread: Unread::new(alloc),
        }
    }

    /// Makes a reader to which these bytes have arrived, of which the first `taken` are consumed. It takes no memory.
    pub(crate) fn of_buffer(alloc: Global, buffer: Vec<u8>, taken: usize) -> Self
        requires { taken ≤ vec_len buffer }
        ensures rest { (text : List ℕ) → rest_of result text ≡ requests_of (drop taken buffer.items ++ text) }
        ensures closed { result.closed ≡ false }
        ensures little { KeepsLittle result }
    {
        let mut unread = Unread::of_buffer(buffer, taken);
        unread.advance();
        Reader { alloc, unread }
    }

    /// Returns whether no unconsumed byte is in it. Memory may be reserved.
    pub(crate) fn is_fresh(&self) -> bool
        ensures { result ≡ true → self.now ≡ fresh_reader }
    {
        self.unread.is_fresh()
    }

    /// Takes the next piece of the text. After `quit` or a line too long it is dropped. Of a refused block, what arrives is dropped.
    ///
    /// At `Memory` no byte is consumed. A piece of which nothing is kept is never refused: an empty piece, one after the
    /// end, or one that is all of a refused block.
    pub fn feed(&mut self, piece: &[u8]) -> Result<(), ReadError>
        ensures fed { OnOk result ((text : List ℕ) → rest_of self.new text ≡ rest_of self.old (piece.now ++ text)) }
        ensures closed { self.new.closed ≡ self.old.closed }
        ensures after_end { self.old.closed ≡ true → self.new ≡ self.old }
        ensures kept { OnOk result (self.new.held ≤ self.old.held + kept_of self.old (length piece.now)) }
        ensures cause { OnErr result (0 < kept_of self.old (length piece.now)) }
        ensures little { KeepsLittle self.new }
        ensures err { OnErr result (self.new ≡ self.old) }
    {
        self.unread.append(piece)?;
        if !self.unread.waits() {
            self.unread.advance();
        }
        Ok(())
    }

    /// Borrows the first request or fault that has arrived whole. [`Reader::consume`] consumes it.
    ///
    /// Its line is read once. It takes no memory, and copies nothing.
    pub fn peek(&self) -> Peek<'_>
        ensures seen { Peeks self.now result }
        ensures well_formed { IsWellFormedPeek result }
        ensures little { KeepsLittle self.now }
    {
        self.unread.peek()
    }

    /// Looks at what is first, faster than [`Reader::peek`], which moves what it shows through a large value. What a [`Look::Line`] asks for,
    /// by [`command_line`](mc_request::command_line), is served where that call wrote it.
    ///
    /// A line is shown once its end is known. The look reads a line that begins with `g`. Of another line it reads the first byte, and
    /// the one before the line feed. It takes no memory, and copies nothing.
    #[inline(always)]
    pub fn look(&self) -> Look<'_>
        ensures seen { Looks self.now result }
        ensures well_formed { IsWellFormedLook result }
        ensures little { KeepsLittle self.now }
    {
        self.unread.look()
    }

    /// Returns the bytes that have arrived and are not consumed: what [`Reader::peek`] shows begins with them. It reads none of them.
    #[inline(always)]
    pub fn unread(&self) -> &[u8]
        ensures unread { result.now ≡ self.now.unread }
        ensures little { KeepsLittle self.now }
    {
        self.unread.unread()
    }

    /// Returns whether a whole request or fault has arrived, which [`Reader::next`] would return. It takes no
    /// memory, and copies nothing. It reads no byte, except the first words of a short line after a `consume`.
    pub fn ready(&self) -> bool
        ensures ready { IsTrue result ↔ (0 < length (rest_of self.now [])) }
        ensures little { KeepsLittle self.now }
    {
        self.unread.ready()
    }

    /// Returns whether nothing is read any more, after `quit` or a line too long.
    pub fn is_closed(&self) -> bool
        ensures { result ≡ self.now.closed }
    {
        self.unread.is_closed()
    }

    /// Consumes what [`Reader::peek`] showed, and drops the consumed bytes once they are more than half of
    /// all. What follows is examined as by a `feed`, except the words of a short line. It takes no memory.
    pub fn consume(&mut self, front: Front)
        requires { front_of self.old ≡ Some front }
        ensures taken { KeepsRest (past front self.old) self.new }
        ensures little { KeepsLittle self.new }
    {
        self.unread.consume(front);
        if !self.unread.finds_short_line() {
            self.unread.advance();
        }
    }

    /// Frees the reserved memory, if no byte is kept and more than `kept` bytes are reserved. It is for a reader that will be
    /// idle for a while: the next feeds reserve anew. If bytes are kept nothing is moved, so a request that arrives in small
    /// pieces is not copied for each of them.
    pub fn shrink_if_idle(&mut self, kept: usize)
        ensures same { self.new ≡ self.old }
        ensures little { KeepsLittle self.new }
    {
        self.unread.shrink_if_idle(kept);
    }

    /// Returns how many bytes of memory the reader has reserved: no fewer than it keeps.
    pub fn reserved(&self) -> usize
        ensures reserved { self.now.held ≤ result }
        ensures little { KeepsLittle self.now }
    {
        self.unread.reserved()
    }

    /// Returns how many bytes more are reserved once `more` further bytes have arrived.
    pub fn growth(&self, more: usize) -> usize {
        self.unread.growth(more)
    }

    /// Returns how many of `bytes` further bytes can arrive so that at most `room` bytes more are reserved: all of them, or those that fit into what
    /// is reserved.
    pub fn readable(&self, bytes: usize, room: usize) -> usize
        ensures { result ≤ bytes }
    {
        if self.growth(bytes) <= room {
            bytes
        } else {
            self.unread.spare().min(bytes)
        }
    }

    /// Returns how many bytes the reader keeps: those that are not consumed, and the consumed ones that are not dropped yet,
    /// which are never more. None are kept after the end, or while a refused block arrives. If nothing is whole, they are
    /// fewer than [`REQUEST_LIMIT`](crate::REQUEST_LIMIT).
    pub fn held(&self) -> usize
        ensures held { result ≡ self.now.held }
        ensures little { KeepsLittle self.now }
    {
        self.unread.held()
    }
}
