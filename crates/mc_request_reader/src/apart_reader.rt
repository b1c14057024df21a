//! A reader for callers that keep large data blocks: it moves them out.
ghost use Rattle.std.specs.Prelude.{◌≡◌, ◌<◌, ◌≤◌, ◌+◌, ◌-◌, ◌^◌, ◌↔◌, min, ℕ, List, [], ◌++◌, length, true, None, Some, IsTrue, IfSome, IfNone, OnOk, OnErr};
ghost use Rattle.mc_request_reader.specs.Reader.{fresh_reader, KeepsRest, KeepsLittle};
ghost use Rattle.mc_request_reader.specs.ApartFields.{begun_by};
ghost use Rattle.mc_request_reader.specs.Peeks.{front_of, past};
ghost use Rattle.mc_request_reader.specs.Reads.{Comes, ReadsBy};

use crate::apart::{Apart, LEAST_PIECE};
use crate::hosts::names_host;
use crate::peeks::{Front, Look, Peek, TakenSet};
use crate::reader::Reader;
use mc_request::ReadError;
use std::alloc::Global;
use std::io;
use std::io::Read;
use std::marker::Model;

/// A [`Reader`] for callers that keep the data blocks of large `set`s. Contracts see of it what they see of a reader, and each call
/// that a reader has promises what the reader's does.
///
/// A `set` line is kept apart under three conditions: it begins a piece of at least 1,024 bytes, nothing else is kept, and it
/// announces a data block of at least 4,096 bytes. The bytes of its block are then copied once, as they arrive, into memory of its
/// own, which [`ApartReader::take_set`] moves out. If something has arrived after the block, or the block has no line end,
/// [`ApartReader::peek`] borrows it like any other.
#[derive(Drop)]
pub struct ApartReader {
    alloc: Global,
    /// What has arrived, except what is kept apart.
    reader: Reader,
    /// A line and its data block. While it exists, nothing else is kept.
    apart: Option<Apart>,
}

impl Model for ApartReader {
    ghost use Rattle.mc_request_reader.specs.Reader.{ReaderState};

    ghost Value = { ReaderState };

    ghost use Rattle.mc_request_reader.specs.ApartReaderFields.{state_of, IsApartReader};

    ghost view = { state_of };

    ghost invariant = { IsApartReader };
}

impl ApartReader {
    ghost use Rattle.mc_request.specs.Requests.{ends};
    ghost use Rattle.mc_request_reader.specs.Hosts.{names_host};
    ghost use Rattle.mc_request_reader.specs.Reader.{rest_of, kept_of};
    ghost use Rattle.mc_request_reader.specs.Peeks.{Looks, Peeks, IsFirst, IsWellFormedLook, IsWellFormedPeek, set_of};

    /// Makes a reader to which nothing has arrived. It takes no memory.
    pub fn new(alloc: Global) -> Self
        ensures { result ≡ fresh_reader }
    {
        ApartReader {
            alloc,
            reader: Reader::new(alloc),
            apart: None,
        }
    }

    /// Takes the next piece of the text, as [`Reader::feed`] does.
    pub fn feed(&mut self, piece: &[u8]) -> Result<(), ReadError>
        ensures fed { OnOk result ((text : List ℕ) → rest_of self.new text ≡ rest_of self.old (piece.now ++ text)) }
        ensures closed { self.new.closed ≡ self.old.closed }
        ensures after_end { self.old.closed ≡ true → self.new ≡ self.old }
        ensures kept { OnOk result (self.new.held ≤ self.old.held + kept_of self.old (length piece.now)) }
        ensures cause { OnErr result (0 < kept_of self.old (length piece.now)) }
        ensures little { KeepsLittle self.new }
        ensures err { OnErr result (self.new ≡ self.old) }
    {
        if let Some(apart) = &mut self.apart {
            return apart.append(piece);
        }
        if piece.len() >= LEAST_PIECE {
            if let Some(apart) = begun(self.alloc, &self.reader, piece) {
                self.apart = Some(apart);
                return Ok(());
            }
        }
        self.reader.feed(piece)
    }

    /// Reads once, straight into a data block that is kept apart, if many of its bytes are still missing. What was read is fed, and not copied.
    /// It returns none if nothing was read. Else it returns what the read returned. At an error of the read nothing has changed.
    #[inline(always)]
    pub fn read_from<R: Read>(&mut self, reader: &mut R) -> Option<io::Result<usize>>
        ensures read { IfSome result (λ read. ReadsBy read (R.remaining reader.old) (R.remaining reader.new) (Comes self.old self.new)
            (self.new ≡ self.old)) }
        ensures little { KeepsLittle self.new }
        ensures none { IfNone result (self.new ≡ self.old) }
        ensures unread { IfNone result (reader.new ≡ reader.old) }
    {
        match &mut self.apart {
            None => None,
            Some(apart) => apart.read_from(reader),
        }
    }

    /// Takes the first `set` without copying its data block, if it has arrived whole, is kept apart, and nothing has arrived after it.
    /// None says nothing of what is first, and then nothing has changed. It returns none too if there is no memory for the key.
    pub fn take_set(&mut self) -> Option<TakenSet>
        ensures first { IfSome result (λ set. IsFirst self.old (set_of set) self.new) }
        ensures closed { IfSome result (λ set. self.new.closed ≡ ends (set_of set)) }
        ensures little { KeepsLittle self.new }
        ensures none { IfNone result (self.new ≡ self.old) }
    {
        let Some(apart) = &mut self.apart else {
            return None;
        };
        let set = apart.take_set(self.alloc)?;
        self.apart = None;
        Some(set)
    }

    /// Returns whether [`ApartReader::take_set`] may return one. It reads no byte. If it is true, a whole request or fault has arrived.
    #[inline(always)]
    pub fn has_set(&self) -> bool
        ensures { result ≡ true → 0 < length (rest_of self.now []) }
    {
        match &self.apart {
            None => false,
            Some(apart) => apart.is_alone(),
        }
    }

    /// Borrows the first request or fault that has arrived whole, as [`Reader::peek`] does.
    pub fn peek(&self) -> Peek<'_>
        ensures seen { Peeks self.now result }
        ensures well_formed { IsWellFormedPeek result }
        ensures little { KeepsLittle self.now }
    {
        match &self.apart {
            None => self.reader.peek(),
            Some(apart) => apart.peek(),
        }
    }

    /// Looks at what is first, as [`Reader::look`] does.
    #[inline(always)]
    pub fn look(&self) -> Look<'_>
        ensures seen { Looks self.now result }
        ensures well_formed { IsWellFormedLook result }
        ensures little { KeepsLittle self.now }
    {
        match self.reader.look() {
            Look::More => match &self.apart {
                None => Look::More,
                Some(apart) if apart.needs_more() => Look::More,
                Some(_) => Look::Other,
            },
            Look::Get(get) => Look::Get(get),
            Look::Line(line) => Look::Line(line),
            Look::Other => Look::Other,
        }
    }

    /// Returns the bytes that have arrived and are not consumed. While a block is kept apart there are none of these. It reads no byte.
    #[inline(always)]
    pub fn unread(&self) -> &[u8]
        ensures { 0 < length result.now → result.now ≡ self.now.unread }
    {
        self.reader.unread()
    }

    /// Returns whether the bytes that have arrived and are not consumed begin with `host:` behind any spaces, with letters in any case
    /// ([`names_host`]). Mostly it reads one byte.
    #[inline(always)]
    pub fn names_host(&self) -> bool
        ensures { result ≡ names_host self.now.unread }
    {
        match &self.apart {
            None => names_host(self.reader.unread()),
            Some(apart) => apart.names_host(),
        }
    }

    /// Returns whether a whole request or fault has arrived, as [`Reader::ready`] does.
    pub fn ready(&self) -> bool
        ensures ready { IsTrue result ↔ (0 < length (rest_of self.now [])) }
        ensures little { KeepsLittle self.now }
    {
        match &self.apart {
            None => self.reader.ready(),
            Some(apart) => apart.ready(),
        }
    }

    /// Returns whether nothing is read any more, after `quit` or a line too long.
    pub fn is_closed(&self) -> bool
        ensures { result ≡ self.now.closed }
    {
        self.reader.is_closed()
    }

    /// Consumes what a look showed, as [`Reader::consume`] does. It takes no memory.
    #[inline(always)]
    pub fn consume(&mut self, front: Front)
        requires { front_of self.old ≡ Some front }
        ensures taken { KeepsRest (past front self.old) self.new }
        ensures little { KeepsLittle self.new }
    {
        match &self.apart {
            None => self.reader.consume(front),
            Some(_) => go_on(&mut self.apart, front, self.alloc, &mut self.reader),
        }
    }

    /// Returns how many bytes of memory the reader has reserved: no fewer than it keeps, as far as 64 bits count.
    pub fn reserved(&self) -> usize
        ensures reserved { min self.now.held (2 ^ 64 - 1) ≤ result }
        ensures little { KeepsLittle self.now }
    {
        match &self.apart {
            None => self.reader.reserved(),
            Some(apart) => apart.reserved().saturating_add(self.reader.reserved()),
        }
    }

    /// Returns how many bytes more are reserved once `more` further bytes have arrived, or [`ApartReader::read_from`] has read once.
    pub fn growth(&self, more: usize) -> usize {
        match &self.apart {
            None => self.reader.growth(more),
            Some(apart) => apart.growth(more),
        }
    }

    /// Returns how many of `bytes` further bytes can be fed so that at most `room` bytes more are reserved: all of them, or those that fit into what is
    /// reserved. If it is all of them, [`ApartReader::read_from`] reserves no more either.
    pub fn readable(&self, bytes: usize, room: usize) -> usize
        ensures { result ≤ bytes }
    {
        match &self.apart {
            None => self.reader.readable(bytes, room),
            Some(apart) if apart.growth(bytes) <= room => bytes,
            Some(apart) => apart.spare().min(bytes),
        }
    }

    /// Frees the reserved memory, as [`Reader::shrink_if_idle`] does.
    pub fn shrink_if_idle(&mut self, kept: usize)
        ensures same { self.new ≡ self.old }
        ensures little { KeepsLittle self.new }
    {
        self.reader.shrink_if_idle(kept);
    }
}

/// Keeps a piece apart, if nothing has arrived at the reader before it, and it begins with a large `set`.
#[inline(never)]
fn begun(alloc: Global, others: &Reader, piece: &[u8]) -> Option<Apart>
    ensures begun { IfSome result (λ apart. apart ≡ begun_by piece.now) }
    ensures little { IfSome result (λ apart. KeepsLittle apart) }
    ensures idle { IfSome result (λ apart. others.now ≡ fresh_reader) }
{
    if !others.is_fresh() {
        return None;
    }
    Apart::begin(alloc, piece)
}

/// Consumes what a look showed of what is kept apart, and moves what has arrived after it to a reader to which nothing has arrived.
#[inline(never)]
fn go_on(apart: &mut Option<Apart>, front: Front, alloc: Global, others: &mut Reader)
    requires shown { IfSome apart.old (λ apart. front_of apart ≡ Some front) }
    requires idle { IfSome apart.old (λ apart. others.old ≡ fresh_reader) }
    ensures none { apart.new ≡ None }
    ensures rest { IfSome apart.old (λ apart. KeepsRest (past front apart) others.new) }
    ensures little { IfSome apart.old (λ apart. KeepsLittle others.new) }
{
    if let Some(mut kept) = apart.take() {
        kept.go_on(front, alloc, others);
    }
}
