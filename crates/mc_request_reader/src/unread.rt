//! The bytes that have arrived and are not consumed.
ghost use Rattle.std.specs.Prelude.{◌≡◌, ◌<◌, ◌≤◌, ◌+◌, ◌↔◌, ℕ, List, [], ◌++◌, length, drop, vec_len, true, false, None, Some, is_some, IsTrue, OnOk, OnErr};

use crate::incoming::{growth_of, make_room};
use crate::peeks::{Front, Look, Peek, REQUEST_LIMIT};
use crate::searched::Searched;
use crate::steps::{Arrival, arrival_of, first_asked, first_look, is_whole};
use mc_request::{Fault, ReadError, RequestRef};
use mc_text::{Line, consume_front, drain_front, shrink_if_idle};
use std::alloc::Global;
use std::marker::Model;

/// The most bytes of a line that each `peek` after a `consume` reads again, until more bytes arrive.
pub const SHORT_LINE: usize = 512;

/// While a storage line waits for its data block, memory is reserved for this many times the bytes that have arrived, and for no more than
/// the line announced.
const ROOM_FOR: usize = 2;

/// The bytes that have arrived and are not consumed, as a reader keeps them, with what is known of them.
#[derive(Drop)]
pub struct Unread {
    buffer: Vec<u8>,
    /// The number of bytes of the buffer that are consumed.
    start: usize,
    /// How far the bytes after them were searched for the end of the first line.
    searched: Searched,
    /// With fewer unconsumed bytes than this nothing is whole.
    wanted: usize,
    /// Whether the first request or fault is known to be whole with `wanted` bytes.
    sure: bool,
    /// The fault of a block that is dropped, and how many bytes of it are missing.
    dropping: Option<(Fault, usize)>,
    closed: bool,
}

impl Model for Unread {
    ghost use Rattle.mc_request_reader.specs.Reader.{ReaderState};

    ghost Value = { ReaderState };

    ghost use Rattle.mc_request_reader.specs.UnreadFields.{state_of, IsUnread};

    ghost view = { state_of };

    ghost invariant = { IsUnread };
}

impl Unread {
    ghost use Rattle.mc_request.specs.Requests.{next_request};
    ghost use Rattle.mc_request_reader.specs.Reader.{fresh_reader, rest_of, kept_of, KeepsRest, KeepsLittle};
    ghost use Rattle.mc_request_reader.specs.Peeks.{Looks, Peeks, IsWellFormedLook, IsWellFormedPeek, front_of, past};

    /// Makes one to which nothing has arrived. It takes no memory.
    pub fn new(alloc: Global) -> Self
        ensures { result ≡ fresh_reader }
    {
        Unread {
            buffer: Vec::new(alloc),
            start: 0,
            searched: Searched::Without(0),
            wanted: 0,
            sure: false,
            dropping: None,
            closed: false,
        }
    }

    /// Makes one of bytes of which `taken` are consumed. It takes no memory.
    pub fn of_buffer(mut buffer: Vec<u8>, taken: usize) -> Self
        requires { taken ≤ vec_len buffer }
        ensures unread { result.unread ≡ drop taken buffer.items }
        ensures dropping { result.dropping ≡ None }
        ensures closed { result.closed ≡ false }
    {
        let start = consume_front(&mut buffer, taken);
        Unread {
            buffer,
            start,
            searched: Searched::Without(0),
            wanted: 0,
            sure: false,
            dropping: None,
            closed: false,
        }
    }

    /// Returns whether it is as it was at first. Memory may be reserved.
    pub fn is_fresh(&self) -> bool
        ensures { result ≡ true → self.now ≡ fresh_reader }
    {
        !self.closed && self.dropping.is_none() && self.buffer.is_empty()
    }

    /// Appends a piece to what has arrived, without what is dropped of it.
    ///
    /// At `Memory` no byte is consumed.
    pub fn append(&mut self, piece: &[u8]) -> Result<(), ReadError>
        ensures fed { OnOk result ((text : List ℕ) → rest_of self.new text ≡ rest_of self.old (piece.now ++ text)) }
        ensures closed { self.new.closed ≡ self.old.closed }
        ensures after_end { self.old.closed ≡ true → self.new ≡ self.old }
        ensures kept { OnOk result (self.new.held ≡ self.old.held + kept_of self.old (length piece.now)) }
        ensures cause { OnErr result (0 < kept_of self.old (length piece.now)) }
        ensures err { OnErr result (self.new ≡ self.old) }
    {
        if self.closed {
            return Ok(());
        }
        match self.dropping {
            None => {
                let announced = self.announced();
                make_room(&mut self.buffer, piece.len(), announced, ROOM_FOR);
                self.buffer.extend_from_slice(piece)?;
            }
            Some((fault, left)) => {
                let (dropped, kept) = piece.split_at(left.min(piece.len()));
                self.buffer.extend_from_slice(kept)?;
                self.dropping = Some((fault, left - dropped.len()));
            }
        }
        Ok(())
    }

    /// Returns how many bytes the buffer has once the first request has arrived, if that is known; otherwise 0.
    fn announced(&self) -> usize {
        if self.sure {
            self.start.saturating_add(self.wanted)
        } else {
            0
        }
    }

    /// Notes how far the arrived bytes were examined, and begins to drop a refused block. If nothing is whole, it
    /// drops the consumed bytes.
    ///
    /// No byte is examined again, and what is left is moved once.
    pub fn advance(&mut self)
        ensures rest { KeepsRest self.old self.new }
        ensures little { KeepsLittle self.new }
        ensures fewer { self.new.held ≤ self.old.held }
        ensures after_end { self.old.closed ≡ true → self.new ≡ self.old }
    {
        if self.closed || self.dropping.is_some() {
            return;
        }
        let (_, unread) = self.buffer.split_at(self.start);
        if unread.len() < self.wanted {
            self.move_to_front();
            return;
        }
        if self.sure {
            return;
        }
        match arrival_of(unread, self.searched) {
            Arrival::Whole(searched) => {
                self.searched = searched;
                self.sure = true;
            }
            Arrival::Waits {
                searched,
                wanted,
                sure,
            } => {
                self.searched = searched;
                self.wanted = wanted;
                self.sure = sure;
                self.move_to_front();
            }
            Arrival::Drops(fault, size) => {
                self.dropping = Some((fault, size - unread.len()));
                self.buffer.clear();
                self.start = 0;
                self.searched = Searched::Without(0);
                self.wanted = 0;
            }
        }
    }

    /// Searches for the end of the first line, notes how far it searched, and returns whether the end is found and the line is
    /// short. Then `peek` reads at most `SHORT_LINE` bytes of it before it knows whether the first request or fault is whole.
    pub fn finds_short_line(&mut self) -> bool
        ensures same { self.new ≡ self.old }
        ensures little { result ≡ true → KeepsLittle self.new }
    {
        let (_, unread) = self.buffer.split_at(self.start);
        match self.searched.line(unread) {
            Line::Whole { taken, .. } => {
                self.searched = Searched::Ends(taken - 1);
                taken <= SHORT_LINE && self.buffer.len() < REQUEST_LIMIT
            }
            Line::Partial => {
                self.searched = Searched::Without(unread.len());
                false
            }
            Line::TooLong => {
                self.searched = Searched::TooLong;
                false
            }
        }
    }

    /// Returns whether it is known that nothing is whole, and no consumed byte is kept.
    pub fn waits(&self) -> bool
        ensures { result ≡ true → KeepsLittle self.now }
    {
        self.start == 0 && self.buffer.len() < self.wanted
    }

    /// Drops the consumed bytes.
    fn move_to_front(&mut self)
        ensures { self.new ≡ record self.old { held = length self.old.unread } }
    {
        drain_front(&mut self.buffer, self.start);
        self.start = 0;
    }

    /// Borrows the first request or fault that has arrived whole. Its line is read once.
    pub fn peek(&self) -> Peek<'_>
        ensures seen { Peeks self.now result }
        ensures well_formed { IsWellFormedPeek result }
    {
        if self.closed {
            return Peek::Closed;
        }
        match self.dropping {
            None => self.peek_unread(),
            Some((_, left)) if left > 0 => Peek::More,
            Some((fault, _)) => Peek::First(
                RequestRef::Faulty(fault),
                Front {
                    size: 0,
                    closes: false,
                },
            ),
        }
    }

    /// Borrows the first request or fault, if no refused block is being dropped.
    fn peek_unread(&self) -> Peek<'_>
        requires open { self.now.closed ≡ false }
        requires whole { self.now.dropping ≡ None }
        ensures seen { Peeks self.now result }
        ensures well_formed { IsWellFormedPeek result }
    {
        let (_, unread) = self.buffer.split_at(self.start);
        if unread.len() < self.wanted {
            return Peek::More;
        }
        match first_asked(unread, self.searched) {
            Some((asked, size)) => {
                let closes = asked.ends();
                Peek::First(asked, Front { size, closes })
            }
            None => Peek::More,
        }
    }

    /// Looks at the first request or fault, if the end of its line is known.
    #[inline(always)]
    pub fn look(&self) -> Look<'_>
        ensures seen { Looks self.now result }
        ensures well_formed { IsWellFormedLook result }
    {
        if self.closed {
            return Look::Other;
        }
        match self.dropping {
            None => self.look_unread(),
            Some(_) => Look::Other,
        }
    }

    /// Looks at the first request or fault, if no refused block is being dropped.
    #[inline(always)]
    fn look_unread(&self) -> Look<'_>
        requires open { self.now.closed ≡ false }
        requires whole { self.now.dropping ≡ None }
        ensures seen { Looks self.now result }
        ensures well_formed { IsWellFormedLook result }
    {
        let (_, unread) = self.buffer.split_at(self.start);
        if unread.len() < self.wanted {
            return Look::More;
        }
        first_look(unread, self.searched)
    }

    /// Returns the bytes that have arrived and are not consumed.
    #[inline(always)]
    pub fn unread(&self) -> &[u8]
        ensures { result.now ≡ self.now.unread }
    {
        let (_, unread) = self.buffer.split_at(self.start);
        unread
    }

    /// Returns whether a whole request or fault has arrived. If the last call was `advance`, it reads no byte.
    pub fn ready(&self) -> bool
        ensures { IsTrue result ↔ (0 < length (rest_of self.now [])) }
    {
        if self.closed {
            return false;
        }
        match self.dropping {
            None => self.has_whole(),
            Some((_, left)) => left == 0,
        }
    }

    /// Returns whether a whole request or fault has arrived, if no refused block is being dropped.
    fn has_whole(&self) -> bool
        ensures { result ≡ is_some (next_request self.now.unread) }
    {
        let (_, unread) = self.buffer.split_at(self.start);
        unread.len() >= self.wanted && (self.sure || is_whole(unread, self.searched))
    }

    /// Consumes what a look showed, and drops the consumed bytes once they are more than half of all.
    pub fn consume(&mut self, front: Front)
        requires { front_of self.old ≡ Some front }
        ensures { KeepsRest (past front self.old) self.new }
    {
        if front.closes {
            self.buffer.clear();
            self.start = 0;
        } else {
            self.start = consume_front(&mut self.buffer, self.start + front.size);
        }
        self.searched = Searched::Without(0);
        self.wanted = 0;
        self.sure = false;
        self.dropping = None;
        self.closed = front.closes;
    }

    /// Returns whether nothing is read any more.
    pub fn is_closed(&self) -> bool
        ensures { result ≡ self.now.closed }
    {
        self.closed
    }

    /// Frees the reserved memory, if nothing is kept and more than `kept` bytes are reserved.
    pub fn shrink_if_idle(&mut self, kept: usize)
        ensures { self.new ≡ self.old }
    {
        shrink_if_idle(&mut self.buffer, kept);
    }

    /// Returns how many bytes are reserved for those that are kept and for more.
    pub fn reserved(&self) -> usize
        ensures { self.now.held ≤ result }
    {
        self.buffer.capacity()
    }

    /// Returns how many bytes more are reserved once `more` further bytes have arrived.
    pub fn growth(&self, more: usize) -> usize {
        let (capacity, announced) = (self.buffer.capacity(), self.announced());
        growth_of(capacity, self.buffer.len(), more, announced, ROOM_FOR)
    }

    /// Returns how many further bytes can arrive within what is reserved.
    pub fn spare(&self) -> usize {
        self.buffer.capacity().saturating_sub(self.buffer.len())
    }

    /// Returns how many bytes are kept.
    pub fn held(&self) -> usize
        ensures { result ≡ self.now.held }
    {
        self.buffer.len()
    }
}
