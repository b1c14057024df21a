//! The input of a stream with events.
ghost use Rattle.std.specs.Prelude.{◌≡◌, true, false, IfErr, IfOk, IsErr, length};
ghost use Rattle.std.specs.Io.{ReadsAtMost};
ghost use Rattle.std.specs.Io.KnownBytes.{ReadConsumes};
ghost use Rattle.std.specs.IoError.{error_kind};
ghost use Rattle.mc_net.specs.Inputs.{after_error, after_event, after_read};

use mio::event::Event;
use std::io;
use std::io::{ErrorKind, Read};

/// What the last event and the reads since say of a stream's input.
#[derive(Clone, Copy, Debug, PartialEq, Eq)]
pub struct Readiness {
    /// Whether all that had arrived is read: until the next event there is no more.
    would_block: bool,
    /// Whether the peer has said that it will send no more, so that the end must still be read.
    peer_closed: bool,
    /// Whether an urgent byte has arrived: a read ends in front of it, although more bytes have arrived.
    urgent: bool,
}

impl Readiness {
    /// Makes the state of a stream without an event: nothing has arrived.
    pub fn new() -> Readiness
        ensures would_block { result.would_block ≡ true }
        ensures peer_closed { result.peer_closed ≡ false }
        ensures urgent { result.urgent ≡ false }
    {
        Readiness {
            would_block: true,
            peer_closed: false,
            urgent: false,
        }
    }

    /// Returns whether all that had arrived is read: until the next event there is no more.
    pub fn would_block(&self) -> bool
        ensures { result ≡ self.now.would_block }
    {
        self.would_block
    }

    /// Returns whether the peer has said that it will send no more, or has failed.
    pub fn peer_closed(&self) -> bool
        ensures { result ≡ self.now.peer_closed }
    {
        self.peer_closed
    }

    /// Records what an event says of the stream: whether bytes have arrived, an urgent one among them, and whether it has ended or failed.
    pub fn note(&mut self, event: &Event)
        ensures { self.new ≡ after_event self.old event.now }
    {
        let ended = event.is_read_closed() || event.is_error();
        if ended || event.is_readable() {
            self.would_block = false;
        }
        if ended {
            self.peer_closed = true;
        }
        if event.is_priority() {
            self.urgent = true;
        }
    }

    /// Records that a read returned this number of bytes, of those it asked for.
    #[inline(always)]
    fn note_read(&mut self, count: usize, asked: usize)
        ensures { self.new ≡ after_read self.old count asked }
    {
        self.would_block = count < asked && !self.peer_closed && !self.urgent;
    }

    /// Records that a read failed.
    fn note_error(&mut self, error: &io::Error)
        ensures { self.new ≡ after_error self.old (error_kind error.now) }
    {
        match error.kind() {
            ErrorKind::WouldBlock => {
                self.would_block = !self.peer_closed;
                self.urgent = false;
            }
            _ => {}
        }
    }
}

/// The input of a stream with events. A read that returns fewer bytes than were asked for has emptied it, and the next one
/// need not ask the system. If an urgent byte has arrived, only a read that would block shows that it is empty. It drops and repeats no
/// byte of its stream. Its maker keeps the readiness after the reads for the next input.
#[derive(Drop)]
pub struct Input<R> {
    /// The source of the bytes: a nonblocking socket, or another reader that does not block.
    pub stream: R,
    /// What is known of its input.
    pub readiness: Readiness,
}

impl<R: Read> Read for Input<R> {
    ghost remaining = { λ input. R.remaining input.stream };

    fn read(&mut self, piece: &mut [u8]) -> io::Result<usize>
        ensures bound { ReadsAtMost result piece.new }
        ensures bytes { ReadConsumes (R.remaining self.old.stream) (R.remaining self.new.stream) result piece.new }
        ensures would_block { self.old.readiness.would_block ≡ true → IsErr result × (self.new ≡ self.old) }
        ensures readiness { IfOk result (λ count. self.new.readiness ≡ after_read self.old.readiness count (length piece.new)) }
        ensures failed { self.old.readiness.would_block ≡ false
            → IfErr result (λ error. self.new.readiness ≡ after_error self.old.readiness (error_kind error)) }
    {
        if self.readiness.would_block {
            return Err(io::Error::from(ErrorKind::WouldBlock));
        }
        match self.stream.read(piece) {
            Ok(count) => {
                self.readiness.note_read(count, piece.len());
                Ok(count)
            }
            Err(error) => {
                self.readiness.note_error(&error);
                Err(error)
            }
        }
    }
}
