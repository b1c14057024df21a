//! The two sides of a stream in memory, which move few bytes a call, block, are interrupted and fail.
ghost use Rattle.std.specs.Prelude.{◌≤◌, length};

use crate::streams::Call::{Blocks, Fails, Interrupts, Moves};
use mc_stream::Gather;
use std::alloc::{AllocError, Global};
use std::io;
use std::io::{ErrorKind, Read, Write};

/// What a call of a side of a stream does.
#[derive(Clone, Copy)]
pub enum Call {
    /// It moves this number of bytes, or all if there are fewer.
    Moves(usize),
    Blocks,
    Interrupts,
    Fails,
}

/// What the reads do, repeatedly, and what the writes do.
pub const SCRIPTS: [(&[Call], &[Call]); 8] = [
    (&[Moves(1)], &[Moves(1)]),
    (&[Moves(2)], &[Moves(7)]),
    (&[Moves(7)], &[Moves(2)]),
    (&[Moves(3)], &[Moves(usize::MAX)]),
    (&[Moves(usize::MAX)], &[Moves(3)]),
    (&[Blocks, Moves(5)], &[Interrupts, Moves(3), Blocks]),
    (&[Interrupts, Moves(2), Blocks], &[Blocks, Moves(5)]),
    (
        &[Moves(5), Blocks, Interrupts, Moves(1), Moves(3)],
        &[Blocks, Blocks, Moves(4), Interrupts],
    ),
];

/// The calls of a side of a stream.
#[derive(Clone, Copy)]
pub struct Calls {
    script: &'static [Call],
    /// A call that does something else, by its number, counted from 0.
    odd: Option<(usize, Call)>,
    /// How many calls were made.
    pub made: usize,
}

impl Calls {
    pub fn new(script: &'static [Call]) -> Self {
        Calls {
            script,
            odd: None,
            made: 0,
        }
    }

    /// These calls, with one of them replaced.
    fn with(self, number: usize, call: Call) -> Self {
        let odd = Some((number, call));
        Calls { odd, ..self }
    }

    /// Makes a call, and returns how many bytes it may move.
    fn make(&mut self) -> io::Result<usize> {
        let number = self.made;
        self.made = number.wrapping_add(1);
        let index = number.checked_rem(self.script.len()).unwrap_or(0);
        let call = match self.odd {
            Some((odd, call)) if odd == number => call,
            _ => self.script.get(index).copied().unwrap_or(Fails),
        };
        match call {
            Moves(most) => Ok(most),
            Blocks => Err(ErrorKind::WouldBlock.into()),
            Interrupts => Err(ErrorKind::Interrupted.into()),
            Fails => Err(ErrorKind::ConnectionReset.into()),
        }
    }
}

/// A side that gives bytes, and then the end.
#[derive(Drop)]
pub struct Source {
    pub bytes: Vec<u8>,
    /// How many of them were given.
    given: usize,
    /// Whether it blocks after its bytes, in place of the end.
    is_open: bool,
    pub calls: Calls,
}

impl Read for Source {
    fn read(&mut self, piece: &mut [u8]) -> io::Result<usize> {
        let most = self.calls.make()?;
        let (_, left) = self.bytes.split_at(self.given.min(self.bytes.len()));
        if self.is_open && left.is_empty() && most > 0 {
            return Err(ErrorKind::WouldBlock.into());
        }
        let count = most.min(left.len()).min(piece.len());
        let (next, _) = left.split_at(count);
        piece[..count].copy_from_slice(next);
        self.given = self.given.saturating_add(count);
        Ok(count)
    }
}

/// A side that takes bytes.
#[derive(Drop)]
pub struct Sink {
    pub taken: Vec<u8>,
    pub calls: Calls,
}

impl Write for Sink {
    fn write(&mut self, bytes: &[u8]) -> io::Result<usize> {
        let count = self.calls.make()?.min(bytes.len());
        let (piece, _) = bytes.split_at(count);
        self.taken.extend_from_slice(piece)?;
        Ok(count)
    }

    fn flush(&mut self) -> io::Result<()> {
        Ok(())
    }
}

impl Gather for Sink {
    /// One call, which moves as many bytes of all parts as it may.
    fn gather(&mut self, first: &[u8], middle: &[u8], last: &[u8]) -> usize {
        let Ok(most) = self.calls.make() else {
            return 0;
        };
        let first = front(first, most);
        let most = most.saturating_sub(first.len());
        let middle = front(middle, most);
        let last = front(last, most.saturating_sub(middle.len()));
        let count = first
            .len()
            .saturating_add(middle.len())
            .saturating_add(last.len());
        let Ok(()) = self.taken.reserve(count) else {
            return 0;
        };
        for part in [first, middle, last] {
            let _ = self.taken.extend_from_slice(part);
        }
        count
    }
}

/// The first bytes of a part, at most this number.
fn front(part: &[u8], most: usize) -> &[u8]
    ensures { length result.now ≤ length part.now }
{
    let (front, _) = part.split_at(part.len().min(most));
    front
}

/// How the calls of the two sides of a stream go.
#[derive(Clone, Copy)]
pub struct Sides {
    pub reads: Calls,
    pub writes: Calls,
}

impl Sides {
    /// Sides that go by a script of reads and one of writes.
    pub fn new((reads, writes): (&'static [Call], &'static [Call])) -> Self {
        Sides {
            reads: Calls::new(reads),
            writes: Calls::new(writes),
        }
    }

    /// These sides, with one call of one of them replaced.
    pub fn with(self, is_write: bool, number: usize, call: Call) -> Self {
        if is_write {
            let writes = self.writes.with(number, call);
            Sides { writes, ..self }
        } else {
            let reads = self.reads.with(number, call);
            Sides { reads, ..self }
        }
    }

    /// How many calls of one of them were made.
    pub fn made(self, is_write: bool) -> usize {
        if is_write {
            self.writes.made
        } else {
            self.reads.made
        }
    }
}

/// A stream in memory.
#[derive(Drop)]
pub struct Stream {
    pub source: Source,
    pub sink: Sink,
}

impl Stream {
    /// A stream that gives these bytes, and then the end.
    pub fn new(alloc: Global, bytes: &[u8], sides: Sides) -> Result<Self, AllocError> {
        Ok(Stream::of(alloc, bytes.to_vec(alloc)?, false, sides))
    }

    /// A stream that has no bytes to give yet, and blocks until it has some.
    pub fn open(alloc: Global, sides: Sides) -> Self {
        Stream::of(alloc, Vec::new(alloc), true, sides)
    }

    fn of(alloc: Global, bytes: Vec<u8>, is_open: bool, sides: Sides) -> Self {
        Stream {
            source: Source {
                bytes,
                given: 0,
                is_open,
                calls: sides.reads,
            },
            sink: Sink {
                taken: Vec::new(alloc),
                calls: sides.writes,
            },
        }
    }

    /// How its calls went.
    pub fn sides(&self) -> Sides {
        Sides {
            reads: self.source.calls,
            writes: self.sink.calls,
        }
    }
}

/// More pumps than a connection here needs.
pub const MANY: u32 = 10_000;
