//! Writers that take the parts of an answer in one call.
ghost use Rattle.std.specs.Prelude.{◌+◌, ◌≤◌, ◌++◌, Some, [], length, take};
ghost use Rattle.std.specs.Io.KnownBytes.{Appends};

use std::io;
use std::io::Write;

/// A writer that takes three parts in one call, without copying them into one place first.
pub trait Gather: Write {
    /// Writes three parts in sequence, in one call, and returns how many of their first bytes the writer took: 0 if it
    /// takes none now, and 0 if it fails. The next write returns why it took no more.
    fn gather(&mut self, first: &[u8], middle: &[u8], last: &[u8]) -> usize
        ensures bound { result ≤ length first.now + length middle.now + length last.now }
        ensures bytes { Appends (Self.contents self.old) (Self.contents self.new) (take result (first.now ++ (middle.now ++ last.now))) };
}

/// A writer that takes nothing: an answer that is written to it stays whole in its buffer.
#[derive(Clone, Copy, Debug, Drop)]
pub struct NoWriter;

impl Write for NoWriter {
    ghost contents = { λ _. Some [] };

    fn write(&mut self, _output: &[u8]) -> io::Result<usize> {
        Ok(0)
    }

    fn flush(&mut self) -> io::Result<()> {
        Ok(())
    }
}

impl Gather for NoWriter {
    fn gather(&mut self, _first: &[u8], _middle: &[u8], _last: &[u8]) -> usize {
        0
    }
}
