//! The two sides of a client's socket, which note whether they have failed.
ghost use Rattle.std.specs.Prelude.{◌≡◌};
ghost use Rattle.std.specs.Io.{ReadsAtMost, WritesAtMost};
ghost use Rattle.std.specs.Io.KnownBytes.{Keeps, ReadConsumes, WriteAppends};
ghost use Rattle.std.specs.IoError.{error_kind};
ghost use Rattle.mc_serverd.specs.Sides.{fails_by};

use mc_stream::Gather;
use mio::net::TcpStream;
use std::io;
use std::io::{ErrorKind, IoSlice, Read, Write};

/// The input of a client, and whether it has failed.
#[derive(Drop)]
pub struct Received<R> {
    /// The source of the bytes.
    pub stream: R,
    /// Whether a read failed.
    pub failed: bool,
}

impl<R: Read> Read for Received<R> {
    ghost remaining = { λ side. R.remaining side.stream };

    fn read(&mut self, piece: &mut [u8]) -> io::Result<usize>
        ensures bound { ReadsAtMost result piece.new }
        ensures bytes { ReadConsumes (R.remaining self.old.stream) (R.remaining self.new.stream) result piece.new }
    {
        let read = self.stream.read(piece);
        if let Err(error) = &read
            && fails(error)
        {
            self.failed = true;
        }
        read
    }
}

/// The output of a client, and whether it has failed.
#[derive(Drop)]
pub struct Sent<W> {
    /// The sink of the bytes.
    pub stream: W,
    /// Whether a write failed, or nothing was taken.
    pub failed: bool,
}

impl<W: Write> Write for Sent<W> {
    ghost contents = { λ side. W.contents side.stream };

    fn write(&mut self, output: &[u8]) -> io::Result<usize>
        ensures bound { WritesAtMost result output.now }
        ensures bytes { WriteAppends (W.contents self.old.stream) (W.contents self.new.stream) result output.now }
    {
        let written = self.stream.write(output);
        match &written {
            Ok(count) if *count > 0 => {}
            Ok(_) => self.failed = true,
            Err(error) => self.failed = self.failed || fails(error),
        }
        written
    }

    fn flush(&mut self) -> io::Result<()>
        ensures bytes { Keeps (W.contents self.old.stream) (W.contents self.new.stream) }
    {
        self.stream.flush()
    }
}

impl Gather for Sent<&TcpStream> {
    /// Writes the parts in one system call, without copying them. If it fails, the next write reports it, and is noted.
    fn gather(&mut self, first: &[u8], middle: &[u8], last: &[u8]) -> usize {
        let parts = [
            IoSlice::new(first),
            IoSlice::new(middle),
            IoSlice::new(last),
        ];
        match TcpStream::write_vectored(self.stream, &parts) {
            Ok(count) => count,
            Err(_) => 0,
        }
    }
}

/// Returns whether a stream has failed whose read or write had this error. One that has no bytes now, or takes none now, has not.
fn fails(error: &io::Error) -> bool
    ensures { result ≡ fails_by (error_kind error.now) }
{
    !matches!(error.kind(), ErrorKind::WouldBlock | ErrorKind::Interrupted)
}
