//! The two sides of a non-blocking stream: one write, one read. Nothing here knows what is behind the stream.
ghost use Rattle.std.specs.Prelude.{◌≡◌, ◌≢◌, ◌<◌, ◌==◌, ℕ, List, Option, false, length, Ok, Err, IfOk, IfErr};
ghost use Rattle.std.specs.Io.{ReadsAtMost};
ghost use Rattle.std.specs.Io.KnownBytes.{ReadConsumes};
ghost use Rattle.std.specs.IoError.{error_kind};
ghost use Rattle.mc_stream.specs.Sides.{MovesNothing, Reads, Writes};

use crate::outcomes::Pumped;
use std::io::{Error, ErrorKind, Read, Write};

/// Writes an output in one call, and returns how many of its first bytes the writer took: 0 if the output is empty, or
/// if the writer takes none now.
///
/// The error is how a pump stops, and nothing was written: `Again` if the call was interrupted, `Failed` if the writer
/// failed, or took nothing without an error.
pub fn write_once<W: Write>(writer: &mut W, output: &[u8]) -> Result<usize, Pumped>
    ensures { Writes result output.now (W.contents writer.old) (W.contents writer.new) }
{
    if output.is_empty() {
        return Ok(0);
    }
    match writer.write(output) {
        Ok(0) => Err(Pumped::Failed),
        Ok(count) => Ok(count),
        Err(error) => moved_nothing(&error),
    }
}

/// Reads into a piece in one call, and returns how many bytes arrived, which are the first of the piece: 0 if the input has
/// ended, and then `ended` is set, or if the reader has none now.
///
/// The error is how a pump stops, and nothing arrived: `Again` if the call was interrupted, `Failed` if the reader failed.
pub fn read_once<R: Read>(
    reader: &mut R,
    piece: &mut [u8],
    ended: &mut bool,
) -> Result<usize, Pumped>
    requires piece { 0 < length piece.old }
    requires goes_on { ended.old ≡ false }
    ensures { Reads result piece.new ended.new (R.remaining reader.old) (R.remaining reader.new) }
{
    read_result(reader.read(piece), ended)
}

/// Interprets the result of a read that another caller made, as [`read_once`] interprets its own. It returns how many bytes
/// arrived, which are the first of the piece. 0 is the end, and sets `ended`. An error is interpreted likewise.
pub fn read_result(read: Result<usize, Error>, ended: &mut bool) -> Result<usize, Pumped>
    requires goes_on { ended.old ≡ false }
    ensures came { IfOk read (λ count. (result ≡ Ok count) × (ended.new ≡ (count == 0))) }
    ensures error { IfErr read (λ error. MovesNothing result × (ended.new ≡ false)) }
    ensures reads { (piece : List ℕ) (unread unread' : Option (List ℕ)) → 0 < length piece → ReadsAtMost read piece
        → ReadConsumes unread unread' read piece → Reads result piece ended.new unread unread' }
{
    match read {
        Ok(count) => {
            *ended = count == 0;
            Ok(count)
        }
        Err(error) => moved_nothing(&error),
    }
}

/// Interprets an error of a read or a write: nothing moved, or how the pump stops.
fn moved_nothing(error: &Error) -> Result<usize, Pumped>
    ensures nothing { MovesNothing result }
    ensures waits { error_kind error.now ≡ ErrorKind.WouldBlock → result ≡ Ok 0 }
    ensures interrupted { error_kind error.now ≡ ErrorKind.Interrupted → result ≡ Err Pumped.Again }
    ensures failed { error_kind error.now ≢ ErrorKind.WouldBlock → error_kind error.now ≢ ErrorKind.Interrupted → result ≡ Err Pumped.Failed }
{
    match error.kind() {
        ErrorKind::WouldBlock => Ok(0),
        ErrorKind::Interrupted => Err(Pumped::Again),
        _ => Err(Pumped::Failed),
    }
}
