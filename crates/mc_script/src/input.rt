//! All bytes of a reader.
ghost use Rattle.std.specs.Prelude.{◌≡◌, ℕ, IfOk, IfSome, IsErrOf};

use crate::errors::{Side, SimError};
use std::alloc::Global;
use std::io::Read;

/// How many bytes each read asks for.
const PIECE_LEN: usize = 4096;

/// The most reads.
const MAX_READS: u64 = 16_777_216;

/// All bytes of a reader, to its end, which must be reached by the 16,777,216th read. The error is `Stream(Input)` if a
/// read fails or the end is not reached, and `Memory` if the bytes cannot be kept.
pub fn read_input<R: Read>(alloc: Global, reader: &mut R) -> Result<Vec<u8>, SimError>
    ensures input { IfOk result (λ input. IfSome (R.remaining reader.old) (λ bytes. input.items ≡ bytes)) }
    ensures never_bad_line { (line : ℕ) → ¬ IsErrOf result (SimError.BadLine line) }
    ensures never_output { ¬ IsErrOf result (SimError.Stream Side.Output) }
{
    let mut input = Vec::new(alloc);
    let mut piece = [0; PIECE_LEN];
    for _ in 0..MAX_READS {
        let Ok(count) = reader.read(&mut piece) else {
            return Err(SimError::Stream(Side::Input));
        };
        if count == 0 {
            return Ok(input);
        }
        let (come, _) = piece.split_at(count);
        input.extend_from_slice(come)?;
    }
    Err(SimError::Stream(Side::Input))
}
