//! A run: a script in, its text out.
ghost use Rattle.std.specs.Prelude.{IfErr, IfSome, OnOk};
ghost use Rattle.mc_sim.specs.Runs.{IsBadLineOf, Prints, StopsBeforeWriting};

use crate::kinds::StoreKind;
use crate::texts::{Printed, text_of_input};
use mc_script::{SimError, read_input, write_text};
use std::alloc::Global;
use std::io::{Read, Write};

/// Reads a script to its end, and writes its text ([`text_of_input`]). Any cause that stops it, except a failed write,
/// stops it before anything is written.
///
/// The clauses are about the bytes that the reader has and the writer holds, if those are known. For standard input and
/// output they are not. There the contract of [`text_of_input`] is what is promised. Its three lines show that this
/// function passes it all bytes that it read, and passes on all that it returns.
pub fn run<R: Read, W: Write>(
    alloc: Global,
    kind: StoreKind,
    printed: Printed,
    reader: &mut R,
    writer: &mut W,
) -> Result<(), SimError>
    ensures printed { OnOk result (IfSome (R.remaining reader.old)
        (λ input. Prints printed input (W.contents writer.old) (W.contents writer.new))) }
    ensures bad_line { IfErr result (λ error. IfSome (R.remaining reader.old) (λ input. IsBadLineOf error input)) }
    ensures unwritten { IfErr result
        (λ error. StopsBeforeWriting error (W.contents writer.old) (W.contents writer.new)) }
{
    let input = read_input(alloc, reader)?;
    let text = text_of_input(alloc, kind, printed, input.as_slice())?;
    write_text(writer, text.as_slice())
}
