//! The text of a script: a line for each client.
ghost use Rattle.std.specs.Prelude.{◌≡◌, ◌↔◌, ℕ, Err, IfErr, IfOk, IsErrOf, IsOkUnless, OnOk};
ghost use Rattle.std.specs.Io.KnownBytes.{Appends};
ghost use Rattle.mc_script.specs.Texts.{IsTextOf};
ghost use Rattle.mc_script.specs.ScriptSeen.{Explains};
ghost use Rattle.mc_script.specs.Scripts.{script_of};

use crate::errors::{Side, SimError};
use crate::outputs::{played_server, push_output_lines};
use crate::scripts::read_script;
use crate::stores::ScriptStore;
use std::alloc::Global;
use std::io::Write;

/// The text that is printed for a script: a line for each of its clients, in order. It has the bytes that a server over such a
/// store sends the client when it plays the script. The error is the script's first bad line, or `Memory`.
///
/// The contract has no condition: it holds of every input, whatever its source. If the call succeeds, the input is a script, and
/// the lines are those of outputs that answer it. If the error names a line, the input is no script, and that line is its first bad
/// one. If the error is `Memory`, the input is a script.
pub fn text_of_script<S: ScriptStore>(alloc: Global, input: &[u8]) -> Result<Vec<u8>, SimError>
    ensures text { IfOk result (λ text. IsTextOf input.now text.items) }
    ensures error { IfErr result (λ error. Explains error (script_of input.now)) }
    ensures bad_line { (line : ℕ) → IsErrOf result (SimError.BadLine line) ↔ (script_of input.now ≡ Err line) }
{
    let script = read_script(alloc, input)?;
    let server = played_server::<S>(alloc, &script)?;
    let mut text = Vec::new(alloc);
    push_output_lines(&server, script.connections, &mut text)?;
    Ok(text)
}

/// Writes a text. If that fails, a part of it may have been written.
pub fn write_text<W: Write>(writer: &mut W, text: &[u8]) -> Result<(), SimError>
    ensures written { OnOk result (Appends (W.contents writer.old) (W.contents writer.new) text.now) }
    ensures only_output { IsOkUnless result (SimError.Stream Side.Output) }
{
    writer
        .write_all(text)
        .map_err(|_| SimError::Stream(Side::Output))
}
