//! The text of a pool script: a line for each client, and the account of the play if it is asked for.
ghost use Rattle.std.specs.Prelude.{IfErr, IfOk};
ghost use Rattle.mc_script.specs.ScriptSeen.{Explains};
ghost use Rattle.mc_pool_script.specs.PoolScripts.{pool_script_of};
ghost use Rattle.mc_pool_script.specs.PoolTexts.{AreStepsOf, IsAccountOf, IsPoolTextOf};

use crate::outputs::push_output_lines;
use crate::plays::played_script;
use crate::printed::push_account;
use crate::scripts::read_pool_script;
use mc_script::{ScriptStore, SimError};
use mc_world::Step;
use std::alloc::Global;

/// The text that is printed for a pool script: a line for each of its clients, in order. It has the bytes that were emitted to
/// the client by a world of servers over such stores that executed the script's lines in order. The error is the script's first
/// bad line, or `Memory`.
///
/// The contract has no condition: it holds of every input, whatever its source. If the call succeeds, the input is a script,
/// and the lines are those of a world that has played it, and that gives account. If the error names a line, the input is no
/// script, and that line is its first bad one.
pub fn text_of_pool_script<S: ScriptStore>(alloc: Global, input: &[u8]) -> Result<Vec<u8>, SimError>
    ensures text { IfOk result (λ text. IsPoolTextOf input.now text.items) }
    ensures error { IfErr result (λ error. Explains error (pool_script_of input.now)) }
{
    let script = read_pool_script(alloc, input)?;
    let played = played_script::<S>(alloc, &script)?;
    let mut text = Vec::new(alloc);
    push_output_lines(&played.world, script.all_clients(), &mut text)?;
    Ok(text)
}

/// The text of [`text_of_pool_script`], and after it the account of the play: what each line did, what each client sent, and
/// what each server took.
pub fn account_of_pool_script<S: ScriptStore>(
    alloc: Global,
    input: &[u8],
) -> Result<Vec<u8>, SimError>
    ensures text { IfOk result (λ text. IsAccountOf input.now text.items) }
    ensures error { IfErr result (λ error. Explains error (pool_script_of input.now)) }
{
    let script = read_pool_script(alloc, input)?;
    let played = played_script::<S>(alloc, &script)?;
    let (clients, servers) = (script.all_clients(), script.server_count());
    let mut text = Vec::new(alloc);
    push_output_lines(&played.world, clients, &mut text)?;
    push_account(alloc, &played, clients, servers, &mut text)?;
    Ok(text)
}

/// What each line of a pool script does, in order, in a world that executes them. A server that joins is `Done`.
pub fn steps_of_pool_script<S: ScriptStore>(
    alloc: Global,
    input: &[u8],
) -> Result<Vec<Step>, SimError>
    ensures steps { IfOk result (λ steps. AreStepsOf input.now steps.items) }
    ensures error { IfErr result (λ error. Explains error (pool_script_of input.now)) }
{
    let script = read_pool_script(alloc, input)?;
    let played = played_script::<S>(alloc, &script)?;
    Ok(played.steps)
}
