//! The bytes that were emitted to the clients of a world.
ghost use Rattle.std.specs.Prelude.{◌≡◌, ◌++◌, IsOkUnless, OnOk};
ghost use Rattle.mc_script.specs.Escapes.{client_lines};
ghost use Rattle.mc_pool_script.specs.Plays.{outs_of};

use mc_script::{ScriptStore, SimError, push_client_line};
use mc_world::World;

/// Appends lines to a text that show the bytes that were emitted to the first clients.
pub fn push_output_lines<S: ScriptStore>(
    world: &World<S>,
    clients: usize,
    out: &mut Vec<u8>,
) -> Result<(), SimError>
    ensures lines { OnOk result (out.new.items ≡ out.old.items ++ client_lines (outs_of clients world.now.course)) }
    ensures only_memory { IsOkUnless result SimError.Memory }
{
    for client in 0..clients as u64 {
        let Ok(bytes) = world.put_out(client) else {
            return Err(SimError::Memory);
        };
        push_client_line(client, bytes.as_slice(), out)?;
    }
    Ok(())
}
