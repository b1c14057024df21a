//! Worked examples, computed from the definitions alone.
#![tactic(auto)]

ghost use Rattle.std.specs.Prelude.{◌≡◌, codes};
ghost use Rattle.mc_route.specs.declared.losses.Losses.TheVariants.{Told, Missed};
ghost use Rattle.mc_proxy.specs.Examples.{answers_in, store_and_get};

/// A store with `noreply` is lost, and a `get` of another server's key follows. With `Told` the first line to the client is about the store.
/// With `Missed` it is the answer to the `get`, as a client expects that reads nothing for `noreply`.
pub fn lost_store_before_a_get()
    ensures told { answers_in (store_and_get Told) ≡ codes "SERVER_ERROR link lost\r\nVALUE b 1 1\r\nx\r\nEND\r\n" }
    ensures missed { answers_in (store_and_get Missed) ≡ codes "VALUE b 1 1\r\nx\r\nEND\r\n" }
{}
