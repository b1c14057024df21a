//! A client of a world.
ghost use Rattle.std.specs.Prelude.{◌≡◌};
ghost use Rattle.mc_world.specs.Worlds.{nobody};

use std::alloc::Global;
use std::marker::Model;

/// A client: the bytes that it sent, and those that it took. Contracts see both.
#[derive(Drop)]
pub(crate) struct Client {
    pub(crate) text: Vec<u8>,
    pub(crate) taken: Vec<u8>,
}

impl Model for Client {
    ghost use Rattle.mc_world.specs.Worlds.{ClientState};

    ghost Value = { ClientState };

    ghost view = { λ c. record { text = c.text.items; taken = c.taken.items } };
}

impl Client {
    /// A client that sent and took nothing.
    pub(crate) fn new(alloc: Global) -> Self
        ensures { result ≡ nobody }
    {
        Client {
            text: Vec::new(alloc),
            taken: Vec::new(alloc),
        }
    }
}
