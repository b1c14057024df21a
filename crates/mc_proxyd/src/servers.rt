//! The servers of a pool: how they are named, and where they are.
ghost use Rattle.std.specs.Prelude.{◌≡◌, true, false, IfOk, IsErrOf, IsOkUnless};
ghost use Rattle.mc_proxyd.specs.Servers.{name_of, address_of, is_server};

use crate::options::ListError;
use mc_ring::Address;
use mc_text::is_address;
use std::alloc::Global;

/// A server of a pool. Its name stays if its machine is replaced by another at another address: then no key moves.
#[derive(Clone, Debug, Drop)]
pub struct NamedServer {
    /// The text by which keys are spread, and by which the program's lines name the server.
    pub name: Address,
    /// Where it is.
    pub address: Address,
}

impl NamedServer {
    /// Makes the server of a word: `<name>:<port>=<host>:<port>`, or `<host>:<port>`, which is its name and its address. The
    /// error is `Bad` if either is no address, and else `Memory`.
    pub fn new(alloc: Global, word: &str) -> Result<NamedServer, ListError>
        ensures name { IfOk result (λ server. server.name ≡ name_of word.now) }
        ensures address { IfOk result (λ server. server.address ≡ address_of word.now) }
        ensures bad { is_server word.now ≡ false → IsErrOf result ListError.Bad }
        ensures memory { is_server word.now ≡ true → IsOkUnless result ListError.Memory }
    {
        let (name, address) = parts_of(word);
        if !is_address(name.as_bytes()) || !is_address(address.as_bytes()) {
            return Err(ListError::Bad);
        }
        Ok(NamedServer {
            name: Address::new(alloc, name.as_bytes())?,
            address: Address::new(alloc, address.as_bytes())?,
        })
    }
}

/// Returns the name and the address that a word says.
fn parts_of(word: &str) -> (&str, &str)
    ensures name { result.0.now ≡ name_of word.now }
    ensures address { result.1.now ≡ address_of word.now }
{
    match word.split_once('=') {
        Some((name, address)) => (name, address),
        None => (word, word),
    }
}
