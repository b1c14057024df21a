//! Addresses of a pool's servers.
ghost use Rattle.std.specs.Prelude.{◌≡◌, ◌≤◌, ◌<◌, IfOk, IsOkUnless};
ghost use Rattle.mc_pool_script.specs.PoolLines.{address_read};
ghost use Rattle.mc_pool_script.specs.PoolScripts.{first_server, first_servers};

use itoa::Buffer;
use mc_ring::{Address, RingError};
use mc_script::SimError;
use std::alloc::{AllocError, Global};

/// The port of the first server.
const FIRST_PORT: u64 = 11_211;

/// The addresses of the first servers, this number of them.
pub fn first_addresses(alloc: Global, count: u64) -> Result<Vec<Address>, SimError>
    requires { count ≤ 64 }
    ensures addresses { IfOk result (λ addresses. addresses.items ≡ first_servers count) }
    ensures only_memory { IsOkUnless result SimError.Memory }
{
    let mut addresses = Vec::new(alloc);
    for place in 0..count {
        addresses.push(first_address(alloc, place)?)?;
    }
    Ok(addresses)
}

/// The address that a text is, if it is one.
pub fn address_of(alloc: Global, text: &[u8]) -> Result<Option<Address>, SimError>
    ensures address { IfOk result (λ found. found ≡ address_read text.now) }
    ensures only_memory { IsOkUnless result SimError.Memory }
{
    match Address::new(alloc, text) {
        Ok(address) => Ok(Some(address)),
        Err(RingError::Memory) => Err(SimError::Memory),
        Err(_) => Ok(None),
    }
}

/// The address of the server of a place.
fn first_address(alloc: Global, place: u64) -> Result<Address, SimError>
    requires { place < 64 }
    ensures address { IfOk result (λ address. address ≡ first_server place) }
    ensures only_memory { IsOkUnless result SimError.Memory }
{
    let text = first_text(alloc, place)?;
    let Some(address) = address_of(alloc, text.as_slice())? else {
        unreachable!();
    };
    Ok(address)
}

/// The text of the address of the server of a place.
#[tactic(auto, unfolding(crate::specs::PoolScripts::first_server))]
fn first_text(alloc: Global, place: u64) -> Result<Vec<u8>, AllocError>
    requires { place < 64 }
    ensures { IfOk result (λ text. text.items ≡ first_server place) }
{
    let mut digits = Buffer::new();
    let mut text = Vec::new(alloc);
    text.extend_from_slice(b"127.0.0.1:")?;
    text.extend_from_slice(digits.format(FIRST_PORT + place).as_bytes())?;
    Ok(text)
}
