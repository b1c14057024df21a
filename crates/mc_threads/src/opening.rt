//! The proxy of a run, before its first round.
ghost use Rattle.std.specs.Prelude.{◌≡◌, [], length, MatchResult};
ghost use Rattle.mc_threads.specs.Accounts.{joined, texts_of};
ghost use Rattle.mc_threads.specs.Talks.{HasAdmitted, HasFed, Talks};

use crate::errors::Ended;
use mc_proxy::Proxy;
use mc_ring::Ring;
use std::alloc::Global;

/// A proxy whose links are all up, and which was fed all bytes that the clients send.
pub fn opened_proxy(alloc: Global, ring: &Ring, inputs: &[Vec<Vec<u8>>]) -> Result<Proxy, Ended>
    ensures { MatchResult result (λ proxy. Talks ring.now (length inputs.now) (texts_of inputs.now) (λ _. []) (λ _. []) (λ _. []) proxy) (λ cause. cause ≡ Ended.Memory) }
{
    let mut proxy = raised_proxy(alloc, ring.copy()?)?;
    for client in 0..inputs.len() {
        admit_one(&mut proxy, &inputs[client])?;
    }
    Ok(proxy)
}

/// A proxy without clients, whose links are all up with the first generation.
fn raised_proxy(alloc: Global, ring: Ring) -> Result<Proxy, Ended>
    ensures { MatchResult result (λ proxy. Talks ring 0 (λ _. []) (λ _. []) (λ _. []) (λ _. []) proxy) (λ cause. cause ≡ Ended.Memory) }
{
    let places = ring.servers().len();
    let mut proxy = Proxy::new(alloc, ring)?;
    for place in 0..places {
        proxy.back(place)?;
    }
    Ok(proxy)
}

/// Admits a client, and takes all pieces of its text.
fn admit_one(proxy: &mut Proxy, pieces: &Vec<Vec<u8>>) -> Result<(), Ended>
    ensures { MatchResult result (λ _. HasAdmitted (joined pieces.now.items) proxy.old proxy.new) (λ cause. cause ≡ Ended.Memory) }
{
    let client = proxy.admit()?;
    feed_all(proxy, client, pieces)?;
    Ok(())
}

/// Takes all pieces of a client's text.
fn feed_all(proxy: &mut Proxy, client: u64, pieces: &Vec<Vec<u8>>) -> Result<(), Ended>
    ensures { MatchResult result (λ _. HasFed client (joined pieces.now.items) proxy.old proxy.new) (λ cause. cause ≡ Ended.Memory) }
{
    for place in 0..pieces.len() {
        feed_one(proxy, client, pieces[place].as_slice())?;
    }
    Ok(())
}

/// Takes a piece of a client's text.
fn feed_one(proxy: &mut Proxy, client: u64, piece: &[u8]) -> Result<(), Ended>
    ensures { MatchResult result (λ _. HasFed client piece.now proxy.old proxy.new) (λ cause. cause ≡ Ended.Memory) }
{
    proxy.feed(client, piece)?;
    Ok(())
}
