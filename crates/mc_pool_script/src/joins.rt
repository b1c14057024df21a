//! Lines of servers that join.
ghost use Rattle.std.specs.Prelude.{◌≡◌, ◌^◌, IfOk, IfSome, IsOkUnless, is_some};
ghost use Rattle.mc_ring.specs.Refusals.{refusal_of_more};
ghost use Rattle.mc_pool_script.specs.PoolLines.{HasMoment, join_line, joining, words_of_join};

use crate::addresses::address_of;
use crate::lines::PoolLine;
use crate::server_lines::read_server;
use mc_ring::{Address, SERVER_LIMIT};
use mc_script::{SimError, cut_at_space};
use std::alloc::Global;

/// `<address>`, or `<proxy> <address>`: of a new server if the proxy knows all of these, and else of the next that it does not know.
#[tactic(auto, unfolding(crate::specs::PoolLines::join_line))]
pub fn read_join(
    alloc: Global,
    servers: &[Address],
    known: &[usize],
    text: &[u8],
) -> Result<Option<PoolLine>, SimError>
    ensures line { IfOk result (λ found. found ≡ join_line servers.now known.now text.now) }
    ensures moment { IfOk result (λ found. IfSome found (λ line. HasMoment line (2 ^ 63))) }
    ensures only_memory { IsOkUnless result SimError.Memory }
{
    let (proxy, address) = words_of_join(text);
    let Some(proxy) = read_server(known.len(), proxy) else {
        return Ok(None);
    };
    let Some(address) = address_of(alloc, address)? else {
        return Ok(None);
    };
    Ok(joining(servers, known[proxy], proxy, address))
}

/// The words of a proxy and an address.
fn words_of_join(text: &[u8]) -> (&[u8], &[u8])
    ensures proxy { result.0.now ≡ (words_of_join text.now).0 }
    ensures address { result.1.now ≡ (words_of_join text.now).1 }
{
    match cut_at_space(text) {
        Some((proxy, address)) => (proxy, address),
        None => (b"0", text),
    }
}

/// The line of a server that joins at a proxy, of which it knows this many.
fn joining(servers: &[Address], next: usize, proxy: usize, address: Address) -> Option<PoolLine>
    ensures line { result ≡ joining servers.now next proxy address }
    ensures moment { IfSome result (λ line. HasMoment line (2 ^ 63)) }
{
    match servers.get(next) {
        Some(server) => {
            if *server != address {
                return None;
            }
            Some(PoolLine::Learn(proxy, address))
        }
        None => {
            if is_refused(servers, &address) {
                return None;
            }
            Some(PoolLine::Join(proxy, address))
        }
    }
}

/// Whether a server cannot join these: there are 64, or it is one of them.
fn is_refused(servers: &[Address], server: &Address) -> bool
    ensures { result ≡ is_some (refusal_of_more servers.now server.now) }
{
    servers.len() >= SERVER_LIMIT || servers.contains(server)
}
