//! Lists of servers in words.
ghost use Rattle.std.specs.Prelude.{◌≡◌, ◌<◌, ◌≤◌, ◌+◌, ◌^◌, ◌⊎◌, ◌++◌, map, vec_len, length, None, Some, IfOk, IfErr, OnOk};
ghost use Rattle.mc_proxyd.specs.Mistakes.{mistake_among, mistake_of_words};
ghost use Rattle.mc_proxyd.specs.Servers.{address_of, name_of};

use crate::lists::{Mistake, next_server};
use crate::servers::NamedServer;
use mc_ring::SERVER_LIMIT;
use std::alloc::Global;

/// Returns the servers of words, in their order. The error is the first mistake in them, or `Memory`. The first word has the
/// number 1.
pub fn servers_of(alloc: Global, words: &[&str]) -> Result<Vec<NamedServer>, Mistake>
    ensures names { IfOk result (λ servers. map (λ server. server.name) servers.items ≡ map (λ word. name_of word.now) words.now) }
    ensures addresses { IfOk result (λ servers. map (λ server. server.address) servers.items ≡ map (λ word. address_of word.now) words.now) }
    ensures few { IfOk result (λ servers. vec_len servers ≤ SERVER_LIMIT) }
    ensures right { OnOk result (mistake_of_words (map (λ word. word.now) words.now) ≡ None) }
    ensures mistake { IfErr result (λ mistake. (mistake ≡ Mistake.Memory)
        ⊎ (mistake_of_words (map (λ word. word.now) words.now) ≡ Some mistake)) }
{
    if words.is_empty() {
        return Err(Mistake::NoneAtAll);
    }
    let mut servers = Vec::new(alloc);
    add_words(alloc, &mut servers, words, 1)?;
    Ok(servers)
}

/// Adds the servers of words, the first of which has this number. The error is the first mistake in them, or `Memory`.
fn add_words(
    alloc: Global,
    servers: &mut Vec<NamedServer>,
    words: &[&str],
    number: u64,
) -> Result<(), Mistake>
    requires fits { number + length words.now < 2 ^ 64 }
    requires few { vec_len servers.old ≤ SERVER_LIMIT }
    ensures names { OnOk result (map (λ server. server.name) servers.new.items
        ≡ map (λ server. server.name) servers.old.items ++ map (λ word. name_of word.now) words.now) }
    ensures addresses { OnOk result (map (λ server. server.address) servers.new.items
        ≡ map (λ server. server.address) servers.old.items ++ map (λ word. address_of word.now) words.now) }
    ensures few { vec_len servers.new ≤ SERVER_LIMIT }
    ensures right { OnOk result (mistake_among number (map (λ server. server.name) servers.old.items) (map (λ word. word.now) words.now) ≡ None) }
    ensures mistake { IfErr result (λ mistake. (mistake ≡ Mistake.Memory)
        ⊎ (mistake_among number (map (λ server. server.name) servers.old.items) (map (λ word. word.now) words.now) ≡ Some mistake)) }
{
    let [word, words @ ..] = words else {
        return Ok(());
    };
    let server = next_server(alloc, servers.as_slice(), word, number)?;
    servers.push(server)?;
    add_words(alloc, servers, words, number + 1)
}
