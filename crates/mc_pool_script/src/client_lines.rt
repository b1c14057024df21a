//! Lines of clients, by the text after the line's name.
ghost use Rattle.std.specs.Prelude.{◌≡◌, ◌^◌, IfOk, IfSome, IsOkUnless};
ghost use Rattle.mc_pool_script.specs.PoolLines.{HasMoment, bytes_line, count_of, takes_line};

use crate::lines::PoolLine;
use mc_script::{SimError, cut_at_space, read_escaped, read_place};
use mc_text::{Block, read_u64};
use mc_world::Event;
use std::alloc::Global;

/// `<client> <text>`
#[tactic(auto, unfolding(crate::specs::PoolLines::bytes_line))]
pub fn read_bytes(alloc: Global, clients: u64, text: &[u8]) -> Result<Option<PoolLine>, SimError>
    ensures line { IfOk result (λ found. found ≡ bytes_line clients text.now) }
    ensures moment { IfOk result (λ found. IfSome found (λ line. HasMoment line (2 ^ 63))) }
    ensures only_memory { IsOkUnless result SimError.Memory }
{
    let Some((client, escaped)) = cut_at_space(text) else {
        return Ok(None);
    };
    let Some(client) = read_place(client, clients) else {
        return Ok(None);
    };
    Ok(read_escaped(alloc, escaped)?.map(|bytes| {
        PoolLine::Event(Event::ClientBytes {
            client,
            bytes: Block::from(bytes),
        })
    }))
}

/// `<client> <count>`
#[tactic(auto, unfolding(crate::specs::PoolLines::takes_line))]
pub fn read_takes(clients: u64, text: &[u8]) -> Option<PoolLine>
    ensures line { result ≡ takes_line clients text.now }
    ensures moment { IfSome result (λ line. HasMoment line (2 ^ 63)) }
{
    let (client, count) = cut_at_space(text)?;
    let client = read_place(client, clients)?;
    let count = read_count(count)?;
    Some(PoolLine::Event(Event::ClientTakes { client, count }))
}

/// How many bytes: a number, or `all`, which stands for the greatest.
pub fn read_count(word: &[u8]) -> Option<usize>
    ensures { result ≡ count_of word.now }
{
    if word == b"all".as_slice() {
        return Some(usize::MAX);
    }
    let count = read_u64(word)?;
    Some(count as usize)
}
