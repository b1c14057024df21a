//! Lines of servers and their links, by the text after the line's name.
ghost use Rattle.std.specs.Prelude.{◌≡◌, ◌^◌, ◌<◌, ◌==◌, None, Some, length, position, IfSome, MatchOption};
ghost use Rattle.mc_script.specs.Numbers.{place_of};
ghost use Rattle.mc_pool_script.specs.PoolLines.{HasMoment, cut_at_colon, end_line, link_of, serve_line, to_proxy_line, to_server_line, words_of_link};

use crate::client_lines::read_count;
use crate::lines::PoolLine;
use mc_script::{cut_at_space, read_moment, read_place};
use mc_text::read_u64;
use mc_world::Event;

/// `<link> <generation> <count>`
#[tactic(auto, unfolding(crate::specs::PoolLines::to_server_line))]
pub fn read_to_server(known: &[usize], text: &[u8]) -> Option<PoolLine>
    ensures line { result ≡ to_server_line known.now text.now }
    ensures moment { IfSome result (λ line. HasMoment line (2 ^ 63)) }
{
    let (link, after) = cut_at_space(text)?;
    let (generation, count) = cut_at_space(after)?;
    let (proxy, server) = read_link(known, link)?;
    let generation = read_u64(generation)?;
    let count = read_count(count)?;
    Some(PoolLine::Event(Event::ToServer {
        proxy,
        server,
        generation,
        count,
    }))
}

/// `<link> <generation> <moment>`
#[tactic(auto, unfolding(crate::specs::PoolLines::serve_line))]
pub fn read_serve(known: &[usize], text: &[u8]) -> Option<PoolLine>
    ensures line { result ≡ serve_line known.now text.now }
    ensures moment { IfSome result (λ line. HasMoment line (2 ^ 63)) }
{
    let (link, after) = cut_at_space(text)?;
    let (generation, moment) = cut_at_space(after)?;
    let (proxy, server) = read_link(known, link)?;
    let generation = read_u64(generation)?;
    let moment = read_moment(moment)?;
    Some(PoolLine::Event(Event::ServerTurn {
        proxy,
        server,
        generation,
        moment,
    }))
}

/// `<link> <count>`
#[tactic(auto, unfolding(crate::specs::PoolLines::to_proxy_line))]
pub fn read_to_proxy(known: &[usize], text: &[u8]) -> Option<PoolLine>
    ensures line { result ≡ to_proxy_line known.now text.now }
    ensures moment { IfSome result (λ line. HasMoment line (2 ^ 63)) }
{
    let (link, count) = cut_at_space(text)?;
    let (proxy, server) = read_link(known, link)?;
    let count = read_count(count)?;
    Some(PoolLine::Event(Event::ToProxy {
        proxy,
        server,
        count,
    }))
}

/// `<link> <generation>`
#[tactic(auto, unfolding(crate::specs::PoolLines::end_line))]
pub fn read_end(known: &[usize], text: &[u8]) -> Option<PoolLine>
    ensures line { result ≡ end_line known.now text.now }
    ensures moment { IfSome result (λ line. HasMoment line (2 ^ 63)) }
{
    let (link, generation) = cut_at_space(text)?;
    let (proxy, server) = read_link(known, link)?;
    let generation = read_u64(generation)?;
    Some(PoolLine::Event(Event::ServerSeesEnd {
        proxy,
        server,
        generation,
    }))
}

/// The place of a server that exists.
pub fn read_server(servers: usize, word: &[u8]) -> Option<usize>
    ensures place { result ≡ place_of servers word.now }
    ensures inside { IfSome result (λ place. place < servers) }
{
    let place = read_place(word, servers as u64)?;
    Some(place as usize)
}

/// A proxy and one of its servers, by how many servers each proxy knows: `<proxy>:<server>`, or `<server>` for proxy 0.
#[tactic(auto, unfolding(crate::specs::PoolLines::link_of))]
pub fn read_link(known: &[usize], word: &[u8]) -> Option<(usize, usize)>
    ensures link { result ≡ link_of known.now word.now }
{
    let (proxy, server) = words_of_link(word);
    let proxy = read_server(known.len(), proxy)?;
    let server = read_server(known[proxy], server)?;
    Some((proxy, server))
}

/// The words of a proxy and its server.
fn words_of_link(word: &[u8]) -> (&[u8], &[u8])
    ensures proxy { result.0.now ≡ (words_of_link word.now).0 }
    ensures server { result.1.now ≡ (words_of_link word.now).1 }
{
    match cut_at_colon(word) {
        Some((proxy, server)) => (proxy, server),
        None => (b"0", word),
    }
}

/// The text before the first colon, and the text after it.
#[tactic(auto, unfolding(crate::specs::PoolLines::cut_at_colon))]
fn cut_at_colon(text: &[u8]) -> Option<(&[u8], &[u8])>
    ensures { MatchOption result (cut_at_colon text.now ≡ None)
        (λ p. cut_at_colon text.now ≡ Some (p.0.now, p.1.now)) }
{
    let end = find_colon(text)?;
    let (front, _) = text.split_at(end);
    let (_, rest) = text.split_at(end + 1);
    Some((front, rest))
}

/// The index of the first colon.
fn find_colon(text: &[u8]) -> Option<usize>
    ensures place { result ≡ position (λ b. b == 58) text.now }
    ensures inside { IfSome result (λ end. end < length text.now) }
{
    text.iter().position(|b| *b == b':')
}
