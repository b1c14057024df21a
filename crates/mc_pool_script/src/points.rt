//! Points of a ring, by the text after the line's name.
ghost use Rattle.std.specs.Prelude.{◌≡◌, ◌<◌, IfSome};
ghost use Rattle.mc_pool_script.specs.PoolScripts.{hex_of, point_of};

use crate::server_lines::read_server;
use mc_ring::Point;
use mc_script::{cut_at_space, hex_value};

/// How many digits a point has.
const DIGITS: usize = 8;

/// `<8 hexadecimal digits> <server>`
#[tactic(auto, unfolding(crate::specs::PoolScripts::point_of))]
pub fn read_point(servers: usize, text: &[u8]) -> Option<Point>
    ensures point { result ≡ point_of servers text.now }
    ensures inside { IfSome result (λ point. point.place < servers) }
{
    let (point, server) = cut_at_space(text)?;
    let point = read_hex(point)?;
    let place = read_server(servers, server)?;
    Some(Point { point, place })
}

/// The number of eight hexadecimal digits.
fn read_hex(word: &[u8]) -> Option<u32>
    ensures { result ≡ hex_of word.now }
{
    if word.len() != DIGITS {
        return None;
    }
    let mut number: u64 = 0;
    for digit in word {
        let value = hex_value(*digit)?;
        number = 16 * number + value as u64;
    }
    Some(number as u32)
}
