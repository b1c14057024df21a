//! Addresses.
ghost use Rattle.std.specs.Prelude.{◌≡◌, ◌==◌, length, position};
ghost use Rattle.std.specs.List.{list_all};
ghost use Rattle.mc_text.specs.Addresses.{is_host_byte, is_host, is_port, is_address};

use crate::numbers::read_u64;

/// The most bytes that a host has.
pub const HOST_LIMIT: usize = 255;

/// The greatest port.
const PORT_LIMIT: u64 = 65_535;

/// Returns whether a text is an address: a host of 1 to 255 letters, digits, dots and hyphens, a colon, and a port
/// from 1 to 65535 in decimal digits without a leading zero. It takes no memory.
pub fn is_address(text: &[u8]) -> bool
    ensures { result ≡ is_address text.now }
{
    let Some(place) = colon_of(text) else {
        return false;
    };
    let (host, rest) = text.split_at(place);
    let (_, port) = rest.split_at(1);
    is_host(host) && is_port(port)
}

/// Returns the index of the first colon.
fn colon_of(text: &[u8]) -> Option<usize>
    ensures { result ≡ position (λ b. b == 58) text.now }
{
    text.iter().position(|b| *b == b':')
}

/// Returns whether a word is a host: 1 to 255 letters, digits, dots and hyphens.
pub fn is_host(word: &[u8]) -> bool
    ensures { result ≡ is_host word.now }
{
    !word.is_empty() && word.len() <= HOST_LIMIT && has_host_bytes_alone(word)
}

fn has_host_bytes_alone(word: &[u8]) -> bool
    ensures { result ≡ list_all is_host_byte word.now }
{
    word.iter()
        .all(|b| b.is_ascii_alphanumeric() || *b == b'.' || *b == b'-')
}

/// Returns whether a word is a port: a number from 1 to 65535 without a leading zero.
fn is_port(word: &[u8]) -> bool
    ensures { result ≡ is_port word.now }
{
    !matches!(word, [b'0', ..])
        && read_u64(word).is_some_and(|port| port >= 1 && port <= PORT_LIMIT)
}
