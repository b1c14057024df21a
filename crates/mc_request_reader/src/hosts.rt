//! Lines of another protocol: headers of HTTP requests.
ghost use Rattle.std.specs.Prelude.{◌≡◌};
ghost use Rattle.mc_request_reader.specs.Hosts.{begins_host, names_host};

use mc_text::without_spaces;

/// Returns whether a text begins with `host:` behind any spaces, with letters in any case: the header by which an HTTP request names the
/// host that it asks. A browser that was misled to this port sends it. Mostly it reads one byte.
#[inline]
pub fn names_host(text: &[u8]) -> bool
    ensures { result ≡ names_host text.now }
{
    begins_host(without_spaces(text))
}

/// Returns whether a text begins with `host:`, with letters in any case.
#[inline(always)]
fn begins_host(text: &[u8]) -> bool
    ensures { result ≡ begins_host text.now }
{
    matches!(
        text,
        [b'h' | b'H', b'o' | b'O', b's' | b'S', b't' | b'T', b':', ..]
    )
}
