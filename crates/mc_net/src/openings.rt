//! Which protocol a connection speaks, by its first bytes.
ghost use Rattle.std.specs.Prelude.{◌≡◌};
ghost use Rattle.mc_text.specs.Forms.{or_else, text_at};
ghost use Rattle.mc_text.specs.FormsSeen.{seen_by};
ghost use Rattle.mc_net.specs.Openings.{http_at, method_at, opening_by, opening_of, request_at};

use mc_text::{Unready, text};
use std::fmt;
use std::fmt::{Display, Formatter};

/// After this number of bytes it is known who sends them: the longest opening is `OPTIONS http`.
pub const OPENING_LEN: usize = 12;

/// A client that does not speak the text protocol, by what it speaks. Its text says what its operator can do.
#[derive(Clone, Copy, Debug, PartialEq, Eq)]
pub enum Stranger {
    /// HTTP: a method, a space and the beginning of a target.
    Http,
    /// Memcached's binary protocol, whose requests begin with the byte 0x80.
    Binary,
    /// TLS, whose greeting begins with the byte 0x16.
    Tls,
}

impl Display for Stranger {
    fn fmt<W: fmt::Write>(&self, f: &mut Formatter<W>) -> fmt::Result {
        f.write_str(match self {
            Stranger::Http => "HTTP: set the client to memcached's text protocol",
            Stranger::Binary => "binary protocol: set the client to text",
            Stranger::Tls => "TLS: set the client to connect without TLS",
        })
    }
}

/// What the first bytes of a connection are.
#[derive(Clone, Copy, Debug, PartialEq, Eq)]
pub enum Opening {
    /// They may yet be a stranger's: more bytes must arrive, or the end.
    Unsettled,
    /// They are the text protocol, or an error in it.
    Text,
    /// They are a stranger's.
    Strange(Stranger),
}

/// Returns what the first bytes of a connection are.
#[tactic(auto, unfolding(crate::specs::Openings::opening_of))]
pub fn opening_of(bytes: &[u8]) -> Opening
    ensures { result ≡ opening_of bytes.now }
{
    match bytes {
        [] => Opening::Unsettled,
        [0x80, ..] => Opening::Strange(Stranger::Binary),
        [0x16, ..] => Opening::Strange(Stranger::Tls),
        _ => opening_by(http(bytes)),
    }
}

/// Returns what bytes are, given this attempt to read them as a request of HTTP.
fn opening_by(seen: Result<&[u8], Unready>) -> Opening
    ensures { result ≡ opening_by (seen_by (λ rest. rest.now) seen.entry) }
{
    match seen {
        Ok(_) => Opening::Strange(Stranger::Http),
        Err(Unready::More(_)) => Opening::Unsettled,
        Err(Unready::Strange) => Opening::Text,
    }
}

/// Returns the bytes after the beginning of a request of HTTP.
fn http(bytes: &[u8]) -> Result<&[u8], Unready>
    ensures { seen_by (λ rest. rest.now) result ≡ http_at bytes.now }
{
    text_or(b"OPTIONS *", bytes, request(bytes))
}

/// Returns the bytes after a method of HTTP, a space and the beginning of a path or of an address in full.
fn request(bytes: &[u8]) -> Result<&[u8], Unready>
    ensures { seen_by (λ rest. rest.now) result ≡ request_at bytes.now }
{
    let target = method(bytes)?;
    text_or(b"/", target, text(b"http", target))
}

/// Returns the bytes after a method of HTTP and a space.
fn method(bytes: &[u8]) -> Result<&[u8], Unready>
    ensures { seen_by (λ rest. rest.now) result ≡ method_at bytes.now }
{
    let seen = text(b"OPTIONS ", bytes);
    let seen = text_or(b"PATCH ", bytes, seen);
    let seen = text_or(b"DELETE ", bytes, seen);
    let seen = text_or(b"HEAD ", bytes, seen);
    let seen = text_or(b"PUT ", bytes, seen);
    let seen = text_or(b"POST ", bytes, seen);
    text_or(b"GET ", bytes, seen)
}

/// Returns the bytes after a text; if the text is not at the front, and cannot be, the other reading.
fn text_or<'a>(
    one: &[u8],
    bytes: &'a [u8],
    other: Result<&'a [u8], Unready>,
) -> Result<&'a [u8], Unready>
    ensures { seen_by (λ rest. rest.now) result ≡ or_else (text_at one.now bytes.now) (seen_by (λ rest. rest.now) other.entry) }
{
    match text(one, bytes) {
        Err(Unready::Strange) => other,
        seen => seen,
    }
}
