//! The hosts by which a request of HTTP may call the program.
ghost use Rattle.std.specs.Prelude.{◌≡◌, ◌==◌, position};
ghost use Rattle.std.specs.List.{before_first};
ghost use Rattle.mc_admin.specs.Hosts.{host_of, is_known, are_called};

use http1::text::eq_ignore_case;

/// The hosts by which a request of HTTP may call the program, beside `localhost`. A browser that another site led to this address
/// names that site's host instead.
#[derive(Clone, Copy, Debug)]
pub struct Hosts<'a> {
    /// The host that the listener was given.
    pub listen: &'a [u8],
    /// Another name that was given; empty for none.
    pub name: &'a [u8],
    /// The address at which the connection arrived.
    pub own: &'a [u8],
}

impl Hosts<'_> {
    /// Returns whether a host is one of them, in any case of letters.
    #[tactic(auto, unfolding(crate::specs::Hosts::is_known))]
    pub fn is_known(&self, host: &[u8]) -> bool
        ensures { result ≡ is_known self.now host.now }
    {
        !host.is_empty() && self.are_called(host)
    }

    /// Returns whether a text is one of them.
    fn are_called(&self, host: &[u8]) -> bool
        ensures { result ≡ are_called self.now host.now }
    {
        eq_ignore_case(host, b"localhost")
            || eq_ignore_case(host, self.listen)
            || eq_ignore_case(host, self.name)
            || eq_ignore_case(host, self.own)
    }
}

/// Returns the host of a field `Host`: the text before its port.
#[tactic(auto, unfolding(crate::specs::Hosts::host_of))]
pub fn host_of(value: &[u8]) -> &[u8]
    ensures { result.now ≡ host_of value.now }
{
    before(b':', value)
}

/// Returns the bytes before the first of this byte; all if there is none.
pub fn before(byte: u8, text: &[u8]) -> &[u8]
    ensures { result.now ≡ before_first (λ b. b == byte) text.now }
{
    match place_of(byte, text) {
        Some(place) => {
            let (front, _) = text.split_at(place);
            front
        }
        None => text,
    }
}

/// Returns the place of the first of this byte.
fn place_of(byte: u8, text: &[u8]) -> Option<usize>
    ensures { result ≡ position (λ b. b == byte) text.now }
{
    text.iter().position(|b| *b == byte)
}
