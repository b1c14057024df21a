//! The settings that a proxy starts with.
ghost use Rattle.std.specs.Prelude.{◌≡◌, ◌/◌, min, IfSome, IsSomeAnd, MatchBool};
ghost use Rattle.mc_proxyd.specs.Names.{AreSpelled, HasName, HaveName, IsSpelled, MayLookUp, NeedsNoLookUp};

use crate::servers::NamedServer;
use mc_program::Terms;
use mc_proxy::Losses;
use mc_ring::Address;
use std::fmt;
use std::fmt::{Display, Formatter};
use std::net::SocketAddrV4;

/// The most bytes that are kept for all clients and links, by default: 256 MiB.
const USUAL_BUFFERS: u64 = 268_435_456;

/// The most bytes that an answer may have, by default: 256 MiB.
const USUAL_ANSWER: u64 = 268_435_456;

/// The settings that a proxy starts with, beside its ring.
#[derive(Drop)]
pub struct ProxySettings {
    /// On which terms all clients are served.
    pub terms: Terms,
    /// The answer to a request whose command is lost.
    pub losses: Losses,
    /// If more bytes are kept for one client with pending answers, its turns and reads stop until it is fewer.
    pub held: u64,
    /// The most bytes that are kept for all clients and links.
    pub buffers: u64,
    /// The most bytes that an answer may have: a request whose replies are more closes its connection.
    pub answer: u64,
    /// The timeout of a server's replies in milliseconds; 0 for none. A server whose oldest pending command waits for longer loses its link, and
    /// so does one of which any command waits for four times as long. While bytes arrive, a command may wait longer.
    pub timeout: u64,
    /// Where the servers of the ring are: an address for each, in its order.
    pub addresses: Vec<Address>,
    /// The file that lists the servers while the proxy runs, if there is one.
    pub list: Option<String>,
    /// Which server joins, and with which client: 1 is the first. If it cannot, it is tried with each later client.
    pub join: Option<(NamedServer, u64)>,
}

impl ProxySettings {
    /// Returns the most bytes that may be kept for one request once it is the oldest one: [`answer`](ProxySettings::answer), and no more than half of
    /// [`buffers`](ProxySettings::buffers), since the answer is a copy of what is kept.
    pub fn answer_limit(&self) -> u64
        ensures { result ≡ min self.now.answer (self.now.buffers / 2) }
    {
        self.answer.min(self.buffers / 2)
    }

    /// Returns whether a host's name may have to be looked up: one of its words has it, or a file, which may have another one
    /// later.
    pub fn may_look_up(&self) -> bool
        ensures { MatchBool result (MayLookUp self.now.list self.now.join self.now.addresses.items)
            (NeedsNoLookUp self.now.list self.now.join self.now.addresses.items) }
    {
        if self.list.is_some() {
            return true;
        }
        if joins_by_name(&self.join) {
            return true;
        }
        have_name(self.addresses.as_slice())
    }
}

/// Prints the answer to lost commands, and the limits of buffers and answers, if they are not at their defaults.
impl Display for ProxySettings {
    fn fmt<W: fmt::Write>(&self, f: &mut Formatter<W>) -> fmt::Result {
        if self.losses == Losses::Missed {
            f.write_str(" lost missed")?;
        }
        if self.buffers != USUAL_BUFFERS {
            write!(f, " buffers {}", self.buffers)?;
        }
        if self.answer != USUAL_ANSWER {
            write!(f, " answer {}", self.answer)?;
        }
        Ok(())
    }
}

/// Returns whether the server that joins, if one does, has a host's name.
fn joins_by_name(join: &Option<(NamedServer, u64)>) -> bool
    ensures { MatchBool result (IsSomeAnd join.now (λ joins. HasName joins.0.address)) (IfSome join.now (λ joins. IsSpelled joins.0.address)) }
{
    match join {
        Some((server, _)) => has_name(&server.address),
        None => false,
    }
}

/// Returns whether one of these addresses has a host's name.
fn have_name(addresses: &[Address]) -> bool
    ensures { MatchBool result (HaveName addresses.now) (AreSpelled addresses.now) }
{
    let [address, addresses @ ..] = addresses else {
        return false;
    };
    if has_name(address) {
        return true;
    }
    have_name(addresses)
}

/// Returns whether an address has a host's name, and no IPv4 address.
fn has_name(address: &Address) -> bool
    ensures { MatchBool result (HasName address.now) (IsSpelled address.now) }
{
    match SocketAddrV4::parse_ascii(address.as_bytes()) {
        Ok(_) => false,
        Err(_) => true,
    }
}
