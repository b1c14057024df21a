//! Where to listen, and the address of a peer.
ghost use Rattle.std.specs.Prelude.{◌≡◌, true, false, Result, IfErr, IfOk, IfSome, IsErrOf};
ghost use Rattle.std.specs.Net.Addr.{is_ipv4};
ghost use Rattle.std.specs.Net.Socket.{socket_ip};
ghost use Rattle.std.specs.Net.ToAddrs.{HostAddrs, GivesAddrOfText};
ghost use Rattle.std.specs.declared.io.Error.{Error};
ghost use Rattle.mc_text.specs.Addresses.{is_address};
ghost use Rattle.mc_program.specs.Statuses.{status_of_error};
ghost use Rattle.mc_program.specs.declared.errors.ListenError.TheVariants.{NoAddress, UnknownHost};
ghost use Rattle.mc_program.specs.declared.errors.ServeError.TheVariants.{Listen};
ghost use Rattle.mc_net.specs.Bindings.{Spells};
ghost use Rattle.mc_net.specs.Bindings.{address_by, first_ipv4};

use crate::keeping::keep_alive;
use mc_program::{ListenError, ServeError};
use mc_text::is_address;
use mio::net::TcpListener;
use std::io;
use std::net::{HostAddrs, Net, SocketAddr, SocketAddrV4, ToSocketAddrs};

/// Listens at a host and a port, `<host>:<port>`, by the first IPv4 address that the host has.
///
/// A host that is a name is looked up, so this may block on a name server. An IPv4 address is not looked up. The error says why it
/// cannot listen: the text is no address, the host is unknown, or what the system says.
pub fn bind<R: Net>(rt: &R, listen: &str) -> Result<TcpListener, ServeError>
    ensures address { IfOk result (λ _. is_address listen.now ≡ true) }
    ensures no_address { is_address listen.now ≡ false → IsErrOf result (Listen NoAddress) }
    ensures err { IfErr result (λ error. status_of_error error ≡ 3) }
{
    let address = address_of(rt, listen)?;
    let listener = TcpListener::bind(rt, address)?;
    keep_alive(&listener);
    Ok(listener)
}

/// Returns where to listen, or why that is impossible.
fn address_of<R: Net>(rt: &R, listen: &str) -> Result<SocketAddr, ServeError>
    ensures no_address { is_address listen.now ≡ false → IsErrOf result (Listen NoAddress) }
    ensures address { is_address listen.now ≡ true →
        (found : Result HostAddrs Error) × GivesAddrOfText listen.now found × (result ≡ address_by (first_ipv4 found)) }
{
    if !is_address(listen.as_bytes()) {
        return Err(ServeError::Listen(ListenError::NoAddress));
    }
    match first_address(rt, listen) {
        Some(address) => Ok(address),
        None => Err(ServeError::Listen(ListenError::UnknownHost)),
    }
}

/// Returns the first IPv4 address of a host and a port, `<host>:<port>`; none if the host is unknown, or has none.
///
/// A host that is a name is looked up, as by [`bind`]: no contract says what a look-up finds. The first of its results is taken.
pub fn first_address<R: Net>(rt: &R, place: &str) -> Option<SocketAddr>
    ensures ipv4 { IfSome result (λ address. is_ipv4 (socket_ip address) ≡ true) }
    ensures first { (found : Result HostAddrs Error) × GivesAddrOfText place.now found × (result ≡ first_ipv4 found) }
{
    first_ipv4(place.to_socket_addrs(rt))
}

/// Returns the address that a text spells, `<IPv4 address>:<port>`; none if it spells none, for example because it has a host's name.
/// Nothing is looked up: for a text that spells an address [`first_address`] returns the same.
pub fn spelled_address(place: &str) -> Option<SocketAddr>
    ensures { Spells place.now result }
{
    let address = place.parse::<SocketAddrV4>().ok()?;
    Some(SocketAddr::V4(address))
}

/// Returns the first IPv4 address of those that a look-up found.
fn first_ipv4(found: io::Result<HostAddrs>) -> Option<SocketAddr>
    ensures first { result ≡ first_ipv4 found }
    ensures ipv4 { IfSome result (λ address. is_ipv4 (socket_ip address) ≡ true) }
{
    for address in found.ok()? {
        if address.is_ipv4() {
            return Some(address);
        }
    }
    None
}
