//! What a list of servers changes of the present servers.
ghost use Rattle.std.specs.Prelude.{◌≡◌, ◌<◌, ◌+◌, ◌^◌, length};
ghost use Rattle.mc_proxyd.specs.Changes.{change_by, missing_from, moved_from};

use crate::servers::NamedServer;

/// The next step by which the servers become those of a list.
#[derive(Clone, Copy, Debug, PartialEq, Eq)]
pub enum Change {
    /// Nothing.
    Nothing,
    /// The list cannot be followed: the server at this place is not at its place in the list.
    Missing(usize),
    /// The server at this place has another address in the list.
    Moved(usize),
    /// The list's server at this place joins.
    Joined(usize),
}

/// Returns the next step by which the servers become those of a list. Each server stays at its place: a list that would remove or
/// rename one is refused before anything is done.
pub fn change_by(servers: &[NamedServer], list: &[NamedServer]) -> Change
    ensures { result ≡ change_by servers.now list.now }
{
    if let Some(place) = missing_from(servers, list, 0) {
        return Change::Missing(place);
    }
    if let Some(place) = moved_from(servers, list, 0) {
        return Change::Moved(place);
    }
    if servers.len() < list.len() {
        Change::Joined(servers.len())
    } else {
        Change::Nothing
    }
}

/// Returns the first place at which the list lacks the servers' name. Both slices begin at `place`.
fn missing_from(servers: &[NamedServer], list: &[NamedServer], place: usize) -> Option<usize>
    requires { place + length servers.now < 2 ^ 64 }
    ensures { result ≡ missing_from servers.now list.now place }
{
    let [server, servers @ ..] = servers else {
        return None;
    };
    let [line, list @ ..] = list else {
        return Some(place);
    };
    if line.name == server.name {
        missing_from(servers, list, place + 1)
    } else {
        Some(place)
    }
}

/// Returns the first place at which the list has another address than the servers. Both slices begin at `place`.
fn moved_from(servers: &[NamedServer], list: &[NamedServer], place: usize) -> Option<usize>
    requires { place + length servers.now < 2 ^ 64 }
    ensures { result ≡ moved_from servers.now list.now place }
{
    let [server, servers @ ..] = servers else {
        return None;
    };
    let [line, list @ ..] = list else {
        return None;
    };
    if line.address == server.address {
        moved_from(servers, list, place + 1)
    } else {
        Some(place)
    }
}
