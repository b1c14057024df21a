//! How many files a proxy has open beside its clients.
ghost use Rattle.std.specs.Prelude.{◌≡◌, ◌-◌, ◌^◌, min};
ghost use Rattle.mc_proxyd.specs.Rooms.{files_beside, files_of_each};

use crate::limits::{LISTING_FILES, LOOKUP_FILES, WAKING_FILES};
use crate::settings::ProxySettings;
use mc_net::Operators;
use mc_program::OWN_FILES;
use mc_ring::{Ring, SERVER_LIMIT};

/// Returns how many files a proxy over a ring has open at most beside its clients, with these settings and operators, up to 2^64 - 1.
pub fn files_of(ring: &Ring, settings: &ProxySettings, operators: &Operators) -> u64 {
    let others = other_files(
        ring.servers().len(),
        settings.join.is_some(),
        settings.list.is_some(),
        settings.may_look_up(),
    );
    others.saturating_add(operators.files())
}

/// Returns how many files a proxy over `servers` servers has open at most beside its clients, up to 2^64 - 1. These are its own; and the one
/// by which look-ups wake it, if a server may have a host's name (`named`). Then a socket for each server, and for the one that joins, if one
/// does (`joins`), or the sockets of its look-up in place of it. If a file lists the servers (`listed`), it is that file, and for each of the
/// most servers of a ring a socket and those of a look-up beside it.
fn other_files(servers: usize, joins: bool, listed: bool, named: bool) -> u64
    ensures { result ≡ min (files_beside servers joins listed named) (2 ^ 64 - 1) }
{
    let waking = if named { WAKING_FILES } else { 0 };
    let each = files_of_each(listed, named);
    if listed {
        return OWN_FILES + waking + LISTING_FILES + SERVER_LIMIT as u64 * each;
    }
    let servers = (servers as u64).saturating_add(u64::from(joins));
    servers
        .saturating_mul(each)
        .saturating_add(OWN_FILES + waking)
}

/// Returns how many files each server has open at most. If a file gives a server a new address, the look-up of the old one may go on beside
/// the link to the new one. Without a file a link begins once its look-up has ended.
fn files_of_each(listed: bool, named: bool) -> u64
    ensures { result ≡ files_of_each listed named }
{
    if listed {
        1 + LOOKUP_FILES
    } else if named {
        LOOKUP_FILES
    } else {
        1
    }
}
