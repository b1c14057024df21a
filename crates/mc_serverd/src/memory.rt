//! How much memory a server may come to take, and the report of it at its start.
ghost use Rattle.std.specs.Prelude.{◌≡◌, ◌+◌, ◌≤◌, ◌<◌, ◌^◌};
ghost use Rattle.mc_cache.specs.CacheState.{IsWithinBounds};
ghost use Rattle.mc_serverd.specs.Memory.{below, filled_by, lower_of, memory_of, met_limit, tenths_of};

use crate::groups::group_limit;
use crate::items::advice_of;
use crate::options::PROGRAM;
use crate::settings::Settings;
use libc::getrlimit;
use libc::types::rlimit;
use mc_net::ROOM_AHEAD;
use mc_server::MAX_CONNECTIONS;
use std::fmt;
use std::fmt::{Display, Formatter};
use std::fs::Files;

/// The hundredths of a byte of the process that each byte of the items' cost may take.
const HUNDREDTHS: u64 = 107;

/// The bytes of the process that the table takes for each of the most items.
const TABLE_BYTES: u64 = 112;

/// The bytes of the process that each client may take, whatever others keep: its share, and as much for its buffers' growth and for what is known
/// of it.
const CLIENT_BYTES: u64 = 32_768;

/// What an item of 120 bytes costs.
const USUAL_COST: u64 = 184;

/// The number of the limit of a process's addresses, `RLIMIT_AS` of Linux. `libc` here has no name for it.
const RLIMIT_AS: i32 = 9;

/// The bytes of an MB in reports.
const MEGABYTE: u64 = 1_000_000;

/// The bytes of a GB in reports.
const GIGABYTE: u64 = 1_000_000_000;

/// A limit of a process's memory, in bytes.
#[derive(Clone, Copy, Debug, PartialEq, Eq)]
pub enum Limit {
    /// Of its addresses.
    Addresses(u64),
    /// Of its control group.
    Group(u64),
}

/// Returns how much memory a server with a budget and at most this many items may come to take, in bytes: 1.07 of the budget, 112 bytes for each
/// item, and `buffers` bytes for clients. For each client there may be 32,768 bytes, and for the one that is ahead [`ROOM_AHEAD`].
pub fn memory_of(budget: u64, items: usize, buffers: u64) -> u64
    requires { IsWithinBounds budget items }
    ensures { result ≡ memory_of budget items buffers }
{
    let stored = budget * HUNDREDTHS / 100 + items as u64 * TABLE_BYTES;
    let clients = MAX_CONNECTIONS as u64 * CLIENT_BYTES + ROOM_AHEAD;
    (stored + clients).saturating_add(buffers)
}

/// Returns what this many items of 120 bytes cost, if that leaves some of the budget.
pub fn filled_by(items: usize, budget: u64) -> Option<u64>
    requires { IsWithinBounds budget items }
    ensures { result ≡ filled_by items budget }
{
    let filled = items as u64 * USUAL_COST;
    (filled < budget).then_some(filled)
}

/// Returns the limit that a server meets which takes this much memory: the lower one of those that are below it.
pub fn met_limit(memory: u64, addresses: Option<u64>, group: Option<u64>) -> Option<Limit>
    ensures { result ≡ met_limit memory addresses group }
{
    lower_of(below(memory, addresses), below(memory, group))
}

/// Returns a limit, if it exists and is below this much.
fn below(memory: u64, limit: Option<u64>) -> Option<u64>
    ensures { result ≡ below memory limit }
{
    match limit {
        Some(limit) if limit < memory => Some(limit),
        _ => None,
    }
}

/// Returns the lower one of two optional limits.
fn lower_of(addresses: Option<u64>, group: Option<u64>) -> Option<Limit>
    ensures { result ≡ lower_of addresses group }
{
    let Some(group) = group else {
        return addresses.map(Limit::Addresses);
    };
    match addresses {
        Some(addresses) if addresses < group => Some(Limit::Addresses(addresses)),
        _ => Some(Limit::Group(group)),
    }
}

/// Returns the limit of this process's addresses; none if the system does not report it.
fn address_limit() -> Option<u64> {
    let mut limit = rlimit {
        rlim_cur: 0,
        rlim_max: 0,
    };
    if getrlimit(RLIMIT_AS, &mut limit) < 0 {
        return None;
    }
    Some(limit.rlim_cur)
}

/// Returns a number of bytes in tenths of a unit, to the nearest.
fn tenths_of(tenth: u64, bytes: u64) -> u64
    requires some { 0 < tenth }
    requires fits { bytes + tenth < 2 ^ 64 }
    ensures { result ≡ tenths_of tenth bytes }
{
    (bytes + tenth / 2) / tenth
}

/// A number of bytes as it is reported: in MB, and from 1,000,000,000 bytes on in GB, each with a tenth.
#[derive(Clone, Copy)]
struct Amount(u64);

impl Display for Amount {
    fn fmt<W: fmt::Write>(&self, f: &mut Formatter<W>) -> fmt::Result {
        let bytes = self.0.min(u64::MAX - GIGABYTE);
        let (unit, name) = if bytes < GIGABYTE {
            (MEGABYTE, "MB")
        } else {
            (GIGABYTE, "GB")
        };
        let tenths = tenths_of(unit / 10, bytes);
        write!(f, "{}.{} {name}", tenths / 10, tenths % 10)
    }
}

/// A number as it is reported: with a comma after its thousands and its millions.
#[derive(Clone, Copy)]
struct Grouped(u64);

impl Display for Grouped {
    fn fmt<W: fmt::Write>(&self, f: &mut Formatter<W>) -> fmt::Result {
        let (millions, thousands, ones) = (self.0 / 1_000_000, self.0 / 1000 % 1000, self.0 % 1000);
        if millions > 0 {
            write!(f, "{millions},{thousands:03},{ones:03}")
        } else if thousands > 0 {
            write!(f, "{thousands},{ones:03}")
        } else {
            write!(f, "{ones}")
        }
    }
}

impl Display for Limit {
    fn fmt<W: fmt::Write>(&self, f: &mut Formatter<W>) -> fmt::Result {
        match self {
            Limit::Addresses(limit) => write!(f, "limit {} (ulimit -v)", Amount(*limit)),
            Limit::Group(limit) => write!(f, "limit {} (control group)", Amount(*limit)),
        }
    }
}

/// Reports on standard error how much memory a server may come to take, and the limit that it then meets. If items of 120 bytes do not
/// use its budget up, it also reports how much of it they fill.
pub fn tell_memory<R: Eprint + Files + AllocGlobal>(rt: &R, settings: &Settings) {
    let Settings {
        budget,
        items,
        service,
        ..
    } = *settings;
    let memory = memory_of(budget, items, service.buffers);
    let (taken, costs, count) = (Amount(memory), Amount(budget), Grouped(items as u64));
    let kept = Amount(service.buffers);
    // Best effort: a failed write to standard error must not stop serving.
    let _ = match met_limit(memory, address_limit(), group_limit(rt)) {
        Some(limit) => eprintln!(rt;
            "{PROGRAM}: may take {taken}: budget {costs}, {count} items, buffers {kept}; {limit}"
        ),
        None => eprintln!(rt;
            "{PROGRAM}: may take {taken}: budget {costs}, {count} items, buffers {kept}"
        ),
    };
    let Some(filled) = filled_by(items, budget) else {
        return;
    };
    let part = Amount(filled);
    let _ = match advice_of(items, filled, items, budget) {
        Some(advice) => eprintln!(rt;
            "{PROGRAM}: {count} items of 120 bytes fill {part} of {costs}: {advice}"
        ),
        None => eprintln!(rt; "{PROGRAM}: {count} items of 120 bytes fill {part} of {costs}"),
    };
}
