//! The figures that a program shows.
ghost use Rattle.std.specs.Prelude.{◌≡◌, ◌++◌, true, OnOk};
ghost use Rattle.mc_admin.specs.Lists.{own, further, client_figures, process_figures, traffic_figures, resident_figures, missed_figures, store_figures, command_figures, item_figures, link_number, of_each, link_figures};

use crate::figures::{Figure, Value};
use crate::names::Name;
use std::alloc::AllocError;

/// What is known of a program, and of the clients that it serves.
#[derive(Clone, Copy, Debug)]
pub struct ClientFigures {
    /// The number of the process.
    pub pid: u64,
    /// Seconds since the start.
    pub uptime: u64,
    /// Seconds since 1970.
    pub time: u64,
    /// Clients that are connected.
    pub connected: u64,
    /// The most clients at a time.
    pub most: u64,
    /// Clients that were accepted.
    pub accepted: u64,
    /// Clients that were closed as they connected.
    pub refused: u64,
    /// Requests and faulty lines that were taken.
    pub requests: u64,
    /// Bytes from clients.
    pub read: u64,
    /// Bytes to clients.
    pub written: u64,
    /// Bytes that are kept for clients, items not among them.
    pub buffered: u64,
    /// The memory of the process, in bytes; none if the system does not say.
    pub resident: Option<u64>,
}

/// What is known of what a server stores.
#[derive(Clone, Copy, Debug)]
pub struct StoreFigures {
    /// Keys of retrievals with a stored item.
    pub hits: u64,
    /// Keys of retrievals without a stored item.
    pub misses: u64,
    /// Values that were stored.
    pub stores: u64,
    /// Items that were evicted to make room.
    pub evictions: u64,
    /// Expired items that were removed or replaced.
    pub expired: u64,
    /// How often the system gave no memory for a request.
    pub no_memory: u64,
    /// Items that are stored.
    pub items: u64,
    /// What they cost, in bytes.
    pub used: u64,
    /// What items may cost in all, in bytes.
    pub budget: u64,
    /// The most items.
    pub most: u64,
}

/// What is known of a server of a proxy.
#[derive(Clone, Copy, Debug)]
pub struct LinkFigures<'a> {
    /// Its name, or its address without one.
    pub server: &'a [u8],
    /// 1 if it is connected, and is not silent after commands to it were lost; else 0.
    pub up: u64,
    /// How often its connection was lost.
    pub losses: u64,
    /// Commands that were sent on its connection.
    pub sent: u64,
    /// Commands of these that had no reply when it was lost.
    pub lost: u64,
    /// Commands of these that have no reply yet.
    pub waiting: u64,
}

/// Appends the figures of the clients that a program serves to a list.
pub fn push_client_figures(
    clients: &ClientFigures,
    figures: &mut Vec<Figure<'_>>,
) -> Result<(), AllocError>
    ensures { OnOk result (figures.new.items ≡ figures.old.items ++ client_figures clients.now) }
{
    figures.extend_from_slice(&process_figures(clients))?;
    figures.extend_from_slice(&traffic_figures(clients))?;
    push_resident(clients.resident, figures)
}

/// Returns the figures of a process.
#[tactic(auto, unfolding(crate::specs::Lists::process_figures))]
fn process_figures(clients: &ClientFigures) -> [Figure<'static>; 6]
    ensures { result ≡ process_figures clients.now }
{
    [
        own(Name::Up, 1),
        own(Name::Pid, clients.pid),
        own(Name::Uptime, clients.uptime),
        own(Name::Time, clients.time),
        Figure {
            name: Name::Version,
            server: None,
            value: Value::Version,
            first: true,
        },
        own(Name::Threads, 1),
    ]
}

/// Returns the figures of its clients, and of their traffic.
#[tactic(auto, unfolding(crate::specs::Lists::traffic_figures))]
fn traffic_figures(clients: &ClientFigures) -> [Figure<'static>; 8]
    ensures { result ≡ traffic_figures clients.now }
{
    [
        own(Name::CurrConnections, clients.connected),
        own(Name::MaxConnections, clients.most),
        own(Name::TotalConnections, clients.accepted),
        own(Name::RejectedConnections, clients.refused),
        own(Name::Requests, clients.requests),
        own(Name::BytesRead, clients.read),
        own(Name::BytesWritten, clients.written),
        own(Name::Buffered, clients.buffered),
    ]
}

/// Appends the memory of the process to a list, if the system says it.
fn push_resident(resident: Option<u64>, figures: &mut Vec<Figure<'_>>) -> Result<(), AllocError>
    ensures { OnOk result (figures.new.items ≡ figures.old.items ++ resident_figures resident) }
{
    let Some(bytes) = resident else {
        return Ok(());
    };
    figures.push(own(Name::Resident, bytes))?;
    Ok(())
}

/// Appends the requests of a proxy's clients whose answers hide a loss to a list, if they are counted.
pub fn push_missed(missed: Option<u64>, figures: &mut Vec<Figure<'_>>) -> Result<(), AllocError>
    ensures { OnOk result (figures.new.items ≡ figures.old.items ++ missed_figures missed) }
{
    let Some(count) = missed else {
        return Ok(());
    };
    figures.push(own(Name::Missed, count))?;
    Ok(())
}

/// Appends the figures of what a server stores to a list.
pub fn push_store_figures(
    store: &StoreFigures,
    figures: &mut Vec<Figure<'_>>,
) -> Result<(), AllocError>
    ensures { OnOk result (figures.new.items ≡ figures.old.items ++ store_figures store.now) }
{
    figures.extend_from_slice(&command_figures(store))?;
    figures.extend_from_slice(&item_figures(store))
}

/// Returns the figures of commands.
#[tactic(auto, unfolding(crate::specs::Lists::command_figures))]
fn command_figures(store: &StoreFigures) -> [Figure<'static>; 4]
    ensures { result ≡ command_figures store.now }
{
    [
        own(Name::CmdGet, store.hits.wrapping_add(store.misses)),
        own(Name::GetHits, store.hits),
        further(Name::GetMisses, store.misses),
        further(Name::CmdSet, store.stores),
    ]
}

/// Returns the figures of items, stored and removed.
#[tactic(auto, unfolding(crate::specs::Lists::item_figures))]
fn item_figures(store: &StoreFigures) -> [Figure<'static>; 8]
    ensures { result ≡ item_figures store.now }
{
    [
        own(Name::CurrItems, store.items),
        own(Name::TotalItems, store.stores),
        own(Name::Bytes, store.used),
        own(Name::LimitMaxbytes, store.budget),
        own(Name::LimitItems, store.most),
        own(Name::Evictions, store.evictions),
        own(Name::Expired, store.expired),
        own(Name::NoMemory, store.no_memory),
    ]
}

/// Appends the figures of a proxy's servers to a list.
pub fn push_link_figures<'a>(
    links: &[LinkFigures<'a>],
    figures: &mut Vec<Figure<'a>>,
) -> Result<(), AllocError>
    ensures { OnOk result (figures.new.items ≡ figures.old.items ++ link_figures links.now) }
{
    push_of_each(Name::ServerUp, links, figures)?;
    push_of_each(Name::ServerLosses, links, figures)?;
    push_of_each(Name::ServerSent, links, figures)?;
    push_of_each(Name::ServerLost, links, figures)?;
    push_of_each(Name::ServerWaiting, links, figures)
}

/// Appends a number of each server to a list.
fn push_of_each<'a>(
    name: Name,
    links: &[LinkFigures<'a>],
    figures: &mut Vec<Figure<'a>>,
) -> Result<(), AllocError>
    ensures { OnOk result (figures.new.items ≡ figures.old.items ++ of_each true name links.now) }
{
    let mut first = true;
    for link in links {
        figures.push(Figure {
            name,
            server: Some(link.server),
            value: Value::Number(link_number(name, link)),
            first,
        })?;
        first = false;
    }
    Ok(())
}

/// Makes a number of the program's own, the first of its metric.
fn own(name: Name, number: u64) -> Figure<'static>
    ensures { result ≡ own name number }
{
    Figure {
        name,
        server: None,
        value: Value::Number(number),
        first: true,
    }
}

/// Makes a number of the program's own that is not the first of its metric.
fn further(name: Name, number: u64) -> Figure<'static>
    ensures { result ≡ further name number }
{
    Figure {
        name,
        server: None,
        value: Value::Number(number),
        first: false,
    }
}

/// Returns the number that a name stands for, if it is of a proxy's server.
fn link_number(name: Name, link: &LinkFigures<'_>) -> u64
    ensures { result ≡ link_number name link.now }
{
    match name {
        Name::ServerUp => link.up,
        Name::ServerLosses => link.losses,
        Name::ServerSent => link.sent,
        Name::ServerLost => link.lost,
        Name::ServerWaiting => link.waiting,
        _ => 0,
    }
}
