//! Runs of a pool on threads.

use crate::lent::{Meeting, ShutForOne, Ticks};
use mc_ring::{Address, Point, Ring, RingError};
use mc_threads::{Clock, Gate, PoolConfig, Ran, ThreadsError, run_threads};
use std::alloc::{AllocError, Global};
use std::sync::Wait;
use std::sync::atomic::Ordering;
use std::test::Fail;
use std::thread::Threads;
use std::time::Clock as Time;

const ADDRESSES: [&[u8]; 5] = [
    b"127.0.0.1:11211",
    b"127.0.0.1:11212",
    b"127.0.0.1:11213",
    b"127.0.0.1:11214",
    b"127.0.0.1:11215",
];

const ASKED: &[u8] =
    b"add a 0 0 1\r\nx\r\nadd a 0 0 1\r\ny\r\nappend a 9 9 1\r\nz\r\nreplace b 0 0 1\r\ny\r\nget a\r\ndelete a 0\r\ndelete a\r\n";

const ANSWERED: &[u8] =
    b"STORED\r\nNOT_STORED\r\nSTORED\r\nNOT_STORED\r\nVALUE a 0 2\r\nxz\r\nEND\r\nDELETED\r\nNOT_FOUND\r\n";

/// The moments of servers' clocks that do not fail.
const MOMENTS: [Option<u32>; 5] = [Some(100); 5];

/// The first addresses, this number of them.
fn addresses(alloc: Global, servers: usize) -> Result<Vec<Address>, RingError> {
    let mut all = Vec::new(alloc);
    for address in ADDRESSES.iter().take(servers) {
        all.push(Address::new(alloc, address)?)?;
    }
    Ok(all)
}

/// A ring of the first addresses, this number of them.
fn ring_of(alloc: Global, servers: usize) -> Result<Ring, RingError> {
    Ring::new(alloc, addresses(alloc, servers)?.as_slice())
}

/// A ring of two servers, of which the first has the key `abc` and the second has `a`.
fn ring_of_two(alloc: Global) -> Result<Ring, RingError> {
    let points = [
        Point {
            point: 0x9850_0190,
            place: 0,
        },
        Point {
            point: 0xb975_c10c,
            place: 1,
        },
    ];
    Ring::of_points(alloc, addresses(alloc, 2)?.as_slice(), points.as_slice())
}

/// The first clocks, this number of them, each of which gives its moment.
fn clocks(alloc: Global, count: usize, moments: &[Option<u32>]) -> Result<Vec<Ticks>, Fail> {
    let mut all = Vec::new(alloc);
    for &moment in moments.iter().take(count) {
        all.push(Ticks {
            times: Vec::new(alloc),
            moment,
        })?;
    }
    Ok(all)
}

/// This number of clients, each of which sends this number of equal pieces.
fn inputs(
    alloc: Global,
    clients: usize,
    pieces: usize,
    piece: &[u8],
) -> Result<Vec<Vec<Vec<u8>>>, AllocError> {
    let mut all = Vec::new(alloc);
    for _ in 0..clients {
        let mut text = Vec::new(alloc);
        for _ in 0..pieces {
            text.push(piece.to_vec(alloc)?)?;
        }
        all.push(text)?;
    }
    Ok(all)
}

/// A run over a ring, with small caches.
fn run<G: Gate + Sync, R: Threads + Wait + Time + Sync>(
    rt: &R,
    alloc: Global,
    ring: Ring,
    inputs: &Vec<Vec<Vec<u8>>>,
    clocks: Vec<Ticks>,
    gate: &G,
) -> Result<Ran<Ticks>, ThreadsError> {
    let config = PoolConfig {
        ring,
        budget: 1_000_000,
        items: 1_000,
    };
    run_threads(rt, alloc, &config, inputs.as_slice(), clocks, gate)
}

/// A run over a ring that ends well. Each of its servers asked the gate before each request.
fn ran<R: Threads + Wait + Time + Sync>(
    rt: &R,
    alloc: Global,
    ring: Ring,
    inputs: &Vec<Vec<Vec<u8>>>,
    gate: &Meeting,
) -> Result<Ran<Ticks>, Fail> {
    let clocks = clocks(alloc, ring.servers().len(), MOMENTS.as_slice())?;
    let ran = run(rt, alloc, ring, inputs, clocks, gate)?;
    if !gate.is_asked_for_each() {
        return Err("the gate was asked otherwise".into());
    }
    Ok(ran)
}

/// Whether the first client was answered so.
fn is_answered(ran: &Ran<Ticks>, answer: &[u8]) -> bool {
    matches!(ran.outputs.first(), Some(output) if output.as_slice() == answer)
}

/// How many moments the clocks gave in all.
fn moments(ran: &Ran<Ticks>) -> usize {
    let mut all = 0usize;
    for clock in &ran.clocks {
        all = all.saturating_add(clock.given().len());
    }
    all
}

/// Whether a client of this number of servers is answered as it should be. Each request has its moment, and so has each server's `quit`.
fn is_answered_over<R: Threads + Wait + Time + Sync>(
    rt: &R,
    alloc: Global,
    servers: usize,
) -> Result<bool, Fail> {
    let asked = inputs(alloc, 1, 1, ASKED)?;
    let ring = ring_of(alloc, servers)?;
    let ran = ran(rt, alloc, ring, &asked, &Meeting::of(1, true))?;
    Ok(is_answered(&ran, ANSWERED) && moments(&ran) == servers.saturating_add(7))
}

#[test]
fn a_dialogue_over_servers(rt: HostRuntime) -> Result<(), Fail> {
    for servers in [1usize, 2, 5] {
        assert!(rt;
            is_answered_over(&rt, rt.alloc(), servers)?,
            "{servers} servers"
        );
    }
    Ok(())
}

/// The numbers of replies `VA`, each in the line after its own.
fn numbers_in(alloc: Global, output: &[u8]) -> Result<Vec<u32>, Fail> {
    let mut all = Vec::new(alloc);
    let mut number = 0u32;
    let mut is_value = false;
    for &byte in output {
        if byte == b'\n' {
            if is_value {
                all.push(number)?;
            }
            is_value = !is_value;
            number = 0;
        } else if byte.is_ascii_digit() {
            number = number
                .wrapping_mul(10)
                .wrapping_add(u32::from(byte.wrapping_sub(b'0')));
        }
    }
    Ok(all)
}

/// Adds the numbers of a client's replies, and returns whether they are 100 and rise.
fn add_numbers(alloc: Global, all: &mut Vec<u32>, output: &[u8]) -> Result<bool, Fail> {
    let numbers = numbers_in(alloc, output)?;
    all.extend_from_slice(numbers.as_slice())?;
    Ok(numbers.len() == 100 && numbers.as_slice().is_sorted())
}

/// Whether the numbers of each client rise, and those of all are 1 to 300.
fn are_counted(alloc: Global, ran: &Ran<Ticks>) -> Result<bool, Fail> {
    let mut all = Vec::new(alloc);
    let mut are_so = true;
    for output in &ran.outputs {
        are_so &= add_numbers(alloc, &mut all, output.as_slice())?;
    }
    all.sort()?;
    let mut next = 0u32;
    for number in all.as_slice() {
        next = next.wrapping_add(1);
        are_so &= *number == next;
    }
    Ok(are_so && next == 300)
}

#[test]
fn three_clients_count(rt: HostRuntime) -> Result<(), Fail> {
    let alloc = rt.alloc();
    let asked = inputs(alloc, 3, 100, b"ma n N0 J1 v\r\n")?;
    let ran = ran(
        &rt,
        alloc,
        ring_of(alloc, 1)?,
        &asked,
        &Meeting::of(1, true),
    )?;
    assert!(rt; are_counted(alloc, &ran)?);
    assert_eq!(rt; moments(&ran), 301);
    Ok(())
}

/// A run of one client over a ring, whose servers wait for each other. Each takes its first request, and `quit`. It returns whether the
/// answer is this one, and how often one server missed another.
fn met<R: Threads + Wait + Time + Sync>(
    rt: &R,
    alloc: Global,
    ring: Ring,
    text: &[u8],
    answer: &[u8],
) -> Result<(bool, u64), Fail> {
    let servers = ring.servers().len();
    let gate = Meeting::of(servers, true);
    let asked = inputs(alloc, 1, 1, text)?;
    let ran = ran(rt, alloc, ring, &asked, &gate)?;
    let mut is_well = is_answered(&ran, answer);
    for server in 0..servers {
        is_well = is_well && gate.came_to(server) == 2;
    }
    Ok((is_well, gate.missed.load(Ordering::SeqCst)))
}

/// Each server waits for each other one to take its first request. If workers run in sequence, on one thread or on fewer than there are
/// servers, they miss each other; if threads always refuse, they do not get so far.
#[test]
fn servers_meet(rt: HostRuntime) -> Result<(), Fail> {
    let alloc = rt.alloc();
    let two = met(
        &rt,
        alloc,
        ring_of_two(alloc)?,
        b"get a abc\r\n",
        b"END\r\n",
    )?;
    assert_eq!(rt; two, (true, 0));
    let five = met(&rt, alloc, ring_of(alloc, 5)?, b"flush_all\r\n", b"OK\r\n")?;
    assert_eq!(rt; five, (true, 0));
    Ok(())
}

/// The error of a run over two servers, in which this number of clients ask for a key of each, with these moments and this gate.
fn refused<G: Gate + Sync, R: Threads + Wait + Time + Sync>(
    rt: &R,
    alloc: Global,
    clients: usize,
    moments: &[Option<u32>],
    gate: &G,
) -> Result<ThreadsError, Fail> {
    let asked = inputs(alloc, clients, 1, b"get a abc\r\n")?;
    let clocks = clocks(alloc, moments.len(), moments)?;
    match run(rt, alloc, ring_of_two(alloc)?, &asked, clocks, gate) {
        Ok(_) => Err("the run was not refused".into()),
        Err(error) => Ok(error),
    }
}

#[test]
fn runs_that_give_up(rt: HostRuntime) -> Result<(), Fail> {
    let alloc = rt.alloc();
    let two = [Some(100), Some(100)];
    let open = Meeting::of(1, true);
    let causes = [
        refused(&rt, alloc, 1, [Some(100)].as_slice(), &open)?,
        refused(&rt, alloc, 1_025, two.as_slice(), &open)?,
        refused(&rt, alloc, 1, [None, None].as_slice(), &open)?,
        refused(&rt, alloc, 1, two.as_slice(), &Meeting::of(1, false))?,
    ];
    let wanted = [
        ThreadsError::ClockCount,
        ThreadsError::TooManyClients,
        ThreadsError::Memory,
        ThreadsError::GateShut,
    ];
    assert_eq!(rt; causes, wanted);
    Ok(())
}

/// Two threads fail: the first server's clock gives no moment, and to the second the gate stays shut. Whichever ends first, the error of
/// the least number is returned, with refused memory last.
#[test]
fn the_least_cause_is_answered(rt: HostRuntime) -> Result<(), Fail> {
    let moments = [None, Some(100)];
    let cause = refused(&rt, rt.alloc(), 1, moments.as_slice(), &ShutForOne::new())?;
    assert_eq!(rt; cause, ThreadsError::GateShut);
    Ok(())
}
