//! The limits of a proxy that serves.

use mc_net::Keepalive;
use mc_proxy::MAX_SESSIONS;
use mc_ring::SERVER_LIMIT;
use mio::Token;

/// The most bytes of a file that lists servers: 64 KiB.
pub const LIST_LIMIT: usize = 65_536;

/// The milliseconds between two looks at a file that lists servers.
pub const LOOK_MILLIS: u64 = 1000;

/// A new list is taken if the file still has it this number of milliseconds later.
pub const SETTLE_MILLIS: u64 = 250;

/// The most changes that one list makes: each server has one address that changes, and joins once.
pub const MAX_CHANGES: usize = 2 * SERVER_LIMIT;

/// How often a round carries the bytes for clients and for servers before it looks at its sockets again.
pub const MAX_PASSES: u32 = 4;

/// This number of bytes may stay reserved for a buffer of a client that waits for an event: 16 KiB. A larger buffer is freed, so that the next
/// client gets the same memory, which is still in the processor's caches.
pub const CLIENT_ROOM: usize = 16_384;

/// The bytes of a read for a client that may keep little more: so few that no data block is kept apart by them, for which much more than they are is
/// reserved.
pub const LITTLE_LEN: usize = 1000;

/// By this token a poll reports that a look-up has ended. It is after those of clients and of servers.
pub const LOOKED_UP: Token = Token(MAX_SESSIONS + SERVER_LIMIT);

/// How many files the list of servers has open while it is read.
pub const LISTING_FILES: u64 = 1;

/// How many files look-ups have open to wake the loop.
pub const WAKING_FILES: u64 = 1;

/// How many files the look-up of a host has open at most: a socket for each name server; the system's resolver asks up to 3.
pub const LOOKUP_FILES: u64 = 3;

/// A connection to a server has failed if it is not established after this number of milliseconds. The look-up of its host counts.
pub const CONNECT_MILLIS: u64 = 3000;

/// A server is tried again at least this number of milliseconds after its first failure, at most twice as many. So a restarted server is back
/// soon, and the proxies that lost it together come back apart.
pub const FIRST_DELAY: u64 = 100;

/// A server that stays away is tried again at least this number of milliseconds after its last failure, at most twice as many.
pub const LONGEST_DELAY: u64 = 4000;

/// After an established connection, the next one to its server is begun at least this number of milliseconds later. So a server that ends each
/// connection at once is tried once a second. A host whose look-up found no address is looked up again that much later than another server is
/// tried.
pub const NEXT_DELAY: u64 = 1000;

/// A server to which a connection is established has not answered if its answer to `version` is not there after this number of milliseconds.
pub const PROBE_MILLIS: u64 = 3000;

/// The most bytes of a server's answer to `version`, its line end included.
pub const PROBE_LIMIT: usize = 128;

/// A command may wait a millisecond longer for each of this number of bytes that arrive meanwhile: at 64 KB a second a reply of any size arrives
/// in time.
pub const REPLY_RATE: u64 = 64;

/// The sampled command of a link may wait for this number of timeouts: 2. So no command waits for more than twice as many.
pub const SAMPLE_TIMEOUTS: u64 = 2;

/// A notice about a server is printed within this number of milliseconds: at most one line a second.
pub const NOTICE_DELAY: u64 = 1000;

/// The keepalive of servers' connections: a server is gone after 10 seconds. By then a lost packet is sent again 5 times, so that a network that
/// is cut for a moment loses no link. While clients use the link, `--timeout` detects a dead server sooner.
pub const LINK_KEEPALIVE: Keepalive = Keepalive {
    idle: 5,
    interval: 1,
    probes: 5,
};
