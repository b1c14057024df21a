//! The connected clients, as operators see them.

ghost use Rattle.std.specs.Prelude.{◌≡◌, IfOk};
ghost use Rattle.mc_net.specs.Lists.{conn_state, awaits_state, shown_by, shown_of, state_of};

use mc_admin::{Conn, Part};
use mio::net::TcpStream;
use std::alloc::{AllocError, Global};
use std::io;
use std::net::SocketAddr;

/// The most clients of a part of the list.
pub const LIST_LEN: usize = 32;

/// The text of an address that the system does not say.
const UNKNOWN: &str = "unknown";

/// The state of a client without pending answers, in memcached's words.
const WAITING: &[u8] = b"conn_waiting";

/// What a client with pending answers waits for.
#[derive(Clone, Copy)]
pub enum Awaits {
    /// It has answers to take.
    Answers,
    /// It waits for a server's reply, or has answers to take.
    Replies,
}

impl Awaits {
    /// Returns the state of a client that waits for it, in memcached's words.
    fn state(self) -> &'static [u8]
        ensures { result.now ≡ awaits_state self }
    {
        match self {
            Awaits::Answers => b"conn_mwrite",
            Awaits::Replies => b"conn_io_queue",
        }
    }
}

/// Some of the clients that are connected, by their places.
#[derive(Drop)]
pub struct Listed {
    /// The clients.
    pub conns: Vec<Conn>,
    /// The place at which the next part begins; none if this is the last.
    pub next: Option<usize>,
}

impl Listed {
    /// Returns the list as an answer has it.
    pub fn part(&self) -> Part<'_> {
        Part {
            conns: self.conns.as_slice(),
            next: self.next,
        }
    }
}

/// What is known of a client beside its socket.
#[derive(Clone, Copy, Debug)]
pub struct Known {
    /// Its place.
    pub place: usize,
    /// Whether it has pending answers.
    pub has_pending: bool,
    /// Seconds since its socket was ready, or since it had pending answers.
    pub quiet: u64,
    /// Seconds since it connected.
    pub age: u64,
    /// Bytes that were read from it.
    pub read: u64,
    /// Bytes that were written to it.
    pub written: u64,
}

/// Returns the entry of a client: what is known of it, and its addresses, which the system is asked for now. If it has pending
/// answers, `awaits` says what it waits for.
pub fn conn_of(
    alloc: Global,
    stream: &TcpStream,
    known: Known,
    awaits: Awaits,
) -> Result<Conn, AllocError>
    ensures shown { IfOk result (λ conn. shown_of conn ≡ shown_by known) }
    ensures state { IfOk result (λ conn. conn_state conn ≡ state_of known.has_pending awaits) }
{
    Ok(Conn {
        place: known.place as u64,
        peer: text_of(alloc, stream.peer_addr())?,
        own: text_of(alloc, stream.local_addr())?,
        state: if known.has_pending {
            awaits.state()
        } else {
            WAITING
        },
        quiet: known.quiet,
        age: known.age,
        read: known.read,
        written: known.written,
    })
}

/// Returns an address as text.
fn text_of(alloc: Global, address: io::Result<SocketAddr>) -> Result<String, AllocError> {
    match address {
        Ok(address) => address.to_string(alloc),
        Err(_) => String::from_str(alloc, UNKNOWN),
    }
}
