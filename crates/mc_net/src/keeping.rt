//! Detecting peers that vanished.
ghost use Rattle.std.specs.Prelude.{◌≡◌};
ghost use Rattle.libc.specs.Net.{SockOption};
ghost use Rattle.mc_net.specs.Keeping.{silence_of};

use libc::net as c;
use std::os::fd::AsRawFd;

/// How the system detects that the peer of a connection has vanished: it asks the peer for a sign of life (keepalive).
#[derive(Clone, Copy, Debug, PartialEq, Eq)]
pub struct Keepalive {
    /// The seconds without a byte from the peer until it is asked first (TCP_KEEPIDLE): at least 1.
    pub idle: u8,
    /// The seconds after a question until it is asked again (TCP_KEEPINTVL): at least 1.
    pub interval: u8,
    /// This number of questions without an answer ends the connection (TCP_KEEPCNT): 1 to 127.
    pub probes: u8,
}

/// The keepalive of clients: a client is gone after 60 seconds. A machine that is moved, or sleeps for a moment, keeps its connections.
/// The memory of a vanished client is free within a minute, and not after the system's two hours.
pub const CLIENT_KEEPALIVE: Keepalive = Keepalive {
    idle: 30,
    interval: 10,
    probes: 3,
};

impl Keepalive {
    /// Returns the milliseconds after which a peer is gone that gives no sign of life.
    fn silence(self) -> u32
        ensures { result ≡ silence_of self }
    {
        let asked = u32::from(self.interval) * u32::from(self.probes);
        (u32::from(self.idle) + asked) * 1000
    }
}

/// Turns keepalive on for a listener, whose connections inherit it: [`keep_alive_by`] with [`CLIENT_KEEPALIVE`].
pub fn keep_alive<S: AsRawFd>(listener: &S) {
    keep_alive_by(listener, CLIENT_KEEPALIVE);
}

/// Turns keepalive on for a socket, so that the system ends the connection if the peer has vanished. The peer is gone if it answers no
/// question in time. It is gone too if for as long it has confirmed nothing of what was sent, though all is sent again, or took nothing
/// of what must be sent (TCP_USER_TIMEOUT). If the system refuses one of these, it has its own time.
pub fn keep_alive_by<S: AsRawFd>(socket: &S, keepalive: Keepalive) {
    set(socket, c::SOL_SOCKET, c::SO_KEEPALIVE, 1);
    set(
        socket,
        c::IPPROTO_TCP,
        c::TCP_KEEPIDLE,
        u32::from(keepalive.idle),
    );
    set(
        socket,
        c::IPPROTO_TCP,
        c::TCP_KEEPINTVL,
        u32::from(keepalive.interval),
    );
    set(
        socket,
        c::IPPROTO_TCP,
        c::TCP_KEEPCNT,
        u32::from(keepalive.probes),
    );
    set(
        socket,
        c::IPPROTO_TCP,
        c::TCP_USER_TIMEOUT,
        keepalive.silence(),
    );
}

/// Sets an option of a socket that is a number. If the system refuses it, nothing changes.
fn set<S: AsRawFd>(socket: &S, level: i32, name: i32, number: u32)
    requires option { SockOption level name }
{
    let mut value = [0u8; 16];
    value[..4].copy_from_slice(&number.to_ne_bytes());
    // The option's value is the first four bytes.
    let _ = unsafe { c::setsockopt(socket.as_raw_fd(), level, name, &value, 4) };
}
