//! Giving a connection up.

use libc::net as c;
use std::os::fd::AsRawFd;

/// The length of an address of no family: that of an IPv4 one.
const NOWHERE_LEN: u32 = 16;

/// Gives a connection up. Its peer gets a reset (RST) and no end, and no undelivered byte reaches it any more. What the system has not
/// sent, or would send again, is dropped with the socket. After a plain close the system would go on for minutes.
///
/// What the peer's system has received stays there for the peer to read. If this system refuses the call, the connection is closed as
/// any other.
pub fn reset<S: AsRawFd + Drop>(stream: S) {
    // To connect a socket to an address of no family (AF_UNSPEC, 0) undoes its connection: connect(2). SO_LINGER, which would have
    // the close do the same, is none of the options that the toolchain's `setsockopt` allows.
    let nowhere = [0; c::_SS_SIZE];
    let _ = unsafe { c::connect(stream.as_raw_fd(), &nowhere, NOWHERE_LEN) };
}
