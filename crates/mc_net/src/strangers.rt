//! Strangers: clients that do not speak the text protocol, and how their refusal is reported.

use crate::inputs::Readiness;
use crate::openings::{OPENING_LEN, Opening, Stranger, opening_of};
use mio::net::TcpStream;
use std::fmt;
use std::fmt::{Display, Formatter};
use std::io::ErrorKind;
use std::net::SocketAddr;

/// A stranger that was turned away, as it is printed: `<address> refused: <what it speaks>: <what to do>`.
#[derive(Clone, Copy, Debug)]
pub struct Refusal {
    /// What it speaks.
    pub stranger: Stranger,
    /// Its address, if the system still says it.
    pub address: Option<SocketAddr>,
}

impl Display for Refusal {
    fn fmt<W: fmt::Write>(&self, f: &mut Formatter<W>) -> fmt::Result {
        let stranger = self.stranger;
        match self.address {
            Some(address) => write!(f, "{address} refused: {stranger}"),
            None => write!(f, "client refused: {stranger}"),
        }
    }
}

/// Returns what the first bytes of a client are, which stay unread. Its readiness has recorded the client's events.
///
/// A client that has ended or failed is no stranger: the reader of its bytes sees the end of them.
pub fn opening(stream: &TcpStream, readiness: Readiness) -> Opening {
    if readiness.would_block() {
        return Opening::Unsettled;
    }
    let mut first = [0; OPENING_LEN];
    let opening = match stream.peek(&mut first) {
        Ok(count) => {
            let (came, _) = first.split_at(count);
            opening_of(came)
        }
        Err(error) if error.kind() == ErrorKind::WouldBlock => Opening::Unsettled,
        Err(_) => Opening::Text,
    };
    if opening == Opening::Unsettled && readiness.peer_closed() {
        return Opening::Text;
    }
    opening
}
