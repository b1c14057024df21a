//! What a program has done for its clients, as it is printed.

use mc_admin::ClientFigures;
use mc_stream::IoStats;
use std::fmt;
use std::fmt::{Display, Formatter};

/// What a program has done for its clients, as it is printed: words `<key>=<value>`, with a space between two.
#[derive(Clone, Copy, Debug)]
pub struct Report {
    /// For how many seconds it has served.
    pub uptime: u64,
    /// How many clients are connected.
    pub connections: usize,
    /// How many clients were accepted.
    pub accepted: u64,
    /// How many of these were closed as they connected: there was no place or no memory for them, or they were strangers.
    pub refused: u64,
    /// The bytes that are kept for them, and for others than clients.
    pub buffered: u64,
    /// Requests, and bytes of clients.
    pub tally: IoStats,
}

impl Report {
    /// Returns the report as figures. The process has this number at a time in seconds since 1970, takes `resident` bytes and serves
    /// `most` clients at most.
    pub fn figures(
        &self,
        pid: u64,
        time: u64,
        resident: Option<u64>,
        most: usize,
    ) -> ClientFigures {
        ClientFigures {
            pid,
            uptime: self.uptime,
            time,
            connected: self.connections as u64,
            most: most as u64,
            accepted: self.accepted,
            refused: self.refused,
            requests: self.tally.requests,
            read: self.tally.read,
            written: self.tally.written,
            buffered: self.buffered,
            resident,
        }
    }
}

impl Display for Report {
    fn fmt<W: fmt::Write>(&self, f: &mut Formatter<W>) -> fmt::Result {
        let IoStats {
            requests,
            read,
            written,
        } = self.tally;
        write!(
            f,
            "uptime={} connections={} accepted={}",
            self.uptime, self.connections, self.accepted
        )?;
        write!(
            f,
            " refused={} requests={requests} read={read} written={written} buffered={}",
            self.refused, self.buffered
        )
    }
}
