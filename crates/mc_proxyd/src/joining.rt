//! The server that joins while a proxy runs.

use crate::notices::{Notice, Notices, tell};
use crate::servers::NamedServer;
use mc_proxy::ProxyError;

/// The server that joins with a client, and the notices about it.
#[derive(Drop)]
pub struct Joining<'a> {
    /// The server, and the number of the client with which it joins.
    join: &'a Option<(NamedServer, u64)>,
    /// Whether it has joined.
    joined: bool,
    notices: Notices,
}

impl<'a> Joining<'a> {
    /// Makes the state of a server that has not joined.
    pub fn new(join: &'a Option<(NamedServer, u64)>) -> Self {
        Joining {
            join,
            joined: false,
            notices: Notices::new(Notice::Joined),
        }
    }

    /// Returns the server if it must join now that `accepted` clients were accepted.
    pub fn server(&self, accepted: u64) -> Option<&'a NamedServer> {
        match self.join {
            Some((server, with)) if !self.joined && accepted >= *with => Some(server),
            _ => None,
        }
    }

    /// Records whether it has joined. If it has not, it is tried again with the next client.
    pub fn note(&mut self, joined: Result<(), ProxyError>) {
        match joined {
            Ok(()) => {
                self.joined = true;
                self.notices.note(Notice::Joined);
            }
            Err(error) => self.notices.note(Notice::NotJoined(error.into())),
        }
    }

    /// Returns whether a notice about it is due.
    pub fn is_due(&self) -> bool {
        self.notices.is_due()
    }

    /// Prints a due notice about it on standard error.
    pub fn tell<R: Eprint>(&mut self, rt: &R, second: u64) {
        let Some((server, _)) = self.join else {
            return;
        };
        if let (Some(notice), Ok(server)) = (
            self.notices.take(second),
            str::from_utf8(server.name.as_bytes()),
        ) {
            tell(rt, server, notice);
        }
    }
}
