//! The connection of an operator.
ghost use Rattle.std.specs.Prelude.{◌≡◌, ◌<◌, length};
ghost use Rattle.mc_net.specs.Listings.{listing_of};

use crate::after_pumps::AfterPump;
use crate::budgets::Budget;
use crate::inputs::{Input, Readiness};
use mc_admin::{AdminError, AdminRequest, Hosts, REQUEST_LIMIT, Sheet, Talk};
use mc_stream::{Pumped, read_once, write_once};
use mio::event::Event;
use mio::net::TcpStream;
use std::alloc::{AllocError, Global};
use std::mem;
use std::net::Shutdown;

/// The seconds after which a connection is closed that sent nothing, and took nothing of its answer.
pub const PATIENCE: u64 = 60;

/// A connection that sent nothing, and took nothing, for more seconds makes room for another one, if all places are taken.
pub const QUIET: u64 = 5;

/// The seconds for which a connection is read to its end once its last answer was sent: one that is closed with bytes unread may lose
/// that answer.
pub const LINGER: u64 = 2;

/// The most turns of a connection in a round.
const MAX_TURNS: u32 = 4;

/// The connection of an operator.
#[derive(Drop)]
pub struct OperatorSlot {
    stream: TcpStream,
    /// Its own address, as text.
    own: String,
    talk: Talk,
    readiness: Readiness,
    /// Whether its last answer was sent: bytes that arrive are dropped.
    over: bool,
    /// Whether something may be done for it.
    pub stirred: bool,
    /// The place from which clients are listed to it next, if it has asked which are connected.
    listing: Option<usize>,
    /// The second in which it sent or took something last, or was over.
    used: u64,
    /// Whether that was in this round: the round has waited since that second.
    fresh: bool,
}

impl OperatorSlot {
    /// Makes a connection to which no byte has arrived, by its socket.
    pub fn new(alloc: Global, stream: TcpStream, second: u64) -> Result<OperatorSlot, AdminError> {
        let own = own_address(alloc, &stream)?;
        Ok(OperatorSlot {
            stream,
            own,
            talk: Talk::new(alloc)?,
            readiness: Readiness::new(),
            over: false,
            stirred: false,
            listing: None,
            used: second,
            fresh: false,
        })
    }

    /// Records what an event says.
    pub fn note(&mut self, event: &Event) {
        self.readiness.note(event);
        self.stirred = true;
    }

    /// Returns the second in which it sent or took something last, or was over.
    pub fn used(&self) -> u64 {
        self.used
    }

    /// Records the second of the round in which it sent or took something, if that was the last one.
    pub fn settle(&mut self, second: u64) {
        if mem::replace(&mut self.fresh, false) {
            self.used = second;
        }
    }

    /// Returns the second in which it is closed, unless it sends or takes something before.
    pub fn due(&self) -> u64 {
        let patience = if self.over { LINGER } else { PATIENCE };
        self.used.saturating_add(patience).saturating_add(1)
    }

    /// Returns the place from which clients must be listed to it, if it has asked which are connected and all before was sent.
    pub fn listing(&self) -> Option<usize>
        ensures { result ≡ listing_of self.now }
    {
        if self.stirred && self.talk.output().is_empty() {
            self.listing
        } else {
            None
        }
    }

    /// Serves it for some turns, and returns what is done with it next. Its own hosts are that of the listener, a name that was given,
    /// and the address at which it connected. If it waits for a part of a list of clients, it goes on once it gets one.
    pub fn serve(
        &mut self,
        listen: &[u8],
        name: &[u8],
        sheet: &Sheet<'_>,
        piece: &mut [u8],
        budget: &mut Budget,
        second: u64,
    ) -> AfterPump
        requires { 0 < length piece.old }
    {
        let mut sheet = *sheet;
        for _ in 0..MAX_TURNS {
            let is_listed = self.listing().is_some();
            if (is_listed && sheet.part.is_none()) || !budget.take(second) {
                return AfterPump::GoOn;
            }
            let step = if self.over {
                self.read(piece, second)
            } else if !self.talk.output().is_empty() {
                self.send(second)
            } else if !is_listed && self.talk.is_read() {
                self.read(piece, second)
            } else {
                self.answer(listen, name, &mut sheet)
            };
            if let Some(step) = step {
                return step;
            }
        }
        AfterPump::GoOn
    }

    /// Sends as much of its answer as the socket takes; returns none if it goes on.
    fn send(&mut self, second: u64) -> Option<AfterPump> {
        let mut output = &self.stream;
        let sent = match write_once(&mut output, self.talk.output()) {
            Ok(sent) => sent,
            Err(Pumped::Again) => return Some(AfterPump::GoOn),
            Err(_) => return Some(AfterPump::Close),
        };
        if sent == 0 {
            return Some(AfterPump::Wait);
        }
        self.talk.note_sent(sent);
        self.used = second;
        self.fresh = true;
        if self.talk.is_closing() && self.talk.output().is_empty() {
            self.over = true;
            // If the system refuses it, the connection is closed all the same.
            let _ = self.stream.shutdown(Shutdown::Write);
        }
        None
    }

    /// Reads the bytes that have arrived; those of one that is over are dropped. It returns none if the connection goes on.
    fn read(&mut self, piece: &mut [u8], second: u64) -> Option<AfterPump>
        requires { 0 < length piece.old }
    {
        let mut ended = false;
        let mut input = Input {
            stream: &self.stream,
            readiness: self.readiness,
        };
        let read = read_once(&mut input, piece, &mut ended);
        self.readiness = input.readiness;
        match read {
            Ok(0) if ended => Some(AfterPump::Close),
            Ok(0) => Some(AfterPump::Wait),
            Ok(count) => {
                let (came, _) = piece.split_at(count);
                self.take(came, second)
            }
            Err(Pumped::Again) => Some(AfterPump::GoOn),
            Err(_) => Some(AfterPump::Close),
        }
    }

    /// Takes the bytes that were read; those of one that is over are dropped.
    fn take(&mut self, came: &[u8], second: u64) -> Option<AfterPump> {
        if self.over {
            return None;
        }
        self.used = second;
        self.fresh = true;
        if self.talk.is_read() && self.talk.feed(came).is_ok() {
            return None;
        }
        Some(AfterPump::Close)
    }

    /// Goes on with what was read. It returns none if the connection goes on.
    fn answer(&mut self, listen: &[u8], name: &[u8], sheet: &mut Sheet<'_>) -> Option<AfterPump> {
        if !self.talk.output().is_empty() {
            return None;
        }
        let hosts = Hosts {
            listen,
            name,
            own: self.own.as_bytes(),
        };
        let Ok(asked) = self.talk.turn(&hosts, sheet) else {
            return Some(AfterPump::Close);
        };
        if asked == Some(AdminRequest::Conns) {
            self.listing = match sheet.part.take() {
                Some(part) => part.next,
                None => Some(0),
            };
        }
        let is_silent = self.talk.output().is_empty();
        (is_silent && self.talk.is_closing()).then_some(AfterPump::Close)
    }
}

/// Returns the address at which a connection arrived, as text; empty if the system does not say it.
fn own_address(alloc: Global, stream: &TcpStream) -> Result<String, AllocError> {
    match stream.local_addr() {
        Ok(address) => address.ip().to_string(alloc),
        Err(_) => Ok(String::new(alloc)),
    }
}
