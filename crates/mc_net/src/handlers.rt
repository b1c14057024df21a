//! A client, and its handler.
ghost use Rattle.std.specs.Prelude.{◌≡◌, ◌<◌, ◌^◌};

use crate::after_pumps::AfterPump;
use crate::inputs::Readiness;
use mc_stream::IoStats;
use mio::net::TcpStream;

/// A client of a program on sockets: its socket, and what is known of it.
#[derive(Drop)]
pub struct Client<K> {
    /// Its socket.
    pub stream: TcpStream,
    /// The number of its connection, or of its session.
    pub number: u64,
    /// Whether its input has ended.
    pub ended: bool,
    /// What is known of its input.
    pub readiness: Readiness,
    /// What its handler keeps of it.
    pub kept: K,
}

/// The handler of clients: a server, or a proxy.
pub trait Handler<K> {
    /// Admits a client that will have this key, and returns its number; none if there is no place or no memory for it.
    fn admit(&mut self, key: usize) -> Option<u64>;

    /// Records that a client is closed since there is no memory for its place.
    fn note_refused(&mut self) {}

    /// Ends the connection or the session of a client that is closed.
    fn end(&mut self, number: u64);

    /// Carries a client's bytes at a moment, in seconds, as far as possible, and returns what is done with it next. No more than `share`
    /// bytes may be kept for it then, except for bytes that were kept before: if it needs more to go on, it is [`AfterPump::Short`].
    fn serve(&mut self, client: &mut Client<K>, moment: u64, share: u64) -> AfterPump
        requires { moment < 2 ^ 63 }
        ensures { client.new.number ≡ client.old.number };

    /// Sends a client its pending answers, as far as its socket takes them, takes nothing of it, and returns what is done with it next.
    fn send(&mut self, client: &mut Client<K>) -> AfterPump
        ensures { client.new.number ≡ client.old.number };

    /// Returns how many bytes are kept for a client.
    fn held(&self, number: u64) -> u64;

    /// Returns how many bytes are kept that are no client's, as those on the way to others.
    fn others(&self) -> u64 {
        0
    }

    /// Frees the memory of each of a client's empty buffers that has more than `kept` bytes reserved.
    fn shrink_if_idle(&mut self, number: u64, kept: usize);

    /// Returns whether a client has pending answers.
    fn has_pending(&self, number: u64) -> bool;

    /// Returns whether answers wait until a client takes them.
    fn is_untaken(&self, number: u64) -> bool {
        self.has_pending(number)
    }

    /// Returns the traffic of all clients.
    fn tally(&self) -> IoStats;
}
