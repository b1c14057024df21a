//! The handler that serves the clients of a server.
ghost use Rattle.std.specs.Prelude.{◌≡◌, ◌<◌, ◌^◌, None, IsSome, length, vec_len};
ghost use Rattle.mc_server.specs.ServerState.{connection_at};
ghost use Rattle.mc_pump.specs.Pumps.{Pumps};

use crate::options::PROGRAM;
use crate::sides::{Received, Sent};
use crate::store_stats::StoreStats;
use mc_net::{AfterPump, Client, Handler, Input, PIECE_LEN, step_after};
use mc_program::{EprintSeldom, OncePerSecond, Said};
use mc_pump::{Pumped, SMALL_ANSWER, Want, Watch, pump_gathering, pump_output};
use mc_server::{AnswerLimit, Server, ServerError};
use mc_store::Store;
use mc_stream::IoStats;
use std::alloc::{AllocError, Global};
use std::mem;
use std::rc::Rc;

/// How many bytes a read asks for of a client that may keep little more: so few that no data block is kept apart by them, for which much more than
/// what has arrived is reserved.
const LITTLE_LEN: usize = 1000;

/// A server, and what its clients share.
#[derive(Drop)]
pub struct ServerHandler<S: Store + Drop> {
    server: Server<S>,
    /// What the server's store has done, and how often memory was refused.
    counts: Rc<StoreStats>,
    /// The buffer of reads: made once.
    piece: Vec<u8>,
    /// The buffer of reads of clients that may keep little more.
    little: Vec<u8>,
    /// The limit of an answer, the counts of all clients, and what is to be noted of the last one.
    watch: Watch,
    /// The pending line about a request whose answer may be too large: how many bytes it might have.
    too_large: OncePerSecond<u64>,
    /// The bytes of memory that are kept for when the system gives none.
    reserve: usize,
    ghost reads: { 0 < vec_len piece },
    ghost reads_little: { 0 < vec_len little },
}

impl<S: Store + Drop> ServerHandler<S> {
    /// Makes the handler of the clients of a server whose store counts its operations. An answer may have at most `answer` bytes, and
    /// `reserve` bytes of memory are kept in reserve.
    pub fn new(
        alloc: Global,
        server: Server<S>,
        counts: Rc<StoreStats>,
        answer: usize,
        reserve: usize,
    ) -> Result<Self, AllocError> {
        let piece = Vec::from_elem(alloc, 0, PIECE_LEN)?;
        let little = Vec::from_elem(alloc, 0, LITTLE_LEN)?;
        Ok(ServerHandler {
            server,
            counts,
            piece,
            little,
            watch: Watch::new(AnswerLimit { bytes: answer }),
            too_large: OncePerSecond::new(),
            reserve,
        })
    }

    /// Takes the memory in reserve that was released, as far as the system gives it, and lets keys that are not stored be stored again.
    pub fn keep_reserve(&mut self) {
        if self.server.keep_reserve(self.reserve).is_err() {
            self.server.end_short();
        }
    }

    /// Carries a client's bytes, of which at most `share` may be kept, and returns also whether its socket has failed.
    fn pump(&mut self, client: &mut Client<()>, moment: u64, share: u64) -> (Pumped, bool)
        requires { moment < 2 ^ 63 }
        ensures { client.new.number ≡ client.old.number }
    {
        let (server, watch) = (&mut self.server, &mut self.watch);
        watch.most = share;
        let room = share.saturating_sub(server.reserved(client.number) as u64) as usize;
        if server.readable(client.number, PIECE_LEN, room) < PIECE_LEN {
            pump_client(server, client, &mut self.little, moment, watch)
        } else {
            pump_client(server, client, &mut self.piece, moment, watch)
        }
    }

    /// Returns what is done with a client whose pump stopped for want of room: it goes on if there is room once its empty buffers are freed, and waits
    /// otherwise. If all that had arrived was read, it does not wait to be read.
    fn after_want(&mut self, client: &Client<()>, share: u64, want: Want) -> AfterPump {
        let number = client.number;
        let (more, is_little) = match want {
            Want::Read(_) if client.readiness.would_block() => return AfterPump::Wait,
            Want::Read(_) => (self.server.growth(number, LITTLE_LEN), false),
            Want::Answer(bytes) => (bytes, bytes <= SMALL_ANSWER && !self.has_pending(number)),
        };
        self.server.shrink_if_idle(number, 0);
        let need = self.held(number).saturating_add(more as u64);
        if is_little || need <= share {
            AfterPump::GoOn
        } else {
            AfterPump::Short(need)
        }
    }

    /// Notes why a client is closed whose pump failed: its socket has failed, its answer may be too large, or a call was refused memory.
    fn note_failed(&mut self, socket: bool) {
        if mem::replace(&mut self.watch.refused, false) {
            self.too_large.note(self.watch.limit.bytes as u64);
        } else if !socket {
            self.counts.refuse(1);
        }
    }

    /// Notes the stores of the last turns that were refused memory, and got an error line.
    fn note_refused_stores(&mut self) {
        let count = mem::replace(&mut self.watch.no_memory, 0);
        if count > 0 {
            self.counts.refuse_stores(count);
        }
    }

    /// Reports on standard error, at most once in a second, that a request was refused whose answer may be too large, and how often that
    /// was suppressed before.
    pub fn tell<R: EprintSeldom>(&mut self, rt: &R, moment: u64) {
        if let Some(Said { what, suppressed }) = self.too_large.take(moment) {
            let line = format_args!(
                "{PROGRAM}: request refused: its answer may have more than {what} bytes"
            );
            // Best effort: a failed write to standard error must not stop serving.
            let _ = rt.eprintln_seldom(line, suppressed);
        }
    }
}

impl<S: Store + Drop> Handler<()> for ServerHandler<S> {
    fn admit(&mut self, _key: usize) -> Option<u64> {
        match self.server.admit() {
            Ok(number) => Some(number),
            Err(error) => {
                if matches!(error, ServerError::Memory) {
                    self.counts.refuse(1);
                }
                None
            }
        }
    }

    fn note_refused(&mut self) {
        self.counts.refuse(1);
    }

    /// Ends a connection. What it gives back of the reserve's memory is taken again at once, before another client's new keys could take it.
    fn end(&mut self, number: u64) {
        let _ = self.server.close(number);
        if !self.server.holds_reserve(self.reserve) {
            let _ = self.server.keep_reserve(self.reserve);
        }
    }

    fn serve(&mut self, client: &mut Client<()>, moment: u64, share: u64) -> AfterPump {
        let (pumped, failed) = self.pump(client, moment, share);
        let foreign = mem::replace(&mut self.watch.foreign, false);
        if pumped == Pumped::Failed && !foreign {
            self.note_failed(failed);
        }
        self.note_refused_stores();
        if !self.server.holds_reserve(self.reserve) {
            self.server.shrink_if_idle(client.number, 0);
            let _ = self.server.keep_reserve(self.reserve);
        }
        if foreign {
            return AfterPump::TurnAway;
        }
        match self.watch.want {
            Some(want) if pumped == Pumped::Again => self.after_want(client, share, want),
            _ => step_after(pumped),
        }
    }

    fn send(&mut self, client: &mut Client<()>) -> AfterPump {
        let mut output = &client.stream;
        match pump_output(
            &mut self.server,
            client.number,
            &mut output,
            &mut self.watch,
        ) {
            Ok(true) => AfterPump::GoOn,
            Ok(false) => AfterPump::Wait,
            Err(_) => AfterPump::Close,
        }
    }

    fn held(&self, number: u64) -> u64 {
        self.server.reserved(number) as u64
    }

    fn shrink_if_idle(&mut self, number: u64, room: usize) {
        self.server.shrink_if_idle(number, room);
    }

    fn has_pending(&self, number: u64) -> bool {
        !self.server.output(number).is_empty()
    }

    fn tally(&self) -> IoStats {
        self.watch.tally
    }
}

/// Carries a client's bytes, and serves the requests that arrive whole, if the watch allows their answers. No contract says which
/// bytes a socket gives or takes. It also returns whether the socket has failed.
fn pump_client<S: Store + Drop>(
    server: &mut Server<S>,
    client: &mut Client<()>,
    piece: &mut [u8],
    moment: u64,
    watch: &mut Watch,
) -> (Pumped, bool)
    requires piece { 0 < length piece.old }
    requires moment { moment < 2 ^ 63 }
    ensures pumps { IsSome (connection_at server.old client.old.number) → Pumps client.old.number moment result.0 server.old server.new
        None None None None client.old.ended client.new.ended watch.old.no_memory watch.new.no_memory }
    ensures number { client.new.number ≡ client.old.number }
{
    let mut input = Received {
        stream: Input {
            stream: &client.stream,
            readiness: client.readiness,
        },
        failed: false,
    };
    let mut output = Sent {
        stream: &client.stream,
        failed: false,
    };
    let pumped = pump_gathering(
        server,
        client.number,
        &mut client.ended,
        &mut input,
        &mut output,
        piece,
        moment,
        watch,
    );
    client.readiness = input.stream.readiness;
    (pumped, input.failed || output.failed)
}
