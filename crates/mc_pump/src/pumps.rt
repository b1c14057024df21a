//! The pump of a connection: bytes in, turns, bytes out.
ghost use Rattle.std.specs.Prelude.{◌≡◌, ◌<◌, ◌^◌, ℕ, None, Err, length, IsSome};
ghost use Rattle.mc_server.specs.ServerState.{connection_at};
ghost use Rattle.mc_pump.specs.Counts.{counted_by};
ghost use Rattle.mc_pump.specs.Pumps.{IsBarred, Pumps};
ghost use Rattle.mc_pump.specs.Rounds.{Sends};
ghost use Rattle.mc_pump.specs.Unsent.{IsUnsentWithin};

use crate::limits::QUANTUM;
use crate::rounds::{round, send};
use crate::watches::Watch;
use mc_server::Server;
use mc_store::Store;
use mc_stream::{MAX_ROUNDS, Pumped};
use std::io::{Read, Write};

/// Carries a connection's bytes between a server and the two sides of a non-blocking stream, and serves each request that arrives whole.
/// All is done at one moment, in seconds since 1970.
///
/// It does at most [`MAX_ROUNDS`] rounds. A round takes turns until no whole request is pending, writes what is unsent in one call, and
/// reads once into `piece`. The bytes of `piece` mean nothing before and after. While [`UNSENT_MARK`](crate::UNSENT_MARK) bytes or more are
/// unsent, no turn is taken and nothing is read. `ended` says whether the input has ended. The pump sets it when a read returns no byte,
/// and then reads no more; a caller passes `false` at first.
///
/// It takes no further turn once its turns have cost [`QUANTUM`](crate::QUANTUM) units of work. It then writes what is unsent in one call, and
/// returns [`Pumped::Again`].
///
/// While the connection may not keep the bytes of the next answer, or those that a read asks for beside those that are reserved, it does not take
/// that turn, or does not read. The watch says what it wants room for ([`Watch::want`]). It then ends likewise. An answer that leaves no
/// more than [`SMALL_ANSWER`](crate::SMALL_ANSWER) bytes unsent needs no room. So what is unsent after the pump is no more than was unsent before it,
/// or than the connection may keep, or than these bytes (`unsent`).
///
/// A request whose answer may have more bytes than an answer may is not taken: the pump returns [`Pumped::Failed`], and has done nothing
/// for it. So it does at a line of an HTTP request ([`Server::is_foreign`]). The watch notes both. It counts the requests that are taken, those
/// of them whose answer says that there is no memory to store something, and the bytes.
pub fn pump<S: Store + Drop, R: Read, W: Write>(
    server: &mut Server<S>,
    number: u64,
    ended: &mut bool,
    reader: &mut R,
    writer: &mut W,
    piece: &mut [u8],
    moment: u64,
    watch: &mut Watch,
) -> Pumped
    requires piece { 0 < length piece.old }
    requires moment { moment < 2 ^ 63 }
    ensures pumps { IsSome (connection_at server.old number) → Pumps number moment result server.old server.new
        (R.remaining reader.old) (R.remaining reader.new) (W.contents writer.old) (W.contents writer.new) ended.old ended.new
        watch.old.no_memory watch.new.no_memory }
    ensures unsent { IsSome (connection_at server.old number) → IsUnsentWithin watch.old.most (connection_at server.old number) (connection_at server.new number) }
    ensures not_open { connection_at server.old number ≡ None → (result ≡ Pumped.Failed) × (server.new ≡ server.old) }
    ensures barred { IsBarred (connection_at server.old number) → (result ≡ Pumped.Failed) × (server.new ≡ server.old) }
    ensures not_counted { connection_at server.old number ≡ None → watch.new ≡ watch.old }
{
    let Ok(_) = server.is_closed(number) else {
        return Pumped::Failed;
    };
    watch.left = QUANTUM;
    watch.want = None;
    for _round in 0..MAX_ROUNDS {
        if let Err(pump) = round(server, number, ended, reader, writer, piece, moment, watch) {
            return pump;
        }
    }
    Pumped::Again
}

/// Writes what is unsent of a connection in one call, drops what the writer took, and returns whether it took any. It takes no request and reads
/// nothing. The error is [`Pumped::Failed`]: the stream has failed, or the connection is not open.
pub fn pump_output<S: Store + Drop, W: Write>(
    server: &mut Server<S>,
    number: u64,
    writer: &mut W,
    watch: &mut Watch,
) -> Result<bool, Pumped>
    ensures sends { (moment : ℕ) → IsSome (connection_at server.old number) → Sends number moment result server.old server.new
        (W.contents writer.old) (W.contents writer.new) (counted_by watch.old) (counted_by watch.new) }
    ensures not_open { connection_at server.old number ≡ None → (result ≡ Err Pumped.Failed) × (server.new ≡ server.old) }
{
    let Ok(_) = server.is_closed(number) else {
        return Err(Pumped::Failed);
    };
    send(server, number, writer, watch)
}
