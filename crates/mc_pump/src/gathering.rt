//! The pump of a connection whose large values are written without a copy.
ghost use Rattle.std.specs.Prelude.{◌≡◌, ◌<◌, ◌≤◌, ◌-◌, ◌^◌, Option, None, Err, length, IfErr, IfNone, IfOk, IfSome, IsSome};
ghost use Rattle.mc_server.specs.ServerState.{ConnectionState, connection_at, output_of};
ghost use Rattle.mc_stream.specs.Sides.{pump_of};
ghost use Rattle.mc_pump.specs.Counts.{counted_by};
ghost use Rattle.mc_pump.specs.Pumps.{IsBarred, Pumps};
ghost use Rattle.mc_pump.specs.Unsent.{IsUnsentWithin};
ghost use Rattle.mc_pump.specs.Gathers.{GathersTurns};
ghost use Rattle.mc_pump.specs.Rounds.{PumpsPart, StopsAt};

use crate::limits::{QUANTUM, UNSENT_MARK};
use crate::rounds::{Stop, carry};
use crate::watches::Watch;
use mc_server::{Limited, Server, Turn};
use mc_store::Store;
use mc_stream::{Gather, MAX_ROUNDS, Pumped};
use std::io::Read;

/// Carries a connection's bytes and serves each request that arrives whole, as [`pump`](crate::pump) does, to a writer that takes the
/// parts of an answer in one call.
///
/// A turn whose answer shows one large value gives the writer in one call all that is unsent, the answer, and the value without a copy
/// ([`Server::turn_gathering`]). If the writer takes some of it, the round ends: each such turn has a write of its own, and a pump has at
/// most [`MAX_ROUNDS`] of these.
pub fn pump_gathering<S: Store + Drop, R: Read, W: Gather>(
    server: &mut Server<S>,
    number: u64,
    ended: &mut bool,
    reader: &mut R,
    writer: &mut W,
    piece: &mut [u8],
    moment: u64,
    watch: &mut Watch,
) -> Pumped
    requires piece { 0 < length piece.old }
    requires moment { moment < 2 ^ 63 }
    ensures pumps { IsSome (connection_at server.old number) → Pumps number moment result server.old server.new
        (R.remaining reader.old) (R.remaining reader.new) (W.contents writer.old) (W.contents writer.new) ended.old ended.new
        watch.old.no_memory watch.new.no_memory }
    ensures unsent { IsSome (connection_at server.old number) → IsUnsentWithin watch.old.most (connection_at server.old number) (connection_at server.new number) }
    ensures not_open { connection_at server.old number ≡ None → (result ≡ Pumped.Failed) × (server.new ≡ server.old) }
    ensures barred { IsBarred (connection_at server.old number) → (result ≡ Pumped.Failed) × (server.new ≡ server.old) }
    ensures not_counted { connection_at server.old number ≡ None → watch.new ≡ watch.old }
{
    let Ok(_) = server.is_closed(number) else {
        return Pumped::Failed;
    };
    watch.left = QUANTUM;
    watch.want = None;
    for _round in 0..MAX_ROUNDS {
        if let Err(pump) = round(server, number, ended, reader, writer, piece, moment, watch) {
            return pump;
        }
    }
    Pumped::Again
}

/// Does one round: turns until a large answer is written, or until no request is pending, too much is unsent or the quantum is spent; in
/// the latter cases then one write and one read. The error is how the pump stops.
fn round<S: Store + Drop, R: Read, W: Gather>(
    server: &mut Server<S>,
    number: u64,
    ended: &mut bool,
    reader: &mut R,
    writer: &mut W,
    piece: &mut [u8],
    moment: u64,
    watch: &mut Watch,
) -> Result<(), Pumped>
    requires is_open { IsSome (connection_at server.old number) }
    requires piece { 0 < length piece.old }
    requires moment { moment < 2 ^ 63 }
    ensures pumps { PumpsPart number moment (pump_of result) server.old server.new (R.remaining reader.old)
        (R.remaining reader.new) (W.contents writer.old) (W.contents writer.new) ended.old ended.new
        (counted_by watch.old) (counted_by watch.new) }
    ensures barred { IsBarred (connection_at server.old number) → 0 < watch.old.left → (result ≡ Err Pumped.Failed) × (server.new ≡ server.old) }
{
    match gather_turns(server, number, moment, writer, watch) {
        Ok(Some(stop)) => carry(server, number, ended, reader, writer, piece, stop, watch),
        Ok(None) => Ok(()),
        Err(pump) => Err(pump),
    }
}

/// Returns why no turn may be taken, if so: the unsent bytes reach the mark, or no work is left.
fn stop_before(unsent: usize, left: u64) -> Option<Stop>
    ensures stops { IfSome result (λ stop. (connection : Option ConnectionState) → unsent ≡ length (output_of connection) → StopsAt stop connection) }
    ensures none { unsent < UNSENT_MARK → 0 < left → result ≡ None }
    ensures below { IfNone result (unsent < UNSENT_MARK) }
    ensures some_left { IfNone result (0 < left) }
    ensures fits { left < 2 ^ 64 }
{
    if unsent >= UNSENT_MARK {
        return Some(Stop::Marked);
    }
    if left == 0 {
        return Some(Stop::Spent);
    }
    None
}

/// Returns a bound on the next answer of a connection; [`usize::MAX`] if it is that or more, or the connection is not open.
fn bound_at<S: Store + Drop>(server: &Server<S>, number: u64) -> usize {
    server.bound(number).unwrap_or(usize::MAX)
}

/// Returns how many bytes an output has.
fn len_of(output: &[u8]) -> usize
    ensures len { result ≡ length output.now }
    ensures fits { length output.now ≤ 2 ^ 64 - 1 }
{
    output.len()
}

/// Takes turns of a connection until no request is pending, until the unsent bytes reach the mark, until the quantum is spent or until there is no
/// room for the next answer, and gives the writer their large answers. None says that the writer took some of one, after which no turn is
/// taken. The error is [`Pumped::Failed`]: a turn was refused memory, its answer may have more bytes than the watch allows, or the next line is
/// foreign.
pub fn gather_turns<S: Store + Drop, W: Gather>(
    server: &mut Server<S>,
    number: u64,
    moment: u64,
    writer: &mut W,
    watch: &mut Watch,
) -> Result<Option<Stop>, Pumped>
    requires is_open { IsSome (connection_at server.old number) }
    requires moment { moment < 2 ^ 63 }
    ensures turns { GathersTurns number moment server.old server.new (W.contents writer.old) (W.contents writer.new)
        (counted_by watch.old) (counted_by watch.new) }
    ensures stop { IfOk result (λ stopped. IfSome stopped (λ stop. StopsAt stop (connection_at server.new number))) }
    ensures failed { IfErr result (λ pump. pump ≡ Pumped.Failed) }
    ensures barred { IsBarred (connection_at server.old number) → 0 < watch.old.left → (result ≡ Err Pumped.Failed) × (server.new ≡ server.old) }
{
    loop {
        let unsent = server.output(number).len();
        if let Some(stop) = stop_before(unsent, watch.left) {
            return Ok(Some(stop));
        }
        if server.is_foreign(number) {
            watch.foreign = true;
            return Err(Pumped::Failed);
        }
        let limit = watch.limit_beside(unsent, server.reserved(number));
        let mut went = 0;
        let mut work = 0;
        match server.turn_gathering(number, moment, limit, writer, &mut went, &mut work) {
            Ok(Limited::Turned(Turn::Took)) => {
                let output = server.output(number);
                let kept = len_of(output);
                if went > 0 {
                    watch.showed(work, unsent, went, kept);
                    return Ok(None);
                }
                let (_, answer) = output.split_at(unsent);
                watch.took(work, answer);
            }
            Ok(Limited::Turned(Turn::Idle)) => return Ok(Some(Stop::Idle)),
            Ok(Limited::Turned(Turn::Closing)) => return Ok(Some(Stop::Closing)),
            Ok(Limited::Refused) => return watch.refuse(bound_at(server, number)),
            Err(_) => return Err(Pumped::Failed),
        }
    }
}
