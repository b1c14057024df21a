//! A round: turns, a write, a read.
ghost use Rattle.std.specs.Prelude.{Err, ◌≡◌, ◌<◌, ◌^◌, ◌==◌, ◌&&◌, ℕ, List, [], Option, false, length, IfNone, IfOk, IfSome, IsSome};
ghost use Rattle.mc_server.specs.ServerState.{connection_at, output_of};
ghost use Rattle.mc_server.specs.Turns.{is_closed_at, waiting_of};
ghost use Rattle.mc_stream.specs.Sides.{pump_of};
ghost use Rattle.mc_pump.specs.Counts.{counted_by};
ghost use Rattle.mc_pump.specs.Pumps.{IsBarred};
ghost use Rattle.mc_pump.specs.Rounds.{PumpsPart, Receives, Sends, StopsAt, ends_by, is_spent, moved_of, reads_by};

use crate::gathering::gather_turns;
use crate::limits::UNSENT_MARK;
use crate::watches::Watch;
use mc_server::Server;
use mc_store::Store;
use mc_stream::{NoWriter, Pumped, read_once, read_result, write_once};
use std::io::{Read, Write};

/// Why the turns of a round stopped.
#[derive(Clone, Copy, Debug)]
pub enum Stop {
    /// No whole request is pending.
    Idle,
    /// Nothing is read any more.
    Closing,
    /// The unsent bytes reach the mark.
    Marked,
    /// The pump's turns have cost its quantum of work, or there is no room for the next answer.
    Spent,
}

/// Does one round: turns until no request is pending, too much is unsent or the quantum is spent, one write, one read. The error is how the
/// pump stops.
pub fn round<S: Store + Drop, R: Read, W: Write>(
    server: &mut Server<S>,
    number: u64,
    ended: &mut bool,
    reader: &mut R,
    writer: &mut W,
    piece: &mut [u8],
    moment: u64,
    watch: &mut Watch,
) -> Result<(), Pumped>
    requires is_open { IsSome (connection_at server.old number) }
    requires piece { 0 < length piece.old }
    requires moment { moment < 2 ^ 63 }
    ensures pumps { PumpsPart number moment (pump_of result) server.old server.new (R.remaining reader.old)
        (R.remaining reader.new) (W.contents writer.old) (W.contents writer.new) ended.old ended.new
        (counted_by watch.old) (counted_by watch.new) }
    ensures barred { IsBarred (connection_at server.old number) → 0 < watch.old.left → (result ≡ Err Pumped.Failed) × (server.new ≡ server.old) }
{
    match gather_turns(server, number, moment, &mut NoWriter, watch) {
        Ok(Some(stop)) => carry(server, number, ended, reader, writer, piece, stop, watch),
        Ok(None) => Ok(()),
        Err(pump) => Err(pump),
    }
}

/// Does the rest of a round once its turns have stopped: one write, one read. The error is how the pump stops.
pub fn carry<S: Store + Drop, R: Read, W: Write>(
    server: &mut Server<S>,
    number: u64,
    ended: &mut bool,
    reader: &mut R,
    writer: &mut W,
    piece: &mut [u8],
    stop: Stop,
    watch: &mut Watch,
) -> Result<(), Pumped>
    requires is_open { IsSome (connection_at server.old number) }
    requires stop { StopsAt stop (connection_at server.old number) }
    requires piece { 0 < length piece.old }
    ensures { (moment : ℕ) → PumpsPart number moment (pump_of result) server.old server.new (R.remaining reader.old)
        (R.remaining reader.new) (W.contents writer.old) (W.contents writer.new) ended.old ended.new
        (counted_by watch.old) (counted_by watch.new) }
{
    let moved = send(server, number, writer, watch)?;
    if is_spent(stop) {
        return Err(Pumped::Again);
    }
    if is_over(server, number, stop, *ended) {
        return Err(Pumped::Done);
    }
    if is_read(stop, *ended) {
        let can_send = moved && !server.output(number).is_empty();
        return read_or_block(server, number, ended, reader, piece, can_send, watch);
    }
    if moved {
        return Ok(());
    }
    Err(Pumped::Blocked)
}

/// Returns whether everything is sent of a connection whose turns stopped so, and nothing more will arrive.
fn is_over<S: Store + Drop>(server: &Server<S>, number: u64, stop: Stop, ended: bool) -> bool
    ensures { result ≡ ((length (output_of (connection_at server.now number)) == 0) && ends_by stop ended) }
{
    server.output(number).is_empty() && ends(stop, ended)
}

/// Returns whether nothing more will arrive, if the turns stopped so.
fn ends(stop: Stop, ended: bool) -> bool
    ensures { result ≡ ends_by stop ended }
{
    match stop {
        Stop::Idle => ended,
        Stop::Closing => true,
        Stop::Marked | Stop::Spent => false,
    }
}

/// Returns whether the turns stopped because the quantum is spent, or there is no room for the next answer.
fn is_spent(stop: Stop) -> bool
    ensures { result ≡ is_spent stop }
{
    matches!(stop, Stop::Spent)
}

/// Returns whether the input is read on, if the turns stopped so.
fn is_read(stop: Stop, ended: bool) -> bool
    ensures { result ≡ reads_by stop ended }
{
    matches!(stop, Stop::Idle) && !ended
}

/// Writes what is unsent, in one call, drops what the writer took, and returns whether it took any.
pub fn send<S: Store + Drop, W: Write>(
    server: &mut Server<S>,
    number: u64,
    writer: &mut W,
    watch: &mut Watch,
) -> Result<bool, Pumped>
    requires { IsSome (connection_at server.old number) }
    ensures { (moment : ℕ) → Sends number moment result server.old server.new (W.contents writer.old) (W.contents writer.new)
        (counted_by watch.old) (counted_by watch.new) }
{
    let count = write_once(writer, server.output(number))?;
    if count == 0 {
        return Ok(false);
    }
    server.taken_out(number, count);
    watch.tally.went(count);
    Ok(true)
}

/// Reads, and stops the pump as blocked if nothing arrived and nothing more can be sent.
fn read_or_block<S: Store + Drop, R: Read>(
    server: &mut Server<S>,
    number: u64,
    ended: &mut bool,
    reader: &mut R,
    piece: &mut [u8],
    can_send: bool,
    watch: &mut Watch,
) -> Result<(), Pumped>
    requires is_open { IsSome (connection_at server.old number) }
    requires none_waits { waiting_of (connection_at server.old number) ≡ [] }
    requires below { length (output_of (connection_at server.old number)) < UNSENT_MARK }
    requires is_read { is_closed_at (connection_at server.old number) ≡ false }
    requires goes_on { ended.old ≡ false }
    requires piece { 0 < length piece.old }
    ensures { (moment : ℕ) (written : Option (List ℕ)) → PumpsPart number moment (pump_of result) server.old server.new
        (R.remaining reader.old) (R.remaining reader.new) written written ended.old ended.new
        (counted_by watch.old) (counted_by watch.new) }
{
    let moved = receive(server, number, ended, reader, piece, watch)?;
    if moved || can_send {
        return Ok(());
    }
    Err(Pumped::Blocked)
}

/// Reads once, feeds the connection with the bytes, and returns whether any arrived, or the end. If the connection may not keep the bytes that a read
/// asks for, it reads those for which memory is reserved. If that is none, it does not read: the error is [`Pumped::Again`].
fn receive<S: Store + Drop, R: Read>(
    server: &mut Server<S>,
    number: u64,
    ended: &mut bool,
    reader: &mut R,
    piece: &mut [u8],
    watch: &mut Watch,
) -> Result<bool, Pumped>
    requires is_open { IsSome (connection_at server.old number) }
    requires below { length (output_of (connection_at server.old number)) < UNSENT_MARK }
    requires goes_on { ended.old ≡ false }
    requires piece { 0 < length piece.old }
    ensures { (moment : ℕ) → Receives number moment result server.old server.new (R.remaining reader.old) (R.remaining reader.new) ended.new
        (counted_by watch.old) (counted_by watch.new) }
{
    let room = watch.room_beside(server.reserved(number));
    let len = server.readable(number, piece.len(), room);
    if len == 0 {
        watch.lacks(piece.len());
        return Err(Pumped::Again);
    }
    if len < piece.len() {
        return receive_piece(server, number, ended, reader, &mut piece[..len], watch);
    }
    match receive_apart(server, number, ended, reader, watch) {
        Some(moved) => moved,
        None => receive_piece(server, number, ended, reader, piece, watch),
    }
}

/// Receives by a read straight into a data block that the server keeps apart. None says that nothing was read, and nothing has changed.
fn receive_apart<S: Store + Drop, R: Read>(
    server: &mut Server<S>,
    number: u64,
    ended: &mut bool,
    reader: &mut R,
    watch: &mut Watch,
) -> Option<Result<bool, Pumped>>
    requires is_open { IsSome (connection_at server.old number) }
    requires below { length (output_of (connection_at server.old number)) < UNSENT_MARK }
    requires goes_on { ended.old ≡ false }
    ensures receives { IfSome result (λ side. (moment : ℕ) → Receives number moment side server.old server.new
        (R.remaining reader.old) (R.remaining reader.new) ended.new (counted_by watch.old) (counted_by watch.new)) }
    ensures none { IfNone result (server.new ≡ server.old) }
    ensures unread { IfNone result (reader.new ≡ reader.old) }
    ensures going_on { IfNone result (ended.new ≡ ended.old) }
    ensures unwatched { IfNone result (watch.new ≡ watch.old) }
{
    let read = server.read_from(number, reader)?;
    let side = read_result(read, ended);
    watch.tally.came(count_of(&side));
    Some(moved_by(side, *ended))
}

/// Returns how many bytes a read returned: none if it stops the pump.
fn count_of(side: &Result<usize, Pumped>) -> usize {
    match side {
        Ok(count) => *count,
        Err(_) => 0,
    }
}

/// Receives by a read into a piece.
fn receive_piece<S: Store + Drop, R: Read>(
    server: &mut Server<S>,
    number: u64,
    ended: &mut bool,
    reader: &mut R,
    piece: &mut [u8],
    watch: &mut Watch,
) -> Result<bool, Pumped>
    requires is_open { IsSome (connection_at server.old number) }
    requires below { length (output_of (connection_at server.old number)) < UNSENT_MARK }
    requires goes_on { ended.old ≡ false }
    requires piece { 0 < length piece.old }
    ensures { (moment : ℕ) → Receives number moment result server.old server.new (R.remaining reader.old) (R.remaining reader.new) ended.new
        (counted_by watch.old) (counted_by watch.new) }
{
    let count = read_once(reader, piece, ended)?;
    if count == 0 {
        return Ok(*ended);
    }
    let (came, _) = piece.split_at(count);
    watch.tally.came(count);
    match server.feed(number, came) {
        Ok(()) => Ok(true),
        Err(_) => Err(Pumped::Failed),
    }
}

/// Returns whether a read moved anything: bytes arrived, or the end.
fn moved_by(side: Result<usize, Pumped>, ended: bool) -> Result<bool, Pumped>
    ensures { result ≡ moved_of side ended }
{
    match side {
        Ok(count) => Ok(count > 0 || ended),
        Err(pump) => Err(pump),
    }
}
