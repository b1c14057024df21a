//! The pump of a session: bytes in, requests taken, answers out.
ghost use Rattle.std.specs.Prelude.{◌≡◌, ◌<◌, ◌==◌, ◌&&◌, ◌↔◌, ℕ, Bool, List, [], Option, None, Ok, false, true, length, IfOk, IfSome, IsSome, IsTrue};
ghost use Rattle.mc_proxy.specs.ProxyState.{output_of, session_at, unanswered_of};
ghost use Rattle.mc_proxy.specs.Turns.{HasAnswer, hides_loss_at, waiting_of};
ghost use Rattle.mc_stream.specs.Sides.{pump_of};
ghost use Rattle.mc_proxy_pump.specs.Calls.{SessionStretch};
ghost use Rattle.mc_proxy_pump.specs.Clients.{EndsEarly, PumpsClient, emitted_at, foreign_after, is_closed_at, has_pending_at};
ghost use Rattle.mc_proxy_pump.specs.Rounds.{HasAnswered, HowMany, Receives, Sends, StopsAt, TakesTurns, ends_by, reads_by};
ghost use Rattle.mc_proxy_pump.specs.Tallies.{counts_of};

use crate::limits::QUANTUM;
use crate::rooms::{kept_for, may_emit, may_take, readable, request_room, shortage};
use crate::tallies::ClientTally;
use mc_proxy::{Emit, Proxy, SessionTurn, UNSENT_MARK};
use mc_stream::{MAX_ROUNDS, Pumped, read_once, write_once};
use std::io::{Read, Write};

/// Carries a session's bytes between a proxy and the two sides of a nonblocking stream, takes its requests, and emits the answers
/// that are known.
///
/// It does at most [`MAX_ROUNDS`] rounds. A round takes requests and emits answers as far as possible, writes the unsent output in
/// one call, and reads once into `piece`, whose bytes before and after mean nothing. While a request waits for a mark, or
/// [`UNSENT_MARK`] bytes or more are unsent, nothing is read. `ended` says whether the input has ended: the pump sets it when a
/// read returns no byte, and then reads no more; a caller passes `false` at first. The tally counts the requests that are taken,
/// those whose answer hides a loss, and the bytes.
///
/// Requests are taken and answers emitted only while some of the [`QUANTUM`] of work is left. Once none is, the pump writes the unsent
/// output in one call, and returns [`Pumped::Again`]. It ends so too if its next step would keep more than `tally.most` bytes for the session: to take
/// a request, or to read. Then `tally.short` is how many bytes would be kept. If more than `tally.answer` bytes are kept for the request that is
/// answered next, its answer is never emitted, and the pump ends so too.
///
/// After [`Pumped::Blocked`] the caller waits for one of three events. The stream may make progress; a server may answer one of
/// the session's commands; or a link may send more of its bytes, if a request waits for its mark. Then the pump is called again.
/// If the session is not open, it returns [`Pumped::Failed`].
///
/// It takes no request where the unread bytes name a host: it returns [`Pumped::Failed`], and sets `tally.foreign`.
pub fn pump_client<R: Read, W: Write>(
    proxy: &mut Proxy,
    session: u64,
    ended: &mut bool,
    reader: &mut R,
    writer: &mut W,
    piece: &mut [u8],
    tally: &mut ClientTally,
) -> Pumped
    requires piece { 0 < length piece.old }
    ensures pumps { IsSome (session_at proxy.old session) → (left : ℕ) × PumpsClient session result proxy.old proxy.new
        (R.remaining reader.old) (R.remaining reader.new) (W.contents writer.old) (W.contents writer.new) ended.old ended.new
        (tally.old.missed, QUANTUM) (tally.new.missed, left) }
    ensures not_open { session_at proxy.old session ≡ None → (result ≡ Pumped.Failed) × (proxy.new ≡ proxy.old) }
    ensures not_counted { session_at proxy.old session ≡ None → tally.new ≡ tally.old }
    ensures foreign { tally.new.foreign ≡ foreign_after result (session_at proxy.new session) tally.old.foreign }
    ensures short { IsSome (session_at proxy.old session) → IfSome tally.new.short (λ need. (result ≡ Pumped.Again) × (tally.new.most < need)) }
{
    if !proxy.is_open(session) {
        return Pumped::Failed;
    }
    let before = tally.foreign;
    tally.left = QUANTUM;
    let pump = rounds(proxy, session, ended, reader, writer, piece, tally);
    tally.foreign = is_foreign_after(pump, proxy, session, before);
    tally.short = shortage(pump, proxy, session, piece.len(), tally.most);
    pump
}

/// Emits the answers that are known, writes the unsent output in one call, and returns whether the writer took any. It takes no
/// request and reads nothing: it is for a session with too many buffered bytes. If the session has no pending request and no
/// unsent answer, or is not open, it does nothing.
///
/// It emits answers only while some of its [`QUANTUM`] of work is left, and only those for which no more than `tally.answer` bytes are kept: else it
/// writes, and the error is [`Pumped::Again`]. Any error is how the pump stops. An answer needs no room, so `tally.short` is none.
pub fn pump_answers<W: Write>(
    proxy: &mut Proxy,
    session: u64,
    writer: &mut W,
    tally: &mut ClientTally,
) -> Result<bool, Pumped>
    ensures pumps { (unread : Option (List ℕ)) (ended : Bool) → IsSome (session_at proxy.old session)
        → (left : ℕ) × PumpsClient session (pump_of result) proxy.old proxy.new unread unread (W.contents writer.old) (W.contents writer.new) ended ended
        (tally.old.missed, QUANTUM) (tally.new.missed, left) }
    ensures not_open { session_at proxy.old session ≡ None → (result ≡ Ok false) × (proxy.new ≡ proxy.old) }
    ensures not_counted { session_at proxy.old session ≡ None → tally.new ≡ tally.old }
    ensures foreign { tally.new.foreign ≡ tally.old.foreign }
{
    if !has_pending(proxy, session) {
        return Ok(false);
    }
    tally.left = QUANTUM;
    tally.short = None;
    if let Err(pump) = put_out(proxy, session, tally) {
        let pump = stop(pump, proxy, session, writer, tally);
        return Err(pump);
    }
    send(proxy, session, writer, tally)
}

/// Returns whether a session has a request that is not answered, or an answer that is not sent.
pub fn has_pending(proxy: &Proxy, session: u64) -> bool
    ensures { result ≡ has_pending_at (session_at proxy.now session) }
{
    proxy.unanswered(session) > 0 || !proxy.output(session).is_empty()
}

/// Returns whether a client is foreign after a pump, given whether one was before: the pump failed, and unread bytes name a host.
fn is_foreign_after(pump: Pumped, proxy: &Proxy, session: u64, before: bool) -> bool
    ensures { result ≡ foreign_after pump (session_at proxy.now session) before }
{
    before || (pump == Pumped::Failed && proxy.is_foreign(session))
}

/// Does the rounds of a pump, with the work that is left to it.
fn rounds<R: Read, W: Write>(
    proxy: &mut Proxy,
    session: u64,
    ended: &mut bool,
    reader: &mut R,
    writer: &mut W,
    piece: &mut [u8],
    tally: &mut ClientTally,
) -> Pumped
    requires is_open { IsSome (session_at proxy.old session) }
    requires piece { 0 < length piece.old }
    ensures { PumpsClient session result proxy.old proxy.new (R.remaining reader.old)
        (R.remaining reader.new) (W.contents writer.old) (W.contents writer.new) ended.old ended.new
        (counts_of tally.old) (counts_of tally.new) }
{
    for _ in 0..MAX_ROUNDS {
        if let Err(pump) = round(proxy, session, ended, reader, writer, piece, tally) {
            return pump;
        }
    }
    Pumped::Again
}

/// Ends a pump that goes on no more, and returns how. If its work has reached the quantum, it writes the unsent output in one call.
fn stop<W: Write>(
    pump: Pumped,
    proxy: &mut Proxy,
    session: u64,
    writer: &mut W,
    tally: &mut ClientTally,
) -> Pumped
    requires { IsSome (session_at proxy.old session) }
    ensures pumps { (unread : Option (List ℕ)) (ended : Bool)
        → PumpsClient session result proxy.old proxy.new unread unread (W.contents writer.old) (W.contents writer.new) ended ended
        (counts_of tally.old) (counts_of tally.new) }
    ensures foreign { tally.new.foreign ≡ tally.old.foreign }
{
    if pump == Pumped::Again {
        match send(proxy, session, writer, tally) {
            Ok(_) => Pumped::Again,
            Err(pump) => pump,
        }
    } else {
        Pumped::Failed
    }
}

/// Does one round: requests and answers, a write, a read. The error is how the pump stops: `Again` if it would read, and what it reads needs more
/// memory than it may.
fn round<R: Read, W: Write>(
    proxy: &mut Proxy,
    session: u64,
    ended: &mut bool,
    reader: &mut R,
    writer: &mut W,
    piece: &mut [u8],
    tally: &mut ClientTally,
) -> Result<(), Pumped>
    requires is_open { IsSome (session_at proxy.old session) }
    requires piece { 0 < length piece.old }
    ensures { PumpsClient session (pump_of result) proxy.old proxy.new (R.remaining reader.old)
        (R.remaining reader.new) (W.contents writer.old) (W.contents writer.new) ended.old ended.new
        (counts_of tally.old) (counts_of tally.new) }
{
    let turn = match advance(proxy, session, tally) {
        Ok(turn) => turn,
        Err(pump) => return Err(stop(pump, proxy, session, writer, tally)),
    };
    let is_marked = proxy.output(session).len() >= UNSENT_MARK;
    let moved = send(proxy, session, writer, tally)?;
    if is_over(proxy, session, turn, *ended) {
        return Err(Pumped::Done);
    }
    if is_read(turn, *ended, is_marked) {
        let len = readable(proxy, session, piece.len(), tally.most);
        if len == 0 {
            return Err(Pumped::Again);
        }
        let can_send = moved && !proxy.output(session).is_empty();
        return read_or_block(
            proxy,
            session,
            ended,
            reader,
            &mut piece[..len],
            can_send,
            tally,
        );
    }
    if moved {
        return Ok(());
    }
    Err(Pumped::Blocked)
}

/// Returns whether the session is finished, given why no more is taken: all that was taken of it is answered, all its answers are
/// sent, and nothing more will arrive.
fn is_over(proxy: &Proxy, session: u64, turn: SessionTurn, ended: bool) -> bool
    ensures { result ≡ ((length (output_of (session_at proxy.now session)) == 0) && ((unanswered_of (session_at proxy.now session) == 0) && ends_by turn ended)) }
{
    let ends = match turn {
        SessionTurn::Idle => ended,
        SessionTurn::Closing => true,
        SessionTurn::Took | SessionTurn::Waiting => false,
    };
    proxy.output(session).is_empty() && proxy.unanswered(session) == 0 && ends
}

/// Returns whether the input is read on, given why no more is taken and whether the mark of unsent bytes is reached.
fn is_read(turn: SessionTurn, ended: bool, is_marked: bool) -> bool
    ensures { result ≡ reads_by turn ended is_marked }
{
    turn == SessionTurn::Idle && !ended && !is_marked
}

/// Takes requests and emits answers, as far as possible, and returns why no more is taken. The error is how the pump stops: `Again` once
/// its work has reached the quantum.
fn advance(proxy: &mut Proxy, session: u64, tally: &mut ClientTally) -> Result<SessionTurn, Pumped>
    requires is_open { IsSome (session_at proxy.old session) }
    ensures calls { SessionStretch session proxy.old proxy.new [] [] (counts_of tally.old) (counts_of tally.new) }
    ensures stop { IfOk result (λ turn. StopsAt turn proxy.new (session_at proxy.new session)) }
    ensures early { IfOk result (λ turn. EndsEarly tally.new.left (session_at proxy.new session)) }
    ensures answered { IfOk result (λ turn. HasAnswered (session_at proxy.new session)) }
{
    loop {
        let stop = take_turns(proxy, session, tally)?;
        if !put_out(proxy, session, tally)? {
            return Ok(stop);
        }
    }
}

/// Takes requests until none waits, or none can be taken, and returns why. The error is how the pump stops: `Again` if no work is left, or the next
/// request needs more memory than it may, and `Failed` if the unread bytes name a host.
fn take_turns(
    proxy: &mut Proxy,
    session: u64,
    tally: &mut ClientTally,
) -> Result<SessionTurn, Pumped>
    requires is_open { IsSome (session_at proxy.old session) }
    ensures turns { TakesTurns session proxy.old proxy.new (counts_of tally.old) (counts_of tally.new) }
    ensures stop { IfOk result (λ turn. StopsAt turn proxy.new (session_at proxy.new session)) }
    ensures early { IfOk result (λ turn. EndsEarly tally.new.left (session_at proxy.new session)) }
{
    let mut kept = kept_for(proxy, session);
    loop {
        if tally.left == 0 {
            return Err(Pumped::Again);
        }
        if proxy.is_foreign(session) {
            return Err(Pumped::Failed);
        }
        if !may_take(proxy, session, kept, tally.most) {
            return Err(Pumped::Again);
        }
        let Ok(turn) = proxy.turn(session) else {
            return Err(Pumped::Failed);
        };
        match turn {
            SessionTurn::Took => {
                tally.passed.took();
                let commands = proxy.commands(session);
                tally.charge_request(commands);
                kept = kept.saturating_add(request_room(commands));
            },
            SessionTurn::Idle => return Ok(SessionTurn::Idle),
            SessionTurn::Waiting => return Ok(SessionTurn::Waiting),
            SessionTurn::Closing => return Ok(SessionTurn::Closing),
        }
    }
}

/// Emits the answers that are known, until the unsent bytes reach the mark, and returns whether there was one. The error is how the pump
/// stops: `Again` if no work is left, or the next answer needs more memory than it may.
fn put_out(proxy: &mut Proxy, session: u64, tally: &mut ClientTally) -> Result<bool, Pumped>
    requires is_open { IsSome (session_at proxy.old session) }
    ensures calls { SessionStretch session proxy.old proxy.new [] [] (counts_of tally.old) (counts_of tally.new) }
    ensures how { IfOk result (λ answered. HowMany answered session proxy.old proxy.new) }
    ensures foreign { tally.new.foreign ≡ tally.old.foreign }
    ensures unspent { IfOk result (λ answered. answered ≡ false → tally.new.left ≡ tally.old.left) }
    ensures answered { IfOk result (λ answered. HasAnswered (session_at proxy.new session)) }
{
    let mut answered = false;
    loop {
        let unsent = proxy.output(session).len();
        if unsent >= UNSENT_MARK {
            return Ok(answered);
        }
        if tally.left == 0 {
            return Err(Pumped::Again);
        }
        if !may_emit(proxy, session, tally.answer) {
            return Err(Pumped::Again);
        }
        let hides = is_counted(proxy, session, tally);
        let Ok(emit) = proxy.emit(session) else {
            return Err(Pumped::Failed);
        };
        match emit {
            Emit::Done => {
                tally.answered(hides);
                tally.charge_answer(proxy.output(session).len().saturating_sub(unsent));
                answered = true;
            },
            Emit::Idle => return Ok(answered),
        }
    }
}

/// Returns whether the next answer of a session is counted if it is emitted: it is known and hides a loss, and such answers are
/// counted.
fn is_counted(proxy: &Proxy, session: u64, tally: &ClientTally) -> bool
    ensures { IsTrue result ↔ (IsSome tally.now.missed × HasAnswer session proxy.now × (hides_loss_at (session_at proxy.now session) ≡ true)) }
{
    tally.counts() && hides_loss(proxy, session)
}

/// Returns whether the next answer of a session is known, and hides a loss. Until it is known, its replies are not looked at.
fn hides_loss(proxy: &Proxy, session: u64) -> bool
    ensures { IsTrue result ↔ (HasAnswer session proxy.now × (hides_loss_at (session_at proxy.now session) ≡ true)) }
{
    proxy.has_answer(session) && proxy.hides_loss(session)
}

/// Writes the unsent output in one call, drops what the writer took, and returns whether it took any.
fn send<W: Write>(
    proxy: &mut Proxy,
    session: u64,
    writer: &mut W,
    tally: &mut ClientTally,
) -> Result<bool, Pumped>
    requires { IsSome (session_at proxy.old session) }
    ensures sends { Sends session result proxy.old proxy.new (W.contents writer.old) (W.contents writer.new) (counts_of tally.old) (counts_of tally.new) }
    ensures foreign { tally.new.foreign ≡ tally.old.foreign }
{
    let count = write_once(writer, proxy.output(session))?;
    if count == 0 {
        return Ok(false);
    }
    proxy.taken_out(session, count);
    tally.passed.went(count);
    Ok(true)
}

/// Reads. If nothing arrived and nothing more can be sent, it returns how the pump stops.
fn read_or_block<R: Read>(
    proxy: &mut Proxy,
    session: u64,
    ended: &mut bool,
    reader: &mut R,
    piece: &mut [u8],
    can_send: bool,
    tally: &mut ClientTally,
) -> Result<(), Pumped>
    requires is_open { IsSome (session_at proxy.old session) }
    requires none_waits { waiting_of (session_at proxy.old session) ≡ [] }
    requires none_known { emitted_at (session_at proxy.old session) ≡ None }
    requires below { length (output_of (session_at proxy.old session)) < UNSENT_MARK }
    requires is_read { is_closed_at (session_at proxy.old session) ≡ false }
    requires goes_on { ended.old ≡ false }
    requires early { EndsEarly tally.old.left (session_at proxy.old session) }
    requires piece { 0 < length piece.old }
    ensures { (written : Option (List ℕ)) → PumpsClient session (pump_of result) proxy.old proxy.new
        (R.remaining reader.old) (R.remaining reader.new) written written ended.old ended.new
        (counts_of tally.old) (counts_of tally.new) }
{
    let moved = receive(proxy, session, ended, reader, piece, tally)?;
    if moved || can_send {
        return Ok(());
    }
    Err(Pumped::Blocked)
}

/// Reads once, feeds the session with the bytes, and returns whether any arrived, or the end.
fn receive<R: Read>(
    proxy: &mut Proxy,
    session: u64,
    ended: &mut bool,
    reader: &mut R,
    piece: &mut [u8],
    tally: &mut ClientTally,
) -> Result<bool, Pumped>
    requires is_open { IsSome (session_at proxy.old session) }
    requires none_waits { waiting_of (session_at proxy.old session) ≡ [] }
    requires below { length (output_of (session_at proxy.old session)) < UNSENT_MARK }
    requires goes_on { ended.old ≡ false }
    requires piece { 0 < length piece.old }
    ensures { Receives session result proxy.old proxy.new (R.remaining reader.old) (R.remaining reader.new) ended.new
        (counts_of tally.old) (counts_of tally.new) }
{
    let count = read_once(reader, piece, ended)?;
    if count == 0 {
        return Ok(*ended);
    }
    let (came, _) = piece.split_at(count);
    tally.passed.came(count);
    match proxy.feed(session, came) {
        Ok(()) => Ok(true),
        Err(_) => Err(Pumped::Failed),
    }
}
