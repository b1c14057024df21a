//! A connection: its reader, and its answers.
ghost use Rattle.std.specs.Prelude.{◌≡◌, ◌+◌, ◌-◌, ◌≤◌, ◌<◌, ◌^◌, ◌↔◌, ℕ, [], drop, length, min, Ok, IsTrue, IfOk, IfSome, IfNone, IsOkUnless, OnOk, OnErr, OnSome};

use crate::ahead::{Ahead, Looked};
use crate::answering::{COMMAND_BOUND, bound_for, room_for_get, serve_set, serve_within};
use crate::gathering::serve_get;
use crate::limits::AnswerLimit;
use crate::turns::{Limited, ServerError, Turn};
use crate::work::work_of_bytes;
use mc_cache::Cache;
use mc_reply::LINE_ROOM;
use mc_request::{CommandLine, command_line};
use mc_request_reader::{ApartReader, Front, LentGet, Look, Peek};
use mc_store::Store;
use mc_stream::{Gather, NoWriter};
use mc_text::{consume_front, shrink_if_idle, without_spaces};
use std::alloc::Global;
use std::io;
use std::io::Read;
use std::marker::Model;

/// A connection of a server.
#[derive(Drop)]
pub struct Connection {
    reader: ApartReader,
    output: Vec<u8>,
    /// The number of bytes of the output that were taken out.
    sent: usize,
    /// What is kept of the last look ahead.
    looked: Looked,
}

impl Model for Connection {
    ghost use Rattle.std.specs.Prelude.{◌≤◌, ◌*◌, drop, vec_len};
    ghost use Rattle.mc_server.specs.ServerState.{ConnectionState};

    ghost Value = { ConnectionState };

    ghost view = { λ c. record { reader = c.reader; output = drop c.sent c.output.items } };

    ghost invariant = { λ c. 2 * c.sent ≤ vec_len c.output };
}

impl Connection {
    ghost use Rattle.mc_request_reader.specs.Hosts.{names_host};
    ghost use Rattle.mc_request_reader.specs.Reader.{rest_of, kept_of, KeepsLittle};
    ghost use Rattle.mc_request_reader.specs.Reads.{ReadsBy};
    ghost use Rattle.mc_server.specs.Gathers.{IsGatheredTurn};
    ghost use Rattle.mc_server.specs.Rooms.{bound_of};
    ghost use Rattle.mc_server.specs.Work.{work_of_first};
    ghost use Rattle.mc_server.specs.ServerState.{fresh_connection};
    ghost use Rattle.mc_server.specs.Turns.{IsFed, IsLimitedTurn, IsTurn};
    ghost use Rattle.mc_server.specs.declared.turns.Turn.TheVariants.{Took};
    ghost use Rattle.mc_server.specs.declared.turns.Limited.TheVariants.{Turned, Refused};

    /// Makes a connection to which nothing has arrived.
    pub fn new(alloc: Global) -> Self
        ensures { result ≡ fresh_connection }
    {
        Connection {
            reader: ApartReader::new(alloc),
            output: Vec::new(alloc),
            sent: 0,
            looked: Looked::never(),
        }
    }

    /// Takes the next piece of the client's text.
    pub fn feed(&mut self, piece: &[u8]) -> Result<(), ServerError>
        ensures fed { OnOk result (IsFed self.old piece.now self.new) }
        ensures little { OnOk result (KeepsLittle self.new.reader) }
        ensures only_memory { IsOkUnless result ServerError.Memory }
        ensures cause { OnErr result (0 < kept_of self.old.reader (length piece.now)) }
        ensures err { OnErr result (self.new ≡ self.old) }
    {
        self.reader.feed(piece)?;
        Ok(())
    }

    /// Reads once, straight into the data block of a large `set`, if many of its bytes are missing. None says that nothing was read.
    #[inline(always)]
    pub fn read_from<R: Read>(&mut self, reader: &mut R) -> Option<io::Result<usize>>
        ensures read { IfSome result (λ read. ReadsBy read (R.remaining reader.old) (R.remaining reader.new)
            (λ came. IsFed self.old came self.new) (self.new ≡ self.old)) }
        ensures little { KeepsLittle self.new.reader }
        ensures none { IfNone result (self.new ≡ self.old) }
        ensures unread { IfNone result (reader.new ≡ reader.old) }
    {
        self.reader.read_from(reader)
    }

    /// Returns whether a whole request or fault has arrived.
    pub fn ready(&self) -> bool
        ensures { IsTrue result ↔ (0 < length (rest_of self.now.reader [])) }
    {
        self.reader.ready()
    }

    /// Returns whether nothing is read any more.
    pub fn is_closed(&self) -> bool
        ensures { result ≡ self.now.reader.closed }
    {
        self.reader.is_closed()
    }

    /// Returns whether what has arrived, and is not taken, begins with a header of an HTTP request.
    #[inline]
    pub fn is_foreign(&self) -> bool
        ensures { result ≡ names_host self.now.reader.unread }
    {
        self.reader.names_host()
    }

    /// Returns a bound on what the next turn adds to the output; [`usize::MAX`] if it is that or more.
    pub fn bound<S: Store + Drop>(&self, cache: &Cache<S>) -> usize
        ensures { result ≡ min (bound_of (rest_of self.now.reader []) cache.now) (2 ^ 64 - 1) }
    {
        match self.reader.peek() {
            Peek::First(asked, _) => bound_for(&asked, cache),
            Peek::More | Peek::Closed => 0,
        }
    }

    /// Takes the first request or fault that has arrived whole, and serves it at a moment: a [turn](Self::turn_within)
    /// without a limit.
    pub fn turn<S: Store + Drop>(
        &mut self,
        cache: &mut Cache<S>,
        moment: u64,
        ahead: &mut Ahead,
    ) -> Result<Turn, ServerError>
        requires { moment < 2 ^ 63 }
        ensures turn { (number : ℕ)
            → IfOk result (λ turn. IsTurn number moment turn cache.old cache.new self.old self.new) }
        ensures bounded { OnOk result (length self.new.output
            ≤ length self.old.output + bound_of (rest_of self.old.reader []) cache.old) }
        ensures little { OnOk result (KeepsLittle self.new.reader) }
        ensures only_memory { IsOkUnless result ServerError.Memory }
        ensures cause { OnErr result (0 < length (rest_of self.old.reader [])) }
        ensures err { OnErr result (self.new ≡ self.old) }
        ensures cache_kept { OnErr result (cache.new ≡ cache.old) }
    {
        let mut work = 0;
        match self.turn_within(cache, moment, AnswerLimit::none(), ahead, &mut work)? {
            Limited::Turned(turn) => Ok(turn),
            Limited::Refused => unreachable!(),
        }
    }

    /// Takes the first request or fault that has arrived whole, and serves it at a moment, if its answer is within a limit.
    ///
    /// It takes the memory that it may need before it changes anything: room for the answer, and the block of a value
    /// that is stored under a stored key, unless the reader moves that out. If no request is pending it needs none.
    pub fn turn_within<S: Store + Drop>(
        &mut self,
        cache: &mut Cache<S>,
        moment: u64,
        limit: AnswerLimit,
        ahead: &mut Ahead,
        work: &mut u64,
    ) -> Result<Limited, ServerError>
        requires { moment < 2 ^ 63 }
        ensures turn { (number : ℕ)
            → IfOk result (λ limited. IsLimitedTurn number moment limited cache.old cache.new self.old self.new) }
        ensures bounded { OnOk result (length self.new.output
            ≤ length self.old.output + bound_of (rest_of self.old.reader []) cache.old) }
        ensures little { OnOk result (KeepsLittle self.new.reader) }
        ensures work { result ≡ Ok (Turned Took) → work.new
            ≡ min (work_of_first (rest_of self.old.reader []) cache.old) (2 ^ 64 - 1) }
        ensures refused { (result ≡ Ok Refused)
            ↔ (limit.bytes < min (bound_of (rest_of self.old.reader []) cache.old) (2 ^ 64 - 1)) }
        ensures unchanged { result ≡ Ok Refused → self.new ≡ self.old }
        ensures cache_unchanged { result ≡ Ok Refused → cache.new ≡ cache.old }
        ensures only_memory { IsOkUnless result ServerError.Memory }
        ensures cause { OnErr result (0 < length (rest_of self.old.reader [])) }
        ensures err { OnErr result (self.new ≡ self.old) }
        ensures cache_kept { OnErr result (cache.new ≡ cache.old) }
    {
        let mut went = 0;
        self.turn_gathering(cache, moment, limit, ahead, &mut NoWriter, &mut went, work)
    }

    /// Takes a [turn](Self::turn_within) whose answer may be written at once. If it shows one large value, the writer is given in one call what is
    /// unsent, the answer, and the value without a copy. `went` is set to the number of bytes that the writer took. The others stay in the output.
    /// If a request or fault was taken, `work` is set to the work that it cost.
    pub fn turn_gathering<S: Store + Drop, W: Gather>(
        &mut self,
        cache: &mut Cache<S>,
        moment: u64,
        limit: AnswerLimit,
        ahead: &mut Ahead,
        writer: &mut W,
        went: &mut usize,
        work: &mut u64,
    ) -> Result<Limited, ServerError>
        requires { moment < 2 ^ 63 }
        ensures turn { (number : ℕ)
            → IfOk result (λ limited. IsGatheredTurn number moment limited went.new (W.contents writer.old) (W.contents writer.new)
            cache.old cache.new self.old self.new) }
        ensures bounded { OnOk result (length self.new.output
            ≤ length self.old.output + bound_of (rest_of self.old.reader []) cache.old) }
        ensures little { OnOk result (KeepsLittle self.new.reader) }
        ensures work { result ≡ Ok (Turned Took) → work.new
            ≡ min (work_of_first (rest_of self.old.reader []) cache.old) (2 ^ 64 - 1) }
        ensures refused { (result ≡ Ok Refused)
            ↔ (limit.bytes < min (bound_of (rest_of self.old.reader []) cache.old) (2 ^ 64 - 1)) }
        ensures unchanged { result ≡ Ok Refused → self.new ≡ self.old }
        ensures cache_unchanged { result ≡ Ok Refused → cache.new ≡ cache.old }
        ensures only_memory { IsOkUnless result ServerError.Memory }
        ensures cause { OnErr result (0 < length (rest_of self.old.reader [])) }
        ensures err { OnErr result (self.new ≡ self.old) }
        ensures cache_kept { OnErr result (cache.new ≡ cache.old) }
        ensures writer_kept { OnErr result (writer.new ≡ writer.old) }
    {
        *went = 0;
        match self.reader.look() {
            Look::More => Ok(Limited::Turned(Turn::Idle)),
            Look::Get(get) => {
                let LentGet {
                    keys,
                    with_cas,
                    front,
                } = get;
                let text = self.reader.unread();
                self.looked = ahead.look(self.looked, &keys, front.size, text, cache);
                let room = room_for_get(&keys, cache);
                if limit.is_passed_by_get(room, &keys, cache) {
                    return Ok(Limited::Refused);
                }
                self.output.reserve(room)?;
                let sent = self.sent;
                let put = serve_get(
                    keys,
                    room,
                    with_cas,
                    cache,
                    moment,
                    ahead,
                    sent,
                    &mut self.output,
                    writer,
                );
                self.sent = put.sent;
                *went = put.went;
                *work = put.work;
                self.looked = ahead.past(self.looked, front.size);
                self.reader.consume(front);
                Ok(Limited::Turned(Turn::Took))
            }
            Look::Line(_) | Look::Other => self.turn_other(cache, moment, limit, ahead, work),
        }
    }

    /// Takes a turn of a first request that is not a good `get` or `gets`, or of a fault.
    fn turn_other<S: Store + Drop>(
        &mut self,
        cache: &mut Cache<S>,
        moment: u64,
        limit: AnswerLimit,
        ahead: &mut Ahead,
        work: &mut u64,
    ) -> Result<Limited, ServerError>
        requires { moment < 2 ^ 63 }
        ensures turn { (number : ℕ)
            → IfOk result (λ limited. IsLimitedTurn number moment limited cache.old cache.new self.old self.new) }
        ensures bounded { OnOk result (length self.new.output
            ≤ length self.old.output + bound_of (rest_of self.old.reader []) cache.old) }
        ensures little { OnOk result (KeepsLittle self.new.reader) }
        ensures work { result ≡ Ok (Turned Took) → work.new
            ≡ min (work_of_first (rest_of self.old.reader []) cache.old) (2 ^ 64 - 1) }
        ensures refused { (result ≡ Ok Refused)
            ↔ (limit.bytes < min (bound_of (rest_of self.old.reader []) cache.old) (2 ^ 64 - 1)) }
        ensures unchanged { result ≡ Ok Refused → self.new ≡ self.old }
        ensures cache_unchanged { result ≡ Ok Refused → cache.new ≡ cache.old }
        ensures only_memory { IsOkUnless result ServerError.Memory }
        ensures cause { OnErr result (0 < length (rest_of self.old.reader [])) }
        ensures err { OnErr result (self.new ≡ self.old) }
        ensures cache_kept { OnErr result (cache.new ≡ cache.old) }
    {
        if !is_peeked(self.reader.unread())
            && let Look::Line(line) = self.reader.look()
            && let CommandLine::Alone(asked) = &command_line(line.content)
        {
            let front = Front {
                size: line.size,
                closes: asked.ends(),
            };
            let text = self.reader.unread();
            self.looked = ahead.look_past(self.looked, asked, front.size, text, cache);
            if !serve_within(asked, cache, moment, limit, ahead, &mut self.output, work)? {
                return Ok(Limited::Refused);
            }
            self.looked = ahead.past(self.looked, front.size);
            self.reader.consume(front);
            return Ok(Limited::Turned(Turn::Took));
        }
        if self.reader.has_set()
            && let Some(turn) = self.turn_set(cache, moment, limit, work)
        {
            return Ok(Limited::Turned(turn));
        }
        self.turn_peeked(cache, moment, limit, ahead, work)
    }

    /// Takes a turn of a large `set` that the reader moves out: no byte of its data block is copied. It returns none if there is no such
    /// `set`, if there is no room for an answer, or if the limit is low: then nothing has changed.
    #[inline(never)]
    fn turn_set<S: Store + Drop>(
        &mut self,
        cache: &mut Cache<S>,
        moment: u64,
        limit: AnswerLimit,
        work: &mut u64,
    ) -> Option<Turn>
        requires { moment < 2 ^ 63 }
        ensures turn { IfSome result (λ turn. (number : ℕ)
            → IsTurn number moment turn cache.old cache.new self.old self.new) }
        ensures bounded { OnSome result (length self.new.output
            ≤ length self.old.output + bound_of (rest_of self.old.reader []) cache.old) }
        ensures little { OnSome result (KeepsLittle self.new.reader) }
        ensures work { OnSome result (work.new ≡ min (work_of_first (rest_of self.old.reader []) cache.old) (2 ^ 64 - 1)) }
        ensures within { OnSome result (bound_of (rest_of self.old.reader []) cache.old ≤ limit.bytes) }
        ensures unchanged { IfNone result (self.new ≡ self.old) }
        ensures cache_unchanged { IfNone result (cache.new ≡ cache.old) }
    {
        if limit.bytes < COMMAND_BOUND {
            return None;
        }
        let Ok(()) = self.output.reserve(LINE_ROOM) else {
            return None;
        };
        let set = self.reader.take_set()?;
        *work = work_of_bytes(set.block.len());
        serve_set(set, cache, moment, &mut self.output);
        Some(Turn::Took)
    }

    /// Takes a turn by [`ApartReader::peek`].
    fn turn_peeked<S: Store + Drop>(
        &mut self,
        cache: &mut Cache<S>,
        moment: u64,
        limit: AnswerLimit,
        ahead: &mut Ahead,
        work: &mut u64,
    ) -> Result<Limited, ServerError>
        requires { moment < 2 ^ 63 }
        ensures turn { (number : ℕ)
            → IfOk result (λ limited. IsLimitedTurn number moment limited cache.old cache.new self.old self.new) }
        ensures bounded { OnOk result (length self.new.output
            ≤ length self.old.output + bound_of (rest_of self.old.reader []) cache.old) }
        ensures little { OnOk result (KeepsLittle self.new.reader) }
        ensures work { result ≡ Ok (Turned Took) → work.new
            ≡ min (work_of_first (rest_of self.old.reader []) cache.old) (2 ^ 64 - 1) }
        ensures refused { (result ≡ Ok Refused)
            ↔ (limit.bytes < min (bound_of (rest_of self.old.reader []) cache.old) (2 ^ 64 - 1)) }
        ensures unchanged { result ≡ Ok Refused → self.new ≡ self.old }
        ensures cache_unchanged { result ≡ Ok Refused → cache.new ≡ cache.old }
        ensures only_memory { IsOkUnless result ServerError.Memory }
        ensures cause { OnErr result (0 < length (rest_of self.old.reader [])) }
        ensures err { OnErr result (self.new ≡ self.old) }
        ensures cache_kept { OnErr result (cache.new ≡ cache.old) }
    {
        let front = match &self.reader.peek() {
            Peek::Closed => return Ok(Limited::Turned(Turn::Closing)),
            Peek::More => return Ok(Limited::Turned(Turn::Idle)),
            Peek::First(asked, front) => {
                let text = self.reader.unread();
                self.looked = ahead.look_past(self.looked, asked, front.size, text, cache);
                if !serve_within(asked, cache, moment, limit, ahead, &mut self.output, work)? {
                    return Ok(Limited::Refused);
                }
                *front
            }
        };
        self.looked = ahead.past(self.looked, front.size);
        self.reader.consume(front);
        Ok(Limited::Turned(Turn::Took))
    }

    /// Returns the answers that were not taken out.
    pub fn output(&self) -> &[u8]
        ensures { result.now ≡ self.now.output }
    {
        let (_, output) = self.output.split_at(self.sent);
        output
    }

    /// Releases the first `count` bytes of the output, which were sent to the client.
    pub fn taken_out(&mut self, count: usize)
        requires { count ≤ length self.old.output }
        ensures { self.new ≡ record self.old { output = drop count self.old.output } }
    {
        self.sent = consume_front(&mut self.output, self.sent + count);
    }

    /// Returns how many bytes of memory are reserved for what is kept of the input, and for the output: no fewer than either has, as far as 64
    /// bits count.
    pub fn reserved(&self) -> usize
        ensures input { min self.now.reader.held (2 ^ 64 - 1) ≤ result }
        ensures output { length self.now.output ≤ result }
    {
        self.reader
            .reserved()
            .saturating_add(self.output.capacity())
    }

    /// Returns how many bytes more are reserved for the input once `more` further bytes have arrived.
    pub fn growth(&self, more: usize) -> usize {
        self.reader.growth(more)
    }

    /// Returns how many of `bytes` further bytes of the input can arrive so that at most `room` bytes more are reserved.
    #[inline(always)]
    pub fn readable(&self, bytes: usize, room: usize) -> usize
        ensures { result ≤ bytes }
    {
        self.reader.readable(bytes, room)
    }

    /// Frees the memory of each buffer that holds no byte, if more than `kept` bytes are reserved for it.
    pub fn shrink_if_idle(&mut self, kept: usize)
        ensures { self.new ≡ self.old }
    {
        self.reader.shrink_if_idle(kept);
        shrink_if_idle(&mut self.output, kept);
    }
}

/// Returns whether a turn asks [`ApartReader::peek`] at once: what is behind the leading spaces may begin a storage command, or nothing is
/// there. It reads the spaces 16 bytes at a time, so up to 15 bytes behind them. A wrong answer affects only the speed.
#[inline(always)]
fn is_peeked(text: &[u8]) -> bool {
    match without_spaces(text).split_first() {
        Some((b'm', rest)) => rest.first() == Some(&b's'),
        Some((letter, _)) => matches!(letter, b'a' | b'c' | b'p' | b'r' | b's'),
        None => true,
    }
}
