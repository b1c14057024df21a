//! The limits and the counts of connections while they are pumped.
ghost use Rattle.std.specs.Prelude.{◌≡◌, ◌≤◌, ◌+◌, ◌-◌, ◌/◌, ◌%◌, ◌^◌, length, false, None, Some, IfErr, IfOk};
ghost use Rattle.mc_pump.specs.Counts.{counted_by, refusal_in};
ghost use Rattle.mc_pump.specs.Wants.{answer_limit, refused_by, watch_refusing};

use crate::limits::SMALL_ANSWER;
use crate::rounds::Stop;
use mc_request::Fault;
use mc_server::{AnswerLimit, WORK_BYTES};
use mc_stream::{IoStats, Pumped};

/// What a pump stopped for: it wants room for more bytes than the connection may keep.
#[derive(Clone, Copy, Debug, PartialEq, Eq)]
pub enum Want {
    /// The next answer may have this number of bytes.
    Answer(usize),
    /// A read asks for this number of bytes.
    Read(usize),
}

/// The limits and the counts of connections while they are pumped.
#[derive(Clone, Copy, Debug, PartialEq, Eq)]
pub struct Watch {
    /// The most bytes that an answer may have: a request whose answer may have more fails the pump, and is not taken.
    pub limit: AnswerLimit,
    /// The most bytes that the connection may keep ([`Server::reserved`](mc_server::Server::reserved)); [`u64::MAX`] for any number. A caller sets
    /// this before each pump.
    pub most: u64,
    /// What the pump stopped for, if it needs more room to go on. Each pump sets this.
    pub want: Option<Want>,
    /// The requests and bytes that passed.
    pub tally: IoStats,
    /// Whether a request was refused, since its answer might have more. No pump resets it.
    pub refused: bool,
    /// Whether a connection sent a line of an HTTP request ([`Server::is_foreign`](mc_server::Server::is_foreign)). It fails the pump, and is
    /// not taken. No pump resets this.
    pub foreign: bool,
    /// The number of requests whose answer says that there is no memory to store something. It begins again at 0 after 2^64 - 1.
    pub no_memory: u64,
    /// The units of work that are left to the pump. Each pump sets this to [`QUANTUM`](crate::QUANTUM) at its start.
    pub left: u64,
}

impl Watch {
    /// Makes a watch that has counted nothing. A connection may keep any number of bytes.
    pub fn new(limit: AnswerLimit) -> Watch
        ensures limit { result.limit ≡ limit }
        ensures most { result.most ≡ 2 ^ 64 - 1 }
        ensures no_memory { result.no_memory ≡ 0 }
    {
        Watch {
            limit,
            most: u64::MAX,
            want: None,
            tally: IoStats::new(),
            refused: false,
            foreign: false,
            no_memory: 0,
            left: 0,
        }
    }

    /// Returns the limit of the next answer of a connection, of which `unsent` bytes are unsent and `reserved` reserved.
    #[inline(always)]
    pub(crate) fn limit_beside(&self, unsent: usize, reserved: usize) -> AnswerLimit
        ensures { result ≡ record { bytes = answer_limit self.now.limit.bytes self.now.most unsent reserved } }
    {
        let little = SMALL_ANSWER.saturating_sub(unsent) as u64;
        let room = self.most.saturating_sub(reserved as u64).max(little);
        AnswerLimit {
            bytes: self.limit.bytes.min(room as usize),
        }
    }

    /// Notes an answer that was refused, since it may have `bound` bytes. It fails the pump for good if that is above the limit of an answer;
    /// otherwise the pump stops until there is room.
    pub(crate) fn refuse(&mut self, bound: usize) -> Result<Option<Stop>, Pumped>
        ensures stop { result ≡ refused_by self.old.limit.bytes bound }
        ensures stops { IfOk result (λ stopped. stopped ≡ Some Stop.Spent) }
        ensures fails { IfErr result (λ pump. pump ≡ Pumped.Failed) }
        ensures noted { self.new ≡ watch_refusing bound self.old }
        ensures counted { counted_by self.new ≡ counted_by self.old }
    {
        if bound > self.limit.bytes {
            self.refused = true;
            return Err(Pumped::Failed);
        }
        self.want = Some(Want::Answer(bound));
        Ok(Some(Stop::Spent))
    }

    /// Returns how many bytes more a connection with `reserved` reserved bytes may keep.
    #[inline(always)]
    pub(crate) fn room_beside(&self, reserved: usize) -> usize
        ensures { result ≡ self.now.most - reserved }
    {
        self.most.saturating_sub(reserved as u64) as usize
    }

    /// Notes that the pump stops since there is no room for a read of `bytes` bytes.
    pub(crate) fn lacks(&mut self, bytes: usize)
        ensures wants { self.new ≡ record self.old { want = Some (Want.Read bytes) } }
        ensures counted { counted_by self.new ≡ counted_by self.old }
    {
        self.want = Some(Want::Read(bytes));
    }

    /// Counts a request that was taken, by its work and its whole answer.
    pub(crate) fn took(&mut self, work: u64, answer: &[u8])
        ensures no_memory { self.new.no_memory ≡ (self.old.no_memory + refusal_in answer.now) % 2 ^ 64 }
        ensures left { self.new.left ≡ self.old.left - (work + length answer.now / WORK_BYTES) }
        ensures most { self.new.most ≡ self.old.most }
    {
        self.tally.took();
        self.no_memory = self.no_memory.wrapping_add(refusal_in(answer));
        self.left = left_by(self.left, work, (answer.len() / WORK_BYTES) as u64);
    }

    /// Counts a request that was taken, whose answer shows an item: `unsent` bytes were unsent before it, `count` bytes were written, and `kept`
    /// bytes are unsent now.
    pub(crate) fn showed(&mut self, work: u64, unsent: usize, count: usize, kept: usize)
        ensures no_memory { self.new.no_memory ≡ self.old.no_memory }
        ensures left { self.new.left ≡ self.old.left - (work + (count + kept - unsent) / WORK_BYTES) }
        ensures most { self.new.most ≡ self.old.most }
    {
        self.tally.took();
        self.tally.went(count);
        self.left = left_by(self.left, work, shown_units(unsent, count, kept));
    }
}

/// Returns what is left of work, once `work` units and `more` units of it are spent.
fn left_by(left: u64, work: u64, more: u64) -> u64
    ensures { result ≡ left - (work + more) }
{
    left.saturating_sub(work).saturating_sub(more)
}

/// Returns the units of work of an answer of which `count` bytes were written: before it `unsent` bytes were unsent, and now `kept` bytes are.
fn shown_units(unsent: usize, count: usize, kept: usize) -> u64
    ensures { result ≡ (count + kept - unsent) / WORK_BYTES }
{
    let bytes = (count as u128 + kept as u128).saturating_sub(unsent as u128);
    (bytes / WORK_BYTES as u128) as u64
}

/// Returns how many stores an answer refuses for lack of memory: one, or none.
fn refusal_in(answer: &[u8]) -> u64
    ensures { result ≡ refusal_in answer.now }
{
    if answer == Fault::OutOfMemory.line() {
        1
    } else {
        0
    }
}
