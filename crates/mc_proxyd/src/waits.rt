//! How long a link's commands have waited, and what became of them.
ghost use Rattle.std.specs.Prelude.{◌≡◌, ◌+◌, ◌-◌, ◌^◌, None, min};
ghost use Rattle.mc_program.specs.Tickers.{earlier};
ghost use Rattle.mc_proxyd.specs.Waits.{aged, begun_at, late_at, late_by, oldest_after, sample_after};

use crate::limits::{REPLY_RATE, SAMPLE_TIMEOUTS};
use mc_program::earlier;

/// How long a command has waited for its reply, and how much has arrived meanwhile.
#[derive(Clone, Copy, Debug)]
pub struct Age {
    /// Since when it is measured, in milliseconds.
    since: u64,
    /// How many bytes have arrived since.
    bytes: u64,
}

impl Age {
    /// Makes the age of a command that is measured from a moment on.
    fn begun_at(now: u64) -> Age
        ensures { result ≡ begun_at now }
    {
        Age {
            since: now,
            bytes: 0,
        }
    }

    /// Returns it after this number of bytes has arrived.
    fn after(self, came: u64) -> Age
        ensures { result ≡ aged came self }
    {
        Age {
            since: self.since,
            bytes: self.bytes.saturating_add(came),
        }
    }

    /// Returns when the command is late: `span` milliseconds after it began, and one more for each [`REPLY_RATE`] bytes.
    fn late_by(self, span: u64) -> u64
        ensures { result ≡ late_by span self }
    {
        let latest = self.since.saturating_add(span);
        latest.saturating_add(self.bytes / REPLY_RATE)
    }
}

/// A pending command of which it is known when it was the newest.
#[derive(Clone, Copy, Debug)]
pub struct Sample {
    /// How many commands are pending up to it: it and those before it.
    left: usize,
    /// Its age since it was the newest.
    age: Age,
}

/// How long a link's commands have waited, and what became of them.
#[derive(Clone, Copy, Debug)]
pub struct Waits {
    /// How many commands got their replies.
    answered: u64,
    /// How many commands were lost while they waited.
    lost: u64,
    /// The age of the oldest pending command since it is the oldest; none if no command is pending.
    oldest: Option<Age>,
    /// One pending command; none if no command is pending.
    sample: Option<Sample>,
}

impl Waits {
    /// Makes the state of a link that has sent no command.
    pub fn new() -> Waits
        ensures { result ≡ record { answered = 0; lost = 0; oldest = None; sample = None } }
    {
        Waits {
            answered: 0,
            lost: 0,
            oldest: None,
            sample: None,
        }
    }

    /// Returns how many commands were lost while they waited.
    pub fn lost(&self) -> u64
        ensures { result ≡ self.now.lost }
    {
        self.lost
    }

    /// Returns how many commands were sent on the link, `waiting` of which are pending.
    pub fn sent(&self, waiting: usize) -> u64 {
        let done = self.answered.saturating_add(self.lost);
        done.saturating_add(waiting as u64)
    }

    /// Records that `count` commands got their replies.
    pub fn answer(&mut self, count: usize)
        ensures { self.new ≡ record self.old { answered = min (self.old.answered + count) (2 ^ 64 - 1) } }
    {
        self.answered = self.answered.saturating_add(count as u64);
    }

    /// Records that `count` commands were lost, and that none is pending any more.
    pub fn lose(&mut self, count: usize)
        ensures { self.new ≡ record self.old {
          lost = min (self.old.lost + count) (2 ^ 64 - 1);
          oldest = None;
          sample = None;
        } }
    {
        self.lost = self.lost.saturating_add(count as u64);
        self.oldest = None;
        self.sample = None;
    }

    /// Records at a moment how many replies were taken since the last record, how many commands are pending, and how many bytes have
    /// arrived, and were sent. The server answers in order: a reply is the oldest command's, and so are the bytes of a part of one. Commands
    /// may have many bytes to be sent before the sampled one: those add to its time.
    pub fn note(&mut self, replies: usize, waiting: usize, came: u64, sent: u64, now: u64)
        ensures { self.new ≡ record self.old {
          oldest = oldest_after replies waiting came now self.old.oldest;
          sample = sample_after replies waiting (min (came + sent) (2 ^ 64 - 1)) now self.old.sample;
        } }
    {
        let moved = came.saturating_add(sent);
        self.oldest = oldest_after(self.oldest, replies, waiting, came, now);
        self.sample = sample_after(self.sample, replies, waiting, moved, now);
    }

    /// Returns when the link is late, by its timeout in milliseconds: as soon as its oldest pending command is, or the sampled one. With a
    /// timeout of 0, or if no command is pending, it is never late.
    pub fn late(&self, timeout: u64) -> Option<u64>
        ensures { result ≡ late_at timeout self.now.oldest self.now.sample }
    {
        if timeout == 0 {
            return None;
        }
        let span = timeout.saturating_mul(SAMPLE_TIMEOUTS);
        let oldest = self.oldest.map(|age| age.late_by(timeout));
        let sample = self.sample.map(|sample| sample.age.late_by(span));
        earlier(oldest, sample)
    }
}

/// Returns the age of the oldest pending command. It is measured anew once the reply before it is taken.
fn oldest_after(
    oldest: Option<Age>,
    replies: usize,
    waiting: usize,
    came: u64,
    now: u64,
) -> Option<Age>
    ensures { result ≡ oldest_after replies waiting came now oldest }
{
    match oldest {
        _ if waiting == 0 => None,
        Some(age) if replies == 0 => Some(age.after(came)),
        _ => Some(Age::begun_at(now)),
    }
}

/// Returns the sampled command. Once it has its reply, the next one is the newest command.
fn sample_after(
    sample: Option<Sample>,
    replies: usize,
    waiting: usize,
    moved: u64,
    now: u64,
) -> Option<Sample>
    ensures { result ≡ sample_after replies waiting moved now sample }
{
    match sample {
        _ if waiting == 0 => None,
        Some(sample) if replies < sample.left => Some(Sample {
            left: sample.left - replies,
            age: sample.age.after(moved),
        }),
        _ => Some(Sample {
            left: waiting,
            age: Age::begun_at(now),
        }),
    }
}
