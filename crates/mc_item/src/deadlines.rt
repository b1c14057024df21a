//! Deadlines: when an item expires.
ghost use Rattle.std.specs.Prelude.{◌≡◌, ◌<◌, ◌^◌};
ghost use Rattle.mc_item.specs.Deadlines.{never, due_at, deadline_of, is_dead, left_of};

/// The greatest exptime that counts from the moment of its command: 30 days, in seconds.
pub const RELATIVE_LIMIT: i64 = 2_592_000;

/// The moment of a deadline that is never reached. No exptime gives it.
pub const NEVER: u64 = u64::MAX;

/// When an item expires: at a moment, or never. It takes 8 bytes.
#[derive(Clone, Copy, Debug, PartialEq, Eq)]
pub struct Deadline {
    /// The moment, in seconds since 1970, or [`NEVER`].
    pub moment: u64,
}

impl Deadline {
    /// Returns the deadline that is never reached.
    pub fn never() -> Deadline
        ensures { result ≡ never }
    {
        Deadline { moment: NEVER }
    }

    /// Returns the deadline of an exptime at a moment, in seconds since 1970. 0 is never, below 0 is at once,
    /// up to [`RELATIVE_LIMIT`] is that many seconds from the moment on, and more is a moment by itself.
    pub fn of(exptime: i64, moment: u64) -> Deadline
        requires { moment < 2 ^ 63 }
        ensures { result ≡ deadline_of exptime moment }
    {
        let moment = match exptime {
            0 => NEVER,
            ..0 => 0,
            1..=RELATIVE_LIMIT => moment + exptime as u64,
            _ => exptime as u64,
        };
        Deadline { moment }
    }

    /// Returns the moment from which on the item is expired, in seconds since 1970, if there is one.
    pub fn due(self) -> Option<u64>
        ensures { result ≡ due_at self }
    {
        if self.moment == NEVER {
            return None;
        }
        Some(self.moment)
    }

    /// Returns whether the item is expired at a moment.
    pub fn is_dead(self, moment: u64) -> bool
        ensures { result ≡ is_dead self moment }
    {
        self.moment != NEVER && moment >= self.moment
    }

    /// Returns the seconds that are left at a moment: 0 if the item is expired, `None` if it never expires.
    pub fn left(self, moment: u64) -> Option<u64>
        ensures { result ≡ left_of self moment }
    {
        let due = self.due()?;
        Some(due.saturating_sub(moment))
    }
}
