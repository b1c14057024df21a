//! Calls that are refused memory.
ghost use Rattle.std.specs.Prelude.{◌≡◌, None};
ghost use Rattle.mc_serverd.specs.Refusals.{added, goes_on, has_lasted, is_over, noted, since_of};

/// The most seconds between two refusals of one row.
pub const PAUSE: u64 = 2;

/// A row of refusals, between which no item was stored.
#[derive(Clone, Copy, Debug, PartialEq, Eq)]
pub struct Row {
    /// The second of the first refusal.
    pub since: u64,
    /// The second of the last refusal.
    pub last: u64,
    /// The number of items that had been stored.
    pub stores: u64,
}

impl Row {
    /// Returns whether a refusal in a second continues the row, with `stores` items stored so far.
    fn goes_on(self, second: u64, stores: u64) -> bool
        ensures { result ≡ goes_on self second stores }
    {
        self.stores == stores && second.saturating_sub(self.last) <= PAUSE
    }

    /// Returns whether the row has lasted `seconds` seconds, with `stores` items stored so far.
    fn has_lasted(self, seconds: u64, stores: u64) -> bool
        ensures { result ≡ has_lasted self seconds stores }
    {
        seconds > 0 && self.stores == stores && self.last.saturating_sub(self.since) >= seconds
    }
}

/// Returns the second in which the row of a refusal began, with `stores` items stored so far.
fn since_of(row: Option<Row>, second: u64, stores: u64) -> u64
    ensures { result ≡ since_of row second stores }
{
    match row {
        Some(row) if row.goes_on(second, stores) => row.since,
        _ => second,
    }
}

/// How often a server was refused memory, and for how long it closed clients for that, while none of its items was stored.
#[derive(Clone, Copy, Debug, PartialEq, Eq)]
pub struct Refusals {
    /// The number of refusals: it begins again at 0 after 2^64 - 1.
    pub count: u64,
    /// The row of the last refusal.
    pub row: Option<Row>,
}

impl Refusals {
    /// Makes a count of no refusal.
    pub fn new() -> Refusals
        ensures { result ≡ record { count = 0; row = None } }
    {
        Refusals {
            count: 0,
            row: None,
        }
    }

    /// Notes `count` refusals in a second whose clients were closed, with `stores` items stored so far. They continue a row if no item was
    /// stored since its last refusal, and that was at most [`PAUSE`] seconds before.
    pub fn note(&mut self, count: u64, second: u64, stores: u64)
        ensures { self.new ≡ noted self.old count second stores }
    {
        self.note_answered(count);
        self.row = Some(Row {
            since: since_of(self.row, second, stores),
            last: second,
            stores,
        });
    }

    /// Notes `count` refusals that were answered, whose clients keep their connections. They are counted, but belong to no row: a server that
    /// refuses new items alone is of use.
    pub fn note_answered(&mut self, count: u64)
        ensures { self.new ≡ record self.old { count = added self.old.count count } }
    {
        self.count = self.count.wrapping_add(count);
    }

    /// Returns whether calls were refused memory for `seconds` seconds while no item was stored, with `stores` items stored so far. With 0
    /// they never were.
    pub fn is_over(&self, seconds: u64, stores: u64) -> bool
        ensures { result ≡ is_over self.now.row seconds stores }
    {
        match self.row {
            Some(row) => row.has_lasted(seconds, stores),
            None => false,
        }
    }
}
