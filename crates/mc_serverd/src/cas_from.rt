//! The number from which on a server counts its items.
ghost use Rattle.std.specs.Prelude.{◌≡◌};
ghost use Rattle.mc_serverd.specs.CasFrom.{cas_from_named, last_number};

use mc_text::read_u64;
use std::fmt;
use std::fmt::{Display, Formatter};

/// The greatest number that may be named: clients that read a number of 63 bits and a sign can still read the next 2^63 ones.
const MOST_LAST: u64 = 9_223_372_036_854_775_807;

/// The last second since 1970 that has numbers of its own: in the year 2242.
const MOST_SECOND: u64 = 8_589_934_591;

/// The count of numbers for each second, if items are counted from the second in which a server starts: 2^30.
const NUMBERS_A_SECOND: u64 = 1_073_741_824;

/// The number above which a server counts its items, as its operator states it.
#[derive(Clone, Copy, Debug, PartialEq, Eq)]
pub enum CasFrom {
    /// Above this one: below 2^63.
    Last(u64),
    /// Above 2^30 for each second since 1970, as the server starts. A number that was read before then is that of no item that is stored
    /// after. This needs that the clock was not set back, and that no server stored more than 2^30 items a second since it started.
    Now,
}

/// Reads a word: `now`, or a number below 2^63. Any other word gives none.
pub fn cas_from_named(word: &str) -> Option<CasFrom>
    ensures { result ≡ cas_from_named word.now }
{
    if word == "now" {
        return Some(CasFrom::Now);
    }
    match read_u64(word.as_bytes()) {
        Some(last) if last <= MOST_LAST => Some(CasFrom::Last(last)),
        _ => None,
    }
}

/// Returns the number above which a server counts its items that starts in this second since 1970.
pub fn last_number(cas_from: CasFrom, second: u64) -> u64
    ensures { result ≡ last_number cas_from second }
{
    match cas_from {
        CasFrom::Last(last) => last,
        CasFrom::Now => second.min(MOST_SECOND) * NUMBERS_A_SECOND,
    }
}

impl Display for CasFrom {
    fn fmt<W: fmt::Write>(&self, f: &mut Formatter<W>) -> fmt::Result {
        match self {
            CasFrom::Last(last) => write!(f, "{last}"),
            CasFrom::Now => f.write_str("now"),
        }
    }
}
