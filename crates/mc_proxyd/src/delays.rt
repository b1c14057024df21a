//! When a server is tried again after a failure.
ghost use Rattle.std.specs.Prelude.{◌≡◌, ◌≤◌, ◌+◌, ◌*◌, ◌%◌};
ghost use Rattle.mc_proxyd.specs.Delays.{least_delay, silences_after};

use crate::limits::{FIRST_DELAY, LONGEST_DELAY};

/// Returns the milliseconds until a server is tried again after this number of failures in a row. They are 100 to 200 after the
/// first, and twice as many after each further one, up to 4,000 to 8,000. A random number chooses within these bounds, so that
/// proxies that lost a server together do not come back together.
pub fn delay_after(failures: u32, random: u64) -> u64
    ensures least { least_delay failures ≤ result }
    ensures most { result ≤ 2 * least_delay failures }
    ensures spread { result ≡ least_delay failures + random % (least_delay failures + 1) }
{
    let least = least_delay(failures);
    least + random % (least + 1)
}

/// Returns the fewest milliseconds until a server is tried again after this number of failures in a row.
fn least_delay(failures: u32) -> u64
    ensures least { result ≡ least_delay failures }
    ensures few { result ≤ LONGEST_DELAY }
{
    let times = 2u64.saturating_pow(failures.saturating_sub(1));
    FIRST_DELAY.saturating_mul(times).min(LONGEST_DELAY)
}

/// Returns how many links of a server in a row were lost while it answered none of their commands, after one more link was lost with this number of
/// pending commands. A link that got a reply, or had no command, changes nothing.
pub fn silences_after(silences: u32, answered: bool, pending: usize) -> u32
    ensures { result ≡ silences_after silences answered pending }
{
    if answered || pending == 0 {
        silences
    } else {
        silences.saturating_add(1)
    }
}
