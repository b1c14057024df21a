//! What the system says of the process.

use std::fs::{File, Files};
use std::io::Read;
use std::rt::Clock;
use std::time::{SystemTime, UNIX_EPOCH};

/// The file in which the system says how many pages of memory this process has, in words: the second is how many of them
/// are in memory.
const PAGES: &str = "/proc/self/statm";

/// The most bytes that are read of it.
const PAGES_LEN: usize = 256;

/// Returns the number of the process.
pub fn process_number() -> u64 {
    u64::from(libc::getpid().unsigned_abs())
}

/// Returns the wall clock: whole seconds since 1970; 0 if it is before 1970, or cannot be read.
pub fn wall_clock<R: Clock>(rt: &R) -> u64 {
    let since = SystemTime::now(rt)
        .ok()
        .and_then(|time| time.duration_since(UNIX_EPOCH).ok());
    since.map_or(0, |since| since.as_secs())
}

/// Returns the memory that the process takes now, in bytes; none if the system does not say.
pub fn resident_memory<R: Files>(rt: &R) -> Option<u64> {
    let mut text = [0; PAGES_LEN];
    let mut file = File::open(rt, PAGES).ok()?;
    let count = file.read(&mut text).ok()?;
    let (said, _) = text.split_at(count);
    let pages = str::from_utf8(said).ok()?.split(' ').nth(1)?;
    let page = u64::try_from(libc::sysconf(libc::_SC_PAGESIZE)).ok()?;
    pages.parse::<u64>().ok()?.checked_mul(page)
}
