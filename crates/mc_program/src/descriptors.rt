//! How many files and sockets may be open.
ghost use Rattle.std.specs.Prelude.{◌≡◌, ◌-◌};

use libc::types::rlimit;
use libc::{RLIMIT_NOFILE, getrlimit};

/// How many files a program that serves has open beside its connections: its three streams, its poll and its listener.
pub const OWN_FILES: u64 = 5;

/// Returns how many files and sockets this process may have open at a time; none if the system does not say.
pub fn open_files() -> Option<u64> {
    let mut limit = rlimit {
        rlim_cur: 0,
        rlim_max: 0,
    };
    if getrlimit(RLIMIT_NOFILE, &mut limit) < 0 {
        return None;
    }
    Some(limit.rlim_cur)
}

/// Prints on standard error, as the program of a name, how many connections can be served at a time beside `others` other files. It
/// does so if the system allows no more open files than `most` connections may need.
pub fn tell_open_files<R: Eprint>(rt: &R, program: &str, others: u64, most: usize) {
    if let Some(files) = open_files() {
        let connections = served(files, others);
        if connections <= most as u64 {
            // Best effort: a failed write to standard error must not stop serving.
            let _ = eprintln!(rt;
                "{program}: {files} open files: {connections} connections can be served at a time"
            );
        }
    }
}

/// Returns how many connections can be served at a time if `open_files` files may be open, and `others` are open beside them.
pub fn served(open_files: u64, others: u64) -> u64
    ensures { result ≡ open_files - others }
{
    open_files.saturating_sub(others)
}
