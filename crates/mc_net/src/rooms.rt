//! How many clients the open files of a program allow.
ghost use Rattle.std.specs.Prelude.{◌≡◌, nat_le};

use mc_program::{Ticker, open_files, served};

/// The seconds between two lines that say that no more clients are accepted.
const LINE_EVERY: u64 = 60;

/// How many clients a program serves at a time, so that others have a descriptor left. Waiting clients must take neither that of a lost
/// server that comes back, nor that of an operator.
#[derive(Clone, Copy, Debug)]
pub struct Room {
    /// How many files and sockets the process may have open.
    files: u64,
    /// How many of these are left for clients.
    clients: u64,
    /// When the next line may say that these are used up.
    next_line: Ticker,
}

impl Room {
    /// Returns the room that the system allows now, beside `others` other files. If it does not say, it is taken to allow any number.
    pub fn new(others: u64) -> Room {
        let files = open_files().unwrap_or(u64::MAX);
        Room {
            files,
            clients: served(files, others),
            next_line: Ticker {
                every: LINE_EVERY,
                next: 0,
            },
        }
    }

    /// Returns whether this number of clients uses it up.
    pub fn is_full(&self, clients: usize) -> bool
        ensures { result ≡ nat_le self.now.clients clients }
    {
        clients as u64 >= self.clients
    }

    /// Prints on standard error, as the program of a name and at most once a minute, that it is used up.
    pub fn tell<R: Eprint>(&mut self, rt: &R, program: &str, second: u64) {
        if self.next_line.comes(second) {
            let (files, clients) = (self.files, self.clients);
            // Best effort: a failed write to standard error must not stop serving.
            let _ = eprintln!(rt; "{program}: no more clients: {files} open files allow {clients}");
        }
    }
}
