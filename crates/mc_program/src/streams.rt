//! Standard input, standard output and standard error.

use std::fs::{File, Files};
use std::os::fd::{AsRawFd, IntoRawFd};

/// A program is started with the descriptors 0, 1 and 2: standard input, standard output and standard error.
const STREAMS: i32 = 3;

/// It reads as empty.
const NOTHING: &str = "/dev/null";

/// Opens `/dev/null` in the place of each of standard input, standard output and standard error that is closed, until the program ends.
/// Called before anything else is opened, it keeps files and connections from getting these numbers, since lines would go into them.
///
/// It is opened for reading alone: writes to it fail, as writes to a closed descriptor do. If the system does not open it, nothing
/// changes.
pub fn open_streams<R: Files<File = File>>(rt: &R) {
    for _ in 0..STREAMS {
        // The system gives the lowest number that is free.
        let Ok(nothing) = File::open(rt, NOTHING) else {
            return;
        };
        if nothing.as_raw_fd() >= STREAMS {
            return;
        }
        // It stays open: nobody closes the number.
        let _ = nothing.into_raw_fd();
    }
}
