//! Whether an operator reads standard error.
ghost use Rattle.std.specs.Prelude.{◌≡◌, true};

use libc::{STDERR_FILENO, isatty};
use std::env;
use std::rt::Env;

/// The variable that systemd sets for a program whose standard output or standard error is the journal.
const JOURNAL: &str = "JOURNAL_STREAM";

/// Returns whether an operator reads standard error: the words ask for it, it is a terminal, or the program was started for the
/// journal (`JOURNAL_STREAM` is set).
pub fn is_read<R: Env + AllocGlobal>(rt: &R, is_asked: bool) -> bool
    ensures { is_asked ≡ true → result ≡ true }
{
    is_asked || isatty(STDERR_FILENO) == 1 || env::var(rt, JOURNAL).is_ok()
}
