//! What is done for the connection to a server at a moment.
ghost use Rattle.std.specs.Prelude.{◌≡◌};
ghost use Rattle.mc_proxyd.specs.Turns.{turn_by, until_late};

use crate::limits::{CONNECT_MILLIS, PROBE_MILLIS};
use crate::notices::Cause;

/// How far the connection to a server is.
#[derive(Clone, Copy, Debug, PartialEq, Eq)]
pub enum Stage {
    /// There is none, and none is tried.
    Down,
    /// A try waits for the look-up of its host.
    Asking,
    /// It was begun, and no event has said whether it is established.
    Connecting,
    /// It is established, and its server has not answered yet.
    Probing,
    /// Its server has answered.
    Up,
}

/// What is done for it.
#[derive(Clone, Copy, Debug, PartialEq, Eq)]
pub enum ConnectTurn {
    /// Nothing.
    Rest,
    /// A try is begun.
    Begin,
    /// The pending try goes on with what is known of the look-up.
    GoOn,
    /// The try has failed.
    GiveUp(Cause),
}

/// Returns what is done at the moment `now`. The last try was begun at `begun`, or its connection was established then, and the next may begin at
/// `next`: all in milliseconds.
pub fn turn_by(stage: Stage, begun: u64, next: u64, now: u64) -> ConnectTurn
    ensures { result ≡ turn_by stage begun next now }
{
    match stage {
        Stage::Down if now >= next => ConnectTurn::Begin,
        Stage::Down | Stage::Up => ConnectTurn::Rest,
        Stage::Asking => until_late(CONNECT_MILLIS, begun, now, Cause::LookUp, ConnectTurn::GoOn),
        Stage::Connecting => until_late(
            CONNECT_MILLIS,
            begun,
            now,
            Cause::TimedOut,
            ConnectTurn::Rest,
        ),
        Stage::Probing => until_late(PROBE_MILLIS, begun, now, Cause::NoAnswer, ConnectTurn::Rest),
    }
}

/// Returns that a try is given up for a cause if it has taken `span` milliseconds, and else another turn.
fn until_late(span: u64, begun: u64, now: u64, cause: Cause, turn: ConnectTurn) -> ConnectTurn
    ensures { result ≡ until_late span begun now cause turn }
{
    if now >= begun.saturating_add(span) {
        ConnectTurn::GiveUp(cause)
    } else {
        turn
    }
}
