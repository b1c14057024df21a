//! What is done with a client after its pump.
ghost use Rattle.std.specs.Prelude.{◌≡◌};
ghost use Rattle.mc_net.specs.AfterPumps.{step_after};

use mc_stream::Pumped;

/// What is done with a client after its pump.
#[derive(Clone, Copy, Debug, PartialEq, Eq)]
pub enum AfterPump {
    /// It is served again in its turn, even without an event.
    GoOn,
    /// It waits until it has an event.
    Wait,
    /// It waits until it has an event, or may keep this number of bytes.
    Short(u64),
    /// It is closed.
    Close,
    /// It is closed as a stranger that speaks HTTP.
    TurnAway,
}

/// Returns what is done with a client whose pump ended so. It is closed if it is over or has failed, and only then.
pub fn step_after(pump: Pumped) -> AfterPump
    ensures { result ≡ step_after pump }
{
    match pump {
        Pumped::Again => AfterPump::GoOn,
        Pumped::Blocked => AfterPump::Wait,
        Pumped::Done | Pumped::Failed => AfterPump::Close,
    }
}
