//! Why a client is held, and until when.
ghost use Rattle.std.specs.Prelude.{◌≡◌};
ghost use Rattle.mc_proxyd.specs.Holds.{held_after, holds};

use mc_stream::Pumped;

/// Why a client is held. A whole request of it has arrived, and waits for a mark: until the mark falls it is only sent its answers, so that no key of
/// the request is hashed at each event.
#[derive(Clone, Copy, Debug, Default, PartialEq, Eq)]
pub enum Held {
    /// It is not held.
    #[default]
    No,
    /// It has reached a mark of its own: of its unanswered requests, or of its unsent bytes. It is held until both are below their marks.
    ByOwn,
    /// A link that its request needs has reached its mark of unsent bytes. It is held until somebody releases it: a link fell below its mark, or was
    /// lost, or a server joined.
    ByLink,
}

impl Held {
    /// Returns whether the client is still held, given whether it has reached a mark of its own.
    pub fn holds(self, is_marked: bool) -> bool
        ensures { result ≡ holds self is_marked }
    {
        match self {
            Held::No => false,
            Held::ByOwn => is_marked,
            Held::ByLink => true,
        }
    }
}

/// Returns why a client is held after a pump, given whether a whole request has arrived and was not taken, and whether the client has reached a mark
/// of its own.
pub fn held_after(pumped: Pumped, is_ready: bool, is_marked: bool) -> Held
    ensures { result ≡ held_after pumped is_ready is_marked }
{
    match pumped {
        Pumped::Blocked if is_ready && is_marked => Held::ByOwn,
        Pumped::Blocked if is_ready => Held::ByLink,
        _ => Held::No,
    }
}
