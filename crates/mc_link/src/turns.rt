//! What a link returns, and why a call of it fails.
ghost use Rattle.std.specs.Prelude.{◌≡◌};
ghost use Rattle.mc_link.specs.declared.turns.LinkError.TheVariants.{Memory};

use mc_reply::Reply;
use mc_request::Head;
use mc_text::Block;
use std::alloc::AllocError;
use thiserror::Error;

/// Whose command it is: a proxy gives the tag along with a command, and gets it back with the reply.
#[derive(Clone, Copy, Debug, PartialEq, Eq)]
pub struct Tag {
    /// The number of the client's session.
    pub session: u64,
    /// Which of its requests, in order.
    pub request: u64,
    /// Which command of the request, from 0.
    pub atom: usize,
}

/// What a turn of a link did.
#[derive(Debug, Drop)]
pub enum LinkTurn {
    /// A reply was taken, to the oldest pending command, whose tag this is.
    Took(Tag, Reply<Block>),
    /// No reply can be taken until more bytes arrive: no command is pending and no byte unread, or the unread bytes are the
    /// beginning of a reply.
    Idle,
    /// A protocol violation: bytes have arrived that are no reply to the oldest pending command. They are as they were; a
    /// caller that wants to read on must lose the link.
    Strange,
}

/// What a lost link leaves.
#[derive(Drop)]
pub struct LostLink {
    /// The output that was not consumed.
    pub bytes: Vec<u8>,
    /// The pending commands, oldest first.
    pub waiting: Vec<(Head, Tag)>,
}

/// Why a call of a link failed. Nothing has changed. If both causes hold, the least number is returned.
#[derive(Debug, Drop, Error)]
pub enum LinkError {
    /// 1: the link is down, or for [`crate::Link::back`] it is up, or no generation is left.
    #[error("link is in the wrong state")]
    State,
    /// 2: no memory.
    #[error("out of memory")]
    Memory,
}

impl<E: Into<AllocError> + Drop> From<E> for LinkError {
    ghost from_gives = { λ _ e. e ≡ Memory };

    fn from(_e: E) -> LinkError {
        LinkError::Memory
    }
}
