//! The outcome of a command.

use mc_reply::Reply;
use mc_text::Block;

/// The outcome of a command that was sent to its server, or could not be.
#[derive(Debug, Drop)]
pub enum Outcome {
    /// Its reply is pending. An answer made meanwhile counts the command as lost.
    Awaited,
    /// Its reply has arrived.
    Reply(Reply<Block>),
    /// The link to its server was down, or was lost before the reply arrived.
    Lost,
}
