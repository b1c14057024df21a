//! What a reader of replies returns.

use mc_reply::Reply;
use mc_text::Block;

/// What the bytes that have arrived are to the command that they answer.
#[derive(Debug, Drop)]
pub enum NextReply {
    /// A whole reply.
    Reply(Reply<Block>),
    /// The beginning of a reply. Whatever arrives, it is no more than that until this number of bytes is unread in all. A
    /// caller that asks again only then has each byte of a value looked at once, however small the pieces are.
    More(usize),
    /// A protocol violation: no reply that the command can have is spelled so, whatever arrives.
    Strange,
}
