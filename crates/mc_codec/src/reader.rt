//! The reader of replies.
ghost use Rattle.std.specs.Prelude.{◌≡◌, ◌≤◌, ◌*◌, ◌++◌, ◌↔◌, length, IfOk, IsTrue, OnOk, OnErr};
ghost use Rattle.mc_codec.specs.NextReply.{Gives, HasReply, fresh_reply_reader};

use crate::next_replies::NextReply;
use crate::replies::{owned, read_reply};
use mc_reply::ReplyError;
use mc_request::Head;
use mc_text::{Unready, consume_front, shrink_if_idle};
use std::alloc::Global;
use std::marker::Model;

/// The bytes that a server sent, from which its replies are read.
///
/// Until a reply is returned, each call of `next` and `has_next` reads its line from the start, but no further than a good line may
/// go. It also reads the two bytes behind its value. The value itself is read once, when it is copied.
#[derive(Drop)]
pub struct ReplyReader {
    buffer: Vec<u8>,
    /// How many bytes in front belong to returned replies.
    start: usize,
}

impl Model for ReplyReader {
    ghost use Rattle.std.specs.Prelude.{◌≤◌, ◌*◌, drop, vec_len};
    ghost use Rattle.mc_codec.specs.NextReply.{ReplyReaderState};

    ghost Value = { ReplyReaderState };

    ghost view = { λ r. record { unread = drop r.start r.buffer.items; held = vec_len r.buffer } };

    ghost invariant = { λ r. 2 * r.start ≤ vec_len r.buffer };
}

impl ReplyReader {
    /// Makes a reader to which no byte has arrived. It takes no memory.
    pub fn new(alloc: Global) -> ReplyReader
        ensures { result ≡ fresh_reply_reader }
    {
        ReplyReader {
            buffer: Vec::new(alloc),
            start: 0,
        }
    }

    /// Takes the bytes that arrived next, in pieces of any size. If there is no memory, no byte is taken.
    pub fn feed(&mut self, piece: &[u8]) -> Result<(), ReplyError>
        ensures fed { OnOk result (self.new.unread ≡ self.old.unread ++ piece.now) }
        ensures err { OnErr result (self.new ≡ self.old) }
    {
        self.buffer.extend_from_slice(piece)?;
        Ok(())
    }

    /// Returns what is next, for the command that it answers. A whole reply is removed, and its value is copied, once. Otherwise
    /// nothing changes, nor does it if there is no memory for the value.
    pub fn next(&mut self, alloc: Global, head: &Head) -> Result<NextReply, ReplyError>
        ensures given { IfOk result (λ next. Gives head.now self.old next self.new) }
        ensures cause { OnErr result (HasReply head.now self.old.unread) }
        ensures err { OnErr result (self.new ≡ self.old) }
    {
        let (_, unread) = self.buffer.split_at(self.start);
        match read_reply(head, unread) {
            Ok((reply, rest)) => {
                let taken = unread.len() - rest.len();
                let reply = owned(alloc, reply)?;
                self.start = consume_front(&mut self.buffer, self.start + taken);
                Ok(NextReply::Reply(reply))
            }
            Err(Unready::More(missing)) => Ok(NextReply::More(
                unread.len().saturating_add(missing),
            )),
            Err(Unready::Strange) => Ok(NextReply::Strange),
        }
    }

    /// Returns whether a whole reply is next, for the command that it answers. It takes no memory.
    pub fn has_next(&self, head: &Head) -> bool
        ensures { IsTrue result ↔ HasReply head.now self.now.unread }
    {
        let (_, unread) = self.buffer.split_at(self.start);
        read_reply(head, unread).is_ok()
    }

    /// Returns how many bytes have arrived that belong to no returned reply.
    pub fn unread(&self) -> usize
        ensures { result ≡ length self.now.unread }
    {
        self.buffer.len() - self.start
    }

    /// Returns how many bytes are kept: the unread ones, and those of returned replies that are not dropped yet, which are never more.
    pub fn held(&self) -> usize
        ensures held { result ≡ self.now.held }
        ensures little { result ≤ 2 * length self.now.unread }
    {
        self.buffer.len()
    }

    /// Frees the reserved memory, if no byte is kept and more than `kept` bytes are reserved. It is for a reader that will be idle for
    /// a while: the next feeds reserve anew.
    pub fn shrink_if_idle(&mut self, kept: usize)
        ensures { self.new ≡ self.old }
    {
        shrink_if_idle(&mut self.buffer, kept);
    }
}
