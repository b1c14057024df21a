//! The reply at the front of the bytes.
ghost use Rattle.std.specs.Prelude.{◌≡◌, IfOk};
ghost use Rattle.mc_text.specs.FormsSeen.{seen_by};
ghost use Rattle.mc_reply.specs.Seen.{bytes_seen};
ghost use Rattle.mc_codec.specs.MetaForms.{form_of, read_if};

use crate::classic::{get_reply, update_reply};
use crate::lines::Reading;
use crate::meta::meta_reply;
use mc_reply::{Reply, ReplyError};
use mc_request::{Atom, Head};
use mc_text::Block;
use std::alloc::Global;

/// Reads the reply to a command, by its head, at the front of the bytes. Nothing is copied.
pub fn read_reply<'a>(head: &Head, unread: &'a [u8]) -> Reading<'a>
    ensures { seen_by (λ x. (bytes_seen x.0, x.1.now)) result ≡ read_if (form_of head.now) unread.now }
{
    match head {
        Atom::Get { key, with_cas, .. } => get_reply(key.as_bytes(), *with_cas, unread),
        Atom::Update(update) => update_reply(update, unread),
        Atom::Meta(command) => meta_reply(command, unread),
    }
}

/// Returns a reply with a copy of its value.
pub fn owned(alloc: Global, reply: Reply<&[u8]>) -> Result<Reply<Block>, ReplyError>
    ensures { IfOk result (λ copy. copy ≡ bytes_seen reply.entry) }
{
    Ok(match reply {
        Reply::Stored => Reply::Stored,
        Reply::NotStored => Reply::NotStored,
        Reply::Exists => Reply::Exists,
        Reply::NotFound => Reply::NotFound,
        Reply::Deleted => Reply::Deleted,
        Reply::Touched => Reply::Touched,
        Reply::Flushed => Reply::Flushed,
        Reply::Number(number) => Reply::Number(number),
        Reply::Miss => Reply::Miss,
        Reply::Hit { flags, cas, value } => Reply::Hit {
            flags,
            cas,
            value: Block::from_slice(alloc, value)?,
        },
        Reply::Meta { shown, value: None } => Reply::Meta { shown, value: None },
        Reply::Meta {
            shown,
            value: Some(value),
        } => Reply::Meta {
            shown,
            value: Some(Block::from_slice(alloc, value)?),
        },
        Reply::Fault(fault) => Reply::Fault(fault),
    })
}
