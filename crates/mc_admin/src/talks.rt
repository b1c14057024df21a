//! A connection of an operator, without its socket.
ghost use Rattle.std.specs.Prelude.{◌≤◌, length, vec_len, vec_capacity};

use crate::admin_requests::AdminRequest;
use crate::answers::{answer_to, ends, is_listed_on};
use crate::errors::AdminError;
use crate::figures::Sheet;
use crate::hosts::Hosts;
use crate::inboxes::{Inbox, REQUEST_LIMIT};
use crate::lines::asked_of;
use std::alloc::Global;
use std::marker::Model;

/// A connection of an operator, without its socket: a request while it arrives, at most [`REQUEST_LIMIT`] bytes that were read and
/// are not taken, and one answer. Contracts see these, and whether the connection must be closed once the answer is sent.
#[derive(Drop)]
pub struct Talk {
    alloc: Global,
    inbox: Inbox,
    /// The last bytes that were read, some of which are taken.
    piece: Vec<u8>,
    taken: usize,
    /// The answer, some bytes of which are sent.
    answer: Vec<u8>,
    sent: usize,
    closing: bool,
    ghost within: { taken ≤ vec_len piece },
    ghost sent_within: { sent ≤ vec_len answer },
}

impl Model for Talk {
    ghost use Rattle.std.specs.Prelude.{drop};
    ghost use Rattle.mc_admin.specs.Talks.{TalkState};

    ghost Value = { TalkState };

    ghost view = { λ t. record {
      inbox = t.inbox;
      unread = drop t.taken t.piece.items;
      output = drop t.sent t.answer.items;
      closing = t.closing;
    } };
}

impl Talk {
    ghost use Rattle.std.specs.Prelude.{◌≡◌, ◌==◌, [], drop, true, IfOk, OnOk, OnErr, length};
    ghost use Rattle.mc_admin.specs.Talks.{TalkState, fresh_talk, Turns};

    /// Makes a connection to which no byte has arrived, with room for a request.
    pub fn new(alloc: Global) -> Result<Talk, AdminError>
        ensures { IfOk result (λ talk. talk ≡ fresh_talk) }
    {
        Ok(Talk {
            alloc,
            inbox: Inbox::new(alloc)?,
            piece: Vec::with_capacity(alloc, REQUEST_LIMIT)?,
            taken: 0,
            answer: Vec::new(alloc),
            sent: 0,
            closing: false,
        })
    }

    /// Returns whether all that was read is taken: only then more is read.
    pub fn is_read(&self) -> bool
        ensures { result ≡ (length self.now.unread == 0) }
    {
        self.taken == self.piece.len()
    }

    /// Returns the unsent output.
    pub fn output(&self) -> &[u8]
        ensures { result.now ≡ self.now.output }
    {
        let (_, output) = self.answer.as_slice().split_at(self.sent);
        output
    }

    /// Returns whether the connection must be closed once its answer is sent.
    pub fn is_closing(&self) -> bool
        ensures { result ≡ self.now.closing }
    {
        self.closing
    }

    /// Takes the bytes that were read, once all before them are taken. At an error nothing has changed.
    pub fn feed(&mut self, piece: &[u8]) -> Result<(), AdminError>
        requires { self.old.unread ≡ [] }
        ensures fed { OnOk result (self.new ≡ record self.old { unread = piece.now }) }
        ensures err { OnErr result (self.new ≡ self.old) }
    {
        self.piece.clear();
        self.taken = 0;
        self.piece.extend_from_slice(piece)?;
        Ok(())
    }

    /// Goes on with what was read, until a request is answered, and returns what that asked for, if one was. The answer before must
    /// be sent.
    pub fn turn(
        &mut self,
        hosts: &Hosts<'_>,
        sheet: &Sheet<'_>,
    ) -> Result<Option<AdminRequest>, AdminError>
        requires { self.old.output ≡ [] }
        ensures { IfOk result (λ asked. Turns hosts.now sheet.now asked self.old self.new) }
    {
        let (_, unread) = self.piece.as_slice().split_at(self.taken);
        let taken = self.inbox.take(unread);
        self.taken += taken;
        let Some(asked) = asked_of(&self.inbox, hosts) else {
            return Ok(None);
        };
        self.answer = answer_to(self.alloc, asked, sheet)?;
        self.sent = 0;
        self.closing = ends(asked);
        if !is_listed_on(asked, sheet) {
            self.inbox.clear();
        }
        Ok(Some(asked))
    }

    /// Records that `count` bytes of the output were sent.
    pub fn note_sent(&mut self, count: usize)
        requires { count ≤ length self.old.output }
        ensures { self.new ≡ record self.old { output = drop count self.old.output } }
    {
        self.sent += count;
    }
}
