//! A link.
ghost use Rattle.std.specs.Prelude.{◌≡◌, ◌+◌, ◌-◌, ◌^◌, ◌<◌, ◌≤◌, ◌++◌, ◌↔◌, ◌⊎◌, ◌∷◌, [], ℕ, true, false, length, drop, slice_get, option_map, IfOk, IsOk, IsOkUnless, IsErrOf, IsTrue, OnOk, OnErr};
ghost use Rattle.std.specs.Bool.{OnFalse};

use crate::turns::{LinkError, LinkTurn, LostLink, Tag};
use mc_codec::{LentStore, NextReply, ReplyReader, write_atom, write_store};
use mc_request::{Atom, Head, Update};
use mc_text::{Block, consume_front, drain_front, shrink_if_idle};
use std::alloc::Global;
use std::collections::VecDeque;
use std::marker::Model;
use std::mem;

/// A link to a server. It is up or down; while it is down it keeps nothing but its generation.
#[derive(Drop)]
pub struct Link {
    up: bool,
    generation: u64,
    output: Vec<u8>,
    /// How many bytes of the output were consumed.
    sent: usize,
    /// The pending commands, oldest first.
    waiting: VecDeque<(Head, Tag)>,
    reader: ReplyReader,
    /// With fewer unread bytes than this, the reply to the oldest pending command has only begun. 0 if nothing is known.
    wanted: usize,
}

impl Model for Link {
    ghost use Rattle.mc_link.specs.LinkState.{RoomyLink};

    ghost Value = { RoomyLink };

    ghost use Rattle.mc_link.specs.LinkFields.{link_of, IsLink};

    ghost view = { link_of };

    ghost invariant = { IsLink };
}

impl Link {
    ghost use Rattle.mc_request.specs.Atoms.{head_of};
    ghost use Rattle.mc_codec.specs.LentStores.{atom_of};
    ghost use Rattle.mc_codec.specs.Spellings.{spelling_of_atom};
    ghost use Rattle.mc_link.specs.LinkState.{LinkState, KeepsRoom, down_link, up_link, sent, can_come_back};
    ghost use Rattle.mc_link.specs.Turns.{HasReply, IsLinkTurn};

    /// Makes a link that is down and has never been up: its generation is 0. It takes no memory.
    pub fn new(alloc: Global) -> Link
        ensures { result.state ≡ down_link 0 }
    {
        Link {
            up: false,
            generation: 0,
            output: Vec::new(alloc),
            sent: 0,
            waiting: VecDeque::new(alloc),
            reader: ReplyReader::new(alloc),
            wanted: 0,
        }
    }

    /// Returns whether the link is up. A link that is down has no output, no pending command and no unread byte.
    pub fn is_up(&self) -> bool
        ensures up { result ≡ self.now.state.up }
        ensures down { OnFalse result (self.now.state ≡ down_link self.now.state.generation) }
    {
        self.up
    }

    /// Refuses a call that only a link that is up can do.
    fn needs_up(&self) -> Result<(), LinkError>
        ensures state { IsErrOf result LinkError.State ↔ (self.now.state.up ≡ false) }
        ensures up { OnOk result (self.now.state.up ≡ true) }
        ensures only_state { IsOkUnless result LinkError.State }
    {
        if self.up {
            Ok(())
        } else {
            Err(LinkError::State)
        }
    }

    /// Returns how often the link has come up.
    pub fn generation(&self) -> u64
        ensures { result ≡ self.now.state.generation }
    {
        self.generation
    }

    /// Returns how many commands are pending.
    pub fn waiting(&self) -> usize
        ensures { result ≡ length self.now.state.waiting }
    {
        self.waiting.len()
    }

    /// Returns the tag of the pending command number `place`, the oldest being number 0.
    pub fn tag(&self, place: usize) -> Option<Tag>
        ensures { result ≡ option_map (λ waiting. waiting.1) (slice_get self.now.state.waiting place) }
    {
        self.waiting.get(place).map(|(_, tag)| *tag)
    }

    /// Comes up, and returns the new generation: one more than before.
    pub fn back(&mut self) -> Result<u64, LinkError>
        ensures back { IfOk result (λ generation.
            (generation ≡ self.old.state.generation + 1) × (self.new.state ≡ up_link generation)) }
        ensures state { IsErrOf result LinkError.State ↔ (can_come_back self.old.state ≡ false) }
        ensures only_state { IsOkUnless result LinkError.State }
        ensures err { OnErr result (self.new.state ≡ self.old.state) }
        ensures room { KeepsRoom self.old self.new }
    {
        if self.up || self.generation == u64::MAX {
            return Err(LinkError::State);
        }
        self.up = true;
        self.generation += 1;
        Ok(self.generation)
    }

    /// Takes the memory for commands to come: after it, `heads` sends take none, if their spellings have at most `bytes`
    /// bytes in all.
    pub fn make_room(&mut self, bytes: usize, heads: usize) -> Result<(), LinkError>
        ensures made { OnOk result ((bytes ≤ self.new.bytes) × (heads ≤ self.new.heads)) }
        ensures state { IsErrOf result LinkError.State ↔ (self.old.state.up ≡ false) }
        ensures enough { self.old.state.up ≡ true → bytes ≤ self.old.bytes → heads ≤ self.old.heads → IsOk result }
        ensures unchanged { self.new.state ≡ self.old.state }
        ensures room { KeepsRoom self.old self.new }
    {
        self.needs_up()?;
        self.output.reserve(bytes)?;
        self.waiting.reserve(heads)?;
        Ok(())
    }

    /// Sends a command: appends its canonical spelling to the output, and its head and tag to the pending commands.
    ///
    /// At an error the command is dropped.
    pub fn send(&mut self, atom: Atom<Block>, tag: Tag) -> Result<(), LinkError>
        ensures sent { OnOk result (self.new.state ≡ sent atom tag self.old.state) }
        ensures state { IsErrOf result LinkError.State ↔ (self.old.state.up ≡ false) }
        ensures enough { self.old.state.up ≡ true → length (spelling_of_atom atom) ≤ self.old.bytes → 0 < self.old.heads
            → IsOk result }
        ensures err { OnErr result (self.new.state ≡ self.old.state) }
        ensures bytes { self.old.bytes ≤ self.new.bytes + length (spelling_of_atom atom) }
        ensures heads { self.old.heads ≤ self.new.heads + 1 }
        ensures room { OnErr result (KeepsRoom self.old self.new) }
    {
        self.needs_up()?;
        self.waiting.reserve(1)?;
        write_atom(&atom, &mut self.output)?;
        self.wait_for(atom, tag);
        Ok(())
    }

    /// Sends a storage command whose data block is borrowed, as [`Link::send`] sends one that owns its block. The block is
    /// copied once, to the output.
    ///
    /// At an error the command is dropped.
    pub fn send_store(&mut self, store: LentStore<'_>, tag: Tag) -> Result<(), LinkError>
        ensures sent { OnOk result (self.new.state ≡ sent (atom_of store.entry) tag self.old.state) }
        ensures state { IsErrOf result LinkError.State ↔ (self.old.state.up ≡ false) }
        ensures enough { self.old.state.up ≡ true → length (spelling_of_atom (atom_of store.entry)) ≤ self.old.bytes
            → 0 < self.old.heads → IsOk result }
        ensures err { OnErr result (self.new.state ≡ self.old.state) }
        ensures bytes { self.old.bytes ≤ self.new.bytes + length (spelling_of_atom (atom_of store.entry)) }
        ensures heads { self.old.heads ≤ self.new.heads + 1 }
        ensures room { OnErr result (KeepsRoom self.old self.new) }
    {
        self.needs_up()?;
        self.make_room(0, 1)?;
        write_store(&store, &mut self.output)?;
        self.wait_for_store(store, tag);
        Ok(())
    }

    /// Appends the head of a storage command to the pending commands.
    fn wait_for_store(&mut self, store: LentStore<'_>, tag: Tag)
        requires up { self.old.state.up ≡ true }
        requires room { 0 < self.old.heads }
        ensures waits { self.new.state
            ≡ record self.old.state { waiting = self.old.state.waiting ++ (head_of (atom_of store.entry), tag) ∷ [] } }
        ensures bytes { self.new.bytes ≡ self.old.bytes }
        ensures heads { self.new.heads + 1 ≡ self.old.heads }
    {
        let LentStore {
            mode,
            compare,
            key,
            flags,
            exptime,
            block: _,
        } = store;
        self.waiting.push_back_reserved((
            Atom::Update(Update::Store {
                mode,
                compare,
                key,
                flags,
                exptime,
                block: (),
            }),
            tag,
        ));
    }

    /// Appends the head of a command to the pending commands. The hot case, a retrieval's head, is built in place.
    fn wait_for(&mut self, atom: Atom<Block>, tag: Tag)
        requires up { self.old.state.up ≡ true }
        requires room { 0 < self.old.heads }
        ensures waits { self.new.state ≡ record self.old.state { waiting = self.old.state.waiting ++ (head_of atom, tag) ∷ [] } }
        ensures bytes { self.new.bytes ≡ self.old.bytes }
        ensures heads { self.new.heads + 1 ≡ self.old.heads }
    {
        match atom {
            Atom::Get {
                key,
                exptime,
                with_cas,
            } => self.waiting.push_back_reserved((
                Atom::Get {
                    key,
                    exptime,
                    with_cas,
                },
                tag,
            )),
            other => self.waiting.push_back_reserved((other.into_head(), tag)),
        }
    }

    /// Returns the output that was not consumed.
    pub fn output(&self) -> &[u8]
        ensures { result.now ≡ self.now.state.output }
    {
        let (_, output) = self.output.split_at(self.sent);
        output
    }

    /// Consumes the first `count` bytes of the output, which were sent to the server. It takes no memory.
    pub fn taken_out(&mut self, count: usize)
        requires { count ≤ length self.old.state.output }
        ensures taken { self.new.state ≡ record self.old.state { output = drop count self.old.state.output } }
        ensures room { KeepsRoom self.old self.new }
    {
        self.sent = consume_front(&mut self.output, self.sent + count);
    }

    /// Takes the bytes that arrived next from the server.
    #[tactic(auto, using(crate::proofs::LinkLemmas::short_of_more))]
    pub fn feed(&mut self, piece: &[u8]) -> Result<(), LinkError>
        ensures fed { OnOk result (self.new.state ≡ record self.old.state { unread = self.old.state.unread ++ piece.now }) }
        ensures state { IsErrOf result LinkError.State ↔ (self.old.state.up ≡ false) }
        ensures err { OnErr result (self.new.state ≡ self.old.state) }
        ensures room { KeepsRoom self.old self.new }
    {
        self.needs_up()?;
        self.reader.feed(piece)?;
        Ok(())
    }

    /// Takes the reply to the oldest pending command, if it has arrived whole.
    ///
    /// It takes memory only for a value, which is copied out once.
    pub fn turn(&mut self, alloc: Global) -> Result<LinkTurn, LinkError>
        ensures turn { IfOk result (λ turn. IsLinkTurn self.old.state turn self.new.state) }
        ensures state { IsErrOf result LinkError.State ↔ (self.old.state.up ≡ false) }
        ensures cause { IsErrOf result LinkError.Memory → HasReply self.old.state }
        ensures err { OnErr result (self.new.state ≡ self.old.state) }
        ensures room { KeepsRoom self.old self.new }
    {
        self.needs_up()?;
        let unread = self.reader.unread();
        let Some((head, tag)) = self.waiting.front() else {
            return Ok(if unread == 0 {
                LinkTurn::Idle
            } else {
                LinkTurn::Strange
            });
        };
        if unread < self.wanted {
            return Ok(LinkTurn::Idle);
        }
        let tag = *tag;
        match self.reader.next(alloc, head)? {
            NextReply::Reply(reply) => {
                self.waiting.pop_front();
                self.wanted = 0;
                Ok(LinkTurn::Took(tag, reply))
            }
            NextReply::More(wanted) => {
                self.wanted = wanted;
                Ok(LinkTurn::Idle)
            }
            NextReply::Strange => Ok(LinkTurn::Strange),
        }
    }

    /// Returns whether a whole reply to the oldest pending command has arrived, which a turn takes. It takes no memory.
    pub fn has_reply(&self) -> bool
        ensures { IsTrue result ↔ HasReply self.now.state }
    {
        match self.waiting.front() {
            Some((head, _)) => self.reader.has_next(head),
            None => false,
        }
    }

    /// Goes down, and returns the output that was not consumed and the pending commands. The generation stays, and all else
    /// is empty. It takes no memory.
    pub fn lose(&mut self, alloc: Global) -> Result<LostLink, LinkError>
        ensures bytes { IfOk result (λ lost. lost.bytes.items ≡ self.old.state.output) }
        ensures waiting { IfOk result (λ lost. lost.waiting.items ≡ self.old.state.waiting) }
        ensures down { OnOk result (self.new.state ≡ down_link self.old.state.generation) }
        ensures state { IsErrOf result LinkError.State ↔ (self.old.state.up ≡ false) }
        ensures only_state { IsOkUnless result LinkError.State }
        ensures err { OnErr result (self.new.state ≡ self.old.state) }
    {
        self.needs_up()?;
        let mut bytes = mem::replace(&mut self.output, Vec::new(alloc));
        drain_front(&mut bytes, self.sent);
        let waiting = mem::replace(&mut self.waiting, VecDeque::new(alloc));
        self.up = false;
        self.sent = 0;
        self.reader = ReplyReader::new(alloc);
        self.wanted = 0;
        Ok(LostLink {
            bytes,
            waiting: waiting.into_vec(),
        })
    }

    /// Frees the memory of each empty buffer (output, received bytes, pending commands) that has room for more than `kept`
    /// bytes or commands.
    pub fn shrink_if_idle(&mut self, kept: usize)
        ensures { self.new.state ≡ self.old.state }
    {
        shrink_if_idle(&mut self.output, kept);
        if self.waiting.is_empty() && self.waiting.capacity() > kept {
            self.waiting.shrink_to_fit();
        }
        self.reader.shrink_if_idle(kept);
    }
}
