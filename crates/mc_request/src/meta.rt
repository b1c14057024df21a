//! The parts of meta commands.
ghost use Rattle.std.specs.Prelude.{◌≡◌, true, IfOk};
ghost use Rattle.mc_text.specs.Keys.{is_key};
ghost use Rattle.mc_request.specs.Parts.{key_bytes, update_seen, update_said, word_in_meta};
ghost use Rattle.mc_request.specs.WellFormed.{has_key};

use crate::parts::{Direction, Update};
use mc_text::{CODED_ROOM, WordIter, read_coded, words};
use std::alloc::{AllocError, Global};
use std::marker::Model;

/// What a meta command shows of its item: flags `c`, `f`, `s`, `t` and `v`.
#[derive(Clone, Copy, Debug, PartialEq, Eq)]
pub struct Show {
    /// `c`: its number.
    pub cas: bool,
    /// `f`: its client flags.
    pub flags: bool,
    /// `s`: its value's size.
    pub size: bool,
    /// `t`: its seconds until expiry.
    pub left: bool,
    /// `v`: its value.
    pub value: bool,
}

/// What `mg` does besides looking its key up.
#[derive(Clone, Copy, Debug, PartialEq, Eq)]
pub struct MetaGet {
    pub show: Show,
    /// `T`: the item's expiry is set.
    pub exptime: Option<i64>,
    /// `N`: if the key is not stored, an empty item with this exptime is made.
    pub create: Option<i64>,
    /// `R`: an item with fewer seconds until expiry than this is to be filled anew.
    pub recache: Option<u64>,
}

/// How a number is counted. `incr` and `decr` have a direction and a delta, and nothing else.
#[derive(Clone, Copy, Debug, PartialEq, Eq)]
pub struct Counting {
    pub direction: Direction,
    pub delta: u64,
    /// `C`: only if the item has this number.
    pub compare: Option<u64>,
    /// `N`, with `J`: if the key is not stored, this item is made.
    pub create: Option<Creation>,
    /// `T`: the item's expiry is set.
    pub exptime: Option<i64>,
}

/// The item that `ma` makes if its key is not stored.
#[derive(Clone, Copy, Debug, PartialEq, Eq)]
pub struct Creation {
    /// `N`: its exptime.
    pub exptime: i64,
    /// `J`: its value, in decimal digits.
    pub initial: u64,
}

/// A meta command on one key. Neither `touch` nor `flush_all` has a meta form, so no request has one here.
#[derive(Clone, Debug, Drop)]
pub enum MetaCommand<K, B> {
    /// `mg`.
    Get { key: K, get: MetaGet },
    /// `ms`, `md` and `ma`.
    Update { update: Update<K, B>, show: Show },
}

/// How the answer to a meta command is written.
#[derive(Clone, Debug, Drop)]
pub struct MetaForm<F> {
    /// `b`: its key is base64.
    pub coded: bool,
    /// `q`: the expected outcome is hidden.
    pub quiet: bool,
    /// Its flag words, in the order of the request.
    pub flags: F,
}

/// The flag words of a meta command, in order. Contracts see the list of them.
#[derive(Clone, Debug, Drop)]
pub struct FlagWords {
    text: Vec<u8>,
}

impl Model for FlagWords {
    ghost use Rattle.std.specs.Prelude.{ℕ, List};
    ghost use Rattle.mc_text.specs.Words.{words};

    ghost Value = { List (List ℕ) };

    ghost view = { λ f. words f.text.items };
}

impl FlagWords {
    /// Copies the bytes of the words, once.
    pub fn of_words(alloc: Global, words: WordIter<'_>) -> Result<FlagWords, AllocError>
        ensures { IfOk result (λ flags. flags ≡ words.entry) }
    {
        Ok(FlagWords {
            text: Vec::from_slice(alloc, words.text())?,
        })
    }

    /// Returns the words.
    pub fn words(&self) -> WordIter<'_>
        ensures { result ≡ self.now }
    {
        words(self.text.as_slice())
    }
}

/// Returns the bytes of the key of a meta command's word. Those of a plain key are the word itself, and nothing is copied. A
/// word in base64 is decoded into the caller's room, and the bytes are a slice of that room.
pub fn key_bytes<'a>(coded: bool, word: &'a [u8], room: &'a mut [u8; CODED_ROOM]) -> &'a [u8]
    requires { is_key (key_bytes coded word.now) ≡ true }
    ensures { result.now ≡ key_bytes coded word.now }
{
    if !coded {
        return word;
    }
    read_coded(word, room).unwrap_or(&[])
}

impl<'a> Update<&'a [u8], &'a [u8]> {
    /// Returns the update of a meta command with the bytes of its key in place of its word.
    pub fn said(&self, coded: bool, room: &'a mut [u8; CODED_ROOM]) -> Update<&'a [u8], &'a [u8]>
        requires { has_key (update_said coded self.now) ≡ true }
        ensures { update_seen result ≡ update_said coded self.now }
    {
        match *self {
            Update::Store {
                mode,
                compare,
                key,
                flags,
                exptime,
                block,
            } => Update::Store {
                mode,
                compare,
                key: key_bytes(coded, key, room),
                flags,
                exptime,
                block,
            },
            Update::Touch { key, exptime } => Update::Touch {
                key: key_bytes(coded, key, room),
                exptime,
            },
            Update::Delete {
                key,
                compare,
                invalidate,
            } => Update::Delete {
                key: key_bytes(coded, key, room),
                compare,
                invalidate,
            },
            Update::Count { key, counting } => Update::Count {
                key: key_bytes(coded, key, room),
                counting,
            },
            Update::FlushAll { delay } => Update::FlushAll { delay },
        }
    }
}

impl<'a> MetaCommand<&'a [u8], &'a [u8]> {
    /// Returns the word of its key. A flush has none, but it has no meta form.
    pub fn word(&self) -> &'a [u8]
        ensures { result.now ≡ word_in_meta self.now }
    {
        match self {
            MetaCommand::Get { key, .. } => key,
            MetaCommand::Update { update, .. } => match update {
                Update::Store { key, .. }
                | Update::Touch { key, .. }
                | Update::Delete { key, .. }
                | Update::Count { key, .. } => key,
                Update::FlushAll { .. } => &[],
            },
        }
    }
}
