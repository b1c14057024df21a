//! Borrowed requests, copied to be the caller's own, and the commands of owned ones. A server serves borrowed ones, and copies none.
ghost use Rattle.std.specs.Prelude.{◌≡◌, ◌∷◌, ◌<◌, [], true, length, IfOk};
ghost use Rattle.std.specs.List.{list_all};
ghost use Rattle.mc_text.specs.Keys.{is_plain_key};
ghost use Rattle.mc_request.specs.Atoms.{atoms_of, gets_of};
ghost use Rattle.mc_request.specs.Requests.{ends};
ghost use Rattle.mc_request.specs.WellFormed.{is_well_formed, has_key, has_meta_key};
ghost use Rattle.mc_request.specs.Parts.{update_seen, meta_said};
ghost use Rattle.mc_request.specs.LinesSeen.{asked_of};

use crate::hides::{Hides, quiet_hides};
use crate::keys::Keys;
use crate::lines::RequestRef;
use crate::meta::{FlagWords, MetaCommand, MetaForm, key_bytes};
use crate::parts::{Atom, Parsed, ReadError, Request, Update};
use mc_text::{Block, CODED_ROOM, Key, WordIter};
use std::alloc::Global;

impl RequestRef<'_> {
    ghost use Rattle.mc_request.specs.Hides.{hides_taken};

    /// Returns whether nothing is read after it.
    pub fn ends(&self) -> bool
        ensures { result ≡ ends (asked_of self.now) }
    {
        match self {
            RequestRef::Quit => true,
            RequestRef::Faulty(fault) => fault.closes(),
            _ => false,
        }
    }

    /// Returns what it hides of its answer. A fault hides nothing.
    pub fn hides(&self) -> Hides
        ensures { result ≡ hides_taken (asked_of self.now) }
    {
        match self {
            RequestRef::Update { noreply: true, .. } => Hides::ReplyLine,
            RequestRef::Meta { command, form } => quiet_hides(command, form.quiet),
            _ => Hides::Nothing,
        }
    }

    /// Returns an owned request or fault: its keys and its block are copied.
    pub fn taken(self, alloc: Global) -> Result<Parsed, ReadError>
        requires { is_well_formed (asked_of self) ≡ true }
        ensures { IfOk result (λ taken. taken ≡ asked_of self.entry) }
    {
        Ok(Parsed::Whole(match self {
            RequestRef::Faulty(fault) => return Ok(Parsed::Faulty(fault)),
            RequestRef::Get {
                keys,
                exptime,
                with_cas,
            } => Request::Get {
                keys: keys_of(alloc, keys)?,
                exptime,
                with_cas,
            },
            RequestRef::Update { update, noreply } => Request::Update {
                update: update.owned(alloc)?,
                noreply,
            },
            RequestRef::Meta { command, form } => Request::Meta {
                command: command.owned(alloc, form.coded)?,
                form: form.owned(alloc)?,
            },
            RequestRef::MetaNoop => Request::MetaNoop,
            RequestRef::Version => Request::Version,
            RequestRef::Quit => Request::Quit,
        }))
    }
}

impl Update<&[u8], &[u8]> {
    /// Returns an owned update: its key and its block are copied.
    pub fn owned(&self, alloc: Global) -> Result<Update<Key, Block>, ReadError>
        requires { has_key (update_seen self.now) ≡ true }
        ensures { IfOk result (λ update. update ≡ update_seen self.now) }
    {
        Ok(match *self {
            Update::Store {
                mode,
                compare,
                key,
                flags,
                exptime,
                block,
            } => Update::Store {
                mode,
                compare,
                key: Key::of_bytes(alloc, key)?,
                flags,
                exptime,
                block: Block::from_slice(alloc, block)?,
            },
            Update::Touch { key, exptime } => Update::Touch {
                key: Key::of_bytes(alloc, key)?,
                exptime,
            },
            Update::Delete {
                key,
                compare,
                invalidate,
            } => Update::Delete {
                key: Key::of_bytes(alloc, key)?,
                compare,
                invalidate,
            },
            Update::Count { key, counting } => Update::Count {
                key: Key::of_bytes(alloc, key)?,
                counting,
            },
            Update::FlushAll { delay } => Update::FlushAll { delay },
        })
    }
}

impl MetaCommand<&[u8], &[u8]> {
    /// Returns an owned meta command: the bytes of its word's key and its block are copied.
    pub fn owned(&self, alloc: Global, coded: bool) -> Result<MetaCommand<Key, Block>, ReadError>
        requires { has_meta_key (meta_said coded self.now) ≡ true }
        ensures { IfOk result (λ command. command ≡ meta_said coded self.now) }
    {
        let mut room = [0; CODED_ROOM];
        Ok(match self {
            MetaCommand::Get { key, get } => MetaCommand::Get {
                key: Key::of_bytes(alloc, key_bytes(coded, key, &mut room))?,
                get: *get,
            },
            MetaCommand::Update { update, show } => MetaCommand::Update {
                update: update.said(coded, &mut room).owned(alloc)?,
                show: *show,
            },
        })
    }
}

impl MetaForm<WordIter<'_>> {
    /// Returns an owned form: its flag words are copied.
    pub fn owned(&self, alloc: Global) -> Result<MetaForm<FlagWords>, ReadError>
        ensures { IfOk result (λ form. form ≡ self.now) }
    {
        Ok(MetaForm {
            coded: self.coded,
            quiet: self.quiet,
            flags: FlagWords::of_words(alloc, self.flags.again())?,
        })
    }
}

/// Copies the keys of words that are known to be plain ones. It makes room for all before it copies the second.
pub fn keys_of(alloc: Global, mut words: WordIter<'_>) -> Result<Keys, ReadError>
    requires some { 0 < length words }
    requires plain { list_all is_plain_key words ≡ true }
    ensures { IfOk result (λ keys. keys ≡ words.entry) }
{
    let first = words.next().unwrap();
    let mut keys = Keys::one(alloc, Key::of_bytes(alloc, first)?);
    keys.reserve(words.len())?;
    for word in words {
        keys.push(Key::of_bytes(alloc, word)?)?;
    }
    Ok(keys)
}

impl Request {
    /// Returns the commands that the request stands for, in order: one for each key of a retrieval command,
    /// none for `mn`, `version` and `quit`.
    ///
    /// The keys and blocks are copied.
    pub fn atoms(&self, alloc: Global) -> Result<Vec<Atom<Block>>, ReadError>
        ensures { IfOk result (λ atoms. atoms.items ≡ atoms_of self.now) }
    {
        match self {
            Request::Get {
                keys,
                exptime,
                with_cas,
            } => get_atoms(alloc, keys, *exptime, *with_cas),
            Request::Update { update, .. } => one_atom(alloc, Atom::Update(update.clone()?)),
            Request::Meta { command, .. } => one_atom(alloc, Atom::Meta(command.clone()?)),
            Request::MetaNoop | Request::Version | Request::Quit => Ok(Vec::new(alloc)),
        }
    }
}

/// Returns the commands of a retrieval command, one for each key.
fn get_atoms(
    alloc: Global,
    keys: &Keys,
    exptime: Option<i64>,
    with_cas: bool,
) -> Result<Vec<Atom<Block>>, ReadError>
    ensures { IfOk result (λ atoms. atoms.items ≡ gets_of exptime with_cas keys.now) }
{
    let mut atoms = Vec::with_capacity(alloc, keys.len())?;
    for at in 0..keys.len() {
        atoms.push(Atom::Get {
            key: keys.key(at).clone()?,
            exptime,
            with_cas,
        })?;
    }
    Ok(atoms)
}

/// Returns a list of one command.
fn one_atom(alloc: Global, atom: Atom<Block>) -> Result<Vec<Atom<Block>>, ReadError>
    ensures { IfOk result (λ atoms. atoms.items ≡ atom ∷ []) }
{
    let mut atoms = Vec::with_capacity(alloc, 1)?;
    atoms.push(atom)?;
    Ok(atoms)
}
