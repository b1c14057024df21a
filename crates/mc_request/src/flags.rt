//! The flags of meta commands, read word by word from left to right.
ghost use Rattle.std.specs.Prelude.{◌≡◌, Ok, Err, IfOk, IfErr, codes};
ghost use Rattle.mc_request.specs.Flags.{flag_of, letters_of, is_one_of, bare, valued, opaque_of, mode_of, direction_of, by_flag, with_flag, flags_from, fresh_flags};

use crate::faults::Fault;
use crate::meta::{Counting, Creation, MetaGet, Show};
use crate::names::Name;
use crate::parts::{Direction, StoreMode};
use mc_text::{WordIter, read_flags, read_i64, read_u64};

/// The most bytes that an opaque has, beside its letter.
pub const OPAQUE_LIMIT: usize = 32;

/// A flag of a meta command. `specs/Flags.antt` says which command has it, and what its token is.
#[derive(Clone, Copy, Debug, PartialEq, Eq)]
pub enum Flag {
    /// `b`: the key is base64.
    Coded,
    /// `c`: the item's number is shown.
    Cas,
    /// `f`: its client flags are shown.
    ClientFlags,
    /// `k`: the key is shown.
    Key,
    /// `O`: a token that is echoed.
    Opaque,
    /// `q`: the expected outcome is hidden.
    Quiet,
    /// `s`: the value's size is shown.
    Size,
    /// `t`: the seconds until expiry are shown.
    Left,
    /// `v`: the value is shown.
    Value,
    /// `T`: an exptime.
    Exptime,
    /// `C`: a number that the item's is compared with.
    Compare,
    /// `F`: client flags to be stored.
    StoredFlags,
    /// `M`: a mode.
    Mode,
    /// `N`: the exptime of an item that is made if the key is not stored.
    Create,
    /// `J`: the number that is then stored.
    Initial,
    /// `D`: a delta.
    Delta,
    /// `I`: the item is made stale.
    Invalidate,
    /// `R`: the seconds until expiry below which the item is to be filled anew.
    Recache,
}

/// The flags that have been read.
#[derive(Clone, Copy)]
pub struct MetaFlags {
    pub coded: bool,
    pub key: bool,
    pub opaque: bool,
    pub quiet: bool,
    pub invalidate: bool,
    pub show: Show,
    pub mode: Option<StoreMode>,
    pub direction: Option<Direction>,
    pub flags: Option<u32>,
    pub exptime: Option<i64>,
    pub create: Option<i64>,
    pub compare: Option<u64>,
    pub initial: Option<u64>,
    pub delta: Option<u64>,
    pub recache: Option<u64>,
}

impl MetaFlags {
    ghost use Rattle.mc_request.specs.Flags.{get_by, counting_by};

    /// Returns the flags of no word.
    pub fn fresh() -> MetaFlags
        ensures { result ≡ fresh_flags }
    {
        MetaFlags {
            coded: false,
            key: false,
            opaque: false,
            quiet: false,
            invalidate: false,
            show: Show {
                cas: false,
                flags: false,
                size: false,
                left: false,
                value: false,
            },
            mode: None,
            direction: None,
            flags: None,
            exptime: None,
            create: None,
            compare: None,
            initial: None,
            delta: None,
            recache: None,
        }
    }

    /// Reads a command's flag words, up to the first that is refused.
    #[inline(never)]
    pub fn read_all(&mut self, name: Name, words: WordIter<'_>) -> Result<(), Fault>
        ensures read { IfOk result (λ _. flags_from name self.old words.entry ≡ Ok self.new) }
        ensures refused { IfErr result (λ fault. flags_from name self.old words.entry ≡ Err fault) }
    {
        for word in words {
            self.read(name, word)?;
        }
        Ok(())
    }

    /// Reads one more word.
    fn read(&mut self, name: Name, word: &[u8]) -> Result<(), Fault>
        ensures read { IfOk result (λ _. with_flag name self.old word.now ≡ Ok self.new) }
        ensures refused { IfErr result (λ fault. with_flag name self.old word.now ≡ Err fault) }
    {
        let (letter, token) = word.split_first().ok_or(Fault::InvalidFlag)?;
        if !has_letter(name, *letter) {
            return Err(Fault::InvalidFlag);
        }
        let flag = flag_of(*letter).ok_or(Fault::InvalidFlag)?;
        self.put(name, flag, token)
    }

    /// Stores a flag with its token, which is empty if the word has none.
    fn put(&mut self, name: Name, flag: Flag, token: &[u8]) -> Result<(), Fault>
        ensures read { IfOk result (λ _. by_flag name self.old token.now flag ≡ Ok self.new) }
        ensures refused { IfErr result (λ fault. by_flag name self.old token.now flag ≡ Err fault) }
    {
        match flag {
            Flag::Coded => self.coded = bare(self.coded, token)?,
            Flag::Cas => self.show.cas = bare(self.show.cas, token)?,
            Flag::ClientFlags => self.show.flags = bare(self.show.flags, token)?,
            Flag::Key => self.key = bare(self.key, token)?,
            Flag::Opaque => self.opaque = opaque_of(self.opaque, token)?,
            Flag::Quiet => self.quiet = bare(self.quiet, token)?,
            Flag::Size => self.show.size = bare(self.show.size, token)?,
            Flag::Left => self.show.left = bare(self.show.left, token)?,
            Flag::Value => self.show.value = bare(self.show.value, token)?,
            Flag::Exptime => self.exptime = valued(self.exptime, read_i64(token))?,
            Flag::Compare => self.compare = valued(self.compare, read_u64(token))?,
            Flag::StoredFlags => self.flags = valued(self.flags, read_flags(token))?,
            Flag::Mode => match name {
                Name::MetaSet => self.mode = valued(self.mode, mode_of(token))?,
                _ => self.direction = valued(self.direction, direction_of(token))?,
            },
            Flag::Create => self.create = valued(self.create, read_i64(token))?,
            Flag::Initial => self.initial = valued(self.initial, read_u64(token))?,
            Flag::Delta => self.delta = valued(self.delta, read_u64(token))?,
            Flag::Invalidate => self.invalidate = bare(self.invalidate, token)?,
            Flag::Recache => self.recache = valued(self.recache, read_u64(token))?,
        }
        Ok(())
    }

    /// Returns what an `mg` of these flags does.
    pub fn meta_get(&self) -> MetaGet
        ensures { result ≡ get_by self.now }
    {
        MetaGet {
            show: self.show,
            exptime: self.exptime,
            create: self.create,
            recache: self.recache,
        }
    }

    /// Returns how an `ma` of these flags counts.
    pub fn counting(&self) -> Counting
        ensures { result ≡ counting_by self.now }
    {
        Counting {
            direction: self.direction.unwrap_or(Direction::Up),
            delta: self.delta.unwrap_or(1),
            compare: self.compare,
            create: self.create.map(|exptime| Creation {
                exptime,
                initial: self.initial.unwrap_or(0),
            }),
            exptime: self.exptime,
        }
    }
}

/// Returns whether a letter is one of a command's flags.
fn has_letter(name: Name, letter: u8) -> bool
    ensures { result ≡ is_one_of (letters_of name) letter }
{
    match name {
        Name::MetaGet => is_get_letter(letter),
        Name::MetaSet => is_set_letter(letter),
        Name::MetaDelete => is_delete_letter(letter),
        Name::MetaArithmetic => is_arithmetic_letter(letter),
        _ => false,
    }
}

/// Returns whether a letter is a flag of `mg`.
fn is_get_letter(letter: u8) -> bool
    ensures { result ≡ is_one_of (codes "bcfkOqstvTNR") letter }
{
    matches!(
        letter,
        b'b' | b'c' | b'f' | b'k' | b'O' | b'q' | b's' | b't' | b'v' | b'T' | b'N' | b'R'
    )
}

/// Returns whether a letter is a flag of `ms`.
fn is_set_letter(letter: u8) -> bool
    ensures { result ≡ is_one_of (codes "bckOqsTCFM") letter }
{
    matches!(
        letter,
        b'b' | b'c' | b'k' | b'O' | b'q' | b's' | b'T' | b'C' | b'F' | b'M'
    )
}

/// Returns whether a letter is a flag of `md`.
fn is_delete_letter(letter: u8) -> bool
    ensures { result ≡ is_one_of (codes "bkOqCI") letter }
{
    matches!(letter, b'b' | b'k' | b'O' | b'q' | b'C' | b'I')
}

/// Returns whether a letter is a flag of `ma`.
fn is_arithmetic_letter(letter: u8) -> bool
    ensures { result ≡ is_one_of (codes "bckOqtvTCMNJD") letter }
{
    matches!(
        letter,
        b'b' | b'c' | b'k' | b'O' | b'q' | b't' | b'v' | b'T' | b'C' | b'M' | b'N' | b'J' | b'D'
    )
}

/// Returns the flag of a letter.
pub fn flag_of(letter: u8) -> Option<Flag>
    ensures { result ≡ flag_of letter }
{
    Some(match letter {
        b'b' => Flag::Coded,
        b'c' => Flag::Cas,
        b'f' => Flag::ClientFlags,
        b'k' => Flag::Key,
        b'O' => Flag::Opaque,
        b'q' => Flag::Quiet,
        b's' => Flag::Size,
        b't' => Flag::Left,
        b'v' => Flag::Value,
        b'T' => Flag::Exptime,
        b'C' => Flag::Compare,
        b'F' => Flag::StoredFlags,
        b'M' => Flag::Mode,
        b'N' => Flag::Create,
        b'J' => Flag::Initial,
        b'D' => Flag::Delta,
        b'I' => Flag::Invalidate,
        b'R' => Flag::Recache,
        _ => return None,
    })
}

/// Takes a flag without a token. `given` says whether it was given before.
fn bare(given: bool, token: &[u8]) -> Result<bool, Fault>
    ensures { result ≡ bare given token.now }
{
    if given || !token.is_empty() {
        Err(Fault::InvalidFlag)
    } else {
        Ok(true)
    }
}

/// Takes a flag by what its token says. `given` is its value, if it was given before.
fn valued<T: Copy>(given: Option<T>, said: Option<T>) -> Result<Option<T>, Fault>
    ensures { result ≡ valued given said }
{
    if given.is_some() {
        return Err(Fault::InvalidFlag);
    }
    Ok(Some(said.ok_or(Fault::BadToken)?))
}

/// Takes an opaque. `given` says whether one was given before.
fn opaque_of(given: bool, token: &[u8]) -> Result<bool, Fault>
    ensures { result ≡ opaque_of given token.now }
{
    if given {
        Err(Fault::InvalidFlag)
    } else if token.len() > OPAQUE_LIMIT {
        Err(Fault::BadToken)
    } else {
        Ok(true)
    }
}

/// Returns the mode of `ms` that a token names.
fn mode_of(token: &[u8]) -> Option<StoreMode>
    ensures { result ≡ mode_of token.now }
{
    match token {
        b"E" | b"e" => Some(StoreMode::Add),
        b"A" | b"a" => Some(StoreMode::Append),
        b"P" | b"p" => Some(StoreMode::Prepend),
        b"R" | b"r" => Some(StoreMode::Replace),
        b"S" | b"s" => Some(StoreMode::Set),
        _ => None,
    }
}

/// Returns the mode of `ma` that a token names.
fn direction_of(token: &[u8]) -> Option<Direction>
    ensures { result ≡ direction_of token.now }
{
    match token {
        b"I" | b"i" | b"+" => Some(Direction::Up),
        b"D" | b"d" | b"-" => Some(Direction::Down),
        _ => None,
    }
}
