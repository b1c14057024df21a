//! Keys.
ghost use Rattle.std.specs.Prelude.{◌≡◌, ◌∷◌, ◌≤◌, ◌<◌, ◌↔◌, ◌≢◌, ℕ, [], true, false, Some, None, List, length, IsOk, IfOk, IsErrOf, OnOk, IsTrue};
ghost use Rattle.std.specs.List.{list_all};
ghost use Rattle.std.specs.Str.{bytes_eq};
ghost use Rattle.std.specs.Cmp.Rules.{comparing, hashing};
ghost use Rattle.std.proofs.Common.{rules};
ghost use Rattle.std.proofs.lemmas.Cmp.{nat_list_eq_equiv};
ghost use Rattle.mc_text.specs.Words.{words};
ghost use Rattle.mc_text.specs.Keys.{is_key, is_key_byte, is_line_byte, is_plain_key, is_short};
ghost use Rattle.mc_text.specs.CodedKeys.{bytes_of_base64, coded_key, is_coded_too_long};
ghost use Rattle.mc_text.specs.declared.coded_keys.TheConstants.{CODED_LIMIT};
ghost use Rattle.mc_text.specs.declared.keys.KeyError.TheVariants.{Memory};

use crate::byte_tests::{are_key_bytes, are_line_bytes};
use crate::coded_keys::{CODED_ROOM, decode_key};
use crate::word_iter::{WordIter, words};
use memchr::memrchr;
use std::alloc::{AllocError, Global};
use std::hash::{Hash, Hasher};
use std::marker::Model;
use thiserror::Error;

/// The most bytes that a key has.
pub const KEY_LIMIT: usize = 250;

/// Why a word is no key. If several causes hold, the one with the least number is returned.
#[derive(Debug, Drop, Error)]
pub enum KeyError {
    /// 1: the word has no byte.
    #[error("empty key")]
    Empty,
    /// 2: the word has more than 250 bytes; in base64, it has more than 336, or encodes more than 250.
    #[error("key longer than 250 bytes")]
    TooLong,
    /// 3, of a plain key alone: a byte of the word is a control byte, a space or 127.
    #[error("control byte or space in key")]
    BadByte,
    /// 4, of a key in base64 alone: the word is no base64.
    #[error("key is no base64")]
    BadBase64,
    /// 5: no memory for the key's bytes.
    #[error("out of memory")]
    Memory,
}

impl From<AllocError> for KeyError {
    ghost from_gives = { λ _ e. e ≡ Memory };

    fn from(_e: AllocError) -> KeyError {
        KeyError::Memory
    }
}

/// The most bytes of a key that needs no memory of its own: with them the key has 32 bytes.
const INLINE: usize = 30;

/// Where the bytes of a key are stored.
#[derive(Debug, Drop)]
enum Bytes {
    /// In the key: the first `len` of these.
    Inline { len: u8, bytes: [u8; INLINE] },
    /// In memory of their own.
    Heap(Vec<u8>),
}

/// A key: 1 to 250 bytes. Keys with equal bytes are one key. Contracts see the bytes.
///
/// Up to 30 bytes are in the key itself, and more are in memory of their own.
#[derive(Debug, Drop)]
pub struct Key {
    bytes: Bytes,
}

impl Model for Key {
    ghost use Rattle.std.specs.Prelude.{ℕ, List};
    ghost use Rattle.mc_text.specs.KeptKeys.{kept_bytes, IsKept};

    ghost Value = { List ℕ };

    ghost view = { λ k. kept_bytes k.bytes };

    ghost invariant = { λ k. IsKept k.bytes };
}

impl Clone for Key {
    ghost is_clone = { λ x y. y ≡ x };

    fn clone(&self) -> Result<Key, AllocError> {
        let bytes = match &self.bytes {
            Bytes::Inline { len, bytes } => Bytes::Inline {
                len: *len,
                bytes: *bytes,
            },
            Bytes::Heap(bytes) => Bytes::Heap(bytes.clone()?),
        };
        Ok(Key { bytes })
    }
}

impl PartialEq for Key {
    ghost eq = { bytes_eq };

    ghost laws = { Prim.search (comparing, rules) };

    fn eq(&self, other: &Key) -> bool {
        self.as_bytes() == other.as_bytes()
    }
}

impl Eq for Key {
    ghost laws = { nat_list_eq_equiv };
}

impl Hash for Key {
    ghost hash_input = { λ k. k ∷ [] };

    ghost respects_eq = { Prim.search (hashing, rules) };

    fn hash<H: Hasher>(&self, state: &mut H) {
        state.write(self.as_bytes());
    }
}

impl Key {
    /// Returns the key that a plain word is.
    pub fn plain(alloc: Global, word: &[u8]) -> Result<Key, KeyError>
        ensures key { IfOk result (λ key. (is_plain_key word.now ≡ true) × (key ≡ word.now)) }
        ensures empty { IsErrOf result KeyError.Empty ↔ (word.now ≡ []) }
        ensures too_long { IsErrOf result KeyError.TooLong ↔ (KEY_LIMIT < length word.now) }
        ensures bad_byte { IsErrOf result KeyError.BadByte
            ↔ ((word.now ≢ []) × (length word.now ≤ KEY_LIMIT) × (list_all is_key_byte word.now ≡ false)) }
        ensures plain { IsErrOf result KeyError.BadBase64 → ⊥ }
    {
        if word.is_empty() {
            return Err(KeyError::Empty);
        }
        if word.len() > KEY_LIMIT {
            return Err(KeyError::TooLong);
        }
        if !are_key_bytes(word) {
            return Err(KeyError::BadByte);
        }
        Ok(Key::of_bytes(alloc, word)?)
    }

    /// Returns the key that a word encodes in base64.
    pub fn coded(alloc: Global, word: &[u8]) -> Result<Key, KeyError>
        ensures key { IfOk result (λ key. coded_key word.now ≡ Some key) }
        ensures empty { IsErrOf result KeyError.Empty ↔ (word.now ≡ []) }
        ensures too_long { IsErrOf result KeyError.TooLong ↔ (is_coded_too_long word.now ≡ true) }
        ensures bad_base64 { IsErrOf result KeyError.BadBase64
            ↔ ((length word.now ≤ CODED_LIMIT) × (bytes_of_base64 word.now ≡ None)) }
        ensures coded { IsErrOf result KeyError.BadByte → ⊥ }
    {
        let mut room = [0; CODED_ROOM];
        let bytes = decode_key(word, &mut room)?;
        Ok(Key::of_bytes(alloc, bytes)?)
    }

    /// Returns the key of bytes that are known to be one: they are copied, and not tested again. Up to 30 bytes take no memory.
    pub fn of_bytes(alloc: Global, bytes: &[u8]) -> Result<Key, AllocError>
        requires { is_key bytes.now ≡ true }
        ensures key { IfOk result (λ key. key ≡ bytes.now) }
        ensures inline { length bytes.now ≤ INLINE → IsOk result }
    {
        let len = bytes.len();
        if len > INLINE {
            let bytes = Bytes::Heap(Vec::from_slice(alloc, bytes)?);
            return Ok(Key { bytes });
        }
        let mut room = [0; INLINE];
        room[..len].copy_from_slice(bytes);
        Ok(Key {
            bytes: Bytes::Inline {
                len: len as u8,
                bytes: room,
            },
        })
    }

    /// Returns the key's bytes.
    pub fn as_bytes(&self) -> &[u8]
        ensures bytes { result.now ≡ self.now }
        ensures size { (0 < length self.now) × (length self.now ≤ KEY_LIMIT) }
        ensures key { is_key self.now ≡ true }
    {
        match &self.bytes {
            Bytes::Inline { len, bytes } => &bytes[..*len as usize],
            Bytes::Heap(bytes) => bytes.as_slice(),
        }
    }
}

/// Returns whether a word is a plain key: 1 to 250 bytes, none a control byte, a space or 127.
pub fn is_plain_key(word: &[u8]) -> bool
    ensures { result ≡ is_plain_key word.now }
{
    !word.is_empty() && word.len() <= KEY_LIMIT && are_key_bytes(word)
}

/// Returns whether each word is a plain key. The bytes of all words are tested together, so that the processor tests many at once.
pub fn are_plain_keys(words: &WordIter<'_>) -> bool
    ensures { result ≡ list_all is_plain_key words.now }
{
    let text = words.text();
    are_line_bytes(text) && has_short_words(text)
}

/// Returns whether no word of a text is longer than a key. Most often two or three looks decide it: one of the next 251 bytes is a
/// space, and what is before the last such space is short enough.
fn has_short_words(text: &[u8]) -> bool
    ensures { result ≡ list_all is_short (words text.now) }
{
    let mut rest = text;
    while rest.len() > KEY_LIMIT {
        let (window, _) = rest.split_at(KEY_LIMIT + 1);
        let Some(space) = memrchr(b' ', window) else {
            return are_short(words(rest));
        };
        let (_, more) = rest.split_at(space + 1);
        rest = more;
    }
    true
}

/// Returns whether no word is longer than a key.
fn are_short(words: WordIter<'_>) -> bool
    ensures { result ≡ list_all is_short words.entry }
{
    for word in words {
        if word.len() > KEY_LIMIT {
            return false;
        }
    }
    true
}
