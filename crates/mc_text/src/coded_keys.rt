//! Keys in base64: words that encode a key's bytes.
ghost use Rattle.std.specs.Prelude.{◌≡◌, ◌≤◌, ◌+◌, ◌*◌, ◌/◌, ◌↔◌, ℕ, [], true, Some, None, is_some, length, IfOk, IfSome, IsErrOf, OnErr};
ghost use Rattle.std.specs.Option.{option_copied};
ghost use Rattle.mc_text.specs.Keys.{is_key};
ghost use Rattle.mc_text.specs.CodedKeys.{bytes_of_base64, coded_key, coded_of, is_coded_too_long};

use crate::keys::{KEY_LIMIT, KeyError};
use base64::engine::general_purpose::STANDARD;

/// The most bytes that the word of a key in base64 has.
pub const CODED_LIMIT: usize = 336;

/// The bytes of room that decoding a word in base64 needs.
pub const CODED_ROOM: usize = 252;

/// Returns whether a word is a key in base64.
#[inline(never)]
pub fn is_coded_key(word: &[u8]) -> bool
    ensures { result ≡ is_some (coded_key word.now) }
{
    let mut room = [0; CODED_ROOM];
    read_coded(word, &mut room).is_some()
}

/// Decodes the key of a word in base64 into the caller's room, and returns a slice of that room.
pub fn read_coded<'a>(word: &[u8], room: &'a mut [u8; CODED_ROOM]) -> Option<&'a [u8]>
    ensures key { option_copied result ≡ coded_key word.now }
    ensures valid { IfSome result (λ key. is_key key.now ≡ true) }
{
    decode_key(word, room).ok()
}

/// Encodes a key in base64 into the caller's room, and returns a slice of that room. The word has 4 bytes for each 3
/// of the key, and 4 for one or two that are left.
#[tactic(auto, unfolding(crate::specs::CodedKeys::coded_of))]
pub fn write_coded<'a>(key: &[u8], room: &'a mut [u8; CODED_LIMIT]) -> &'a [u8]
    requires { length key.now ≤ KEY_LIMIT }
    ensures word { result.now ≡ coded_of key.now }
    ensures size { length result.now ≡ (length key.now + 2) / 3 * 4 }
    ensures limit { length result.now ≤ CODED_LIMIT }
{
    let size = STANDARD.encode_slice(key, room).unwrap();
    let (word, _) = room.split_at(size);
    word
}

/// Decodes the key of a word in base64, or returns why the word encodes none.
pub(crate) fn decode_key<'a>(
    word: &[u8],
    room: &'a mut [u8; CODED_ROOM],
) -> Result<&'a [u8], KeyError>
    ensures key { IfOk result (λ key. coded_key word.now ≡ Some key.now) }
    ensures valid { IfOk result (λ key. is_key key.now ≡ true) }
    ensures none { OnErr result (coded_key word.now ≡ None) }
    ensures empty { IsErrOf result KeyError.Empty ↔ (word.now ≡ []) }
    ensures too_long { IsErrOf result KeyError.TooLong ↔ (is_coded_too_long word.now ≡ true) }
    ensures bad_base64 { IsErrOf result KeyError.BadBase64
        ↔ ((length word.now ≤ CODED_LIMIT) × (bytes_of_base64 word.now ≡ None)) }
    ensures coded { IsErrOf result KeyError.BadByte → ⊥ }
{
    if word.is_empty() {
        return Err(KeyError::Empty);
    }
    if word.len() > CODED_LIMIT {
        return Err(KeyError::TooLong);
    }
    let Some(key) = decode(word, room) else {
        return Err(KeyError::BadBase64);
    };
    if key.len() > KEY_LIMIT {
        return Err(KeyError::TooLong);
    }
    Ok(key)
}

/// Decodes the bytes of a word in base64.
#[tactic(auto, unfolding(crate::specs::CodedKeys::bytes_of_base64, base64::specs::GeneralPurpose::decoded_of))]
fn decode<'a>(word: &[u8], room: &'a mut [u8; CODED_ROOM]) -> Option<&'a [u8]>
    requires { length word.now ≤ CODED_LIMIT }
    ensures { option_copied result ≡ bytes_of_base64 word.now }
{
    let size = STANDARD.decode_slice_unchecked(word, room).ok()?;
    let (bytes, _) = room.split_at(size);
    Some(bytes)
}
