//! The fields of a form, read from the front of the bytes.
ghost use Rattle.std.specs.Prelude.{◌≡◌, ◌+◌, ◌*◌, ◌<◌, ◌≤◌, ◌&&◌, nat_lt, nat_le, IfOk, IfSome, Some, None, if◌then◌else◌};
ghost use Rattle.mc_text.specs.Forms.{text_at, digits_at, number_at, block_at};
ghost use Rattle.mc_text.specs.FormsSeen.{seen_by, number_if_at};

use crate::unready::Unready;

/// Returns the bytes after this text.
#[inline(always)]
pub fn text<'a>(text: &[u8], unread: &'a [u8]) -> Result<&'a [u8], Unready>
    ensures { seen_by (λ rest. rest.now) result ≡ text_at text.now unread.now }
{
    match unread.strip_prefix(text) {
        Some(rest) => Ok(rest),
        None => {
            if text.starts_with(unread) {
                Err(Unready::More(1))
            } else {
                Err(Unready::Strange)
            }
        }
    }
}

/// Returns a number of at most `most` without a leading zero, and the bytes after it. The number ends at a byte
/// that is no digit, which must have arrived.
#[tactic(auto, unfolding(crate::specs::Forms::number_at))]
pub fn number(most: u64, unread: &[u8]) -> Result<(u64, &[u8]), Unready>
    ensures read { seen_by (λ x. (x.0, x.1.now)) result ≡ number_at most unread.now }
    ensures bound { IfOk result (λ x. x.0 ≤ most) }
{
    let [first, rest @ ..] = unread else {
        return Err(Unready::More(1));
    };
    if !first.is_ascii_digit() || u64::from(*first - b'0') > most {
        return Err(Unready::Strange);
    }
    digits(most, u64::from(*first - b'0'), rest)
}

/// Reads the rest of a number whose digits so far have the value `begun`.
#[tactic(auto, unfolding(crate::specs::Forms::digits_at))]
fn digits(most: u64, begun: u64, unread: &[u8]) -> Result<(u64, &[u8]), Unready>
    requires { begun ≤ most }
    ensures read { seen_by (λ x. (x.0, x.1.now)) result ≡ digits_at most begun unread.now }
    ensures bound { IfOk result (λ x. x.0 ≤ most) }
{
    let mut value = begun;
    for at in 0..unread.len() {
        let byte = unread[at];
        if !byte.is_ascii_digit() {
            let (_, rest) = unread.split_at(at);
            return Ok((value, rest));
        }
        value = with_digit(most, value, u64::from(byte - b'0')).ok_or(Unready::Strange)?;
    }
    Err(Unready::More(1))
}

/// Returns a number with one digit more, if the number is not 0 and the result is at most `most`.
fn with_digit(most: u64, value: u64, digit: u64) -> Option<u64>
    requires { digit < 10 }
    ensures { result ≡ (if nat_lt 0 value && nat_le (10 * value + digit) most then Some (10 * value + digit) else None) }
{
    if value == 0 || digit > most || value > (most - digit) / 10 {
        None
    } else {
        Some(10 * value + digit)
    }
}

/// Returns `size` bytes, and the bytes after them, of which at least one has arrived.
#[tactic(auto, unfolding(crate::specs::Forms::block_at))]
pub fn block(size: u32, unread: &[u8]) -> Result<(&[u8], &[u8]), Unready>
    ensures { seen_by (λ x. (x.0.now, x.1.now)) result ≡ block_at size unread.now }
{
    let size = size as usize;
    if size < unread.len() {
        Ok(unread.split_at(size))
    } else {
        Err(Unready::More(size - unread.len() + 1))
    }
}

/// Returns a number after a text, if it was asked for, and the bytes after it.
pub fn number_if<'a>(
    asked: bool,
    before: &[u8],
    most: u64,
    unread: &'a [u8],
) -> Result<(Option<u64>, &'a [u8]), Unready>
    ensures read { seen_by (λ x. (x.0, x.1.now)) result ≡ number_if_at asked before.now most unread.now }
    ensures bound { IfOk result (λ x. IfSome x.0 (λ n. n ≤ most)) }
{
    if asked {
        let rest = text(before, unread)?;
        let (value, rest) = number(most, rest)?;
        Ok((Some(value), rest))
    } else {
        Ok((None, unread))
    }
}
