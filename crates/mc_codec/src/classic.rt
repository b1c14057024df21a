//! Parsers of the replies to classic commands.
ghost use Rattle.std.specs.Prelude.{◌≡◌};
ghost use Rattle.mc_text.specs.Forms.{read, Or};
ghost use Rattle.mc_text.specs.FormsSeen.{seen_by};
ghost use Rattle.mc_reply.specs.Seen.{bytes_seen};
ghost use Rattle.mc_reply.specs.CanHave.{is_conditional};
ghost use Rattle.mc_codec.specs.ReplyForms.{update_line, get_form, hit, store_form, compared_form, count_form, number_line, count_faults, update_form};

use crate::limits::{FLAGS_LIMIT, NUMBER_LIMIT};
use crate::lines::{Reading, count_fault, line, store_fault};
use mc_reply::Reply;
use mc_request::{StoreMode, Update};
use mc_text::{Key, Unready, VALUE_LIMIT, block, number, number_if, text};

/// Reads the reply to a retrieval command on one key.
pub fn get_reply<'a>(key: &[u8], with_cas: bool, unread: &'a [u8]) -> Reading<'a>
    ensures { seen_by (λ x. (bytes_seen x.0, x.1.now)) result ≡ read (get_form key.now with_cas) unread.now }
{
    or!(
        hit(key, with_cas, unread),
        line(b"END\r\n", Reply::Miss, unread)
    )
}

/// Reads a hit under this key, and the end of the answer.
fn hit<'a>(key: &[u8], with_cas: bool, unread: &'a [u8]) -> Reading<'a>
    ensures { seen_by (λ x. (bytes_seen x.0, x.1.now)) result ≡ read (hit key.now with_cas) unread.now }
{
    let rest = text(b"VALUE ", unread)?;
    let rest = text(key, rest)?;
    let rest = text(b" ", rest)?;
    let (flags, rest) = number(FLAGS_LIMIT, rest)?;
    let rest = text(b" ", rest)?;
    let (size, rest) = number(VALUE_LIMIT as u64, rest)?;
    let (cas, rest) = number_if(with_cas, b" ", NUMBER_LIMIT, rest)?;
    let rest = text(b"\r\n", rest)?;
    let (value, rest) = block(size as u32, rest)?;
    let rest = text(b"\r\nEND\r\n", rest)?;
    Ok((
        Reply::Hit {
            flags: flags as u32,
            cas,
            value,
        },
        rest,
    ))
}

/// Reads the reply to an update.
pub fn update_reply<'a>(update: &Update<Key, ()>, unread: &'a [u8]) -> Reading<'a>
    ensures { seen_by (λ x. (bytes_seen x.0, x.1.now)) result ≡ read (update_form update.now) unread.now }
{
    match update {
        Update::Store { mode, compare, .. } => {
            store_reply(is_conditional(*mode), compare.is_some(), unread)
        }
        Update::Touch { .. } => touch_reply(unread),
        Update::Delete { .. } => delete_reply(unread),
        Update::Count { .. } => count_reply(unread),
        Update::FlushAll { .. } => line(b"OK\r\n", Reply::Flushed, unread),
    }
}

/// Returns whether a mode requires the key to be stored, or to be missing.
fn is_conditional(mode: StoreMode) -> bool
    ensures { result ≡ is_conditional mode }
{
    !matches!(mode, StoreMode::Set)
}

/// Reads the reply to a store.
fn store_reply(conditional: bool, compares: bool, unread: &[u8]) -> Reading<'_>
    ensures { seen_by (λ x. (bytes_seen x.0, x.1.now)) result ≡ read (store_form conditional compares) unread.now }
{
    match line(b"STORED\r\n", Reply::Stored, unread) {
        Err(Unready::Strange) if conditional => unstored(compares, unread),
        Err(Unready::Strange) => compared(compares, unread),
        other => other,
    }
}

/// Reads the reply to a store whose condition may not be met.
fn unstored(compares: bool, unread: &[u8]) -> Reading<'_>
    ensures { seen_by (λ x. (bytes_seen x.0, x.1.now)) result
        ≡ read (Or (update_line Reply.NotStored) (compared_form compares)) unread.now }
{
    or!(
        line(b"NOT_STORED\r\n", Reply::NotStored, unread),
        compared(compares, unread)
    )
}

/// Reads the reply to a store that stored nothing for another cause.
fn compared(compares: bool, unread: &[u8]) -> Reading<'_>
    ensures { seen_by (λ x. (bytes_seen x.0, x.1.now)) result ≡ read (compared_form compares) unread.now }
{
    if !compares {
        return store_fault(unread);
    }
    or!(unmet(unread), store_fault(unread))
}

/// Reads the reply to a store whose item has another number, or whose key is missing.
fn unmet(unread: &[u8]) -> Reading<'_>
    ensures { seen_by (λ x. (bytes_seen x.0, x.1.now)) result
        ≡ read (Or (update_line Reply.Exists) (update_line Reply.NotFound)) unread.now }
{
    or!(
        line(b"EXISTS\r\n", Reply::Exists, unread),
        not_found(unread)
    )
}

/// Reads the line that says that the key is missing.
fn not_found(unread: &[u8]) -> Reading<'_>
    ensures { seen_by (λ x. (bytes_seen x.0, x.1.now)) result ≡ read (update_line Reply.NotFound) unread.now }
{
    line(b"NOT_FOUND\r\n", Reply::NotFound, unread)
}

/// Reads the reply to `touch`.
fn touch_reply(unread: &[u8]) -> Reading<'_>
    ensures { seen_by (λ x. (bytes_seen x.0, x.1.now)) result
        ≡ read (Or (update_line Reply.Touched) (update_line Reply.NotFound)) unread.now }
{
    or!(
        line(b"TOUCHED\r\n", Reply::Touched, unread),
        not_found(unread)
    )
}

/// Reads the reply to `delete`.
fn delete_reply(unread: &[u8]) -> Reading<'_>
    ensures { seen_by (λ x. (bytes_seen x.0, x.1.now)) result
        ≡ read (Or (update_line Reply.Deleted) (update_line Reply.NotFound)) unread.now }
{
    or!(
        line(b"DELETED\r\n", Reply::Deleted, unread),
        not_found(unread)
    )
}

/// Reads the reply to a count.
fn count_reply(unread: &[u8]) -> Reading<'_>
    ensures { seen_by (λ x. (bytes_seen x.0, x.1.now)) result ≡ read count_form unread.now }
{
    or!(number_line(unread), uncounted(unread))
}

/// Reads the reply to a count that counted nothing.
fn uncounted(unread: &[u8]) -> Reading<'_>
    ensures { seen_by (λ x. (bytes_seen x.0, x.1.now)) result ≡ read (Or (update_line Reply.NotFound) count_faults) unread.now }
{
    or!(not_found(unread), count_fault(unread))
}

/// Reads a number and the end of its line.
fn number_line(unread: &[u8]) -> Reading<'_>
    ensures { seen_by (λ x. (bytes_seen x.0, x.1.now)) result ≡ read number_line unread.now }
{
    let (value, rest) = number(NUMBER_LIMIT, unread)?;
    let rest = text(b"\r\n", rest)?;
    Ok((Reply::Number(value), rest))
}
