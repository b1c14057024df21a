//! Parsers of the replies to meta commands.
ghost use Rattle.std.specs.Prelude.{◌≡◌, ◌<◌, ◌^◌, IfSome, Some, None, codes};
ghost use Rattle.mc_text.specs.Forms.{Or, Text, Number, number_if, or_if, read};
ghost use Rattle.mc_text.specs.FormsSeen.{seen_by};
ghost use Rattle.mc_reply.specs.Seen.{bytes_seen};
ghost use Rattle.mc_codec.specs.ReplyForms.{store_faults, count_faults, update_line};
ghost use Rattle.mc_codec.specs.MetaForms.{after_line, code_line, end_if, left_if, mark_end, meta_count_form, meta_delete_form, meta_form, meta_get_form, meta_store_form, read_if, shown_by, shown_form, unmet_form};

use crate::limits::{FLAGS_LIMIT, NUMBER_LIMIT};
use crate::lines::{Reading, count_fault, fault_line, line, store_fault};
use mc_reply::{Marks, Reply, Shown};
use mc_request::{Fault, MetaCommand, Show, Update};
use mc_text::{Key, Unready, VALUE_LIMIT, block, number, number_if, text};

/// Reads the reply to a meta command. A command without a meta form has no reply.
pub fn meta_reply<'a>(command: &MetaCommand<Key, ()>, unread: &'a [u8]) -> Reading<'a>
    ensures { seen_by (λ x. (bytes_seen x.0, x.1.now)) result ≡ read_if (meta_form command.now) unread.now }
{
    match command {
        MetaCommand::Get { get, .. } => meta_get_reply(get.create.is_some(), get.show, unread),
        MetaCommand::Update { update, show } => match update {
            Update::Store { .. } => meta_store_reply(*show, unread),
            Update::Delete { invalidate, .. } => meta_delete_reply(*invalidate, *show, unread),
            Update::Count { .. } => meta_count_reply(*show, unread),
            Update::Touch { .. } | Update::FlushAll { .. } => Err(Unready::Strange),
        },
    }
}

/// Reads the reply to `mg`.
fn meta_get_reply(creates: bool, show: Show, unread: &[u8]) -> Reading<'_>
    ensures { seen_by (λ x. (bytes_seen x.0, x.1.now)) result ≡ read (meta_get_form creates show) unread.now }
{
    or!(shown(true, show, unread), unfound(creates, unread))
}

/// Reads the reply to `mg` that shows no item.
fn unfound(creates: bool, unread: &[u8]) -> Reading<'_>
    ensures { seen_by (λ x. (bytes_seen x.0, x.1.now)) result
        ≡ read (or_if creates store_faults (code_line Reply.Miss)) unread.now }
{
    if !creates {
        return line(b"EN\r\n", Reply::Miss, unread);
    }
    or!(store_fault(unread), line(b"EN\r\n", Reply::Miss, unread))
}

/// Reads the reply to `ms`.
fn meta_store_reply(show: Show, unread: &[u8]) -> Reading<'_>
    ensures { seen_by (λ x. (bytes_seen x.0, x.1.now)) result ≡ read (meta_store_form show) unread.now }
{
    or!(shown(false, show, unread), unstored(unread))
}

/// Reads the reply to `ms` that stored nothing.
fn unstored(unread: &[u8]) -> Reading<'_>
    ensures { seen_by (λ x. (bytes_seen x.0, x.1.now)) result
        ≡ read (Or (code_line Reply.NotStored) (Or unmet_form store_faults)) unread.now }
{
    or!(
        line(b"NS\r\n", Reply::NotStored, unread),
        unmet(unread),
        store_fault(unread)
    )
}

/// Reads the line that says that the item has another number, or that the key is missing.
fn unmet(unread: &[u8]) -> Reading<'_>
    ensures { seen_by (λ x. (bytes_seen x.0, x.1.now)) result ≡ read unmet_form unread.now }
{
    or!(
        line(b"EX\r\n", Reply::Exists, unread),
        line(b"NF\r\n", Reply::NotFound, unread)
    )
}

/// Reads the reply to `md`.
fn meta_delete_reply(invalidate: bool, show: Show, unread: &[u8]) -> Reading<'_>
    ensures { seen_by (λ x. (bytes_seen x.0, x.1.now)) result ≡ read (meta_delete_form invalidate show) unread.now }
{
    or!(shown(false, show, unread), undeleted(invalidate, unread))
}

/// Reads the reply to `md` that deleted nothing and left nothing stale.
fn undeleted(invalidate: bool, unread: &[u8]) -> Reading<'_>
    ensures { seen_by (λ x. (bytes_seen x.0, x.1.now)) result
        ≡ read (or_if invalidate (update_line (Reply.Fault Fault.CasUsedUp)) unmet_form) unread.now }
{
    if !invalidate {
        return unmet(unread);
    }
    or!(fault_line(Fault::CasUsedUp, unread), unmet(unread))
}

/// Reads the reply to `ma`.
fn meta_count_reply(show: Show, unread: &[u8]) -> Reading<'_>
    ensures { seen_by (λ x. (bytes_seen x.0, x.1.now)) result ≡ read (meta_count_form show) unread.now }
{
    or!(shown(false, show, unread), uncounted(unread))
}

/// Reads the reply to `ma` that counted nothing.
fn uncounted(unread: &[u8]) -> Reading<'_>
    ensures { seen_by (λ x. (bytes_seen x.0, x.1.now)) result ≡ read (Or unmet_form count_faults) unread.now }
{
    or!(unmet(unread), count_fault(unread))
}

/// Reads what a meta command that succeeded shows.
fn shown(marked: bool, show: Show, unread: &[u8]) -> Reading<'_>
    ensures { seen_by (λ x. (bytes_seen x.0, x.1.now)) result ≡ read (shown_form marked show show.value) unread.now }
{
    if show.value {
        let rest = text(b"VA ", unread)?;
        let (size, rest) = number(VALUE_LIMIT as u64, rest)?;
        shown_by(marked, show, Some(size as u32), rest)
    } else {
        let rest = text(b"HD", unread)?;
        shown_by(marked, show, None, rest)
    }
}

/// Reads what the command asked to be shown, the end of the line, and the value if a size is given.
fn shown_by(marked: bool, show: Show, size: Option<u32>, unread: &[u8]) -> Reading<'_>
    ensures { seen_by (λ x. (bytes_seen x.0, x.1.now)) result ≡ read (shown_by marked show (after_line size)) unread.now }
{
    let (cas, rest) = number_if(show.cas, b" c", NUMBER_LIMIT, unread)?;
    let (flags, rest) = number_if(show.flags, b" f", FLAGS_LIMIT, rest)?;
    let shown = Shown {
        cas,
        flags: flags_of(flags),
        ..Shown::nothing()
    };
    size_if(marked, show, shown, size, rest)
}

/// Returns client flags, if any, in 32 bits.
fn flags_of(flags: Option<u64>) -> Option<u32>
    requires { IfSome flags (λ n. n < 2 ^ 32) }
    ensures { result ≡ flags }
{
    match flags {
        Some(flags) => Some(flags as u32),
        None => None,
    }
}

/// Reads the size, if it was asked for, and what follows it.
fn size_if(marked: bool, show: Show, shown: Shown, size: Option<u32>, unread: &[u8]) -> Reading<'_>
    ensures { seen_by (λ x. (bytes_seen x.0, x.1.now)) result
        ≡ read (number_if show.size (codes " s") VALUE_LIMIT (λ own. left_if show.left (λ left. end_if marked (λ marks.
        after_line size (record shown { size = own; left = left; marks = marks }))))) unread.now }
{
    let (own, rest) = number_if(show.size, b" s", VALUE_LIMIT as u64, unread)?;
    let shown = Shown {
        size: size_of(own),
        ..shown
    };
    left_if(show.left, marked, shown, size, rest)
}

/// Returns a size, if there is one.
fn size_of(size: Option<u64>) -> Option<usize>
    ensures { result ≡ size }
{
    match size {
        Some(size) => Some(size as usize),
        None => None,
    }
}

/// Reads the seconds left, if they were asked for, and what follows them.
fn left_if(asked: bool, marked: bool, shown: Shown, size: Option<u32>, unread: &[u8]) -> Reading<'_>
    ensures { seen_by (λ x. (bytes_seen x.0, x.1.now)) result
        ≡ read (left_if asked (λ left. end_if marked (λ marks. after_line size (record shown { left = left; marks = marks })))) unread.now }
{
    if !asked {
        let left = None;
        return end_if(marked, Shown { left, ..shown }, size, unread);
    }
    let rest = text(b" t", unread)?;
    or!(
        endless(marked, shown, size, rest),
        ending(marked, shown, size, rest)
    )
}

/// Reads, after the letter of the seconds, an item that never expires.
fn endless(marked: bool, shown: Shown, size: Option<u32>, unread: &[u8]) -> Reading<'_>
    ensures { seen_by (λ x. (bytes_seen x.0, x.1.now)) result
        ≡ read (Text (codes "-1") (end_if marked (λ marks. after_line size (record shown { left = Some None; marks = marks })))) unread.now }
{
    let rest = text(b"-1", unread)?;
    let left = Some(None);
    end_if(marked, Shown { left, ..shown }, size, rest)
}

/// Reads, after the letter of the seconds, an item that expires.
fn ending(marked: bool, shown: Shown, size: Option<u32>, unread: &[u8]) -> Reading<'_>
    ensures { seen_by (λ x. (bytes_seen x.0, x.1.now)) result
        ≡ read (Number NUMBER_LIMIT (λ n. end_if marked (λ marks. after_line size (record shown { left = Some (Some n); marks = marks })))) unread.now }
{
    let (seconds, rest) = number(NUMBER_LIMIT, unread)?;
    let left = Some(Some(seconds));
    end_if(marked, Shown { left, ..shown }, size, rest)
}

/// Reads the end of the line, after a mark if one is possible, and what follows it.
fn end_if(marked: bool, shown: Shown, size: Option<u32>, unread: &[u8]) -> Reading<'_>
    ensures { seen_by (λ x. (bytes_seen x.0, x.1.now)) result
        ≡ read (end_if marked (λ marks. after_line size (record shown { marks = marks }))) unread.now }
{
    match end_by(b"\r\n", Marks::Plain, shown, size, unread) {
        Err(Unready::Strange) if marked => mark_end(shown, size, unread),
        other => other,
    }
}

/// Reads a mark and the end of the line, and what follows it.
fn mark_end(shown: Shown, size: Option<u32>, unread: &[u8]) -> Reading<'_>
    ensures { seen_by (λ x. (bytes_seen x.0, x.1.now)) result
        ≡ read (mark_end (λ marks. after_line size (record shown { marks = marks }))) unread.now }
{
    or!(
        end_by(b" W\r\n", Marks::Won, shown, size, unread),
        end_by(b" W X\r\n", Marks::WonStale, shown, size, unread),
        end_by(b" X Z\r\n", Marks::StaleSent, shown, size, unread),
        end_by(b" Z\r\n", Marks::Sent, shown, size, unread)
    )
}

/// Reads the end of a line with these marks, and what follows it.
fn end_by<'a>(
    end: &[u8],
    marks: Marks,
    shown: Shown,
    size: Option<u32>,
    unread: &'a [u8],
) -> Reading<'a>
    ensures { seen_by (λ x. (bytes_seen x.0, x.1.now)) result
        ≡ read (Text end.now (after_line size (record shown { marks = marks }))) unread.now }
{
    let rest = text(end, unread)?;
    let shown = Shown { marks, ..shown };
    match size {
        None => Ok((Reply::Meta { shown, value: None }, rest)),
        Some(size) => {
            let (value, rest) = block(size, rest)?;
            let rest = text(b"\r\n", rest)?;
            let value = Some(value);
            Ok((Reply::Meta { shown, value }, rest))
        }
    }
}
