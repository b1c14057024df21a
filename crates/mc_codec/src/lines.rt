//! Lines that are the same whatever is stored.
ghost use Rattle.std.specs.Prelude.{◌≡◌};
ghost use Rattle.mc_text.specs.Forms.{read};
ghost use Rattle.mc_text.specs.FormsSeen.{seen_by};
ghost use Rattle.mc_reply.specs.Seen.{bytes_seen};
ghost use Rattle.mc_codec.specs.ReplyForms.{line, update_line, store_faults, count_faults};

use mc_reply::Reply;
use mc_request::Fault;
use mc_text::{Unready, text};

/// A reply whose value is in the bytes, and the bytes after it.
pub type Reading<'a> = Result<(Reply<&'a [u8]>, &'a [u8]), Unready>;

/// Reads this line as this reply.
pub fn line<'a>(bytes: &[u8], reply: Reply<&'a [u8]>, unread: &'a [u8]) -> Reading<'a>
    ensures { seen_by (λ x. (bytes_seen x.0, x.1.now)) result ≡ read (line bytes.now (bytes_seen reply.entry)) unread.now }
{
    let rest = text(bytes, unread)?;
    Ok((reply, rest))
}

/// Reads the line of this error.
pub fn fault_line(fault: Fault, unread: &[u8]) -> Reading<'_>
    ensures { seen_by (λ x. (bytes_seen x.0, x.1.now)) result ≡ read (update_line (Reply.Fault fault)) unread.now }
{
    line(fault.line(), Reply::Fault(fault), unread)
}

/// Reads why a store is refused.
pub fn store_fault(unread: &[u8]) -> Reading<'_>
    ensures { seen_by (λ x. (bytes_seen x.0, x.1.now)) result ≡ read store_faults unread.now }
{
    or!(
        fault_line(Fault::TooLarge, unread),
        fault_line(Fault::CasUsedUp, unread),
        fault_line(Fault::OutOfMemory, unread)
    )
}

/// Reads why a count is refused.
pub fn count_fault(unread: &[u8]) -> Reading<'_>
    ensures { seen_by (λ x. (bytes_seen x.0, x.1.now)) result ≡ read count_faults unread.now }
{
    or!(fault_line(Fault::NonNumeric, unread), store_fault(unread))
}
