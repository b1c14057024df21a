//! What is at the front of the bytes that have arrived.
ghost use Rattle.std.specs.Prelude.{◌≡◌, ◌≤◌, ◌<◌, ◌+◌, ◌-◌, ◌^◌, ◌++◌, ℕ, List, length, take, drop, true, None, Some, is_some, IfSome};
ghost use Rattle.mc_text.specs.Lines.{line_end};
ghost use Rattle.mc_text.specs.Words.{words};
ghost use Rattle.mc_request.specs.Meanings.{meaning};
ghost use Rattle.mc_request.specs.Requests.{with_block, stored, taken_by, next_request};
ghost use Rattle.mc_request.specs.declared.parts.Parsed.TheVariants.{Whole};
ghost use Rattle.mc_request.specs.LinesSeen.{meaning_of, storing_of, asked_of};
ghost use Rattle.mc_request_reader.specs.Steps.{IsSearched, ArrivalIs, IsSeen, StartsBy, lent_seen};
ghost use Rattle.mc_request.specs.WellFormed.{is_good_meaning, is_good_storing};
ghost use Rattle.mc_request_reader.specs.ApartFields.{IsLine, Announces, set_with};

use crate::peeks::{Front, LentGet, LentLine, Look, TakenSet};
use crate::searched::Searched;
use mc_request::{
    CommandLine, Fault, PendingStore, RequestRef, StoreMode, Update, announced_in, command_line,
    plain_get,
};
use mc_text::{Block, Key, LINE_LIMIT, Line, content_to};
use std::alloc::Global;

/// What is after a data block.
pub const LINE_END: &[u8] = b"\r\n";

/// What is at the front of the bytes that have arrived.
pub enum Arrival {
    /// The first request or fault is whole. Its line was searched this far.
    Whole(Searched),
    /// It is not whole. Its line was searched this far, and nothing is whole before `wanted` bytes. If `sure`, it is
    /// whole with these.
    Waits {
        searched: Searched,
        wanted: usize,
        sure: bool,
    },
    /// A block that is swallowed has not arrived whole: the fault is returned once this many bytes have arrived.
    Drops(Fault, usize),
}

/// Returns what is at the front of the bytes, which were searched this far.
pub fn arrival_of(unread: &[u8], searched: Searched) -> Arrival
    requires { IsSearched searched unread.now }
    ensures { ArrivalIs unread.now result }
{
    match searched.line(unread) {
        Line::Partial => Arrival::Waits {
            searched: Searched::Without(unread.len()),
            wanted: unread.len() + 1,
            sure: false,
        },
        Line::TooLong => Arrival::Whole(Searched::TooLong),
        Line::Whole { content, taken } => {
            if has_come(unread, content, taken) {
                Arrival::Whole(Searched::Ends(taken - 1))
            } else {
                arrival_after(unread, command_line(content), taken)
            }
        }
    }
}

/// Returns what is at the front, if the first line is whole and takes `taken` bytes, and its data block is not whole.
fn arrival_after(unread: &[u8], line: CommandLine<'_>, taken: usize) -> Arrival
    requires starts { StartsBy unread.now (meaning_of line) taken }
    requires line { line_end unread.now ≡ Some (taken - 1) }
    requires waits { next_request unread.now ≡ None }
    requires good { is_good_meaning (meaning_of line) ≡ true }
    ensures { ArrivalIs unread.now result }
{
    let searched = Searched::Ends(taken - 1);
    match line {
        CommandLine::Alone(_) => Arrival::Whole(searched),
        CommandLine::Refuses(fault, len) => Arrival::Drops(fault, size_with_block(taken, len)),
        CommandLine::Stores(_, len) => Arrival::Waits {
            searched,
            wanted: size_with_block(taken, len),
            sure: true,
        },
    }
}

/// Returns whether the first request or fault of the bytes is whole, which were searched this far. Of a line it reads
/// only what says whether a data block follows.
pub fn is_whole(unread: &[u8], searched: Searched) -> bool
    requires { IsSearched searched unread.now }
    ensures { result ≡ is_some (next_request unread.now) }
{
    match searched.line(unread) {
        Line::Partial => false,
        Line::TooLong => true,
        Line::Whole { content, taken } => has_come(unread, content, taken),
    }
}

/// Returns whether the first request or fault is whole, if the first line is whole and takes `taken` bytes.
fn has_come(unread: &[u8], content: &[u8], taken: usize) -> bool
    requires { StartsBy unread.now (meaning (words content.now)) taken }
    ensures { result ≡ is_some (next_request unread.now) }
{
    match announced_in(content) {
        Some(len) => unread.len() >= size_with_block(taken, len),
        None => true,
    }
}

/// Returns the size in bytes of a line with its data block and the line end after that.
fn size_with_block(line: usize, len: u32) -> usize
    requires { line < 2 ^ 63 }
    ensures { result ≡ line + (len + 2) }
{
    line + (len as usize + LINE_END.len())
}

/// Borrows the first request or fault of the bytes, which were searched this far, if it is whole. It also returns
/// how many bytes that takes. Nothing is copied.
pub fn first_asked(unread: &[u8], searched: Searched) -> Option<(RequestRef<'_>, usize)>
    requires { IsSearched searched unread.now }
    ensures { lent_seen result ≡ next_request unread.now }
{
    match searched.line(unread) {
        Line::Partial => None,
        Line::TooLong => Some((RequestRef::Faulty(Fault::LineTooLong), LINE_LIMIT)),
        Line::Whole { content, taken } => match plain_get(content) {
            Some((keys, with_cas)) => Some((
                RequestRef::Get {
                    keys,
                    exptime: None,
                    with_cas,
                },
                taken,
            )),
            None => asked_after(unread, command_line(content), taken),
        },
    }
}

/// Borrows the first request or fault, if the first line is whole and takes `taken` bytes.
fn asked_after<'a>(
    unread: &'a [u8],
    line: CommandLine<'a>,
    taken: usize,
) -> Option<(RequestRef<'a>, usize)>
    requires { StartsBy unread.now (meaning_of line) taken }
    ensures { lent_seen result ≡ next_request unread.now }
{
    match line {
        CommandLine::Alone(asked) => Some((asked, taken)),
        CommandLine::Refuses(fault, len) => {
            let size = size_with_block(taken, len);
            if unread.len() < size {
                None
            } else {
                Some((RequestRef::Faulty(fault), size))
            }
        }
        CommandLine::Stores(storing, len) => {
            let size = size_with_block(taken, len);
            if unread.len() < size {
                return None;
            }
            let (_, rest) = unread.split_at(taken);
            let (block, after) = rest.split_at(len as usize);
            let (end, _) = after.split_at(LINE_END.len());
            Some((with_block(storing, block, end), size))
        }
    }
}

/// Returns what a line asks for. The line is given whole, with its end.
fn line_by_itself(line: &[u8]) -> CommandLine<'_>
    requires { IsLine line.now }
    ensures starts { StartsBy line.now (meaning_of result) (length line.now) }
    ensures good { is_good_meaning (meaning_of result) ≡ true }
{
    command_line(content_to(line, line.len() - 1))
}

/// Borrows the first request or fault, if it is whole, of bytes in two parts: a line, and what has arrived after it. It also returns
/// how many bytes that takes. Nothing is copied.
pub fn asked_beside<'a>(line: &'a [u8], after: &'a [u8]) -> Option<(RequestRef<'a>, usize)>
    requires { IsLine line.now }
    ensures { lent_seen result ≡ next_request (line.now ++ after.now) }
{
    asked_by(line_by_itself(line), line.len(), after)
}

/// Borrows the first request or fault, by what its line asks for and how many bytes that line takes.
fn asked_by<'a>(
    line: CommandLine<'a>,
    taken: usize,
    after: &'a [u8],
) -> Option<(RequestRef<'a>, usize)>
    requires { taken < 2 ^ 63 }
    ensures { lent_seen result ≡ taken_by (meaning_of line.entry) taken after.now }
{
    match line {
        CommandLine::Alone(asked) => Some((asked, taken)),
        CommandLine::Refuses(fault, len) => {
            if after.len() < size_with_block(0, len) {
                None
            } else {
                Some((RequestRef::Faulty(fault), size_with_block(taken, len)))
            }
        }
        CommandLine::Stores(storing, len) => {
            if after.len() < size_with_block(0, len) {
                return None;
            }
            let (block, rest) = after.split_at(len as usize);
            let (end, _) = rest.split_at(LINE_END.len());
            Some((with_block(storing, block, end), size_with_block(taken, len)))
        }
    }
}

/// Returns how many bytes are wanted after a line that announces a data block of at least `least` bytes, with the line end after the block.
pub fn block_after(line: &[u8], least: usize) -> Option<usize>
    requires { IsLine line.now }
    ensures { IfSome result (λ wanted. Announces line.now wanted) }
{
    match line_by_itself(line) {
        CommandLine::Stores(_, len) if len as usize >= least => Some(size_with_block(0, len)),
        _ => None,
    }
}

/// Returns the plain `set` of a line, if its block and the line end after it are all that has arrived after the line, and there is
/// memory for its key. Its block is left out.
pub fn set_beside(alloc: Global, line: &[u8], after: &[u8]) -> Option<TakenSet>
    requires { IsLine line.now }
    ensures long { IfSome result (λ set. 2 ≤ length after.now) }
    ensures set { IfSome result (λ set. next_request (line.now ++ after.now)
        ≡ Some (set_with set (take (length after.now - 2) after.now), length (line.now ++ after.now))) }
{
    match line_by_itself(line) {
        CommandLine::Stores(storing, len) => set_by(alloc, storing, len, after),
        CommandLine::Alone(_) | CommandLine::Refuses(_, _) => None,
    }
}

/// Returns the plain `set` of a line by what the line asks for.
fn set_by(alloc: Global, storing: PendingStore<'_>, len: u32, after: &[u8]) -> Option<TakenSet>
    requires { is_good_storing (storing_of storing) ≡ true }
    ensures long { IfSome result (λ set. length after.now ≡ len + 2) }
    ensures set { IfSome result (λ set.
        with_block (storing_of storing.entry) (take len after.now) (take 2 (drop len after.now))
        ≡ set_with set (take len after.now)) }
{
    if after.len() != size_with_block(0, len) {
        return None;
    }
    let (_, rest) = after.split_at(len as usize);
    let (end, _) = rest.split_at(LINE_END.len());
    if end != LINE_END {
        return None;
    }
    plain_set(alloc, storing)
}

/// Returns a storage command without its block, if it is a plain `set` and there is memory for its key.
fn plain_set(alloc: Global, storing: PendingStore<'_>) -> Option<TakenSet>
    requires { is_good_storing (storing_of storing) ≡ true }
    ensures { IfSome result (λ set. (block : List ℕ) → Whole (stored (storing_of storing.entry) block) ≡ set_with set block) }
{
    let PendingStore::Classic { update, noreply } = storing else {
        return None;
    };
    match update {
        Update::Store {
            mode: StoreMode::Set,
            compare: None,
            key,
            flags,
            exptime,
            ..
        } => {
            let Ok(key) = Key::of_bytes(alloc, key) else {
                return None;
            };
            Some(TakenSet {
                key,
                flags,
                exptime,
                block: Block::new(alloc),
                noreply,
            })
        }
        _ => None,
    }
}

/// Returns a storage command and its data block, which has arrived, by the two bytes after it.
#[inline(always)]
fn with_block<'a>(storing: PendingStore<'a>, block: &'a [u8], end: &[u8]) -> RequestRef<'a>
    ensures { asked_of result ≡ with_block (storing_of storing.entry) block.now end.now }
{
    if end == LINE_END {
        storing.with_block(block)
    } else {
        RequestRef::Faulty(Fault::BadDataChunk)
    }
}

/// Looks at the first of the bytes, which were searched this far, if the end of their line is known. Of a line that does not begin with `g` it reads
/// its first byte and the byte before its line feed.
#[inline(always)]
pub fn first_look(unread: &[u8], searched: Searched) -> Look<'_>
    requires { IsSearched searched unread.now }
    ensures { IsSeen unread.now result }
{
    if !matches!(searched, Searched::Ends(_)) {
        return Look::Other;
    }
    match searched.line(unread) {
        Line::Whole {
            content,
            taken: size,
        } => {
            if unread.first() == Some(&b'g')
                && let Some((keys, with_cas)) = plain_get(content)
            {
                let front = Front {
                    size,
                    closes: false,
                };
                return Look::Get(LentGet {
                    keys,
                    with_cas,
                    front,
                });
            }
            Look::Line(LentLine { content, size })
        }
        Line::Partial | Line::TooLong => Look::Other,
    }
}
