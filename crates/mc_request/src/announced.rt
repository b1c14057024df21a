//! The data block that a line announces.
ghost use Rattle.std.specs.Prelude.{◌≡◌};
ghost use Rattle.mc_text.specs.Words.{words};
ghost use Rattle.mc_request.specs.Meanings.{announced, announced_in, second_len, fourth_len};

use crate::names::{Name, name_of};
use mc_text::{WordIter, read_len, words};

/// Returns the length of the data block that a line announces, in bytes, however faulty the line is. It returns none
/// if the line announces no block, or if the length cannot be read. It reads no more of the line than that takes.
pub fn announced_in(content: &[u8]) -> Option<u32>
    ensures { result ≡ announced_in (words content.now) }
{
    let mut words = words(content);
    announced(name_of(words.next()?)?, words)
}

/// Returns the length by the name of the line's command and the words after that.
fn announced(name: Name, words: WordIter<'_>) -> Option<u32>
    ensures { result ≡ announced name words.entry }
{
    match name {
        Name::Set | Name::Add | Name::Replace | Name::Append | Name::Prepend | Name::Cas => {
            fourth_len(words)
        }
        Name::MetaSet => second_len(words),
        _ => None,
    }
}

/// Reads the length in the fourth word of a storage command.
fn fourth_len(mut words: WordIter<'_>) -> Option<u32>
    ensures { result ≡ fourth_len words.entry }
{
    words.next()?;
    words.next()?;
    words.next()?;
    read_len(words.next()?)
}

/// Reads the length in the second word of an `ms`.
fn second_len(mut words: WordIter<'_>) -> Option<u32>
    ensures { result ≡ second_len words.entry }
{
    words.next()?;
    read_len(words.next()?)
}
