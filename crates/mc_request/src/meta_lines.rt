//! Lines of meta commands.
ghost use Rattle.std.specs.Prelude.{◌≡◌, None, is_some, Err, if◌then◌else◌};
ghost use Rattle.mc_request.specs.Names.{at_least};
ghost use Rattle.mc_request.specs.Parts.{key_said, key_bytes};
ghost use Rattle.mc_request.specs.Meanings.{mg_line, ms_line, ms_storing, md_line, ma_line, form_by, second_len, meaning_from};
ghost use Rattle.mc_request.specs.LinesSeen.{storing_of, meaning_of};

use crate::faults::Fault;
use crate::flags::MetaFlags;
use crate::lines::{CommandLine, PendingStore, RequestRef};
use crate::meta::{MetaCommand, MetaForm};
use crate::names::Name;
use crate::parts::{StoreMode, Update};
use mc_text::{VALUE_LIMIT, WordIter, is_coded_key, is_plain_key, read_len};

/// Reads `mg <key> <flags>*`.
#[inline(never)]
pub fn mg_line(mut words: WordIter<'_>) -> CommandLine<'_>
    ensures { meaning_of result ≡ meaning_from None (if at_least 1 words.entry then mg_line words.entry else Err Fault.UnknownCommand) }
{
    let Some(key) = words.next() else {
        return CommandLine::Alone(RequestRef::Faulty(Fault::UnknownCommand));
    };
    let mut flags = MetaFlags::fresh();
    if let Err(fault) = flags.read_all(Name::MetaGet, words.again()) {
        return CommandLine::Alone(RequestRef::Faulty(fault));
    }
    if !is_key(flags.coded, key) {
        return CommandLine::Alone(RequestRef::Faulty(Fault::BadFormat));
    }
    CommandLine::Alone(RequestRef::Meta {
        command: MetaCommand::Get {
            key,
            get: flags.meta_get(),
        },
        form: form_by(&flags, words),
    })
}

/// Reads `md <key> <flags>*`.
#[inline(never)]
pub fn md_line(mut words: WordIter<'_>) -> CommandLine<'_>
    ensures { meaning_of result ≡ meaning_from None (if at_least 1 words.entry then md_line words.entry else Err Fault.UnknownCommand) }
{
    let Some(key) = words.next() else {
        return CommandLine::Alone(RequestRef::Faulty(Fault::UnknownCommand));
    };
    let mut flags = MetaFlags::fresh();
    if let Err(fault) = flags.read_all(Name::MetaDelete, words.again()) {
        return CommandLine::Alone(RequestRef::Faulty(fault));
    }
    if !is_key(flags.coded, key) {
        return CommandLine::Alone(RequestRef::Faulty(Fault::BadFormat));
    }
    CommandLine::Alone(RequestRef::Meta {
        command: MetaCommand::Update {
            update: Update::Delete {
                key,
                compare: flags.compare,
                invalidate: flags.invalidate,
            },
            show: flags.show,
        },
        form: form_by(&flags, words),
    })
}

/// Reads `ma <key> <flags>*`.
#[inline(never)]
pub fn ma_line(mut words: WordIter<'_>) -> CommandLine<'_>
    ensures { meaning_of result ≡ meaning_from None (if at_least 1 words.entry then ma_line words.entry else Err Fault.UnknownCommand) }
{
    let Some(key) = words.next() else {
        return CommandLine::Alone(RequestRef::Faulty(Fault::UnknownCommand));
    };
    let mut flags = MetaFlags::fresh();
    if let Err(fault) = flags.read_all(Name::MetaArithmetic, words.again()) {
        return CommandLine::Alone(RequestRef::Faulty(fault));
    }
    if !is_key(flags.coded, key) {
        return CommandLine::Alone(RequestRef::Faulty(Fault::BadFormat));
    }
    CommandLine::Alone(RequestRef::Meta {
        command: MetaCommand::Update {
            update: Update::Count {
                key,
                counting: flags.counting(),
            },
            show: flags.show,
        },
        form: form_by(&flags, words),
    })
}

/// Reads `ms <key> <bytes> <flags>*`.
#[inline(never)]
pub fn ms_line(mut words: WordIter<'_>) -> CommandLine<'_>
    ensures { meaning_of result ≡ meaning_from (second_len words.entry)
        (if at_least 2 words.entry then ms_line words.entry else Err Fault.UnknownCommand) }
{
    let (Some(key), Some(len)) = (words.next(), words.next()) else {
        return CommandLine::Alone(RequestRef::Faulty(Fault::UnknownCommand));
    };
    let Some(len) = read_len(len) else {
        return CommandLine::Alone(RequestRef::Faulty(Fault::BadFormat));
    };
    let mut flags = MetaFlags::fresh();
    if let Err(fault) = flags.read_all(Name::MetaSet, words.again()) {
        return CommandLine::Refuses(fault, len);
    }
    if !is_key(flags.coded, key) {
        return CommandLine::Refuses(Fault::BadFormat, len);
    }
    if len as usize > VALUE_LIMIT {
        return CommandLine::Refuses(Fault::TooLarge, len);
    }
    CommandLine::Stores(ms_storing(key, &flags, words), len)
}

/// Returns an `ms` before its data block, by its key, its flags and their words.
fn ms_storing<'a>(key: &'a [u8], flags: &MetaFlags, words: WordIter<'a>) -> PendingStore<'a>
    ensures { storing_of result ≡ ms_storing (key_bytes flags.now.coded key.now) flags.now words.entry }
{
    PendingStore::Meta {
        update: Update::Store {
            mode: flags.mode.unwrap_or(StoreMode::Set),
            compare: flags.compare,
            key,
            flags: flags.flags.unwrap_or(0),
            exptime: flags.exptime.unwrap_or(0),
            block: (),
        },
        show: flags.show,
        form: form_by(flags, words),
    }
}

/// Returns whether a word is a key, plain or in base64 as `coded` says.
fn is_key(coded: bool, word: &[u8]) -> bool
    ensures { result ≡ is_some (key_said coded word.now) }
{
    if coded {
        is_coded_key(word)
    } else {
        is_plain_key(word)
    }
}

/// Returns how the answer to these flags is written.
fn form_by<'a>(flags: &MetaFlags, words: WordIter<'a>) -> MetaForm<WordIter<'a>>
    ensures { result ≡ form_by flags.now words.entry }
{
    MetaForm {
        coded: flags.coded,
        quiet: flags.quiet,
        flags: words,
    }
}
