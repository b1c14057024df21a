//! What a command line asks for. Its words are borrowed.
ghost use Rattle.std.specs.Prelude.{◌≡◌};
ghost use Rattle.mc_request.specs.Requests.{stored};
ghost use Rattle.mc_request.specs.LinesSeen.{asked_of, storing_of};

use crate::faults::Fault;
use crate::meta::{MetaCommand, MetaForm, Show};
use crate::parts::{Parsed, Update};
use mc_text::WordIter;

/// A borrowed request or fault: its keys and its data block are slices of the text that it was read from.
#[derive(Drop)]
pub enum RequestRef<'a> {
    /// `get` and `gets`, or with an exptime `gat` and `gats`, with the words that are its keys: at least one.
    Get {
        keys: WordIter<'a>,
        exptime: Option<i64>,
        with_cas: bool,
    },
    /// A command that may change what is stored. With `noreply` its reply line is hidden.
    Update {
        update: Update<&'a [u8], &'a [u8]>,
        noreply: bool,
    },
    /// `mg`, `ms`, `md` and `ma`, with the word of its key: the form says whether it is base64.
    Meta {
        command: MetaCommand<&'a [u8], &'a [u8]>,
        form: MetaForm<WordIter<'a>>,
    },
    /// `mn`.
    MetaNoop,
    /// `version`.
    Version,
    /// `quit`.
    Quit,
    /// A line, a data block or both that are no request.
    Faulty(Fault),
}

/// A storage command before its data block.
#[derive(Drop)]
pub enum PendingStore<'a> {
    /// `set`, `add`, `replace`, `append`, `prepend` and `cas`.
    Classic {
        update: Update<&'a [u8], ()>,
        noreply: bool,
    },
    /// `ms`, with the word of its key.
    Meta {
        update: Update<&'a [u8], ()>,
        show: Show,
        form: MetaForm<WordIter<'a>>,
    },
}

/// What a command line asks for.
#[derive(Drop)]
pub enum CommandLine<'a> {
    /// A request that no data block follows, or a fault: it is taken alone.
    Alone(RequestRef<'a>),
    /// A storage command, and the size in bytes of the data block that follows it.
    Stores(PendingStore<'a>, u32),
    /// A faulty line, and the size in bytes of its data block, which is swallowed.
    Refuses(Fault, u32),
}

impl<'a> PendingStore<'a> {
    /// Returns the storage command with its data block.
    pub fn with_block(self, block: &'a [u8]) -> RequestRef<'a>
        ensures { asked_of result ≡ Parsed.Whole (stored (storing_of self.entry) block.now) }
    {
        match self {
            PendingStore::Classic { update, noreply } => RequestRef::Update {
                update: update.with_block(block),
                noreply,
            },
            PendingStore::Meta { update, show, form } => RequestRef::Meta {
                command: MetaCommand::Update {
                    update: update.with_block(block),
                    show,
                },
                form,
            },
        }
    }
}
