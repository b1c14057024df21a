//! The protocol between a proxy and a server: it encodes the commands that a proxy sends, and parses the replies that it receives.
//!
//! # Replies
//!
//! A [`ReplyReader`] is fed the bytes of a connection, in pieces of any size ([`ReplyReader::feed`]). [`ReplyReader::next`]
//! returns the reply to a pending command, given that command's head: a [`mc_request::Head`] is the command without its data
//! block. A [`NextReply`] is one of three: the reply; that more bytes are needed, and at least how many are; or a protocol
//! violation (`Strange`). A violation is no beginning of a reply that the command can have. [`ReplyReader::unread`] returns how
//! many bytes belong to no returned reply, and [`ReplyReader::held`] how many are kept. [`ReplyReader::shrink_if_idle`] frees the
//! memory that an idle reader has reserved.
//!
//! `specs/NextReply.antt` says what `next` returns, by the spellings of replies (`mc_reply`'s `spelling_of`) and the replies that
//! a command can have (`can_have`); it has no grammar. A violation is found at its first wrong byte, since up to there the bytes
//! are the beginning of a reply. The laws say that a reply is never two at once ([`replies_are_apart`]), that at first any may
//! begin ([`nothing_is_a_beginning`]), and that none is spelled by no bytes ([`spellings_are_not_empty`]). `specs/ReplyForms.antt`
//! and `specs/MetaForms.antt` have the forms of replies; the parser follows them, and the contract is proved by them.
//!
//! Two calls take memory: `feed`, and `next` for a value, which it copies once, when the whole value has arrived. All others take
//! none and cannot fail. The other functions are worked examples: they do nothing.
//!
//! # Spellings
//!
//! A command has one canonical spelling: the text that a proxy sends to a server for it. [`write_atom`] appends it, and
//! [`spelled_len`] returns its length. [`write_store`] and [`store_len`] do so for a storage command whose data block is borrowed
//! ([`LentStore`]). A spelling is the command's line, in words with a space between any two, and the data block after it. A meta
//! command's key is sent in base64; the server is asked to return neither the key nor an opaque.
//!
//! `specs/Spellings.antt` says which text it is (`spelling_of_atom`), which request a server reads it as (`request_of`), and which
//! commands have one (`is_good_atom`): each that a client's request stands for ([`commands_of_texts_can_be_spelled`]). The laws
//! say that a spelling is read as that command and no other, whatever follows it ([`spelled_commands_are_read`],
//! [`spelled_command_is_one`], [`quit_after_commands_is_read`]). No spelling begins another ([`spellings_are_apart`]), and a
//! server answers a spelling by the canonical spelling of its reply ([`canonical_answers`]). The head of a command decides which
//! replies it can have, and how they are spelled ([`heads_tell_of_replies`]).
//!
//! `write_atom` and `write_store` take memory if the vector has no room, and append nothing if there is none.
#![tactic(auto)]

/// The first of some readings that is no violation, or the last if each is one.
macro_rules! or {
    ($reading:expr) => { $reading };
    ($reading:expr, $($others:expr),+) => {
        match $reading {
            Err(mc_text::Unready::Strange) => or!($($others),+),
            other => other,
        }
    };
}

mod classic;
mod examples;
mod laws;
mod lent_stores;
mod limits;
mod lines;
mod meta;
mod next_replies;
mod reader;
mod replies;
mod spelled_lines;
mod spelled_metas;
mod spelled_words;
mod spelling_laws;
mod spellings;

pub use examples::{
    another_key, bare_line_feed, block_is_waited_for, block_too_long, error_to_a_get, leading_zero,
    number_too_large, seconds_not_asked_for, size_too_large,
};
pub use laws::{nothing_is_a_beginning, replies_are_apart, spellings_are_not_empty};
pub use lent_stores::{LentStore, store_len, write_store};
pub use limits::{FLAGS_LIMIT, NUMBER_LIMIT};
pub use next_replies::NextReply;
pub use reader::ReplyReader;
pub use spelling_laws::{
    canonical_answers, commands_of_texts_can_be_spelled, heads_tell_of_replies,
    quit_after_commands_is_read, spelled_command_is_one, spelled_commands_are_read,
    spellings_are_apart,
};
pub use spellings::{spelled_len, write_atom};
