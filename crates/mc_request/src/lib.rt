//! Requests: what one line of a client asks for, with its data block.
//!
//! [`command_line`] reads a line, whose words it borrows. It returns a [`RequestRef`], a [`PendingStore`] that a data block follows, or a fault
//! whose data block is swallowed. [`announced_in`] returns only the length of a line's data block. [`RequestRef::taken`] copies the borrowed
//! bytes into a [`Request`] or fault of its own. A borrowed meta command has its key as a word, plain or in base64 ([`key_bytes`],
//! [`Update::said`]), and its flag words as they are in the line ([`MetaForm`]). [`flag_of`] returns the flag of a letter.
//! [`Request::atoms`] returns the commands of a request, each an [`Atom`]. [`Atom::into_head`] makes it a [`Head`]: what a reader of
//! its reply must know. [`Request::hides`] is what a request hides of its answer, and [`Fault::line`] the error line of a fault.
//!
//! `specs/Meanings.antt` defines what a line asks for by its words, and `specs/Requests.antt` what the requests of a text are.
//! The reader that returns these, however the text arrives, is in the crate `mc_request_reader`. The spelling of a command, the
//! one text that a proxy sends for it, is in `mc_codec`.
//!
//! Calls that take memory: `atoms`, those of `Keys` that make room or append a key, and those that copy borrowed bytes. All
//! others take none, and cannot fail.
#![tactic(auto)]

mod announced;
mod command_lines;
mod examples;
mod faults;
mod flags;
mod heads;
mod hides;
mod keys;
mod lines;
mod lone_lines;
mod meta;
mod meta_examples;
mod meta_lines;
mod names;
mod owned;
mod parts;
mod storage_lines;

pub use announced::announced_in;
pub use command_lines::{command_line, plain_get};
pub use examples::{
    counts, deletions, flushes, noreply_at_the_end, refused_blocks, several_keys, storage_modes,
    unknown_lines,
};
pub use faults::Fault;
pub use flags::{Flag, OPAQUE_LIMIT, flag_of};
pub use heads::Head;
pub use hides::Hides;
pub use keys::Keys;
pub use lines::{CommandLine, PendingStore, RequestRef};
pub use meta::{Counting, Creation, FlagWords, MetaCommand, MetaForm, MetaGet, Show, key_bytes};
pub use meta_examples::{
    coded_keys, faults_in_order, flags_are_once, flags_of_each_command, meta_commands, meta_sets,
    modes, opaques, tokens_of_each_flag,
};
pub use owned::keys_of;
pub use parts::{Atom, Direction, Parsed, ReadError, Request, StoreMode, Update};
