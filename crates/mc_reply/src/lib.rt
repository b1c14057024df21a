//! Replies, and the answers to clients.
//!
//! A cache answers each command by a [`Reply`]. The answer to a retrieval command is what its keys add ([`write_key`]), and then the end ([`write_end`]).
//! [`write_head`] writes what a key adds in front of its value. The answer to an update is the line of its reply ([`write_line`]), if that is not hidden
//! ([`Reply::is_hidden`], by what the request hides; [`shown`] returns it for a whole request). The answer to a meta command has what its flag words ask for
//! ([`write_meta`]), if it is not hidden. `mn` and `version` have lines of their own ([`write_noop`], [`write_version`]). The answer to a text that is no
//! request is the line of its fault ([`write_fault`]). A caller that keeps the request beside its replies appends what each adds by [`write_part`], for which
//! [`part_room`] is room enough. Each of these appends to bytes that are still to be sent, or gives up and appends nothing. [`key_of`] returns the bytes of a
//! meta command's key, and [`value_len`] how many bytes of a value a reply shows.
//!
//! `specs/Spelling.antt` defines how a reply to one command is spelled (`spelling_of`) and what a client is answered (`answer_of`). `specs/MetaSpelling.antt`
//! does so for a meta command by its flag words (`meta_line`), and `specs/Parts.antt` defines what one reply adds to an answer (`part_of`).
#![tactic(auto)]

mod answers;
mod appends;
mod examples;
mod flag_appends;
mod laws;
mod meta_appends;
mod meta_examples;
mod replies;

pub use answers::{
    FLAGS_ROOM, KEY_ROOM, LINE_ROOM, META_ROOM, PART_ROOM, ReplyError, key_of, part_room, shown,
    value_len, write_end, write_fault, write_head, write_key, write_line, write_meta, write_noop,
    write_part, write_version,
};
pub use examples::{
    error_line, flush_of_two_servers, gats_of_a_hit, get_of_a_hit, get_of_a_miss, get_of_many_keys,
    noreply_hides_lines, update_lines, version_and_quit,
};
pub use laws::{faults_are_shown, flags_of_requests_fit, one_reply_is_spelled, parts_in_order};
pub use meta_examples::{
    flags_as_asked, keys_as_asked, marks_are_last, noop, quiet_answers, what_was_not_done,
};
pub use replies::{Marks, Reply, Shown};
