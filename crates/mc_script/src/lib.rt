//! Scripts of events for a server: read, checked, run and printed.
//!
//! [`text_of_script`] goes from a script's bytes to its printed text: its contract is the main theorem. A program calls it
//! between [`read_input`], which reads all bytes of a reader, and [`write_text`]. A caller that wants the parts calls
//! [`read_script`] first, which reads a [`Script`], and then [`push_client_line`], which prints what a client was sent.
//! [`push_escaped`] and [`read_escaped`] encode and decode the escapes of scripts and printed lines. Readers and printers of
//! other scripts find what they need here too: [`lines_of`], [`cut_at_space`], [`read_limit`], [`read_place`], [`read_moment`],
//! [`hex_value`] and [`push_named_line`].
//!
//! A script is lines of text: `server <connections> <budget> <items>`, then `bytes <connection> <text>` and
//! `turn <connection> <moment>`; connections have the numbers from 0 on. The definitions in `specs/` say what each means; worked examples are in
//! `src/examples.rt`.
#![tactic(auto)]

mod errors;
mod escape_tables;
mod escapes;
mod events;
mod examples;
mod input;
mod laws;
mod lines;
mod numbers;
mod outputs;
mod scripts;
mod stores;
mod texts;

pub use errors::{Side, SimError};
pub use escapes::{
    escaped_is_read_again, hex_value, push_client_line, push_escaped, push_named_line, read_escaped,
};
pub use events::{Script, ServerEvent};
pub use examples::{texts_by_connection, turns_that_find_one};
pub use input::read_input;
pub use laws::{one_output, only_output, some_output};
pub use lines::{LineIter, cut_at_space, lines_of};
pub use numbers::{read_limit, read_moment, read_place};
pub use scripts::read_script;
pub use stores::ScriptStore;
pub use texts::{text_of_script, write_text};
