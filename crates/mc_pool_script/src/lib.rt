//! Scripts of events for a pool: read, checked, played and printed.
//!
//! [`is_of_pool`] distinguishes such a script from one of a server. [`read_pool_script`] reads a script's bytes as a [`PoolScript`];
//! [`PoolScript::ring`] is the ring that its pool begins with, and [`PoolScript::losses`] its choice for lost commands.
//! [`PoolScript::lines`] are its further lines, in order: an event of a world, a server that joins, is learned or restarts, a proxy that
//! restarts, or a drain ([`PoolLine`]).
//!
//! A script is lines of text. The first is `pool <servers> <clients> <budget> <items>`, with the number of proxies after it if there are
//! several; each proxy has that many clients. Lines `point <8 hexadecimal digits> <server>` straight after it give the ring's points, and one
//! line `losses told` or `losses missed` among these gives the choice for lost commands. Then each line is one event. The definitions in `specs/` say what each line means; worked examples are in `src/examples.rt`.
//! Lines, escapes and numbers are those of `mc_script`.
//!
//! # Played and printed
//!
//! [`text_of_pool_script`] goes from a script's bytes to its printed text: its contract is the main theorem, and holds of every input.
//! [`account_of_pool_script`] prints the account of the play after that, and [`steps_of_pool_script`] returns what each line did. A
//! caller that wants the parts calls [`played_script`] first. It plays a script that was read, and returns a world and what each line
//! did ([`Played`]). Then [`push_output_lines`] prints the bytes that were emitted to the clients, and [`push_account`] the account.
//!
//! Each server's cache keeps its items in a store of any kind that a script can be played over (`mc_script::ScriptStore`). The
//! definitions in `specs/`, over those of `mc_world`, say what a script's lines do to a world.
#![tactic(auto)]

mod addresses;
mod client_lines;
mod commands;
mod examples;
mod joins;
mod kinds;
mod lines;
mod losses;
mod outputs;
mod plays;
mod points;
mod printed;
mod reading;
mod scripts;
mod server_lines;
mod texts;
mod worlds;

pub use commands::Command;
pub use examples::{
    limits_of_heads, lines_of_clients, lines_of_drains, lines_of_joins, lines_of_joins_at_proxies,
    lines_of_links, lines_of_restarts, lines_of_servers, losses_of_scripts, points_of_servers,
};
pub use kinds::is_of_pool;
pub use lines::PoolLine;
pub use outputs::push_output_lines;
pub use plays::{Played, played_script};
pub use printed::push_account;
pub use scripts::{PoolScript, read_pool_script};
pub use texts::{account_of_pool_script, steps_of_pool_script, text_of_pool_script};
