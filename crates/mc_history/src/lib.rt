//! What servers make of the commands that a proxy sends them: histories by the tags of commands, and what one generation of a link carries.
//!
//! A history is a list of [`Entry`]: a command that a server took, with its tag, its moment and its answer. `specs/Histories.antt` says
//! when a history is legal, and `specs/Made.antt` what a server made on each of its connections. `specs/Generations.antt` is about a link
//! that is up and the connection at its other end. [`generations_carry`] is the law of one generation: the server reads exactly the
//! commands that were sent, in order, and the bytes that come back spell its replies to them. By [`refusals_are_told_by_their_line`] the
//! bytes of an answer say whether memory was refused.
#![tactic(auto)]

mod entries;
mod laws;

pub use entries::Entry;
pub use laws::{generations_carry, refusals_are_told_by_their_line};
