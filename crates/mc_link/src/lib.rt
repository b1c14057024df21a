//! One link of a proxy to a server: it sends commands, and matches each reply to the command that it answers.
//!
//! A [`Link`] is made down ([`Link::new`]) and comes up by [`Link::back`], which raises its generation. While it is up,
//! [`Link::send`] sends a command: it appends the canonical spelling to the output, and the head to the pending commands.
//! A [`Tag`] says whose the command is. [`Link::send_store`] sends a storage command whose data block is borrowed, and
//! [`Link::make_room`] takes the memory for several commands at once. [`Link::output`] is the output to write;
//! [`Link::taken_out`] consumes what was written. [`Link::feed`] takes the server's bytes, in pieces of any size. A
//! [`Link::turn`] takes at most one reply, that of the oldest pending command. If the connection fails, [`Link::lose`]
//! returns the bytes that were not sent and the pending commands, and the link is down again. [`Link::shrink_if_idle`] frees
//! large empty buffers. [`Link::is_up`], [`Link::generation`], [`Link::waiting`] and [`Link::tag`] report its state.
//!
//! `specs/LinkState.antt` says what a link is, and `specs/Turns.antt` what a turn does. At each error of [`LinkError`]
//! nothing has changed.
#![tactic(auto)]

mod links;
mod turns;

pub use links::Link;
pub use turns::{LinkError, LinkTurn, LostLink, Tag};
