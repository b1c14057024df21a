//! The non-blocking calls on the two sides of a stream, for the pumps of clients and links: [`write_once`], [`read_once`], and
//! [`Gather::gather`], which writes three parts that are apart. [`read_result`] interprets a read that another caller made. An [`IoStats`]
//! counts requests, and bytes read and written.
//!
//! A pump carries bytes between a stream and what is behind it. It is made of these calls, at most [`MAX_ROUNDS`] rounds a call, and
//! returns by [`Pumped`] how it left the stream. The stream is any reader and any writer: this crate knows no socket, and nothing of
//! what is behind the stream. `specs/Sides.antt` defines what the two sides carry.
#![tactic(auto)]

mod gathers;
mod io_stats;
mod limits;
mod outcomes;
mod sides;

pub use gathers::{Gather, NoWriter};
pub use io_stats::IoStats;
pub use limits::MAX_ROUNDS;
pub use outcomes::Pumped;
pub use sides::{read_once, read_result, write_once};
