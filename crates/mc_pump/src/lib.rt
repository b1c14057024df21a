//! The pump of a connection: it carries bytes between a server and the two sides of a stream, and serves the requests that arrive whole.
//!
//! A caller calls [`pump`] again while it returns [`Pumped::Again`], and after [`Pumped::Blocked`] when the stream is ready. The contract of `pump`
//! is the law of one connection, from the bytes that a reader gave to the bytes that a writer took. [`MAX_ROUNDS`], [`UNSENT_MARK`] and [`QUANTUM`]
//! are its limits: whatever the stream has, a pump ends with `Again` once its turns have cost a quantum of work. The stream is any reader and any
//! writer: this crate knows no socket. [`pump_gathering`] does what `pump` does, for a writer that takes the parts of an answer in one call: of a
//! large value it copies only what the writer leaves. One call of a side of a stream is
//! [`mc_stream::write_once`] or [`mc_stream::read_once`]. A [`Watch`] limits the size of an answer, and what a connection may keep:
//! a pump that needs more says what it [`Want`]s. It counts requests, bytes, and the stores that
//! were refused for lack of memory.
//!
//! `specs/Stretches.antt` defines what a stretch of a connection does to a server, and `mc_stream`'s `specs/Sides.antt` what the two sides of a stream
//! carry. `specs/Pumps.antt` defines what a pump does between the two, and `specs/Counts.antt` how its watch counts what it served.
//! `specs/Work.antt` defines what its turns cost. Two laws do nothing: a server that is as a history leaves it is after a stretch as the longer history
//! leaves it ([`servers_hold_after_a_stretch`]), and all requests of a pump except the last cost less than its quantum ([`all_but_the_last_cost_less`]).
#![tactic(auto)]

mod gathering;
mod laws;
mod limits;
mod pumps;
mod rounds;
mod watches;

pub use gathering::pump_gathering;
pub use laws::{all_but_the_last_cost_less, servers_hold_after_a_stretch};
pub use limits::{QUANTUM, SMALL_ANSWER, UNSENT_MARK};
pub use mc_stream::{MAX_ROUNDS, Pumped};
pub use pumps::{pump, pump_output};
pub use watches::{Want, Watch};
