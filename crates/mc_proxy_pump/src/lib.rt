//! The pumps of a proxy's streams: they carry bytes between a proxy and the two sides of a client's stream, or of a server's.
//!
//! A caller calls [`pump_client`] and [`pump_link`] again after [`Pumped::Again`], and after [`Pumped::Blocked`] once the stream or
//! the proxy makes progress. The streams are any reader and any writer: no socket is known here. [`MAX_ROUNDS`] and [`UNSENT_MARK`]
//! are their limits, and [`QUANTUM`] bounds the work of a pump of a client, whatever its stream brings. What may be kept for the client is bounded
//! by `most` of its tally ([`kept_for`]). A pump of a link returns which
//! sessions got replies, so that each of them is pumped once for all replies of a read, and its answers are sent together.
//! [`pump_answers`] sends a session its answers and takes no request, and [`has_pending`] returns whether a session has a pending request
//! or an unsent answer. A [`ClientTally`] counts the clients' requests and bytes, and the requests whose answers hide a loss. It
//! reports a client whose requests name a host, which is no client of a cache.
//!
//! A pump does nothing to its proxy but calls for its own session, or for its own link, in sequence. `specs/Calls.antt` and
//! `specs/LinkCalls.antt` have these calls, with the bytes that each received and sent, and `specs/Work.antt` their work.
//! `specs/Clients.antt` and `specs/Links.antt` say what a pump carries, and how it leaves its session or its link.
//! [`proxies_hold_after_a_client`] and [`proxies_hold_after_a_link`] are laws, and do nothing: after such calls a proxy's account
//! holds, grown by those bytes.
#![tactic(auto)]

mod clients;
mod laws;
mod limits;
mod links;
mod rooms;
mod tallies;

pub use clients::{has_pending, pump_answers, pump_client};
pub use laws::{proxies_hold_after_a_client, proxies_hold_after_a_link};
pub use limits::{QUANTUM, WORK_BYTES};
pub use links::pump_link;
pub use mc_proxy::UNSENT_MARK;
pub use mc_stream::{MAX_ROUNDS, Pumped};
pub use rooms::{kept_for, readable};
pub use tallies::ClientTally;
