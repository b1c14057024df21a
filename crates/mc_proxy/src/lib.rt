//! A proxy: it takes clients' requests, one session for each client, and has one link to each server.
//!
//! A [`Proxy`] is made over a ring ([`Proxy::new`]), with a link to each of its servers, all of them down at first. A link that is up again
//! ([`Proxy::back`]) takes commands, until it is lost ([`Proxy::lost`]). The site chooses the answer to a request whose command was lost
//! ([`Losses`], [`Proxy::with_losses`]), once for all clients of a proxy.
//!
//! A session is admitted under a number that none had before ([`Proxy::admit`]). It is fed the client's bytes, in pieces of any size
//! ([`Proxy::feed`]), and takes a request a turn ([`Proxy::turn`]). Each of the request's commands goes to the link of its key's owner; if
//! that link is down, the command is lost at once. When the outcome of each command is known, the oldest request is answered
//! ([`Proxy::emit`]), and the caller sends the answer ([`Proxy::output`], [`Proxy::taken_out`]). When the client disconnects, the session is
//! dropped ([`Proxy::gone`]), and so are the replies to its pending commands.
//!
//! A link's output is [`Proxy::link_output`], consumed by [`Proxy::link_taken_out`]. [`Proxy::link_feed`] takes the server's bytes, and a
//! turn of the link ([`Proxy::link_turn`]) matches a reply to the oldest pending command. A protocol violation loses the link. A lost
//! command is never sent again. [`Proxy::ready`] returns whether a session has something to take. [`Proxy::waits_for`] returns whether its
//! next request needs a link, and so whether to call it when that link has room again, or is lost.
//! [`Proxy::commands`] returns how many commands its newest request has, and [`Proxy::is_foreign`] whether its next line names a host.
//!
//! [`Proxy::reserved`] returns how much memory a session's buffers take, and [`Proxy::held`] how much is kept for its unanswered requests. Emitting
//! an answer copies what is kept for it ([`Proxy::held_by_oldest`]). [`Proxy::next_commands`] returns how many commands its next request has.
//!
//! `specs/Turns.antt` says what a turn does, `specs/LinkTurns.antt` what a turn of a link and its loss do, and `specs/Emits.antt` how an
//! answer is emitted. A step that leaves its session and the links as they were changes nothing ([`steps_that_change_nothing_are_still`]).
//! No call blocks.
//!
//! # Sessions
//!
//! A session holds one client's requests, over links to servers.
//!
//! A [`Session`] is fed the client's bytes, in pieces of any size ([`Session::feed`]), and takes a request a turn ([`Session::turn`]). Each
//! of the request's commands goes to the link of its key's owner, under a tag that says whose it is. If that link is down, the command is
//! lost at once. The commands pass through a queue that the caller keeps, empty between turns. A storage command of a classic line does not:
//! its data block goes to its link at once. [`Session::note`] records the outcome of a command under its tag. When the outcome of each
//! command of the oldest unanswered request is known, its answer is emitted ([`Session::emit`]). The answer follows the choice for lost
//! commands that its turn was given ([`mc_route::Losses`]). The caller sends it ([`Session::output`], [`Session::taken_out`]). So answers
//! are in the order of the requests, in whatever order replies arrive. [`Session::unanswered`], [`Session::is_finished`], [`Session::ready`]
//! and [`Session::waits_for`] report its state, and [`Session::shrink_if_idle`] frees large empty buffers.
//!
//! A turn waits if a mark is reached: [`MAX_UNANSWERED`], [`UNSENT_MARK`] or [`LINK_MARK`]. `specs/SessionState.antt` says what a session
//! is, `specs/SessionTurns.antt` what a turn does, `specs/Sending.antt` how commands are sent, and `specs/SessionNoting.antt` and
//! `specs/Emits.antt` how they are answered. At an error nothing has changed.
#![tactic(auto)]

mod errors;
mod examples;
mod held;
mod laws;
mod limits;
mod linked;
mod proxies;
mod sending;
mod session_errors;
mod session_limits;
mod session_turns;
mod sessions;
mod stores;
mod turns;
mod unanswered;

pub use errors::ProxyError;
pub use examples::lost_store_before_a_get;
pub use held::{COMMAND_ROOM, PENDING_ROOM, REQUEST_ROOM};
pub use laws::steps_that_change_nothing_are_still;
pub use limits::MAX_SESSIONS;
pub use mc_route::Losses;
pub use proxies::Proxy;
pub use session_errors::SessionError;
pub use session_limits::{LINK_MARK, MAX_UNANSWERED, UNSENT_MARK};
pub use session_turns::{Emit, SessionTurn};
pub use sessions::Session;
pub use turns::LinkStep;
