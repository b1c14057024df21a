//! The network part of a program: its listener, its clients, its operators, and the detection of clients that speak another protocol.
//!
//! [`bind`] makes a listener, at the [`first_address`] of a host; [`spelled_address`] is that of a text that needs no look-up. An
//! [`Acceptor`] is a listener and how many connections it has accepted. The poll with which it is [registered](Acceptor::register) reports
//! it, which is [recorded](Acceptor::note), and [`Acceptor::accept`] returns the connections, one by one. If the system gives none, a
//! [`Backlog`] says why. A [`Readiness`] keeps what the events of a socket say ([`Readiness::note`]). An [`Input`] is the reader over both: it asks
//! the system for no bytes that are known to be missing, also behind an urgent byte. [`step_after`] says what is done with a client whose pump ended, and a
//! [`Stopwatch`] how long a program has served. [`keep_alive`] and [`keep_alive_by`] make the system detect peers that vanished, and
//! [`reset`] gives a connection up. [`PIECE_LEN`] and [`KEPT_ROOM`] are limits shared by all programs on sockets.
//!
//! No call of these blocks except [`bind`] and [`first_address`], which look a name up. No contract says what a socket carries, or who
//! connects. The contracts say that an address is the first IPv4 one of those that a look-up found, and how many connections an acceptor
//! accepts. They say that an input drops and repeats no byte of its stream, what is done after a pump, and that a stopwatch never goes
//! back.
//!
//! # Clients
//!
//! This part admits clients, closes idle ones, and runs the rounds of a program's poll.
//!
//! [`serve_rounds`] is the loop of a server and of a proxy. It waits for the sockets, records who connects to the listener, lets in as many
//! clients as a round does, and leaves the rest to an implementation of [`LoopHandler`]. [`Clients`] are the [`Client`]s that were let in, with
//! the queue of those that are ready, and with how long each was idle. A [`Handler`] serves them: it admits a client, carries its bytes and
//! returns what is done with it next. [`poll_timeout`] returns how long a round waits, and a [`Report`] says what was done. A [`Room`] is how
//! many clients the open files of a program allow, and a [`Listed`] which clients are connected, at most [`LIST_LEN`] at a time.
//!
//! Clients are served in turn. An event makes a client ready ([`Clients::wake`]), and so does a budget that is used up ([`AfterPump::GoOn`]):
//! its key is behind all others in a [`ReadyQueue`], unless it is there already. [`Clients::serve_ready`] takes as many keys from the front as
//! there were when it began. It is proved of the queue that these are the keys that were there, in order, each once, whatever becomes ready
//! meanwhile ([`a_round_takes_what_was_there`], [`ReadyQueue::len`]). That each client of these keys is served, and that a
//! [`Clients::serve`] leaves a client that is ready to its turn, is seen by reading both.
//!
//! # Memory
//!
//! What is kept for all clients together has a limit ([`Buffers`]). A handler reports what it keeps for a client ([`Handler::held`]), and is given
//! what it may keep ([`Handler::serve`]): always [`CLIENT_SHARE`] bytes, and all that is free while nobody waits ([`Right`]). A client that needs
//! more is [`AfterPump::Short`]: it waits in a [`Shortage`] until it may keep as much, and is only sent its pending answers ([`Handler::send`]). Those that
//! wait go on in order, and meanwhile others only keep what they keep. One of those that wait may be ahead: it takes up to [`ROOM_AHEAD`]
//! bytes beyond the limit. At a sweep while clients wait, a [`Holding`] records which of those that keep more than their share make too little
//! progress: after some sweeps these are closed, and a line on standard error says so ([`Clients::tell`]).
//!
//! It is proved what a client may keep ([`Buffers::share`]), what that adds up to ([`shares_bound_what_is_kept`]), who is first in the queue, and
//! what a sweep records ([`Holding::sweep`]). That [`Clients`] makes these calls as it must is seen by reading.
//! [`shares_of_nothing`] and [`shares_of_much`] are examples.
//!
//! A client is served once its first bytes are known not to be a stranger's ([`opening_of`]). A stranger is closed, and a line on standard
//! error says so ([`Clients::tell`]). A handler makes its client one by [`AfterPump::TurnAway`].
//!
//! [`serve_rounds`] blocks, possibly for ever; of the other calls only those that print on standard error may. It is proved that they are
//! safe, and that each except [`serve_rounds`] ends.
//!
//! # Operators
//!
//! Operators are in the poll of a program that serves others.
//!
//! [`Operators`] are a listener of their own and at most [`MAX_OPERATORS`] connections. A program makes them register and accept before a
//! round ([`Operators::before`]), and records the events of their tokens ([`Operators::note`]). At the end of a round, if one [is
//! stirred](Operators::is_stirred), it answers them by its report ([`mc_admin::Sheet`], [`Operators::serve`]).
//!
//! No client waits for them: all that is done for operators in a second is a bounded number of steps ([`STEPS`]). A step is an accept, a
//! read, an answer or a write. The memory of a connection is bounded. A connection that has sent nothing, and taken nothing, for
//! [`PATIENCE`] seconds is closed, after [`QUIET`] seconds if another wants its place. One that got its last answer is read to its end, for
//! at most [`LINGER`] seconds.
//!
//! [`process_number`], [`wall_clock`] and [`resident_memory`] are what the system says of the process.
//!
//! No call of these blocks except [`Operators::new`], which looks a name up. A connection's answers are those of [`mc_admin::Talk`].
//!
//! # Strangers
//!
//! A stranger is a client that does not speak the text protocol: the first bytes of its connection say so.
//!
//! [`opening_of`] returns what the first bytes of a connection are ([`Opening`]): a stranger's ([`Stranger`]: HTTP, memcached's binary
//! protocol, TLS), the text protocol, or too few to know. A stranger's bytes are not read as the text protocol: a line of HTTP after the
//! first could be a command that nobody meant. `specs/Openings.antt` says exactly which bytes are whose.
//!
//! A request of HTTP by another method has no such beginning. Its program reads it, and closes the connection at the line of its host.
//!
//! [`what_is_settled_stays`], [`openings_are_settled`] and [`small_letters_are_text`] are laws. It plays no part where a stream is cut, and
//! after [`OPENING_LEN`] bytes its opening is known. A command in small letters has no opening of a stranger. [`openings_of_strangers`] and
//! [`openings_of_text`] are examples. None of them does anything, and none of these calls takes memory.
#![tactic(auto)]

mod acceptors;
mod after_pumps;
mod binding;
mod budgets;
mod buffer_laws;
mod buffers;
mod clients;
mod closings;
mod conns;
mod crowds;
mod handlers;
mod holdings;
mod inputs;
mod keeping;
mod limits;
mod openings;
mod operator_slots;
mod operators;
mod processes;
mod ready_queues;
mod reports;
mod resets;
mod rooms;
mod rounds;
mod shortages;
mod stopwatches;
mod stranger_laws;
mod strangers;

pub use acceptors::{Acceptor, Backlog};
pub use after_pumps::{AfterPump, step_after};
pub use binding::{bind, first_address, spelled_address};
pub use budgets::STEPS;
pub use buffer_laws::{shares_bound_what_is_kept, shares_of_much, shares_of_nothing};
pub use buffers::{Buffers, CLIENT_SHARE, ROOM_AHEAD, Right, UNCOUNTED};
pub use clients::Clients;
pub use conns::{Awaits, LIST_LEN, Listed};
pub use handlers::{Client, Handler};
pub use holdings::{Holding, LEAST_MOVED, MOVED_PART, SLOW_SWEEPS, WAITED_SWEEPS};
pub use inputs::{Input, Readiness};
pub use keeping::{CLIENT_KEEPALIVE, Keepalive, keep_alive, keep_alive_by};
pub use limits::{KEPT_ROOM, PIECE_LEN, SCARCE};
pub use openings::{OPENING_LEN, Opening, Stranger, opening_of};
pub use operator_slots::{LINGER, PATIENCE, QUIET};
pub use operators::{MAX_OPERATORS, Operators};
pub use processes::{process_number, resident_memory, wall_clock};
pub use ready_queues::{ReadyQueue, a_round_takes_what_was_there};
pub use reports::Report;
pub use resets::reset;
pub use rooms::Room;
pub use rounds::{LoopHandler, poll_timeout, serve_rounds};
pub use shortages::{Shortage, Standing};
pub use stopwatches::Stopwatch;
pub use stranger_laws::{
    openings_are_settled, openings_of_strangers, openings_of_text, small_letters_are_text,
    what_is_settled_stays,
};
