//! The reader of requests: what the bytes of a connection ask for, in whatever pieces they arrive.
//!
//! A [`Reader`] is fed the bytes of a connection in any pieces ([`Reader::feed`]), and returns their requests and faults in order
//! ([`Reader::next`]). [`Reader::peek`] and [`Reader::consume`] are the two halves of `next`. `peek` borrows what is first: its keys and its
//! block are slices of the reader's buffer. `consume` consumes it. [`Reader::ready`] returns whether a whole one has arrived, and
//! [`Reader::held`] how many bytes are buffered. [`Reader::look`] is faster than `peek`: it shows a good `get`, or another line without what it
//! asks for, or that nothing is whole. [`Reader::unread`] returns the bytes. An [`ApartReader`] is a reader for callers that keep large data
//! blocks: it moves out the block of a large `set` ([`ApartReader::take_set`]). [`names_host`] returns whether a text begins with a header of an
//! HTTP request. The crate `mc_request` reads one line: `peek` returns its `RequestRef`, and `next` its `Request` or `Fault`.
//!
//! A reader stands for a function: from the text still to arrive to the requests and faults that it will return. `feed`, `next` and `consume` are
//! proved to keep that function, so how the text is cut never matters: see `specs/Reader.antt` for the function, and `specs/Requests.antt` of
//! `mc_request` for the requests of a text. Its laws are here ([`requests_begin`], [`requests_go_on`], [`requests_are_well_formed`],
//! [`requests_are_no_more_than_bytes`]).
//!
//! Calls that take memory: `feed`, `next`, `read_from` and `take_set`. Without memory `take_set` returns none, and `read_from` reads nothing. All
//! others take none, and cannot fail.
#![tactic(auto)]

mod apart;
mod apart_reader;
mod examples;
mod hosts;
mod incoming;
mod laws;
mod peeks;
mod reader;
mod searched;
mod steps;
mod unread;

pub use apart_reader::ApartReader;
pub use examples::{
    block_takes_too_much, meta_block_is_swallowed, quit_ends_the_text, refused_block_is_swallowed,
    set_then_get,
};
pub use hosts::names_host;
pub use laws::{
    requests_are_no_more_than_bytes, requests_are_well_formed, requests_begin, requests_go_on,
};
pub use peeks::{Front, LentGet, LentLine, Look, Peek, REQUEST_LIMIT, TakenSet};
pub use reader::{Next, Reader};
