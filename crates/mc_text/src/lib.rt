//! The text of memcached's protocol: lines, words, numbers, keys, data blocks, forms (sequences of these) and addresses.
//!
//! A caller meets the calls in this order. [`next_line`] cuts a line from the bytes that have arrived. [`words`] returns its words, and
//! [`without_spaces`] only skips the spaces in front of one. [`read_u64`], [`read_i64`], [`read_len`] and [`read_flags`] read a word as a
//! number. [`Key::plain`] makes a key of a word, and [`Key::of_bytes`] if the bytes are known to be a key. [`Key::coded`] makes a key of
//! a word in base64. [`read_coded`] decodes such a word into the caller's room, [`is_coded_key`] only says whether it is a key, and
//! [`write_coded`] encodes a key. [`KeyBytes`] queries a map of keys by bytes: a look-up makes no key. [`Block`] is the bytes of a data
//! block. [`consume_front`] and [`drain_front`] are for buffers that are consumed from the front. [`shrink_if_idle`] is for a buffer that is not
//! needed for a while, and [`append`] for one that has room.
//!
//! Each call returns exactly what the definition of its name in `specs/` says of the bytes. Spaces, line ends and key bytes are searched
//! [`LANES`] at a time, if there are as many. Only what makes a key or a block takes memory. [`coded_keys_have_one_word`] is a law, and
//! functions such as [`keys_by_their_bytes`] are worked examples: they do nothing.
//!
//! # Forms
//!
//! A form says what can be spelled, field by field, and how that is read.
//!
//! A form (`specs/Forms.antt`) is a text, a number, a block of a given size, or one of two forms. After it is the form of what follows. Each
//! field may depend on the ones before: a block's size is the number that was read. A form defines three things: which values its fields can
//! have (`Path`), how these are spelled (`word`) and what they stand for (`meant`). `read` reads it from bytes that arrive in pieces. It
//! returns what was meant and the bytes after it, or says that more bytes must arrive, or that no spelling begins with these bytes.
//!
//! The law of forms (`proofs/FormLaws.antt`, `is_read`): if a form is clear, exactly what is spelled is read. It is read whole as soon as
//! its spelling has arrived. The reading is More while the bytes are the beginning of a spelling, and Strange from the first byte on with
//! which no spelling goes on. A form is clear under three conditions: what follows a number does not begin with a digit, something
//! follows each block, and no spelling of one of two forms begins one of the other. `proofs/LeadLemmas.antt` decides that by computing.
//! `proofs/CoverLaws.antt` states the law for spellings that are defined by other means, and that a form covers.
//!
//! In code a form is a function that calls one function per field, in the form's order, with a `?` after each: [`text`], [`number`],
//! [`number_if`] and [`block`]. Of two forms, the second is read if the first is [`Unready::Strange`]. Each function returns exactly what
//! the definition of its name says. None takes memory.
//!
//! # Addresses
//!
//! An address is a text that says where to reach a server. [`is_address`] returns whether a text is one: a host, a colon and a port,
//! exactly as `specs/Addresses.antt` defines it. [`is_host`] returns whether it is a host alone. Neither resolves a name, nor takes memory.
#![tactic(auto)]

mod addresses;
mod appends;
mod blocks;
mod byte_tests;
mod coded_keys;
mod examples;
mod fields;
mod fronts;
mod key_bytes;
mod keys;
mod laws;
mod lines;
mod numbers;
mod places;
mod unready;
mod word_iter;

pub use addresses::{HOST_LIMIT, is_address, is_host};
pub use appends::append;
pub use blocks::{Block, VALUE_LIMIT};
pub use coded_keys::{CODED_LIMIT, CODED_ROOM, is_coded_key, read_coded, write_coded};
pub use examples::{
    coded_keys_by_their_words, keys_by_their_bytes, lines_by_their_ends, numbers_within_limits,
    words_between_spaces,
};
pub use fields::{block, number, number_if, text};
pub use fronts::{consume_front, drain_front, shrink_if_idle};
pub use key_bytes::KeyBytes;
pub use keys::{KEY_LIMIT, Key, KeyError, are_plain_keys, is_plain_key};
pub use laws::coded_keys_have_one_word;
pub use lines::{LINE_LIMIT, Line, content_to, next_line, next_line_from};
pub use numbers::{read_flags, read_i64, read_len, read_u64};
pub use places::LANES;
pub use unready::Unready;
pub use word_iter::{WordIter, without_spaces, words};
