//! Three containers: a table of entries in the order of their last use, the hasher of its keys, and a list of things under rising numbers.
//!
//! A [`Table`] finds an entry by its key's hash, and knows which one was used most recently. [`Table::put`] and [`Table::put_front`] insert an entry
//! in front. [`Table::find`] and [`Table::peek_mru`] read one, and [`Table::get_mut`] brings one to the front to change it. [`Table::pop_entry`],
//! [`Table::pop_mru`] and [`Table::pop_lru`] remove one, and [`Table::clear`] removes all. Contracts say what each call leaves by the entries, most
//! recent first, in std's words of a map and those of `specs/Tables.antt`. Most calls that look a key up take a slot hint ([`Hint`]). A caller
//! that looks the key up again has one from [`Table::find`], and a caller that will look several keys up gets theirs by prefetching them
//! ([`Table::prefetch`]).
//!
//! The entries are in one vector (`hash_indexes.rt`), and each is in the chain of its hash's bucket (`chains.rt`). The last entry takes the place of
//! a removed one. Their order is in links of its own (`lru_lists.rt`), so a use writes to three links and moves no entry. Only `put` and
//! `put_front` take memory, and only `clear` does work that grows with the entries.
//!
//! # Hashes of keys
//!
//! The hasher is keyed: a hash depends on secret random numbers.
//!
//! [`SecretState`] makes a [`KeyHasher`] for each key. The two are like `std::hash::RandomState` and its hasher, but faster for keys of some
//! tens of bytes. With both, which keys collide depends on random numbers that an attacker does not know.
//!
//! ## How strong it is
//!
//! It is a fast keyed hash, at the level of foldhash and wyhash. For keys that were chosen without knowing the secret numbers, no family of
//! keys is known that collides more often than chance would have it. In models of it with small words, counted whole, no difference between two
//! words makes their hashes equal much more often than any other (`tests/gate/hashes.py`).
//!
//! It is no cipher, and weaker than SipHash: its secret numbers could be computed from hashes, so no hash may be shown. No proof speaks of
//! chosen keys. Proved is that a hash is what `specs/Hashes.antt` defines, and, of a private function, that each secret number is made of bytes
//! of its own. That these are random is trusted.
//!
//! # By number
//!
//! A [`Numbered`] gives each thing that is pushed a number that none had before ([`Numbered::push`]), the first of them 0. By that number a
//! thing is read ([`Numbered::get`]), changed ([`Numbered::get_mut`]) and removed ([`Numbered::remove`]). A look-up first tries the index of
//! the last change, and then a binary search.
//!
//! `specs/Entries.antt` defines what is under a number, and what a change and a removal leave. Only `push` takes memory.
#![tactic(auto)]

mod chains;
mod hash_indexes;
mod hints;
mod key_hashers;
mod lru_lists;
mod lru_nodes;
mod numbered;
mod slots;
mod tables;

// A crate can name a table in a contract only if the types of its fields are exported.
#[doc(hidden)]
pub use hash_indexes::HashIndex;
pub use hints::Hint;
pub use key_hashers::{KeyHasher, SecretState};
#[doc(hidden)]
pub use lru_lists::LruList;
#[doc(hidden)]
pub use lru_nodes::LruNode;
pub use numbered::Numbered;
#[doc(hidden)]
pub use slots::Slot;
pub use tables::Table;
