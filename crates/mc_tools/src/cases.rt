//! The cases, at full size.

use crate::loads::Load;
use mc_text::VALUE_LIMIT;
use std::alloc::{AllocError, Global};

/// The bytes that a client sends, and the size of their pieces.
#[derive(Clone, Copy)]
pub struct Case {
    pub kind: Kind,
    /// The number of commands or keys, or the bytes of the block.
    pub size: u64,
    /// The bytes of a piece.
    pub piece: usize,
    /// Whether the caller asks before each turn, and turns only if the server is ready. Otherwise it lets the server
    /// take turns after each piece until one finds nothing to take.
    pub asks_first: bool,
}

#[derive(Clone, Copy)]
pub enum Kind {
    /// Sets under sixteen keys.
    SmallSets,
    /// Sets of one stored key.
    SetsOfOneKey,
    Block,
    /// A block of more bytes than a value has.
    RefusedBlock,
    /// Gets of one stored key.
    Gets,
    /// Increments of one stored number.
    Increments,
    /// One get of many stored keys.
    GetOfKeys,
    /// `mg` of one stored key, which shows its value.
    MetaGets,
    /// `ms` of one stored key.
    MetaSets,
    /// Quiet `mg` of a missing key.
    QuietMisses,
}

/// Each case by its kind, size and piece, and whether the caller asks first.
pub const CASES: [(Kind, u64, usize, bool); 15] = [
    (Kind::SmallSets, 100_000, 1, false),
    (Kind::SmallSets, 100_000, 7, false),
    (Kind::SmallSets, 100_000, 4_096, false),
    (Kind::SmallSets, 100_000, 65_536, false),
    (Kind::Block, 1_048_576, 1, false),
    (Kind::Block, 1_048_576, 65_536, false),
    (Kind::RefusedBlock, 100_000_000, 65_536, false),
    (Kind::Gets, 100_000, 65_536, false),
    (Kind::Increments, 100_000, 65_536, false),
    (Kind::SmallSets, 100_000, 7, true),
    (Kind::RefusedBlock, 100_000_000, 65_536, true),
    (Kind::GetOfKeys, 1_000, 65_536, false),
    (Kind::MetaGets, 100_000, 65_536, false),
    (Kind::MetaSets, 100_000, 65_536, false),
    (Kind::QuietMisses, 100_000, 65_536, false),
];

impl Kind {
    /// The kind that a word names.
    pub fn named(word: &str) -> Option<Kind> {
        match word {
            "sets" => Some(Kind::SmallSets),
            "set" => Some(Kind::SetsOfOneKey),
            "block" => Some(Kind::Block),
            "refused" => Some(Kind::RefusedBlock),
            "get" => Some(Kind::Gets),
            "incr" => Some(Kind::Increments),
            "keys" => Some(Kind::GetOfKeys),
            "mg" => Some(Kind::MetaGets),
            "ms" => Some(Kind::MetaSets),
            "mq" => Some(Kind::QuietMisses),
            _ => None,
        }
    }
}

/// A set of a value of five bytes.
const SET: &[u8] = b"set a 0 0 5\r\nhello\r\n";

impl Case {
    /// The bytes that the client sends, at one of `parts` parts of the size. A refused block keeps the least size that
    /// is refused.
    pub fn load(&self, alloc: Global, parts: u64) -> Result<Load, AllocError> {
        let size = self.size / parts.max(1);
        let (what, first, then): (&str, &[u8], &[u8]) = match self.kind {
            Kind::SmallSets => return Load::small_sets(alloc, size),
            Kind::Block => return Load::block(alloc, size),
            Kind::RefusedBlock => return Load::block(alloc, size.max(VALUE_LIMIT as u64 + 1)),
            Kind::GetOfKeys => return Load::get_of_keys(alloc, size.max(1)),
            Kind::SetsOfOneKey => ("sets of one key", SET, SET),
            Kind::Gets => ("gets", SET, b"get a\r\n"),
            Kind::Increments => ("increments", b"set a 0 0 1\r\n0\r\n", b"incr a 1\r\n"),
            Kind::MetaGets => ("meta gets", SET, b"mg a v\r\n"),
            Kind::MetaSets => ("meta sets", SET, b"ms a 5\r\nhello\r\n"),
            Kind::QuietMisses => ("quiet misses", SET, b"mg b v q\r\n"),
        };
        Load::repeated(alloc, what, first, then, size)
    }
}
