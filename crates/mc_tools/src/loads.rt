//! The bytes that a client sends.
ghost use Rattle.std.specs.Prelude.{◌≡◌, ◌++◌, codes, decimal, IfOk};

use mc_text::VALUE_LIMIT;
use std::alloc::{AllocError, Global};

/// The bytes that a client sends: a head, a number of bytes `x`, and a tail. The bytes `x` are made
/// piece by piece.
#[derive(Drop)]
pub struct Load {
    /// Its description in words.
    pub name: String,
    pub head: Vec<u8>,
    pub fill: u64,
    pub tail: Vec<u8>,
}

impl Load {
    /// `count` sets of five bytes, under sixteen keys.
    pub fn small_sets(alloc: Global, count: u64) -> Result<Load, AllocError> {
        Ok(Load {
            name: format!(in alloc; "{count} small sets")?,
            head: sets(alloc, "k", 16, count)?,
            fill: 0,
            tail: Vec::new(alloc),
        })
    }

    /// Sets of `count` values of five bytes, and one get of all their keys.
    pub fn get_of_keys(alloc: Global, count: u64) -> Result<Load, AllocError> {
        let mut tail = Vec::from_slice(alloc, b"get")?;
        for number in 0..count {
            let key = format!(in alloc; " key{number}")?;
            tail.extend_from_slice(key.as_bytes())?;
        }
        tail.extend_from_slice(b"\r\n")?;
        Ok(Load {
            name: format!(in alloc; "{count} sets and a get of their keys")?,
            head: sets(alloc, "key", count, count)?,
            fill: 0,
            tail,
        })
    }

    /// One request, and then another, `count` times.
    pub fn repeated(
        alloc: Global,
        what: &str,
        first: &[u8],
        then: &[u8],
        count: u64,
    ) -> Result<Load, AllocError> {
        let mut head = Vec::from_slice(alloc, first)?;
        head.extend_from_slice(&then.repeat(alloc, count as usize)?)?;
        Ok(Load {
            name: format!(in alloc; "{count} {what}")?,
            head,
            fill: 0,
            tail: Vec::new(alloc),
        })
    }

    /// A set of one block of `size` bytes. It is refused if it has more bytes than a value may have.
    pub fn block(alloc: Global, size: u64) -> Result<Load, AllocError>
        ensures line { IfOk result (λ load. load.head.items ≡ codes "set a 0 0 " ++ decimal size ++ codes "\r\n") }
        ensures block { IfOk result (λ load. load.fill ≡ size) }
        ensures end { IfOk result (λ load. load.tail.items ≡ codes "\r\n") }
    {
        let line = format!(in alloc; "set a 0 0 {size}\r\n")?;
        let kind = if size > VALUE_LIMIT as u64 {
            "refused block"
        } else {
            "block"
        };
        Ok(Load {
            name: format!(in alloc; "a {kind} of {size} bytes")?,
            head: Vec::from_slice(alloc, line.as_bytes())?,
            fill: size,
            tail: Vec::from_slice(alloc, b"\r\n")?,
        })
    }
}

/// `count` sets of five bytes, under this number of keys in turn, with this name.
fn sets(alloc: Global, name: &str, keys: u64, count: u64) -> Result<Vec<u8>, AllocError> {
    let mut sets = Vec::new(alloc);
    for number in 0..count {
        let set = format!(in alloc; "set {name}{} 0 0 5\r\nhello\r\n", number % keys.max(1))?;
        sets.extend_from_slice(set.as_bytes())?;
    }
    Ok(sets)
}
