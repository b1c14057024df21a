//! A reserve of memory, for when the system gives none.
ghost use Rattle.std.specs.Prelude.{IsOkUnless};

use crate::turns::ServerError;
use std::alloc::Global;

/// The bytes of a part of a reserve: few enough that the allocator serves the part, and the allocations for which it is freed,
/// from the same memory.
const PART: usize = 65_536;

/// Memory that is kept for when the system gives none.
#[derive(Drop)]
pub struct Reserve {
    /// Its parts, of which none holds a byte.
    parts: Vec<Vec<u8>>,
}

impl Reserve {
    /// Makes a reserve without memory.
    pub fn none(alloc: Global) -> Self {
        Reserve {
            parts: Vec::new(alloc),
        }
    }

    /// Takes memory until the reserve has this many bytes in whole parts. At an error it has what it got.
    pub fn fill(&mut self, alloc: Global, bytes: usize) -> Result<(), ServerError>
        ensures { IsOkUnless result ServerError.Memory }
    {
        for _ in self.parts.len()..bytes / PART {
            let mut part = Vec::new(alloc);
            part.reserve(PART)?;
            self.parts.push(part)?;
        }
        Ok(())
    }

    /// Returns whether the reserve has this many bytes, in whole parts.
    pub fn holds(&self, bytes: usize) -> bool {
        self.parts.len() >= bytes / PART
    }

    /// Frees its memory, and returns whether there was some.
    #[inline(never)]
    pub fn release(&mut self) -> bool {
        let had_some = !self.parts.is_empty();
        self.parts.clear();
        had_some
    }
}
