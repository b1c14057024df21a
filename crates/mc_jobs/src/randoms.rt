//! Random numbers from a seed.

/// Pseudorandom numbers, different for each seed (splitmix64).
#[derive(Clone, Copy)]
pub struct Random {
    state: u64,
}

impl Random {
    pub fn new(seed: u64) -> Random {
        Random {
            state: seed.wrapping_mul(0xD134_2543_DE82_EF95),
        }
    }

    /// The next number.
    pub fn next(&mut self) -> u64 {
        self.state = self.state.wrapping_add(0x9E37_79B9_7F4A_7C15);
        let word = (self.state ^ self.state >> 30).wrapping_mul(0xBF58_476D_1CE4_E5B9);
        let word = (word ^ word >> 27).wrapping_mul(0x94D0_49BB_1331_11EB);
        word ^ word >> 31
    }

    /// The next number, as one of `count` from 0 on, with `count` below 2^32.
    pub fn below(&mut self, count: u64) -> u64 {
        (self.next() >> 32).wrapping_mul(count) >> 32
    }

    /// True once in `count` times on average.
    pub fn one_in(&mut self, count: u64) -> bool {
        self.below(count) == 0
    }

    /// A rank, one of 2^`bits`, whose probability is about one part in it: Zipf's law.
    pub fn ranked(&mut self, bits: u32) -> u64 {
        let word = self.next();
        let size = 1u64 << (word & 0xFFFF_FFFF) % u64::from(bits.max(1)) % 64;
        size.wrapping_add(word >> 32 & size.wrapping_sub(1))
    }
}
