//! Hashers of keys, and what makes them.
ghost use Rattle.std.specs.Prelude.{◌≡◌, ◌+◌, ◌≤◌, ◌<◌, length};
ghost use Rattle.mc_table.specs.Hashes as hashes;

use std::hash::{BuildHasher, Hasher};
use std::io;
use std::random::RandomSource;

/// Hashes bytes under three secret numbers: the state that it begins with, the factor, and the addend.
///
/// It takes eight bytes at a time, each by one product of 128 bits whose halves are joined ([`folded_product`]), then the
/// rest, and last the length. So texts of two lengths never give the same sequence of numbers.
#[derive(Clone, Copy)]
pub struct KeyHasher {
    state: u64,
    factor: u64,
    addend: u64,
}

impl Hasher for KeyHasher {
    ghost write = { hashes.write };

    ghost finish = { hashes.finish };

    fn finish(&self) -> u64 {
        self.state
    }

    fn write(&mut self, bytes: &[u8]) {
        let len = bytes.len();
        let mut state = self.state;
        let mut at = 0;
        while len - at >= 8 {
            state = folded_product(state ^ word_at(bytes, at), self.factor, self.addend);
            at += 8;
        }
        let last = folded_product(state ^ rest_from(bytes, at), self.factor, self.addend);
        self.state = folded_product(last ^ len as u64, self.factor, self.addend);
    }
}

/// Returns the two halves of a product's 128 bits, joined by exclusive or after the addend is added to the low half.
///
/// Without the addend the halves of a word and of its complement are often complements of each other, and so the hashes equal.
#[tactic(auto, unfolding(crate::specs::Hashes::folded_product))]
fn folded_product(word: u64, factor: u64, addend: u64) -> u64
    ensures { result ≡ hashes.folded_product word factor addend }
{
    let product = word as u128 * factor as u128;
    ((product & 0xFFFF_FFFF_FFFF_FFFF) as u64).wrapping_add(addend) ^ (product >> 64) as u64
}

/// Returns four bytes from an index on as a number, the lowest first.
#[tactic(auto, unfolding(crate::specs::Hashes::half_at))]
fn half_at(bytes: &[u8], at: usize) -> u64
    requires { at + 4 ≤ length bytes.now }
    ensures { result ≡ hashes.half_at bytes.now at }
{
    u32::from_le_bytes([bytes[at], bytes[at + 1], bytes[at + 2], bytes[at + 3]]) as u64
}

/// Returns eight bytes from an index on as a number, the lowest first.
#[tactic(auto, unfolding(crate::specs::Hashes::word_at))]
fn word_at(bytes: &[u8], at: usize) -> u64
    requires { at + 8 ≤ length bytes.now }
    ensures { result ≡ hashes.word_at bytes.now at }
{
    half_at(bytes, at) | half_at(bytes, at + 4) << 32
}

/// Returns the bytes from an index on, at most seven of them, as a number. Each of them counts at least once.
fn rest_from(bytes: &[u8], at: usize) -> u64
    requires { at ≤ length bytes.now }
    ensures { result ≡ hashes.rest_from bytes.now at }
{
    let len = bytes.len() - at;
    if len >= 4 {
        half_at(bytes, at) | half_at(bytes, bytes.len() - 4) << 32
    } else if len > 0 {
        bytes[at] as u64 | (bytes[at + len / 2] as u64) << 8 | (bytes[bytes.len() - 1] as u64) << 16
    } else {
        0
    }
}

/// Makes hashers that all have the same three secret numbers.
#[derive(Clone, Copy)]
pub struct SecretState {
    state: u64,
    factor: u64,
    addend: u64,
}

impl SecretState {
    /// Makes three secret numbers from the machine's source of random bytes. An error is that source's.
    pub fn new(rt: &impl RandomSource) -> io::Result<SecretState> {
        let mut bytes = [0; 24];
        let filled = rt.fill_bytes(&mut bytes);
        seeded(filled, &bytes)
    }
}

/// Makes the secret numbers from these bytes, if they were filled. Else it returns the error of filling them.
#[tactic(auto, unfolding(crate::specs::Hashes::seeded))]
fn seeded(filled: io::Result<()>, bytes: &[u8]) -> io::Result<SecretState>
    requires { 24 ≤ length bytes.now }
    ensures { result ≡ hashes.seeded bytes.now filled }
{
    filled?;
    Ok(SecretState {
        state: word_at(bytes, 0),
        factor: word_at(bytes, 8) | 1,
        addend: word_at(bytes, 16),
    })
}

impl BuildHasher for SecretState {
    type Hasher = KeyHasher;

    ghost build_hasher = { hashes.first_hasher };

    fn build_hasher(&self) -> KeyHasher {
        KeyHasher {
            state: self.state,
            factor: self.factor,
            addend: self.addend,
        }
    }
}
