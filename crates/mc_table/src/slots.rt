//! Slots: entries with their links in the chains of a search table.

/// An entry, and its link in the chain of its bucket. The fields that a search reads are first, so that most
/// often they are in one cache line.
#[derive(Drop)]
pub struct Slot<K, V> {
    /// The lower 32 bits of the key's hash. The lowest of them are the number of the slot's bucket.
    pub tag: u32,
    /// The next lower place of the same bucket, or 0 if there is none.
    pub next: u32,
    /// The key.
    pub key: K,
    /// The value.
    pub value: V,
}
