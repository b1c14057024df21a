//! Why bytes are no whole spelling.

/// Why there is no whole spelling at the front of some bytes.
#[derive(Clone, Copy, Debug, PartialEq, Eq)]
pub enum Unready {
    /// They are the beginning of a spelling, and stay no more than that until at least this many more bytes have arrived,
    /// whatever these are. The number is at least 1.
    More(usize),
    /// No spelling begins with these bytes, whatever follows.
    Strange,
}
