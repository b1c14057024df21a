//! The nodes of a list of places.

/// The places before and after a place, in a ring of places.
#[derive(Clone, Copy)]
pub struct LruNode {
    /// The place before it.
    pub before: u32,
    /// The place after it.
    pub after: u32,
}
