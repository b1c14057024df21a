//! The way of a proxy to a server.

/// The way of a proxy to a server: its link as the server has it.
#[derive(Clone, Copy, Debug, PartialEq, Eq)]
pub struct Way {
    /// The generation that lives, or lived last: 0 if the link has not been up.
    pub generation: u64,
    /// The number of its connection at the server.
    pub connection: u64,
    /// How many commands of the living generation the server took whose replies the proxy has not taken.
    pub ahead: usize,
}

/// A link that has not been up.
pub(crate) const NO_WAY: Way = Way {
    generation: 0,
    connection: 0,
    ahead: 0,
};
