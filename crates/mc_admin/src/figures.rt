//! Figures: numbers with names.

use crate::conns::Part;
use crate::names::Name;

/// The value of a name.
#[derive(Clone, Copy, Debug)]
pub enum Value<'a> {
    /// A number.
    Number(u64),
    /// The version of the protocol.
    Version,
    /// A word, which only settings have.
    Word(&'a [u8]),
}

/// A number with its name.
#[derive(Clone, Copy, Debug)]
pub struct Figure<'a> {
    /// Its name.
    pub name: Name,
    /// The address of the proxy's server that it is about; none for a figure of the program's own.
    pub server: Option<&'a [u8]>,
    /// The number.
    pub value: Value<'a>,
    /// Whether it is the first of its metric, which is then described in front of it.
    pub first: bool,
}

/// A setting with its name.
#[derive(Clone, Copy, Debug)]
pub struct Setting<'a> {
    /// Its name, as in memcached's `stats settings` if it is there.
    pub name: &'a [u8],
    /// Its value.
    pub value: Value<'a>,
}

/// What a program reports of itself to operators.
#[derive(Clone, Copy, Debug)]
pub struct Sheet<'a> {
    /// What `stats` lists and `/metrics` shows: figures of one metric are adjacent, and the first of them is marked.
    pub figures: &'a [Figure<'a>],
    /// What `stats settings` lists.
    pub settings: &'a [Setting<'a>],
    /// What `stats conns` lists next; none until an operator has asked.
    pub part: Option<Part<'a>>,
}
