//! Kinds of stores.
ghost use Rattle.std.specs.Prelude.{◌≡◌};
ghost use Rattle.mc_sim.specs.Kinds.{kind_named};

/// The kind of store that servers keep their items in.
#[derive(Clone, Copy, Debug, PartialEq, Eq)]
pub enum StoreKind {
    /// A plain list.
    List,
    /// The cache of the crate `lru`.
    Lru,
    /// A table.
    Table,
}

/// The names of the kinds.
pub const KINDS: [&str; 3] = ["list", "lru", "table"];

/// The kind of this name. Any other name stands for `lru`.
pub fn kind_named(name: &str) -> StoreKind
    ensures { result ≡ kind_named name.now }
{
    if name == "list" {
        StoreKind::List
    } else if name == "table" {
        StoreKind::Table
    } else {
        StoreKind::Lru
    }
}
