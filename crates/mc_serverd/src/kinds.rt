//! Kinds of stores that a server can be over.
ghost use Rattle.std.specs.Prelude.{◌≡◌};
ghost use Rattle.mc_serverd.specs.Kinds.{kind_named};

/// The container in which a server keeps its items.
#[derive(Clone, Copy, Debug, PartialEq, Eq)]
pub enum StoreKind {
    /// Our own table, whose keys [`mc_table::KeyHasher`] hashes.
    Table,
    /// lru's cache, whose keys the standard library's `RandomState` hashes.
    Lru,
}

/// The names of the kinds. The first is the default.
pub const KINDS: [&str; 2] = ["table", "lru"];

/// Returns the kind of this name. That of any other name is the table.
pub fn kind_named(name: &str) -> StoreKind
    ensures { result ≡ kind_named name.now }
{
    if name == "lru" {
        StoreKind::Lru
    } else {
        StoreKind::Table
    }
}
