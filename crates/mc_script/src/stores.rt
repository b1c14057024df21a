//! The stores that a script can be played over.
ghost use Rattle.std.specs.Prelude.{◌≡◌, ◌+◌, ◌<◌, ◌^◌, [], IfOk, IfSome, IsOkUnless};

use crate::errors::SimError;
use mc_store::{FixedHasher, ListStore, LruStore, Store, TableStore};
use std::alloc::Global;

/// A store that a script can be played over. A hasher's seed is fixed, so a script takes the same steps each time.
pub trait ScriptStore: Store + Drop {
    /// A store with no item, and room for `items` and one more.
    fn opened(alloc: Global, items: usize) -> Result<Self, SimError>
    where
        Self: Sized,
        requires { items + 1 < 2 ^ 64 }
        ensures empty { IfOk result (λ store. Self.items store ≡ []) }
        ensures room { IfOk result (λ store. IfSome (Self.most store) (λ most. items < most)) }
        ensures only_memory { IsOkUnless result SimError.Memory };
}

impl ScriptStore for ListStore {
    fn opened(alloc: Global, _items: usize) -> Result<ListStore, SimError> {
        Ok(ListStore::new(alloc))
    }
}

impl ScriptStore for LruStore<FixedHasher> {
    fn opened(alloc: Global, items: usize) -> Result<LruStore<FixedHasher>, SimError> {
        match LruStore::new(alloc, items) {
            Ok(store) => Ok(store),
            Err(_) => Err(SimError::Memory),
        }
    }
}

impl ScriptStore for TableStore<FixedHasher> {
    fn opened(alloc: Global, items: usize) -> Result<TableStore<FixedHasher>, SimError> {
        match TableStore::new(alloc, items) {
            Ok(store) => Ok(store),
            Err(_) => Err(SimError::Memory),
        }
    }
}
