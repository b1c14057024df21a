//! A cache with ample memory, whose caller passes it keys and blocks of its own.

use mc_cache::Cache;
use mc_item::CasCounter;
use mc_reply::{Marks, Reply, Shown};
use mc_request::{
    Atom, Counting, Creation, Direction, MetaCommand, MetaGet, Show, StoreMode, Update,
};
use mc_store::{ListStore, Store};
use mc_text::{Block, Key, KeyError};
use std::alloc::{AllocError, Global};
use std::test::Fail;

/// A store under `a` with flags of 5.
fn store(alloc: Global, mode: StoreMode, block: &[u8]) -> Result<Update<Key, Block>, AllocError> {
    Ok(Update::Store {
        mode,
        compare: None,
        key: Key::of_bytes(alloc, b"a")?,
        flags: 5,
        exptime: 0,
        block: Block::from_slice(alloc, block)?,
    })
}

const SHOW: Show = Show {
    cas: true,
    flags: true,
    size: true,
    left: true,
    value: true,
};

const GET: MetaGet = MetaGet {
    show: SHOW,
    exptime: None,
    create: Some(60),
    recache: None,
};

const COUNTING: Counting = Counting {
    direction: Direction::Up,
    delta: 1,
    compare: None,
    create: Some(Creation {
        exptime: 30,
        initial: 9,
    }),
    exptime: None,
};

/// The items that meta commands show, in sequence on an empty cache: the number, the flags, the seconds that are left, the marks,
/// and the value.
const SHOWN: [(u64, u32, Option<u64>, Marks, &'static [u8]); 5] = [
    (1, 0, Some(60), Marks::Won, b""),
    (2, 5, None, Marks::Plain, b"xyz"),
    (3, 5, None, Marks::Plain, b"uvwxyz"),
    (4, 0, Some(30), Marks::Plain, b"9"),
    (5, 0, Some(30), Marks::Plain, b"10"),
];

/// The command that shows the item of this number: `mg` of a missing key, of which an item is made, two `ms` of that key, and two
/// `ma` of another.
fn command(alloc: Global, number: u64) -> Result<MetaCommand<Key, Block>, AllocError> {
    let update = match number {
        1 => {
            let key = Key::of_bytes(alloc, b"a")?;
            return Ok(MetaCommand::Get { key, get: GET });
        }
        2 => store(alloc, StoreMode::Set, b"xyz")?,
        3 => store(alloc, StoreMode::Prepend, b"uvw")?,
        _ => Update::Count {
            key: Key::of_bytes(alloc, b"c")?,
            counting: COUNTING,
        },
    };
    Ok(MetaCommand::Update { update, show: SHOW })
}

/// Whether each of these items is shown.
fn are_shown(alloc: Global, cache: &mut Cache<ListStore>) -> Result<bool, AllocError> {
    for (cas, flags, left, marks, value) in SHOWN {
        let reply = cache.step(Atom::Meta(command(alloc, cas)?), 0);
        let wanted = Shown {
            cas: Some(cas),
            flags: Some(flags),
            size: Some(value.len()),
            left: Some(left),
            marks,
        };
        let is_so = matches!(reply, Reply::Meta { shown, value: Some(()) } if shown == wanted);
        if !is_so || cache.front_value() != value {
            return Ok(false);
        }
    }
    Ok(true)
}

/// Whether a classic store is made, and read afterwards.
fn is_stored(alloc: Global, cache: &mut Cache<ListStore>) -> Result<bool, AllocError> {
    let own = store(alloc, StoreMode::Set, b"xyz")?;
    let is_stored = matches!(cache.step(Atom::Update(own), 0), Reply::Stored);
    let get = Atom::Get {
        key: Key::of_bytes(alloc, b"a")?,
        exptime: None,
        with_cas: false,
    };
    Ok(
        is_stored
            && matches!(cache.step(get, 0), Reply::Hit { .. })
            && cache.value(b"a") == Some(b"xyz".as_slice())
            && cache.room(b"a") == 3,
    )
}

/// Whether a `set` of a key and a block of its own stores the value.
fn is_set(
    alloc: Global,
    cache: &mut Cache<ListStore>,
    key: &[u8],
    value: &[u8],
) -> Result<bool, KeyError> {
    let own = Key::plain(alloc, key)?;
    let reply = cache.set(own, 5, 0, Block::from_slice(alloc, value)?, 0);
    Ok(matches!(reply, Reply::Stored) && cache.value(key) == Some(value))
}

/// Whether sets in place of a value and then under a new key store their values.
fn are_set(alloc: Global, cache: &mut Cache<ListStore>) -> Result<bool, KeyError> {
    let mut are_so = true;
    for (key, value) in [(b"a", b"xyz"), (b"a", b"uvw"), (b"b", b"rst")] {
        are_so &= is_set(alloc, cache, key, value)?;
    }
    Ok(are_so)
}

fn new_cache(alloc: Global) -> Cache<ListStore> {
    let store = ListStore::new(alloc);
    Cache::new(alloc, store, 1_000, 10, CasCounter::starting_at(0))
}

/// Whether a cache returns its store with both items.
fn are_returned(cache: Cache<ListStore>) -> bool {
    let store = cache.into_store();
    let (Some(first), Some(other)) = (store.front(), store.peek(b"a")) else {
        return false;
    };
    store.len() == 2
        && first.value.as_slice() == b"rst".as_slice()
        && other.value.as_slice() == b"uvw".as_slice()
}

#[test]
fn own_sets_are_stored(rt: HostRuntime) -> Result<(), Fail> {
    let mut cache = new_cache(rt.alloc());
    let are_set = are_set(rt.alloc(), &mut cache)?;
    assert!(rt; are_set && are_returned(cache));
    Ok(())
}

#[test]
fn own_values_are_stored(rt: HostRuntime) -> Result<(), Fail> {
    let mut cache = new_cache(rt.alloc());
    let are_shown = are_shown(rt.alloc(), &mut cache)?;
    let is_stored = is_stored(rt.alloc(), &mut cache)?;
    assert!(rt; are_shown && is_stored);
    Ok(())
}
