//! What a server and a cache return when they end: the store, with their items.

use crate::servers::{MOMENT, Setup, WIDE, new_server, server_over};
use mc_server::{Server, ServerError};
use mc_store::{LruStore, Store, TableStore};
use std::test::Fail;

/// A server with room for two items.
const TWO: Setup = Setup { items: 2, ..WIDE };

/// What a client sends: `c` evicts `a`, and then `b` is used last.
const SENT: &[u8] = b"set a 0 0 1\r\nx\r\nset b 7 0 2\r\nyz\r\nset c 0 0 3\r\nuvw\r\nget b\r\n";

/// How many requests that is.
const REQUESTS: usize = 4;

/// The items that are left, the last one first: key, flags, number and value.
const LEFT: [(&[u8], u32, u64, &[u8]); 2] = [(b"c", 0, 3, b"uvw"), (b"b", 7, 2, b"yz")];

/// Whether the last item of a store is this one. It is removed.
fn is_last<S: Store>(store: &mut S, (key, flags, cas, value): (&[u8], u32, u64, &[u8])) -> bool {
    let Some(last) = store.drop_last() else {
        return false;
    };
    last.0.as_bytes() == key
        && last.1.flags == flags
        && last.1.cas == cas
        && last.1.value.as_slice() == value
}

/// Whether a store has the items that are left, and no more.
fn has_those_left<S: Store>(store: &mut S) -> bool {
    let mut are_so = store.len() == LEFT.len();
    for item in LEFT {
        are_so &= is_last(store, item);
    }
    are_so && store.len() == 0
}

/// Whether a new server returns its store with the items that are left, though a connection is open.
fn returns_them<S: Store + Drop>(mut server: Server<S>) -> Result<bool, ServerError> {
    let number = server.admit()?;
    server.feed(number, SENT)?;
    for _ in 0..REQUESTS {
        server.turn(number, MOMENT)?;
    }
    let mut store = server.into_store();
    Ok(has_those_left(&mut store))
}

#[test]
fn servers_return_their_stores(rt: HostRuntime) -> Result<(), Fail> {
    let alloc = rt.alloc();
    let over_list = returns_them(new_server(alloc, TWO)?)?;
    let lru = LruStore::new(alloc, TWO.items)?;
    let over_lru = returns_them(server_over(alloc, lru, TWO)?)?;
    let table = TableStore::new(alloc, TWO.items)?;
    let over_table = returns_them(server_over(alloc, table, TWO)?)?;
    assert!(rt; over_list && over_lru && over_table);
    Ok(())
}
