//! What no clause of keys and blocks says: that they find memory if there is some.

use mc_request::Keys;
use mc_text::{Block, Key, KeyError};
use std::alloc::{AllocError, Global};
use std::test::Fail;

fn are_keys_made(alloc: Global) -> Result<bool, KeyError> {
    let mut keys = Keys::one(alloc, Key::plain(alloc, b"ab")?);
    keys.reserve(1)?;
    if keys.push(Key::of_bytes(alloc, b"c d")?).is_err() {
        return Ok(false);
    }
    let keys = keys.clone()?;
    let is_read = Key::coded(alloc, b"YWI=")?.as_bytes() == b"ab".as_slice();
    Ok(
        is_read
            && keys.key(0).as_bytes() == b"ab".as_slice()
            && keys.key(1).as_bytes() == b"c d".as_slice(),
    )
}

fn are_blocks_made(alloc: Global) -> Result<bool, AllocError> {
    let mut block = Block::joined(alloc, b"abc", b"de")?;
    block.overwrite(b"xyzw");
    Ok(block.clone()?.as_slice() == b"xyzw".as_slice())
}

#[test]
fn keys_and_blocks_are_made(rt: HostRuntime) -> Result<(), Fail> {
    assert!(rt; are_keys_made(rt.alloc())? && are_blocks_made(rt.alloc())?);
    Ok(())
}
