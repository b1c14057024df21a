//! A hasher's secret numbers, on a machine without random bytes.

use mc_table::SecretState;
use std::io;
use std::io::ErrorKind;
use std::random::RandomSource;
use std::test::Fail;

/// A source that fails once it has given some bytes.
struct Failing;

impl RandomSource for Failing {
    fn fill_bytes(&self, buf: &mut [u8]) -> io::Result<()> {
        for byte in buf.iter_mut().take(8) {
            *byte = 1;
        }
        Err(io::Error::from(ErrorKind::Other))
    }
}

#[test]
fn no_random_bytes_are_an_error(rt: HostRuntime) -> Result<(), Fail> {
    assert!(rt; SecretState::new(&Failing).is_err());
    Ok(())
}
