//! How the closing of a client that keeps too much is reported.

use std::fmt;
use std::fmt::{Display, Formatter};
use std::net::SocketAddr;

/// A client that was closed since it kept bytes that others waited for, as it is printed.
#[derive(Clone, Copy, Debug)]
pub struct Closing {
    /// The bytes that were kept for it.
    pub kept: u64,
    /// Its address, if the system still says it.
    pub address: Option<SocketAddr>,
}

impl Display for Closing {
    fn fmt<W: fmt::Write>(&self, f: &mut Formatter<W>) -> fmt::Result {
        match self.address {
            Some(address) => write!(f, "{address} closed")?,
            None => f.write_str("client closed")?,
        }
        let kept = self.kept;
        write!(
            f,
            ": it kept {kept} bytes while the memory for clients was used up"
        )
    }
}
