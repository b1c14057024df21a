//! Addresses of servers.
ghost use Rattle.std.specs.Prelude.{◌≡◌, ℕ, List, true, IfOk};
ghost use Rattle.std.specs.Str.{bytes_eq};
ghost use Rattle.std.specs.Cmp.Rules.{comparing};
ghost use Rattle.std.proofs.Common.{rules};
ghost use Rattle.std.proofs.lemmas.Cmp.{nat_list_eq_equiv};
ghost use Rattle.mc_text.specs.Addresses.{is_address};
ghost use Rattle.mc_ring.specs.Refusals.{refusal_in, refusal_of_text};

use crate::errors::RingError;
use mc_text::is_address;
use std::alloc::{AllocError, Global};
use std::marker::Model;

/// The address of a server: `host:port`. Addresses with equal bytes are one. Contracts see the bytes.
#[derive(Clone, Debug, Drop)]
pub struct Address {
    bytes: Vec<u8>,
}

impl Model for Address {
    ghost Value = { List ℕ };

    ghost view = { λ a. a.bytes.items };

    ghost invariant = { λ a. is_address a.bytes.items ≡ true };
}

impl PartialEq for Address {
    ghost eq = { bytes_eq };

    ghost laws = { Prim.search (comparing, rules) };

    fn eq(&self, other: &Address) -> bool {
        self.bytes == other.bytes
    }
}

impl Eq for Address {
    ghost laws = { nat_list_eq_equiv };
}

impl Address {
    /// Makes the address of a text: a host, a colon and a port. A host is 1 to 255 letters, digits, dots and hyphens. A
    /// port is from 1 to 65535, in decimal digits without a leading zero. Any other text is `BadAddress`.
    pub fn new(alloc: Global, text: &[u8]) -> Result<Address, RingError>
        ensures address { IfOk result (λ address. address ≡ text.now) }
        ensures refused { refusal_in result ≡ refusal_of_text text.now }
    {
        if !is_address(text) {
            return Err(RingError::BadAddress);
        }
        let bytes = Vec::from_slice(alloc, text)?;
        Ok(Address { bytes })
    }

    /// Returns a copy with the same bytes; the contract of `clone` relates only the fields.
    pub fn copy(&self) -> Result<Address, AllocError>
        ensures { IfOk result (λ copy. copy ≡ self.now) }
    {
        self.clone()
    }

    /// Returns the text.
    pub fn as_bytes(&self) -> &[u8]
        ensures bytes { result.now ≡ self.now }
        ensures address { is_address self.now ≡ true }
    {
        self.bytes.as_slice()
    }
}
