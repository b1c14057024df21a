//! Requests as the caller's own: the public form. A server and a proxy borrow what is first, and consume it.
ghost use Rattle.std.specs.Prelude.{◌≡◌, IfOk, OnErr};
ghost use Rattle.mc_request_reader.specs.Reader.{KeepsLittle};
ghost use Rattle.mc_request_reader.specs.Peeks.{Gives};

use super::{Next, Reader};
use crate::peeks::Peek;
use mc_request::{Parsed, ReadError};

impl Reader {
    /// Consumes and returns the first request or fault that has arrived whole: its keys and its block are copied.
    ///
    /// At `Memory` it is not consumed, and nothing has changed.
    pub fn next(&mut self) -> Result<Next, ReadError>
        ensures given { IfOk result (λ next. Gives self.old next self.new) }
        ensures little { KeepsLittle self.new }
        ensures err { OnErr result (self.new ≡ self.old) }
    {
        match self.peek() {
            Peek::First(asked, front) => {
                let taken = asked.taken(self.alloc)?;
                self.consume(front);
                Ok(match taken {
                    Parsed::Whole(request) => Next::Request(request),
                    Parsed::Faulty(fault) => Next::Fault(fault),
                })
            }
            Peek::More => Ok(Next::More),
            Peek::Closed => Ok(Next::Closed),
        }
    }
}
