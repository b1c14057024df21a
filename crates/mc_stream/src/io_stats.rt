//! Counts of requests and bytes.
ghost use Rattle.std.specs.Prelude.{◌≡◌, ◌+◌, ◌%◌, ◌^◌};

/// Counts of requests that were taken, bytes that were read and bytes that were written. Each count begins again at 0 after 2^64 - 1.
#[derive(Clone, Copy, Debug, PartialEq, Eq)]
pub struct IoStats {
    /// Requests and faults that were taken.
    pub requests: u64,
    /// Bytes that were read.
    pub read: u64,
    /// Bytes that were written.
    pub written: u64,
}

impl IoStats {
    /// Makes a tally of zeros.
    pub fn new() -> IoStats
        ensures { result ≡ record { requests = 0; read = 0; written = 0 } }
    {
        IoStats {
            requests: 0,
            read: 0,
            written: 0,
        }
    }

    /// Counts a request that was taken.
    pub fn took(&mut self)
        ensures { self.new ≡ record self.old { requests = (self.old.requests + 1) % 2 ^ 64 } }
    {
        self.requests = self.requests.wrapping_add(1);
    }

    /// Counts bytes that were read.
    pub fn came(&mut self, count: usize)
        ensures { self.new ≡ record self.old { read = (self.old.read + count) % 2 ^ 64 } }
    {
        self.read = self.read.wrapping_add(count as u64);
    }

    /// Counts bytes that were written.
    pub fn went(&mut self, count: usize)
        ensures { self.new ≡ record self.old { written = (self.old.written + count) % 2 ^ 64 } }
    {
        self.written = self.written.wrapping_add(count as u64);
    }
}
