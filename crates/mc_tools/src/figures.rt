//! The figures of a run.
ghost use Rattle.std.specs.Prelude.{◌<◌};

use crate::cases::Case;
use crate::loads::Load;
use crate::served::Served;
use mc_server::ServerError;
use std::alloc::{AllocError, Global};
use std::time::Duration;

/// The number of bytes that were fed, and of those that were answered.
#[derive(Clone, Copy)]
pub struct Figures {
    fed: u64,
    answered: u64,
}

impl Figures {
    /// Feeds a new server the bytes of a client, in the case's pieces.
    pub fn of_run(alloc: Global, load: &Load, case: &Case) -> Result<Figures, ServerError> {
        let mut figures = Figures {
            fed: 0,
            answered: 0,
        };
        figures.feed_load(alloc, &mut Served::new(alloc)?, load, case)?;
        Ok(figures)
    }

    /// Feeds all bytes of a client.
    fn feed_load(
        &mut self,
        alloc: Global,
        served: &mut Served,
        load: &Load,
        case: &Case,
    ) -> Result<(), ServerError> {
        self.feed(served, &load.head, case)?;
        self.feed_fill(alloc, served, load.fill, case)?;
        self.feed(served, &load.tail, case)
    }

    /// Feeds bytes in pieces.
    fn feed(&mut self, served: &mut Served, bytes: &[u8], case: &Case) -> Result<(), ServerError> {
        for piece in bytes.chunks(case.piece.max(1)) {
            self.serve(served, piece, case)?;
        }
        Ok(())
    }

    /// Feeds this number of bytes `x` in pieces, which are made once.
    fn feed_fill(
        &mut self,
        alloc: Global,
        served: &mut Served,
        fill: u64,
        case: &Case,
    ) -> Result<(), ServerError> {
        let bytes = vec![in alloc; b'x'; case.piece]?;
        let size = (case.piece as u64).max(1);
        for _ in 0..fill / size {
            self.serve(served, &bytes, case)?;
        }
        let rest = bytes.get(..(fill % size) as usize).unwrap_or(&[]);
        self.feed(served, rest, case)
    }

    /// Feeds a piece, and counts its bytes and those of the answers.
    fn serve(&mut self, served: &mut Served, piece: &[u8], case: &Case) -> Result<(), ServerError> {
        let answered = served.serve(piece, case.asks_first)?;
        self.fed = self.fed.saturating_add(piece.len() as u64);
        self.answered = self.answered.saturating_add(answered as u64);
        Ok(())
    }

    /// The name of a run, and how many bytes were fed and answered.
    pub fn line(&self, alloc: Global, load: &Load, case: &Case) -> Result<String, AllocError> {
        let asked = if case.asks_first { ", asked first" } else { "" };
        format!(in alloc;
            "{} in pieces of {}{asked}: {} bytes fed, {} answered",
            load.name, case.piece, self.fed, self.answered
        )
    }

    /// The speed of a run that took this time: bytes in a second, and the time for a byte, computed from that for
    /// 10,000.
    pub fn speed(&self, alloc: Global, time: Duration) -> Result<String, AllocError> {
        let nanos = nanos(time);
        let per_second = self.fed.saturating_mul(1_000_000_000) / nanos;
        let each = nanos.saturating_mul(10_000) / self.fed.max(1);
        format!(in alloc;
            "{per_second} bytes per second, {}.{:04} ns per byte",
            each / 10_000,
            each % 10_000
        )
    }
}

/// A time in nanoseconds, at least 1.
fn nanos(time: Duration) -> u64
    ensures { 0 < result }
{
    time.as_secs()
        .saturating_mul(1_000_000_000)
        .saturating_add(u64::from(time.subsec_nanos()))
        .max(1)
}
