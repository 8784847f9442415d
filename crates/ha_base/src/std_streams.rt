ghost use Rattle.std.specs.Prelude.{◌≡◌};

use crate::outside::Failed;
use crate::streams::{Sink, Source};
use std::io::{ErrorKind, Read, Write};

/// A reader of the standard library as a source. A read that was interrupted is tried again.
#[derive(Drop)]
pub struct StdSource<R: Read> {
    inner: R,
    faults: u64,
}

impl<R: Read> StdSource<R> {
    /// Reads from `reader`.
    pub fn new(reader: R) -> StdSource<R>
        ensures left { ⟦<StdSource<R> as Source>⟧.left result ≡ R.remaining reader }
        ensures faults { ⟦<StdSource<R> as Source>⟧.faults result ≡ 0 }
    {
        StdSource {
            inner: reader,
            faults: 0,
        }
    }
}

impl<R: Read> Source for StdSource<R> {
    ghost left = { λ s. R.remaining s.inner };

    ghost faults = { λ s. s.faults };

    fn read(&mut self, buf: &mut [u8]) -> Result<usize, Failed> {
        for _ in 0..u64::MAX {
            match self.inner.read(buf) {
                Ok(n) => return Ok(n),
                Err(error) if error.kind() == ErrorKind::Interrupted => {}
                Err(_) => break,
            }
        }
        self.faults = self.faults.saturating_add(1);
        Err(Failed)
    }
}

/// A writer of the standard library as a sink. A write that was interrupted is tried again, and one
/// that takes nothing of a piece is a fault.
#[derive(Drop)]
pub struct StdSink<W: Write> {
    inner: W,
    faults: u64,
}

impl<W: Write> StdSink<W> {
    /// Writes to `writer`.
    pub fn new(writer: W) -> StdSink<W>
        ensures written { ⟦<StdSink<W> as Sink>⟧.written result ≡ W.contents writer }
        ensures faults { ⟦<StdSink<W> as Sink>⟧.faults result ≡ 0 }
    {
        StdSink {
            inner: writer,
            faults: 0,
        }
    }
}

impl<W: Write> Sink for StdSink<W> {
    ghost written = { λ s. W.contents s.inner };

    ghost faults = { λ s. s.faults };

    fn write(&mut self, piece: &[u8]) -> Result<usize, Failed> {
        for _ in 0..u64::MAX {
            match self.inner.write(piece) {
                Ok(0) if !piece.is_empty() => break,
                Ok(n) => return Ok(n),
                Err(error) if error.kind() == ErrorKind::Interrupted => {}
                Err(_) => break,
            }
        }
        self.faults = self.faults.saturating_add(1);
        Err(Failed)
    }
}
