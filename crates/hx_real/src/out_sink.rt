//! A sink over a stream of the system.
ghost use Rattle.std.specs.Prelude.{◌≡◌};

#[cfg(test)]
mod tests;

use crate::writing::write_all;
use hx_outside::{Failed, Sink};
use std::io::Write;

/// A writer, as standard output. It tells nothing of what was written.
#[derive(Drop)]
pub struct OutSink<W> {
    pub writer: W,
    faults: u64,
}

impl<W: Write + Drop> OutSink<W> {
    /// A sink over a writer.
    pub fn new(writer: W) -> OutSink<W>
        ensures { result.writer ≡ writer }
    {
        OutSink { writer, faults: 0 }
    }
}

impl<W: Write + Drop> Sink for OutSink<W> {
    ghost use Rattle.std.specs.Prelude.{None};

    ghost sink = { record { written = λ sink. None; faults = λ sink. sink.faults } };

    fn write(&mut self, bytes: &[u8]) -> Result<(), Failed> {
        match write_all(&mut self.writer, bytes) {
            Ok(()) => Ok(()),
            Err(_) => {
                self.faults = self.faults.saturating_add(1);
                Err(Failed)
            }
        }
    }
}
