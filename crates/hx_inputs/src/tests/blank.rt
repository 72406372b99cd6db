//! Sources whose length and bytes a test says: long ones, ones that end early, and ones whose length can't be told.
ghost use Rattle.std.specs.Prelude.{string_bytes};

use hx_outside::{Failed, Source};
use std::alloc::{AllocError, Global};

/// A source that says how long it is, gives so many bytes `x` and then none, and counts its reads and its faults.
#[derive(Drop)]
pub struct Blank {
    pub name: String,
    /// Its length in bytes; None where every call for it fails.
    pub length: Option<u64>,
    /// The bytes that it gives before it ends.
    pub held: u64,
    pub reads: u64,
    pub faults: u64,
}

impl Source for Blank {
    ghost use Rattle.hx_outside.specs.Sources.{silent};

    ghost source = { silent (λ source. string_bytes source.name) (λ source. source.faults) };

    fn name(&self) -> &str {
        self.name.as_str()
    }

    fn len(&mut self) -> Result<u64, Failed> {
        match self.length {
            Some(length) => Ok(length),
            None => {
                self.faults = self.faults.saturating_add(1);
                Err(Failed)
            }
        }
    }

    fn read_at(&mut self, at: u64, buf: &mut [u8]) -> Result<usize, Failed> {
        self.reads = self.reads.saturating_add(1);
        let count = self.held.saturating_sub(at).min(buf.len() as u64) as usize;
        buf[..count].fill(b'x');
        Ok(count)
    }
}

/// A source of so many bytes that gives those in front alone.
pub fn blank_of(alloc: Global, length: Option<u64>, held: u64) -> Result<Blank, AllocError> {
    Ok(Blank {
        name: String::from_str(alloc, "a.csv")?,
        length,
        held,
        reads: 0,
        faults: 0,
    })
}

/// So many of them, with these lengths in order, and 0 behind, that give no bytes.
pub fn blanks(
    alloc: Global,
    count: usize,
    lengths: &[Option<u64>],
) -> Result<Vec<Blank>, AllocError> {
    let mut sources = Vec::new(alloc);
    let mut lengths = lengths.iter();
    for _ in 0..count {
        sources.push(blank_of(alloc, lengths.next().copied().unwrap_or(Some(0)), 0)?)?;
    }
    Ok(sources)
}
