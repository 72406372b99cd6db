//! A source that gives at most so many bytes of another one a read.
ghost use Rattle.std.specs.Prelude.{◌<◌};

use hx_outside::{Failed, Source};

/// Another source, of which a read gives at most so many bytes.
#[derive(Drop)]
pub struct Slow<Src> {
    pub inner: Src,
    pub most: usize,
    ghost some: { 0 < most },
}

impl<Src: Source> Source for Slow<Src> {
    ghost source = { record {
      told = λ slow. Src.source.told slow.inner;
      label = λ slow. Src.source.label slow.inner;
      faults = λ slow. Src.source.faults slow.inner;
      short = λ slow. Src.source.short slow.inner;
    } };

    fn name(&self) -> &str {
        self.inner.name()
    }

    fn len(&mut self) -> Result<u64, Failed> {
        self.inner.len()
    }

    fn read_at(&mut self, at: u64, buf: &mut [u8]) -> Result<usize, Failed> {
        let count = buf.len().min(self.most);
        self.inner.read_at(at, &mut buf[..count])
    }
}
