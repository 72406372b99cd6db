ghost use Rattle.std.specs.Prelude.{◌≡◌, ◌<◌, ◌^◌, length, IfOk};

use std::alloc::{AllocError, Global};
use std::marker::Model;

/// Bytes whose number a u64 holds.
#[derive(Drop)]
pub struct Content {
    bytes: Vec<u8>,
    ghost short: { length bytes.items < 2 ^ 64 },
}

impl Model for Content {
    ghost use Rattle.hx_mem.specs.Sources as Sources;

    ghost Value = { Sources.Content };

    ghost view = { λ content. record { bytes = content.bytes.items; short = content.short } };
}

impl Content {
    pub fn new(alloc: Global, bytes: &[u8]) -> Result<Content, AllocError>
        ensures { IfOk result (λ content. content.bytes ≡ bytes.now) }
    {
        Ok(Content {
            bytes: bytes.to_vec(alloc)?,
        })
    }

    pub fn bytes(&self) -> &[u8]
        ensures { result.now ≡ self.now.bytes }
    {
        self.bytes.as_slice()
    }
}
