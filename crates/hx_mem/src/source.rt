ghost use Rattle.std.specs.Prelude.{◌≡◌, ◌<◌, ◌≤◌, ◌-◌, ◌^◌, ◌++◌, ◌↔◌, length, min, drop, Some, IfOk, IsTrue, IsErr, OnOk, OnErr, Contains};
ghost use Rattle.hx_outside.specs.Disk.{ReadsBytes};
ghost use Rattle.hx_outside.specs.Faults.{HasCause};
ghost use Rattle.hx_outside.specs.Sources.{GivesLength, Gives, SameSource};
ghost use Rattle.hx_mem.specs.Sources.{IsFresh, after_call, given, mem_source};

use crate::calls::Calls;
use crate::content::Content;
use hx_outside::{Failed, Source};
use std::alloc::{AllocError, Global};
use std::marker::Model;

/// A source in memory. It tells its bytes, gives all that are left and wanted, and fails at the calls that were
/// named. A call that fails gives nothing.
#[derive(Drop)]
pub struct MemSource {
    name: String,
    content: Content,
    calls: Calls,
}

impl Model for MemSource {
    ghost use Rattle.std.specs.Prelude.{string_bytes};
    ghost use Rattle.hx_mem.specs.Sources as Sources;

    ghost Value = { Sources.Memory };

    ghost view = { λ source. record { name = string_bytes source.name; content = source.content; named = source.calls.named; calls = source.calls.calls; faults = source.calls.faults } };
}

impl MemSource {
    /// A source of these bytes. None of its calls fails.
    pub fn new(alloc: Global, name: &str, bytes: &[u8]) -> Result<MemSource, AllocError>
        ensures { IfOk result (IsFresh name.now bytes.now) }
    {
        Ok(MemSource {
            name: String::from_str(alloc, name)?,
            content: Content::new(alloc, bytes)?,
            calls: Calls::new(alloc),
        })
    }

    /// Names further calls that fail, by their numbers from 0. The number stands still at 2^64 - 1, so that all
    /// later calls have it.
    pub fn fail_calls(&mut self, numbers: &[u64]) -> Result<(), AllocError>
        ensures ok { OnOk result (self.new ≡ record self.old { named = self.old.named ++ numbers.now }) }
        ensures err { OnErr result (self.new ≡ self.old) }
    {
        self.calls.fail(numbers)
    }

    // Counts a call, and says whether it fails.
    fn call_fails(&mut self) -> bool
        ensures named { IsTrue result ↔ Contains self.old.named self.old.calls }
        ensures after { self.new ≡ after_call self.old }
        ensures later { self.old.faults ≤ self.new.faults }
    {
        let fails = self.calls.is_next_named();
        self.calls.count(fails);
        fails
    }
}

impl Source for MemSource {
    ghost source = { mem_source };

    fn name(&self) -> &str
        ensures { result.now ≡ self.now.name }
    {
        self.name.as_str()
    }

    fn len(&mut self) -> Result<u64, Failed>
        ensures length { GivesLength (mem_source.told self.old) result }
        ensures same { SameSource mem_source self.old self.new }
        ensures cause { HasCause mem_source.faults self.old self.new result }

        // Exactly when it fails, and what it leaves.
        ensures fails { IsErr result ↔ Contains self.old.named self.old.calls }
        ensures value { IfOk result (λ count. count ≡ length self.old.content.bytes) }
        ensures after { self.new ≡ after_call self.old }
    {
        if self.call_fails() {
            return Err(Failed);
        }
        Ok(self.content.bytes().len() as u64)
    }

    fn read_at(&mut self, at: u64, buf: &mut [u8]) -> Result<usize, Failed>
        ensures bound { IfOk result (λ count. count ≤ length buf.old) }
        ensures bytes { Gives (mem_source.told self.old) at (length buf.old) buf.new result }
        ensures same { SameSource mem_source self.old self.new }
        ensures cause { HasCause mem_source.faults self.old self.new result }

        // Exactly when it fails, what it gives, and what it leaves.
        ensures fails { IsErr result ↔ Contains self.old.named self.old.calls }
        ensures count { IfOk result (λ count. count ≡ min (length buf.old) (length self.old.content.bytes - at)) }
        ensures gives { IfOk result (λ count. buf.new ≡ given self.old.content.bytes at (length buf.old) ++ drop count buf.old) }
        ensures nothing { OnErr result (buf.new ≡ buf.old) }
        ensures after { self.new ≡ after_call self.old }
    {
        if self.call_fails() {
            return Err(Failed);
        }
        Ok(copy_from(self.content.bytes(), at, buf))
    }
}

/// Copies what is left of the bytes from `at` on into the front of the buffer, as far as it fits, and says how
/// many bytes.
pub fn copy_from(bytes: &[u8], at: u64, buf: &mut [u8]) -> usize
    ensures count { result ≡ min (length buf.old) (length bytes.now - at) }
    ensures gives { buf.new ≡ given bytes.now at (length buf.old) ++ drop result buf.old }
    ensures reads { ReadsBytes (Some bytes.now) at buf.old buf.new result }
{
    if at >= bytes.len() as u64 {
        return 0;
    }
    let rest = &bytes[at as usize..];
    let count = rest.len().min(buf.len());
    buf[..count].copy_from_slice(&rest[..count]);
    count
}
