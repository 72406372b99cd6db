ghost use Rattle.std.specs.Prelude.{◌≡◌, ◌≤◌, ◌<◌, ◌+◌, ◌++◌, ◌↔◌, ◌⊎◌, [], length, vec_len, vec_capacity, IfOk, IsErr, OnOk, OnErr, Contains};
ghost use Rattle.hx_outside.specs.Faults.{HasCause};
ghost use Rattle.hx_outside.specs.Sinks.{Appends};
ghost use Rattle.hx_mem.specs.Sinks.{after_write, mem_sink};

use crate::calls::Calls;
use hx_outside::{Failed, Sink};
use std::alloc::{AllocError, Global};
use std::marker::Model;

/// A sink in memory. It tells what was written, and fails at the calls that were named, which write nothing, and
/// where the bytes pass its room, when it takes what fits. A write takes no memory.
#[derive(Drop)]
pub struct MemSink {
    room: usize,
    written: Vec<u8>,
    calls: Calls,
}

impl Model for MemSink {
    ghost use Rattle.std.specs.Prelude.{◌≤◌, vec_len, vec_capacity};
    ghost use Rattle.hx_mem.specs.Sinks as Sinks;

    ghost Value = { Sinks.Receiver };

    ghost view = { λ sink. record { room = sink.room; written = sink.written.items; named = sink.calls.named; calls = sink.calls.calls; faults = sink.calls.faults } };

    ghost invariant = { λ sink. (sink.room ≤ vec_capacity sink.written) × (vec_len sink.written ≤ sink.room) };
}

impl MemSink {
    /// A sink with room for so many bytes, which it takes at once. None of its calls is named to fail.
    pub fn new(alloc: Global, room: usize) -> Result<MemSink, AllocError>
        ensures { IfOk result (λ sink. sink ≡ record { room = room; written = []; named = []; calls = 0; faults = 0 }) }
    {
        Ok(MemSink {
            room,
            written: Vec::with_capacity(alloc, room)?,
            calls: Calls::new(alloc),
        })
    }

    /// What was written.
    pub fn bytes(&self) -> &[u8]
        ensures value { result.now ≡ self.now.written }
        ensures fits { length self.now.written ≤ self.now.room }
    {
        self.written.as_slice()
    }

    /// Names further calls that fail, by their numbers from 0. The number stands still at 2^64 - 1, so that all
    /// later calls have it.
    pub fn fail_calls(&mut self, numbers: &[u64]) -> Result<(), AllocError>
        ensures ok { OnOk result (self.new ≡ record self.old { named = self.old.named ++ numbers.now }) }
        ensures err { OnErr result (self.new ≡ self.old) }
    {
        self.calls.fail(numbers)
    }
}

impl Sink for MemSink {
    ghost sink = { mem_sink };

    fn write(&mut self, bytes: &[u8]) -> Result<(), Failed>
        ensures appends { Appends (mem_sink.written self.old) bytes.now (mem_sink.written self.new) result }
        ensures cause { HasCause mem_sink.faults self.old self.new result }

        // Exactly when it fails, and what it leaves.
        ensures fails { IsErr result ↔ (Contains self.old.named self.old.calls ⊎ self.old.room < length self.old.written + length bytes.now) }
        ensures after { self.new ≡ after_write self.old bytes.now }
    {
        if self.calls.is_next_named() {
            self.calls.count(true);
            return Err(Failed);
        }
        let left = self.room - self.written.len();
        if left < bytes.len() {
            append(&mut self.written, &bytes[..left]);
            self.calls.count(true);
            return Err(Failed);
        }
        append(&mut self.written, bytes);
        self.calls.count(false);
        Ok(())
    }
}

// Appends bytes where there is room for them.
fn append(written: &mut Vec<u8>, bytes: &[u8])
    requires { vec_len written.old + length bytes.now ≤ vec_capacity written.old }
    ensures items { written.new.items ≡ written.old.items ++ bytes.now }
    ensures len { vec_len written.new ≡ vec_len written.old + length bytes.now }
    ensures capacity { vec_capacity written.old ≤ vec_capacity written.new }
{
    if written.extend_from_slice(bytes).is_err() {
        unreachable!();
    }
}
