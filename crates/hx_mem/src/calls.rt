ghost use Rattle.std.specs.Prelude.{◌≡◌, ◌≤◌, ◌++◌, ◌↔◌, [], IsTrue, OnOk, OnErr, Contains};
ghost use Rattle.hx_mem.specs.Calls.{is_named, counted};

use std::alloc::{AllocError, Global};
use std::marker::Model;

/// The numbers of the calls that fail, the number of the next call, and how many calls have failed. The number
/// and the count stand still at 2^64 - 1.
#[derive(Drop)]
pub struct Calls {
    named: Vec<u64>,
    next: u64,
    faults: u64,
}

impl Model for Calls {
    ghost use Rattle.hx_mem.specs.Calls as count;

    ghost Value = { count.CallCount };

    ghost view = { λ calls. record { named = calls.named.items; calls = calls.next; faults = calls.faults } };
}

impl Calls {
    /// No call was made, and none is to fail.
    pub fn new(alloc: Global) -> Calls
        ensures { result ≡ record { named = []; calls = 0; faults = 0 } }
    {
        Calls {
            named: Vec::new(alloc),
            next: 0,
            faults: 0,
        }
    }

    /// Names further calls that fail.
    pub fn fail(&mut self, numbers: &[u64]) -> Result<(), AllocError>
        ensures ok { OnOk result (self.new ≡ record self.old { named = self.old.named ++ numbers.now }) }
        ensures err { OnErr result (self.new ≡ self.old) }
    {
        self.named.extend_from_slice(numbers)
    }

    /// Whether the next call was named.
    pub fn is_next_named(&self) -> bool
        ensures value { result ≡ is_named self.now.named self.now.calls }
        ensures named { IsTrue result ↔ Contains self.now.named self.now.calls }
    {
        self.named.contains(&self.next)
    }

    /// The number of the next call, which is how many there were.
    pub fn calls(&self) -> u64
        ensures { result ≡ self.now.calls }
    {
        self.next
    }

    /// Counts a call, which has failed or not.
    pub fn count(&mut self, failed: bool)
        ensures after { self.new ≡ counted self.old failed }
        ensures later { self.old.faults ≤ self.new.faults }
    {
        self.next = self.next.saturating_add(1);
        if failed {
            self.faults = self.faults.saturating_add(1);
        }
    }
}
