use hx_outside::Gate;
use std::sync::atomic::{AtomicBool, Ordering};
use std::thread;

/// A gate that holds each of the workers 0 and 1 at its step 0 until the other was at its step 0, or until so many
/// turns of its loop passed. Other workers and other steps pass at once.
#[derive(Drop)]
pub struct TurnGate {
    turns: u64,
    first: AtomicBool,
    second: AtomicBool,
    late: AtomicBool,
}

impl TurnGate {
    pub fn new(turns: u64) -> TurnGate {
        TurnGate {
            turns,
            first: AtomicBool::new(false),
            second: AtomicBool::new(false),
            late: AtomicBool::new(false),
        }
    }

    /// Whether a worker was let go because its turns had passed.
    pub fn ran_out(&self) -> bool {
        self.late.load(Ordering::SeqCst)
    }

    /// Whether both workers were at their step 0.
    pub fn met(&self) -> bool {
        self.first.load(Ordering::SeqCst) && self.second.load(Ordering::SeqCst)
    }

    fn wait_for(&self, other: &AtomicBool) {
        for _ in 0..self.turns {
            if other.load(Ordering::SeqCst) {
                return;
            }
            thread::yield_now();
        }
        self.late.store(true, Ordering::SeqCst);
    }
}

impl Gate for TurnGate {
    fn at(&self, worker: u32, step: u32) {
        match (worker, step) {
            (0, 0) => {
                self.first.store(true, Ordering::SeqCst);
                self.wait_for(&self.second);
            }
            (1, 0) => {
                self.second.store(true, Ordering::SeqCst);
                self.wait_for(&self.first);
            }
            _ => {}
        }
    }
}
