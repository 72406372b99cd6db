/// Where workers pass between their steps, so that a test can hold one until another is there.
pub trait Gate {
    /// A worker has come to a step: step 2t after its t-th claim that got a task, step 2t + 1 after its t-th finish
    /// or refuse, t counted from 0. It returns, and nothing else is asked of it.
    fn at(&self, worker: u32, step: u32);
}

/// A gate that holds nobody.
pub struct NoGate;

impl Gate for NoGate {
    fn at(&self, _worker: u32, _step: u32) {}
}
