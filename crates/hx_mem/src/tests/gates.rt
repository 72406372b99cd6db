//! The gate that holds two workers at their first step.
use crate::TurnGate;
use hx_outside::{Gate, NoGate};
use std::thread;

#[test]
fn two_workers_meet(rt: HostRuntime) {
    let gate = TurnGate::new(10_000_000);
    thread::join(&rt, || gate.at(0, 0), || gate.at(1, 0));
    assert!(rt; gate.met());
    assert!(rt; !gate.ran_out());
}

#[test]
fn one_worker_runs_out(rt: HostRuntime) {
    let gate = TurnGate::new(1000);
    // Other steps and other workers pass.
    gate.at(0, 1);
    gate.at(1, 2);
    gate.at(2, 0);
    NoGate.at(0, 0);
    assert!(rt; !gate.ran_out());
    gate.at(1, 0);
    assert!(rt; gate.ran_out());
    assert!(rt; !gate.met());
    gate.at(0, 0);
    assert!(rt; gate.met());
}
