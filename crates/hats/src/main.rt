//! The program `hats`: reads its words from the command line, does what they ask for over real files, the
//! current folder and standard output, tells a refusal on standard error, and ends with the status.
#![tactic(auto)]

mod asking;
mod running;

use hx_real::OutSink;
use std::process::ExitCode;

fn main(rt: HostRuntime) -> ExitCode {
    let alloc = rt.alloc();
    let mut out = OutSink::new(rt.stdout());
    let mut errors = OutSink::new(rt.stderr());
    let ended = running::run(alloc, asking::asked(&rt, alloc), &mut out, &mut errors);
    ExitCode::from(ended.status)
}
