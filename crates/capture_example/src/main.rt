//! The program `lte_cli`, which the gate runs on the recording that ships with the repository to check `search`.
#![tactic(auto)]

use lte_top::{Program, run_process};
use std::process::ExitCode;

fn main(rt: HostRuntime) -> ExitCode {
    run_process(&rt, Program::Receiver, rt.stdin(), rt.stdout())
}
