//! The program `lte_cli`, which the gate runs on an empty description to check a refusal (exit code 9).
#![tactic(auto)]

use lte_top::{Program, run_process};
use std::process::ExitCode;

fn main(rt: HostRuntime) -> ExitCode {
    run_process(&rt, Program::Receiver, rt.stdin(), rt.stdout())
}
