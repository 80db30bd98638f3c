//! The program `lte_cli`: runs one command, from standard input to standard output.
#![tactic(auto)]

use lte_top::{Program, run_process};
use std::process::ExitCode;

fn main(rt: HostRuntime) -> ExitCode {
    run_process(&rt, Program::Receiver, rt.stdin(), rt.stdout())
}
