//! The program `lte_tune`: estimates or corrects a recording's frequency offset, from standard input to standard
//! output.
#![tactic(auto)]

use lte_top::{Program, run_process};
use std::process::ExitCode;

fn main(rt: HostRuntime) -> ExitCode {
    run_process(&rt, Program::Tuner, rt.stdin(), rt.stdout())
}
