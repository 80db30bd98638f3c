//! The top-level call of `lte_cli` and `lte_tune`: runs a command from its arguments, a source and a sink, and returns
//! a status.
//!
//! Tests: the crate `top_tests`, and `fault_tests` for sources and sinks that fail.
#![tactic(auto)]

mod certifying;
mod detecting;
mod laws;
mod making;
mod pages;
mod process;
mod reading;
mod reasoning;
mod reporting;
mod searching;
mod status;
mod supporting;
mod top;
mod transmitting;
mod tuning;
mod version;

pub use laws::{
    an_input_has_one_answer, the_first_frames_decide_each_list, what_is_applied_is_estimated,
    what_is_made_is_held, what_is_sent_is_found,
};
pub use lte_args::{
    Form, Lists, Output, Page, Program, Rate, RecordingForm, Report, Rule, Span, Turn, Words,
};
pub use process::run_process;
pub use status::Status;
pub use top::{run, run_in_memory, run_program};
pub use version::{DEFINITION, VERSION};
