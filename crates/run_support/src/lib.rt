//! Runs of the programs on bytes in memory, and synthetic recordings as bytes, for the crates of tests that run commands.
//!
//! Tests: none of its own; `top_tests` and `fault_tests` use it.
#![tactic(auto)]

mod carriers;
mod commands;

pub use carriers::{with_four_ports, with_long_prefix, with_two_ports};
pub use commands::{
    Output, ROOM, command_line, gives, gives_by, is_no_form, output_by, output_from, output_into,
    output_of, output_unread, output_within, sent_by, sent_with, sent_with_words,
};
