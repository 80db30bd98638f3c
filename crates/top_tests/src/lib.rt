//! Tests of `lte_top` and `lte_args`, command by command, with sources and sinks in memory. Some tests use sources and
//! sinks that fail.
#![tactic(auto)]

#[cfg(test)]
use run_support::{
    Output, ROOM, command_line, gives, gives_by, is_no_form, output_by, output_from, output_into,
    output_of, output_unread, output_within, sent_by, sent_with, sent_with_words, with_four_ports,
    with_long_prefix, with_two_ports,
};

#[cfg(test)]
mod cells;
#[cfg(test)]
mod certify_and_check;
#[cfg(test)]
mod deep;
#[cfg(test)]
mod evidence_all;
#[cfg(test)]
mod evidence_of_cells;
#[cfg(test)]
mod faults;
#[cfg(test)]
mod hits;
#[cfg(test)]
mod ids;
#[cfg(test)]
mod lengths;
#[cfg(test)]
mod make;
#[cfg(test)]
mod named_numbers;
#[cfg(test)]
mod pages;
#[cfg(test)]
mod rates;
#[cfg(test)]
mod samples_of_8_bits;
#[cfg(test)]
mod search;
#[cfg(test)]
mod search_all;
#[cfg(test)]
mod search_cancel;
#[cfg(test)]
mod search_four_ports;
#[cfg(test)]
mod search_long_prefix;
#[cfg(test)]
mod search_two_ports;
#[cfg(test)]
mod tell_and_apply;
#[cfg(test)]
mod texts;
#[cfg(test)]
mod transmit;
#[cfg(test)]
mod usage;
#[cfg(test)]
mod why;
