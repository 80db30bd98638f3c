//! Guaranteed detection, with errors relative to the transmitted waveform before rounding.
//!
//! A base station does not round its samples to whole numbers. The errors here are the differences between a recording
//! and the sum of the ports' waveforms before any rounding, each times its gain. In each symbol of a slot that the
//! receiver decodes, the error energy is at most 2,555 times the squared gain with one antenna port and either cyclic
//! prefix, 992 times the sum of the squared gains with two ports, and 350 times that sum with four. In the symbol of a
//! synchronisation signal it is at most 5,300 times the squared gain of port 0. Each law is the contract of a function
//! without a body, complete with its premises.
//! Tests: `scripts/trials/held.py`.
#![tactic(auto)]

mod heard;
mod seen;

pub use heard::{cells_near_their_waveform_are_heard, faithful_recordings_are_near};
pub use seen::seen_waveform_is_near;
