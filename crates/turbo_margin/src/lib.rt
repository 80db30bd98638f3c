//! Transport blocks that the first turbo iteration decodes although soft values have wrong signs.
//!
//! The first constituent decoder prefers the sent word by a margin, and the second decoder's parity values contradict
//! this word by less than the margin. (own; the code is in TS 36.212 section 5.1.3.2)
#![tactic(auto)]

mod margin;

pub use margin::margin_is_decoded;
