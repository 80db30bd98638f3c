//! Frequency offset: estimates a recording's offset from the primary synchronisation signal, the cyclic prefixes and
//! the cell list, and corrects it, in whole numbers. Offsets are in steps of 117.1875 Hz unless stated otherwise.
//!
//! A candidate is computed for each of 33 coarse offsets, up to 60 kHz, at which the recording has hits (PSS
//! detections). At most four candidates are selected: the one whose PSS has the largest energy fraction, then the best
//! candidate more than 64 steps from that one, and so on. The estimate is the first selected candidate that gives
//! cells, or the first selected one if none does.
//!
//! Tests: the crate `list_tests`, in `estimate.rt` and `turned.rt`.
#![tactic(auto)]

mod at_turn;
mod candidate;
mod centred;
mod estimation;
mod fine;
mod fraction;
mod laws;
mod order;
mod table;
mod taking;

pub use at_turn::turned_back;
pub use candidate::Candidate;
pub use centred::mean;
pub use estimation::{
    Estimation, OffsetEstimate, applied, tell, tell_with_candidates, turn_of, turned,
};
pub use fraction::Fraction;
pub use laws::{the_turn_estimated, turned_recordings};
