//! Plain LTE value types: cell identities, frame numbers, MIB and SIB1 fields, symbol timing, PSS detections and cell
//! list entries. A constructor returns `None` if a value is out of range.
//! Tests: the crates `low_tests` and `code_tests`.
//! Size: over 100 functions, but nearly all are constructors, accessors, range checks and code tables with a few lines
//! each, for small types that are used together.
#![tactic(auto)]

mod assignment;
mod bandwidth;
mod carrier;
mod cell_access_related_info;
mod cell_id;
mod cell_place;
mod cell_selection_info;
mod cfi;
mod duration;
mod entry;
mod evidence;
mod frame;
mod frames;
mod hit;
mod mib;
mod mnc;
mod numerology;
pub mod period;
mod plmn;
mod plmns;
mod resource;
mod schedule;
mod si_message;
mod sib1;
mod sib1_reason;
mod sibs;
mod timing;
pub mod window;

pub use assignment::Assignment;
pub use bandwidth::Bandwidth;
pub use carrier::{Carrier, carriers_are};
pub use cell_access_related_info::CellAccessRelatedInfo;
pub use cell_id::CellId;
pub use cell_place::CellPlace;
pub use cell_selection_info::CellSelectionInfo;
pub use cfi::Cfi;
pub use duration::Duration;
pub use entry::Entry;
pub use evidence::Evidence;
pub use frame::{Half, Sfn};
pub use frames::Frames;
pub use hit::Hit;
pub use mib::Mib;
pub use mnc::Mnc;
pub use numerology::{
    CYCLE_LENGTH, FRAME_LENGTH, HALF_FRAME_LENGTH, LEAST_SAMPLES, MOST_SAMPLES, Prefix,
    SLOT_LENGTH, SUBCARRIERS, USEFUL_LENGTH, lengths_are,
};
pub use plmn::Plmn;
pub use plmns::Plmns;
pub use resource::Resource;
pub use schedule::Schedule;
pub use si_message::SiMessage;
pub use sib1::{Sib1, same_answers};
pub use sib1_reason::Sib1Reason;
pub use sibs::Sibs;
pub use timing::{Timing, timings_come_back};
