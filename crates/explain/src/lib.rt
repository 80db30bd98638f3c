//! From PSS detections (hits) to the cell list: one entry for each cell whose MIB was decoded, with its system
//! information or the reason for its absence. The rules of the list are at the head of `reading.rt`.
//! Tests: the crate `list_tests`.
#![tactic(auto)]

mod cells;
mod entry_list;
mod frame;
mod frame_reader;
mod grant;
mod hit_list;
mod laws;
mod listing;
mod masters;
mod notes;
mod one_port;
mod places;
mod reading;
mod reading_list;
mod readings;
mod scheme;
mod scrambled_cell;
mod slots;
mod system;
mod workspace;

pub use cells::{explain, place_in, values_of};
pub use entry_list::EntryList;
pub use frame::{broadcast_slot, is_whole};
pub use frame_reader::{FrameReader, NumberedCell};
pub use grant::{grant_of, one_grant};
pub use laws::{
    DECIDING_SAMPLES, one_frame_is_enough, one_reading, the_first_frames_decide,
    the_list_in_plain_words,
};
pub use one_port::OnePort;
pub use reading::{explain_by, explain_hits};
pub use readings::Reading;
pub use scheme::Scheme;
pub use slots::{received_in, slot_of};
pub use system::{Informed, even_frame, system_in};
pub use workspace::Workspace;
