//! Guaranteed detection: the cell list of each transmission scheme contains every cell with clean reception. Clean
//! means that each antenna port is received with one gain and noise within a stated bound; with one antenna port,
//! reception through a channel is also covered. The list also contains every cell whose sent words are the nearest ones
//! to the soft values, although some of these may have wrong signs (`near`). Each law is the contract of a function without a body: it states all
//! its premises, and uses only the receiver's definitions.
//!
//! Tests: `list_tests/src/clean_cells.rt` and `list_tests/src/plans.rt`.
#![tactic(auto)]

mod block;
mod broadcast;
mod carried;
mod clean;
mod control;
mod heard;
mod load;
mod near;
mod planning;
mod subframe;
mod through;
mod values;
mod words;

pub use block::sent_block_is_decoded;
pub use broadcast::sent_master_is_decoded;
pub use carried::carried_word_is_heard;
pub use clean::{CleanReader, explain_clean, explain_clean_by};
pub use control::{sent_grant_is_decoded, sent_grant_is_read, sent_indicator_is_decoded};
pub use heard::cells_are_heard;
pub use load::{loaded_is_faithful, open_places_are_silent};
pub use near::{decoded_masters_are_listed, nearest_masters_are_decoded};
pub use planning::{faithful_entry_has_plan, one_plan, plan_granted, plan_of, sent_entry_has_plan};
pub use subframe::carried_blocks_are_heard;
pub use through::{
    echoes_are_seen_through, fading_is_seen_through, fading_slot_is_seen_through,
    faithful_is_seen_through, slot_through_is_heard,
};
pub use values::values_support_the_sent_bits;
pub use words::spoken_word_is_the_least;
