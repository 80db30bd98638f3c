//! Error bounds for the reception of one symbol: how far a demodulated amplitude can be from the transmitted one, and
//! why the synchronisation signals of a clean cell stand out (clean: noise within a stated bound). The cell list
//! plays no part here. Each law is the contract of a function without a body, complete with its premises.
//! Tests: the crate `list_tests`.
#![tactic(auto)]

mod amplitude;
mod channel;
mod paths;
mod peak;
mod score;
mod sign;
mod signal_paths;
mod table;
mod whole;

pub use amplitude::seen_amplitude_is_near;
pub use channel::values_speak_through_a_channel;
pub use paths::several_paths_are_a_channel;
pub use peak::{clean_primary_is_a_hit, primary_within_errors_is_a_hit};
pub use score::{sent_pair_is_best, sent_pair_stands_alone_through_a_channel};
pub use sign::value_has_the_sign_of_the_bit;
pub use signal_paths::signals_stand_over_several_paths;
pub use table::table_is_nearly_multiplicative;
pub use whole::whole_gain_is_received;
