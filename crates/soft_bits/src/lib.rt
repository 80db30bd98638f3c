//! Channel estimation and demapping: the channel in a slot, estimated from its reference signals, and the soft values
//! of its resource elements.
//! Tests: the crates `code_tests` and `slot_tests`.
#![tactic(auto)]

mod energy;
mod layout;
mod line;
mod pairs;
mod pilots;
mod places;
mod point;
mod ports;
mod read_slot;
mod scrambling;
mod seen;
mod slot;
mod value;
mod wide;

pub use energy::energy_of;
pub use pilots::{Pilots, pilots_are_the_reference_places, pilots_of};
pub use places::slot_of;
pub use point::point_values;
pub use ports::{Ports, Single};
pub use read_slot::{ReadSlot, fill_slot};
pub use scrambling::{Scrambling, descramble};
pub use seen::Seen;
pub use slot::{PortSlot, Slot};
pub use value::{soft, soft_pair};
pub use wide::soft_pairs;
