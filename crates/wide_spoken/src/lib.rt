//! Guaranteed decoding of SIB1 at any bandwidth: if the soft values of subframe 5 have the signs of the sent bits, the
//! control format indicator, the grant and the transport block are decoded, and a list has the sent fields. Only the
//! signs of the values matter, not their magnitudes. Each law is the contract of a function without a body: it states
//! all its premises, and uses only the program's definitions.
#![tactic(auto)]

mod laws;

pub use laws::{spoken_entry_is_informed, spoken_subframe_is_read};
