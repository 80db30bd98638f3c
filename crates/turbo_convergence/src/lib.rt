//! Convergence of the turbo decoder on clean values. If no received value has the wrong sign for its bit, neither has
//! any extrinsic value; if the received coded bits are enough to resolve the block, the decoder returns it. Only the
//! signs of the values matter, not their magnitudes. Each law is the contract of a function without a body: it states
//! all its premises, and uses only the decoder's definitions.
//!
//! Tests: `code_tests/src/punctured_blocks.rt` and `code_tests/src/turbo_decoding.rt`.
#![tactic(auto)]

mod blocks;
mod decoders;
mod received;

pub use blocks::{resolvable_block_is_decoded, spoken_block_is_decoded};
pub use decoders::{extrinsics_convey, extrinsics_speak, iterations_convey};
pub use received::{punctured_block_is_decoded, received_sums_convey, sent_block_is_decoded};
