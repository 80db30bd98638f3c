//! Resolvable blocks of the punctured turbo code: which information bits an ideal exchange between the two constituent
//! decoders finds, iteration by iteration, from the positions of the sent bits alone. The definition quantifies over
//! all words of an encoder, and does not use received values.
//! Tests: the crate `code_tests`.
#![tactic(auto)]

mod finding;
mod laws;
mod resolving;
mod states;

pub use laws::{unsent_block_is_not_resolvable, whole_block_is_resolvable};
pub use resolving::fills;
