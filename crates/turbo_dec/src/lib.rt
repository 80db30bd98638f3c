//! The turbo decoder for the code of TS 36.212 section 5.1.3.2 (own): max-log-MAP constituent decoders, whose extrinsic
//! values are differences of maximum scores, and the iterations between them, up to the first block whose CRC passes.
//! Tests: the crate `code_tests`.
#![tactic(auto)]

mod constituent;
mod costs;
mod iterations;
mod laws;
mod work;

pub use constituent::half;
pub use iterations::{Block, decode};
pub use laws::{greatest_scores, orders_undo_each_other};
pub use work::Work;
