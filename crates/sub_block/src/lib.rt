//! The sub-block interleaver of LTE's rate matching, for both channel codes (TS 36.212 sections 5.1.4.1.1 and
//! 5.1.4.2.1): the order in which a 32-column matrix is read, and coded bits by stream and index. The definitions are
//! in `specs/`, their laws in `proofs/`.
//! Tests: the crate `low_tests`.
#![tactic(auto)]

mod matrix;

pub use matrix::cell_at;

/// The channel codes with a sub-block interleaver.
#[derive(Clone, Copy, Drop)]
pub enum Code {
    /// The tail-biting convolutional code (TS 36.212 section 5.1.3.1).
    Convolutional,
    /// The turbo code (TS 36.212 section 5.1.3.2).
    Turbo,
}

/// A coded bit, or a cell in one of the three interleaver matrices.
#[derive(Clone, Copy, Drop)]
pub struct Item {
    /// The stream, 0 to 2.
    pub stream: usize,
    /// The bit's index in the stream, or the cell's index in the matrix.
    pub index: usize,
}
