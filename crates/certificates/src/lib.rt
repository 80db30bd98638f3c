//! Sequences of certificates: writing the certificates for a recording's cell list to a sink, and checking the
//! certificates in a source.
//! Tests: the crate `top_tests`.
#![tactic(auto)]

mod certifying;
mod error;
mod part_read;
mod reading;

pub use certifying::{CertificateWork, certify};
pub use error::StreamError;
pub use reading::read_answers;
