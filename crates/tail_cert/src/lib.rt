//! Certificates of minimum cost for the 40-bit tail-biting code. A certificate holds soft values, an information word
//! and its cost, a general table of lower bounds for paths from all start states, and tables for the start states that
//! need their own. Together these show that no word costs less, and they are checked without a decoder.
//! Tests: the crate `code_tests`.
#![tactic(auto)]

mod certificate;
mod checker;
mod costs;
mod filling;
mod reading;
mod writing;

pub use certificate::{Certificate, length};
pub use checker::check;
pub use filling::fill;
pub use reading::{BadCertificate, head, parse};
pub use writing::to_bytes;

/// The length in bytes of a certificate's mark and soft values, the only parts whose content can break the format.
pub(crate) const FRONT_BYTES: usize = 244;

/// The length in bytes of a certificate up to and including the set of start states that have their own tables. The
/// full length follows from this set.
pub const HEAD_BYTES: usize = 10_501;

/// The byte offset of the set of start states that have their own tables.
pub(crate) const SET_PLACE: usize = HEAD_BYTES - 8;

/// The length of a table in bytes.
pub const TABLE_BYTES: usize = 10_240;

/// The longest certificate's length in bytes, with tables for all 64 start states.
pub const MOST_BYTES: usize = HEAD_BYTES + 64 * TABLE_BYTES;

const _: () = prove!(MOST_BYTES == 665_861);
