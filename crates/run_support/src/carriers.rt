//! Synthetic recordings under other transmission schemes.

use capture_make::make_by;
use lte_types::Carrier;
use sample_file::bytes_of;
use std::alloc::{AllocError, Global};

/// Returns ten frames of synthetic recording 90 with two antenna ports.
pub fn with_two_ports(alloc: Global) -> Result<Vec<u8>, AllocError> {
    bytes_of(alloc, two_tx::make(alloc, 90)?.recording.as_slice())
}

/// Returns ten frames of synthetic recording 90 with four antenna ports.
pub fn with_four_ports(alloc: Global) -> Result<Vec<u8>, AllocError> {
    bytes_of(
        alloc,
        make_by(alloc, Carrier::FourPorts, 90)?.recording.as_slice(),
    )
}

/// Returns ten frames of synthetic recording 90 with the extended cyclic prefix.
pub fn with_long_prefix(alloc: Global) -> Result<Vec<u8>, AllocError> {
    bytes_of(alloc, long_prefix::make(alloc, 90)?.recording.as_slice())
}
