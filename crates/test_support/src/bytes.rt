//! Recordings as bytes: two little-endian 16-bit components per sample.

ghost use Rattle.std.specs.Prelude.{◌≡◌, ◌+◌, ◌*◌, ◌≤◌, length, IfOk};

use std::alloc::{AllocError, Global};

/// Returns `len` zero bytes.
pub fn silence(alloc: Global, len: usize) -> Result<Vec<u8>, AllocError>
    ensures { IfOk result (λ bytes. length bytes.items ≡ len) }
{
    vec![in alloc; 0u8; len]
}

/// Writes `piece` from byte offset `at`.
pub fn put(bytes: &mut [u8], at: usize, piece: &[u8])
    requires { at + length piece.now ≤ length bytes.old }
{
    bytes[at..at + piece.len()].copy_from_slice(piece);
}

/// Returns the certificate for 120 zero soft values, with the all-zero codeword and no start-state table.
pub fn certificate_of_zeros(alloc: Global) -> Result<Vec<u8>, AllocError>
    ensures { IfOk result (λ bytes. length bytes.items ≡ 10501) }
{
    let mut bytes = silence(alloc, 10_501)?;
    put(&mut bytes, 0, &[0x4c, 0x54, 0x43, 0x32]);
    Ok(bytes)
}

/// Writes a 16-bit sample at sample index `at`.
pub fn put_sample(bytes: &mut [u8], at: usize, re: i16, im: i16)
    requires { 4 * at + 4 ≤ length bytes.old }
{
    bytes[4 * at..4 * at + 2].copy_from_slice(&re.to_le_bytes());
    bytes[4 * at + 2..4 * at + 4].copy_from_slice(&im.to_le_bytes());
}

/// Adds `error` to both components of each even sample, and subtracts `error` from those of each odd sample.
pub fn add_errors(bytes: &mut [u8], error: i16) {
    for i in 0..bytes.len() / 2 {
        let signed = if i / 2 % 2 == 0 {
            error
        } else {
            error.saturating_neg()
        };
        let value = i16::from_le_bytes([bytes[2 * i], bytes[2 * i + 1]]).saturating_add(signed);
        bytes[2 * i..2 * i + 2].copy_from_slice(&value.to_le_bytes());
    }
}

/// Subtracts `error` from each positive component, and adds `error` to all other components.
pub fn oppose(bytes: &mut [u8], error: i16) {
    for i in 0..bytes.len() / 2 {
        let sent = i16::from_le_bytes([bytes[2 * i], bytes[2 * i + 1]]);
        let moved = if sent > 0 {
            sent.saturating_sub(error)
        } else {
            sent.saturating_add(error)
        };
        bytes[2 * i..2 * i + 2].copy_from_slice(&moved.to_le_bytes());
    }
}
