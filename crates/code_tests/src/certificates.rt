ghost use Rattle.std.specs.Prelude.{◌≡◌, ◌+◌, ◌≤◌, ◌<◌, IfOk, length, nat_abs};
ghost use Rattle.finite.specs.Sizes.{RowsWithin};

use crate::shared::triple;
use std::alloc::{AllocError, Global};
use std::test::Fail;
use tail_cert::{
    BadCertificate, Certificate, HEAD_BYTES, MOST_BYTES, check, fill, head, length, parse, to_bytes,
};
use tailbite::Trellis;

// Returns the pseudorandom soft value for bit `k` of stream `t`, from -6 to 6.
fn value(k: usize, t: usize) -> i32
    requires place { k < 40 }
    requires stream { t < 3 }
    ensures { nat_abs result ≤ 2032 }
{
    (3 * k * k + 7 * t * k + 1) as i32 % 13 - 6
}

// Returns 120 soft values: `first`, then zeros.
fn values_from(first: i8) -> [[i32; 3]; 40]
    ensures { RowsWithin 2032 result }
{
    let mut values = [triple(0, 0, 0); 40];
    for k in 0..40 {
        values[k] = triple(if k == 0 { first as i32 } else { 0 }, 0, 0);
    }
    values
}

// Returns 120 pseudorandom soft values.
fn many_values() -> [[i32; 3]; 40]
    ensures { RowsWithin 2032 result }
{
    let mut values = [triple(0, 0, 0); 40];
    for k in 0..40 {
        values[k] = triple(value(k, 0), value(k, 1), value(k, 2));
    }
    values
}

// Returns the bytes of the certificate for `values`.
fn filled(alloc: Global, values: &[[i32; 3]; 40]) -> Result<Vec<u8>, AllocError>
    requires { RowsWithin 2032 values.now }
    ensures { IfOk result (λ bytes. 10501 ≤ length bytes.items) }
{
    let mut certificate = Certificate::new(alloc)?;
    let mut work = Trellis::new(alloc)?;
    fill(&mut certificate, values, &mut work);
    let mut bytes = vec![in alloc; 0; length(&certificate)]?;
    to_bytes(&certificate, &mut bytes);
    Ok(bytes)
}

// Parses the certificate at the start of `bytes`.
fn read(bytes: &[u8], into: &mut Certificate) -> Result<(), BadCertificate> {
    let whole = head(&bytes[..bytes.len().min(HEAD_BYTES)])?;
    parse(&bytes[..bytes.len().min(whole)], into)
}

// Returns whether `bytes` is a well-formed certificate, and its check gives `accepted`.
fn is_read(bytes: &[u8], into: &mut Certificate, accepted: bool) -> bool {
    read(bytes, into).is_ok() && check(into) == accepted
}

// Returns whether `bytes` is refused at byte offset `place`.
fn is_refused_at(bytes: &[u8], into: &mut Certificate, place: u64) -> bool {
    match read(bytes, into) {
        Ok(()) => false,
        Err(bad) => bad.place == place,
    }
}

// Returns the bytes of the all-zero certificate with `piece` written over them at `at`.
fn changed(alloc: Global, at: usize, piece: &[u8]) -> Result<Vec<u8>, AllocError>
    requires { at + length piece.now ≤ 10501 }
{
    let mut bytes = filled(alloc, &values_from(0))?;
    bytes[at..at + piece.len()].copy_from_slice(piece);
    Ok(bytes)
}

// Returns whether a certificate has the minimum length, and `MOST_BYTES` is the maximum length.
fn has_least_length(certificate: &Certificate) -> bool {
    length(certificate) == 10_501 && MOST_BYTES == 665_861
}

#[test]
fn a_new_certificate_is_accepted(rt: HostRuntime) -> Result<(), Fail> {
    let certificate = Certificate::new(rt.alloc())?;
    assert!(rt; check(&certificate));
    assert!(rt; has_least_length(&certificate));
    Ok(())
}

#[test]
fn the_zero_certificate_is_accepted_and_its_changes_are_not(rt: HostRuntime) -> Result<(), Fail> {
    let mut certificate = Certificate::new(rt.alloc())?;
    let bytes = filled(rt.alloc(), &values_from(0))?;
    assert!(rt; bytes.len() == 10_501);
    assert!(rt; is_read(&bytes, &mut certificate, true));
    let cost = changed(rt.alloc(), 249, &[1])?;
    assert!(rt; is_read(&cost, &mut certificate, false));
    // The bound G(40, 0), after 39 rows of 64 entries, rises too much.
    let bound = changed(rt.alloc(), 10_237, &[255, 255, 255, 255])?;
    assert!(rt; is_read(&bound, &mut certificate, false));
    Ok(())
}

// Returns whether `bytes` has `piece` at byte offset `place`.
fn has_at(bytes: &[u8], place: usize, piece: &[u8]) -> bool {
    match bytes.get(place..) {
        Some(rest) => rest.starts_with(piece),
        None => false,
    }
}

// Returns whether a certificate's first soft value is -1, and only bit 38 of its information word is set, with cost 0.
fn has_value_and_word(bytes: &[u8]) -> bool {
    has_at(bytes, 0, b"LTC2\xff\xff") && has_at(bytes, 244, b"\x00\x00\x00\x00\x02\x00\x00\x00\x00")
}

#[test]
fn the_bytes_hold_values_and_word(rt: HostRuntime) -> Result<(), Fail> {
    let bytes = filled(rt.alloc(), &values_from(-1))?;
    assert!(rt; has_value_and_word(&bytes));
    Ok(())
}

// Returns whether `bytes` has the expected cost and bounds G(40, 0) and G(40, 6), and tables for states 6, 11, 14, 27,
// 30, 31 and 35.
fn has_tables(bytes: &[u8]) -> bool {
    bytes.len() == 82_181
        && has_at(bytes, 249, &[69])
        && has_at(bytes, 10_237, &[70])
        && has_at(bytes, 10_261, &[67])
        && has_at(bytes, 10_493, b"\x40\x48\x00\xc8\x08\x00\x00\x00")
}

#[test]
fn the_tables_that_are_needed_are_written(rt: HostRuntime) -> Result<(), Fail> {
    let mut certificate = Certificate::new(rt.alloc())?;
    let mut bytes = filled(rt.alloc(), &many_values())?;
    assert!(rt; has_tables(&bytes));
    assert!(rt; is_read(&bytes, &mut certificate, true));
    bytes.truncate(82_180);
    assert!(rt; is_refused_at(&bytes, &mut certificate, 82_180));
    assert!(rt; check(&certificate), "and is unchanged");
    Ok(())
}

#[test]
fn a_table_that_is_missing_is_not_accepted_and_a_further_one_is(
    rt: HostRuntime,
) -> Result<(), Fail> {
    let mut certificate = Certificate::new(rt.alloc())?;
    let mut bytes = filled(rt.alloc(), &many_values())?;
    // The last table, for state 35.
    bytes[10_497] = 0;
    assert!(rt; is_read(&bytes, &mut certificate, false));
    assert!(rt; length(&certificate) == 71_941);
    let mut bytes = changed(rt.alloc(), 10_493, &[1])?;
    assert!(rt; is_refused_at(&bytes, &mut certificate, 10_501));
    bytes.extend_from_slice(&[0; 10_240])?;
    assert!(rt; is_read(&bytes, &mut certificate, true));
    assert!(rt; length(&certificate) == 20_741);
    Ok(())
}

#[test]
fn what_breaks_the_form_is_refused_at_its_place(rt: HostRuntime) -> Result<(), Fail> {
    let mut certificate = Certificate::new(rt.alloc())?;
    assert!(rt; is_refused_at(&[0], &mut certificate, 0));
    assert!(rt; is_refused_at(b"LTD1", &mut certificate, 2));
    assert!(rt; is_refused_at(b"LTC1", &mut certificate, 3));
    // A soft value that is too large is refused at its first byte, and a truncated certificate at its end.
    let bytes = changed(rt.alloc(), 4, &[0xf1, 0x07])?;
    assert!(rt; is_refused_at(&bytes, &mut certificate, 4));
    let mut bytes = filled(rt.alloc(), &values_from(0))?;
    for end in [10_500, 100] {
        bytes.truncate(end);
        assert!(rt;
            is_refused_at(&bytes, &mut certificate, end as u64),
            "{end} bytes"
        );
    }
    Ok(())
}
