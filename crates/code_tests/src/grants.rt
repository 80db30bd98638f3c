use cs_bits::Bits;
use dci::{Grant, assignments_used_once, grants_and_bits, read, riv, size, write};
use lte_types::Sib1Reason;
use test_support::bits_of;

// Returns the 21-bit message with the bits of a number.
fn word_of(bits: u64) -> Bits<21> {
    Bits::new(bits_of(bits))
}

// Returns whether the message `bits` is refused for `reason`.
fn is_refused(bits: u64, reason: Sib1Reason) -> bool {
    match read(&word_of(bits)) {
        Ok(_) => false,
        Err(found) => found == reason,
    }
}

// Returns whether the message `bits` decodes to `grant`, and `grant` encodes to `written`.
fn is_read_as(bits: u64, grant: Grant, written: u64) -> bool {
    match read(&word_of(bits)) {
        Ok(read) => read == grant && write(&read) == word_of(written),
        Err(_) => false,
    }
}

// Returns whether four resource block assignments have the expected resource indication values.
fn are_values() -> bool {
    riv(0, 4) == 18 && riv(0, 6) == 11 && riv(1, 5) == 16 && riv(5, 1) == 5
}

#[test]
fn values_of_blocks(rt: HostRuntime) {
    assert!(rt; are_values());
    assignments_used_once();
}

// Returns whether both columns have the expected first and last transport block sizes, and no size after the last.
fn are_ends_of_columns() -> bool {
    size(0, 2) == Some(32)
        && size(21, 2) == Some(1000)
        && size(22, 2) == None
        && size(0, 3) == Some(56)
        && size(16, 3) == Some(968)
        && size(17, 3) == None
}

#[test]
fn sizes_at_the_ends_of_the_columns(rt: HostRuntime) {
    assert!(rt; are_ends_of_columns());
}

#[test]
fn refusals_in_their_order(rt: HostRuntime) {
    for (bits, reason) in [
        (0b000000000000000000000, Sib1Reason::NotFormat1A),
        (0b110000000000000000000, Sib1Reason::Distributed),
        (0b101010111011000000000, Sib1Reason::BadRiv(21)),
        (0b100101111011000000000, Sib1Reason::ReservedMcs(27)),
        (0b100101110110000000000, Sib1Reason::BlockTooLarge),
        (0b011111111111111111111, Sib1Reason::NotFormat1A),
    ] {
        assert!(rt; is_refused(bits, reason));
    }
    grants_and_bits();
}

#[test]
fn the_word_of_a_grant(rt: HostRuntime) {
    let grant = Grant {
        start: 0,
        blocks: 6,
        mcs: 4,
        column: 2,
        rv: 0,
        size: 120,
    };
    assert!(rt; size(4, 2) == Some(120));
    assert!(rt; is_read_as(0b100101100100000000000, grant, 0b100101100100000000000));
}

#[test]
fn what_is_not_looked_at(rt: HostRuntime) {
    let grant = Grant {
        start: 2,
        blocks: 3,
        mcs: 9,
        column: 3,
        rv: 2,
        size: 456,
    };
    assert!(rt; is_read_as(0b100111001001101110111, grant, 0b100111001001000010010));
}
