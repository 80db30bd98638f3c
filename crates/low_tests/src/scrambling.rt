ghost use Rattle.std.specs.Prelude.{◌^◌, ◌<◌};

use gold::fill;

// Returns whether the scrambling sequence for `c_init` begins with the 40 bits in `text`.
fn begins(c_init: u32, text: &[u8; 40]) -> bool
    requires { c_init < 2 ^ 31 }
{
    let mut bits = [true; 40];
    fill(c_init, &mut bits);
    bits.iter()
        .zip(text)
        .all(|(bit, digit)| *bit == (*digit == b'1'))
}

#[test]
fn bits_from_small_and_large_c_init(rt: HostRuntime) {
    assert!(rt; begins(0, b"0000001000011010000100100111101000100101"));
    assert!(rt; begins(1, b"0000001010000011000000110111010000101011"));
    assert!(rt; begins(718_534_081, b"1100101111000011011111101001101001000010"));
    assert!(rt; begins(2_147_483_647, b"1111110100001011111100111000111000101110"));
}
