//! QPSK modulation (TS 36.211 section 7.1.2).

ghost use Rattle.std.specs.Prelude.{◌≡◌};
ghost use Rattle.cs_num.specs.Complex.{square};
ghost use Rattle.crs.specs.Qpsk.{component, point, IsPoint};
ghost use Rattle.crs.specs.declared.qpsk.TheConstants.{POINT_POWER};

use cs_num::Cpx;

/// The squared magnitude of each QPSK symbol: 90^2 + 90^2.
pub const POINT_POWER: u32 = 16_200;

// Returns the QPSK component for `bit`: 90 for 0 and -90 for 1.
fn component_of(bit: bool) -> i64
    ensures { result ≡ component bit }
{
    if bit { -90 } else { 90 }
}

/// Returns the QPSK symbol for two bits: the first gives the real part, the second the imaginary part. A component is
/// 90 for the bit 0 and -90 for the bit 1.
pub fn point(first: bool, second: bool) -> Cpx
    ensures point { result ≡ point first second }
    ensures full { IsPoint result }
    ensures power { square result ≡ POINT_POWER }
{
    Cpx {
        re: component_of(first),
        im: component_of(second),
    }
}
