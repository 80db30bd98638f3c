//! The tables W and Z. W's real parts are stored for a period and three quarters, Z for half a period.

ghost use Rattle.std.specs.Prelude.{◌≡◌, ◌<◌};
ghost use Rattle.cs_num.specs.Complex.{IsWithin};
ghost use Rattle.fold128.specs.Tables.{z_half, cosine, w_at, z_at};

use cs_num::Cpx;

// C(0) to C(223): the real parts of W over one period, and 96 more, because W(m) has the imaginary part C(m + 96).
const COSINES: [i64; 224] = [
    16384, 16364, 16305, 16207, 16069, 15893, 15679, 15426, 15137, 14811, 14449, 14053, 13623,
    13160, 12665, 12140, 11585, 11003, 10394, 9760, 9102, 8423, 7723, 7005, 6270, 5520, 4756, 3981,
    3196, 2404, 1606, 804, 0, -804, -1606, -2404, -3196, -3981, -4756, -5520, -6270, -7005, -7723,
    -8423, -9102, -9760, -10394, -11003, -11585, -12140, -12665, -13160, -13623, -14053, -14449,
    -14811, -15137, -15426, -15679, -15893, -16069, -16207, -16305, -16364, -16384, -16364, -16305,
    -16207, -16069, -15893, -15679, -15426, -15137, -14811, -14449, -14053, -13623, -13160, -12665,
    -12140, -11585, -11003, -10394, -9760, -9102, -8423, -7723, -7005, -6270, -5520, -4756, -3981,
    -3196, -2404, -1606, -804, 0, 804, 1606, 2404, 3196, 3981, 4756, 5520, 6270, 7005, 7723, 8423,
    9102, 9760, 10394, 11003, 11585, 12140, 12665, 13160, 13623, 14053, 14449, 14811, 15137, 15426,
    15679, 15893, 16069, 16207, 16305, 16364, 16384, 16364, 16305, 16207, 16069, 15893, 15679,
    15426, 15137, 14811, 14449, 14053, 13623, 13160, 12665, 12140, 11585, 11003, 10394, 9760, 9102,
    8423, 7723, 7005, 6270, 5520, 4756, 3981, 3196, 2404, 1606, 804, 0, -804, -1606, -2404, -3196,
    -3981, -4756, -5520, -6270, -7005, -7723, -8423, -9102, -9760, -10394, -11003, -11585, -12140,
    -12665, -13160, -13623, -14053, -14449, -14811, -15137, -15426, -15679, -15893, -16069, -16207,
    -16305, -16364, -16384, -16364, -16305, -16207, -16069, -15893, -15679, -15426, -15137, -14811,
    -14449, -14053, -13623, -13160, -12665, -12140, -11585, -11003, -10394, -9760, -9102, -8423,
    -7723, -7005, -6270, -5520, -4756, -3981, -3196, -2404, -1606, -804,
];

// The real parts of Z(0) to Z(31).
const Z_REAL: [i8; 32] = [
    127, 126, 124, 121, 117, 112, 105, 97, 89, 79, 69, 58, 46, 34, 22, 9, -3, -16, -28, -40, -52,
    -64, -74, -84, -93, -101, -108, -114, -119, -123, -126, -127,
];

// The imaginary parts of Z(0) to Z(31).
const Z_IMAGINARY: [i8; 32] = [
    0, 13, 25, 37, 49, 61, 72, 82, 91, 99, 107, 113, 118, 122, 125, 127, 127, 126, 124, 120, 116,
    110, 103, 95, 86, 77, 66, 55, 43, 31, 19, 6,
];

// Selects between a table's stored part and the part that follows by symmetry.
macro_rules! by_symmetry {
    ($place:ident <= $last:literal => $value:expr, else $later:expr) => {
        if $place <= $last { $value } else { $later }
    };
}

// Returns C(`m`), an integer approximation to 16384 cos(2 pi `m` / 128).
fn cosine_of(m: usize) -> i64
    requires { m < 224 }
    ensures { result ≡ cosine m }
{
    COSINES[m]
}

/// Returns W(`m`), an integer approximation to 16384 exp(2 pi j `m` / 128). (own)
pub fn w(m: usize) -> Cpx
    ensures { result ≡ w_at m }
{
    let m = m % 128;
    Cpx {
        re: cosine_of(m),
        im: cosine_of(m + 96),
    }
}

// Returns Z(m) in the first half of its period.
fn z_half_of(m: usize) -> Cpx
    requires { m < 32 }
    ensures value { result ≡ z_half m }
    ensures small { IsWithin 127 result }
{
    Cpx {
        re: Z_REAL[m] as i64,
        im: Z_IMAGINARY[m] as i64,
    }
}

/// Returns Z(`m`), an integer approximation to 127 exp(2 pi j `m` / 63). (own)
pub fn z63(m: usize) -> Cpx
    ensures { result ≡ z_at m }
{
    let place = m % 63;
    by_symmetry!(place <= 31 => z_half_of(place), else z_half_of(63 - place).conj())
}
