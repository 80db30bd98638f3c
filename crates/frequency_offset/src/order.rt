//! The order in which offsets are tried.

ghost use Rattle.std.specs.Prelude.{◌≡◌, ◌<◌, ◌≤◌, ◌+◌, ◌*◌, nat_abs};
ghost use Rattle.frequency_offset.specs.Order.{by_magnitude as by_magnitude_of};

// Returns integer `k` (from 0) in the order 0, -1, 1, -2, 2, ..
pub(crate) fn by_magnitude(k: usize) -> i16
    requires { k < 128 }
    ensures value { result ≡ by_magnitude_of k }
    ensures small { nat_abs result ≤ 64 }
    ensures early { k < 33 → nat_abs result ≤ 16 }
{
    let half = (k / 2) as i16;
    if k % 2 == 0 { half } else { -1 - half }
}
