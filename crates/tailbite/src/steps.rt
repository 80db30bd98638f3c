//! The steps of the encoder as a machine of 64 states.

ghost use Rattle.std.specs.Prelude.{◌≡◌, ◌<◌};
ghost use Rattle.tailbite.specs.Machine.{shift};

/// Returns the encoder's state after input bit `b` in state `x` (TS 36.212 section 5.1.3.1). A state is below 64 and
/// holds the last six input bits, the newest with weight 32.
pub fn next(x: usize, b: bool) -> usize
    requires { x < 64 }
    ensures next { result ≡ shift x b }
    ensures bound { result < 64 }
{
    x / 2 + if b { 32 } else { 0 }
}
