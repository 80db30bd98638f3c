//! Mobile network codes.

/// A mobile network code: its two or three digits, each 0 to 9 (TS 36.331 section 6.3.4).
#[derive(Clone, Copy, Debug, PartialEq, Eq)]
pub enum Mnc {
    Two([u8; 2]),
    Three([u8; 3]),
}
