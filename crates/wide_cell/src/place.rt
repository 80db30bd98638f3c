//! Resource elements.

/// A resource element of a subframe (TS 36.211 section 6.2.2).
#[derive(Clone, Copy, Debug, PartialEq, Eq)]
pub struct WidePlace {
    /// The symbol, 0 to 13.
    pub symbol: u8,
    /// The subcarrier, 0 for the lowest frequency, to 12 times the resource blocks, less 1.
    pub k: u16,
}
