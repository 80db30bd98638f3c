//! The version numbers of the programs and of the cell list's definition.

/// The programs' version.
pub const VERSION: &str = "0.9.0";

/// The version of the cell list's definition.
pub const DEFINITION: &str = "2";
