//! The version.

/// The version of these crates and of the program.
pub const VERSION: &str = "0.1.0";
