//! How long what comes in a stream may be.

/// The most bytes of a line, its break included.
pub const LINE_OCTETS: usize = 65_536;

/// The most bytes of a message that is taken.
pub const MESSAGE_OCTETS: usize = 1_048_576;

/// The most bytes of a delta that arrives.
pub const DELTA_OCTETS: usize = 67_108_864;
