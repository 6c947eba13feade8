//! The integers of a file.

/// The greatest integer that a file can hold.
pub const GREATEST_INTEGER: u64 = 9223372036854775807;
