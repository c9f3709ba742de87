//! The limit of numbers.

/// The greatest absolute value of a number that is read, and the greatest horizon and total, in
/// time steps.
pub const LIMIT: i64 = 4_000_000_000_000_000_000;
