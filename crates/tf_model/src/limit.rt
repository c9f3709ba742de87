//! The limits within which problems are solved.

pub use tf_words::limit::LIMIT;

/// The most jobs of an instance.
pub const MOST_JOBS: usize = 100_000;

/// The most jobs where each has a cost function of its own.
pub const MOST_COSTED_JOBS: usize = 2_000;

/// The most machines of an instance.
pub const MOST_MACHINES: u32 = 1_000;

/// The most arcs of an instance.
pub const MOST_ARCS: usize = 200_000;

/// The most bytes of a text.
pub const MOST_BYTES: usize = 67_108_864;
