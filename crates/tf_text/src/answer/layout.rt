//! The versions of answer texts.

/// The version of an answer text.
#[derive(Clone, Copy, Debug, PartialEq, Eq)]
pub enum Layout {
    /// Version 1: each job of a list stands alone.
    One,
    /// Version 2: a job set may name three jobs or more, each one more than the one before, as a
    /// range `A-B`.
    Two,
}
