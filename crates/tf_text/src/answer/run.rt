//! Runs of jobs.

/// The jobs from `first` to `last`, each one more than the one before.
#[derive(Clone, Copy, Debug, PartialEq, Eq)]
pub struct Run {
    pub first: u32,
    pub last: u32,
}
