//! Jobs as rules see them.
ghost use Rattle.std.specs.Prelude.{◌≤◌};

use tf_model::ids::JobId;

/// What a rule sees of a job.
#[derive(Clone, Copy, Debug)]
pub struct RuledJob {
    pub job: JobId,
    /// In time steps, at least 1.
    pub time: u64,
    pub weight: u64,
    pub release: u64,
    pub due: i64,
    ghost worked: { 1 ≤ time },
}
