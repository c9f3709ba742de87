//! Jobs with their weights and times.
ghost use Rattle.std.specs.Prelude.{◌≤◌};

use tf_model::ids::JobId;

/// A job with its weight and its time.
#[derive(Clone, Copy, Debug)]
pub struct WeightedJob {
    pub job: JobId,
    /// How much each time step of its completion costs.
    pub weight: u64,
    /// In time steps, at least 1.
    pub time: u64,
    ghost worked: { 1 ≤ time },
}
