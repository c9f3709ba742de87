//! Tasks so small that all their schedules can be looked at.
use tf_model::problem::{Goal, Problem};

/// The most machines of a small task.
pub const MOST_MACHINES: usize = 3;

/// The most jobs of a small task.
pub const MOST_JOBS: usize = 4;

/// A job. Its times and dates are in time steps.
#[derive(Clone, Copy)]
pub struct SmallJob {
    /// The processing time on each machine of a shop; elsewhere the first is the only one.
    pub times: [i64; MOST_MACHINES],
    pub weight: i64,
    pub release: i64,
    pub due: i64,
}

impl SmallJob {
    /// What completing at a time contributes to the objective.
    pub fn price(&self, goal: Goal, completion: i64) -> i64 {
        let lateness = completion.saturating_sub(self.due);
        let is_late = i64::from(lateness > 0);
        match goal {
            Goal::Cmax | Goal::Hmax | Goal::SumC => completion,
            Goal::Lmax => lateness,
            Goal::SumWC => self.weight.saturating_mul(completion),
            Goal::SumT => lateness.max(0),
            Goal::SumWT => self.weight.saturating_mul(lateness.max(0)),
            Goal::SumU => is_late,
            Goal::SumWU => self.weight.saturating_mul(is_late),
        }
    }
}

/// A problem, its machines and jobs, and arcs between jobs. Jobs and machines count from 0.
#[derive(Drop)]
pub struct SmallTask {
    pub problem: Problem,
    /// At least 1.
    pub machines: usize,
    pub jobs: Vec<SmallJob>,
    /// The first job of each is completed before the second starts.
    pub arcs: Vec<(usize, usize)>,
}
