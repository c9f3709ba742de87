//! What completed jobs cost.
use crate::table::JobNumbers;
use tf_model::problem::Goal;

/// The completion time of a job that is late, and runs after all others.
pub const LATE: u64 = u64::MAX;

/// How the cost of a schedule follows from completion times.
#[derive(Clone, Copy, Debug, PartialEq, Eq)]
pub enum Measure {
    /// The maximum lateness; with due dates of 0 the makespan.
    MaximumLateness,
    /// The sum of weighted tardiness; with due dates of 0 that of weighted completion times.
    TotalTardiness,
    /// The sum of the weights of late jobs.
    LateWeight,
}

impl Measure {
    /// The measure of an objective, of jobs that have due dates of 0 where it names none.
    pub fn of(goal: Goal) -> Measure {
        match goal {
            Goal::Cmax | Goal::Lmax | Goal::Hmax => Measure::MaximumLateness,
            Goal::SumU | Goal::SumWU => Measure::LateWeight,
            _ => Measure::TotalTardiness,
        }
    }

    /// What no job costs.
    #[inline(always)]
    pub fn nothing(self) -> i128 {
        match self {
            Measure::MaximumLateness => i128::MIN,
            _ => 0,
        }
    }

    /// What jobs cost together that cost so much.
    #[inline(always)]
    pub fn joined(self, one: i128, other: i128) -> i128 {
        match self {
            Measure::MaximumLateness => one.max(other),
            _ => one.wrapping_add(other),
        }
    }

    /// What a job costs that completes at `end`.
    #[inline(always)]
    pub fn price(self, job: JobNumbers, end: u64) -> i128 {
        let lateness = i128::from(end).wrapping_sub(i128::from(job.due));
        match self {
            Measure::MaximumLateness => lateness,
            Measure::TotalTardiness => i128::from(job.weight).wrapping_mul(lateness.max(0)),
            Measure::LateWeight if lateness > 0 => i128::from(job.weight),
            Measure::LateWeight => 0,
        }
    }
}
