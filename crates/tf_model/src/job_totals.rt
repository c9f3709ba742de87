//! What jobs come to that a class may bound.
ghost use Rattle.std.specs.Prelude.{◌≤◌, ◌*◌, ◌^◌};
ghost use Rattle.tf_model.specs.Limit.{most_jobs};

use crate::class::Class;
use crate::job_rows::JobRow;
use crate::limit::LIMIT;

/// How many jobs there are so far, their time, their weight and their last release date.
#[derive(Clone, Copy)]
pub(crate) struct JobTotals {
    pub jobs: usize,
    pub work: u128,
    pub weight: u128,
    pub last_release: u64,
    pub ghost few: { jobs ≤ most_jobs },
    pub ghost work_small: { work ≤ jobs * 2 ^ 65 },
    pub ghost weight_small: { weight ≤ jobs * 2 ^ 64 },
}

impl JobTotals {
    ghost use Rattle.std.specs.Prelude.{◌≡◌, ◌+◌, ◌<◌, List, [], ◌∷◌, ◌++◌};
    ghost use Rattle.tf_model.specs.SchedulingTask.{JobData};
    ghost use Rattle.tf_model.specs.Prepare.{is_too_large};
    ghost use Rattle.tf_model.specs.Summed.{HasSummed};

    /// Of no job.
    pub(crate) fn new() -> Self
        ensures summed { HasSummed result [] }
        ensures count { result.jobs ≡ 0 }
    {
        JobTotals {
            jobs: 0,
            work: 0,
            weight: 0,
            last_release: 0,
        }
    }

    /// With one job more.
    #[inline(always)]
    pub(crate) fn with(self, row: JobRow) -> Self
        requires { self.jobs < most_jobs }
        ensures summed { (rows : List JobData) →
            HasSummed self rows → HasSummed result (rows ++ row ∷ []) }
        ensures count { result.jobs ≡ self.jobs + 1 }
    {
        JobTotals {
            jobs: self.jobs + 1,
            work: self.work + u128::from(row.first) + u128::from(row.second),
            weight: self.weight + u128::from(row.weight),
            last_release: self.last_release.max(row.release),
        }
    }

    /// Whether a total of the class is beyond the limit.
    pub(crate) fn is_too_large(self, class: Class) -> bool
        ensures { (rows : List JobData) → HasSummed self rows → result ≡ is_too_large class rows }
    {
        const MOST: u128 = LIMIT as u128;
        if self.work > MOST || u128::from(self.last_release) + self.work > MOST {
            return true;
        }
        class.is_sum()
            && self
                .weight
                .checked_mul(self.work)
                .is_none_or(|total| total > MOST)
    }
}
