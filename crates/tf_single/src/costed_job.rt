//! Jobs with what they cost, while the time falls at which they complete.
use std::alloc::Allocator;
use tf_model::cost::{Cost, Level};
use tf_model::ids::JobId;
use tf_model::task::Task;

/// A job, and what it costs from a time on up to the one that was asked for last.
#[derive(Clone, Copy)]
pub(crate) struct CostedJob {
    pub(crate) job: JobId,
    level: Level,
}

impl CostedJob {
    ghost use Rattle.std.specs.Prelude.{◌≡◌, ℕ, ◌≤◌};
    ghost use Rattle.tf_model.specs.Cost.{price};
    ghost use Rattle.tf_model.specs.Limit.{limit};
    ghost use Rattle.tf_model.specs.SchedulingTask.{SchedulingTask, IsJob};
    ghost use Rattle.tf_single.specs.CostedJob.{HasLevel};
    ghost use Rattle.tf_single.specs.Costs.{AreCosts};

    /// Nothing is known of its cost.
    pub(crate) fn new(job: JobId) -> Self
        ensures job { result.job ≡ job }
        ensures level { (k : SchedulingTask) (end : ℕ) → HasLevel k end result }
    {
        CostedJob {
            job,
            level: Level {
                value: 0,
                since: i64::MAX,
            },
        }
    }

    /// What it costs if it completes at `end`. Its cost function is asked only where its level is
    /// of later times.
    #[inline(always)]
    pub(crate) fn cost_at<B: Allocator, C: Cost>(
        &mut self,
        task: &Task<B>,
        costs: &[C],
        end: u64,
    ) -> i64
        requires costs { AreCosts C.cost_at task.now costs.now }
        requires job { IsJob task.now self.old.job }
        requires end { end ≤ limit }
        requires level { HasLevel task.now end self.old }
        ensures value { result ≡ price task.now self.old.job end }
        ensures job { self.new.job ≡ self.old.job }
        ensures level { HasLevel task.now end self.new }
    {
        if self.level.since > end as i64 {
            let cost = &costs[self.job.place()];
            self.level = cost.level_at(end as i64);
        }
        self.level.value
    }
}
