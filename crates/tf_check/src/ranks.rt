//! The bound by ranks.
ghost use Rattle.std.specs.Prelude.{◌≡◌, ◌<◌, ◌≤◌, length, MatchOption, None, Some};
ghost use Rattle.std.specs.List.{All};
ghost use Rattle.tf_model.specs.Bounds.{ranks_value};
ghost use Rattle.tf_model.specs.Limit.{limit};
ghost use Rattle.tf_model.specs.SchedulingTask.{IsJob};
ghost use Rattle.tf_check.specs.Bound.{ranks_fault};
ghost use Rattle.tf_check.specs.declared.fault.BoundFault.TheVariants.{Condition};

use crate::evidence::Evidence;
use crate::fault::BoundFault;
use crate::jobs::judge_list;
use crate::kinds::takes_ranks;
use std::alloc::{Allocator, Global};
use tf_model::ids::JobId;
use tf_model::job_list::JobList;
use tf_model::task::Task;

/// Jobs by falling time: on m machines the k-th from the end counts at least k / m times, rounded
/// up (Conway, Maxwell and Miller 1967).
#[derive(Drop)]
pub struct Ranks<A: Allocator = Global> {
    pub jobs: JobList<A>,
}

impl<A: Allocator> Evidence for Ranks<A> {
    ghost use Rattle.std.specs.Prelude.{◌≡◌};
    ghost use Rattle.tf_check.specs.Bound.{ranks_bound};
    ghost use Rattle.tf_check.specs.Laws.{ranks_law};

    ghost bound_of = { λ c k. ranks_bound k c.jobs };

    ghost law = { λ c k. ranks_law k c.jobs };

    /// It takes memory for a mark for each job of the task.
    fn bound<B: Allocator + Copy, C: Allocator>(
        &self,
        alloc: B,
        task: &Task<C>,
    ) -> Result<i128, BoundFault> {
        if !takes_ranks(task.class()) {
            return Err(BoundFault::OtherKind);
        }
        let jobs = self.jobs.as_slice();
        judge_list(alloc, task, jobs)?;
        if jobs.is_empty() {
            return Err(BoundFault::EmptySet);
        }
        if let Some(job) = first_longer(task, jobs) {
            return Err(BoundFault::Condition(job));
        }
        Ok(i128::from(ranked_times(task, jobs)))
    }
}

// The first job that is longer than the one before it.
fn first_longer<C: Allocator>(task: &Task<C>, jobs: &[JobId]) -> Option<JobId>
    requires known { All (IsJob task.now) jobs.now }
    requires some { 0 < length jobs.now }
    ensures { MatchOption result (ranks_fault task.now jobs.now ≡ None) (λ job.
        ranks_fault task.now jobs.now ≡ Some (Condition job)) }
{
    let mut before = task.time(jobs[0]);
    for job in jobs {
        let time = task.time(*job);
        if time > before {
            return Some(*job);
        }
        before = time;
    }
    None
}

/// The times of the jobs, where that at place k, counted from 1, counts k / machines times, rounded
/// up: the bound by these ranks, in time steps.
pub fn ranked_times<C: Allocator>(task: &Task<C>, jobs: &[JobId]) -> u64
    requires known { All (IsJob task.now) jobs.now }
    requires value { ranks_value task.now jobs.now ≤ limit }
    ensures value { result ≡ ranks_value task.now jobs.now }
    ensures small { result ≤ limit }
{
    let machines = u64::from(task.machines());
    let mut value: u64 = 0;
    for (place, job) in jobs.iter().enumerate() {
        let rank = place as u64 + 1;
        value += rank.div_ceil(machines) * task.time(*job);
    }
    value
}
