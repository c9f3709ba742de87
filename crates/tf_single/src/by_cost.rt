//! Free jobs with their costs.
ghost use Rattle.std.specs.Prelude.{◌≡◌, ℕ, ◌<◌, ◌≤◌, ◌≤ℤ◌, length, slice_index};
ghost use Rattle.std.specs.List.{All};
ghost use Rattle.tf_model.specs.Cost.{price};
ghost use Rattle.tf_model.specs.Limit.{limit};
ghost use Rattle.tf_model.specs.SchedulingTask.{IsJob};
ghost use Rattle.tf_single.specs.CostedJob.{HasLevel, jobs_of};
ghost use Rattle.tf_single.specs.Costs.{AreCosts};

use crate::costed_job::CostedJob;
use crate::free_jobs::{FreeJobs, LastJob};
use std::alloc::Allocator;
use tf_model::cost::Cost;
use tf_model::ids::JobId;
use tf_model::memory::OutOfMemory;
use tf_model::task::Task;

/// Free jobs with the costs of all jobs: a walk over the free ones finds the cheapest.
#[derive(Drop)]
pub(crate) struct ByCost<'a, C: Cost, A: Allocator> {
    costs: &'a [C],
    free: Vec<CostedJob, A>,
}

impl<'a, C: Cost, A: Allocator + Copy> ByCost<'a, C, A> {
    ghost use Rattle.std.specs.Prelude.{◌≡◌, [], IfOk};
    ghost use Rattle.tf_single.specs.Costs.{AreCosts};

    /// No job is free.
    pub(crate) fn new<B: Allocator>(
        alloc: A,
        task: &Task<B>,
        costs: &'a [C],
    ) -> Result<Self, OutOfMemory>
        requires { AreCosts C.cost_at task.now costs.now }
        ensures none { IfOk result (λ free. free.free.items ≡ []) }
        ensures costs { IfOk result (λ free. AreCosts C.cost_at task.now free.costs.now) }
    {
        Ok(ByCost {
            costs,
            free: Vec::with_capacity(alloc, task.len())?,
        })
    }
}

impl<C: Cost, A: Allocator> FreeJobs for ByCost<'_, C, A> {
    ghost use Rattle.std.specs.List.{All};
    ghost use Rattle.tf_single.specs.CostedJob.{HasLevel, jobs_of};
    ghost use Rattle.tf_single.specs.Costs.{AreCosts};

    ghost jobs_of = { λ free. jobs_of free.free.items };

    ghost IsKept = { λ free k work.
        AreCosts C.cost_at k free.costs.now × All (HasLevel k work) free.free.items };

    fn is_empty(&self) -> bool {
        self.free.is_empty()
    }

    fn add<B: Allocator>(&mut self, _: &Task<B>, job: JobId) -> Result<(), OutOfMemory> {
        self.free.push(CostedJob::new(job))?;
        Ok(())
    }

    fn take_last<B: Allocator>(&mut self, task: &Task<B>, work: u64) -> LastJob {
        let costs = self.costs;
        let (place, cost) = cheapest(task, costs, self.free.as_mut_slice(), work);
        LastJob {
            job: self.free.swap_remove(place).job,
            cost,
        }
    }
}

// The place of the cheapest of these jobs if it completes at `end`, of the greatest number among
// equals, and what it costs.
fn cheapest<B: Allocator, C: Cost>(
    task: &Task<B>,
    costs: &[C],
    free: &mut [CostedJob],
    end: u64,
) -> (usize, i64)
    requires costs { AreCosts C.cost_at task.now costs.now }
    requires some { 0 < length free.old }
    requires known { All (IsJob task.now) (jobs_of free.old) }
    requires end { end ≤ limit }
    requires levels { All (HasLevel task.now end) free.old }
    ensures within { result.0 < length free.new }
    ensures cost { result.1
        ≡ price task.now (slice_index (jobs_of free.new) result.0) end }
    ensures cheapest { (k : ℕ) → k < length free.new
        → result.1 ≤ℤ price task.now (slice_index (jobs_of free.new) k) end }
    ensures ties { (k : ℕ) → k < length free.new
        → price task.now (slice_index (jobs_of free.new) k) end ≡ result.1
        → slice_index (jobs_of free.new) k ≤ slice_index (jobs_of free.new) result.0 }
    ensures jobs { jobs_of free.new ≡ jobs_of free.old }
    ensures levels { All (HasLevel task.now end) free.new }
{
    let mut place = 0;
    let mut last = free[0].job;
    let mut least = free[0].cost_at(task, costs, end);
    for k in 1..free.len() {
        let cost = free[k].cost_at(task, costs, end);
        if cost > least {
            continue;
        }
        let job = free[k].job;
        if cost < least || last < job {
            place = k;
            last = job;
            least = cost;
        }
    }
    (place, least)
}
