//! Johnson's order.
ghost use Rattle.std.specs.Prelude.{◌≡◌, ◌<◌, ◌≤◌, IfOk};
ghost use Rattle.tf_model.specs.Limit.{limit};
ghost use Rattle.tf_model.specs.SchedulingTask.{IsJob, time_of};
ghost use Rattle.tf_check.specs.RatioRank.{job_in};
ghost use Rattle.tf_multi.specs.FlowShop.{IsRanked};
ghost use Rattle.tf_multi.specs.Johnson.{IsJohnsonOrder};

use std::alloc::Allocator;
use tf_check::ranking::{push_jobs, rank_at};
use tf_model::ids::JobId;
use tf_model::limit::LIMIT;
use tf_model::memory::OutOfMemory;
use tf_model::task::Task;

// No place in the order is above it.
const LAST_PLACE: u64 = 2 * LIMIT as u64;

// First the jobs that take no longer on machine 1, by rising time there, then the others, by
// falling time on machine 2; jobs that tie in the order of their numbers.
pub(super) fn johnson_order<A: Allocator + Copy, B: Allocator>(
    alloc: A,
    task: &Task<B>,
) -> Result<Vec<JobId, A>, OutOfMemory>
    ensures { IfOk result (λ order. IsJohnsonOrder task.now order.items) }
{
    let mut order = Vec::with_capacity(alloc, task.len())?;
    let mut ranks = Vec::with_capacity(alloc, task.len())?;
    for k in 0..task.len() {
        ranks.push(rank_in(task, JobId::at(k)))?;
    }
    ranks.sort_unstable();
    push_jobs(&mut order, &ranks)?;
    Ok(order)
}

// Where a job belongs in the order, and then its number, as one number.
fn rank_in<B: Allocator>(task: &Task<B>, job: JobId) -> u128
    requires job { IsJob task.now job }
    requires within { time_of task.now job ≤ limit }
    requires few { job < 4294967296 }
    ensures job { job_in result ≡ job }
    ensures ranked { IsRanked task.now result }
{
    let row = task.job(job);
    let place = if row.first <= row.second {
        row.first
    } else {
        LAST_PLACE - row.second
    };
    rank_at(place, job)
}
