//! What happens to each job.
ghost use Rattle.std.specs.Prelude.{◌≡◌, ℕ, ◌≤◌, ◌+◌, ◌<◌, map, length, IfOk};
ghost use Rattle.tf_model.specs.Limit.{limit};
ghost use Rattle.tf_model.specs.SchedulingTask.{IsJob, all_jobs};
ghost use Rattle.tf_model.specs.Cost.{price};
ghost use Rattle.tf_schedule.specs.Lanes.{stop_in};
ghost use Rattle.tf_evaluate.specs.Outcomes.{outcome_in};

use crate::evaluation::JobOutcome;
use std::alloc::Allocator;
use tf_model::ids::JobId;
use tf_model::memory::OutOfMemory;
use tf_model::task::Task;
use tf_schedule::cost::price;
use tf_schedule::lanes::Lanes;

/// What happens to each job of the task, from 1 on, by the table of when they work.
pub(crate) fn outcomes<A: Allocator + Copy, B: Allocator, C: Allocator>(
    alloc: A,
    task: &Task<B>,
    lanes: &Lanes<C>,
) -> Result<Vec<JobOutcome, A>, OutOfMemory>
    requires { (j : ℕ) → IsJob task.now j → stop_in lanes.now j ≤ limit }
    ensures { IfOk result
        (λ v. v.items ≡ map (outcome_in task.now lanes.now) (all_jobs task.now)) }
{
    let mut outcomes = Vec::with_capacity(alloc, task.len())?;
    for k in 0..task.len() {
        outcomes.push(outcome(task, lanes, JobId::at(k)))?;
    }
    Ok(outcomes)
}

// What happens to a job.
fn outcome<A: Allocator, B: Allocator>(task: &Task<A>, lanes: &Lanes<B>, job: JobId) -> JobOutcome
    requires job { IsJob task.now job }
    requires stop { stop_in lanes.now job ≤ limit }
    ensures { result ≡ outcome_in task.now lanes.now job }
{
    let start = lanes.start(job);
    let stop = lanes.stop(job);
    JobOutcome {
        job,
        start: if stop == 0 { 0 } else { start },
        completion: stop,
        price: price_at(task, job, stop),
    }
}

// What a job costs if it completes then.
fn price_at<A: Allocator>(task: &Task<A>, job: JobId, completion: u64) -> i128
    requires job { IsJob task.now job }
    requires time { completion ≤ limit }
    ensures { result ≡ price task.now job completion }
{
    if task.class().is_sum() {
        let weighted = u128::from(task.weight(job)) * u128::from(completion);
        return weighted as i128;
    }
    price(task, job, completion as i64)
}
