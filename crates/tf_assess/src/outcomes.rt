//! What happens to each job of any problem.
ghost use Rattle.std.specs.Prelude.{◌≡◌, map, IfOk};
ghost use Rattle.tf_posed.specs.ProblemData.{IsProblemJob, problem_jobs};
ghost use Rattle.tf_evaluate.specs.Outcomes.{outcome_on};
ghost use Rattle.tf_assess.specs.Assessing.{counted_by};

use std::alloc::Allocator;
use tf_bound::task::ProblemTask;
use tf_evaluate::evaluation::JobOutcome;
use tf_fit::cost::counted;
use tf_model::ids::JobId;
use tf_model::memory::OutOfMemory;
use tf_schedule::lanes::Lanes;

/// What happens to each job of the task, from 1 on, by the table of when they work.
pub(crate) fn outcomes<A: Allocator + Copy, B: Allocator, C: Allocator>(
    alloc: A,
    task: &ProblemTask<B>,
    lanes: &Lanes<C>,
) -> Result<Vec<JobOutcome, A>, OutOfMemory>
    ensures { IfOk result (λ v. v.items
        ≡ map (outcome_on (counted_by task.now) lanes.now) (problem_jobs task.now)) }
{
    let mut outcomes = Vec::with_capacity(alloc, task.len())?;
    for k in 0..task.len() {
        outcomes.push(outcome(task, lanes, JobId::at(k)))?;
    }
    Ok(outcomes)
}

// What happens to a job.
fn outcome<A: Allocator, B: Allocator>(
    task: &ProblemTask<A>,
    lanes: &Lanes<B>,
    job: JobId,
) -> JobOutcome
    requires { IsProblemJob task.now job }
    ensures { result ≡ outcome_on (counted_by task.now) lanes.now job }
{
    let start = lanes.start(job);
    let stop = lanes.stop(job);
    JobOutcome {
        job,
        start: if stop == 0 { 0 } else { start },
        completion: stop,
        price: counted(task.problem().goal, task, lanes, job),
    }
}
