//! The dates of an instance's jobs.
ghost use Rattle.std.specs.Prelude.{◌≡◌, map, IfOk};
ghost use Rattle.tf_dated.specs.Dates.{dates_of};

use std::alloc::Allocator;
use tf_model::job::Job;
use tf_model::memory::OutOfMemory;
use tf_model::problem::Problem;
use tf_picture::dates::JobDates;
use tf_prepare::prepare::uses_due;

/// The dates of an instance's jobs that a problem uses.
pub fn dates_of<A: Allocator, B: Allocator>(
    alloc: A,
    problem: &Problem,
    jobs: &[Job<B>],
) -> Result<Vec<JobDates, A>, OutOfMemory>
    ensures { IfOk result (λ dates. dates.items ≡ map (dates_of problem.now) jobs.now) }
{
    let mut dates = Vec::with_capacity(alloc, jobs.len())?;
    for job in jobs {
        dates.push(job_dates(problem, job))?;
    }
    Ok(dates)
}

fn job_dates<B: Allocator>(problem: &Problem, job: &Job<B>) -> JobDates
    ensures { result ≡ dates_of problem.now job.now }
{
    JobDates {
        release: if problem.release { job.release } else { None },
        due: if uses_due(problem.goal) {
            job.due
        } else {
            None
        },
    }
}
