//! Small tasks in the program's own types, and their strongest bounds.
use super::small_task::{SmallJob, SmallTask};
use std::alloc::{AllocError, Global};
use std::test::Fail;
use tf_bound::job_times::JobTimes;
use tf_bound::task::{ProblemJob, ProblemTask};
use tf_model::ids::JobId;
use tf_search::effort::{Effort, Nobody};
use tf_search::strongest::strongest;

fn problem_job(alloc: Global, task: &SmallTask, job: &SmallJob) -> Result<ProblemJob, AllocError> {
    let count = if task.problem.env.is_shop() {
        task.machines
    } else {
        1
    };
    let mut times = Vec::new(alloc);
    for time in job.times.iter().take(count) {
        times.push(time.unsigned_abs())?;
    }
    Ok(ProblemJob {
        times: JobTimes::Each(times),
        weight: job.weight.unsigned_abs(),
        release: job.release.unsigned_abs(),
        due: job.due,
    })
}

// The number of a job that counts from 0.
fn job_id(place: usize) -> Option<JobId> {
    JobId::new(u32::try_from(place).ok()?.checked_add(1)?)
}

fn problem_jobs(alloc: Global, task: &SmallTask) -> Result<Vec<ProblemJob>, AllocError> {
    let mut jobs = Vec::new(alloc);
    for job in task.jobs.iter() {
        jobs.push(problem_job(alloc, task, job)?)?;
    }
    Ok(jobs)
}

fn arcs_of(alloc: Global, task: &SmallTask) -> Result<Vec<(JobId, JobId)>, AllocError> {
    let mut arcs = Vec::new(alloc);
    for (before, after) in task.arcs.iter() {
        if let (Some(before), Some(after)) = (job_id(*before), job_id(*after)) {
            arcs.push((before, after))?;
        }
    }
    Ok(arcs)
}

fn problem_task(alloc: Global, task: &SmallTask) -> Result<ProblemTask, Fail> {
    let jobs = problem_jobs(alloc, task)?;
    let arcs = arcs_of(alloc, task)?;
    let machines = u32::try_from(task.machines).unwrap_or(0);
    Ok(ProblemTask::new(task.problem, machines, jobs, arcs)?)
}

/// The value of the strongest bound that the program finds.
pub fn bound_of(alloc: Global, task: &SmallTask) -> Result<Option<i128>, Fail> {
    let task = problem_task(alloc, task)?;
    let effort: Effort<Nobody> = Effort::untold(None);
    let found = strongest(alloc, &task, effort)?;
    Ok(Some(found.value))
}
