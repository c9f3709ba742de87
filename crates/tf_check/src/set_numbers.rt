//! Numbers of a set of jobs: its work, its least release date, its greatest due date.
ghost use Rattle.std.specs.Prelude.{◌≡◌, ◌≤◌, ◌<◌, length, IsTrue};
ghost use Rattle.std.specs.List.{All, sum_by};
ghost use Rattle.tf_model.specs.SchedulingTask.{IsJob, job_data, time_of};
ghost use Rattle.tf_model.specs.ClassTable.{is_due, is_released};
ghost use Rattle.tf_model.specs.Limit.{limit};
ghost use Rattle.tf_model.specs.Sound.{IsSound};
ghost use Rattle.tf_check.specs.Bound.{greatest, least_number};

use std::alloc::Allocator;
use tf_model::ids::JobId;
use tf_model::task::Task;

/// The processing times of the jobs together, in time steps.
pub fn work_of<B: Allocator>(task: &Task<B>, jobs: &[JobId]) -> u64
    requires known { All (IsJob task.now) jobs.now }
    requires work { sum_by (time_of task.now) jobs.now ≤ limit }
    ensures { result ≡ sum_by (time_of task.now) jobs.now }
{
    let mut work: u64 = 0;
    for job in jobs {
        work += task.time(*job);
    }
    work
}

/// The least release date of jobs of which there are some.
pub fn least_release<B: Allocator>(task: &Task<B>, jobs: &[JobId]) -> u64
    requires sound { IsSound task.now }
    requires class { IsTrue (is_released task.now.class) }
    requires known { All (IsJob task.now) jobs.now }
    requires some { 0 < length jobs.now }
    ensures value { result ≡ least_number (λ j. (job_data task.now j).release) jobs.now }
    ensures small { result ≤ limit }
{
    let mut least = task.release(jobs[0]);
    for job in jobs {
        least = least.min(task.release(*job));
    }
    least
}

/// The greatest due date of jobs of which there are some.
pub fn greatest_due<B: Allocator>(task: &Task<B>, jobs: &[JobId]) -> i64
    requires class { IsTrue (is_due task.now.class) }
    requires known { All (IsJob task.now) jobs.now }
    requires some { 0 < length jobs.now }
    ensures { result ≡ greatest (λ j. (job_data task.now j).due) jobs.now }
{
    let mut greatest = task.due(jobs[0]);
    for job in jobs {
        greatest = greatest.max(task.due(*job));
    }
    greatest
}
