//! The bounds of jobs that have one time each: windows, crowds, and one job anywhere.
ghost use Rattle.std.specs.Prelude.{◌≡◌, ℕ, ◌+◌, ◌*◌, ◌^◌, ◌<◌, ◌≤◌, ◌||◌, pos, ◌-ℤ◌, length};
ghost use Rattle.std.specs.Prelude.{sum_by, None, Some, IfOk, IsTrue, IsFalse, MatchResult};
ghost use Rattle.std.specs.List.{All};
ghost use Rattle.tf_model.specs.ClassTable.{is_shop_env};
ghost use Rattle.tf_model.specs.Cost.{greatest};
ghost use Rattle.tf_model.specs.Limit.{limit};
ghost use Rattle.tf_model.specs.Whole.{IsWithin};
ghost use Rattle.tf_check.specs.Bound.{least_number};
ghost use Rattle.tf_posed.specs.ProblemData.{IsProblemJob, problem_due, problem_release};
ghost use Rattle.tf_posed.specs.ProblemData.{problem_time};
ghost use Rattle.tf_posed.specs.ProblemCost.{IsLowerBound};
ghost use Rattle.tf_problem.specs.ProblemBounds.{is_alike, is_max_goal, crowd_value, one_job_value};
ghost use Rattle.tf_problem.specs.ProblemBounds.{problem_work, window_value};
ghost use Rattle.tf_bound.specs.Kinds.{takes_windows, takes_one_job};
ghost use Rattle.tf_bound.specs.Faulted.{crowd_fault, one_job_fault, window_fault, NamesFault};
ghost use Rattle.tf_bound.specs.Sized.{IsSized};

use crate::fault::BoundFault;
use crate::jobs::judge_list;
use crate::task::ProblemTask;
use std::alloc::Allocator;
use tf_model::ids::JobId;
use tf_model::problem::{Env, Goal};
use tf_problem::laws::{crowd_law, one_job_law, window_law};

/// Whether windows bound a problem: the makespan or the maximum lateness, on one machine or on
/// identical ones.
pub fn takes_windows<A: Allocator>(task: &ProblemTask<A>) -> bool
    ensures exact { result ≡ takes_windows task.now.problem }
    ensures alike { IsTrue result → IsTrue (is_alike task.now.problem.env) }
    ensures one_time { IsTrue result → IsFalse (is_shop_env task.now.problem.env) }
    ensures goal { IsTrue result → IsTrue (is_max_goal task.now.problem.goal) }
{
    let problem = task.problem();
    let env = matches!(problem.env, Env::Single | Env::Parallel);
    let goal = matches!(problem.goal, Goal::Cmax | Goal::Lmax);
    env && goal
}

// Whether one job bounds a problem: the makespan or the maximum lateness.
fn takes_one_job<A: Allocator>(task: &ProblemTask<A>) -> bool
    ensures exact { result ≡ takes_one_job task.now.problem }
    ensures env { IsTrue result → IsTrue (is_alike task.now.problem.env
        || is_shop_env task.now.problem.env) }
    ensures goal { IsTrue result → IsTrue (is_max_goal task.now.problem.goal) }
{
    let problem = task.problem();
    let env = !matches!(problem.env, Env::Uniform | Env::Unrelated);
    let goal = matches!(problem.goal, Goal::Cmax | Goal::Lmax);
    env && goal
}

// The least release date of jobs of which there are some.
pub(crate) fn least_release<B: Allocator>(task: &ProblemTask<B>, jobs: &[JobId]) -> u64
    requires known { All (IsProblemJob task.now) jobs.now }
    requires some { 0 < length jobs.now }
    ensures value { result ≡ least_number (problem_release task.now) jobs.now }
    ensures small { result ≤ limit }
{
    let mut least = task.release(jobs[0]);
    for job in jobs {
        least = least.min(task.release(*job));
    }
    least
}

// The least time of jobs of which there are some.
fn least_time<B: Allocator>(task: &ProblemTask<B>, jobs: &[JobId]) -> u64
    requires one_time { IsFalse (is_shop_env task.now.problem.env) }
    requires known { All (IsProblemJob task.now) jobs.now }
    requires some { 0 < length jobs.now }
    ensures value { result ≡ least_number (problem_time task.now) jobs.now }
    ensures small { result ≤ limit }
{
    let mut least = task.time(jobs[0]);
    for job in jobs {
        least = least.min(task.time(*job));
    }
    least
}

// The greatest due date of jobs of which there are some.
fn greatest_due<B: Allocator>(task: &ProblemTask<B>, jobs: &[JobId]) -> i64
    requires known { All (IsProblemJob task.now) jobs.now }
    requires some { 0 < length jobs.now }
    ensures { result ≡ greatest (problem_due task.now) jobs.now }
{
    let mut greatest = task.due(jobs[0]);
    for job in jobs {
        greatest = greatest.max(task.due(*job));
    }
    greatest
}

// The time of jobs together.
pub(crate) fn work_of<B: Allocator>(task: &ProblemTask<B>, jobs: &[JobId]) -> u128
    requires one_time { IsFalse (is_shop_env task.now.problem.env) }
    requires known { All (IsProblemJob task.now) jobs.now }
    ensures value { result ≡ sum_by (problem_time task.now) jobs.now }
    ensures small { result ≤ length jobs.now * limit }
{
    let mut work: u128 = 0;
    for job in jobs {
        work += u128::from(task.time(*job));
    }
    work
}

// How long an end is after a due date.
fn after_due(end: u128, due: i64) -> i128
    requires { end < 2 ^ 126 }
    ensures { result ≡ pos end -ℤ due }
{
    end as i128 - i128::from(due)
}

/// The bound by some jobs: they cannot begin before the least of their release dates.
pub fn window_bound<A: Allocator, B: Allocator>(
    alloc: A,
    task: &ProblemTask<B>,
    jobs: &[JobId],
) -> Result<i128, BoundFault>
    ensures fault { NamesFault (window_fault task.now jobs.now) result }
    ensures value { IfOk result (λ b. b ≡ window_value task.now jobs.now) }
    ensures bound { IfOk result (IsLowerBound task.now) }
{
    if !takes_windows(task) {
        return Err(BoundFault::OtherKind);
    }
    judge_list(alloc, task, jobs)?;
    if jobs.is_empty() {
        return Err(BoundFault::TooFew);
    }
    window_law();
    Ok(window_span(task, jobs))
}

fn window_span<B: Allocator>(task: &ProblemTask<B>, jobs: &[JobId]) -> i128
    requires one_time { IsFalse (is_shop_env task.now.problem.env) }
    requires known { All (IsProblemJob task.now) jobs.now }
    requires some { 0 < length jobs.now }
    ensures { result ≡ window_value task.now jobs.now }
{
    let shared = work_of(task, jobs).div_ceil(u128::from(task.machines()));
    let end = u128::from(least_release(task, jobs)) + shared;
    after_due(end, greatest_due(task, jobs))
}

/// The bound by more than `h` jobs for each machine, where none is preempted: one machine has to
/// take `h + 1` of them.
pub fn crowd_bound<A: Allocator, B: Allocator>(
    alloc: A,
    task: &ProblemTask<B>,
    h: u32,
    jobs: &[JobId],
) -> Result<i128, BoundFault>
    ensures fault { NamesFault (crowd_fault task.now h jobs.now) result }
    ensures value { IfOk result (λ b. b ≡ crowd_value task.now h jobs.now) }
    ensures bound { IfOk result (IsLowerBound task.now) }
{
    if !takes_windows(task) || task.problem().prmp {
        return Err(BoundFault::OtherKind);
    }
    judge_list(alloc, task, jobs)?;
    if u64::from(h) * u64::from(task.machines()) >= jobs.len() as u64 {
        return Err(BoundFault::TooFew);
    }
    crowd_law();
    Ok(crowd_span(task, h, jobs))
}

fn crowd_span<B: Allocator>(task: &ProblemTask<B>, h: u32, jobs: &[JobId]) -> i128
    requires one_time { IsFalse (is_shop_env task.now.problem.env) }
    requires known { All (IsProblemJob task.now) jobs.now }
    requires some { 0 < length jobs.now }
    ensures { result ≡ crowd_value task.now h jobs.now }
{
    let work = (u128::from(h) + 1) * u128::from(least_time(task, jobs));
    let end = u128::from(least_release(task, jobs)) + work;
    after_due(end, greatest_due(task, jobs))
}

/// The bound by one job.
pub fn one_job_bound<B: Allocator>(task: &ProblemTask<B>, job: JobId) -> Result<i128, BoundFault>
    ensures fault { MatchResult result (λ _. one_job_fault task.now job ≡ None)
        (λ fault. one_job_fault task.now job ≡ Some fault) }
    ensures value { IfOk result (λ b. b ≡ one_job_value task.now job) }
    ensures bound { IfOk result (IsLowerBound task.now) }
{
    if !takes_one_job(task) {
        return Err(BoundFault::OtherKind);
    }
    if job.get() as usize > task.len() {
        return Err(BoundFault::BadJob(job));
    }
    Ok(one_job_value(task, job))
}

/// What a job of a maximum costs at least.
pub fn one_job_value<B: Allocator>(task: &ProblemTask<B>, job: JobId) -> i128
    requires job { IsProblemJob task.now job }
    requires goal { IsTrue (is_max_goal task.now.problem.goal) }
    ensures value { result ≡ one_job_value task.now job }
    ensures bound { IsLowerBound task.now result }
{
    one_job_law();
    one_job_span(task, job)
}

fn one_job_span<B: Allocator>(task: &ProblemTask<B>, job: JobId) -> i128
    requires { IsProblemJob task.now job }
    ensures value { result ≡ one_job_value task.now job }
    ensures sized { IsSized task.now }
{
    i128::from(task.release(job) + task.work(job)) - i128::from(task.due(job))
}
