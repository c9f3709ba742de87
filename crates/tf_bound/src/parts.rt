//! The bound by the work that some jobs have to do in one interval (energetic reasoning: Erschler,
//! Lopez and Thuriot 1991).
ghost use Rattle.std.specs.Prelude.{◌≡◌, ◌*◌, ◌^◌, ◌-◌, ◌≤◌, ◌≤ℤ◌, pos, ◌+ℤ◌, ◌-ℤ◌, length, sum_by};
ghost use Rattle.std.specs.Prelude.{IfOk, IsFalse};
ghost use Rattle.std.specs.List.{All};
ghost use Rattle.tf_model.specs.ClassTable.{is_shop_env};
ghost use Rattle.tf_model.specs.Limit.{limit};
ghost use Rattle.tf_model.specs.Whole.{as_time};
ghost use Rattle.tf_posed.specs.ProblemData.{IsProblemJob};
ghost use Rattle.tf_posed.specs.ProblemCost.{IsLowerBound};
ghost use Rattle.tf_problem.specs.Parts.{part_of, time_behind};
ghost use Rattle.tf_bound.specs.Faulted.{parts_fault, NamesFault};

use crate::alike::takes_windows;
use crate::fault::BoundFault;
use crate::jobs::judge_list;
use crate::task::ProblemTask;
use std::alloc::Allocator;
use tf_model::ids::JobId;
use tf_problem::laws::parts_law;

/// An interval of time, and a lateness that some job reaches.
#[derive(Clone, Copy)]
pub struct Interval {
    /// Its first time step.
    pub from: u64,
    /// The time at which it ends.
    pub until: u64,
    /// The lateness that no job may reach, or the makespan.
    pub late: i64,
}

impl Interval {
    fn length(&self) -> u64
        ensures { result ≡ self.now.until - self.now.from }
    {
        self.until.saturating_sub(self.from)
    }
}

// When a job is over that is less late, at the latest.
fn latest_end(due: i64, late: i64) -> i128
    ensures { result ≡ (due +ℤ late) -ℤ pos 1 }
{
    i128::from(due) + i128::from(late) - 1
}

// How many time steps there are from a time to another; none where that is not later.
fn steps_between(from: u64, until: i128) -> u128
    requires { (pos 0 -ℤ pos (2 ^ 126)) ≤ℤ until }
    ensures { result ≡ as_time (until -ℤ pos from) }
{
    let steps = until - i128::from(from);
    steps.max(0) as u128
}

// How much of its time a job can do from the end of the interval on, and be less late.
fn time_behind<B: Allocator>(task: &ProblemTask<B>, interval: Interval, job: JobId) -> u128
    requires { IsProblemJob task.now job }
    ensures { result ≡ time_behind task.now interval.until interval.late job }
{
    steps_between(interval.until, latest_end(task.due(job), interval.late))
}

/// What a job has to do in the interval, if it is to be less late.
pub fn part_of<B: Allocator>(task: &ProblemTask<B>, interval: Interval, job: JobId) -> u128
    requires one_time { IsFalse (is_shop_env task.now.problem.env) }
    requires job { IsProblemJob task.now job }
    ensures value { result ≡ part_of task.now interval.from interval.until interval.late job }
    ensures small { result ≤ limit }
{
    let time = u128::from(task.time(job));
    let before = u128::from(interval.from.saturating_sub(task.release(job)));
    let behind = time_behind(task, interval, job);
    let left = time.saturating_sub(before);
    let within = left.saturating_sub(behind);
    if task.problem().prmp {
        return within;
    }
    let unbroken = left.min(time.saturating_sub(behind));
    within.max(unbroken.min(u128::from(interval.length())))
}

// What jobs have to do together.
fn parts_of<B: Allocator>(task: &ProblemTask<B>, interval: Interval, jobs: &[JobId]) -> u128
    requires one_time { IsFalse (is_shop_env task.now.problem.env) }
    requires known { All (IsProblemJob task.now) jobs.now }
    ensures value { result
        ≡ sum_by (part_of task.now interval.from interval.until interval.late) jobs.now }
    ensures small { result ≤ length jobs.now * limit }
{
    let mut work: u128 = 0;
    for job in jobs {
        work += part_of(task, interval, *job);
    }
    work
}

/// The bound by jobs that have more to do in the interval than the machines have room for.
pub fn parts_bound<A: Allocator, B: Allocator>(
    alloc: A,
    task: &ProblemTask<B>,
    interval: Interval,
    jobs: &[JobId],
) -> Result<i128, BoundFault>
    ensures fault { NamesFault
        (parts_fault task.now interval.from interval.until interval.late jobs.now) result }
    ensures value { IfOk result (λ b. b ≡ interval.late) }
    ensures bound { IfOk result (IsLowerBound task.now) }
{
    if !takes_windows(task) {
        return Err(BoundFault::OtherKind);
    }
    judge_list(alloc, task, jobs)?;
    let room = u128::from(task.machines()) * u128::from(interval.length());
    if parts_of(task, interval, jobs) <= room {
        return Err(BoundFault::HasRoom);
    }
    parts_law();
    Ok(i128::from(interval.late))
}
