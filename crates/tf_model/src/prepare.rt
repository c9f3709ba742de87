//! From an instance and a problem to a task, or to the one refusal.
ghost use Rattle.std.specs.Prelude.{◌≡◌, ◌+◌, ◌<◌, ◌≤◌, Ok, length, map, position, IfSome};
ghost use Rattle.std.specs.Bool.{then_some};
ghost use Rattle.std.specs.Option.{ForSome};
ghost use Rattle.std.specs.List.{list_all};
ghost use Rattle.tf_model.specs.Whole.{as_time};
ghost use Rattle.tf_model.specs.Prepare.{is_too_many, machines_for, agreed, count_for};
ghost use Rattle.tf_model.specs.Prepare.{has_wrong_times, lacking, missing_from, has_zero_time};
ghost use Rattle.tf_model.specs.Prepare.{data_of, is_too_large, jobs_refusal, prepared, Prepares};
ghost use Rattle.tf_model.specs.Complete.{is_complete};
ghost use Rattle.tf_model.specs.Summed.{HasSummed};
ghost use Rattle.tf_model.specs.declared.prepare.Refusal.TheVariants.{OutOfMemory, TotalTooLarge};

use crate::class::{Class, class_of};
use crate::ids::JobId;
use crate::instance::{Instance, numbered};
use crate::job::{Job, Times};
use crate::job_rows::JobRow;
use crate::job_totals::JobTotals;
use crate::limit::{MOST_COSTED_JOBS, MOST_JOBS, MOST_MACHINES};
use crate::problem::Problem;
use crate::task::Task;
use crate::task_builder::TaskBuilder;
use std::alloc::{AllocError, Allocator};
use thiserror::Error;

/// A field that some classes use of a job.
#[derive(Clone, Copy, Debug, PartialEq, Eq)]
pub enum Field {
    Weight,
    Due,
    Release,
    Cost,
}

/// Why an instance is no task of a problem.
#[derive(Clone, Copy, Debug, PartialEq, Eq, Error)]
pub enum Refusal {
    /// No class has the problem.
    #[error("there is no solver for the problem")]
    NoSolver,
    /// There are more than `MOST_COSTED_JOBS`, where each job has a cost function of its own.
    #[error("there are too many jobs")]
    TooManyJobs,
    /// Neither the notation nor the caller nor the instance gives a number of machines.
    #[error("the number of machines is missing")]
    MachinesMissing,
    /// Two of them give different numbers.
    #[error("the numbers of machines disagree")]
    MachinesDisagree,
    /// This number is 0 or too large, or not 2 for a shop.
    #[error("{0} machines are not possible")]
    MachineCount(u32),
    /// The job has one time where two are wanted, or two where one is.
    #[error("job {} has the wrong number of times", .0.get())]
    WrongTimes(JobId),
    /// The job lacks a field that the class uses.
    #[error("job {} lacks a field", .0.get())]
    MissingField(JobId, Field),
    /// The job has time 0 on a single machine or on parallel machines.
    #[error("job {} takes no time", .0.get())]
    ZeroTime(JobId),
    /// A total of the class is beyond the limit.
    #[error("a total is beyond the limit")]
    TotalTooLarge,
    #[error("want of memory")]
    OutOfMemory,
}

impl From<AllocError> for Refusal {
    ghost from_gives = { λ _ e. e ≡ OutOfMemory };

    fn from(_: AllocError) -> Refusal {
        Refusal::OutOfMemory
    }
}

/// The task of an instance and a problem: the fields that the class uses, with the number of
/// machines that the notation, the argument or the instance gives. Otherwise the first refusal,
/// each kind over all jobs before the next kind, with the smallest job; want of memory comes last.
pub fn prepare<A: Allocator + Copy, B: Allocator>(
    alloc: A,
    instance: &Instance<B>,
    problem: &Problem,
    machines: Option<u32>,
) -> Result<Task<A>, Refusal>
    ensures { Prepares result (prepared instance.now problem.now machines) }
{
    if let Some(task) = assemble(alloc, instance, problem, machines) {
        return Ok(task);
    }
    let Some(class) = class_of(problem) else {
        return Err(Refusal::NoSolver);
    };
    if is_too_many(class, instance.len()) {
        return Err(Refusal::TooManyJobs);
    }
    machines_for(class, problem.count, machines, instance.machines())?;
    match jobs_refusal(class, instance.jobs()) {
        Some(refusal) => Err(refusal),
        None => Err(Refusal::OutOfMemory),
    }
}

// Whether there are more jobs than the class allows.
pub(crate) fn is_too_many(class: Class, jobs: usize) -> bool
    ensures { result ≡ is_too_many class jobs }
{
    class.is_costed() && jobs > MOST_COSTED_JOBS
}

// The machine count that two places give, each perhaps none.
fn agreed(one: Option<u32>, other: Option<u32>) -> Result<Option<u32>, Refusal>
    ensures { result ≡ agreed one other }
{
    match (one, other) {
        (None, other) => Ok(other),
        (one, None) => Ok(one),
        (Some(m), Some(n)) if m == n => Ok(Some(m)),
        _ => Err(Refusal::MachinesDisagree),
    }
}

fn count_for(class: Class, m: u32) -> Result<u32, Refusal>
    ensures { result ≡ count_for class m }
{
    if m == 0 || m > MOST_MACHINES || (class.is_shop() && m != 2) {
        return Err(Refusal::MachineCount(m));
    }
    Ok(m)
}

// The number of machines: a single machine ignores all that is given.
pub(crate) fn machines_for(
    class: Class,
    notation: Option<u32>,
    argument: Option<u32>,
    instance: Option<u32>,
) -> Result<u32, Refusal>
    ensures { result ≡ machines_for class notation argument instance }
{
    if class.is_single() {
        return Ok(1);
    }
    let count = agreed(notation, argument)?;
    let count = agreed(count, instance)?;
    match count {
        Some(m) => count_for(class, m),
        None => Err(Refusal::MachinesMissing),
    }
}

fn has_wrong_times<A: Allocator>(class: Class, job: &Job<A>) -> bool
    ensures { result ≡ has_wrong_times class job.now }
{
    let has_two = match job.times {
        Times::One(_) => false,
        Times::Two(_, _) => true,
    };
    has_two != class.is_shop()
}

fn wrong_times_at<A: Allocator>(class: Class, jobs: &[Job<A>]) -> Option<usize>
    ensures value { result ≡ position (has_wrong_times class) jobs.now }
    ensures within { ForSome result (λ k. k < length jobs.now) }
{
    jobs.iter().position(|job| has_wrong_times(class, job))
}

// The first field that the class uses and the job lacks.
fn lacking<A: Allocator>(class: Class, job: &Job<A>) -> Option<Field>
    ensures { result ≡ lacking class job.now }
{
    if class.is_weighted() && job.weight.is_none() {
        return Some(Field::Weight);
    }
    if class.is_released() && job.release.is_none() {
        return Some(Field::Release);
    }
    if class.is_due() && job.due.is_none() {
        return Some(Field::Due);
    }
    if class.is_costed() && job.cost.is_none() {
        return Some(Field::Cost);
    }
    None
}

fn first_missing<A: Allocator>(class: Class, jobs: &[Job<A>]) -> Option<Refusal>
    requires { length jobs.now ≤ MOST_JOBS }
    ensures { result ≡ missing_from class 1 jobs.now }
{
    for (k, job) in jobs.iter().enumerate() {
        if let Some(field) = lacking(class, job) {
            return Some(Refusal::MissingField(JobId::at(k), field));
        }
    }
    None
}

fn has_zero_time<A: Allocator>(job: &Job<A>) -> bool
    ensures { result ≡ has_zero_time job.now }
{
    match job.times {
        Times::One(time) => time < 1,
        Times::Two(first, second) => first < 1 || second < 1,
    }
}

fn zero_time_at<A: Allocator>(jobs: &[Job<A>]) -> Option<usize>
    ensures value { result ≡ position has_zero_time jobs.now }
    ensures within { ForSome result (λ k. k < length jobs.now) }
{
    jobs.iter().position(|job| has_zero_time(job))
}

// Whether a job by itself is no reason to refuse.
#[inline(always)]
pub(crate) fn is_complete<A: Allocator>(class: Class, job: &Job<A>) -> bool
    ensures { result ≡ is_complete class job.now }
{
    !has_wrong_times(class, job)
        && lacking(class, job).is_none()
        && (class.is_shop() || !has_zero_time(job))
}

// A number that is not negative.
fn as_time(number: i64) -> u64
    ensures { result ≡ as_time number }
{
    number.max(0) as u64
}

// What the class uses of a job, and what is neutral for the rest.
#[inline(always)]
pub(crate) fn row_of<A: Allocator>(class: Class, job: &Job<A>) -> JobRow
    ensures { result ≡ data_of class job.now }
{
    let (first, second) = match job.times {
        Times::One(time) => (time, 0),
        Times::Two(first, second) => (first, second),
    };
    JobRow {
        first: as_time(first),
        second: as_time(second),
        weight: if class.is_weighted() {
            as_time(job.weight.unwrap_or(0))
        } else {
            1
        },
        release: if class.is_released() {
            as_time(job.release.unwrap_or(0))
        } else {
            0
        },
        due: if class.is_due() {
            job.due.unwrap_or(0)
        } else {
            0
        },
    }
}

fn totals_of<A: Allocator>(class: Class, jobs: &[Job<A>]) -> JobTotals
    requires { length jobs.now ≤ MOST_JOBS }
    ensures { HasSummed result (map (data_of class) jobs.now) }
{
    let mut totals = JobTotals::new();
    for job in jobs {
        totals = totals.with(row_of(class, job));
    }
    totals
}

// The first refusal for the jobs' sake.
fn jobs_refusal<A: Allocator>(class: Class, jobs: &[Job<A>]) -> Option<Refusal>
    requires { length jobs.now ≤ MOST_JOBS }
    ensures { result ≡ jobs_refusal class jobs.now }
{
    if let Some(job) = numbered(wrong_times_at(class, jobs)) {
        return Some(Refusal::WrongTimes(job));
    }
    if let Some(refusal) = first_missing(class, jobs) {
        return Some(refusal);
    }
    if !class.is_shop()
        && let Some(job) = numbered(zero_time_at(jobs))
    {
        return Some(Refusal::ZeroTime(job));
    }
    totals_of(class, jobs)
        .is_too_large(class)
        .then_some(Refusal::TotalTooLarge)
}

// The task, where nothing is refused and memory is not wanting.
fn assemble<A: Allocator + Copy, B: Allocator>(
    alloc: A,
    instance: &Instance<B>,
    problem: &Problem,
    machines: Option<u32>,
) -> Option<Task<A>>
    ensures { IfSome result (λ task. prepared instance.now problem.now machines ≡ Ok task) }
{
    let jobs = instance.jobs();
    let mut builder = TaskBuilder::new(alloc, problem, machines, instance.machines(), jobs.len())?;
    for job in jobs {
        let job = job.copied(alloc).ok()?;
        builder.push(job)?;
    }
    let arcs = Vec::from_slice(alloc, instance.arcs()).ok()?;
    builder.finish(arcs)
}
