//! From an instance and any problem to a task, or to the first refusal.
ghost use Rattle.std.specs.Prelude.{◌≡◌, ◌<◌, ◌≤◌, [], if◌then◌else◌, is_some, length, position};
ghost use Rattle.std.specs.Prelude.{IfOk, IfErr};
ghost use Rattle.std.specs.Option.{ForSome};
ghost use Rattle.tf_model.specs.Prepare.{agreed};
ghost use Rattle.tf_bound.specs.JobTimes.{listed, route_in};
ghost use Rattle.tf_prepare.specs.Preparing.{uses_weight, uses_due, count_in, machines_in};
ghost use Rattle.tf_prepare.specs.Preparing.{has_wrong_times_in, wrong_times_in, lacking_in};
ghost use Rattle.tf_prepare.specs.Preparing.{missing_in, idle_in, jobs_refusal_in, job_in, jobs_in};
ghost use Rattle.tf_prepare.specs.Preparing.{plain_in, task_in, prepared_in, PreparesIn, IsOfSize};

use crate::routed::prepare_routed;
use crate::timed::{TimedInstance, as_time};
use std::alloc::{AllocError, Allocator};
use tf_bound::job_times::JobTimes;
use tf_bound::task::{ProblemJob, ProblemTask, needs_time};
use tf_model::ids::JobId;
use tf_model::job::{Job, Times};
use tf_model::limit::{MOST_JOBS, MOST_MACHINES};
use tf_model::prepare::{Field, Refusal};
use tf_model::problem::{Env, Goal, Problem};

/// The task of an instance and a problem: the fields that the problem uses, with the number of
/// machines that the notation, the argument or the instance gives. A shop has two machines, or as
/// many as the instance has times for; a job shop without such a number as many as its routes
/// name. Otherwise the first refusal, each kind over all jobs before the next kind, with the
/// smallest job; totals come last.
pub fn prepare_problem<A: Allocator + Copy, B: Allocator>(
    alloc: A,
    timed: &TimedInstance<B>,
    problem: &Problem,
    machines: Option<u32>,
) -> Result<ProblemTask<A>, Refusal>
    ensures { PreparesIn result (prepared_in timed.now problem.now machines) }
{
    match timed.routes() {
        Some(routes) => prepare_routed(alloc, timed.instance(), routes, problem, machines),
        None if matches!(problem.env, Env::JobShop) => Err(Refusal::WrongTimes(JobId::at(0))),
        None => prepare_plain(alloc, timed, problem, machines),
    }
}

// The task of an instance without routes.
fn prepare_plain<A: Allocator + Copy, B: Allocator>(
    alloc: A,
    timed: &TimedInstance<B>,
    problem: &Problem,
    machines: Option<u32>,
) -> Result<ProblemTask<A>, Refusal>
    ensures { PreparesIn result (plain_in timed.now problem.now machines) }
{
    let given = timed.instance().machines();
    let machines = machines_in(problem, timed.is_by_machine(), machines, given)?;
    if let Some(refusal) = jobs_refusal(problem, timed) {
        return Err(refusal);
    }
    assemble(alloc, problem, machines, timed)
}

// Whether the objective uses weights.
fn uses_weight(goal: Goal) -> bool
    ensures { result ≡ uses_weight goal }
{
    matches!(goal, Goal::SumWC | Goal::SumWT | Goal::SumWU)
}

/// Whether the objective uses due dates.
pub fn uses_due(goal: Goal) -> bool
    ensures { result ≡ uses_due goal }
{
    matches!(
        goal,
        Goal::Lmax | Goal::SumT | Goal::SumWT | Goal::SumU | Goal::SumWU
    )
}

// The machine count that two places give, each perhaps none.
pub(crate) fn agreed(one: Option<u32>, other: Option<u32>) -> Result<Option<u32>, Refusal>
    ensures { result ≡ agreed one other }
{
    match (one, other) {
        (None, other) => Ok(other),
        (one, None) => Ok(one),
        (Some(m), Some(n)) if m == n => Ok(Some(m)),
        _ => Err(Refusal::MachinesDisagree),
    }
}

// The number of machines: a single machine ignores all that is given.
fn machines_in(
    problem: &Problem,
    is_by_machine: bool,
    argument: Option<u32>,
    instance: Option<u32>,
) -> Result<u32, Refusal>
    ensures { result ≡ machines_in problem.now is_by_machine argument instance }
{
    if matches!(problem.env, Env::Single) {
        return Ok(1);
    }
    let count = agreed(problem.count, argument)?;
    let Some(m) = agreed(count, instance)? else {
        return Err(Refusal::MachinesMissing);
    };
    count_in(problem, is_by_machine, m)
}

// A number of machines that is one: a shop whose jobs have times of their own has two.
pub(crate) fn count_in(problem: &Problem, is_listed: bool, m: u32) -> Result<u32, Refusal>
    ensures { result ≡ count_in problem.now is_listed m }
{
    let wants_two = problem.env.is_shop() && !is_listed;
    if m == 0 || m > MOST_MACHINES || (wants_two && m != 2) {
        return Err(Refusal::MachineCount(m));
    }
    Ok(m)
}

fn has_wrong_times<A: Allocator>(problem: &Problem, job: &Job<A>) -> bool
    ensures { result ≡ has_wrong_times_in problem.now job.now }
{
    let has_two = match job.times {
        Times::One(_) => false,
        Times::Two(_, _) => true,
    };
    has_two != problem.env.is_shop()
}

fn wrong_times_at<A: Allocator>(problem: &Problem, jobs: &[Job<A>]) -> Option<usize>
    ensures value { result ≡ position (has_wrong_times_in problem.now) jobs.now }
    ensures within { ForSome result (λ k. k < length jobs.now) }
{
    jobs.iter().position(|job| has_wrong_times(problem, job))
}

// The first job with wrong times of its own, where these are the times.
fn first_wrong<A: Allocator>(
    problem: &Problem,
    is_by_machine: bool,
    jobs: &[Job<A>],
) -> Option<Refusal>
    requires { length jobs.now ≤ MOST_JOBS }
    ensures { result ≡ wrong_times_in problem.now is_by_machine jobs.now }
{
    if is_by_machine {
        return None;
    }
    match wrong_times_at(problem, jobs) {
        Some(place) => Some(Refusal::WrongTimes(JobId::at(place))),
        None => None,
    }
}

// The first field that the problem uses and the job lacks.
fn lacking<A: Allocator>(problem: &Problem, job: &Job<A>) -> Option<Field>
    ensures { result ≡ lacking_in problem.now job.now }
{
    if uses_weight(problem.goal) && job.weight.is_none() {
        return Some(Field::Weight);
    }
    if problem.release && job.release.is_none() {
        return Some(Field::Release);
    }
    if uses_due(problem.goal) && job.due.is_none() {
        return Some(Field::Due);
    }
    None
}

pub(crate) fn first_missing<A: Allocator>(problem: &Problem, jobs: &[Job<A>]) -> Option<Refusal>
    requires { length jobs.now ≤ MOST_JOBS }
    ensures { result ≡ missing_in problem.now 1 jobs.now }
{
    for (k, job) in jobs.iter().enumerate() {
        if let Some(field) = lacking(problem, job) {
            return Some(Refusal::MissingField(JobId::at(k), field));
        }
    }
    None
}

fn first_idle<A: Allocator>(timed: &TimedInstance<A>, jobs: &[Job<A>]) -> Option<Refusal>
    requires { length jobs.now ≤ MOST_JOBS }
    ensures { result ≡ idle_in timed.now.by_machine 0 jobs.now }
{
    for (k, job) in jobs.iter().enumerate() {
        if timed.is_idle(k, job) {
            return Some(Refusal::ZeroTime(JobId::at(k)));
        }
    }
    None
}

// The first refusal for the jobs' sake.
fn jobs_refusal<A: Allocator>(problem: &Problem, timed: &TimedInstance<A>) -> Option<Refusal>
    ensures { result ≡ jobs_refusal_in problem.now timed.now }
{
    let jobs = timed.instance().jobs();
    if let Some(refusal) = first_wrong(problem, timed.is_by_machine(), jobs) {
        return Some(refusal);
    }
    if let Some(refusal) = first_missing(problem, jobs) {
        return Some(refusal);
    }
    if needs_time(problem) {
        first_idle(timed, jobs)
    } else {
        None
    }
}

// What the problem uses of a job with these times, and what is neutral for the rest.
pub(crate) fn job_in<A: Allocator, B: Allocator>(
    problem: &Problem,
    times: JobTimes<A>,
    job: &Job<B>,
) -> ProblemJob<A>
    ensures { result ≡ job_in problem.now (listed times) (route_in times) job.now }
{
    ProblemJob {
        times,
        weight: if uses_weight(problem.goal) {
            as_time(job.weight.unwrap_or(0))
        } else {
            1
        },
        release: if problem.release {
            as_time(job.release.unwrap_or(0))
        } else {
            0
        },
        due: if uses_due(problem.goal) {
            job.due.unwrap_or(0)
        } else {
            0
        },
    }
}

fn jobs_in<A: Allocator + Copy, B: Allocator>(
    alloc: A,
    problem: &Problem,
    timed: &TimedInstance<B>,
    jobs: &[Job<B>],
) -> Result<Vec<ProblemJob<A>, A>, AllocError>
    ensures { IfOk result (λ rows. rows.items
        ≡ jobs_in problem.now timed.now.by_machine 0 jobs.now) }
{
    let mut rows = Vec::with_capacity(alloc, jobs.len())?;
    for (k, job) in jobs.iter().enumerate() {
        let times = timed.times(alloc, k, job)?;
        rows.push(job_in(problem, times, job))?;
    }
    Ok(rows)
}

// The arcs, where the problem uses them.
pub(crate) fn arcs_in<A: Allocator>(
    alloc: A,
    problem: &Problem,
    arcs: &[(JobId, JobId)],
) -> Result<Vec<(JobId, JobId), A>, AllocError>
    ensures { IfOk result (λ kept. kept.items ≡ (if problem.now.prec then arcs.now else [])) }
{
    if problem.prec {
        Vec::from_slice(alloc, arcs)
    } else {
        Ok(Vec::new(alloc))
    }
}

// The task of what was accepted, or the total that is beyond the limit.
fn assemble<A: Allocator + Copy, B: Allocator>(
    alloc: A,
    problem: &Problem,
    machines: u32,
    timed: &TimedInstance<B>,
) -> Result<ProblemTask<A>, Refusal>
    ensures ok { IfOk result (λ task. task ≡ task_in problem.now machines timed.now) }
    ensures err { IfErr result (IsOfSize (task_in problem.now machines timed.now)) }
{
    let instance = timed.instance();
    let jobs = jobs_in(alloc, problem, timed, instance.jobs())?;
    let arcs = arcs_in(alloc, problem, instance.arcs())?;
    match ProblemTask::new(*problem, machines, jobs, arcs) {
        Ok(task) => Ok(task),
        Err(_) => Err(Refusal::TotalTooLarge),
    }
}
