//! The task whose release dates and due dates follow by its arcs.
ghost use Rattle.std.specs.Prelude.{◌≡◌, ◌*◌, ℕ, ℤ, List, ◌<◌, ◌≤◌, pos, ◌-ℤ◌, length, map, IfOk};
ghost use Rattle.std.specs.Prelude.{IfSome, IsTrue, MatchOption, slice_index, slice_index_or};
ghost use Rattle.tf_model.specs.Limit.{limit};
ghost use Rattle.tf_posed.specs.ProblemData.{ProblemData, IsProblemJob, problem_job, problem_jobs};
ghost use Rattle.tf_posed.specs.ProblemCost.{IsLowerBound};
ghost use Rattle.tf_problem.specs.ProblemBounds.{is_max_goal, problem_work};
ghost use Rattle.tf_problem.specs.Pushed.{dated_goal, pushed, pushed_job};
ghost use Rattle.tf_bound.specs.JobNumbers.{number_by};
ghost use Rattle.tf_bound.specs.Along.{AreWithin};
ghost use Rattle.tf_bound.specs.Judged.{AreDeadlines, AreDuesWithin, AreHeads, AreKeptDues};
ghost use Rattle.tf_bound.specs.Judged.{AreMovedDues, IsJudgedTask, IsPushedTask};
ghost use Rattle.tf_bound.specs.Sized.{IsSized};

use crate::along::dates_along;
use crate::task::{ProblemJob, ProblemTask};
use std::alloc::Allocator;
use tf_model::ids::JobId;
use tf_model::limit::LIMIT;
use tf_model::memory::OutOfMemory;
use tf_model::problem::{Goal, Problem};
use tf_problem::laws::pushed_law;

// Which number of a job.
#[derive(Clone, Copy)]
enum Number {
    Release,
    Work,
    // How long before the limit the job is due.
    Tail,
}

/// The task on which a certificate is judged, where that is another: for a maximum the one whose
/// dates follow by the arcs.
pub fn judged_task<A: Allocator + Copy, B: Allocator>(
    alloc: A,
    task: &ProblemTask<B>,
) -> Result<Option<ProblemTask<A>>, OutOfMemory>
    ensures judged { IfOk result (λ found. MatchOption found
        (IsJudgedTask task.now task.now) (IsJudgedTask task.now)) }
    ensures bound { IfOk result (λ found. IfSome found (λ other.
        (b : ℤ) → IsLowerBound other b → IsLowerBound task.now b)) }
    ensures dated { IfOk result (λ found. IfSome found (IsPushedTask task.now)) }
    ensures goal { IfOk result (λ found. IfSome found (λ _.
        IsTrue (is_max_goal task.now.problem.goal))) }
{
    if is_of_maximum(task.problem().goal) {
        pushed_task(alloc, task)
    } else {
        Ok(None)
    }
}

/// The task whose dates follow by the arcs: its release dates, and for the makespan or the maximum
/// lateness its due dates. None where there is no arc; where the arcs form a cycle; or where a date
/// is beyond the limit.
pub fn pushed_task<A: Allocator + Copy, B: Allocator>(
    alloc: A,
    task: &ProblemTask<B>,
) -> Result<Option<ProblemTask<A>>, OutOfMemory>
    ensures pushed { IfOk result (λ found. MatchOption found
        ((other : ProblemData) → ¬ (IsPushedTask task.now other))
        (IsPushedTask task.now)) }
    ensures bound { IfOk result (λ found. IfSome found (λ other.
        (b : ℤ) → IsLowerBound other b → IsLowerBound task.now b)) }
{
    if !task.problem().prec || task.arcs().is_empty() {
        return Ok(None);
    }
    let work = numbers(alloc, task, Number::Work)?;
    let Some(releases) = heads(alloc, task, &work)? else {
        return Ok(None);
    };
    let Some(dues) = dues(alloc, task, &work)? else {
        return Ok(None);
    };
    pushed_law();
    with_dates(alloc, task, &releases, &dues)
}

/// Whether the objective is the makespan or the maximum lateness.
pub fn is_of_maximum(goal: Goal) -> bool
    ensures { result ≡ is_max_goal goal }
{
    matches!(goal, Goal::Cmax | Goal::Lmax)
}

fn number_of<B: Allocator>(task: &ProblemTask<B>, number: Number, job: JobId) -> u64
    requires { IsProblemJob task.now job }
    ensures { result ≡ number_by number task.now job }
{
    match number {
        Number::Release => task.release(job),
        Number::Work => task.work(job),
        Number::Tail => (LIMIT - task.due(job)) as u64,
    }
}

// The numbers of all jobs, in their order.
fn numbers<A: Allocator, B: Allocator>(
    alloc: A,
    task: &ProblemTask<B>,
    number: Number,
) -> Result<Vec<u64, A>, OutOfMemory>
    ensures { IfOk result
        (λ xs. xs.items ≡ map (number_by number task.now) (problem_jobs task.now)) }
{
    let mut numbers = Vec::with_capacity(alloc, task.len())?;
    for k in 0..task.len() {
        numbers.push(number_of(task, number, JobId::at(k)))?;
    }
    Ok(numbers)
}

// The release dates that follow by the arcs.
fn heads<A: Allocator + Copy, B: Allocator>(
    alloc: A,
    task: &ProblemTask<B>,
    work: &[u64],
) -> Result<Option<Vec<u64, A>>, OutOfMemory>
    requires prec { IsTrue task.now.problem.prec }
    requires work { work.now ≡ map (problem_work task.now) (problem_jobs task.now) }
    ensures { IfOk result (λ found. MatchOption found
        ((r : List ℕ) → AreHeads task.now r → ¬ (AreWithin r))
        (λ dates. AreHeads task.now dates.items)) }
{
    let own = numbers(alloc, task, Number::Release)?;
    dates_along(alloc, &own, work, task.arcs())
}

// The due dates: for a maximum those that follow by the arcs, for a sum the jobs' own.
fn dues<A: Allocator + Copy, B: Allocator>(
    alloc: A,
    task: &ProblemTask<B>,
    work: &[u64],
) -> Result<Option<Vec<i64, A>>, OutOfMemory>
    requires prec { IsTrue task.now.problem.prec }
    requires work { work.now ≡ map (problem_work task.now) (problem_jobs task.now) }
    ensures { IfOk result (λ found. MatchOption found
        ((d : List ℤ) → AreMovedDues task.now d → ¬ (AreDuesWithin d))
        (λ dues. AreMovedDues task.now dues.items × AreDuesWithin dues.items)) }
{
    if is_of_maximum(task.problem().goal) {
        return deadlines(alloc, task, work);
    }
    Ok(Some(own_dues(alloc, task)?))
}

fn own_due<B: Allocator>(task: &ProblemTask<B>, job: JobId) -> i64
    requires { IsProblemJob task.now job }
    ensures { result ≡ (problem_job task.now job).due }
{
    task.job(job).due
}

// The jobs' own due dates.
fn own_dues<A: Allocator, B: Allocator>(
    alloc: A,
    task: &ProblemTask<B>,
) -> Result<Vec<i64, A>, OutOfMemory>
    ensures kept { IfOk result (λ dues. AreKeptDues task.now dues.items) }
    ensures within { IfOk result (λ dues. AreDuesWithin dues.items) }
{
    let mut dues = Vec::with_capacity(alloc, task.len())?;
    for k in 0..task.len() {
        dues.push(own_due(task, JobId::at(k)))?;
    }
    Ok(dues)
}

// The due dates that follow by the arcs: counted back from the limit, they are dates along the arcs
// the other way round.
fn deadlines<A: Allocator + Copy, B: Allocator>(
    alloc: A,
    task: &ProblemTask<B>,
    work: &[u64],
) -> Result<Option<Vec<i64, A>>, OutOfMemory>
    requires prec { IsTrue task.now.problem.prec }
    requires work { work.now ≡ map (problem_work task.now) (problem_jobs task.now) }
    ensures { IfOk result (λ found. MatchOption found
        ((d : List ℤ) → AreDeadlines task.now d → ¬ (AreDuesWithin d))
        (λ dues. AreDeadlines task.now dues.items × AreDuesWithin dues.items)) }
{
    let own = numbers(alloc, task, Number::Tail)?;
    let back = reversed(alloc, task.arcs())?;
    match dates_along(alloc, &own, work, &back)? {
        Some(tails) => Ok(Some(before_limit(alloc, &tails)?)),
        None => Ok(None),
    }
}

// The arcs the other way round.
fn reversed<A: Allocator>(
    alloc: A,
    arcs: &[(JobId, JobId)],
) -> Result<Vec<(JobId, JobId), A>, OutOfMemory>
    ensures { IfOk result (λ back. back.items ≡ map (λ arc. (arc.1, arc.0)) arcs.now) }
{
    let mut back = Vec::with_capacity(alloc, arcs.len())?;
    for (before, after) in arcs {
        back.push((*after, *before))?;
    }
    Ok(back)
}

// The date that is so long before the limit.
fn date_of(tail: u64) -> i64
    requires { tail ≤ 2 * limit }
    ensures { result ≡ pos limit -ℤ pos tail }
{
    LIMIT - tail as i64
}

// The dates that are so long before the limit.
fn before_limit<A: Allocator>(alloc: A, tails: &[u64]) -> Result<Vec<i64, A>, OutOfMemory>
    requires { AreWithin tails.now }
    ensures { IfOk result (λ dates.
        dates.items ≡ map (λ tail. pos limit -ℤ pos tail) tails.now) }
{
    let mut dates = Vec::with_capacity(alloc, tails.len())?;
    for tail in tails {
        dates.push(date_of(*tail))?;
    }
    Ok(dates)
}

// The task with other dates. None where one is beyond the limit.
fn with_dates<A: Allocator + Copy, B: Allocator>(
    alloc: A,
    task: &ProblemTask<B>,
    releases: &[u64],
    dues: &[i64],
) -> Result<Option<ProblemTask<A>>, OutOfMemory>
    requires releases { length releases.now ≡ length task.now.jobs }
    requires dues { length dues.now ≡ length task.now.jobs }
    ensures { IfOk result (λ found. MatchOption found
        (¬ (IsSized (pushed task.now releases.now dues.now)))
        (λ other. (other ≡ pushed task.now releases.now dues.now) × IsSized other)) }
{
    let jobs = jobs_with(alloc, task, releases, dues)?;
    let arcs = Vec::from_slice(alloc, task.arcs())?;
    let problem = Problem {
        release: true,
        goal: dated_goal(task.problem().goal),
        ..task.problem()
    };
    match ProblemTask::new(problem, task.machines(), jobs, arcs) {
        Ok(other) => Ok(Some(other)),
        Err(_) => Ok(None),
    }
}

// The makespan of jobs with due dates is their maximum lateness.
fn dated_goal(goal: Goal) -> Goal
    ensures { result ≡ dated_goal goal }
{
    match goal {
        Goal::Cmax => Goal::Lmax,
        other => other,
    }
}

// The jobs with other dates.
fn jobs_with<A: Allocator + Copy, B: Allocator>(
    alloc: A,
    task: &ProblemTask<B>,
    releases: &[u64],
    dues: &[i64],
) -> Result<Vec<ProblemJob<A>, A>, OutOfMemory>
    requires releases { length releases.now ≡ length task.now.jobs }
    requires dues { length dues.now ≡ length task.now.jobs }
    ensures { IfOk result (λ jobs. jobs.items
        ≡ map (pushed_job task.now releases.now dues.now) (problem_jobs task.now)) }
{
    let mut jobs = Vec::with_capacity(alloc, task.len())?;
    for k in 0..task.len() {
        let job = with_date(alloc, task.job(JobId::at(k)), releases[k], dues[k])?;
        jobs.push(job)?;
    }
    Ok(jobs)
}

fn with_date<A: Allocator + Copy, B: Allocator>(
    alloc: A,
    job: &ProblemJob<B>,
    release: u64,
    due: i64,
) -> Result<ProblemJob<A>, OutOfMemory>
    ensures { IfOk result (λ other. other ≡ record job.now { release = release; due = due }) }
{
    Ok(ProblemJob {
        times: job.times.copied(alloc)?,
        weight: job.weight,
        release,
        due,
    })
}
