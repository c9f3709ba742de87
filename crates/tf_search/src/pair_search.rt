//! The two machines of a permutation flow shop that bound it most, with a side of its jobs.
//!
//! On two machines alone, with the time lags between them, Mitten's order (1959) is the shortest:
//! the jobs with no more time on the first machine by that time and their lag, rising, then the
//! others by their time on the second and their lag, falling. The job on which its makespan depends
//! shows the side. Nothing is promised of it: the judge computes what it bounds.
ghost use Rattle.std.specs.Prelude.{IsTrue};
ghost use Rattle.tf_model.specs.ClassTable.{is_flow_env};
ghost use Rattle.tf_posed.specs.ProblemData.{IsProblemJob};
ghost use Rattle.tf_bound.specs.Split.{ArePair};

use std::alloc::Allocator;
use std::cmp::Ordering;
use tf_bound::certificate::BoundCertificate;
use tf_bound::split::takes_split;
use tf_bound::task::ProblemTask;
use tf_model::ids::JobId;
use tf_model::memory::OutOfMemory;

// The most machines of which all pairs are looked at.
const MOST_PAIRED: usize = 20;

// A job with its times on two machines, and between them.
#[derive(Clone, Copy)]
struct TimedJob {
    job: JobId,
    first: u64,
    lag: u64,
    second: u64,
}

impl TimedJob {
    // Whether it has no more time on the first machine.
    fn is_early(&self) -> bool {
        self.first <= self.second
    }

    // Its time on the machine where it has less, and its lag.
    fn rank(&self) -> u64 {
        self.first.min(self.second).saturating_add(self.lag)
    }

    // Compares two jobs by Mitten's order.
    fn order(&self, other: &TimedJob) -> Ordering {
        let is_early = self.is_early();
        if is_early && !other.is_early() {
            return Ordering::Less;
        }
        if !is_early && other.is_early() {
            return Ordering::Greater;
        }
        let rank = self.rank();
        let other_rank = other.rank();
        if is_early {
            rank.cmp(&other_rank)
        } else {
            other_rank.cmp(&rank)
        }
    }
}

// The job on which a makespan depends, by its place in the order, and the makespan.
#[derive(Clone, Copy)]
struct Critical {
    place: usize,
    makespan: u64,
}

// Two machines, and what they bound.
#[derive(Clone, Copy)]
struct Valued {
    first: usize,
    second: usize,
    value: i128,
}

/// The certificate of the two machines that bound a permutation flow shop most.
pub(crate) fn pair_certificate<A: Allocator + Copy, B: Allocator>(
    alloc: A,
    task: &ProblemTask<B>,
) -> Result<Option<BoundCertificate<A>>, OutOfMemory> {
    if !takes_split(task) {
        return Ok(None);
    }
    match strongest_pair(alloc, task)? {
        Some(pair) => certificate_of(alloc, task, pair.first, pair.second),
        None => Ok(None),
    }
}

// Whether a pair is looked at: every one of few machines; of many those with the first or the last
// machine, and neighbours.
fn is_looked_at(machines: usize, first: usize, second: usize) -> bool {
    let last = machines.saturating_sub(1);
    machines <= MOST_PAIRED || first == 0 || second == last || second.saturating_sub(first) == 1
}

// The two machines of the greatest value.
fn strongest_pair<A: Allocator + Copy, B: Allocator>(
    alloc: A,
    task: &ProblemTask<B>,
) -> Result<Option<Valued>, OutOfMemory>
    requires { IsTrue (is_flow_env task.now.problem.env) }
{
    let mut best: Option<Valued> = None;
    for second in 0..task.machines() as usize {
        best = stronger(best, strongest_before(alloc, task, second)?);
    }
    Ok(best)
}

// The same, where the second machine is this one.
fn strongest_before<A: Allocator + Copy, B: Allocator>(
    alloc: A,
    task: &ProblemTask<B>,
    second: usize,
) -> Result<Option<Valued>, OutOfMemory>
    requires { IsTrue (is_flow_env task.now.problem.env) }
{
    let mut best: Option<Valued> = None;
    for first in 0..second {
        if is_looked_at(task.machines() as usize, first, second) {
            best = stronger(best, value_of_pair(alloc, task, first, second)?);
        }
    }
    Ok(best)
}

fn stronger(one: Option<Valued>, other: Option<Valued>) -> Option<Valued> {
    match (one, other) {
        (Some(best), Some(found)) if found.value <= best.value => Some(best),
        (best, None) => best,
        (_, found) => found,
    }
}

// Two machines with what they bound.
fn value_of_pair<A: Allocator, B: Allocator>(
    alloc: A,
    task: &ProblemTask<B>,
    first: usize,
    second: usize,
) -> Result<Option<Valued>, OutOfMemory>
    requires { IsTrue (is_flow_env task.now.problem.env) }
{
    if first >= second || second >= task.machines() as usize {
        return Ok(None);
    }
    let jobs = jobs_in_order(alloc, task, first, second)?;
    let makespan = i128::from(critical_job(&jobs).makespan);
    let rest = least_rest(task, second);
    let value = i128::from(least_head(task, first)).saturating_add(makespan);
    Ok(Some(Valued {
        first,
        second,
        value: value.saturating_add(rest),
    }))
}

// The certificate of two machines.
fn certificate_of<A: Allocator + Copy, B: Allocator>(
    alloc: A,
    task: &ProblemTask<B>,
    first: usize,
    second: usize,
) -> Result<Option<BoundCertificate<A>>, OutOfMemory>
    requires { IsTrue (is_flow_env task.now.problem.env) }
{
    if first >= second || second >= task.machines() as usize {
        return Ok(None);
    }
    let jobs = jobs_in_order(alloc, task, first, second)?;
    let place = critical_job(&jobs).place;
    if place >= jobs.len() {
        return Ok(None);
    }
    let by_first = jobs[place].is_early();
    let delta = jobs[place].rank();
    let behind = if by_first { 0 } else { 1 };
    let side = first_jobs(alloc, &jobs, place.saturating_add(behind))?;
    Ok(Some(BoundCertificate::Split {
        first,
        second,
        delta,
        by_first,
        side,
    }))
}

// The first jobs of an order, so many.
fn first_jobs<A: Allocator>(
    alloc: A,
    jobs: &[TimedJob],
    len: usize,
) -> Result<Vec<JobId, A>, OutOfMemory> {
    let mut side = Vec::with_capacity(alloc, len)?;
    for job in jobs.iter().take(len) {
        side.push(job.job)?;
    }
    Ok(side)
}

// All jobs in Mitten's order.
fn jobs_in_order<A: Allocator, B: Allocator>(
    alloc: A,
    task: &ProblemTask<B>,
    first: usize,
    second: usize,
) -> Result<Vec<TimedJob, A>, OutOfMemory>
    requires { ArePair task.now first second }
{
    let mut jobs = Vec::with_capacity(alloc, task.len())?;
    for k in 0..task.len() {
        jobs.push(timed_job(task, first, second, JobId::at(k)))?;
    }
    jobs.sort_unstable_by(|one, other| one.order(other));
    Ok(jobs)
}

// A job with its times. One without time on one of the machines can't show a lag.
fn timed_job<B: Allocator>(
    task: &ProblemTask<B>,
    first: usize,
    second: usize,
    job: JobId,
) -> TimedJob
    requires pair { ArePair task.now first second }
    requires job { IsProblemJob task.now job }
{
    let on_first = task.time_on(first, job);
    let on_second = task.time_on(second, job);
    let lag = if on_first == 0 || on_second == 0 {
        0
    } else {
        task.lag(first, second, job)
    };
    TimedJob {
        job,
        first: on_first,
        lag,
        second: on_second,
    }
}

// The job on which the makespan of an order depends.
fn critical_job(jobs: &[TimedJob]) -> Critical {
    let mut place: usize = 0;
    let mut begun: u64 = 0;
    let mut over: u64 = 0;
    for (k, job) in jobs.iter().enumerate() {
        begun = begun.saturating_add(job.first);
        let ready = begun.saturating_add(job.lag);
        if ready >= over {
            place = k;
            over = ready;
        }
        over = over.saturating_add(job.second);
    }
    Critical {
        place,
        makespan: over,
    }
}

// The least head of all jobs on a machine.
fn least_head<B: Allocator>(task: &ProblemTask<B>, machine: usize) -> u64
    requires flow { IsTrue (is_flow_env task.now.problem.env) }
{
    let mut least: u64 = u64::MAX;
    if machine >= task.machines() as usize {
        return least;
    }
    for k in 0..task.len() {
        least = least.min(task.head(machine, JobId::at(k)));
    }
    least
}

// The least of what each job has to go behind a machine, less its due date.
fn least_rest<B: Allocator>(task: &ProblemTask<B>, machine: usize) -> i128
    requires flow { IsTrue (is_flow_env task.now.problem.env) }
{
    let mut least: i128 = i128::MAX;
    if machine >= task.machines() as usize {
        return least;
    }
    for k in 0..task.len() {
        let job = JobId::at(k);
        let rest = i128::from(task.tail(machine, job)) - i128::from(task.due(job));
        least = least.min(rest);
    }
    least
}
