//! Jobs in orders of which some front makes a strong window or crowd.
//!
//! Nothing is promised of the orders and the fronts: the judges compute what they bound.
ghost use Rattle.std.specs.Prelude.{IfOk};
ghost use Rattle.std.specs.List.{All};
ghost use Rattle.tf_check.specs.RatioRank.{IsOfJob};
ghost use Rattle.tf_posed.specs.ProblemData.{IsProblemJob};

use std::alloc::Allocator;
use tf_bound::task::ProblemTask;
use tf_check::ranking::{push_jobs, rank_at};
use tf_model::ids::JobId;
use tf_model::memory::OutOfMemory;

/// By what jobs are sorted.
#[derive(Clone, Copy, Debug, PartialEq, Eq)]
pub(crate) enum Rank {
    /// The latest release date first.
    LastReleased,
    /// The earliest due date first, of the jobs that are released at this time or later.
    FirstDue(u64),
    /// The earliest release date first.
    FirstReleased,
    /// The longest processing time first, of the jobs that take longer than this many time steps.
    LongerThan(u64),
}

// Where a job belongs in the order of a rank, and none where it is left out.
fn place_of<B: Allocator>(task: &ProblemTask<B>, rank: Rank, job: JobId) -> Option<u64>
    requires { IsProblemJob task.now job }
{
    match rank {
        Rank::LastReleased => Some(u64::MAX - task.release(job)),
        Rank::FirstReleased => Some(task.release(job)),
        Rank::FirstDue(from) if task.release(job) < from => None,
        Rank::FirstDue(_) => Some(task.due(job).abs_diff(i64::MIN)),
        Rank::LongerThan(time) if task.work(job) <= time => None,
        Rank::LongerThan(_) => Some(u64::MAX - task.work(job)),
    }
}

// Whether the jobs by number are in the order of the rank.
fn are_in_order<B: Allocator>(task: &ProblemTask<B>, rank: Rank) -> bool {
    let mut last = 0;
    for k in 0..task.len() {
        if let Some(place) = place_of(task, rank, JobId::at(k)) {
            if place < last {
                return false;
            }
            last = place;
        }
    }
    true
}

// The jobs of a rank by number.
fn jobs_of<A: Allocator, B: Allocator>(
    alloc: A,
    task: &ProblemTask<B>,
    rank: Rank,
) -> Result<Vec<JobId, A>, OutOfMemory> {
    let mut jobs = Vec::with_capacity(alloc, task.len())?;
    for k in 0..task.len() {
        let job = JobId::at(k);
        if place_of(task, rank, job).is_some() {
            jobs.push(job)?;
        }
    }
    Ok(jobs)
}

// The places of the jobs of a rank, with their numbers.
fn ranks_of<A: Allocator, B: Allocator>(
    alloc: A,
    task: &ProblemTask<B>,
    rank: Rank,
) -> Result<Vec<u128, A>, OutOfMemory>
    ensures { IfOk result (λ ranks. All IsOfJob ranks.items) }
{
    let mut ranks = Vec::with_capacity(alloc, task.len())?;
    for k in 0..task.len() {
        let job = JobId::at(k);
        if let Some(place) = place_of(task, rank, job) {
            ranks.push(rank_at(place, job))?;
        }
    }
    Ok(ranks)
}

/// The release dates of the jobs from the first on, each once; only some where there are more than
/// so many.
pub(crate) fn release_dates<A: Allocator + Copy, B: Allocator>(
    alloc: A,
    task: &ProblemTask<B>,
    most: usize,
) -> Result<Vec<u64, A>, OutOfMemory> {
    let mut dates = Vec::with_capacity(alloc, task.len())?;
    for k in 0..task.len() {
        dates.push(task.release(JobId::at(k)))?;
    }
    dates.sort_unstable();
    dates.dedup();
    let every = dates.len().div_ceil(most.max(1)).max(1);
    let mut chosen = Vec::new(alloc);
    for (place, date) in dates.iter().enumerate() {
        if place % every == 0 {
            chosen.push(*date)?;
        }
    }
    Ok(chosen)
}

/// The jobs in the order of the rank, and of their numbers where it is the same.
pub(crate) fn jobs_by_rank<A: Allocator + Copy, B: Allocator>(
    alloc: A,
    task: &ProblemTask<B>,
    rank: Rank,
) -> Result<Vec<JobId, A>, OutOfMemory> {
    if are_in_order(task, rank) {
        return jobs_of(alloc, task, rank);
    }
    let mut ranks = ranks_of(alloc, task, rank)?;
    ranks.sort_unstable();
    let mut jobs = Vec::with_capacity(alloc, ranks.len())?;
    push_jobs(&mut jobs, &ranks)?;
    Ok(jobs)
}

// What the jobs of a front have in common.
#[derive(Clone, Copy)]
struct Front {
    release: u64,
    work: u64,
    due: i64,
}

impl Front {
    fn new() -> Front {
        Front {
            release: u64::MAX,
            work: 0,
            due: i64::MIN,
        }
    }

    // The front with one job more, where the task has it.
    fn with<B: Allocator>(self, task: &ProblemTask<B>, job: JobId) -> Front {
        if job.place() >= task.len() {
            return self;
        }
        Front {
            release: self.release.min(task.release(job)),
            work: self.work.saturating_add(task.work(job)),
            due: self.due.max(task.due(job)),
        }
    }
}

impl Front {
    // Whether one more job left the dates as they were.
    fn has_dates_of(self, other: Front) -> bool {
        self.release == other.release && self.due == other.due
    }

    // The value of its window, times the number of machines and before it is rounded up; less than
    // any where it has no job.
    fn window(self, machines: i128) -> i128 {
        if self.work == 0 {
            return i128::MIN;
        }
        let free = i128::from(self.release) - i128::from(self.due);
        free.wrapping_mul(machines)
            .wrapping_add(i128::from(self.work))
    }
}

// The greatest value of a window of a front. As long as the dates stay the same, the longest front
// has it.
fn greatest_window<B: Allocator>(task: &ProblemTask<B>, jobs: &[JobId], machines: i128) -> i128 {
    let mut front = Front::new();
    let mut most = i128::MIN;
    for job in jobs {
        let next = front.with(task, *job);
        if !next.has_dates_of(front) {
            most = most.max(front.window(machines));
        }
        front = next;
    }
    most.max(front.window(machines))
}

/// How many of the first jobs make the strongest window.
pub(crate) fn window_front<B: Allocator>(task: &ProblemTask<B>, jobs: &[JobId]) -> usize {
    let machines = i128::from(task.machines().max(1));
    let most = greatest_window(task, jobs, machines);
    // What is above this is rounded up to as much as the most.
    let below = most
        .saturating_sub(1)
        .div_euclid(machines)
        .wrapping_mul(machines);
    let mut front = Front::new();
    for (place, job) in jobs.iter().enumerate() {
        front = front.with(task, *job);
        if front.window(machines) > below {
            return place + 1;
        }
    }
    0
}

// How often the time that a job of a crowd takes at least is sought by counting.
const MOST_COUNTS: usize = 8;

/// A time that each job of a crowd exceeds whose value is greater than this one.
pub(crate) fn crowded_above<B: Allocator>(task: &ProblemTask<B>, value: i128) -> u64 {
    let mut last: u64 = 0;
    let mut due = i64::MAX;
    for k in 0..task.len() {
        let job = JobId::at(k);
        last = last.max(task.release(job));
        due = due.min(task.due(job));
    }
    let work = value
        .saturating_add(i128::from(due))
        .saturating_sub(i128::from(last));
    let work = u64::try_from(work).unwrap_or(0);
    let machines = (task.machines() as usize).max(1);
    let mut above = 0;
    let mut count = task.len();
    for _ in 0..MOST_COUNTS {
        above = match work.checked_div(count.div_ceil(machines) as u64) {
            Some(time) => time,
            None => return u64::MAX,
        };
        count = count_longer(task, above);
    }
    above
}

// How many jobs take longer.
fn count_longer<B: Allocator>(task: &ProblemTask<B>, time: u64) -> usize {
    let mut count = 0;
    for k in 0..task.len() {
        if task.work(JobId::at(k)) > time {
            count += 1;
        }
    }
    count
}

/// The strongest crowd of the first jobs: after how many on each machine, and of how many jobs.
pub(crate) fn crowd_front<B: Allocator>(task: &ProblemTask<B>, jobs: &[JobId]) -> (u32, usize) {
    let machines = (task.machines() as usize).max(1);
    let mut front = Front::new();
    let mut most = i128::MIN;
    let mut best = (0, 0);
    for (place, job) in jobs.iter().enumerate() {
        front = front.with(task, *job);
        if place % machines == 0 && job.place() < task.len() {
            let turns = u32::try_from(place / machines).unwrap_or(u32::MAX);
            let work = (u128::from(turns) + 1).saturating_mul(u128::from(task.work(*job)));
            let work = i128::try_from(work).unwrap_or(i128::MAX);
            let begun = i128::from(front.release) - i128::from(front.due);
            let value = begun.saturating_add(work);
            if value > most {
                most = value;
                best = (turns, place + 1);
            }
        }
    }
    best
}
