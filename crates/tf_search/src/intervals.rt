//! An interval in which the jobs have more to do than the machines have room for (energetic
//! reasoning: Erschler, Lopez and Thuriot 1991). The intervals that are tried begin and end where a
//! job can begin or has to be over (Baptiste, Le Pape and Nuijten 2001).
//!
//! Nothing is promised of the search: the judge adds up what the jobs have to do.
ghost use Rattle.std.specs.Prelude.{IsFalse};
ghost use Rattle.tf_model.specs.ClassTable.{is_shop_env};
ghost use Rattle.tf_posed.specs.ProblemData.{IsProblemJob};

use std::alloc::Allocator;
use tf_bound::parts::{Interval, part_of};
use tf_bound::task::ProblemTask;
use tf_model::ids::JobId;
use tf_model::memory::OutOfMemory;

// How many parts of jobs are looked at, about; and on one machine, where the bound by the machine
// is mostly the optimum.
const MOST_PARTS: usize = 4_000_000;

const FEWER_PARTS: usize = 250_000;

// How often a lateness is raised in one interval.
const MOST_RAISED: usize = 200;

// Where an interval begins or ends.
#[derive(Clone, Copy, Debug, PartialEq, Eq, PartialOrd, Ord)]
enum End {
    // At a time.
    At(i128),
    // At so much after the lateness.
    Late(i128),
}

impl End {
    // The time, if no job is to be as late as this.
    fn time(self, late: i64) -> u64 {
        let time = match self {
            End::At(time) => time,
            End::Late(after) => after.saturating_add(i128::from(late)),
        };
        u64::try_from(time.max(0)).unwrap_or(u64::MAX)
    }
}

// The two ends of an interval.
#[derive(Clone, Copy)]
struct Ends {
    from: End,
    until: End,
}

impl Ends {
    fn interval(self, late: i64) -> Interval {
        Interval {
            from: self.from.time(late),
            until: self.until.time(late),
            late,
        }
    }
}

// Which end of the intervals.
#[derive(Clone, Copy, PartialEq, Eq)]
enum Side {
    From,
    Until,
}

// Where the intervals of a job begin or end: when it can begin, or has to be over if it is to be
// less late; and where it cannot be preempted, when it has to begin, or can be over.
fn ends_of<B: Allocator>(task: &ProblemTask<B>, side: Side, job: JobId) -> [End; 2]
    requires { IsProblemJob task.now job }
{
    let release = i128::from(task.release(job));
    let work = i128::from(task.work(job));
    let last = i128::from(task.due(job)) - 1;
    let is_whole = !task.problem().prmp;
    match side {
        Side::From if is_whole => [End::At(release), End::Late(last - work)],
        Side::From => [End::At(release), End::At(release)],
        Side::Until if is_whole => [End::Late(last), End::At(release + work)],
        Side::Until => [End::Late(last), End::Late(last)],
    }
}

// The ends on one side, each once; only some where there are more than so many.
fn ends_on<A: Allocator + Copy, B: Allocator>(
    alloc: A,
    task: &ProblemTask<B>,
    side: Side,
    most: usize,
) -> Result<Vec<End, A>, OutOfMemory> {
    let mut ends = Vec::with_capacity(alloc, 2 * task.len())?;
    for k in 0..task.len() {
        ends.extend_from_slice(&ends_of(task, side, JobId::at(k)))?;
    }
    ends.sort_unstable();
    ends.dedup();
    let every = ends.len().div_ceil(most.max(1)).max(1);
    let mut chosen = Vec::new(alloc);
    for (place, end) in ends.iter().enumerate() {
        if place % every == 0 {
            chosen.push(*end)?;
        }
    }
    Ok(chosen)
}

// Whether the jobs have more to do in the interval than the machines have room for.
fn is_crammed<B: Allocator>(task: &ProblemTask<B>, interval: Interval) -> bool
    requires { IsFalse (is_shop_env task.now.problem.env) }
{
    let mut left = u128::from(task.machines())
        * u128::from(interval.until.saturating_sub(interval.from));
    for k in 0..task.len() {
        let part = part_of(task, interval, JobId::at(k));
        if part > left {
            return true;
        }
        left -= part;
    }
    false
}

// A lateness that some job reaches, from one that some job reaches.
fn raised<B: Allocator>(task: &ProblemTask<B>, ends: Ends, late: i64) -> i64
    requires { IsFalse (is_shop_env task.now.problem.env) }
{
    let mut late = late;
    let mut step: i64 = 1;
    for _ in 0..MOST_RAISED {
        let next = late.saturating_add(step);
        if is_crammed(task, ends.interval(next)) {
            late = next;
            step = step.saturating_mul(2);
        } else if step > 1 {
            step /= 2;
        } else {
            break;
        }
    }
    late
}

// The interval from here on that shows most, if one shows more.
fn longest_from<B: Allocator>(
    task: &ProblemTask<B>,
    from: End,
    ends: &[End],
    late: i64,
) -> Option<Interval>
    requires { IsFalse (is_shop_env task.now.problem.env) }
{
    let mut best: Option<Interval> = None;
    let mut most = late;
    for until in ends {
        let ends = Ends {
            from,
            until: *until,
        };
        let late = raised(task, ends, most);
        if late > most {
            most = late;
            best = Some(ends.interval(late));
        }
    }
    best
}

/// The interval that shows the greatest lateness of some job, or makespan, if it is above a value.
pub(crate) fn crammed_interval<A: Allocator + Copy, B: Allocator>(
    alloc: A,
    task: &ProblemTask<B>,
    above: i64,
) -> Result<Option<Interval>, OutOfMemory>
    requires { IsFalse (is_shop_env task.now.problem.env) }
{
    let parts = if task.machines() == 1 {
        FEWER_PARTS
    } else {
        MOST_PARTS
    };
    let most = (parts / task.len().max(1)).isqrt();
    let starts = ends_on(alloc, task, Side::From, most)?;
    let ends = ends_on(alloc, task, Side::Until, most)?;
    let mut best: Option<Interval> = None;
    let mut late = above;
    for from in &starts {
        if let Some(found) = longest_from(task, *from, &ends, late) {
            late = found.late;
            best = Some(found);
        }
    }
    Ok(best)
}

/// The jobs that have something to do in the interval, by number.
pub(crate) fn jobs_at_work<A: Allocator, B: Allocator>(
    alloc: A,
    task: &ProblemTask<B>,
    interval: Interval,
) -> Result<Vec<JobId, A>, OutOfMemory>
    requires { IsFalse (is_shop_env task.now.problem.env) }
{
    let mut jobs = Vec::new(alloc);
    for k in 0..task.len() {
        let job = JobId::at(k);
        if part_of(task, interval, job) > 0 {
            jobs.push(job)?;
        }
    }
    Ok(jobs)
}
