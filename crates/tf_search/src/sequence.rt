//! Sequences of jobs, and the timetable that each gives.
//!
//! They feed the searches; nothing is promised of them but that the jobs are the task's.
ghost use Rattle.std.specs.Prelude.{◌≡◌, ◌<◌, ◌≤◌, length, IfOk, IsFalse};
ghost use Rattle.std.specs.List.{All};
ghost use Rattle.tf_model.specs.ClassTable.{is_shop_env};
ghost use Rattle.tf_posed.specs.ProblemData.{ProblemData, IsProblemJob};

use std::alloc::Allocator;
use tf_bound::fault::BoundFault;
use tf_bound::task::ProblemTask;
use tf_model::ids::JobId;
use tf_model::problem::Goal;

/// Where and when a job runs.
#[derive(Clone, Copy, Debug)]
pub struct Placed {
    pub job: JobId,
    /// The machine, counted from 0.
    pub machine: usize,
    pub start: u64,
    pub end: u64,
}

/// Places the jobs in their order, each as early as it can be on the machine that is free first.
pub fn place_all<A: Allocator + Copy, B: Allocator>(
    alloc: A,
    task: &ProblemTask<B>,
    order: &[JobId],
) -> Result<Vec<Placed, A>, BoundFault>
    requires jobs { All (IsProblemJob task.now) order.now }
    requires one_time { IsFalse (is_shop_env task.now.problem.env) }
    ensures { IfOk result (λ placed. All (λ p. IsProblemJob task.now p.job) placed.items) }
{
    let Ok(mut free) = vec![in alloc; 0_u64; task.machines() as usize] else {
        return Err(BoundFault::OutOfMemory);
    };
    let Ok(mut placed) = Vec::with_capacity(alloc, order.len()) else {
        return Err(BoundFault::OutOfMemory);
    };
    for job in order {
        let machine = first_free(&free);
        let start = free[machine].max(task.release(*job));
        let end = start.saturating_add(task.time(*job));
        free[machine] = end;
        let Ok(()) = placed.push(Placed {
            job: *job,
            machine,
            start,
            end,
        }) else {
            return Err(BoundFault::OutOfMemory);
        };
    }
    Ok(placed)
}

// The machine that is free first.
fn first_free(free: &[u64]) -> usize
    requires { 0 < length free.now }
    ensures { result < length free.now }
{
    let mut first = 0;
    for machine in 1..free.len() {
        if free[machine] < free[first] {
            first = machine;
        }
    }
    first
}

/// What a timetable costs, for any sum.
pub fn cost_of<B: Allocator>(task: &ProblemTask<B>, placed: &[Placed]) -> u64
    requires { All (λ p. IsProblemJob task.now p.job) placed.now }
{
    let by_unit = matches!(task.problem().goal, Goal::SumU | Goal::SumWU);
    let mut cost: u64 = 0;
    for job in placed {
        let late = i128::from(job.end) - i128::from(task.due(job.job));
        let times = if late <= 0 {
            0
        } else if by_unit {
            1
        } else {
            u64::try_from(late).unwrap_or(u64::MAX)
        };
        cost = cost.saturating_add(task.weight(job.job).saturating_mul(times));
    }
    cost
}

/// The jobs by apparent urgency: at each time the released job of the greatest ratio of weight to
/// time, less the more slack it has. `look` is how many tenths of the mean time count as much
/// slack.
pub fn urgency_order<A: Allocator + Copy, B: Allocator>(
    alloc: A,
    task: &ProblemTask<B>,
    look: u64,
) -> Result<Vec<JobId, A>, BoundFault>
    requires { IsFalse (is_shop_env task.now.problem.env) }
    ensures { IfOk result (λ order. All (IsProblemJob task.now) order.items) }
{
    let Ok(mut taken) = vec![in alloc; false; task.len()] else {
        return Err(BoundFault::OutOfMemory);
    };
    let Ok(mut order) = Vec::with_capacity(alloc, task.len()) else {
        return Err(BoundFault::OutOfMemory);
    };
    let reach = reach_of(task, look);
    let mut now: u64 = 0;
    for _ in 0..task.len() {
        let place = most_urgent(task, &taken, now, reach);
        let job = JobId::at(place);
        taken[place] = true;
        let share = task.time(job) / u64::from(task.machines()).max(1);
        now = now.max(task.release(job)).saturating_add(share);
        let Ok(()) = order.push(job) else {
            return Err(BoundFault::OutOfMemory);
        };
    }
    Ok(order)
}

/// The order of least cost of six by apparent urgency, and what it costs.
pub fn best_order<A: Allocator + Copy, B: Allocator>(
    alloc: A,
    task: &ProblemTask<B>,
) -> Result<(Vec<JobId, A>, u64), BoundFault>
    requires { IsFalse (is_shop_env task.now.problem.env) }
    ensures { IfOk result (λ best. All (IsProblemJob task.now) best.0.items) }
{
    let mut best = costed_order(alloc, task, 5)?;
    for look in 1..6_u64 {
        let next = costed_order(alloc, task, 5 + 7 * look)?;
        if next.1 < best.1 {
            best = next;
        }
    }
    Ok(best)
}

// The order by apparent urgency, and what it costs.
fn costed_order<A: Allocator + Copy, B: Allocator>(
    alloc: A,
    task: &ProblemTask<B>,
    look: u64,
) -> Result<(Vec<JobId, A>, u64), BoundFault>
    requires { IsFalse (is_shop_env task.now.problem.env) }
    ensures { IfOk result (λ costed. All (IsProblemJob task.now) costed.0.items) }
{
    let order = urgency_order(alloc, task, look)?;
    let cost = cost_of(task, &place_all(alloc, task, &order)?);
    Ok((order, cost))
}

// So many tenths of the mean time, at least 1.
fn reach_of<B: Allocator>(task: &ProblemTask<B>, look: u64) -> u64
    requires { IsFalse (is_shop_env task.now.problem.env) }
    ensures { 1 ≤ result }
{
    let mut all: u64 = 0;
    for k in 0..task.len() {
        all = all.saturating_add(task.time(JobId::at(k)));
    }
    let mean = all / (task.len() as u64).max(1);
    (mean.saturating_mul(look) / 10).max(1)
}

// The place of the most urgent job that is not taken, among those of least release or released.
fn most_urgent<B: Allocator>(task: &ProblemTask<B>, taken: &[bool], now: u64, reach: u64) -> usize
    requires one_time { IsFalse (is_shop_env task.now.problem.env) }
    requires taken { length taken.now ≡ length task.now.jobs }
    requires reach { 1 ≤ reach }
    ensures { result < length task.now.jobs }
{
    let mut best = 0;
    let mut most: u128 = 0;
    for k in 0..task.len() {
        if !taken[k] {
            let urgency = urgency_of(task, JobId::at(k), now, reach);
            if urgency > most {
                most = urgency;
                best = k;
            }
        }
    }
    best
}

// How urgent a job is, at least 1. It falls by half for each 7 tenths of the reach of slack or of
// time before its release date.
fn urgency_of<B: Allocator>(task: &ProblemTask<B>, job: JobId, now: u64, reach: u64) -> u128
    requires one_time { IsFalse (is_shop_env task.now.problem.env) }
    requires job { IsProblemJob task.now job }
    requires reach { 1 ≤ reach }
    ensures { 1 ≤ result }
{
    let time = task.time(job);
    let ready = now.max(task.release(job));
    let end = i128::from(ready.saturating_add(time));
    let slack = u128::try_from(i128::from(task.due(job)) - end).unwrap_or(0);
    let waits = u128::from(ready.saturating_sub(now));
    let halves = (slack
        .saturating_add(waits.saturating_mul(4))
        .saturating_mul(1_443)
        / u128::from(reach))
        .min(60_000);
    let whole = (halves / 1_000) as u32;
    let part = halves % 1_000;
    let ratio = (u128::from(task.weight(job)) << 60) / u128::from(time).max(1);
    ((ratio >> whole).saturating_mul(2_000 - part) / 2_000).max(1)
}
