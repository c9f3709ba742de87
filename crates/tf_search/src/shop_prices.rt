//! A search for good prices of the rows on one machine of a shop: those of its jobs there alone,
//! released at their heads and due so much earlier as their tails are long.
//!
//! Nothing is promised of the prices: the judge computes what they bound.
ghost use Rattle.std.specs.Prelude.{◌<◌, IsFalse, IsTrue};
ghost use Rattle.tf_model.specs.ClassTable.{is_shop_env};
ghost use Rattle.tf_posed.specs.ProblemData.{IsProblemJob};
ghost use Rattle.tf_problem.specs.ProblemBounds.{is_by_machine};

use crate::effort::{Effort, Progress};
use crate::price_search::{Steps, search_prices, steps_for};
use crate::price_start::{Prices, prices_by_due, sequence_prices};
use crate::sequence::{best_order, cost_of, place_all, urgency_order};
use std::alloc::Allocator;
use tf_bound::fault::BoundFault;
use tf_bound::job_times::JobTimes;
use tf_bound::machine_prices::takes_machine_prices;
use tf_bound::prices::{is_by_unit, prices_bound, takes_prices};
use tf_bound::task::{ProblemJob, ProblemTask};
use tf_model::ids::JobId;
use tf_model::limit::LIMIT;
use tf_model::memory::OutOfMemory;
use tf_model::problem::{Env, Goal, Problem};

// How many pairs of jobs the orders may have together by which the machines are ranked.
const MOST_PAIRS: u64 = 20_000_000;

// How many tenths of the mean time count as much slack in those orders.
const LOOK: u64 = 12;

// How many times fewer steps each of the two machines takes than a machine alone.
const FEWER: u64 = 4;

/// Two machines, counted from 0.
#[derive(Clone, Copy, Debug)]
pub struct Dearest {
    pub first: usize,
    pub second: usize,
}

// A machine, and what its jobs alone cost in an order.
#[derive(Clone, Copy)]
struct Ranked {
    machine: usize,
    cost: u64,
}

/// The two machines on which the jobs alone cost most in an order by apparent urgency.
pub fn dearest_machines<A: Allocator + Copy, B: Allocator>(
    alloc: A,
    task: &ProblemTask<B>,
) -> Result<Dearest, BoundFault> {
    if !takes_machine_prices(task) {
        return Err(BoundFault::OtherKind);
    }
    let machines = task.machines() as usize;
    let jobs = task.len() as u64;
    if machines as u64 > MOST_PAIRS / jobs.saturating_mul(jobs).max(1) {
        return Err(BoundFault::TooLarge);
    }
    let none = Ranked {
        machine: 0,
        cost: 0,
    };
    let mut first = none;
    let mut second = none;
    for machine in 0..machines {
        let cost = known_cost(order_cost(alloc, task, machine))?;
        let here = Ranked { machine, cost };
        if cost > first.cost {
            second = first;
            first = here;
        } else if cost > second.cost {
            second = here;
        }
    }
    Ok(Dearest {
        first: first.machine,
        second: second.machine,
    })
}

// A cost, and 0 where it isn't known.
fn known_cost(cost: Result<u64, BoundFault>) -> Result<u64, BoundFault> {
    match cost {
        Ok(cost) => Ok(cost),
        Err(BoundFault::OutOfMemory) => Err(BoundFault::OutOfMemory),
        Err(_) => Ok(0),
    }
}

// What the jobs on a machine cost alone in an order by apparent urgency.
fn order_cost<A: Allocator + Copy, B: Allocator>(
    alloc: A,
    task: &ProblemTask<B>,
    machine: usize,
) -> Result<u64, BoundFault>
    requires { IsTrue (is_by_machine task.now.problem.env) }
{
    let small = task_on(alloc, task, machine)?;
    cost_by_urgency(alloc, &small)
}

fn cost_by_urgency<A: Allocator + Copy, B: Allocator>(
    alloc: A,
    small: &ProblemTask<B>,
) -> Result<u64, BoundFault> {
    if !takes_prices(small) {
        return Err(BoundFault::OtherKind);
    }
    let order = urgency_order(alloc, small, LOOK)?;
    Ok(cost_of(small, &place_all(alloc, small, &order)?))
}

/// The prices that are found on a machine, which is the first or the second of two.
pub fn prices_on<A: Allocator + Copy, B: Allocator, P: Progress>(
    alloc: A,
    task: &ProblemTask<B>,
    machine: usize,
    is_second: bool,
    effort: &mut Effort<P>,
) -> Result<Prices<A>, BoundFault> {
    if !takes_machine_prices(task) {
        return Err(BoundFault::OtherKind);
    }
    let small = task_on(alloc, task, machine)?;
    prices_alone(alloc, &small, is_second, effort)
}

// The jobs as they are on the machine alone.
fn task_on<A: Allocator + Copy, B: Allocator>(
    alloc: A,
    task: &ProblemTask<B>,
    machine: usize,
) -> Result<ProblemTask<A>, BoundFault>
    requires { IsTrue (is_by_machine task.now.problem.env) }
{
    if machine >= task.machines() as usize {
        return Err(BoundFault::BadMachine(machine));
    }
    let jobs = jobs_on(alloc, task, machine)?;
    let mut problem = Problem::plain(Env::Single, goal_alone(task.problem().goal));
    problem.release = true;
    match ProblemTask::new(problem, 1, jobs, Vec::new(alloc)) {
        Ok(small) => Ok(small),
        Err(_) => Err(BoundFault::TooLarge),
    }
}

// A sum of completion times is one of tardiness, where due dates are what the jobs have to go
// behind the machine.
fn goal_alone(goal: Goal) -> Goal {
    match goal {
        Goal::SumC => Goal::SumT,
        Goal::SumWC => Goal::SumWT,
        _ => goal,
    }
}

// The jobs that have time on the machine, and one that does not matter and is released when they
// can all be over: so the rows up to then are priced, and each job may start in any of them.
fn jobs_on<A: Allocator + Copy, B: Allocator>(
    alloc: A,
    task: &ProblemTask<B>,
    machine: usize,
) -> Result<Vec<ProblemJob<A>, A>, OutOfMemory>
    requires machine { machine < task.now.machines }
    requires env { IsTrue (is_by_machine task.now.problem.env) }
{
    let mut jobs = Vec::new(alloc);
    let mut last: u64 = 0;
    let mut work: u64 = 0;
    for k in 0..task.len() {
        let job = JobId::at(k);
        if task.time_on(machine, job) > 0 {
            last = last.max(task.head(machine, job));
            work = work.saturating_add(task.time_on(machine, job));
            jobs.push(job_on(task, machine, job))?;
        }
    }
    jobs.push(idle_job(last.saturating_add(work)))?;
    Ok(jobs)
}

// A job that is never late.
fn idle_job<A: Allocator>(release: u64) -> ProblemJob<A> {
    ProblemJob {
        times: JobTimes::One(1),
        weight: 0,
        release,
        due: LIMIT,
    }
}

// A job on the machine. Before its time on all machines it completes nowhere, so it is not due
// before; where it is late whenever it completes, it is due last.
fn job_on<A: Allocator, B: Allocator>(
    task: &ProblemTask<B>,
    machine: usize,
    job: JobId,
) -> ProblemJob<A>
    requires machine { machine < task.now.machines }
    requires env { IsTrue (is_by_machine task.now.problem.env) }
    requires job { IsProblemJob task.now job }
{
    let earliest = task.release(job).saturating_add(task.work(job));
    let earliest = i64::try_from(earliest).unwrap_or(i64::MAX);
    let due = task.due(job);
    let due = if earliest <= due || !is_by_unit(task.problem().goal) {
        due.max(earliest)
            .saturating_sub(task.tail(machine, job) as i64)
    } else {
        LIMIT
    };
    ProblemJob {
        times: JobTimes::One(task.time_on(machine, job)),
        weight: task.weight(job),
        release: task.head(machine, job),
        due,
    }
}

// The prices that are found where the jobs are alone.
fn prices_alone<A: Allocator + Copy, B: Allocator, P: Progress>(
    alloc: A,
    small: &ProblemTask<B>,
    is_second: bool,
    effort: &mut Effort<P>,
) -> Result<Prices<A>, BoundFault> {
    if !takes_prices(small) {
        return Err(BoundFault::OtherKind);
    }
    let number = steps_for(small, effort.steps, FEWER);
    if number == 0 {
        return Err(BoundFault::TooLarge);
    }
    let steps = Steps {
        before: if is_second { number } else { 0 },
        number,
        all: number.saturating_mul(2),
    };
    let (order, target) = best_order(alloc, small)?;
    let start = sequence_prices(alloc, small, &order)?;
    if is_by_unit(small.problem().goal) {
        return late_prices(alloc, small, start, target, steps, effort);
    }
    search_prices(alloc, small, start, target, steps, effort)
}

// From prices that fall at due dates, and from none, whichever bounds more.
fn late_prices<A: Allocator + Copy, B: Allocator, P: Progress>(
    alloc: A,
    small: &ProblemTask<B>,
    start: Prices<A>,
    target: u64,
    steps: Steps,
    effort: &mut Effort<P>,
) -> Result<Prices<A>, BoundFault> {
    let first = Steps {
        before: steps.before.saturating_mul(2),
        number: steps.number,
        all: steps.all.saturating_mul(2),
    };
    let second = Steps {
        before: first.before.saturating_add(steps.number),
        ..first
    };
    let due = prices_by_due(alloc, small, &start)?;
    let due = search_prices(alloc, small, due, target, first, effort)?;
    let flat = search_prices(alloc, small, start, target, second, effort)?;
    let by_due = prices_bound(alloc, small, due.q, &due.rows)?;
    let by_flat = prices_bound(alloc, small, flat.q, &flat.rows)?;
    if by_due < by_flat {
        return Ok(flat);
    }
    Ok(due)
}
