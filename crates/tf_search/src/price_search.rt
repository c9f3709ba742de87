//! A search for good prices of the rows: steps against the rows that the cheapest starts fill
//! unevenly.
//!
//! Nothing is promised of the prices: the judge computes what they bound.
ghost use Rattle.std.specs.Prelude.{◌≡◌, ◌+◌, ◌<◌, length, IfOk, IsFalse};
ghost use Rattle.tf_model.specs.ClassTable.{is_shop_env};
ghost use Rattle.tf_posed.specs.ProblemCost.{IsLowerBound};

use crate::effort::{Effort, Nobody, Progress};
use crate::job_starts::JobStarts;
use crate::price_start::{Prices, sequence_prices, zeros};
use crate::sequence::best_order;
use std::alloc::{Allocator, Global};
use tf_bound::fault::BoundFault;
use tf_bound::horizon::horizon;
use tf_bound::prices::{is_by_unit, prices_bound, takes_prices};
use tf_bound::task::ProblemTask;
use tf_model::ids::JobId;
use tf_model::limit::LIMIT;

// What a direction of 1 is written as.
const UNIT: i64 = 1_024;

// What the step's length is over.
const LENGTH: i64 = 65_536;

// How many hundredths of a direction are new in each step.
const WHOLE: i64 = 100;

const SHARE: i64 = 5;

// The steps get half as long after this share of all steps without a better value.
const PATIENCE: u32 = 20;

const LEAST_PATIENCE: u32 = 3;

// How many visits of a row by a job the steps of a search for prices may take, where the caller
// does not say how many steps it takes.
const MOST_VISITS: u64 = 1_000_000_000;

// The steps that a search for prices takes at most, where the caller does not say how many.
const USUAL_STEPS: u64 = 3_000;

/// Some of the steps of an effort.
#[derive(Clone, Copy, Debug)]
pub struct Steps {
    /// How many steps there are before them, of them, and in all.
    pub before: u32,
    pub number: u32,
    pub all: u32,
}

// How long the steps are, over LENGTH, how many without a better value make them shorter, and how
// many there were.
#[derive(Clone, Copy)]
struct Pace {
    length: i64,
    patience: u32,
    waited: u32,
}

impl Pace {
    // Full steps at first.
    fn new(steps: u32) -> Pace {
        Pace {
            length: LENGTH,
            patience: (steps / PATIENCE).max(LEAST_PATIENCE),
            waited: 0,
        }
    }

    // The pace after one step more.
    fn after(self, is_better: bool) -> Pace {
        let waited = if is_better {
            0
        } else {
            self.waited.saturating_add(1)
        };
        if waited < self.patience {
            return Pace { waited, ..self };
        }
        Pace {
            length: self.length / 2,
            waited: 0,
            ..self
        }
    }
}

// What a search writes: the starts of the jobs, the prices, their sums, how many more jobs than
// before each row has at their cheapest starts, the direction of the steps, and the best prices.
#[derive(Drop)]
struct Tables<A: Allocator> {
    jobs: Vec<JobStarts, A>,
    rows: Vec<u64, A>,
    sums: Vec<u64, A>,
    counts: Vec<i64, A>,
    direction: Vec<i64, A>,
    best: Vec<u64, A>,
}

/// Prices, what they bound, and what the sequence cost from which they were found.
#[derive(Drop)]
pub struct PriceBound<A: Allocator = Global> {
    pub prices: Prices<A>,
    pub value: i128,
    pub target: u64,
}

/// The bound by prices that so many steps find, where no job is preempted.
pub fn price_bound<A: Allocator + Copy, B: Allocator>(
    alloc: A,
    task: &ProblemTask<B>,
    steps: u32,
) -> Result<PriceBound<A>, BoundFault>
    ensures { IfOk result (λ found. IsLowerBound task.now found.value) }
{
    if !takes_prices(task) || task.problem().prmp {
        return Err(BoundFault::OtherKind);
    }
    let (prices, target) = prices_along(alloc, task, steps)?;
    let value = prices_bound(alloc, task, prices.q, &prices.rows)?;
    Ok(PriceBound {
        prices,
        value,
        target,
    })
}

// The prices that so many steps find along the best sequence, and what that costs.
fn prices_along<A: Allocator + Copy, B: Allocator>(
    alloc: A,
    task: &ProblemTask<B>,
    steps: u32,
) -> Result<(Prices<A>, u64), BoundFault>
    requires { IsFalse (is_shop_env task.now.problem.env) }
{
    let (order, target) = best_order(alloc, task)?;
    let steps = Steps {
        before: 0,
        number: steps,
        all: steps,
    };
    let start = sequence_prices(alloc, task, &order)?;
    let mut effort: Effort<Nobody> = Effort::untold(None);
    let found = search_prices(alloc, task, start, target, steps, &mut effort)?;
    Ok((found, target))
}

/// The prices of the greatest value that steps find from a start, where no job is preempted.
/// `target` is what a schedule costs.
pub fn search_prices<A: Allocator + Copy, B: Allocator, P: Progress>(
    alloc: A,
    task: &ProblemTask<B>,
    start: Prices<A>,
    target: u64,
    steps: Steps,
    effort: &mut Effort<P>,
) -> Result<Prices<A>, BoundFault> {
    if !takes_prices(task) || task.problem().prmp {
        return Err(BoundFault::OtherKind);
    }
    let target = Target {
        machines: task.machines(),
        cost: target,
        q: start.q,
    };
    let mut tables = tables_from(alloc, task, start)?;
    improve(target, &mut tables, steps, effort);
    Ok(Prices {
        q: target.q,
        rows: tables.best,
    })
}

// The tables at the beginning of a search.
fn tables_from<A: Allocator + Copy, B: Allocator>(
    alloc: A,
    task: &ProblemTask<B>,
    start: Prices<A>,
) -> Result<Tables<A>, BoundFault>
    requires { IsFalse (is_shop_env task.now.problem.env) }
{
    let rows = start.rows.len();
    let jobs = starts_of(alloc, task, rows, start.q)?;
    let longest = jobs.iter().map(|job| job.time()).max().unwrap_or(0);
    Ok(Tables {
        jobs,
        rows: start.rows,
        sums: zeros(alloc, longest.saturating_add(rows).saturating_add(1))?,
        counts: signed_zeros(alloc, rows + 1)?,
        direction: signed_zeros(alloc, rows)?,
        best: zeros(alloc, rows)?,
    })
}

// The starts of each job.
fn starts_of<A: Allocator, B: Allocator>(
    alloc: A,
    task: &ProblemTask<B>,
    rows: usize,
    q: u64,
) -> Result<Vec<JobStarts, A>, BoundFault>
    requires { IsFalse (is_shop_env task.now.problem.env) }
{
    let Ok(mut jobs) = Vec::with_capacity(alloc, task.len()) else {
        return Err(BoundFault::OutOfMemory);
    };
    let until = horizon(task);
    for k in 0..task.len() {
        let Some(starts) = JobStarts::new(task, JobId::at(k), rows, until, q) else {
            return Err(BoundFault::TooLarge);
        };
        let Ok(()) = jobs.push(starts) else {
            return Err(BoundFault::OutOfMemory);
        };
    }
    Ok(jobs)
}

fn signed_zeros<A: Allocator>(alloc: A, len: usize) -> Result<Vec<i64, A>, BoundFault>
    ensures { IfOk result (λ v. length v.items ≡ len) }
{
    let Ok(zeros) = vec![in alloc; 0_i64; len] else {
        return Err(BoundFault::OutOfMemory);
    };
    Ok(zeros)
}

// What prices over q are to bound on so many machines.
#[derive(Clone, Copy)]
struct Target {
    machines: u32,
    cost: u64,
    q: u64,
}

// Takes the steps, and keeps the prices of the greatest value. It ends where that is the target,
// rounded up as a bound is.
fn improve<A: Allocator, P: Progress>(
    target: Target,
    tables: &mut Tables<A>,
    steps: Steps,
    effort: &mut Effort<P>,
) {
    let goal = i128::from(target.cost)
        .checked_mul(i128::from(target.q))
        .unwrap_or(i128::MAX);
    let mut pace = Pace::new(steps.number);
    let mut most: i128 = -1;
    for step in 0..steps.number {
        effort.at_step(steps.before.saturating_add(step), steps.all);
        let Some(value) = tables.value(target.machines) else {
            return;
        };
        if value > most {
            tables.keep();
        }
        pace = pace.after(value > most);
        most = most.max(value);
        let gap = goal.saturating_sub(value);
        let is_met = gap < i128::from(target.q);
        if is_met || pace.length == 0 || !tables.advance(target.machines, gap, pace) {
            return;
        }
    }
}

impl<A: Allocator> Tables<A> {
    // The value of the prices, where their sum is within the limit. Counts the jobs at their
    // cheapest starts.
    fn value(&mut self, machines: u32) -> Option<i128> {
        let all = sum_up(&self.rows, &mut self.sums)?;
        let cost = count_cheapest(&mut self.jobs, &self.sums, &mut self.counts);
        Some(cost.saturating_sub(i128::from(machines) * i128::from(all)))
    }

    // Keeps the prices as the best ones.
    fn keep(&mut self) {
        if self.best.len() == self.rows.len() {
            self.best.copy_from_slice(&self.rows);
        }
    }

    // Takes a step, where there is a direction.
    fn advance(&mut self, machines: u32, gap: i128, pace: Pace) -> bool {
        if self.counts.len() != self.rows.len() + 1 || self.direction.len() != self.rows.len() {
            return false;
        }
        let machines = i64::from(machines);
        let norm = turn(machines, &self.rows, &self.counts, &mut self.direction);
        if norm == 0 || self.direction.len() != self.rows.len() {
            return false;
        }
        step(&mut self.rows, &self.direction, factor_of(gap, pace, norm));
        true
    }
}

// Writes the sum of the prices before each row, and that of all prices for each row after the last.
// Returns the sum of all, and None where it is beyond the limit.
fn sum_up(rows: &[u64], sums: &mut [u64]) -> Option<u64> {
    let mut total: u64 = 0;
    let last = rows.len().min(sums.len());
    for row in 0..last {
        sums[row] = total;
        total = total.saturating_add(rows[row]);
    }
    for row in last..sums.len() {
        sums[row] = total;
    }
    if total > LIMIT as u64 {
        return None;
    }
    Some(total)
}

// What the jobs cost together at their cheapest starts, which are counted.
fn count_cheapest(jobs: &mut [JobStarts], sums: &[u64], counts: &mut [i64]) -> i128 {
    for count in counts.iter_mut() {
        *count = 0;
    }
    let mut total: i128 = 0;
    for job in jobs.iter_mut() {
        total = total.saturating_add(i128::from(job.find_cheapest(sums)));
        job.count_in(counts);
    }
    total
}

// The new direction: a share of how many jobs too many a row has, and the rest of the old one. The
// sum of its squares.
fn turn(machines: i64, rows: &[u64], counts: &[i64], direction: &mut [i64]) -> u128
    requires counts { length counts.now ≡ length rows.now + 1 }
    requires direction { length direction.old ≡ length rows.now }
{
    let mut jobs: i64 = 0;
    let mut norm: u128 = 0;
    for row in 0..rows.len() {
        jobs = jobs.saturating_add(counts[row]);
        let turned = turned(jobs.saturating_sub(machines), direction[row]);
        let kept = if turned < 0 && rows[row] == 0 {
            0
        } else {
            turned
        };
        direction[row] = kept;
        let size = kept.unsigned_abs();
        norm = norm.saturating_add(u128::from(size) * u128::from(size));
    }
    norm
}

// The direction of a row that has so many jobs too many, where it was another one.
fn turned(over: i64, old: i64) -> i64 {
    let new = over.saturating_mul(UNIT).saturating_mul(SHARE);
    let rest = old.saturating_mul(WHOLE - SHARE);
    new.saturating_add(rest) / WHOLE
}

// By how much a direction of 1 changes a price, over LENGTH.
fn factor_of(gap: i128, pace: Pace, norm: u128) -> i64
    requires { 0 < norm }
{
    let share = (UNIT * SHARE / WHOLE) as u128;
    let reach = (gap.unsigned_abs()).saturating_mul(u128::from(pace.length.unsigned_abs()));
    let factor = reach.saturating_mul(share) / norm;
    i64::try_from(factor).unwrap_or(i64::MAX)
}

// Changes each price along the direction; none gets negative.
fn step(rows: &mut [u64], direction: &[i64], factor: i64)
    requires { length direction.now ≡ length rows.old }
{
    for row in 0..rows.len() {
        let change = direction[row].saturating_mul(factor) / LENGTH;
        rows[row] = if change < 0 {
            rows[row].saturating_sub(change.unsigned_abs())
        } else {
            rows[row].saturating_add(change.unsigned_abs())
        };
    }
}

/// The steps that a search for prices takes: those that were asked for, or as many as a moderate
/// number of visits allows for so many machines together, of late jobs half as many, since two
/// searches are made of them.
pub fn steps_for<B: Allocator>(task: &ProblemTask<B>, asked: Option<u32>, searched: u64) -> u32
    requires { IsFalse (is_shop_env task.now.problem.env) }
{
    if let Some(steps) = asked {
        return steps;
    }
    let mut work: u64 = 0;
    let mut last: u64 = 0;
    for k in 0..task.len() {
        work = work.saturating_add(task.time(JobId::at(k)));
        last = last.max(task.release(JobId::at(k)));
    }
    let rows = last.saturating_add(work / u64::from(task.machines()).max(1));
    let visits = rows
        .saturating_mul(task.len() as u64)
        .saturating_mul(searched)
        .max(1);
    let steps = (MOST_VISITS / visits).min(USUAL_STEPS) as u32;
    if is_by_unit(task.problem().goal) {
        steps.div_ceil(2)
    } else {
        steps
    }
}
