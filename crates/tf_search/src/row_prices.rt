//! The prices of the rows where jobs may be preempted, for weighted completion times.
//!
//! The jobs share the machines by the preemptive rule of Smith: the greatest ratio of weight to
//! processing time goes first. On one machine no prices give more (Goemans, Queyranne, Schulz,
//! Skutella and Wang 2002). Nothing is promised of them: the judge computes what they bound.
ghost use Rattle.std.specs.Prelude.{◌≤◌, IfSome, IsFalse};
ghost use Rattle.tf_model.specs.ClassTable.{is_shop_env};

use crate::price_start::{DENOMINATOR, MOST_ROWS, Prices};
use std::alloc::Allocator;
use std::cmp::Ordering;
use tf_bound::prices::takes_prices;
use tf_bound::task::ProblemTask;
use tf_model::ids::JobId;
use tf_model::memory::OutOfMemory;

// How many visits of a row by a job there may be.
const MOST_VISITS: u64 = 100_000_000;

// What a row costs more than the next: a weight over a time.
#[derive(Clone, Copy)]
struct Ratio {
    weight: u64,
    time: u64,
}

const NO_RATIO: Ratio = Ratio { weight: 0, time: 1 };

impl Ratio {
    // Compares two of them, as products.
    fn order(self, other: Ratio) -> Ordering {
        let one = u128::from(self.weight) * u128::from(other.time);
        one.cmp(&(u128::from(other.weight) * u128::from(self.time)))
    }

    // What so many rows come to, over DENOMINATOR, rounded.
    fn over(self, rows: u64) -> u64 {
        let weight = u128::from(self.weight).saturating_mul(u128::from(DENOMINATOR));
        let half = u128::from(self.time / 2);
        let all = weight.saturating_mul(u128::from(rows)).saturating_add(half);
        let price = all.checked_div(u128::from(self.time)).unwrap_or(0);
        u64::try_from(price).unwrap_or(u64::MAX)
    }
}

// A job that shares the rows.
#[derive(Clone, Copy)]
struct SharingJob {
    release: u64,
    ratio: Ratio,
}

// How many machines are free in a row, and the least ratio of the jobs that have the others.
#[derive(Clone, Copy)]
struct Row {
    free: u64,
    ratio: Ratio,
}

impl Row {
    // What the row costs more than the next: nothing where a machine is free.
    fn least(self) -> Ratio {
        if self.free > 0 { NO_RATIO } else { self.ratio }
    }
}

// A row, its price, and what it costs more than the next.
#[derive(Clone, Copy)]
struct PricedRow {
    row: usize,
    price: u64,
    ratio: Ratio,
}

/// The prices of the rows of a task with preemption whose completion times are summed, where there
/// are not too many rows and jobs.
pub fn row_prices<A: Allocator + Copy, B: Allocator>(
    alloc: A,
    task: &ProblemTask<B>,
) -> Result<Option<Prices<A>>, OutOfMemory> {
    if !takes_prices(task) || !task.problem().prmp {
        return Ok(None);
    }
    let Some(len) = rows_of(task) else {
        return Ok(None);
    };
    let free = u64::from(task.machines());
    let mut rows = vec![in alloc; Row {
        free,
        ratio: NO_RATIO
    }; len]?;
    for job in jobs_of(alloc, task)?.iter() {
        share(&mut rows, *job);
    }
    let rows = prices_of(alloc, &rows)?;
    Ok(Some(Prices {
        q: DENOMINATOR,
        rows,
    }))
}

// By when the jobs are completed if all machines share what is left after the last release date.
fn rows_of<B: Allocator>(task: &ProblemTask<B>) -> Option<usize>
    requires { IsFalse (is_shop_env task.now.problem.env) }
    ensures { IfSome result (λ rows. rows ≤ 10000000) }
{
    let mut work: u64 = 0;
    let mut last: u64 = 0;
    for k in 0..task.len() {
        work = work.saturating_add(task.time(JobId::at(k)));
        last = last.max(task.release(JobId::at(k)));
    }
    let rows = last.saturating_add(work.div_ceil(u64::from(task.machines()).max(1)));
    if rows > MOST_ROWS || rows.saturating_mul(task.len() as u64) > MOST_VISITS {
        return None;
    }
    Some(rows as usize)
}

// The jobs by falling ratio of weight to processing time.
fn jobs_of<A: Allocator, B: Allocator>(
    alloc: A,
    task: &ProblemTask<B>,
) -> Result<Vec<SharingJob, A>, OutOfMemory>
    requires { IsFalse (is_shop_env task.now.problem.env) }
{
    let mut jobs = Vec::with_capacity(alloc, task.len())?;
    for k in 0..task.len() {
        let job = JobId::at(k);
        let ratio = Ratio {
            weight: task.weight(job),
            time: task.time(job),
        };
        jobs.push(SharingJob {
            release: task.release(job),
            ratio,
        })?;
    }
    jobs.sort_unstable_by(|one, other| other.ratio.order(one.ratio));
    Ok(jobs)
}

// Gives a job what is free in the rows from its release date on, until it has all of its time.
fn share(rows: &mut [Row], job: SharingJob) {
    let mut time = job.ratio.time;
    for row in job.release.min(rows.len() as u64) as usize..rows.len() {
        if time == 0 {
            return;
        }
        let free = rows[row].free;
        if free > 0 {
            let taken = time.min(free);
            time -= taken;
            rows[row] = Row {
                free: free - taken,
                ratio: job.ratio,
            };
        }
    }
}

// The prices, from the last row back: that of the first row after it of a lesser ratio, and its own
// ratio for each row between.
fn prices_of<A: Allocator + Copy>(alloc: A, rows: &[Row]) -> Result<Vec<u64, A>, OutOfMemory> {
    let mut prices = vec![in alloc; 0_u64; rows.len()]?;
    let mut later = Vec::new(alloc);
    let mut priced: usize = 0;
    for back in 0..rows.len() {
        let place = rows.len() - 1 - back;
        let ratio = rows[place].least();
        let price = price_of(&mut later, rows.len(), place, ratio);
        prices[place] = price;
        if price > 0 && priced == 0 {
            priced = place + 1;
        }
        later.push(PricedRow {
            row: place,
            price,
            ratio,
        })?;
    }
    prices.truncate(priced);
    Ok(prices)
}

// The price of a row. `later` has rows after it, the nearest last and of the greatest ratio, and
// loses those of no lesser ratio than this row.
fn price_of<A: Allocator>(
    later: &mut Vec<PricedRow, A>,
    end: usize,
    place: usize,
    ratio: Ratio,
) -> u64 {
    for _ in 0..later.len() {
        if let Some(last) = later.last().copied() {
            if matches!(last.ratio.order(ratio), Ordering::Less) {
                break;
            }
        }
        later.pop();
    }
    let (next, price) = match later.last() {
        Some(last) => (last.row, last.price),
        None => (end, 0),
    };
    let between = next.saturating_sub(place) as u64;
    ratio.over(between).saturating_add(price)
}
