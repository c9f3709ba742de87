//! The prices that a search starts with.
//!
//! Nothing is promised of them: the judge computes what they bound.
ghost use Rattle.std.specs.Prelude.{◌≡◌, ◌≤◌, length, IfOk, IfSome, IsFalse};
ghost use Rattle.std.specs.List.{All};
ghost use Rattle.tf_model.specs.ClassTable.{is_shop_env};
ghost use Rattle.tf_posed.specs.ProblemData.{IsProblemJob};

use crate::due_prices::due_prices;
use crate::sequence::{Placed, place_all};
use std::alloc::{Allocator, Global};
use tf_bound::fault::BoundFault;
use tf_bound::prices::is_by_unit;
use tf_bound::task::ProblemTask;
use tf_model::ids::JobId;
use tf_model::memory::OutOfMemory;

/// The denominator of the prices with which a search starts.
pub const DENOMINATOR: u64 = 1_000_000;

// How many times as small that of coarser prices is.
const COARSER: u64 = 1_000;

/// The most rows that are priced.
pub const MOST_ROWS: u64 = 10_000_000;

/// Prices of the rows from 0 on, over q.
#[derive(Drop)]
pub struct Prices<A: Allocator = Global> {
    pub q: u64,
    pub rows: Vec<u64, A>,
}

/// The prices that a sequence of the jobs suggests for tardiness, and none for late jobs.
pub fn sequence_prices<A: Allocator + Copy, B: Allocator>(
    alloc: A,
    task: &ProblemTask<B>,
    order: &[JobId],
) -> Result<Prices<A>, BoundFault>
    requires jobs { All (IsProblemJob task.now) order.now }
    requires one_time { IsFalse (is_shop_env task.now.problem.env) }
{
    let placed = place_all(alloc, task, order)?;
    let Some(horizon) = horizon_of(&placed) else {
        return Err(BoundFault::TooLarge);
    };
    let mut rows = zeros(alloc, horizon)?;
    if !is_by_unit(task.problem().goal) {
        suggest(alloc, task, &placed, &mut rows)?;
    }
    Ok(Prices {
        q: DENOMINATOR,
        rows,
    })
}

/// Prices that fall at due dates, of as many rows as others have.
pub fn prices_by_due<A: Allocator + Copy, B: Allocator>(
    alloc: A,
    task: &ProblemTask<B>,
    prices: &Prices<A>,
) -> Result<Prices<A>, OutOfMemory> {
    let rows = due_prices(alloc, task, prices.rows.len(), DENOMINATOR)?;
    Ok(Prices {
        q: DENOMINATOR,
        rows,
    })
}

/// The same prices over a thousandth of the denominator, rounded.
pub fn coarser_prices<A: Allocator + Copy>(
    alloc: A,
    prices: &Prices<A>,
) -> Result<Prices<A>, OutOfMemory> {
    let mut rows = vec![in alloc; 0_u64; prices.rows.len()]?;
    for (row, price) in rows.iter_mut().zip(prices.rows.iter()) {
        *row = price.saturating_add(COARSER / 2) / COARSER;
    }
    Ok(Prices {
        q: prices.q / COARSER,
        rows,
    })
}

/// As many zeros.
pub(crate) fn zeros<A: Allocator>(alloc: A, len: usize) -> Result<Vec<u64, A>, BoundFault>
    ensures { IfOk result (λ v. length v.items ≡ len) }
{
    let Ok(zeros) = vec![in alloc; 0_u64; len] else {
        return Err(BoundFault::OutOfMemory);
    };
    Ok(zeros)
}

// When the last job completes, where that is not too late.
fn horizon_of(placed: &[Placed]) -> Option<usize>
    ensures { IfSome result (λ rows. rows ≤ 10000000) }
{
    let mut horizon: u64 = 0;
    for job in placed {
        horizon = horizon.max(job.end);
    }
    if horizon > MOST_ROWS {
        return None;
    }
    Some(horizon as usize)
}

// The prices that a timetable suggests: on each machine they fall along a late job by its weight,
// and stay along the others. They are shared out among the machines.
fn suggest<A: Allocator + Copy, B: Allocator>(
    alloc: A,
    task: &ProblemTask<B>,
    placed: &[Placed],
    rows: &mut [u64],
) -> Result<(), BoundFault>
    requires { All (λ p. IsProblemJob task.now p.job) placed.now }
{
    let machines = task.machines() as usize;
    let Ok(mut from) = vec![in alloc; rows.len(); machines] else {
        return Err(BoundFault::OutOfMemory);
    };
    let mut level = zeros(alloc, machines)?;
    share_out(task, placed, &mut from, &mut level, rows);
    Ok(())
}

// `from` has of each machine the first row that has its price, and `level` that price.
fn share_out<B: Allocator>(
    task: &ProblemTask<B>,
    placed: &[Placed],
    from: &mut [usize],
    level: &mut [u64],
    rows: &mut [u64],
)
    requires { All (λ p. IsProblemJob task.now p.job) placed.now }
{
    for job in placed.iter().rev() {
        let rise = rise_of(task, job);
        if job.machine < level.len() && job.machine < from.len() {
            let share = Share {
                level: level[job.machine],
                rise,
                to: from[job.machine],
                machines: u64::from(task.machines()),
            };
            share.fill(rows, job);
            level[job.machine] = level[job.machine].saturating_add(rise);
            from[job.machine] = job.start as usize;
        }
    }
}

// By how much the prices fall along a job.
fn rise_of<B: Allocator>(task: &ProblemTask<B>, job: &Placed) -> u64
    requires { IsProblemJob task.now job.now.job }
{
    if i128::from(job.end) > i128::from(task.due(job.job)) {
        task.weight(job.job).saturating_mul(DENOMINATOR)
    } else {
        0
    }
}

// What one machine adds to the prices from the start of a job on, up to row `to`: `level` where the
// job completes, and `rise` more where it starts, divided by the number of machines.
#[derive(Clone, Copy)]
struct Share {
    level: u64,
    rise: u64,
    to: usize,
    machines: u64,
}

impl Share {
    fn fill(self, rows: &mut [u64], job: &Placed) {
        let time = u128::from(job.end.saturating_sub(job.start));
        if time == 0 || self.machines == 0 {
            return;
        }
        for row in (job.start as usize)..self.to.min(rows.len()) {
            let left = u128::from(job.end.saturating_sub(row as u64));
            let part = u128::from(self.rise).saturating_mul((2 * left).saturating_sub(1));
            let rise = u64::try_from(part / (2 * time)).unwrap_or(u64::MAX);
            let price = self.level.saturating_add(rise) / self.machines;
            rows[row] = rows[row].saturating_add(price);
        }
    }
}
