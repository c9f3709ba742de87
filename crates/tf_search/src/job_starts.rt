//! The starts of a job, and the cheapest of them, which a search for prices finds for each job in
//! each step.
//!
//! Wrapping sums are used, and none wraps: the prices of all rows are within the limit together,
//! and so is the cost of a job. Nothing rests on it, since the judge computes what prices bound.
ghost use Rattle.std.specs.Prelude.{◌≡◌, IsFalse};
ghost use Rattle.tf_model.specs.ClassTable.{is_shop_env};
ghost use Rattle.tf_posed.specs.ProblemData.{IsProblemJob};

use std::alloc::Allocator;
use tf_bound::prices::is_by_unit;
use tf_bound::task::ProblemTask;
use tf_model::ids::JobId;
use tf_model::limit::LIMIT;

/// The starts of a job from its release date to the last row, or to the last from which it is over
/// in time. Those that are in time come first,
/// and cost nothing; the late ones cost more the later they are, or all the same.
#[derive(Clone, Copy, Debug)]
pub struct JobStarts {
    // The release date.
    first: usize,
    // The first start that makes the job late, and the start after the last one.
    late: usize,
    end: usize,
    // The processing time.
    time: usize,
    // What the job costs at the first late start, and how much more at each start after it.
    cost: u64,
    slope: u64,
    // The cheapest start that was found last.
    cheapest: usize,
}

// A start, and what the job costs there: its cost and the prices of its rows.
#[derive(Clone, Copy)]
struct Start {
    row: usize,
    price: u64,
}

impl JobStarts {
    /// The starts of a job up to row `rows` from which it is over by `until`, where what it costs
    /// over q is within the limit.
    pub fn new<B: Allocator>(
        task: &ProblemTask<B>,
        job: JobId,
        rows: usize,
        until: u64,
        q: u64,
    ) -> Option<JobStarts>
        requires job { IsProblemJob task.now job }
        requires one_time { IsFalse (is_shop_env task.now.problem.env) }
    {
        let time = task.time(job);
        let in_time = i128::from(task.due(job)) - i128::from(time);
        let last = (rows as u64).min(until.saturating_sub(time));
        let end = last.saturating_add(1);
        let first = task.release(job).min(end);
        let late = u64::try_from(in_time.saturating_add(1)).unwrap_or(0);
        let late = late.max(first).min(end);
        let delay = u64::try_from(i128::from(late).saturating_sub(in_time)).unwrap_or(0);
        let weight = q.checked_mul(task.weight(job))?;
        let (cost, slope) = if is_by_unit(task.problem().goal) {
            (weight, 0)
        } else {
            (weight.checked_mul(delay)?, weight)
        };
        let most = slope.checked_mul(end)?.checked_add(cost)?;
        if most > LIMIT as u64 {
            return None;
        }
        Some(JobStarts {
            first: first as usize,
            late: late as usize,
            end: end as usize,
            time: time as usize,
            cost,
            slope,
            cheapest: first as usize,
        })
    }

    /// The processing time.
    pub fn time(self) -> usize {
        self.time
    }

    /// Finds the cheapest start, and returns what the job costs there. `sums` has the sum of the
    /// prices before each row, and that of all prices for each row after the last.
    pub fn find_cheapest(&mut self, sums: &[u64]) -> u64 {
        let known = Start {
            row: self.cheapest,
            price: u64::MAX,
        };
        let known = self.cheaper(sums, known.row, known.row.saturating_add(1), known);
        let in_time = self.cheaper(sums, self.first, self.late, known);
        let best = self.cheaper(sums, self.late, self.worth(in_time.price), in_time);
        self.cheapest = best.row;
        best.price
    }

    /// Counts the job at its cheapest start: one more from its first row on, and one less after its
    /// last row.
    pub fn count_in(self, counts: &mut [i64]) {
        if let Some(count) = counts.get_mut(self.cheapest) {
            *count = count.saturating_add(1);
        }
        if let Some(count) = counts.get_mut(self.cheapest.saturating_add(self.time)) {
            *count = count.saturating_sub(1);
        }
    }

    // The late start from which on the job alone costs more than the price.
    fn worth(self, price: u64) -> usize {
        let steps = price
            .saturating_sub(self.cost)
            .checked_div(self.slope)
            .unwrap_or(u64::MAX);
        let last = (self.late as u64).saturating_add(steps).saturating_add(1);
        last.min(self.end as u64) as usize
    }

    // The cheapest of the best start and those between two rows, which are all in time or all late.
    fn cheaper(self, sums: &[u64], from: usize, to: usize, best: Start) -> Start {
        let (mut cost, slope) = self.cost_from(from);
        let before = part(sums, from, to);
        let after = part(
            sums,
            from.saturating_add(self.time),
            to.saturating_add(self.time),
        );
        let mut best = best;
        for (place, (before, after)) in before.iter().zip(after).enumerate() {
            let price = after.wrapping_sub(*before).wrapping_add(cost);
            if price < best.price {
                best = Start {
                    row: from.wrapping_add(place),
                    price,
                };
            }
            cost = cost.wrapping_add(slope);
        }
        best
    }

    // What the job costs at a start, and how much more at each start after it of the same part.
    fn cost_from(self, row: usize) -> (u64, u64) {
        if row < self.late {
            return (0, 0);
        }
        let steps = (row as u64).saturating_sub(self.late as u64);
        let cost = self.cost.saturating_add(self.slope.saturating_mul(steps));
        (cost, self.slope)
    }
}

// The part of a list between two places, as far as it goes.
fn part(list: &[u64], from: usize, to: usize) -> &[u64] {
    let to = to.min(list.len());
    &list[from.min(to)..to]
}
