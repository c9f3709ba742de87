//! Prices of unit rows summed up, and the cheapest start of a job.
ghost use Rattle.std.specs.Prelude.{◌≡◌, ◌+◌, ◌*◌, ◌≤◌, length, nat_lt, not, sum, IsTrue};
ghost use Rattle.tf_model.specs.Limit.{limit};
ghost use Rattle.tf_model.specs.Whole.{IsWithin};
ghost use Rattle.tf_problem.specs.ProblemBounds.{price_of_rows};
ghost use Rattle.tf_bound.specs.RowSums.{AreSums, late_steps, IsCheapest, IsReached};

use tf_model::limit::LIMIT;

/// Writes the sum of the prices before each row, and of all after the last one. False where they
/// are beyond the limit.
pub fn sum_rows(prices: &[u64], sums: &mut [u64]) -> bool
    requires { length sums.old ≡ length prices.now + 1 }
    ensures small { result ≡ not (nat_lt limit (sum prices.now)) }
    ensures sums { IsTrue result → AreSums prices.now sums.new }
{
    let mut total: u64 = 0;
    sums[0] = 0;
    for row in 0..prices.len() {
        if prices[row] > LIMIT as u64 - total {
            return false;
        }
        total += prices[row];
        sums[row + 1] = total;
    }
    true
}

/// How often a job that completes at `end` pays its slope: for each step after its due date, or
/// once if it is late at all.
pub fn late_steps(by_unit: bool, due: i64, end: u64) -> u64
    requires end { end ≤ limit }
    requires due { IsWithin due }
    ensures { result ≡ late_steps by_unit due end }
{
    let late = end as i64 - due;
    if late <= 0 {
        0
    } else if by_unit {
        1
    } else {
        late as u64
    }
}

/// A job whose start is wanted, and how it pays for a late completion.
#[derive(Clone, Copy, Debug)]
pub struct StartingJob {
    /// The first start that is looked at.
    pub release: u64,
    /// The last one.
    pub last: u64,
    pub time: u64,
    pub due: i64,
    /// What it pays for each late step.
    pub slope: u64,
    /// Whether it pays once, however late it is.
    pub by_unit: bool,
}

/// The cheapest start of a job, and what it costs there.
#[derive(Clone, Copy, Debug)]
pub struct Cheapest {
    pub price: u64,
    pub start: u64,
}

// What a job costs at a start: its lateness and the prices of its rows.
fn price_at(prices: &[u64], sums: &[u64], job: StartingJob, start: u64) -> u64
    requires sums { AreSums prices.now sums.now }
    requires end { start + job.time ≤ limit }
    requires due { IsWithin job.due }
    requires small { job.slope * late_steps job.by_unit job.due (start + job.time) ≤ limit }
    ensures value { result ≡ job.slope * late_steps job.by_unit job.due (start + job.time)
        + price_of_rows prices.now start job.time }
    ensures small { result ≤ 2 * limit }
{
    let rows = prices.len() as u64;
    let end = start + job.time;
    let of_rows = sums[end.min(rows) as usize] - sums[start.min(rows) as usize];
    job.slope * late_steps(job.by_unit, job.due, end) + of_rows
}

/// The cheapest start of a job from its release date to its last start.
pub fn cheapest_start(prices: &[u64], sums: &[u64], job: StartingJob) -> Cheapest
    requires sums { AreSums prices.now sums.now }
    requires some { job.release ≤ job.last }
    requires last { job.last + job.time ≤ limit }
    requires due { IsWithin job.due }
    requires small { job.slope * late_steps job.by_unit job.due (job.last + job.time) ≤ limit }
    ensures cheapest { IsCheapest prices.now (job.release, job.last) job.time job.by_unit job.slope
        job.due result.price }
    ensures reached { IsReached prices.now (job.release, job.last) job.time job.by_unit job.slope
        job.due result.price result.start }
    ensures small { result.price ≤ 2 * limit }
{
    let mut best = Cheapest {
        price: price_at(prices, sums, job, job.last),
        start: job.last,
    };
    for start in job.release..job.last {
        let price = price_at(prices, sums, job, start);
        if price < best.price {
            best = Cheapest { price, start };
        }
    }
    best
}
