//! The bound of weighted completion times by prices of the rows, whether or not jobs are preempted:
//! each row of a job is a cheapest one, and they are in the mean at least half of its processing
//! time before its completion (Goemans, Queyranne, Schulz, Skutella and Wang 2002).
ghost use Rattle.std.specs.Prelude.{◌≡◌, ◌*◌, ◌≤◌, length, max, is_none, IfOk, IfSome, IsTrue};
ghost use Rattle.std.specs.Prelude.{pos, ◌-ℤ◌, IsFalse};
ghost use Rattle.std.specs.List.{list_any, sum_by};
ghost use Rattle.tf_model.specs.ClassTable.{is_shop_env};
ghost use Rattle.tf_model.specs.Limit.{limit};
ghost use Rattle.tf_posed.specs.ProblemData.{IsProblemJob, problem_jobs, problem_time};
ghost use Rattle.tf_posed.specs.ProblemCost.{IsLowerBound};
ghost use Rattle.tf_problem.specs.ProblemBounds.{is_alike, is_completion_goal, rows_cost};
ghost use Rattle.tf_problem.specs.ProblemBounds.{rows_value, share_up};
ghost use Rattle.tf_bound.specs.Faulted.{are_prices_large, is_dear, too_large, NamesFault};
ghost use Rattle.tf_bound.specs.RowPrices.{least_row};

use crate::fault::BoundFault;
use crate::prices::{share_up, slope_within};
use crate::task::{ProblemTask, sum_within};
use std::alloc::Allocator;
use tf_model::ids::JobId;
use tf_model::limit::LIMIT;
use tf_problem::laws::row_prices_law;

// What the cheapest row from the release date on costs a job: its slope for each row before, and
// its time as often as the price of the row.
fn cheapest_row(prices: &[u64], release: u64, slope: u64, time: u64) -> u64
    requires { slope * max release (length prices.now) ≤ limit }
    ensures value { result ≡ least_row prices.now release slope time }
    ensures small { result ≤ slope * max release (length prices.now) }
{
    let last = release.max(prices.len() as u64);
    let mut best = slope * last;
    for row in release..last {
        let price = u128::from(prices[row as usize]) * u128::from(time) + u128::from(slope * row);
        if price < u128::from(best) {
            best = price as u64;
        }
    }
    best
}

// Twice what a job costs at its cheapest rows, where it is within the limit.
fn rows_cost<A: Allocator>(task: &ProblemTask<A>, q: u64, prices: &[u64], job: JobId) -> Option<u64>
    requires job { IsProblemJob task.now job }
    requires time { 1 ≤ problem_time task.now job }
    requires one_time { IsFalse (is_shop_env task.now.problem.env) }
    requires goal { IsTrue (is_completion_goal task.now.problem.goal) }
    ensures dear { is_none result ≡ is_dear task.now q prices.now job }
    ensures value { IfSome result (λ cost. cost ≡ rows_cost task.now q prices.now job) }
    ensures small { IfSome result (λ cost. cost ≤ 2 * limit) }
{
    let release = task.release(job);
    let time = task.time(job);
    let last = release.max(prices.len() as u64);
    if last > LIMIT as u64 - time {
        return None;
    }
    let slope = slope_within(false, q, task.weight(job), 0, last + time)?;
    Some(slope * (time + 1) + 2 * cheapest_row(prices, release, slope, time))
}

// What all jobs cost so together.
fn all_rows_cost<A: Allocator>(task: &ProblemTask<A>, q: u64, prices: &[u64]) -> Option<u128>
    requires one_time { IsFalse (is_shop_env task.now.problem.env) }
    requires goal { IsTrue (is_completion_goal task.now.problem.goal) }
    ensures dear { is_none result
        ≡ list_any (is_dear task.now q prices.now) (problem_jobs task.now) }
    ensures value { IfSome result (λ total.
        total ≡ sum_by (rows_cost task.now q prices.now) (problem_jobs task.now)) }
    ensures small { IfSome result (λ total. total ≤ 200000 * limit) }
{
    let mut total: u128 = 0;
    for k in 0..task.len() {
        total += u128::from(rows_cost(task, q, prices, JobId::at(k))?);
    }
    Some(total)
}

// What the jobs cost, less all prices on each machine, over q. `total` is twice what they cost.
fn rows_value(total: u128, machines: u32, all: u64, q: u64) -> i128
    requires small { total ≤ 200000 * limit }
    requires some { 1 ≤ q }
    ensures { result ≡ share_up (pos total -ℤ pos (2 * machines * all)) (2 * q) }
{
    let taken = 2 * u128::from(machines) * u128::from(all);
    share_up(total as i128 - taken as i128, 2 * u128::from(q))
}

/// The bound by the prices of the rows from 0 on, which are over q.
pub(crate) fn rows_bound<A: Allocator>(
    task: &ProblemTask<A>,
    q: u64,
    prices: &[u64],
) -> Result<i128, BoundFault>
    requires alike { IsTrue (is_alike task.now.problem.env) }
    requires one_time { IsFalse (is_shop_env task.now.problem.env) }
    requires goal { IsTrue (is_completion_goal task.now.problem.goal) }
    requires some { 1 ≤ q }
    ensures fault { NamesFault (too_large (are_prices_large task.now q prices.now)) result }
    ensures value { IfOk result (λ b. b ≡ rows_value task.now q prices.now) }
    ensures bound { IfOk result (IsLowerBound task.now) }
{
    let Some(all) = sum_within(prices) else {
        return Err(BoundFault::TooLarge);
    };
    let Some(total) = all_rows_cost(task, q, prices) else {
        return Err(BoundFault::TooLarge);
    };
    row_prices_law();
    Ok(rows_value(total, task.machines(), all, q))
}
