//! The bound of a sum by prices of the rows: each job at its cheapest start, less what all machines
//! can take in. Where jobs may be preempted, each of a job's rows is a cheapest one.
ghost use Rattle.std.specs.Prelude.{◌≡◌, ℕ, ◌+◌, ◌*◌, ◌≤◌, ℤ, pos, ◌-ℤ◌, length, sum, IfOk};
ghost use Rattle.std.specs.Prelude.{◌^◌, ◌||◌, is_none, nat_le, nat_lt, IfSome, IsTrue, IsFalse};
ghost use Rattle.std.specs.List.{All, list_any};
ghost use Rattle.tf_model.specs.ClassTable.{is_shop_env};
ghost use Rattle.tf_model.specs.Limit.{limit};
ghost use Rattle.tf_model.specs.Whole.{IsWithin};
ghost use Rattle.tf_posed.specs.ProblemData.{IsProblemJob, problem_jobs, problem_release};
ghost use Rattle.tf_posed.specs.ProblemCost.{IsLowerBound};
ghost use Rattle.tf_problem.specs.ProblemBounds.{is_alike, is_completion_goal, is_sum_goal};
ghost use Rattle.tf_problem.specs.ProblemBounds.{horizon, numerator, share_up, AreCheapest};
ghost use Rattle.tf_bound.specs.Kinds.{takes_prices};
ghost use Rattle.tf_bound.specs.Faulted.{are_prices_large, is_dear, prices_fault, too_large};
ghost use Rattle.tf_bound.specs.Faulted.{NamesFault};
ghost use Rattle.tf_bound.specs.RowSums.{AreSums, late_steps};
ghost use Rattle.tf_bound.specs.Prices.{IsCheapestFor, IsPaidFor, IsPricesBound, IsStartsBound};
ghost use Rattle.tf_bound.specs.Prices.{is_by_unit};

use crate::fault::BoundFault;
use crate::horizon::horizon;
use crate::row_prices::rows_bound;
use crate::row_sums::{Cheapest, StartingJob, cheapest_start, late_steps, sum_rows};
use crate::task::ProblemTask;
use std::alloc::Allocator;
use tf_model::ids::JobId;
use tf_model::limit::LIMIT;
use tf_model::memory::OutOfMemory;
use tf_model::problem::{Env, Goal};
use tf_problem::laws::{cheapest_law, prices_law};

/// Whether prices bound a problem: a sum over the jobs, where each has one time; of completion
/// times, where jobs may be preempted.
pub fn takes_prices<A: Allocator>(task: &ProblemTask<A>) -> bool
    ensures exact { result ≡ takes_prices task.now.problem }
    ensures alike { IsTrue result → IsTrue (is_alike task.now.problem.env) }
    ensures one_time { IsTrue result → IsFalse (is_shop_env task.now.problem.env) }
    ensures sum { IsTrue result → IsTrue (is_sum_goal task.now.problem.goal) }
    ensures completions { IsTrue result → IsTrue task.now.problem.prmp →
        IsTrue (is_completion_goal task.now.problem.goal) }
{
    let problem = task.problem();
    let alike = matches!(problem.env, Env::Single | Env::Parallel);
    let sum = if problem.prmp {
        matches!(problem.goal, Goal::SumC | Goal::SumWC)
    } else {
        !matches!(problem.goal, Goal::Cmax | Goal::Lmax | Goal::Hmax)
    };
    alike && sum
}

/// Whether the objective counts late jobs.
pub fn is_by_unit(goal: Goal) -> bool
    ensures { result ≡ is_by_unit goal }
{
    matches!(goal, Goal::SumU | Goal::SumWU)
}

// The cheapest start of a job, where what it costs is within the limit. `until` is when all jobs
// can be over.
fn cheapest_of<A: Allocator>(
    task: &ProblemTask<A>,
    until: u64,
    q: u64,
    prices: &[u64],
    sums: &[u64],
    job: JobId,
) -> Option<Cheapest>
    requires until { until ≡ horizon task.now }
    requires job { IsProblemJob task.now job }
    requires alike { IsTrue (is_alike task.now.problem.env) }
    requires one_time { IsFalse (is_shop_env task.now.problem.env) }
    requires goal { IsTrue (is_sum_goal task.now.problem.goal) }
    requires sums { AreSums prices.now sums.now }
    ensures dear { is_none result ≡ is_dear task.now q prices.now job }
    ensures cheapest { IfSome result (λ found.
        IsCheapestFor task.now q prices.now job found.price) }
    ensures reached { IfSome result (λ found. IsPaidFor task.now q prices.now job found.price) }
    ensures small { IfSome result (λ found. found.price ≤ 2 * limit) }
{
    cheapest_law();
    let release = task.release(job);
    let time = task.time(job);
    let due = task.due(job);
    let last = release.max(prices.len() as u64);
    if last > LIMIT as u64 - time {
        return None;
    }
    let by_unit = is_by_unit(task.problem().goal);
    let slope = slope_within(by_unit, q, task.weight(job), due, last + time)?;
    let starting = StartingJob {
        release,
        last: last.min(until - time),
        time,
        due,
        slope,
        by_unit,
    };
    Some(cheapest_start(prices, sums, starting))
}

/// The weight of a job times q, where what it costs at `end` is within the limit.
pub(crate) fn slope_within(by_unit: bool, q: u64, weight: u64, due: i64, end: u64) -> Option<u64>
    requires end { end ≤ limit }
    requires weight { weight ≤ limit }
    requires due { IsWithin due }
    ensures dear { is_none result ≡ (nat_le (2 ^ 64) (q * weight)
        || nat_lt limit (q * weight * late_steps by_unit due end)) }
    ensures slope { IfSome result (λ slope. slope ≡ q * weight) }
    ensures small { IfSome result (λ slope. slope * late_steps by_unit due end ≤ limit) }
{
    let slope = q.checked_mul(weight)?;
    let late = late_steps(by_unit, due, end);
    if u128::from(slope) * u128::from(late) > LIMIT as u128 {
        return None;
    }
    Some(slope)
}

// What each job costs at its cheapest start, job by job.
fn cheapest_prices<A: Allocator, B: Allocator>(
    alloc: A,
    task: &ProblemTask<B>,
    q: u64,
    prices: &[u64],
    sums: &[u64],
) -> Result<Vec<u64, A>, BoundFault>
    requires alike { IsTrue (is_alike task.now.problem.env) }
    requires one_time { IsFalse (is_shop_env task.now.problem.env) }
    requires goal { IsTrue (is_sum_goal task.now.problem.goal) }
    requires sums { AreSums prices.now sums.now }
    ensures fault { NamesFault
        (too_large (list_any (is_dear task.now q prices.now) (problem_jobs task.now))) result }
    ensures cheapest { IfOk result (λ v. AreCheapest task.now q prices.now v.items) }
    ensures reached { IfOk result (λ v. (j : ℕ) → IsProblemJob task.now j
        → IsPaidFor task.now q prices.now j (numerator v.items j)) }
    ensures len { IfOk result (λ v. length v.items ≡ length task.now.jobs) }
    ensures small { IfOk result (λ v. All (λ x. x ≤ 2 * limit) v.items) }
{
    cheapest_law();
    let Ok(mut cheapest) = Vec::with_capacity(alloc, task.len()) else {
        return Err(BoundFault::OutOfMemory);
    };
    let until = horizon(task);
    for k in 0..task.len() {
        let Some(found) = cheapest_of(task, until, q, prices, sums, JobId::at(k)) else {
            return Err(BoundFault::TooLarge);
        };
        let Ok(()) = cheapest.push(found.price) else {
            return Err(BoundFault::OutOfMemory);
        };
    }
    Ok(cheapest)
}

// All of them together.
fn total_of(prices: &[u64]) -> u128
    requires few { length prices.now ≤ 100000 }
    requires small { All (λ x. x ≤ 2 * limit) prices.now }
    ensures value { result ≡ sum prices.now }
    ensures small { result ≤ 200000 * limit }
{
    let mut total: u128 = 0;
    for price in prices {
        total += u128::from(*price);
    }
    total
}

// A number over q, rounded up, and 0 where it is negative.
pub(crate) fn share_up(number: i128, q: u128) -> i128
    requires { 1 ≤ q }
    ensures { result ≡ share_up number q }
{
    if number <= 0 {
        0
    } else {
        (number as u128).div_ceil(q) as i128
    }
}

// What the jobs cost, less all prices on each machine, over q.
fn prices_value(machines: u32, all: u64, cheapest: &[u64], q: u64) -> i128
    requires few { length cheapest.now ≤ 100000 }
    requires small { All (λ x. x ≤ 2 * limit) cheapest.now }
    requires some { 1 ≤ q }
    ensures { result ≡ share_up (pos (sum cheapest.now) -ℤ pos (machines * all)) q }
{
    let taken = u128::from(machines) * u128::from(all);
    share_up(total_of(cheapest) as i128 - taken as i128, u128::from(q))
}

/// The bound by the prices of the rows from 0 on, which are over q. It takes memory for the rows
/// and for the jobs, or none where jobs may be preempted.
pub fn prices_bound<A: Allocator + Copy, B: Allocator>(
    alloc: A,
    task: &ProblemTask<B>,
    q: u64,
    prices: &[u64],
) -> Result<i128, BoundFault>
    ensures fault { NamesFault (prices_fault task.now q prices.now) result }
    ensures value { IfOk result (IsPricesBound task.now q prices.now) }
    ensures bound { IfOk result (IsLowerBound task.now) }
{
    if !takes_prices(task) {
        return Err(BoundFault::OtherKind);
    }
    if q == 0 {
        return Err(BoundFault::NoDenominator);
    }
    if task.problem().prmp {
        return rows_bound(task, q, prices);
    }
    let Ok(mut sums) = vec![in alloc; 0_u64; prices.len() + 1] else {
        return Err(BoundFault::OutOfMemory);
    };
    bound_with(alloc, task, q, prices, &mut sums)
}

// The bound, with room for the sums of the prices.
fn bound_with<A: Allocator, B: Allocator>(
    alloc: A,
    task: &ProblemTask<B>,
    q: u64,
    prices: &[u64],
    sums: &mut [u64],
) -> Result<i128, BoundFault>
    requires alike { IsTrue (is_alike task.now.problem.env) }
    requires one_time { IsFalse (is_shop_env task.now.problem.env) }
    requires whole { IsFalse task.now.problem.prmp }
    requires goal { IsTrue (is_sum_goal task.now.problem.goal) }
    requires some { 1 ≤ q }
    requires sums { length sums.old ≡ length prices.now + 1 }
    ensures fault { NamesFault (too_large (are_prices_large task.now q prices.now)) result }
    ensures value { IfOk result (IsStartsBound task.now q prices.now) }
    ensures bound { IfOk result (IsLowerBound task.now) }
{
    if !sum_rows(prices, sums) {
        return Err(BoundFault::TooLarge);
    }
    let cheapest = cheapest_prices(alloc, task, q, prices, sums)?;
    prices_law();
    let all = sums[prices.len()];
    Ok(prices_value(task.machines(), all, &cheapest, q))
}
