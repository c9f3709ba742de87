//! The bound of a sum by prices of the rows on one machine of a shop: each job at its cheapest
//! start there, with its head before and its tail behind, less what the machine can take in.
ghost use Rattle.std.specs.Prelude.{◌≡◌, ◌+◌, ◌*◌, ◌<◌, ◌≤◌, length, max, is_none, IfOk, IfSome};
ghost use Rattle.std.specs.Prelude.{pos, ◌-ℤ◌, IsFalse, IsTrue};
ghost use Rattle.std.specs.List.{list_any, sum_by};
ghost use Rattle.tf_model.specs.ClassTable.{is_shop_env};
ghost use Rattle.tf_model.specs.Limit.{limit};
ghost use Rattle.tf_model.specs.Whole.{IsWithin};
ghost use Rattle.tf_posed.specs.ProblemData.{IsProblemJob, problem_jobs};
ghost use Rattle.tf_posed.specs.ProblemCost.{IsLowerBound};
ghost use Rattle.tf_problem.specs.ProblemBounds.{is_by_machine, is_sum_goal, share_up};
ghost use Rattle.tf_problem.specs.MachinePrices.{cheapest_from, machine_prices_value};
ghost use Rattle.tf_bound.specs.Kinds.{takes_machine_prices};
ghost use Rattle.tf_bound.specs.Faulted.{are_machine_prices_large, is_dear_from};
ghost use Rattle.tf_bound.specs.Faulted.{machine_prices_fault, too_large, NamesFault};
ghost use Rattle.tf_bound.specs.RowSums.{AreSums, late_steps};
ghost use Rattle.tf_bound.specs.Sized.{IsSized};
ghost use Rattle.tf_bound.specs.Visits.{cheapest_visit, visit_end, visit_price};

use crate::fault::BoundFault;
use crate::prices::{is_by_unit, share_up, slope_within};
use crate::row_sums::{late_steps, sum_rows};
use crate::task::ProblemTask;
use std::alloc::Allocator;
use tf_model::ids::JobId;
use tf_model::limit::LIMIT;
use tf_model::problem::{Env, Goal};
use tf_problem::laws::machine_prices_law;

/// Whether prices of the rows on one machine bound a problem: a sum over the jobs of a shop, where
/// none is preempted.
pub fn takes_machine_prices<A: Allocator>(task: &ProblemTask<A>) -> bool
    ensures exact { result ≡ takes_machine_prices task.now.problem }
    ensures shop { IsTrue result → IsTrue (is_shop_env task.now.problem.env) }
    ensures by { IsTrue result → IsTrue (is_by_machine task.now.problem.env) }
    ensures whole { IsTrue result → IsFalse task.now.problem.prmp }
    ensures sum { IsTrue result → IsTrue (is_sum_goal task.now.problem.goal) }
{
    let problem = task.problem();
    let shop = matches!(problem.env, Env::Flow | Env::OpenShop | Env::JobShop);
    let sum = !matches!(problem.goal, Goal::Cmax | Goal::Lmax | Goal::Hmax);
    shop && !problem.prmp && sum
}

// What a job does on the machine, and how it pays for a late completion.
#[derive(Clone, Copy)]
struct Visit {
    // Before this row it isn't there.
    head: u64,
    time: u64,
    // So much later than there it completes.
    tail: u64,
    // Before this time it completes nowhere.
    earliest: u64,
    due: i64,
    // What it pays for each late step.
    slope: u64,
    // Whether it pays once, however late it is.
    by_unit: bool,
}

// What a job costs that starts in this row: its lateness and the prices of its rows.
fn price_at(prices: &[u64], sums: &[u64], visit: Visit, start: u64) -> u64
    requires sums { AreSums prices.now sums.now }
    requires end { start + visit.time + visit.tail ≤ limit }
    requires earliest { visit.earliest ≤ limit }
    requires due { IsWithin visit.due }
    requires small { visit.slope * late_steps visit.by_unit visit.due
        (visit_end visit.time visit.tail visit.earliest start) ≤ limit }
    ensures value { result ≡ visit_price prices.now visit.time visit.tail visit.earliest
        visit.by_unit visit.slope visit.due start }
    ensures small { result ≤ 2 * limit }
{
    let rows = prices.len() as u64;
    let over = start + visit.time;
    let of_rows = sums[over.min(rows) as usize] - sums[start.min(rows) as usize];
    let end = (over + visit.tail).max(visit.earliest);
    visit.slope * late_steps(visit.by_unit, visit.due, end) + of_rows
}

// What it costs at its cheapest start.
fn cheapest_visit(prices: &[u64], sums: &[u64], visit: Visit) -> u64
    requires sums { AreSums prices.now sums.now }
    requires last { max visit.head (length prices.now) + visit.time + visit.tail ≤ limit }
    requires earliest { visit.earliest ≤ limit }
    requires due { IsWithin visit.due }
    requires small { visit.slope * late_steps visit.by_unit visit.due
        (visit_end visit.time visit.tail visit.earliest (max visit.head (length prices.now)))
        ≤ limit }
    ensures value { result ≡ cheapest_visit prices.now visit.head visit.time visit.tail
        visit.earliest visit.by_unit visit.slope visit.due }
    ensures small { result ≤ 2 * limit }
{
    let last = visit.head.max(prices.len() as u64);
    let mut best: u64 = price_at(prices, sums, visit, last);
    for start in visit.head..last {
        best = best.min(price_at(prices, sums, visit, start));
    }
    best
}

// What a job costs at its cheapest start, where that is within the limit.
fn cost_of<A: Allocator>(
    task: &ProblemTask<A>,
    machine: usize,
    q: u64,
    prices: &[u64],
    sums: &[u64],
    job: JobId,
) -> Option<u64>
    requires machine { machine < task.now.machines }
    requires by { IsTrue (is_by_machine task.now.problem.env) }
    requires goal { IsTrue (is_sum_goal task.now.problem.goal) }
    requires sums { AreSums prices.now sums.now }
    requires job { IsProblemJob task.now job }
    ensures dear { is_none result ≡ is_dear_from task.now machine q prices.now job }
    ensures value { IfSome result (λ cost. cost ≡ cheapest_from task.now machine q prices.now job) }
    ensures small { IfSome result (λ cost. cost ≤ 2 * limit) }
{
    let head = task.head(machine, job);
    let time = task.time_on(machine, job);
    let tail = task.tail(machine, job);
    let last = head.max(prices.len() as u64);
    if last > LIMIT as u64 || last + time + tail > LIMIT as u64 {
        return None;
    }
    let earliest = task.release(job) + task.work(job);
    let due = task.due(job);
    let by_unit = is_by_unit(task.problem().goal);
    let end = (last + time + tail).max(earliest);
    let slope = slope_within(by_unit, q, task.weight(job), due, end)?;
    let visit = Visit {
        head,
        time,
        tail,
        earliest,
        due,
        slope,
        by_unit,
    };
    Some(cheapest_visit(prices, sums, visit))
}

// What all jobs cost so together.
fn all_costs<A: Allocator>(
    task: &ProblemTask<A>,
    machine: usize,
    q: u64,
    prices: &[u64],
    sums: &[u64],
) -> Option<u128>
    requires machine { machine < task.now.machines }
    requires by { IsTrue (is_by_machine task.now.problem.env) }
    requires goal { IsTrue (is_sum_goal task.now.problem.goal) }
    requires sums { AreSums prices.now sums.now }
    ensures dear { is_none result
        ≡ list_any (is_dear_from task.now machine q prices.now) (problem_jobs task.now) }
    ensures value { IfSome result (λ total.
        total ≡ sum_by (cheapest_from task.now machine q prices.now) (problem_jobs task.now)) }
    ensures small { IfSome result (λ total. total ≤ 200000 * limit) }
    ensures sized { IsSized task.now }
{
    let mut total: u128 = 0;
    for k in 0..task.len() {
        total += u128::from(cost_of(task, machine, q, prices, sums, JobId::at(k))?);
    }
    Some(total)
}

/// The bound by the prices of the rows from 0 on, which are over q, on a machine, counted from 0.
/// It takes memory for the rows.
pub fn machine_prices_bound<A: Allocator, B: Allocator>(
    alloc: A,
    task: &ProblemTask<B>,
    machine: usize,
    q: u64,
    prices: &[u64],
) -> Result<i128, BoundFault>
    ensures fault { NamesFault (machine_prices_fault task.now machine q prices.now) result }
    ensures value { IfOk result (λ b. b ≡ machine_prices_value task.now machine q prices.now) }
    ensures bound { IfOk result (IsLowerBound task.now) }
{
    if !takes_machine_prices(task) {
        return Err(BoundFault::OtherKind);
    }
    if q == 0 {
        return Err(BoundFault::NoDenominator);
    }
    if machine >= task.machines() as usize {
        return Err(BoundFault::BadMachine(machine));
    }
    let Ok(mut sums) = vec![in alloc; 0_u64; prices.len() + 1] else {
        return Err(BoundFault::OutOfMemory);
    };
    bound_with(task, machine, q, prices, &mut sums)
}

// The bound, with room for the sums of the prices.
fn bound_with<A: Allocator>(
    task: &ProblemTask<A>,
    machine: usize,
    q: u64,
    prices: &[u64],
    sums: &mut [u64],
) -> Result<i128, BoundFault>
    requires machine { machine < task.now.machines }
    requires shop { IsTrue (is_shop_env task.now.problem.env) }
    requires by { IsTrue (is_by_machine task.now.problem.env) }
    requires whole { IsFalse task.now.problem.prmp }
    requires goal { IsTrue (is_sum_goal task.now.problem.goal) }
    requires some { 1 ≤ q }
    requires sums { length sums.old ≡ length prices.now + 1 }
    ensures fault { NamesFault
        (too_large (are_machine_prices_large task.now machine q prices.now)) result }
    ensures value { IfOk result (λ b. b ≡ machine_prices_value task.now machine q prices.now) }
    ensures bound { IfOk result (IsLowerBound task.now) }
{
    if !sum_rows(prices, sums) {
        return Err(BoundFault::TooLarge);
    }
    let Some(total) = all_costs(task, machine, q, prices, sums) else {
        return Err(BoundFault::TooLarge);
    };
    machine_prices_law();
    Ok(value_of(total, sums[prices.len()], q))
}

// What the jobs cost, less all prices, over q.
fn value_of(total: u128, all: u64, q: u64) -> i128
    requires small { total ≤ 200000 * limit }
    requires some { 1 ≤ q }
    ensures { result ≡ share_up (pos total -ℤ pos all) q }
{
    share_up(total as i128 - i128::from(all), u128::from(q))
}
