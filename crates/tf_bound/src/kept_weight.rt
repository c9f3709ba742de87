//! The bound of the weighted number of late jobs by those of a list that can be kept, by a table
//! over the time of the jobs on time (Lawler and Moore 1969).
ghost use Rattle.std.specs.Prelude.{◌≡◌, ℕ, ◌+◌, ◌<◌, ◌≤◌, pos, length, slice_index, sum_by, IfOk};
ghost use Rattle.std.specs.Prelude.{is_none, nat_le, IfSome, IsTrue, IsFalse};
ghost use Rattle.std.specs.List.{All};
ghost use Rattle.tf_model.specs.ClassTable.{is_shop_env};
ghost use Rattle.tf_model.specs.declared.problem.Goal.TheVariants as goals;
ghost use Rattle.tf_model.specs.Limit.{limit};
ghost use Rattle.tf_posed.specs.ProblemData.{IsProblemJob, problem_time, problem_weight};
ghost use Rattle.tf_posed.specs.ProblemCost.{IsLowerBound};
ghost use Rattle.tf_problem.specs.ProblemBounds.{is_alike};
ghost use Rattle.tf_problem.specs.Kept.{kept_weight, least_choice};
ghost use Rattle.tf_bound.specs.Certified.{late_value};
ghost use Rattle.tf_bound.specs.Faulted.{is_table_large, kept_weight_fault, late_fault};
ghost use Rattle.tf_bound.specs.Faulted.{most_table_time, NamesFault};
ghost use Rattle.tf_bound.specs.Kinds.{takes_kept_weight};
ghost use Rattle.tf_bound.specs.Optimal.{AreUnreleased, IsMinimum};
ghost use Rattle.tf_bound.specs.Prices.{is_by_unit};

use crate::alike::{least_release, work_of};
use crate::fault::BoundFault;
use crate::jobs::judge_list;
use crate::kept::{first_due_early, kept_bound, room_from};
use crate::task::ProblemTask;
use std::alloc::Allocator;
use tf_model::ids::JobId;
use tf_model::limit::LIMIT;
use tf_model::memory::OutOfMemory;
use tf_model::problem::{Env, Goal};
use tf_problem::laws::{kept_weight_best_law, kept_weight_law};

/// The most time of jobs together for which a table is made.
pub const MOST_TABLE_TIME: u64 = 10_000_000;

/// The most entries of a table that are computed, one for each job and each time.
pub const MOST_ENTRIES: u64 = 1_000_000_000;

/// Whether jobs by due date bound a problem by their weights: the weighted number of late jobs, on
/// one machine or on identical ones.
pub fn takes_kept_weight<A: Allocator>(task: &ProblemTask<A>) -> bool
    ensures exact { result ≡ takes_kept_weight task.now.problem }
    ensures alike { IsTrue result → IsTrue (is_alike task.now.problem.env) }
    ensures one_time { IsTrue result → IsFalse (is_shop_env task.now.problem.env) }
    ensures goal { IsTrue result → task.now.problem.goal ≡ goals.SumWU }
    ensures by_unit { IsTrue result → IsTrue (is_by_unit task.now.problem.goal) }
{
    let problem = task.problem();
    let alike = matches!(problem.env, Env::Single | Env::Parallel);
    alike && matches!(problem.goal, Goal::SumWU)
}

// A job that is late or on time.
#[derive(Clone, Copy, Debug)]
struct Choice {
    time: usize,
    weight: u64,
    // How much time the jobs on time may take up to its due date.
    room: u128,
}

impl Choice {
    // The least weight that is lost behind jobs on time that take `spent`, by what is lost of the
    // jobs after it with this job late and with it on time.
    fn least(self, spent: usize, late: u64, on: u64) -> u64
        requires time { spent + self.time ≤ limit }
        requires small { self.weight + late ≤ limit }
        ensures { result ≡ least_choice self.time self.weight self.room spent late on }
    {
        let late = self.weight + late;
        if (spent + self.time) as u128 > self.room {
            late
        } else {
            late.min(on)
        }
    }
}

// Writes the first `times` entries of the table with one job more before those it had.
fn choose(table: &mut [u64], times: usize, choice: Choice)
    requires times { times + choice.time ≤ length table.old }
    requires short { length table.old ≤ limit }
    requires small { (t : ℕ) → t < times → choice.weight + slice_index table.old t ≤ limit }
    ensures len { length table.new ≡ length table.old }
    ensures value { (t : ℕ) → t < times → slice_index table.new t
        ≡ least_choice choice.time choice.weight choice.room t (slice_index table.old t)
        (slice_index table.old (t + choice.time)) }
{
    for spent in 0..times {
        let on = table[spent + choice.time];
        table[spent] = choice.least(spent, table[spent], on);
    }
}

// What the jobs weigh together, where it is within the limit.
fn weight_within<B: Allocator>(task: &ProblemTask<B>, jobs: &[JobId]) -> bool
    requires known { All (IsProblemJob task.now) jobs.now }
    ensures { result ≡ nat_le (sum_by (problem_weight task.now) jobs.now) limit }
{
    let mut total: u64 = 0;
    for job in jobs {
        let weight = task.weight(*job);
        if weight > LIMIT as u64 - total {
            return false;
        }
        total += weight;
    }
    true
}

// The time of the jobs together, where the table is not too large.
fn table_time<B: Allocator>(task: &ProblemTask<B>, jobs: &[JobId]) -> Option<u64>
    requires one_time { IsFalse (is_shop_env task.now.problem.env) }
    requires known { All (IsProblemJob task.now) jobs.now }
    ensures large { is_none result ≡ is_table_large task.now jobs.now }
    ensures value { IfSome result (λ time. time ≡ sum_by (problem_time task.now) jobs.now) }
    ensures small { IfSome result (λ time. time ≤ most_table_time) }
    ensures weight { IfSome result (λ _. sum_by (problem_weight task.now) jobs.now ≤ limit) }
{
    if !weight_within(task, jobs) {
        return None;
    }
    let time = work_of(task, jobs);
    if time > u128::from(MOST_TABLE_TIME) {
        return None;
    }
    if jobs.len() as u128 * time > u128::from(MOST_ENTRIES) {
        return None;
    }
    Some(time as u64)
}

// The least weight that is lost, by a table over the time of the jobs on time.
fn least_weight<A: Allocator, B: Allocator>(
    alloc: A,
    task: &ProblemTask<B>,
    jobs: &[JobId],
    time: u64,
) -> Result<u64, OutOfMemory>
    requires one_time { IsFalse (is_shop_env task.now.problem.env) }
    requires goal { IsTrue (is_by_unit task.now.problem.goal) }
    requires known { All (IsProblemJob task.now) jobs.now }
    requires some { 0 < length jobs.now }
    requires time { time ≡ sum_by (problem_time task.now) jobs.now }
    requires short { time ≤ most_table_time }
    requires weight { sum_by (problem_weight task.now) jobs.now ≤ limit }
    ensures { IfOk result (λ b. b ≡ kept_weight task.now jobs.now) }
{
    let first = least_release(task, jobs);
    let mut left = time as usize;
    let mut table = vec![in alloc; 0u64; left + 1]?;
    for done in 0..jobs.len() {
        let job = jobs[jobs.len() - 1 - done];
        let choice = Choice {
            time: task.time(job) as usize,
            weight: task.weight(job),
            room: room_from(task, first, job),
        };
        left -= choice.time;
        choose(&mut table, left + 1, choice);
    }
    Ok(table[0])
}

/// The bound by jobs in the order of their due dates: no less weight is lost in any timetable.
pub fn kept_weight_bound<A: Allocator + Copy, B: Allocator>(
    alloc: A,
    task: &ProblemTask<B>,
    jobs: &[JobId],
) -> Result<i128, BoundFault>
    ensures fault { NamesFault (kept_weight_fault task.now jobs.now) result }
    ensures value { IfOk result (λ b. b ≡ pos (kept_weight task.now jobs.now)) }
    ensures bound { IfOk result (IsLowerBound task.now) }
    ensures best { AreUnreleased task.now jobs.now → IfOk result (IsMinimum task.now) }
{
    if !takes_kept_weight(task) {
        return Err(BoundFault::OtherKind);
    }
    judge_list(alloc, task, jobs)?;
    if jobs.is_empty() {
        return Err(BoundFault::TooFew);
    }
    if let Some(job) = first_due_early(task, jobs) {
        return Err(BoundFault::Condition(job));
    }
    let Some(time) = table_time(task, jobs) else {
        return Err(BoundFault::TooLarge);
    };
    kept_weight_law();
    kept_weight_best_law();
    let least = least_weight(alloc, task, jobs, time)?;
    Ok(i128::from(least))
}

/// The bound by jobs in the order of their due dates: how many are late at least, or what they
/// weigh where the objective has weights.
pub fn late_bound<A: Allocator + Copy, B: Allocator>(
    alloc: A,
    task: &ProblemTask<B>,
    jobs: &[JobId],
) -> Result<i128, BoundFault>
    ensures fault { NamesFault (late_fault task.now jobs.now) result }
    ensures value { IfOk result (λ b. b ≡ pos (late_value task.now jobs.now)) }
    ensures bound { IfOk result (IsLowerBound task.now) }
{
    if takes_kept_weight(task) {
        kept_weight_bound(alloc, task, jobs)
    } else {
        kept_bound(alloc, task, jobs)
    }
}
