//! The bound of the sum of completion times on identical machines by ranks, whether or not jobs are
//! preempted (McNaughton 1959).
ghost use Rattle.std.specs.Prelude.{◌≡◌, ◌≤◌, pos, IfOk, IfSome, IfNone, ◌<◌};
ghost use Rattle.std.specs.Prelude.{None, Some, IsTrue, IsFalse, MatchOption};
ghost use Rattle.std.specs.List.{All};
ghost use Rattle.tf_model.specs.ClassTable.{is_shop_env};
ghost use Rattle.tf_model.specs.declared.problem.Goal.TheVariants as goals;
ghost use Rattle.tf_model.specs.Limit.{limit};
ghost use Rattle.tf_posed.specs.ProblemData.{IsProblemJob, problem_time};
ghost use Rattle.tf_posed.specs.ProblemCost.{IsLowerBound};
ghost use Rattle.tf_problem.specs.ProblemBounds.{is_alike};
ghost use Rattle.tf_problem.specs.Ranks.{rank_value};
ghost use Rattle.tf_bound.specs.Kinds.{takes_ranks};
ghost use Rattle.tf_bound.specs.Faulted.{rises_fault, ranks_fault, NamesFault};
ghost use Rattle.tf_bound.specs.declared.fault.BoundFault.TheVariants.{Condition};
ghost use Rattle.tf_bound.specs.Optimal.{AreDealt, IsMinimum};

use crate::fault::BoundFault;
use crate::jobs::judge_list;
use crate::task::ProblemTask;
use std::alloc::Allocator;
use tf_model::ids::JobId;
use tf_model::limit::LIMIT;
use tf_model::problem::{Env, Goal};
use tf_problem::laws::{rank_best_law, rank_law};

/// Whether jobs by falling time bound a problem: the sum of completion times, on one machine or on
/// identical ones.
pub fn takes_ranks<A: Allocator>(task: &ProblemTask<A>) -> bool
    ensures exact { result ≡ takes_ranks task.now.problem }
    ensures alike { IsTrue result → IsTrue (is_alike task.now.problem.env) }
    ensures one_time { IsTrue result → IsFalse (is_shop_env task.now.problem.env) }
    ensures goal { IsTrue result → task.now.problem.goal ≡ goals.SumC }
{
    let problem = task.problem();
    let alike = matches!(problem.env, Env::Single | Env::Parallel);
    alike && matches!(problem.goal, Goal::SumC)
}

// The first job that is longer than the one before it.
fn first_longer<B: Allocator>(task: &ProblemTask<B>, jobs: &[JobId]) -> Option<JobId>
    requires one_time { IsFalse (is_shop_env task.now.problem.env) }
    requires known { All (IsProblemJob task.now) jobs.now }
    ensures { MatchOption result (rises_fault (problem_time task.now) limit jobs.now ≡ None) (λ job.
        rises_fault (problem_time task.now) limit jobs.now ≡ Some (Condition job)) }
{
    let mut before = LIMIT as u64;
    for job in jobs {
        let time = task.time(*job);
        if before < time {
            return Some(*job);
        }
        before = time;
    }
    None
}

// The times of the jobs, where that at place i, counted from 1, counts i / machines times, rounded
// up. None where they come to more than the limit.
fn ranked_times<B: Allocator>(task: &ProblemTask<B>, jobs: &[JobId]) -> Option<u64>
    requires one_time { IsFalse (is_shop_env task.now.problem.env) }
    requires known { All (IsProblemJob task.now) jobs.now }
    ensures value { IfSome result (λ total. total ≡ rank_value task.now jobs.now) }
    ensures small { IfSome result (λ total. total ≤ limit) }
    ensures large { IfNone result (limit < rank_value task.now jobs.now) }
{
    let machines = u64::from(task.machines());
    let mut total: u64 = 0;
    for (place, job) in jobs.iter().enumerate() {
        let rank = place as u64 + 1;
        let more = u128::from(rank.div_ceil(machines)) * u128::from(task.time(*job));
        if more > u128::from(LIMIT as u64 - total) {
            return None;
        }
        total += more as u64;
    }
    Some(total)
}

/// The bound by jobs of which none is longer than one before it.
pub fn ranks_bound<A: Allocator, B: Allocator>(
    alloc: A,
    task: &ProblemTask<B>,
    jobs: &[JobId],
) -> Result<i128, BoundFault>
    ensures fault { NamesFault (ranks_fault task.now jobs.now) result }
    ensures value { IfOk result (λ b. b ≡ pos (rank_value task.now jobs.now)) }
    ensures bound { IfOk result (IsLowerBound task.now) }
    ensures best { AreDealt task.now jobs.now → IfOk result (IsMinimum task.now) }
{
    if !takes_ranks(task) {
        return Err(BoundFault::OtherKind);
    }
    judge_list(alloc, task, jobs)?;
    if jobs.is_empty() {
        return Err(BoundFault::TooFew);
    }
    if let Some(job) = first_longer(task, jobs) {
        return Err(BoundFault::Condition(job));
    }
    rank_law();
    rank_best_law();
    match ranked_times(task, jobs) {
        Some(total) => Ok(i128::from(total)),
        None => Err(BoundFault::TooLarge),
    }
}
