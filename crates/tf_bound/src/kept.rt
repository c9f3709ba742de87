//! The bound of the number of late jobs by those of a list that can be kept (Moore 1968).
ghost use Rattle.std.specs.Prelude.{◌≡◌, ◌+◌, ◌-◌, ◌*◌, ◌^◌, ◌≤◌, ◌<◌, pos, length, sum, IfOk};
ghost use Rattle.std.specs.Prelude.{None, Some, IsTrue, IsFalse, MatchOption};
ghost use Rattle.std.specs.BinaryHeap.{IsHeap, heap_items};
ghost use Rattle.std.specs.List.{All};
ghost use Rattle.std.specs.Ordering.{nat_cmp};
ghost use Rattle.tf_model.specs.ClassTable.{is_shop_env};
ghost use Rattle.tf_model.specs.declared.problem.Goal.TheVariants as goals;
ghost use Rattle.tf_model.specs.Limit.{limit};
ghost use Rattle.tf_posed.specs.ProblemData.{IsProblemJob};
ghost use Rattle.tf_posed.specs.ProblemCost.{IsLowerBound};
ghost use Rattle.tf_problem.specs.ProblemBounds.{is_alike};
ghost use Rattle.tf_problem.specs.Kept.{due_time, kept, kept_value, put, within_room};
ghost use Rattle.tf_bound.specs.InOrder.{in_order};
ghost use Rattle.tf_bound.specs.Kinds.{takes_kept};
ghost use Rattle.tf_bound.specs.Faulted.{falls_fault, kept_fault, NamesFault};
ghost use Rattle.tf_bound.specs.declared.fault.BoundFault.TheVariants.{Condition};
ghost use Rattle.tf_bound.specs.Optimal.{AreUnreleased, IsMinimum};
ghost use Rattle.tf_bound.specs.Prices.{is_by_unit};

use crate::alike::least_release;
use crate::fault::BoundFault;
use crate::jobs::judge_list;
use crate::task::ProblemTask;
use std::alloc::Allocator;
use std::collections::BinaryHeap;
use tf_model::ids::JobId;
use tf_model::memory::OutOfMemory;
use tf_model::problem::{Env, Goal};
use tf_problem::laws::{kept_best_law, kept_law};

/// Whether jobs by due date bound a problem: the number of late jobs, on one machine or on
/// identical ones.
pub fn takes_kept<A: Allocator>(task: &ProblemTask<A>) -> bool
    ensures exact { result ≡ takes_kept task.now.problem }
    ensures alike { IsTrue result → IsTrue (is_alike task.now.problem.env) }
    ensures one_time { IsTrue result → IsFalse (is_shop_env task.now.problem.env) }
    ensures goal { IsTrue result → task.now.problem.goal ≡ goals.SumU }
    ensures by_unit { IsTrue result → IsTrue (is_by_unit task.now.problem.goal) }
{
    let problem = task.problem();
    let alike = matches!(problem.env, Env::Single | Env::Parallel);
    alike && matches!(problem.goal, Goal::SumU)
}

// The due date of a job as a time: 0 where it is negative.
fn due_time<B: Allocator>(task: &ProblemTask<B>, job: JobId) -> u64
    requires job { IsProblemJob task.now job }
    requires goal { IsTrue (is_by_unit task.now.problem.goal) }
    ensures value { result ≡ due_time task.now job }
    ensures small { result ≤ limit }
{
    task.due(job).max(0) as u64
}

/// The first job that is due before the one before it.
pub(crate) fn first_due_early<B: Allocator>(task: &ProblemTask<B>, jobs: &[JobId]) -> Option<JobId>
    requires known { All (IsProblemJob task.now) jobs.now }
    requires goal { IsTrue (is_by_unit task.now.problem.goal) }
    ensures { MatchOption result (falls_fault (due_time task.now) 0 jobs.now ≡ None) (λ job.
        falls_fault (due_time task.now) 0 jobs.now ≡ Some (Condition job)) }
{
    let mut before: u64 = 0;
    for job in jobs {
        let due = due_time(task, *job);
        if due < before {
            return Some(*job);
        }
        before = due;
    }
    None
}

// Adds a time to those that are kept, which come to `total`, and crosses out the longest where
// there is no room.
fn keep<A: Allocator>(
    kept: &mut BinaryHeap<u64, A>,
    total: u128,
    time: u64,
    room: u128,
) -> Result<u128, OutOfMemory>
    requires heap { IsHeap nat_cmp (heap_items kept.old) }
    requires total { total ≡ sum (heap_items kept.old) }
    requires small { total ≤ 2 ^ 126 }
    ensures heap { IfOk result (λ _. IsHeap nat_cmp (heap_items kept.new)) }
    ensures total { IfOk result (λ more. more ≡ sum (heap_items kept.new)) }
    ensures more { IfOk result (λ more. more ≤ total + time) }
    ensures kept { IfOk result (λ _. in_order (heap_items kept.new)
        ≡ within_room room (put time (in_order (heap_items kept.old)))) }
{
    kept.push(time)?;
    let more = total + u128::from(time);
    if more <= room {
        return Ok(more);
    }
    match kept.pop() {
        Some(longest) => Ok(more - u128::from(longest)),
        None => Ok(0),
    }
}

/// How much the machines can do from a time on up to the due date of a job.
pub(crate) fn room_from<B: Allocator>(task: &ProblemTask<B>, first: u64, job: JobId) -> u128
    requires job { IsProblemJob task.now job }
    requires goal { IsTrue (is_by_unit task.now.problem.goal) }
    ensures { result ≡ task.now.machines * (due_time task.now job - first) }
{
    u128::from(task.machines()) * u128::from(due_time(task, job).saturating_sub(first))
}

// How many of the jobs are kept.
fn kept_count<A: Allocator, B: Allocator>(
    alloc: A,
    task: &ProblemTask<B>,
    jobs: &[JobId],
) -> Result<usize, OutOfMemory>
    requires one_time { IsFalse (is_shop_env task.now.problem.env) }
    requires goal { IsTrue (is_by_unit task.now.problem.goal) }
    requires known { All (IsProblemJob task.now) jobs.now }
    requires some { 0 < length jobs.now }
    ensures value { IfOk result (λ n. n ≡ length (kept task.now jobs.now)) }
    ensures few { IfOk result (λ n. n ≤ length jobs.now) }
{
    let first = least_release(task, jobs);
    let mut kept = BinaryHeap::new(alloc);
    let mut total: u128 = 0;
    for job in jobs {
        total = keep(
            &mut kept,
            total,
            task.time(*job),
            room_from(task, first, *job),
        )?;
    }
    Ok(kept.len())
}

/// The bound by jobs in the order of their due dates: as many are late as cannot be kept.
pub fn kept_bound<A: Allocator + Copy, B: Allocator>(
    alloc: A,
    task: &ProblemTask<B>,
    jobs: &[JobId],
) -> Result<i128, BoundFault>
    ensures fault { NamesFault (kept_fault task.now jobs.now) result }
    ensures value { IfOk result (λ b. b ≡ pos (kept_value task.now jobs.now)) }
    ensures bound { IfOk result (IsLowerBound task.now) }
    ensures best { AreUnreleased task.now jobs.now → IfOk result (IsMinimum task.now) }
{
    if !takes_kept(task) {
        return Err(BoundFault::OtherKind);
    }
    judge_list(alloc, task, jobs)?;
    if jobs.is_empty() {
        return Err(BoundFault::TooFew);
    }
    if let Some(job) = first_due_early(task, jobs) {
        return Err(BoundFault::Condition(job));
    }
    kept_law();
    kept_best_law();
    let kept = kept_count(alloc, task, jobs)?;
    Ok((jobs.len() - kept) as i128)
}
