//! The bound of the sum of completion times on one machine by the shortest remaining processing
//! time (Schrage 1968).
ghost use Rattle.std.specs.Prelude.{◌≡◌, ◌≤◌, ◌+◌, ◌-◌, [], ◌∷◌, min, pos, IfOk, IfSome, IfNone};
ghost use Rattle.std.specs.Prelude.{None, Some, IsTrue, IsFalse, MatchOption};
ghost use Rattle.std.specs.BinaryHeap.{IsHeap, heap_items, heap_len};
ghost use Rattle.std.specs.List.{All};
ghost use Rattle.tf_model.specs.ClassTable.{is_shop_env, is_single_env};
ghost use Rattle.tf_model.specs.declared.problem.Goal.TheVariants as goals;
ghost use Rattle.tf_posed.specs.ProblemData.{IsProblemJob, problem_release};
ghost use Rattle.tf_posed.specs.ProblemCost.{IsLowerBound};
ghost use Rattle.tf_problem.specs.Kept.{put, IsRisingBy};
ghost use Rattle.tf_problem.specs.Shortest.{completions, remaining, shortest_value};
ghost use Rattle.tf_bound.specs.InOrder.{all_completions, by_shortest, most_total, rising_times};
ghost use Rattle.tf_bound.specs.Kinds.{takes_shortest};
ghost use Rattle.tf_bound.specs.Faulted.{falls_fault, shortest_fault, NamesFault};
ghost use Rattle.tf_bound.specs.declared.fault.BoundFault.TheVariants.{Condition};
ghost use Rattle.tf_bound.specs.Optimal.{ArePreempted, IsMinimum};

use crate::fault::BoundFault;
use crate::jobs::judge_list;
use crate::task::ProblemTask;
use std::alloc::Allocator;
use std::cmp::Reverse;
use std::collections::BinaryHeap;
use tf_model::ids::JobId;
use tf_model::limit::LIMIT;
use tf_model::memory::OutOfMemory;
use tf_model::problem::{Env, Goal};
use tf_problem::laws::{shortest_best_law, shortest_law};

/// Whether jobs by release date bound a problem: the sum of completion times on one machine.
pub fn takes_shortest<A: Allocator>(task: &ProblemTask<A>) -> bool
    ensures exact { result ≡ takes_shortest task.now.problem }
    ensures single { IsTrue result → IsTrue (is_single_env task.now.problem.env) }
    ensures one_time { IsTrue result → IsFalse (is_shop_env task.now.problem.env) }
    ensures goal { IsTrue result → task.now.problem.goal ≡ goals.SumC }
{
    let problem = task.problem();
    matches!(problem.env, Env::Single) && matches!(problem.goal, Goal::SumC)
}

// The first job that is released before the one before it.
fn first_released_early<B: Allocator>(task: &ProblemTask<B>, jobs: &[JobId]) -> Option<JobId>
    requires known { All (IsProblemJob task.now) jobs.now }
    ensures { MatchOption result (falls_fault (problem_release task.now) 0 jobs.now ≡ None) (λ job.
        falls_fault (problem_release task.now) 0 jobs.now ≡ Some (Condition job)) }
{
    let mut before: u64 = 0;
    for job in jobs {
        let release = task.release(*job);
        if release < before {
            return Some(*job);
        }
        before = release;
    }
    None
}

// Takes the shortest out.
fn take_shortest<A: Allocator>(times: &mut BinaryHeap<Reverse<u64>, A>) -> Option<u64>
    requires heap { IsHeap by_shortest (heap_items times.old) }
    ensures heap { IsHeap by_shortest (heap_items times.new) }
    ensures less { IfSome result (λ _. heap_len times.new + 1 ≡ heap_len times.old) }
    ensures least { IfSome result (λ time.
        rising_times (heap_items times.old) ≡ time ∷ rising_times (heap_items times.new)) }
    ensures none { IfNone result (rising_times (heap_items times.old) ≡ []) }
    ensures unchanged { IfNone result (heap_items times.new ≡ heap_items times.old) }
{
    match times.pop() {
        Some(Reverse(time)) => Some(time),
        None => None,
    }
}

// Adds a time.
fn add<A: Allocator>(times: &mut BinaryHeap<Reverse<u64>, A>, time: u64) -> Result<(), OutOfMemory>
    requires heap { IsHeap by_shortest (heap_items times.old) }
    ensures heap { IfOk result (λ _. IsHeap by_shortest (heap_items times.new)) }
    ensures added { IfOk result (λ _.
        rising_times (heap_items times.new) ≡ put time (rising_times (heap_items times.old))) }
{
    times.push(Reverse(time))?;
    Ok(())
}

// Works on the shortest from one time to another, and adds the completions to `total`.
fn work_until<A: Allocator>(
    times: &mut BinaryHeap<Reverse<u64>, A>,
    from: u64,
    until: u64,
    total: u64,
) -> Result<u64, OutOfMemory>
    requires heap { IsHeap by_shortest (heap_items times.old) }
    requires order { from ≤ until }
    ensures heap { IfOk result (λ _. IsHeap by_shortest (heap_items times.new)) }
    ensures rest { IfOk result (λ _. rising_times (heap_items times.new)
        ≡ remaining (until - from) (rising_times (heap_items times.old))) }
    ensures total { IfOk result (λ sum. sum ≡ min (total
        + completions from (until - from) (rising_times (heap_items times.old))) most_total) }
{
    let mut now = from;
    let mut sum = total;
    while let Some(time) = take_shortest(times) {
        let room = until - now;
        if time > room {
            add(times, time - room)?;
            return Ok(sum);
        }
        now += time;
        sum = sum.saturating_add(now);
    }
    Ok(sum)
}

// Works on the shortest from a time on until all are completed, and adds the completions to
// `total`.
fn work_all<A: Allocator>(times: &mut BinaryHeap<Reverse<u64>, A>, from: u64, total: u64) -> u64
    requires heap { IsHeap by_shortest (heap_items times.old) }
    ensures { result ≡ min (total
        + all_completions from (rising_times (heap_items times.old))) most_total }
{
    let mut now = from;
    let mut sum = total;
    while let Some(time) = take_shortest(times) {
        now = now.saturating_add(time);
        sum = sum.saturating_add(now);
    }
    sum
}

// The sum of the completions where the shortest remaining time is always next. A sum of more than
// 64 bits is the greatest number of 64 bits.
fn shortest_sum<A: Allocator, B: Allocator>(
    alloc: A,
    task: &ProblemTask<B>,
    jobs: &[JobId],
) -> Result<u64, OutOfMemory>
    requires one_time { IsFalse (is_shop_env task.now.problem.env) }
    requires known { All (IsProblemJob task.now) jobs.now }
    requires order { IsRisingBy (problem_release task.now) 0 jobs.now }
    ensures { IfOk result (λ sum. sum ≡ min (shortest_value task.now jobs.now) most_total) }
{
    let mut times = BinaryHeap::new(alloc);
    let mut now: u64 = 0;
    let mut total: u64 = 0;
    for job in jobs {
        let release = task.release(*job);
        total = work_until(&mut times, now, release, total)?;
        add(&mut times, task.time(*job))?;
        now = release;
    }
    Ok(work_all(&mut times, now, total))
}

/// The bound by jobs in the order of their release dates.
pub fn shortest_bound<A: Allocator + Copy, B: Allocator>(
    alloc: A,
    task: &ProblemTask<B>,
    jobs: &[JobId],
) -> Result<i128, BoundFault>
    ensures fault { NamesFault (shortest_fault task.now jobs.now) result }
    ensures value { IfOk result (λ b. b ≡ pos (shortest_value task.now jobs.now)) }
    ensures bound { IfOk result (IsLowerBound task.now) }
    ensures best { ArePreempted task.now jobs.now → IfOk result (IsMinimum task.now) }
{
    if !takes_shortest(task) {
        return Err(BoundFault::OtherKind);
    }
    judge_list(alloc, task, jobs)?;
    if jobs.is_empty() {
        return Err(BoundFault::TooFew);
    }
    if let Some(job) = first_released_early(task, jobs) {
        return Err(BoundFault::Condition(job));
    }
    shortest_law();
    shortest_best_law();
    let total = shortest_sum(alloc, task, jobs)?;
    if total > LIMIT as u64 {
        return Err(BoundFault::TooLarge);
    }
    Ok(i128::from(total))
}
