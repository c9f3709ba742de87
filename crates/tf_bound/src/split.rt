//! The bound by two machines of a permutation flow shop, with the time lags between them (Mitten
//! 1959; Lenstra, Rinnooy Kan and Lageweg 1977).
ghost use Rattle.std.specs.Prelude.{◌≡◌, ℕ, ◌*◌, ◌<◌, ◌≤◌, not, length, None, Some, sum_by};
ghost use Rattle.std.specs.Prelude.{IfNone, IfOk, IsTrue, MatchOption};
ghost use Rattle.std.specs.List.{list_any};
ghost use Rattle.tf_model.specs.Bounds.{stands_in};
ghost use Rattle.tf_model.specs.ClassTable.{is_flow_env};
ghost use Rattle.tf_model.specs.Limit.{limit};
ghost use Rattle.tf_posed.specs.ProblemData.{IsProblemJob, problem_jobs};
ghost use Rattle.tf_posed.specs.ProblemCost.{IsLowerBound};
ghost use Rattle.tf_problem.specs.ProblemBounds.{is_max_goal};
ghost use Rattle.tf_problem.specs.Split.{counted, keeps_side, reaches, reaches_delta, split_value};
ghost use Rattle.tf_bound.specs.Kinds.{takes_split};
ghost use Rattle.tf_bound.specs.Faulted.{first_job, sides_fault, split_fault, NamesFault};
ghost use Rattle.tf_bound.specs.Split.{ArePair, marked};
ghost use Rattle.tf_bound.specs.declared.fault.BoundFault.TheVariants.{Condition};

use crate::fault::BoundFault;
use crate::jobs::judged_marks;
use crate::machine::{least_head, least_rest};
use crate::multipliers::all_jobs;
use crate::task::ProblemTask;
use std::alloc::Allocator;
use tf_model::ids::JobId;
use tf_model::problem::{Env, Goal};
use tf_problem::laws::split_law;

/// Two machines of a flow shop, counted from 0, and how long at least one waits for the other.
#[derive(Clone, Copy)]
pub struct Pair {
    pub first: usize,
    pub second: usize,
    /// In time steps.
    pub delta: u64,
    /// Whether a job that is not of the side reaches `delta` on the first machine. Otherwise one of
    /// the side reaches it on the second.
    pub by_first: bool,
}

/// Whether two machines bound a problem: the makespan or the maximum lateness, in a permutation
/// flow shop.
pub fn takes_split<A: Allocator>(task: &ProblemTask<A>) -> bool
    ensures exact { result ≡ takes_split task.now.problem }
    ensures flow { IsTrue result → IsTrue (is_flow_env task.now.problem.env) }
    ensures prmu { IsTrue result → IsTrue task.now.problem.prmu }
    ensures goal { IsTrue result → IsTrue (is_max_goal task.now.problem.goal) }
{
    let problem = task.problem();
    let goal = matches!(problem.goal, Goal::Cmax | Goal::Lmax);
    matches!(problem.env, Env::Flow) && problem.prmu && goal
}

// Whether the job has time on both machines, and on this one and between them at least delta.
fn reaches<B: Allocator>(task: &ProblemTask<B>, pair: Pair, machine: usize, job: JobId) -> bool
    requires pair { ArePair task.now pair.first pair.second }
    requires machine { machine < task.now.machines }
    requires job { IsProblemJob task.now job }
    ensures { result ≡ reaches task.now pair.first pair.second machine pair.delta job }
{
    let first = task.time_on(pair.first, job);
    let second = task.time_on(pair.second, job);
    let time = task.time_on(machine, job) + task.lag(pair.first, pair.second, job);
    first > 0 && (second > 0 && pair.delta <= time)
}

// Whether the job, which is of the side or not, has to reach delta, and does.
fn reaches_delta<B: Allocator>(task: &ProblemTask<B>, pair: Pair, of_side: bool, job: JobId) -> bool
    requires pair { ArePair task.now pair.first pair.second }
    requires job { IsProblemJob task.now job }
    ensures { result
        ≡ reaches_delta task.now pair.first pair.second (λ _. of_side) pair.delta pair.by_first
        job }
{
    if pair.by_first {
        !of_side && reaches(task, pair, pair.first, job)
    } else {
        of_side && reaches(task, pair, pair.second, job)
    }
}

// Whether the job keeps the condition of its side.
fn keeps_side<B: Allocator>(task: &ProblemTask<B>, pair: Pair, of_side: bool, job: JobId) -> bool
    requires pair { ArePair task.now pair.first pair.second }
    requires job { IsProblemJob task.now job }
    ensures { result
        ≡ keeps_side task.now pair.first pair.second (λ _. of_side) pair.delta pair.by_first job }
{
    let first = task.time_on(pair.first, job);
    let second = task.time_on(pair.second, job);
    let less = if of_side {
        first <= second
    } else {
        second <= first
    };
    reaches_delta(task, pair, of_side, job) || less
}

// The time of the job on the machine on which it counts.
fn counted<B: Allocator>(task: &ProblemTask<B>, pair: Pair, of_side: bool, job: JobId) -> u64
    requires pair { ArePair task.now pair.first pair.second }
    requires job { IsProblemJob task.now job }
    ensures value { result ≡ counted task.now pair.first pair.second (λ _. of_side) job }
    ensures small { result ≤ limit }
{
    if of_side {
        task.time_on(pair.first, job)
    } else {
        task.time_on(pair.second, job)
    }
}

// The smallest job that breaks the condition of its side.
fn first_off<B: Allocator>(task: &ProblemTask<B>, pair: Pair, marks: &[bool]) -> Option<JobId>
    requires pair { ArePair task.now pair.first pair.second }
    requires len { length marks.now ≡ length task.now.jobs }
    ensures first { MatchOption result
        (first_job task.now (λ j. not (keeps_side task.now pair.first pair.second (marked marks.now)
        pair.delta pair.by_first j)) ≡ None)
        (λ job. first_job task.now (λ j. not (keeps_side task.now pair.first pair.second
        (marked marks.now) pair.delta pair.by_first j)) ≡ Some (Condition job)) }
    ensures kept { IfNone result ((j : ℕ) → IsProblemJob task.now j
        → IsTrue (keeps_side task.now pair.first pair.second (marked marks.now) pair.delta
        pair.by_first j)) }
{
    for k in 0..task.len() {
        let job = JobId::at(k);
        if !keeps_side(task, pair, marks[k], job) {
            return Some(job);
        }
    }
    None
}

// Whether some job reaches delta.
fn is_reached<B: Allocator>(task: &ProblemTask<B>, pair: Pair, marks: &[bool]) -> bool
    requires pair { ArePair task.now pair.first pair.second }
    requires len { length marks.now ≡ length task.now.jobs }
    ensures any { result ≡ list_any (reaches_delta task.now pair.first pair.second
        (marked marks.now) pair.delta pair.by_first) (problem_jobs task.now) }
    ensures some { IsTrue result → (j : ℕ) × IsProblemJob task.now j
        × IsTrue (reaches_delta task.now pair.first pair.second (marked marks.now) pair.delta
        pair.by_first j) }
{
    for k in 0..task.len() {
        if reaches_delta(task, pair, marks[k], JobId::at(k)) {
            return true;
        }
    }
    false
}

// The times of all jobs on the machines on which they count.
fn work<B: Allocator>(task: &ProblemTask<B>, pair: Pair, marks: &[bool]) -> u128
    requires pair { ArePair task.now pair.first pair.second }
    requires len { length marks.now ≡ length task.now.jobs }
    ensures value { result
        ≡ sum_by (counted task.now pair.first pair.second (marked marks.now))
        (problem_jobs task.now) }
    ensures small { result ≤ length task.now.jobs * limit }
{
    let mut work: u128 = 0;
    for k in 0..task.len() {
        work += u128::from(counted(task, pair, marks[k], JobId::at(k)));
    }
    work
}

// The least head, the work, delta and the least rest.
fn span<B: Allocator>(task: &ProblemTask<B>, pair: Pair, marks: &[bool], jobs: &[JobId]) -> i128
    requires pair { ArePair task.now pair.first pair.second }
    requires len { length marks.now ≡ length task.now.jobs }
    requires jobs { jobs.now ≡ problem_jobs task.now }
    requires some { 0 < length jobs.now }
    ensures { result ≡ split_value task.now pair.first pair.second (marked marks.now) pair.delta }
{
    let begun = i128::from(least_head(task, pair.first, jobs));
    let rest = i128::from(least_rest(task, pair.second, jobs));
    begun + work(task, pair, marks) as i128 + i128::from(pair.delta) + rest
}

// The bound by two machines in their order, and a side by marks.
fn marked_bound<A: Allocator, B: Allocator>(
    alloc: A,
    task: &ProblemTask<B>,
    pair: Pair,
    marks: &[bool],
) -> Result<i128, BoundFault>
    requires kind { IsTrue (takes_split task.now.problem) }
    requires pair { ArePair task.now pair.first pair.second }
    requires len { length marks.now ≡ length task.now.jobs }
    ensures fault { NamesFault (sides_fault task.now pair.first pair.second (marked marks.now)
        pair.delta pair.by_first) result }
    ensures value { IfOk result (λ b. b
        ≡ split_value task.now pair.first pair.second (marked marks.now) pair.delta) }
    ensures bound { IfOk result (IsLowerBound task.now) }
{
    if let Some(job) = first_off(task, pair, marks) {
        return Err(BoundFault::Condition(job));
    }
    if !is_reached(task, pair, marks) {
        return Err(BoundFault::BadDelta);
    }
    split_law();
    let jobs = all_jobs(alloc, task)?;
    Ok(span(task, pair, marks, &jobs))
}

/// The bound by two machines: the jobs of the side count on the first, the others on the second.
pub fn split_bound<A: Allocator + Copy, B: Allocator>(
    alloc: A,
    task: &ProblemTask<B>,
    pair: Pair,
    side: &[JobId],
) -> Result<i128, BoundFault>
    ensures fault { NamesFault
        (split_fault task.now pair.first pair.second side.now pair.delta pair.by_first) result }
    ensures value { IfOk result (λ b. b
        ≡ split_value task.now pair.first pair.second (stands_in side.now) pair.delta) }
    ensures bound { IfOk result (IsLowerBound task.now) }
{
    if !takes_split(task) {
        return Err(BoundFault::OtherKind);
    }
    if pair.second >= task.machines() as usize {
        return Err(BoundFault::BadMachine(pair.second));
    }
    if pair.first >= pair.second {
        return Err(BoundFault::MachineOrder);
    }
    let marks = judged_marks(alloc, task, side)?;
    marked_bound(alloc, task, pair, &marks)
}
