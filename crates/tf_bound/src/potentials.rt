//! The bound of a no-wait flow shop by potentials. The starts of two jobs that follow each other
//! are at least their delay apart (Wismer 1972), so two numbers for each job, as an assignment of
//! jobs to the jobs after them has (Kuhn 1955), bound the makespan and the maximum lateness.
ghost use Rattle.std.specs.Prelude.{◌≡◌, ℕ, ◌+◌, ◌*◌, ◌^◌, ◌<◌, ◌≤◌, pos, ◌+ℤ◌, ◌-ℤ◌, ◌≤ℤ◌, int_lt};
ghost use Rattle.std.specs.Prelude.{◌==◌};
ghost use Rattle.std.specs.Prelude.{length, None, Some, IfNone, IfOk, IsTrue, IsFalse, MatchOption};
ghost use Rattle.std.specs.List.{list_any};
ghost use Rattle.tf_model.specs.ClassTable.{is_flow_env};
ghost use Rattle.tf_model.specs.Limit.{limit};
ghost use Rattle.tf_model.specs.Whole.{IsWithin};
ghost use Rattle.tf_posed.specs.ProblemData.{IsProblemJob, problem_jobs};
ghost use Rattle.tf_posed.specs.ProblemCost.{IsLowerBound};
ghost use Rattle.tf_problem.specs.ProblemBounds.{is_max_goal};
ghost use Rattle.tf_problem.specs.Potentials.{potential_after, potential_before, potentials_value};
ghost use Rattle.tf_problem.specs.Potentials.{potential_of_end, start_delay};
ghost use Rattle.tf_bound.specs.Kinds.{takes_potentials};
ghost use Rattle.tf_bound.specs.Delays.{delay_of};
ghost use Rattle.tf_bound.specs.Faulted.{are_many_steps, begins_late, ends_late, first_job};
ghost use Rattle.tf_bound.specs.Faulted.{is_at_odds, is_excessive, is_partial, potentials_fault};
ghost use Rattle.tf_bound.specs.Faulted.{NamesFault};
ghost use Rattle.tf_bound.specs.Sized.{IsSized};
ghost use Rattle.tf_bound.specs.declared.fault.BoundFault.TheVariants.{Condition};

use crate::fault::BoundFault;
use crate::task::ProblemTask;
use std::alloc::Allocator;
use tf_model::ids::JobId;
use tf_model::problem::{Env, Goal};
use tf_problem::laws::potentials_law;

// The most steps that the delays of all pairs of jobs may take, one for each machine.
const MOST_STEPS: u128 = 1_000_000_000;

/// Whether potentials bound a problem: the makespan or the maximum lateness in a no-wait flow shop.
pub fn takes_potentials<A: Allocator>(task: &ProblemTask<A>) -> bool
    ensures exact { result ≡ takes_potentials task.now.problem }
    ensures flow { IsTrue result → IsTrue (is_flow_env task.now.problem.env) }
    ensures no_wait { IsTrue result → IsTrue task.now.problem.nwt }
    ensures goal { IsTrue result → IsTrue (is_max_goal task.now.problem.goal) }
{
    let problem = task.problem();
    let flow = matches!(problem.env, Env::Flow);
    let goal = matches!(problem.goal, Goal::Cmax | Goal::Lmax);
    flow && problem.nwt && goal
}

// Whether a job has no time on some machine.
fn has_none(times: &[u64]) -> bool
    ensures { result ≡ list_any (λ t. t == 0) times.now }
{
    for time in times {
        if *time == 0 {
            return true;
        }
    }
    false
}

// The first job that has no time on some machine.
fn first_partial<B: Allocator>(task: &ProblemTask<B>) -> Option<JobId>
    ensures first { MatchOption result (first_job task.now (is_partial task.now) ≡ None)
        (λ job. first_job task.now (is_partial task.now) ≡ Some (Condition job)) }
    ensures none { IfNone result ((j : ℕ) → IsProblemJob task.now j
        → IsFalse (is_partial task.now j)) }
{
    for k in 0..task.len() {
        let job = JobId::at(k);
        if has_none(task.times(job)) {
            return Some(job);
        }
    }
    None
}

/// Whether the delays of all pairs of jobs take too many steps.
pub fn are_many_steps<B: Allocator>(task: &ProblemTask<B>) -> bool
    ensures { result ≡ are_many_steps task.now }
{
    let jobs = task.len() as u128;
    jobs * jobs * u128::from(task.machines()) > MOST_STEPS
}

// How much later than the first job the second begins at least, by their times on the machines.
fn delay_of(first: &[u64], second: &[u64]) -> u128
    requires { length first.now ≡ length second.now }
    ensures value { result ≡ delay_of first.now second.now }
    ensures small { result ≤ length first.now * 2 ^ 64 }
{
    let mut ended: u128 = 0;
    let mut begun: u128 = 0;
    let mut delay: u128 = 0;
    for machine in 0..first.len() {
        ended += u128::from(first[machine]);
        delay = delay.max(ended.saturating_sub(begun));
        begun += u128::from(second[machine]);
    }
    delay
}

/// How much later than the first job the second begins at least, if it begins no earlier.
pub fn start_delay<B: Allocator>(task: &ProblemTask<B>, first: JobId, second: JobId) -> u128
    requires flow { IsTrue (is_flow_env task.now.problem.env) }
    requires first { IsProblemJob task.now first }
    requires second { IsProblemJob task.now second }
    ensures value { result ≡ start_delay task.now first second }
    ensures small { result < 2 ^ 126 }
{
    delay_of(task.times(first), task.times(second))
}

// The number for the end of the last job.
fn of_end(numbers: &[i64]) -> i64
    requires { 0 < length numbers.now }
    ensures { result ≡ potential_of_end numbers.now }
{
    numbers[0]
}

// The number of a job towards the job after it.
fn after(numbers: &[i64], job: JobId) -> i64
    requires some { 1 ≤ job }
    requires len { 2 * job < length numbers.now }
    ensures { result ≡ potential_after numbers.now job }
{
    numbers[2 * job.get() as usize - 1]
}

// The number of a job towards the job before it.
fn before(numbers: &[i64], job: JobId) -> i64
    requires { 2 * job < length numbers.now }
    ensures { result ≡ potential_before numbers.now job }
{
    numbers[2 * job.get() as usize]
}

// Whether two numbers are together more than a third.
fn is_more(one: i64, other: i64, most: u128) -> bool
    requires { most < 2 ^ 126 }
    ensures { result ≡ int_lt (pos most) (one +ℤ other) }
{
    i128::from(one) + i128::from(other) > most as i128
}

// Whether the first number of a job and the second of another are together more than the delay.
fn is_at_odds<B: Allocator>(
    task: &ProblemTask<B>,
    numbers: &[i64],
    job: JobId,
    other: JobId,
) -> bool
    requires flow { IsTrue (is_flow_env task.now.problem.env) }
    requires len { length numbers.now ≡ 2 * length task.now.jobs + 1 }
    requires job { IsProblemJob task.now job }
    requires other { IsProblemJob task.now other }
    ensures { result ≡ is_at_odds task.now numbers.now job other }
{
    if job == other {
        return false;
    }
    let delay = start_delay(task, job, other);
    is_more(after(numbers, job), before(numbers, other), delay)
}

// Whether the job is at odds with some other.
fn has_odds<B: Allocator>(task: &ProblemTask<B>, numbers: &[i64], job: JobId) -> bool
    requires flow { IsTrue (is_flow_env task.now.problem.env) }
    requires len { length numbers.now ≡ 2 * length task.now.jobs + 1 }
    requires job { IsProblemJob task.now job }
    ensures { result ≡ list_any (is_at_odds task.now numbers.now job) (problem_jobs task.now) }
{
    for k in 0..task.len() {
        if is_at_odds(task, numbers, job, JobId::at(k)) {
            return true;
        }
    }
    false
}

// Whether a number is beyond a date.
fn is_late(number: i64, date: u64) -> bool
    ensures { result ≡ int_lt (pos date) number }
{
    i128::from(number) > i128::from(date)
}

// A time less a due date.
fn rest_of(work: u64, due: i64) -> i64
    requires work { work ≤ limit }
    requires due { IsWithin due }
    ensures { result ≡ pos work -ℤ due }
{
    work as i64 - due
}

// Two numbers together.
fn together(one: i64, other: i64) -> i128
    ensures { result ≡ one +ℤ other }
{
    i128::from(one) + i128::from(other)
}

// Whether two numbers are together beyond a third.
fn is_beyond(one: i64, other: i64, most: i64) -> bool
    ensures { result ≡ int_lt most (one +ℤ other) }
{
    together(one, other) > i128::from(most)
}

// Whether the second number of a job is beyond its release date.
fn begins_late<B: Allocator>(task: &ProblemTask<B>, numbers: &[i64], job: JobId) -> bool
    requires len { length numbers.now ≡ 2 * length task.now.jobs + 1 }
    requires job { IsProblemJob task.now job }
    ensures { result ≡ begins_late task.now numbers.now job }
{
    is_late(before(numbers, job), task.release(job))
}

// Whether the first number of a job and that for the end are beyond its time less its due date.
fn ends_late<B: Allocator>(task: &ProblemTask<B>, numbers: &[i64], job: JobId) -> bool
    requires len { length numbers.now ≡ 2 * length task.now.jobs + 1 }
    requires job { IsProblemJob task.now job }
    ensures { result ≡ ends_late task.now numbers.now job }
{
    let rest = rest_of(task.work(job), task.due(job));
    is_beyond(after(numbers, job), of_end(numbers), rest)
}

// Whether a number of the job is too large.
fn is_excessive<B: Allocator>(task: &ProblemTask<B>, numbers: &[i64], job: JobId) -> bool
    requires flow { IsTrue (is_flow_env task.now.problem.env) }
    requires len { length numbers.now ≡ 2 * length task.now.jobs + 1 }
    requires job { IsProblemJob task.now job }
    ensures { result ≡ is_excessive task.now numbers.now job }
{
    if begins_late(task, numbers, job) || ends_late(task, numbers, job) {
        return true;
    }
    has_odds(task, numbers, job)
}

// The first job of which a number is too large.
fn first_excessive<B: Allocator>(task: &ProblemTask<B>, numbers: &[i64]) -> Option<JobId>
    requires flow { IsTrue (is_flow_env task.now.problem.env) }
    requires len { length numbers.now ≡ 2 * length task.now.jobs + 1 }
    ensures first { MatchOption result
        (first_job task.now (is_excessive task.now numbers.now) ≡ None)
        (λ job. first_job task.now (is_excessive task.now numbers.now) ≡ Some (Condition job)) }
    ensures none { IfNone result ((j : ℕ) → IsProblemJob task.now j
        → IsFalse (is_excessive task.now numbers.now j)) }
{
    for k in 0..task.len() {
        let job = JobId::at(k);
        if is_excessive(task, numbers, job) {
            return Some(job);
        }
    }
    None
}

// A sum with two numbers more.
fn with_pair(sum: i128, one: i64, other: i64) -> i128
    requires low { (pos 0 -ℤ pos (2 ^ 120)) ≤ℤ sum }
    requires high { sum ≤ℤ pos (2 ^ 120) }
    ensures value { result ≡ sum +ℤ (one +ℤ other) }
    ensures low { (sum -ℤ pos (2 ^ 64)) ≤ℤ result }
    ensures high { result ≤ℤ (sum +ℤ pos (2 ^ 64)) }
{
    sum + (i128::from(one) + i128::from(other))
}

// All numbers together.
fn sum_of<B: Allocator>(task: &ProblemTask<B>, numbers: &[i64]) -> i128
    requires { length numbers.now ≡ 2 * length task.now.jobs + 1 }
    ensures { result ≡ potentials_value task.now numbers.now }
{
    let mut sum = i128::from(numbers[0]);
    for k in 0..task.len() {
        let job = JobId::at(k);
        sum = with_pair(sum, after(numbers, job), before(numbers, job));
    }
    sum
}

// The first fault of the numbers.
fn judge_potentials<B: Allocator>(task: &ProblemTask<B>, numbers: &[i64]) -> Result<(), BoundFault>
    ensures fault { NamesFault (potentials_fault task.now numbers.now) result }
    ensures sized { IfOk result (λ _. IsSized task.now) }
    ensures flow { IfOk result (λ _. IsTrue (is_flow_env task.now.problem.env)) }
    ensures no_wait { IfOk result (λ _. IsTrue task.now.problem.nwt) }
    ensures goal { IfOk result (λ _. IsTrue (is_max_goal task.now.problem.goal)) }
    ensures len { IfOk result (λ _. length numbers.now ≡ 2 * length task.now.jobs + 1) }
    ensures timed { IfOk result (λ _. (j : ℕ) → IsProblemJob task.now j
        → IsFalse (is_partial task.now j)) }
    ensures small { IfOk result (λ _. (j : ℕ) → IsProblemJob task.now j
        → IsFalse (is_excessive task.now numbers.now j)) }
{
    if !takes_potentials(task) {
        return Err(BoundFault::OtherKind);
    }
    if numbers.len() != 2 * task.len() + 1 {
        return Err(BoundFault::Numerators);
    }
    if let Some(job) = first_partial(task) {
        return Err(BoundFault::Condition(job));
    }
    if are_many_steps(task) {
        return Err(BoundFault::TooLarge);
    }
    match first_excessive(task, numbers) {
        Some(job) => Err(BoundFault::Condition(job)),
        None => Ok(()),
    }
}

/// The bound by a number for the end of the last job, and two for each job, in the order of the
/// jobs: towards the job after it, and towards the job before it.
pub fn potentials_bound<B: Allocator>(
    task: &ProblemTask<B>,
    numbers: &[i64],
) -> Result<i128, BoundFault>
    ensures fault { NamesFault (potentials_fault task.now numbers.now) result }
    ensures value { IfOk result (λ b. b ≡ potentials_value task.now numbers.now) }
    ensures bound { IfOk result (IsLowerBound task.now) }
{
    judge_potentials(task, numbers)?;
    potentials_law();
    Ok(sum_of(task, numbers))
}
