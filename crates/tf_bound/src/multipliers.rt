//! The bound of tardiness by multipliers of at most the weights (Potts and Van Wassenhove 1985) and
//! of arcs, on the only machine, on one of a shop, or on identical ones.
ghost use Rattle.std.specs.Prelude.{◌≡◌, ℕ, ◌+◌, ◌-◌, ◌*◌, ◌<◌, ◌≤◌, pos, ◌+ℤ◌, ◌-ℤ◌, ◌*ℤ◌, length};
ghost use Rattle.std.specs.Prelude.{◌^◌, ◌||◌, map, nat_le, None, Some, is_none, IfErr, IfNone};
ghost use Rattle.std.specs.Prelude.{IfOk, IfSome, IsFalse, IsTrue, MatchOption};
ghost use Rattle.std.specs.Ordering.{is_lt};
ghost use Rattle.tf_model.specs.ClassTable.{is_parallel_env};
ghost use Rattle.tf_model.specs.Limit.{limit};
ghost use Rattle.tf_check.specs.GoesBefore.{goes_before};
ghost use Rattle.tf_check.specs.Ratio.{AreByRatio, AreOfTask, completions_from};
ghost use Rattle.tf_posed.specs.ProblemData.{IsProblemJob, problem_due, problem_jobs};
ghost use Rattle.tf_posed.specs.ProblemData.{problem_time, problem_time_on, problem_weight};
ghost use Rattle.tf_posed.specs.ProblemCost.{IsLowerBound};
ghost use Rattle.tf_problem.specs.ProblemBounds.{any_multiplier_value, arcs_gain, is_tardy_goal};
ghost use Rattle.tf_problem.specs.ProblemBounds.{moved, numerator, owed_dues, tail};
ghost use Rattle.tf_problem.specs.Relaxed.{weighed_task};
ghost use Rattle.tf_bound.specs.Kinds.{takes_multipliers};
ghost use Rattle.tf_bound.specs.Faulted.{all_counted, are_multipliers_wide, are_owed_wide, come_to};
ghost use Rattle.tf_bound.specs.Faulted.{first_job, first_start, is_beyond, is_idle, is_rest_wide};
ghost use Rattle.tf_bound.specs.Faulted.{least_by, is_wide, multipliers_fault, numbers_fault};
ghost use Rattle.tf_bound.specs.Faulted.{pairs_counted, timed_machine, too_large, wait_from};
ghost use Rattle.tf_bound.specs.Faulted.{waits_from, NamesFault};
ghost use Rattle.tf_bound.specs.Sized.{IsSized};
ghost use Rattle.tf_bound.specs.declared.fault.BoundFault.TheVariants.{Condition, OutOfMemory};

use crate::alike::least_release;
use crate::arc_multipliers::{gain_of, moved_multipliers, narrowed, with_multiple};
use crate::fault::BoundFault;
use crate::machine::least_head;
use crate::prices::share_up;
use crate::task::ProblemTask;
use std::alloc::Allocator;
use std::cmp::Ordering;
use tf_check::weighted_job::WeightedJob;
use tf_model::ids::JobId;
use tf_model::problem::{Env, Goal};
use tf_problem::laws::multiplier_law;

/// Whether multipliers bound a problem: a sum of completions or of tardiness.
pub fn takes_multipliers<A: Allocator>(task: &ProblemTask<A>) -> bool
    ensures exact { result ≡ takes_multipliers task.now.problem }
    ensures sized { IsSized task.now }
    ensures goal { IsTrue result → IsTrue (is_tardy_goal task.now.problem.goal) }
{
    let problem = task.problem();
    let env = !matches!(problem.env, Env::Uniform | Env::Unrelated);
    let goal = matches!(
        problem.goal,
        Goal::SumC | Goal::SumWC | Goal::SumT | Goal::SumWT
    );
    env && goal
}

// Whether the machines are identical ones in parallel.
fn is_parallel<B: Allocator>(task: &ProblemTask<B>) -> bool
    ensures value { result ≡ is_parallel_env task.now.problem.env }
    ensures sized { IsSized task.now }
{
    matches!(task.problem().env, Env::Parallel)
}

// How often all is counted.
fn all_counted<B: Allocator>(task: &ProblemTask<B>) -> u64
    ensures value { result ≡ all_counted task.now }
    ensures some { 1 ≤ result }
{
    if is_parallel(task) {
        2 * u64::from(task.machines())
    } else {
        1
    }
}

// How often the weighted completions on one machine are.
fn pairs_counted<B: Allocator>(task: &ProblemTask<B>) -> u64
    ensures value { result ≡ pairs_counted task.now }
    ensures some { 1 ≤ result }
{
    if is_parallel(task) { 2 } else { 1 }
}

// The first job whose numerator is more than q times its weight.
fn first_beyond<B: Allocator>(task: &ProblemTask<B>, v: &[u64], q: u64) -> Option<JobId>
    requires { length v.now ≡ length task.now.jobs }
    ensures first { MatchOption result (first_job task.now (is_beyond task.now q v.now) ≡ None)
        (λ job. first_job task.now (is_beyond task.now q v.now) ≡ Some (Condition job)) }
    ensures within { IfNone result ((j : ℕ) → IsProblemJob task.now j
        → numerator v.now j ≤ q * problem_weight task.now j) }
{
    for k in 0..task.len() {
        let job = JobId::at(k);
        if u128::from(v[k]) > u128::from(q) * u128::from(task.weight(job)) {
            return Some(job);
        }
    }
    None
}

// Ratios compare as products of the one job's weight and the other's time.
fn by_ratio(first: &WeightedJob, second: &WeightedJob) -> Ordering
    ensures { is_lt result ≡ goes_before first.now second.now }
{
    let ahead = product(first.weight, second.time);
    let behind = product(second.weight, first.time);
    behind.cmp(&ahead).then(first.job.cmp(&second.job))
}

fn product(weight: u64, time: u64) -> u128
    ensures { result ≡ weight * time }
{
    u128::from(weight) * u128::from(time)
}

// The time of a job on the machine, on identical ones its only time.
fn time_at<B: Allocator>(task: &ProblemTask<B>, machine: usize, job: JobId) -> u64
    requires machine { machine < task.now.machines }
    requires job { IsProblemJob task.now job }
    ensures { result ≡ problem_time_on task.now job (timed_machine task.now machine) }
{
    let timed = if is_parallel(task) { 0 } else { machine };
    task.times(job)[timed]
}

// The first job without time on the machine.
fn first_idle<B: Allocator>(task: &ProblemTask<B>, machine: usize) -> Option<JobId>
    requires { machine < task.now.machines }
    ensures first { MatchOption result
        (first_job task.now (is_idle task.now (timed_machine task.now machine)) ≡ None)
        (λ job. first_job task.now (is_idle task.now (timed_machine task.now machine))
        ≡ Some (Condition job)) }
    ensures busy { IfNone result ((j : ℕ) → IsProblemJob task.now j
        → 1 ≤ problem_time_on task.now j (timed_machine task.now machine)) }
{
    for k in 0..task.len() {
        let job = JobId::at(k);
        if time_at(task, machine, job) == 0 {
            return Some(job);
        }
    }
    None
}

// All jobs, by number, with their times on the machine and their numerators for weights.
fn weighed_jobs<A: Allocator, B: Allocator>(
    alloc: A,
    task: &ProblemTask<B>,
    machine: usize,
    u: &[u64],
) -> Result<Vec<WeightedJob, A>, BoundFault>
    requires machine { machine < task.now.machines }
    requires len { length u.now ≡ length task.now.jobs }
    requires busy { (j : ℕ) → IsProblemJob task.now j
        → 1 ≤ problem_time_on task.now j (timed_machine task.now machine) }
    ensures fault { IfErr result (λ fault. fault ≡ OutOfMemory) }
    ensures jobs { IfOk result (λ jobs. AreOfTask
        (weighed_task task.now (timed_machine task.now machine) (numerator u.now)) jobs.items) }
{
    let Ok(mut jobs) = Vec::with_capacity(alloc, task.len()) else {
        return Err(BoundFault::OutOfMemory);
    };
    for k in 0..task.len() {
        let job = JobId::at(k);
        let time = time_at(task, machine, job);
        let Ok(()) = jobs.push(WeightedJob {
            job,
            weight: u[k],
            time,
        }) else {
            return Err(BoundFault::OutOfMemory);
        };
    }
    Ok(jobs)
}

// The same by falling ratio of numerator to time.
fn jobs_by_ratio<A: Allocator, B: Allocator>(
    alloc: A,
    task: &ProblemTask<B>,
    machine: usize,
    u: &[u64],
) -> Result<Vec<WeightedJob, A>, BoundFault>
    requires machine { machine < task.now.machines }
    requires len { length u.now ≡ length task.now.jobs }
    requires busy { (j : ℕ) → IsProblemJob task.now j
        → 1 ≤ problem_time_on task.now j (timed_machine task.now machine) }
    ensures fault { IfErr result (λ fault. fault ≡ OutOfMemory) }
    ensures jobs { IfOk result (λ jobs. AreByRatio
        (weighed_task task.now (timed_machine task.now machine) (numerator u.now)) jobs.items) }
{
    let mut jobs = weighed_jobs(alloc, task, machine, u)?;
    jobs.sort_unstable_by(|first, second| by_ratio(first, second));
    Ok(jobs)
}

// The weighted sum of the completions of jobs that run one after another, where it is small enough.
fn completions(jobs: &[WeightedJob]) -> Option<u128>
    ensures { MatchOption result (2 ^ 128 ≤ completions_from 0 jobs.now)
        (λ value. value ≡ completions_from 0 jobs.now) }
{
    let mut value: u128 = 0;
    let mut completion: u128 = 0;
    for job in jobs {
        completion += u128::from(job.time);
        value = value.checked_add(u128::from(job.weight).checked_mul(completion)?)?;
    }
    Some(value)
}

// All jobs, by number.
pub(crate) fn all_jobs<A: Allocator, B: Allocator>(
    alloc: A,
    task: &ProblemTask<B>,
) -> Result<Vec<JobId, A>, BoundFault>
    ensures fault { IfErr result (λ fault. fault ≡ OutOfMemory) }
    ensures jobs { IfOk result (λ jobs. jobs.items ≡ problem_jobs task.now) }
    ensures sized { IsSized task.now }
{
    let Ok(mut jobs) = Vec::with_capacity(alloc, task.len()) else {
        return Err(BoundFault::OutOfMemory);
    };
    for k in 0..task.len() {
        let Ok(()) = jobs.push(JobId::at(k)) else {
            return Err(BoundFault::OutOfMemory);
        };
    }
    Ok(jobs)
}

// When the machine can start at first.
fn first_start<B: Allocator>(task: &ProblemTask<B>, machine: usize, jobs: &[JobId]) -> u64
    requires machine { machine < task.now.machines }
    requires jobs { jobs.now ≡ problem_jobs task.now }
    ensures { result ≡ first_start task.now machine }
{
    if is_parallel(task) {
        least_release(task, jobs)
    } else {
        least_head(task, machine, jobs)
    }
}

// On m machines, m - 1 times a time, and 2 m times a date.
fn shared_wait(machines: u32, time: u64, first: u64) -> u128
    requires { 1 ≤ machines }
    ensures { result ≡ (machines - 1) * time + 2 * machines * first }
{
    u128::from(machines - 1) * u128::from(time)
        + u128::from(2 * u64::from(machines)) * u128::from(first)
}

// What is added to the completion of a job.
fn wait_of<B: Allocator>(task: &ProblemTask<B>, machine: usize, first: u64, job: JobId) -> u128
    requires machine { machine < task.now.machines }
    requires job { IsProblemJob task.now job }
    ensures { result ≡ wait_from task.now machine first job }
{
    if is_parallel(task) {
        shared_wait(task.machines(), task.time(job), first)
    } else {
        u128::from(first) + u128::from(task.tail(machine, job))
    }
}

// The waits of all jobs, each as often as its number, where the sum is small enough.
fn waits<B: Allocator>(task: &ProblemTask<B>, machine: usize, first: u64, u: &[u64]) -> Option<u128>
    requires machine { machine < task.now.machines }
    requires len { length u.now ≡ length task.now.jobs }
    ensures { MatchOption result (2 ^ 128 ≤ waits_from task.now machine first (numerator u.now))
        (λ sum. sum ≡ waits_from task.now machine first (numerator u.now)) }
{
    let mut sum: u128 = 0;
    for k in 0..task.len() {
        let wait = wait_of(task, machine, first, JobId::at(k));
        sum = with_multiple(sum, u[k], wait)?;
    }
    Some(sum)
}

// What the weighted completions come to at least, where it is small enough.
fn weighted_least<B: Allocator>(
    task: &ProblemTask<B>,
    jobs: &[WeightedJob],
    waits: u128,
    l: &[u64],
) -> Option<u128>
    ensures { MatchOption result
        (2 ^ 128 ≤ come_to task.now (completions_from 0 jobs.now) waits (arcs_gain task.now l.now))
        (λ sum. sum
        ≡ come_to task.now (completions_from 0 jobs.now) waits (arcs_gain task.now l.now)) }
{
    let times = all_counted(task);
    let Some(gain) = gain_of(task, l) else {
        return None;
    };
    let pairs = completions(jobs)?;
    let sum = with_multiple(waits, pairs_counted(task), pairs)?;
    with_multiple(sum, times, gain)
}

// The due dates of all jobs, each as often as its numerator says, where the sum is small enough.
fn owed<B: Allocator>(task: &ProblemTask<B>, v: &[u64]) -> Option<i128>
    requires { length v.now ≡ length task.now.jobs }
    ensures wide { is_none result ≡ are_owed_wide task.now v.now }
    ensures value { IfSome result (λ sum. sum ≡ owed_dues task.now v.now) }
{
    let mut sum: i128 = 0;
    for k in 0..task.len() {
        sum = with_product(sum, v[k], i128::from(task.due(JobId::at(k))))?;
    }
    Some(sum)
}

// The sum with one product more, where it is small enough.
fn with_product(sum: i128, times: u64, wait: i128) -> Option<i128>
    ensures wide { is_none result
        ≡ (is_wide (pos times *ℤ wait) || is_wide (sum +ℤ (pos times *ℤ wait))) }
    ensures value { IfSome result (λ more. more ≡ sum +ℤ (pos times *ℤ wait)) }
{
    sum.checked_add(i128::from(times).checked_mul(wait)?)
}

/// The bound by multipliers on a machine, counted from 0: job by job their numerators over q, and
/// arc by arc or none. On identical machines it is the same for each.
pub fn multipliers_bound<A: Allocator + Copy, B: Allocator>(
    alloc: A,
    task: &ProblemTask<B>,
    machine: usize,
    v: &[u64],
    arcs: &[u64],
    q: u64,
) -> Result<i128, BoundFault>
    ensures fault { NamesFault (multipliers_fault task.now machine q v.now arcs.now) result }
    ensures value { IfOk result (λ b.
        b ≡ any_multiplier_value task.now machine v.now arcs.now q) }
    ensures bound { IfOk result (IsLowerBound task.now) }
{
    judge_numbers(task, machine, v, arcs, q)?;
    let moved = moved_multipliers(alloc, task, v, arcs)?;
    if let Some(job) = first_idle(task, machine) {
        return Err(BoundFault::Condition(job));
    }
    multiplier_law();
    value_of(alloc, task, machine, v, arcs, &moved, q)
}

// The first fault of the certificate by itself, or of a job's numerator.
fn judge_numbers<B: Allocator>(
    task: &ProblemTask<B>,
    machine: usize,
    v: &[u64],
    arcs: &[u64],
    q: u64,
) -> Result<(), BoundFault>
    ensures fault { NamesFault (numbers_fault task.now machine q v.now arcs.now) result }
    ensures sized { IsSized task.now }
    ensures goal { IfOk result (λ _. IsTrue (is_tardy_goal task.now.problem.goal)) }
    ensures machine { IfOk result (λ _. machine < task.now.machines) }
    ensures len { IfOk result (λ _. length v.now ≡ length task.now.jobs) }
    ensures some { IfOk result (λ _. 1 ≤ q) }
    ensures within { IfOk result (λ _. (j : ℕ) → IsProblemJob task.now j
        → numerator v.now j ≤ q * problem_weight task.now j) }
{
    if !takes_multipliers(task) {
        return Err(BoundFault::OtherKind);
    }
    if q == 0 {
        return Err(BoundFault::NoDenominator);
    }
    if machine >= task.machines() as usize {
        return Err(BoundFault::BadMachine(machine));
    }
    if v.len() != task.len() {
        return Err(BoundFault::Numerators);
    }
    if !arcs.is_empty() && arcs.len() != task.arcs().len() {
        return Err(BoundFault::Numerators);
    }
    match first_beyond(task, v, q) {
        Some(job) => Err(BoundFault::Condition(job)),
        None => Ok(()),
    }
}

// The value, where the numbers are small enough.
fn value_of<A: Allocator + Copy, B: Allocator>(
    alloc: A,
    task: &ProblemTask<B>,
    machine: usize,
    v: &[u64],
    arcs: &[u64],
    weights: &[u128],
    q: u64,
) -> Result<i128, BoundFault>
    requires machine { machine < task.now.machines }
    requires len { length v.now ≡ length task.now.jobs }
    requires some { 1 ≤ q }
    requires moved { weights.now ≡ map (moved task.now v.now arcs.now) (problem_jobs task.now) }
    requires busy { (j : ℕ) → IsProblemJob task.now j
        → 1 ≤ problem_time_on task.now j (timed_machine task.now machine) }
    ensures fault { NamesFault
        (too_large (are_multipliers_wide task.now machine v.now arcs.now)) result }
    ensures value { IfOk result (λ b.
        b ≡ any_multiplier_value task.now machine v.now arcs.now q) }
{
    let weights = narrowed(alloc, weights)?;
    let Some(owed) = owed(task, v) else {
        return Err(BoundFault::TooLarge);
    };
    let least = least_of(alloc, task, machine, arcs, &weights)?;
    let times = all_counted(task);
    match rest_of(least, times, owed) {
        Some(rest) => Ok(share_up(rest, u128::from(times) * u128::from(q))),
        None => Err(BoundFault::TooLarge),
    }
}

// What the weighted completions come to at least, where it is small enough, with the moved
// multipliers for weights.
fn least_of<A: Allocator + Copy, B: Allocator>(
    alloc: A,
    task: &ProblemTask<B>,
    machine: usize,
    l: &[u64],
    u: &[u64],
) -> Result<u128, BoundFault>
    requires machine { machine < task.now.machines }
    requires len { length u.now ≡ length task.now.jobs }
    requires busy { (j : ℕ) → IsProblemJob task.now j
        → 1 ≤ problem_time_on task.now j (timed_machine task.now machine) }
    ensures fault { NamesFault (too_large
        (nat_le (2 ^ 128) (least_by task.now machine (numerator u.now) l.now))) result }
    ensures value { IfOk result (λ sum.
        sum ≡ least_by task.now machine (numerator u.now) l.now) }
{
    let jobs = jobs_by_ratio(alloc, task, machine, u)?;
    let numbers = all_jobs(alloc, task)?;
    let first = first_start(task, machine, &numbers);
    let Some(waits) = waits(task, machine, first, u) else {
        return Err(BoundFault::TooLarge);
    };
    match weighted_least(task, &jobs, waits, l) {
        Some(least) => Ok(least),
        None => Err(BoundFault::TooLarge),
    }
}

// What remains without the due dates.
fn rest_of(least: u128, times: u64, owed: i128) -> Option<i128>
    ensures wide { is_none result ≡ is_rest_wide least times owed }
    ensures value { IfSome result (λ rest. rest ≡ pos least -ℤ (pos times *ℤ owed)) }
{
    let least = i128::try_from(least).ok()?;
    least.checked_sub(i128::from(times).checked_mul(owed)?)
}
