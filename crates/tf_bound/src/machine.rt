//! The bound by one machine, or one of a shop: of some jobs, the least head, their time there, and
//! the least of what each then still has to go, less its due date.
ghost use Rattle.std.specs.Prelude.{◌≡◌, ◌*◌, ◌<◌, ◌≤◌, ◌-ℤ◌, pos, length, sum_by, IfOk, IsTrue};
ghost use Rattle.std.specs.List.{All};
ghost use Rattle.tf_model.specs.Limit.{limit};
ghost use Rattle.tf_check.specs.Bound.{least, least_number};
ghost use Rattle.tf_posed.specs.ProblemData.{IsProblemJob, problem_due, problem_time_on};
ghost use Rattle.tf_posed.specs.ProblemCost.{IsLowerBound};
ghost use Rattle.tf_problem.specs.ProblemBounds.{is_by_machine, is_max_goal, head, tail};
ghost use Rattle.tf_problem.specs.ProblemBounds.{machine_value};
ghost use Rattle.tf_bound.specs.Kinds.{takes_machine};
ghost use Rattle.tf_bound.specs.Faulted.{machine_fault, NamesFault};

use crate::fault::BoundFault;
use crate::jobs::judge_list;
use crate::task::ProblemTask;
use std::alloc::Allocator;
use tf_model::ids::JobId;
use tf_model::problem::{Env, Goal};
use tf_problem::laws::machine_law;

/// Whether one machine bounds a problem: the makespan or the maximum lateness, on one machine or
/// in a shop.
pub fn takes_machine<A: Allocator>(task: &ProblemTask<A>) -> bool
    ensures exact { result ≡ takes_machine task.now.problem }
    ensures env { IsTrue result → IsTrue (is_by_machine task.now.problem.env) }
    ensures goal { IsTrue result → IsTrue (is_max_goal task.now.problem.goal) }
{
    let problem = task.problem();
    let env = matches!(
        problem.env,
        Env::Single | Env::Flow | Env::OpenShop | Env::JobShop
    );
    let goal = matches!(problem.goal, Goal::Cmax | Goal::Lmax);
    env && goal
}

// The least head of jobs of which there are some.
pub(crate) fn least_head<B: Allocator>(task: &ProblemTask<B>, machine: usize, jobs: &[JobId]) -> u64
    requires machine { machine < task.now.machines }
    requires env { IsTrue (is_by_machine task.now.problem.env) }
    requires known { All (IsProblemJob task.now) jobs.now }
    requires some { 0 < length jobs.now }
    ensures { result ≡ least_number (head task.now machine) jobs.now }
{
    let mut least = task.head(machine, jobs[0]);
    for job in jobs {
        least = least.min(task.head(machine, *job));
    }
    least
}

// The time of jobs on the machine.
fn work_on<B: Allocator>(task: &ProblemTask<B>, machine: usize, jobs: &[JobId]) -> u128
    requires machine { machine < task.now.machines }
    requires env { IsTrue (is_by_machine task.now.problem.env) }
    requires known { All (IsProblemJob task.now) jobs.now }
    ensures value { result ≡ sum_by (λ j. problem_time_on task.now j machine) jobs.now }
    ensures small { result ≤ length jobs.now * limit }
{
    let mut work: u128 = 0;
    for job in jobs {
        work += u128::from(task.time_on(machine, *job));
    }
    work
}

// What the job has to go after the machine, less its due date.
fn rest_of<B: Allocator>(task: &ProblemTask<B>, machine: usize, job: JobId) -> i64
    requires machine { machine < task.now.machines }
    requires env { IsTrue (is_by_machine task.now.problem.env) }
    requires known { IsProblemJob task.now job }
    ensures { result ≡ pos (tail task.now machine job) -ℤ problem_due task.now job }
{
    task.tail(machine, job) as i64 - task.due(job)
}

// The least that a job of some has to go after the machine, less its due date.
pub(crate) fn least_rest<B: Allocator>(task: &ProblemTask<B>, machine: usize, jobs: &[JobId]) -> i64
    requires machine { machine < task.now.machines }
    requires env { IsTrue (is_by_machine task.now.problem.env) }
    requires known { All (IsProblemJob task.now) jobs.now }
    requires some { 0 < length jobs.now }
    ensures { result
        ≡ least (λ j. pos (tail task.now machine j) -ℤ problem_due task.now j) jobs.now }
{
    let mut least = rest_of(task, machine, jobs[0]);
    for job in jobs {
        least = least.min(rest_of(task, machine, *job));
    }
    least
}

/// The bound by some jobs on a machine, counted from 0.
pub fn machine_bound<A: Allocator, B: Allocator>(
    alloc: A,
    task: &ProblemTask<B>,
    machine: usize,
    jobs: &[JobId],
) -> Result<i128, BoundFault>
    ensures fault { NamesFault (machine_fault task.now machine jobs.now) result }
    ensures value { IfOk result (λ b. b ≡ machine_value task.now machine jobs.now) }
    ensures bound { IfOk result (IsLowerBound task.now) }
{
    if !takes_machine(task) {
        return Err(BoundFault::OtherKind);
    }
    if machine >= task.machines() as usize {
        return Err(BoundFault::BadMachine(machine));
    }
    judge_list(alloc, task, jobs)?;
    if jobs.is_empty() {
        return Err(BoundFault::TooFew);
    }
    machine_law();
    Ok(span(task, machine, jobs))
}

// The least head, the work, and the least rest.
fn span<B: Allocator>(task: &ProblemTask<B>, machine: usize, jobs: &[JobId]) -> i128
    requires machine { machine < task.now.machines }
    requires env { IsTrue (is_by_machine task.now.problem.env) }
    requires known { All (IsProblemJob task.now) jobs.now }
    requires some { 0 < length jobs.now }
    ensures { result ≡ machine_value task.now machine jobs.now }
{
    let begun = i128::from(least_head(task, machine, jobs));
    let rest = i128::from(least_rest(task, machine, jobs));
    begun + work_on(task, machine, jobs) as i128 + rest
}
