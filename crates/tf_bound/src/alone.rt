//! The bound of a sum by each job by itself: it starts at its release date and waits nowhere.
ghost use Rattle.std.specs.Prelude.{◌≡◌, ◌+◌, min, pos, IfOk, IsTrue};
ghost use Rattle.tf_posed.specs.ProblemData.{IsProblemJob, problem_release};
ghost use Rattle.tf_posed.specs.ProblemCost.{penalty, IsLowerBound};
ghost use Rattle.tf_problem.specs.ProblemBounds.{is_sum_goal, alone_cost, problem_work};
ghost use Rattle.tf_bound.specs.Certified.{IsAloneBound, most_value};
ghost use Rattle.tf_bound.specs.Faulted.{alone_fault, NamesFault};
ghost use Rattle.tf_bound.specs.Kinds.{takes_alone};

use crate::fault::BoundFault;
use crate::prices::is_by_unit;
use crate::pushed::pushed_task;
use crate::row_sums::late_steps;
use crate::task::ProblemTask;
use std::alloc::Allocator;
use tf_model::ids::JobId;
use tf_model::memory::OutOfMemory;
use tf_model::problem::Goal;
use tf_problem::laws::alone_law;

/// Whether the jobs, each by itself, bound a problem: a sum over them.
pub fn takes_alone<A: Allocator>(task: &ProblemTask<A>) -> bool
    ensures exact { result ≡ takes_alone task.now.problem }
    ensures goal { IsTrue result → IsTrue (is_sum_goal task.now.problem.goal) }
{
    !matches!(task.problem().goal, Goal::Cmax | Goal::Lmax | Goal::Hmax)
}

// What a job adds to a sum if it waits nowhere.
fn cost_alone<A: Allocator>(task: &ProblemTask<A>, job: JobId) -> u128
    requires job { IsProblemJob task.now job }
    requires goal { IsTrue (is_sum_goal task.now.problem.goal) }
    ensures { result ≡ penalty task.now.problem.goal task.now job
        (problem_release task.now job + problem_work task.now job) }
{
    let end = task.release(job) + task.work(job);
    let late = late_steps(is_by_unit(task.problem().goal), task.due(job), end);
    u128::from(task.weight(job)) * u128::from(late)
}

// What all jobs cost so, and no more than the text of a bound can say.
fn capped_cost<A: Allocator>(task: &ProblemTask<A>) -> i128
    requires goal { IsTrue (is_sum_goal task.now.problem.goal) }
    ensures value { result ≡ pos (min (alone_cost task.now) most_value) }
    ensures bound { IsLowerBound task.now result }
{
    alone_law();
    let most = i64::MAX as u128;
    let mut sum: u128 = 0;
    for k in 0..task.len() {
        sum = sum.saturating_add(cost_alone(task, JobId::at(k))).min(most);
    }
    sum as i128
}

/// What the jobs of a sum cost, each alone, from the dates that follow by the arcs.
pub fn alone_value<A: Allocator + Copy, B: Allocator>(
    alloc: A,
    task: &ProblemTask<B>,
) -> Result<i128, OutOfMemory>
    requires { IsTrue (is_sum_goal task.now.problem.goal) }
    ensures value { IfOk result (IsAloneBound task.now) }
    ensures bound { IfOk result (IsLowerBound task.now) }
{
    match pushed_task(alloc, task)? {
        Some(pushed) => Ok(capped_cost(&pushed)),
        None => Ok(capped_cost(task)),
    }
}

/// The bound by each job alone.
pub fn alone_bound<A: Allocator + Copy, B: Allocator>(
    alloc: A,
    task: &ProblemTask<B>,
) -> Result<i128, BoundFault>
    ensures fault { NamesFault (alone_fault task.now) result }
    ensures value { IfOk result (IsAloneBound task.now) }
    ensures bound { IfOk result (IsLowerBound task.now) }
{
    if !takes_alone(task) {
        return Err(BoundFault::OtherKind);
    }
    Ok(alone_value(alloc, task)?)
}
