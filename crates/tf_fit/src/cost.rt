//! What a schedule costs by any objective.
ghost use Rattle.std.specs.Prelude.{◌≡◌, ◌*◌, ◌^◌, ◌<◌, ◌≤◌, length, pos, List};
ghost use Rattle.std.specs.List.{All};
ghost use Rattle.tf_model.specs.Cost.{greatest};
ghost use Rattle.tf_posed.specs.ProblemData.{IsProblemJob, problem_job, problem_jobs};
ghost use Rattle.tf_problem.specs.ProblemBounds.{is_max_goal};
ghost use Rattle.tf_posed.specs.ProblemCost.{penalty, tardiness, problem_cost_by};
ghost use Rattle.tf_schedule.specs.declared.piece.Piece.{Piece};
ghost use Rattle.tf_schedule.specs.Drawing.{drawing};
ghost use Rattle.tf_schedule.specs.Lanes.{HasLanes, stop_in};
ghost use Rattle.tf_schedule.specs.Schedule.{IsSchedule};
ghost use Rattle.tf_fit.specs.CostBy.{price_at, counted_at, cost_at, sum_at, IsCostOrBeyond};
ghost use Rattle.tf_schedule.specs.ProblemMisfit.{IsKnownTo};

use std::alloc::Allocator;
use tf_bound::task::ProblemTask;
use tf_model::ids::JobId;
use tf_model::problem::Goal;
use tf_schedule::lanes::Lanes;

/// What a timetable costs by an objective, where each job completes at its last stop: none where
/// that is 2^127 or more. The task's weights and due dates count, whatever its own objective is.
pub fn cost_by<A: Allocator, B: Allocator>(
    goal: Goal,
    task: &ProblemTask<A>,
    jobs: &Lanes<B>,
) -> Option<i128>
    ensures stops { IsCostOrBeyond result (cost_at goal task.now (stop_in jobs.now)) }

    // So it is what the timetable costs that the pieces of the table draw.
    ensures drawn { (ps : List Piece) → IsSchedule ps → All (IsKnownTo task.now) ps →
        HasLanes (length task.now.jobs) ps jobs.now →
        IsCostOrBeyond result (problem_cost_by goal task.now (drawing task.now.machines ps)) }
{
    cost_of_stops(goal, task, jobs)
}

/// What an objective counts of a job that completes at its last stop: the completion, the lateness,
/// or what the job adds to the sum. The task's weights and due dates count, whatever its own
/// objective is.
pub fn counted<A: Allocator, B: Allocator>(
    goal: Goal,
    task: &ProblemTask<A>,
    jobs: &Lanes<B>,
    job: JobId,
) -> i128
    requires { IsProblemJob task.now job }
    ensures { result ≡ counted_at goal task.now job (stop_in jobs.now job) }
{
    if is_max(goal) {
        price(goal, task, jobs, job)
    } else {
        penalty(goal, task, job, jobs.stop(job)) as i128
    }
}

// What it costs by its last stops.
fn cost_of_stops<A: Allocator, B: Allocator>(
    goal: Goal,
    task: &ProblemTask<A>,
    jobs: &Lanes<B>,
) -> Option<i128>
    ensures { IsCostOrBeyond result (cost_at goal task.now (stop_in jobs.now)) }
{
    if is_max(goal) {
        Some(greatest(goal, task, jobs))
    } else {
        total(goal, task, jobs)
    }
}

// Whether the objective is the makespan or the maximum lateness.
fn is_max(goal: Goal) -> bool
    ensures { result ≡ is_max_goal goal }
{
    matches!(goal, Goal::Cmax | Goal::Lmax)
}

// The completion of a job, for the maximum lateness less its due date.
fn price<A: Allocator, B: Allocator>(
    goal: Goal,
    task: &ProblemTask<A>,
    jobs: &Lanes<B>,
    job: JobId,
) -> i128
    requires { IsProblemJob task.now job }
    ensures { result ≡ price_at goal task.now job (stop_in jobs.now job) }
{
    let stop = i128::from(jobs.stop(job));
    match goal {
        Goal::Lmax => stop - i128::from(task.job(job).due),
        _ => stop,
    }
}

fn greatest<A: Allocator, B: Allocator>(goal: Goal, task: &ProblemTask<A>, jobs: &Lanes<B>) -> i128
    ensures { result ≡ greatest (λ j. price_at goal task.now j (stop_in jobs.now j))
        (problem_jobs task.now) }
{
    let count = task.len();
    let mut value: i128 = price(goal, task, jobs, JobId::at(0));
    for k in 1..count {
        value = value.max(price(goal, task, jobs, JobId::at(k)));
    }
    value
}

// How much later than its due date a job completes that completes at `stop`: 0 where it does not.
fn tardiness<A: Allocator>(task: &ProblemTask<A>, job: JobId, stop: u64) -> u128
    requires { IsProblemJob task.now job }
    ensures value { result ≡ tardiness task.now job stop }
    ensures small { result ≤ 2 ^ 65 }
{
    let late = i128::from(stop) - i128::from(task.job(job).due);
    late.max(0) as u128
}

// What a job adds to a sum if it completes at `stop`.
fn penalty<A: Allocator>(goal: Goal, task: &ProblemTask<A>, job: JobId, stop: u64) -> u128
    requires { IsProblemJob task.now job }
    ensures value { result ≡ penalty goal task.now job stop }
    ensures small { result < 2 ^ 127 }
{
    let late = tardiness(task, job, stop);
    let unit: u128 = if late > 0 { 1 } else { 0 };
    match goal {
        Goal::SumC => u128::from(stop),
        Goal::SumWC => weighted(task, job, u128::from(stop)),
        Goal::SumT => late,
        Goal::SumWT => weighted(task, job, late),
        Goal::SumU => unit,
        Goal::SumWU => weighted(task, job, unit),
        _ => 0,
    }
}

// The weight of a job times a number.
fn weighted<A: Allocator>(task: &ProblemTask<A>, job: JobId, number: u128) -> u128
    requires job { IsProblemJob task.now job }
    requires small { number ≤ 2 ^ 65 }
    ensures value { result ≡ (problem_job task.now job).weight * number }
    ensures small { result < 2 ^ 127 }
{
    u128::from(task.job(job).weight) * number
}

fn total<A: Allocator, B: Allocator>(
    goal: Goal,
    task: &ProblemTask<A>,
    jobs: &Lanes<B>,
) -> Option<i128>
    ensures { IsCostOrBeyond result (pos (sum_at goal task.now (stop_in jobs.now)
        (length task.now.jobs))) }
{
    let most = i128::MAX as u128;
    let mut sum: u128 = 0;
    for k in 0..task.len() {
        let job = JobId::at(k);
        let more = penalty(goal, task, job, jobs.stop(job));
        if more > most - sum {
            return None;
        }
        sum += more;
    }
    Some(sum as i128)
}
