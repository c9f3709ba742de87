//! What an instance has to have for a problem.
ghost use Rattle.std.specs.Prelude.{◌≡◌, is_some};
ghost use Rattle.std.specs.List.{list_all};
ghost use Rattle.std.specs.Option.{option_map};
ghost use Rattle.tf_listing.specs.Fields.{has_fields, has_job_fields, is_listed, takes_time};
ghost use Rattle.tf_listing.specs.Fields.{uses_cost};
ghost use Rattle.tf_prepare.specs.Preparing.{uses_weight};

use crate::listing::Listed;
use std::alloc::Allocator;
use tf_bound::task::needs_time;
use tf_model::instance::Instance;
use tf_model::job::{Job, Times};
use tf_model::limit::MOST_COSTED_JOBS;
use tf_model::problem::{Env, Goal, Problem};
use tf_prepare::prepare::uses_due;

/// Whether a problem is listed for an instance, or at all where there is none.
pub(crate) fn is_listed<A: Allocator>(
    listed: Listed,
    problem: &Problem,
    instance: Option<&Instance<A>>,
) -> bool
    ensures { result ≡ is_listed listed problem.now (option_map (λ i. i.now) instance.entry) }
{
    match instance {
        None => true,
        Some(instance) => match listed {
            Listed::Solved => has_fields(problem, instance),
            Listed::Bounded => {
                has_fields(problem, instance)
                    && (!needs_time(problem) || all_take_time(instance.jobs()))
            }
        },
    }
}

/// Whether an instance has the fields that a problem uses, and no more jobs than it allows.
fn has_fields<A: Allocator>(problem: &Problem, instance: &Instance<A>) -> bool
    ensures { result ≡ has_fields problem.now instance.now }
{
    (!uses_cost(problem.goal) || instance.len() <= MOST_COSTED_JOBS)
        && (!problem.env.is_shop() || instance.machines().is_none_or(|m| m == 2))
        && have_fields(problem, instance.jobs())
}

fn have_fields<A: Allocator>(problem: &Problem, jobs: &[Job<A>]) -> bool
    ensures { result ≡ list_all (has_job_fields problem.now) jobs.now }
{
    jobs.iter().all(|job| has_job_fields(problem, job))
}

fn has_job_fields<A: Allocator>(problem: &Problem, job: &Job<A>) -> bool
    ensures { result ≡ has_job_fields problem.now job.now }
{
    let is_shop = problem.env.is_shop();
    let has_times = match job.times {
        Times::One(time) => !is_shop && time > 0,
        Times::Two(_, _) => is_shop && !matches!(problem.env, Env::JobShop),
    };
    has_times
        && (job.weight.is_some() || !uses_weight(problem.goal))
        && (job.due.is_some() || !uses_due(problem.goal))
        && (job.release.is_some() || !problem.release)
        && (has_cost(job) || !uses_cost(problem.goal))
}

fn has_cost<A: Allocator>(job: &Job<A>) -> bool
    ensures { result ≡ is_some job.now.cost }
{
    job.cost.is_some()
}

fn all_take_time<A: Allocator>(jobs: &[Job<A>]) -> bool
    ensures { result ≡ list_all (λ job. takes_time job.times) jobs.now }
{
    jobs.iter().all(|job| takes_time(job.times))
}

/// Whether a job with these times takes time on some machine.
fn takes_time(times: Times) -> bool
    ensures { result ≡ takes_time times }
{
    match times {
        Times::One(time) => time > 0,
        Times::Two(first, second) => first > 0 || second > 0,
    }
}

/// Whether the objective uses weights.
pub(crate) fn uses_weight(goal: Goal) -> bool
    ensures { result ≡ uses_weight goal }
{
    matches!(goal, Goal::SumWC | Goal::SumWT | Goal::SumWU)
}

/// Whether the objective uses cost functions.
pub(crate) fn uses_cost(goal: Goal) -> bool
    ensures { result ≡ uses_cost goal }
{
    matches!(goal, Goal::Hmax)
}
