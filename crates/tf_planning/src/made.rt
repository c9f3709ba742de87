//! A plan of a task and the strongest lower bound, as they are found.
ghost use Rattle.std.specs.Prelude.{MatchResult};
ghost use Rattle.tf_engine.specs.Faults.{stop_of};
ghost use Rattle.tf_plan.specs.NoPlan.{HasNoPlan};
ghost use Rattle.tf_plan.specs.Plan.{IsPlan};
ghost use Rattle.tf_plan.specs.SerialOrder.{IsSerialOrder};
ghost use Rattle.tf_posed.specs.ProblemData.{ProblemData};
ghost use Rattle.tf_planning.specs.Planning.{IsMade, StopsPlanning};

use crate::candidate::{Given, best_pieces};
use crate::progress::{Lent, PlanProgress};
use std::alloc::{Allocator, Global};
use tf_bound::task::ProblemTask;
use tf_bounding::feasible::unordered;
use tf_engine::fault::RunFault;
use tf_model::ids::JobId;
use tf_model::prepare::Refusal;
use tf_plan::make_plan::{NoPlan, make_plan};
use tf_plan::order::order_of;
use tf_plan::plan::Plan;
use tf_schedule::piece::Piece;
use tf_search::effort::{Effort, Progress};
use tf_search::strongest::{Found, strongest};

/// A plan, and the strongest lower bound that was found.
#[derive(Drop)]
pub struct Made<A: Allocator = Global> {
    pub plan: Plan<A>,
    pub found: Found<A>,
}

/// The best plan of a task that is found, and the strongest lower bound that is found with an
/// effort.
pub(crate) fn made_for<A: Allocator + Copy, B: Allocator, P: Progress + PlanProgress + Drop>(
    alloc: A,
    task: &ProblemTask<B>,
    effort: Effort<P>,
) -> Result<Made<A>, RunFault<A>>
    ensures { MatchResult result (IsMade task.now) (λ e. StopsPlanning task.now (stop_of e)) }
{
    let order = order_for(alloc, task)?;
    let Effort {
        steps,
        mut progress,
    } = effort;
    let lent = Effort {
        steps,
        progress: lent(&mut progress),
    };
    let found = strongest(alloc, task, lent)?;
    let given = Given {
        steps,
        bound: found.value,
    };
    let pieces = best_pieces(alloc, task, &order, given, &mut progress)?;
    if let Some(progress) = &mut progress {
        progress.has_plan();
    }
    let plan = plan_for(alloc, task, &order, pieces)?;
    Ok(Made { plan, found })
}

// The progress of the search for a bound, where anybody is told.
fn lent<P: Progress>(progress: &mut Option<P>) -> Option<Lent<'_, P>> {
    match progress {
        Some(progress) => Some(Lent { progress }),
        None => None,
    }
}

// An order of all jobs that keeps the arcs.
fn order_for<A: Allocator + Copy, B: Allocator>(
    alloc: A,
    task: &ProblemTask<B>,
) -> Result<Vec<JobId, A>, RunFault<A>>
    ensures { MatchResult result (λ order. IsSerialOrder task.now order.items)
        (λ e. StopsPlanning task.now (stop_of e)) }
{
    match order_of(alloc, task) {
        Ok(order) => Ok(order),
        Err(fault) => Err(unordered(fault)),
    }
}

// The plan of these pieces, or of all jobs one after another in this order.
fn plan_for<A: Allocator + Copy, B: Allocator>(
    alloc: A,
    task: &ProblemTask<B>,
    order: &[JobId],
    pieces: Vec<Piece, A>,
) -> Result<Plan<A>, RunFault<A>>
    requires { IsSerialOrder task.now order.now }
    ensures { MatchResult result (λ plan. IsPlan task.now plan.schedule plan.value)
        (λ e. StopsPlanning task.now (stop_of e)) }
{
    match make_plan(alloc, task, order, pieces) {
        Ok(plan) => Ok(plan),
        Err(fault) => Err(unplanned(fault)),
    }
}

fn unplanned<A: Allocator>(fault: NoPlan) -> RunFault<A>
    ensures { (k : ProblemData) → HasNoPlan k fault → StopsPlanning k (stop_of result) }
{
    match fault {
        NoPlan::TooLarge => RunFault::Task(Refusal::TotalTooLarge),
        NoPlan::OutOfMemory => RunFault::OutOfMemory,
    }
}
