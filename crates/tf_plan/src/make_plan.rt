//! A plan for every task: the pieces of a search where they fit, else all jobs one after another.
ghost use Rattle.std.specs.Prelude.{◌≡◌, ◌⊎◌, ◌≤ℤ◌, IfOk, IfSome, IsSomeAnd, MatchResult};
ghost use Rattle.tf_posed.specs.ProblemCost.{problem_cost};
ghost use Rattle.tf_schedule.specs.Drawing.{drawing};
ghost use Rattle.tf_plan.specs.NoPlan.{HasNoPlan};
ghost use Rattle.tf_plan.specs.Plan.{FitsAsLaid, IsPlan};
ghost use Rattle.tf_plan.specs.SerialOrder.{IsSerialOrder};
ghost use Rattle.tf_plan.specs.declared.make_plan.NoPlan.TheVariants.{OutOfMemory as NoMemory};

use crate::plan::{Plan, plan_of_pieces};
use crate::serial::serial_plan;
use std::alloc::Allocator;
use tf_bound::task::ProblemTask;
use tf_model::ids::JobId;
use tf_model::memory::OutOfMemory;
use tf_schedule::piece::Piece;
use thiserror::Error;

/// Why a task whose arcs have no cycle has no plan.
#[derive(Clone, Copy, Debug, PartialEq, Eq, Error)]
pub enum NoPlan {
    /// A schedule that fits costs 2^127 or more.
    #[error("a cost is beyond the limit")]
    TooLarge,
    #[error("want of memory")]
    OutOfMemory,
}

impl From<OutOfMemory> for NoPlan {
    ghost from_gives = { λ _ e. e ≡ NoMemory };

    fn from(_: OutOfMemory) -> NoPlan {
        NoPlan::OutOfMemory
    }
}

/// The plan of these pieces, which may be any, where they fit and cost no more than all jobs one
/// after another in this order; else that one.
pub fn make_plan<A: Allocator + Copy, B: Allocator>(
    alloc: A,
    task: &ProblemTask<B>,
    order: &[JobId],
    pieces: Vec<Piece, A>,
) -> Result<Plan<A>, NoPlan>
    requires { IsSerialOrder task.now order.now }
    ensures plan { MatchResult result (λ plan. IsPlan task.now plan.schedule plan.value)
        (HasNoPlan task.now) }
    ensures no_worse { IfOk result (λ plan. FitsAsLaid task.now pieces.items →
        plan.value ≤ℤ problem_cost task.now (drawing task.now.machines pieces.items)) }
{
    let found = plan_of_pieces(alloc, task, pieces)?;
    let serial = serial_plan(alloc, task, order)?;
    match cheaper(found, serial) {
        Some(plan) => Ok(plan),
        None => Err(NoPlan::TooLarge),
    }
}

// The one that costs less, the first among equals.
fn cheaper<A: Allocator>(one: Option<Plan<A>>, other: Option<Plan<A>>) -> Option<Plan<A>>
    ensures either { (result ≡ one) ⊎ (result ≡ other) }
    ensures first { IfSome one (λ p. IsSomeAnd result (λ q. q.value ≤ℤ p.value)) }
    ensures second { IfSome other (λ p. IsSomeAnd result (λ q. q.value ≤ℤ p.value)) }
{
    match (one, other) {
        (Some(one), Some(other)) => {
            if other.value < one.value {
                Some(other)
            } else {
                Some(one)
            }
        }
        (Some(one), None) => Some(one),
        (None, other) => other,
    }
}
