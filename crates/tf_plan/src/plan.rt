//! A schedule that fits the task of a problem, and what it costs.
ghost use Rattle.std.specs.Prelude.{◌≡◌, List, IfOk, IfSome, IsTrue, MatchOption};
ghost use Rattle.tf_posed.specs.ProblemData.{ProblemData};
ghost use Rattle.tf_posed.specs.ProblemCost.{IsLowerBound, IsProblemBest, problem_cost};
ghost use Rattle.tf_schedule.specs.declared.piece.Piece.{Piece};
ghost use Rattle.tf_schedule.specs.Drawing.{drawing};
ghost use Rattle.tf_plan.specs.Plan.{FitsAsLaid, IsPlan, IsUnplanned};

use std::alloc::{Allocator, Global};
use tf_bound::task::ProblemTask;
use tf_fit::cost::cost_by;
use tf_model::memory::OutOfMemory;
use tf_schedule::judge::{ProblemJudged, judge_problem};
use tf_schedule::piece::Piece;
use tf_schedule::schedule::Schedule;

/// A schedule, and what it costs.
#[derive(Drop)]
pub struct Plan<A: Allocator = Global> {
    pub schedule: Schedule<A>,
    pub value: i128,
}

/// The plan of these pieces, in any order. None where they do not fit the task, or cost 2^127 or
/// more. Only want of memory is an error.
pub fn plan_of_pieces<A: Allocator + Copy, B: Allocator>(
    alloc: A,
    task: &ProblemTask<B>,
    pieces: Vec<Piece, A>,
) -> Result<Option<Plan<A>>, OutOfMemory>
    ensures plan { IfOk result (λ found. MatchOption found (IsUnplanned task.now pieces.items)
        (λ plan. IsPlan task.now plan.schedule plan.value)) }
    ensures cost { IfOk result (λ found. IfSome found (λ plan. FitsAsLaid task.now pieces.items →
        plan.value ≡ problem_cost task.now (drawing task.now.machines pieces.items))) }
{
    let Ok(schedule) = Schedule::new(pieces) else {
        return Ok(None);
    };
    let ProblemJudged { misfit, jobs } = judge_problem(alloc, task, &schedule)?;
    if misfit.is_some() {
        return Ok(None);
    }
    match cost_by(task.problem().goal, task, &jobs) {
        Some(value) => Ok(Some(Plan { schedule, value })),
        None => Ok(None),
    }
}

/// Whether the cost of a plan equals a lower bound, so that no schedule costs less.
pub fn is_optimal(value: i128, bound: i128) -> bool
    ensures { (k : ProblemData) (ps : List Piece) → IsPlan k ps value → IsLowerBound k bound →
        IsTrue result → IsProblemBest k (drawing k.machines ps) value }
{
    is_same(value, bound)
}

fn is_same(value: i128, bound: i128) -> bool
    ensures { IsTrue result → value ≡ bound }
{
    value == bound
}
