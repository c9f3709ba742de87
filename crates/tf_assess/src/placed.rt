//! A task that serves several objectives, and how a schedule stands to it.
ghost use Rattle.std.specs.Prelude.{◌≡◌, List, MatchOption, IfOk, IfSome};
ghost use Rattle.tf_prepare.specs.Preparing.{uses_weight};
ghost use Rattle.tf_schedule.specs.declared.piece.Piece.{Piece as PieceData};
ghost use Rattle.tf_assess.specs.Measures.{IsUnmade, by_goal};
ghost use Rattle.tf_assess.specs.Placed.{HasTable, IsPlacedBy, IsPlacedOf, IsSorted, serves};

use crate::measures::PosedInstance;
use std::alloc::Allocator;
use tf_bound::task::ProblemTask;
use tf_fit::cost::cost_by;
use tf_model::memory::OutOfMemory;
use tf_model::prepare::Refusal;
use tf_model::problem::{Goal, Problem};
use tf_prepare::prepare::{prepare_problem, uses_due};
use tf_schedule::judge::{ProblemJudged, judge_problem};
use tf_schedule::lanes::Lanes;
use tf_schedule::schedule::{PieceFault, Schedule};

// A task that the instance makes by an objective, and when its jobs work, where the schedule fits
// it.
#[derive(Drop)]
pub(crate) struct Placed<A: Allocator> {
    pub(crate) goal: Goal,
    task: ProblemTask<A>,
    jobs: Option<Lanes<A>>,
}

impl<A: Allocator> Placed<A> {
    ghost use Rattle.std.specs.Prelude.{List, IsTrue};
    ghost use Rattle.tf_schedule.specs.declared.piece.Piece.{Piece as PieceData};
    ghost use Rattle.tf_assess.specs.Measures.{IsMeasure, PosedData};
    ghost use Rattle.tf_assess.specs.Placed.{IsPlacedOf, serves};

    // What the pieces cost by an objective that looks at no other fields.
    pub(crate) fn value(&self, goal: Goal) -> Option<i128>
        ensures { (posed : PosedData) → (ps : List PieceData) → IsPlacedOf posed ps self.now →
            IsTrue (serves self.now.goal goal) → IsMeasure posed ps goal result }
    {
        match &self.jobs {
            Some(jobs) => cost_by(goal, &self.task, jobs),
            None => None,
        }
    }
}

// Whether a task by the first objective has the fields that the second looks at.
pub(crate) fn serves(rich: Goal, goal: Goal) -> bool
    ensures { result ≡ serves rich goal }
{
    (!uses_weight(goal) || uses_weight(rich)) && (!uses_due(goal) || uses_due(rich))
}

// Whether the objective uses weights.
fn uses_weight(goal: Goal) -> bool
    ensures { result ≡ uses_weight goal }
{
    matches!(goal, Goal::SumWC | Goal::SumWT | Goal::SumWU)
}

// The task with the most fields that the instance makes, and how the schedule stands to it.
pub(crate) fn first_placed<A: Allocator + Copy, B: Allocator>(
    alloc: A,
    posed: &PosedInstance<B>,
    schedule: &Result<Schedule<A>, PieceFault>,
) -> Result<Option<Placed<A>>, OutOfMemory>
    ensures { (ps : List PieceData) → IsSorted ps schedule.now →
        IfOk result (λ found. IfSome found (IsPlacedOf posed.now ps)) }
{
    for goal in [Goal::SumWT, Goal::SumT, Goal::SumWC, Goal::SumC] {
        if let Some(placed) = placed_by(alloc, posed, schedule, goal)? {
            return Ok(Some(placed));
        }
    }
    Ok(None)
}

// The same problem with another objective.
fn by_goal(problem: &Problem, goal: Goal) -> Problem
    ensures { result ≡ by_goal problem.now goal }
{
    let mut other = *problem;
    other.goal = goal;
    other
}

// The task that the instance makes by an objective, if it makes one, and how the schedule stands to
// it.
pub(crate) fn placed_by<A: Allocator + Copy, B: Allocator>(
    alloc: A,
    posed: &PosedInstance<B>,
    schedule: &Result<Schedule<A>, PieceFault>,
    goal: Goal,
) -> Result<Option<Placed<A>>, OutOfMemory>
    ensures { (ps : List PieceData) → IsSorted ps schedule.now →
        IfOk result (λ found. MatchOption found
        (IsUnmade posed.now.timed posed.now.problem posed.now.machines goal)
        (IsPlacedBy posed.now ps goal)) }
{
    let problem = by_goal(&posed.problem, goal);
    let task = match prepare_problem(alloc, &posed.timed, &problem, posed.machines) {
        Ok(task) => task,
        Err(Refusal::OutOfMemory) => return Err(OutOfMemory),
        Err(_) => return Ok(None),
    };
    let jobs = table_on(alloc, &task, schedule)?;
    Ok(Some(Placed { goal, task, jobs }))
}

// When the jobs of a task work, where there is a schedule and it fits the task.
fn table_on<A: Allocator + Copy>(
    alloc: A,
    task: &ProblemTask<A>,
    schedule: &Result<Schedule<A>, PieceFault>,
) -> Result<Option<Lanes<A>>, OutOfMemory>
    ensures { (ps : List PieceData) → IsSorted ps schedule.now →
        IfOk result (HasTable task.now ps) }
{
    let Ok(schedule) = schedule else {
        return Ok(None);
    };
    let ProblemJudged { misfit, jobs } = judge_problem(alloc, task, schedule)?;
    match misfit {
        Some(_) => Ok(None),
        None => Ok(Some(jobs)),
    }
}
