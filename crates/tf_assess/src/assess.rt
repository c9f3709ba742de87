//! An answer to a problem, assessed.
ghost use Rattle.std.specs.Prelude.{◌≡◌, ◌↔◌, List, Some, IfOk, IsTrue};
ghost use Rattle.tf_text.specs.AnswerText.{SheetData};
ghost use Rattle.tf_assess.specs.Assessing.{HasSameJobs, HasSameShop, IsSameProblem, IsAssessment};
ghost use Rattle.tf_assess.specs.Assessing.{IsForProblem, IsOfTask, IsProblemJudged, HasProblemFit};
ghost use Rattle.tf_assess.specs.Assessing.{HasProblemTable, IsSorting, problem_outcomes};
ghost use Rattle.tf_schedule.specs.declared.piece.Piece.{Piece as PieceData};

use crate::offered::{Aids, Weighed, weigh};
use crate::outcomes::outcomes;
use std::alloc::Allocator;
use tf_bound::task::ProblemTask;
use tf_check::answer::Answer;
use tf_evaluate::evaluation::{Evaluation, JobOutcome, ProblemFit};
use tf_fit::cost::cost_by;
use tf_model::memory::OutOfMemory;
use tf_model::problem::Problem;
use tf_schedule::judge::{ProblemJudged, judge_problem};
use tf_schedule::lanes::Lanes;
use tf_schedule::misfit::ProblemMisfit;
use tf_schedule::piece::Piece;
use tf_schedule::schedule::Schedule;
use tf_search::effort::Progress;
use tf_search::strongest::strongest;
use tf_text::answer::sheet::Sheet;

/// How an answer stands to the task of a problem, with the strongest lower bound that is found or
/// offered. The answer is given up, so that its pieces are sorted where they stand. Its certificate
/// is not looked at. Only want of memory is an error.
pub fn assess<A: Allocator + Copy, B: Allocator, C: Allocator, P: Progress + Drop>(
    alloc: A,
    task: &ProblemTask<B>,
    sheet: Sheet<C>,
    aids: Aids<P, A>,
) -> Result<Evaluation<Weighed<A>, A>, OutOfMemory>
    ensures { IfOk result (IsAssessment task.now aids.offered sheet) }
{
    let Aids { effort, offered } = aids;
    let found = strongest(alloc, task, effort)?;
    let reference = weigh(alloc, task, offered, found)?;
    let is_its = is_for(task, &sheet.problem, sheet.jobs, sheet.machines);
    let Answer {
        pieces,
        value: claimed,
        ..
    } = sheet.into_answer();
    let JudgedSheet { fit, outcomes } = judge_sheet(alloc, task, is_its, pieces.into_vec())?;
    Ok(Evaluation {
        problem: task.problem(),
        jobs: task.len() as u32,
        machines: task.machines(),
        fit,
        claimed: Some(claimed),
        reference,
        outcomes,
    })
}

// Whether a problem and sizes are those of the task.
pub(crate) fn is_for<B: Allocator>(
    task: &ProblemTask<B>,
    problem: &Problem,
    jobs: u32,
    machines: u32,
) -> bool
    ensures { IsTrue result ↔ IsOfTask task.now problem.now jobs machines }
{
    is_same(problem, &task.problem()) && jobs as usize == task.len() && machines == task.machines()
}

// Whether two problems are the same, whether or not they name a number of machines.
fn is_same(one: &Problem, other: &Problem) -> bool
    ensures { IsTrue result ↔ IsSameProblem one.now other.now }
{
    if one.env != other.env || one.goal != other.goal {
        return false;
    }
    has_same_jobs(one, other) && has_same_shop(one, other)
}

// Whether two problems ask the same of each job.
fn has_same_jobs(one: &Problem, other: &Problem) -> bool
    ensures { IsTrue result ↔ HasSameJobs one.now other.now }
{
    if one.release != other.release || one.prec != other.prec {
        return false;
    }
    one.prmp == other.prmp
}

// Whether two problems ask the same of the machines of a shop.
fn has_same_shop(one: &Problem, other: &Problem) -> bool
    ensures { IsTrue result ↔ HasSameShop one.now other.now }
{
    if one.prmu != other.prmu || one.nwt != other.nwt {
        return false;
    }
    one.block == other.block && one.rcrc == other.rcrc
}

// How an answer stands to a task, and what happens to the jobs.
#[derive(Drop)]
struct JudgedSheet<A: Allocator> {
    fit: Option<ProblemFit>,
    outcomes: Vec<JobOutcome, A>,
}

// How the pieces of an answer, which is for the task or for another one, stand to it.
fn judge_sheet<A: Allocator + Copy, B: Allocator, C: Allocator>(
    alloc: A,
    task: &ProblemTask<B>,
    is_its: bool,
    pieces: Vec<Piece, C>,
) -> Result<JudgedSheet<A>, OutOfMemory>
    ensures fit { (sheet : SheetData) → sheet.answer.pieces ≡ pieces.items →
        (IsTrue is_its ↔ IsForProblem task.now sheet) →
        IfOk result (λ judged. HasProblemFit task.now sheet judged.fit) }
    ensures outcomes { IfOk result (λ judged.
        judged.outcomes.items ≡ problem_outcomes task.now pieces.items judged.fit) }
{
    if !is_its {
        return Ok(JudgedSheet {
            fit: None,
            outcomes: Vec::new(alloc),
        });
    }
    let judged = judge_problem_pieces(alloc, task, pieces)?;
    Ok(JudgedSheet {
        fit: Some(judged.fit),
        outcomes: judged.outcomes,
    })
}

/// How pieces stand to the task of a problem, and what happens to the jobs.
#[derive(Drop)]
pub struct JudgedPieces<A: Allocator> {
    pub fit: ProblemFit,
    /// The jobs from 1 on, where the pieces make a schedule.
    pub outcomes: Vec<JobOutcome, A>,
}

/// How pieces stand to the task, and what happens to the jobs. The pieces are given up, so that
/// they are sorted where they stand. Only want of memory is an error.
pub fn judge_problem_pieces<A: Allocator + Copy, B: Allocator, C: Allocator>(
    alloc: A,
    task: &ProblemTask<B>,
    pieces: Vec<Piece, C>,
) -> Result<JudgedPieces<A>, OutOfMemory>
    ensures fit { IfOk result (λ judged. IsProblemJudged task.now pieces.items judged.fit) }
    ensures outcomes { IfOk result (λ judged.
        judged.outcomes.items ≡ problem_outcomes task.now pieces.items (Some judged.fit)) }
{
    let Placed { fit, lanes } = place_pieces(alloc, task, pieces)?;
    let outcomes = match &lanes {
        Some(lanes) => outcomes(alloc, task, lanes)?,
        None => Vec::new(alloc),
    };
    Ok(JudgedPieces { fit, outcomes })
}

/// How pieces stand to the task. They are given up, so that they are sorted where they stand. Only
/// want of memory is an error.
pub fn judged<A: Allocator + Copy, B: Allocator, C: Allocator>(
    alloc: A,
    task: &ProblemTask<B>,
    pieces: Vec<Piece, C>,
) -> Result<ProblemFit, OutOfMemory>
    ensures { IfOk result (IsProblemJudged task.now pieces.items) }
{
    let placed = place_pieces(alloc, task, pieces)?;
    Ok(placed.fit)
}

// How pieces stand to the task, and when the jobs work, where they make a schedule.
#[derive(Drop)]
struct Placed<A: Allocator> {
    fit: ProblemFit,
    lanes: Option<Lanes<A>>,
}

fn place_pieces<A: Allocator + Copy, B: Allocator, C: Allocator>(
    alloc: A,
    task: &ProblemTask<B>,
    pieces: Vec<Piece, C>,
) -> Result<Placed<A>, OutOfMemory>
    ensures fit { IfOk result (λ placed. IsProblemJudged task.now pieces.items placed.fit) }
    ensures lanes { IfOk result (λ placed.
        HasProblemTable task.now pieces.items placed.fit placed.lanes) }
{
    let schedule = match Schedule::new(pieces) {
        Ok(schedule) => schedule,
        Err(fault) => {
            return Ok(Placed {
                fit: ProblemFit::NoSchedule(fault),
                lanes: None,
            });
        }
    };
    let ProblemJudged { misfit, jobs } = judge_problem(alloc, task, &schedule)?;
    Ok(Placed {
        fit: fit_by(task, &jobs, misfit),
        lanes: Some(jobs),
    })
}

// How a schedule stands to the task that has this first misfit, or none, and this table.
fn fit_by<A: Allocator, B: Allocator>(
    task: &ProblemTask<A>,
    jobs: &Lanes<B>,
    misfit: Option<ProblemMisfit>,
) -> ProblemFit
    ensures { (ps qs : List PieceData) → IsSorting task.now ps qs jobs.now misfit →
        IsProblemJudged task.now ps result
        × HasProblemTable task.now ps result (Some jobs.now) }
{
    match misfit {
        Some(misfit) => ProblemFit::Misfit(misfit),
        None => ProblemFit::Fits(cost_by(task.problem().goal, task, jobs)),
    }
}
