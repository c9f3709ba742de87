//! An answer, evaluated.
ghost use Rattle.std.specs.Prelude.{◌≡◌, ◌↔◌, IsTrue, IfOk, IfErr, None, Some};
ghost use Rattle.tf_model.specs.Sound.{IsSound};
ghost use Rattle.tf_check.specs.Bound.{bound_by};
ghost use Rattle.tf_check.specs.Certificate.{claim_of};
ghost use Rattle.tf_text.specs.AnswerText.{SheetData};
ghost use Rattle.tf_engine.specs.Checking.{IsFor};
ghost use Rattle.tf_engine.specs.Solvers.{IsNotSolved};
ghost use Rattle.tf_evaluate.specs.Evaluating.{EndsInBound, IsBoundOf, IsEvaluation, IsLeastCost};
ghost use Rattle.tf_evaluate.specs.Evaluating.{HasFit, HasStanding, HasGap, ShowsLeast, bound_for};
ghost use Rattle.tf_evaluate.specs.Evaluating.{IsJudgedAs, IsOptimum, outcomes_for, steps_for};
ghost use Rattle.tf_evaluate.specs.EvaluationData.{standing_of};

use crate::arithmetic::arithmetic;
use crate::evaluation::{Detail, Evaluation, JobOutcome, ProblemFit, problem_fit};
use crate::outcomes::outcomes;
use crate::reference::Optimum;
use crate::step::Step;
use std::alloc::Allocator;
use tf_check::answer::Answer;
use tf_check::certificate::Certificate;
use tf_check::fault::BoundFault;
use tf_check::judgement::{Judgement, judge_answer};
use tf_engine::run_check::is_for;
use tf_engine::solve::{SolveFault, solve};
use tf_model::memory::OutOfMemory;
use tf_model::problem::Problem;
use tf_model::task::Task;
use tf_schedule::piece::Piece;
use tf_text::answer::sheet::Sheet;

/// How an answer to a problem stands to its task. The answer is given up, so that its pieces are
/// sorted where they stand. A cycle of arcs is refused, since then no timetable fits.
pub fn evaluate<A: Allocator + Copy, B: Allocator, C: Allocator>(
    alloc: A,
    problem: &Problem,
    task: &Task<B>,
    sheet: Sheet<C>,
    detail: Detail,
) -> Result<Evaluation<Optimum<A>, A>, SolveFault<A>>
    ensures evaluation { IfOk result (IsEvaluation detail problem.now task.now sheet) }
    ensures standing { IfOk result
        (λ e. HasStanding task.now sheet (standing_of e.fit e.reference.best)
        × HasGap e.fit e.reference.best) }
    ensures arithmetic { IfOk result
        (λ e. EndsInBound detail e.reference.bound e.reference.steps) }
    ensures refused { IfErr result (IsNotSolved task.now) }
{
    let jobs = task.len() as u32;
    let is_its = is_for(task, &sheet);
    let Answer {
        pieces,
        value: claimed,
        certificate,
    } = sheet.into_answer();
    let Judged {
        fit,
        bound,
        outcomes,
    } = judge_sheet(alloc, task, is_its, pieces.into_vec(), &certificate)?;
    let best = best_beside(alloc, task, &fit, &bound)?;
    let steps = steps_of(alloc, task, &certificate, &bound, detail)?;
    Ok(Evaluation {
        problem: *problem,
        jobs,
        machines: task.machines(),
        fit,
        claimed: Some(claimed),
        reference: Optimum { best, bound, steps },
        outcomes,
    })
}

// The least cost of a timetable that fits: that of the schedule, where its certificate bounds as
// much.
fn best_beside<A: Allocator + Copy, B: Allocator>(
    alloc: A,
    task: &Task<B>,
    fit: &Option<ProblemFit>,
    bound: &Option<Result<i128, BoundFault>>,
) -> Result<i64, SolveFault<A>>
    requires shown { ShowsLeast task.now fit.now bound.now }
    ensures least { IfOk result (IsLeastCost task.now) }
    ensures refused { IfErr result (IsNotSolved task.now) }
{
    if let Some(ProblemFit::Fits(Some(value))) = fit
        && let Some(Ok(bound)) = bound
        && value <= bound
        && let Ok(best) = i64::try_from(*value)
    {
        return Ok(best);
    }
    least_cost(alloc, task)
}

// The least cost of a timetable that fits. A cycle of arcs is refused, since then none does.
fn least_cost<A: Allocator + Copy, B: Allocator>(
    alloc: A,
    task: &Task<B>,
) -> Result<i64, SolveFault<A>>
    ensures least { IfOk result (IsLeastCost task.now) }
    ensures refused { IfErr result (IsNotSolved task.now) }
{
    let answer = solve(alloc, task)?;
    Ok(answer.value)
}

/// The optimum of a task, with the arithmetic of a certificate that shows it where that is asked
/// for. A cycle of arcs is refused, since then no timetable fits.
pub fn find_optimum<A: Allocator + Copy, B: Allocator>(
    alloc: A,
    task: &Task<B>,
    detail: Detail,
) -> Result<Optimum<A>, SolveFault<A>>
    ensures shown { IfOk result (λ o. IsOptimum detail task.now o.best o.steps) }
    ensures alone { IfOk result (λ o. o.bound ≡ None) }
    ensures refused { IfErr result (IsNotSolved task.now) }
{
    // A task of which something is read is sound.
    let _class = task.class();
    let answer = solve(alloc, task)?;
    let Answer {
        value: best,
        certificate,
        ..
    } = answer;
    let bound = Some(Ok(i128::from(best)));
    let steps = steps_of(alloc, task, &certificate, &bound, detail)?;
    Ok(Optimum {
        best,
        bound: None,
        steps,
    })
}

// How an answer stands to a task, and what happens to the jobs.
#[derive(Drop)]
struct Judged<A: Allocator> {
    fit: Option<ProblemFit>,
    bound: Option<Result<i128, BoundFault>>,
    outcomes: Vec<JobOutcome, A>,
}

// Of the parts of an answer, which is for the task or for another one.
fn judge_sheet<A: Allocator + Copy, B: Allocator, C: Allocator, D: Allocator>(
    alloc: A,
    task: &Task<B>,
    is_its: bool,
    pieces: Vec<Piece, C>,
    certificate: &Certificate<D>,
) -> Result<Judged<A>, OutOfMemory>
    ensures fit { (sheet : SheetData) → sheet.answer.pieces ≡ pieces.items →
        (IsTrue is_its ↔ IsFor task.now sheet) →
        IfOk result (λ judged. HasFit task.now sheet judged.fit) }
    ensures bound { IfOk result
        (λ judged. judged.bound ≡ bound_for task.now (claim_of certificate.now) judged.fit) }
    ensures outcomes { IfOk result
        (λ judged. judged.outcomes.items ≡ outcomes_for task.now pieces.items judged.fit) }
{
    if !is_its {
        return Ok(Judged {
            fit: None,
            bound: None,
            outcomes: Vec::new(alloc),
        });
    }
    let judged = judge_pieces(alloc, task, pieces, certificate)?;
    Ok(Judged {
        fit: Some(judged.fit),
        bound: Some(judged.bound),
        outcomes: judged.outcomes,
    })
}

/// How pieces stand to a task, and what happens to the jobs.
#[derive(Drop)]
pub struct JudgedPieces<A: Allocator> {
    pub fit: ProblemFit,
    /// What the certificate bounds, or its first fault.
    pub bound: Result<i128, BoundFault>,
    /// The jobs from 1 on, where the pieces make a schedule.
    pub outcomes: Vec<JobOutcome, A>,
}

/// How pieces stand to a task, what a certificate bounds, and what happens to the jobs. Only want
/// of memory is an error.
pub fn judge_pieces<A: Allocator + Copy, B: Allocator, C: Allocator, D: Allocator>(
    alloc: A,
    task: &Task<B>,
    pieces: Vec<Piece, C>,
    certificate: &Certificate<D>,
) -> Result<JudgedPieces<A>, OutOfMemory>
    ensures fit { IfOk result (λ judged. IsJudgedAs task.now pieces.items judged.fit) }
    ensures bound { IfOk result
        (λ judged. judged.bound ≡ bound_by (claim_of certificate.now) task.now) }
    ensures outcomes { IfOk result
        (λ judged. judged.outcomes.items ≡ outcomes_for task.now pieces.items (Some judged.fit)) }
{
    let Judgement { fit, lanes, bound } = judge_answer(alloc, task, pieces, certificate)?;
    let outcomes = match &lanes {
        Some(lanes) => outcomes(alloc, task, lanes)?,
        None => Vec::new(alloc),
    };
    Ok(JudgedPieces {
        fit: problem_fit(fit),
        bound,
        outcomes,
    })
}

// The certificate's arithmetic, where it is asked for and there is a bound.
fn steps_of<A: Allocator + Copy, B: Allocator, C: Allocator>(
    alloc: A,
    task: &Task<B>,
    certificate: &Certificate<C>,
    bound: &Option<Result<i128, BoundFault>>,
    detail: Detail,
) -> Result<Vec<Step, A>, OutOfMemory>
    requires sound { IsSound task.now }
    requires bound { IsBoundOf task.now (claim_of certificate.now) bound.now }
    ensures steps { IfOk result
        (λ v. v.items ≡ steps_for detail bound.now task.now (claim_of certificate.now)) }
    ensures ends { IfOk result (λ v. EndsInBound detail bound.now v.items) }
{
    if let Detail::Summary = detail {
        return Ok(Vec::new(alloc));
    }
    match bound {
        Some(Ok(bound)) => arithmetic(alloc, task, certificate, *bound),
        _ => Ok(Vec::new(alloc)),
    }
}
