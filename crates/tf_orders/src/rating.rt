//! How good the schedules of orders are.
ghost use Rattle.std.specs.Prelude.{◌≡◌, ◌++◌, ◌≤◌, length, List, ℕ, Ok, IfOk, OnOk, MatchResult};
ghost use Rattle.tf_words.specs.Words.{kept_lines, lines};
ghost use Rattle.tf_model.specs.Limit.{most_bytes};
ghost use Rattle.tf_engine.specs.Faults.{stop_of};
ghost use Rattle.tf_evaluate.specs.Evaluating.{IsJudgedAs};
ghost use Rattle.tf_orders.specs.OrderParts.{IsUndrawn, IsUnrated, IsWithoutRow};
ghost use Rattle.tf_orders.specs.Pieces.{pieces_of};
ghost use Rattle.tf_orders.specs.OrderText.{AreNumberedRows, AreRated, AreRows, IsBesideBound};
ghost use Rattle.tf_orders.specs.OrderText.{IsBesideOptimum, IsEvaluatedAs, IsLineOf, IsRowOf};
ghost use Rattle.tf_evaluate.specs.declared.evaluation.Detail.{Detail};

use crate::grading::push_graded;
use crate::measure::Measure;
use crate::numbering::with_numbers;
use crate::pieces::pieces_in;
use crate::ruled::ruled;
use crate::run_orders::{OrderForm, OrdersRated};
use crate::schedules::scheduled;
use crate::writing::push_row;
use std::alloc::Allocator;
use tf_assess::assess::{judge_problem_pieces, judged};
use tf_assess::measures::{measured_by, with_measures};
use tf_assess::offered::Weighed;
use tf_bound::task::ProblemTask;
use tf_check::certificate::Certificate;
use tf_check::judgement::{Judgement, judge_answer};
use tf_check::load::Load;
use tf_engine::fault::RunFault;
use tf_engine::output::Output;
use tf_evaluate::evaluate::judge_pieces;
use tf_evaluate::evaluation::{Evaluation, ProblemFit, problem_fit};
use tf_evaluate::reference::Optimum;
use tf_evaluate::step::Step;
use tf_evaluate::writing::evaluation_bytes;
use tf_model::memory::OutOfMemory;
use tf_model::problem::Problem;
use tf_model::task::Task;
use tf_schedule::piece::Piece;
use tf_sequencing::rule::Rule;
use tf_text::answer::fault::AnswerFault;
use tf_words::line::{Line, Lines};

/// Rates the orders or the pieces of a text. The first malformed line is refused.
pub(crate) fn rating_of<A: Allocator + Copy>(
    alloc: A,
    form: OrderForm,
    measure: Measure<A>,
    text: &[u8],
) -> Result<Output<OrdersRated, A>, RunFault<A>>
    requires { length text.now ≤ most_bytes }
    ensures { MatchResult result (λ r. AreRated form measure text.now r.text.items r.returned)
        (λ e. IsUnrated form measure text.now (stop_of e)) }
{
    match form {
        OrderForm::Single(_) => single_rating(alloc, measure, text),
        OrderForm::Ruled(rule, _) => ruled_rating(alloc, measure, rule, text),
        OrderForm::Pieces(_) => pieces_rating(alloc, measure, text),
        OrderForm::Lines { goes_on } => {
            let text = rows_of(alloc, &measure, goes_on, text)?;
            Ok(Output {
                text,
                returned: OrdersRated::Lines,
            })
        }
        OrderForm::Numbered { goes_on } => {
            let text = numbered_rows_of(alloc, &measure, goes_on, text)?;
            Ok(Output {
                text,
                returned: OrdersRated::Lines,
            })
        }
    }
}

// Evaluates the schedule of the order that the whole text says.
fn single_rating<A: Allocator + Copy>(
    alloc: A,
    measure: Measure<A>,
    text: &[u8],
) -> Result<Output<OrdersRated, A>, RunFault<A>>
    ensures { (detail : Detail) → MatchResult result
        (λ r. AreRated (OrderForm.Single detail) measure text.now r.text.items r.returned)
        (λ e. IsUnrated (OrderForm.Single detail) measure text.now (stop_of e)) }
{
    let Some(pieces) = scheduled(alloc, &measure, text)? else {
        return Err(RunFault::Answer(AnswerFault::BadLine(1)));
    };
    let rating = evaluated(alloc, measure, pieces)?;
    Ok(rating)
}

// Evaluates the schedule of the order that a rule gives, whatever the text is.
fn ruled_rating<A: Allocator + Copy>(
    alloc: A,
    measure: Measure<A>,
    rule: Rule,
    text: &[u8],
) -> Result<Output<OrdersRated, A>, RunFault<A>>
    ensures { (detail : Detail) → MatchResult result
        (λ r. AreRated (OrderForm.Ruled rule detail) measure text.now r.text.items r.returned)
        (λ e. IsUnrated (OrderForm.Ruled rule detail) measure text.now (stop_of e)) }
{
    let pieces = ruled(alloc, &measure, rule)?;
    let rating = evaluated(alloc, measure, pieces)?;
    Ok(rating)
}

// The pieces that the text says.
fn drawn<A: Allocator + Copy>(alloc: A, text: &[u8]) -> Result<Vec<Piece, A>, RunFault<A>>
    requires { length text.now ≤ most_bytes }
    ensures { MatchResult result (λ ps. pieces_of (kept_lines 1 (lines text.now)) ≡ Ok ps.items)
        (λ e. IsUndrawn text.now (stop_of e)) }
{
    let pieces = pieces_in(alloc, text)?;
    Ok(pieces)
}

// Evaluates the schedule of the pieces that the text says.
fn pieces_rating<A: Allocator + Copy>(
    alloc: A,
    measure: Measure<A>,
    text: &[u8],
) -> Result<Output<OrdersRated, A>, RunFault<A>>
    requires { length text.now ≤ most_bytes }
    ensures { (detail : Detail) → MatchResult result
        (λ r. AreRated (OrderForm.Pieces detail) measure text.now r.text.items r.returned)
        (λ e. IsUnrated (OrderForm.Pieces detail) measure text.now (stop_of e)) }
{
    let pieces = drawn(alloc, text)?;
    let rating = evaluated(alloc, measure, pieces)?;
    Ok(rating)
}

// Evaluates a schedule.
fn evaluated<A: Allocator + Copy>(
    alloc: A,
    measure: Measure<A>,
    pieces: Vec<Piece, A>,
) -> Result<Output<OrdersRated, A>, OutOfMemory>
    ensures { IfOk result (λ r. IsEvaluatedAs measure pieces.items r.text.items r.returned) }
{
    match measure {
        Measure::Optimum {
            problem,
            task,
            best,
            steps,
            others,
        } => {
            let measures = measured_by(alloc, &others, &pieces)?;
            let evaluation = evaluation_of(alloc, problem, &task, best, steps, pieces)?;
            let text = with_measures(evaluation_bytes(alloc, &evaluation)?, &measures)?;
            let returned = OrdersRated::Single(evaluation.standing());
            Ok(Output { text, returned })
        }
        Measure::Bound {
            task,
            weighed,
            others,
        } => {
            let measures = measured_by(alloc, &others, &pieces)?;
            let evaluation = evaluation_beside(alloc, &task, weighed, pieces)?;
            let text = with_measures(evaluation_bytes(alloc, &evaluation)?, &measures)?;
            let returned = OrdersRated::Single(evaluation.standing());
            Ok(Output { text, returned })
        }
    }
}

// How a schedule stands to a task of a class.
fn evaluation_of<A: Allocator + Copy, B: Allocator>(
    alloc: A,
    problem: Problem,
    task: &Task<B>,
    best: i64,
    steps: Vec<Step, A>,
    pieces: Vec<Piece, A>,
) -> Result<Evaluation<Optimum<A>, A>, OutOfMemory>
    ensures { IfOk result
        (IsBesideOptimum problem task.now best steps.items pieces.items) }
{
    // What this certificate bounds is not looked at.
    let load: Certificate<A> = Certificate::Load(Load);
    let judged = judge_pieces(alloc, task, pieces, &load)?;
    Ok(Evaluation {
        problem,
        jobs: task.len() as u32,
        machines: task.machines(),
        fit: Some(judged.fit),
        claimed: None,
        reference: Optimum {
            best,
            bound: None,
            steps,
        },
        outcomes: judged.outcomes,
    })
}

// How a schedule stands to a task beside a lower bound.
fn evaluation_beside<A: Allocator + Copy, B: Allocator>(
    alloc: A,
    task: &ProblemTask<B>,
    weighed: Weighed<A>,
    pieces: Vec<Piece, A>,
) -> Result<Evaluation<Weighed<A>, A>, OutOfMemory>
    ensures { IfOk result (IsBesideBound task.now weighed pieces.items) }
{
    let judged = judge_problem_pieces(alloc, task, pieces)?;
    Ok(Evaluation {
        problem: task.problem(),
        jobs: task.len() as u32,
        machines: task.machines(),
        fit: Some(judged.fit),
        claimed: None,
        reference: weighed,
        outcomes: judged.outcomes,
    })
}

// The lines of the orders of a text, of which each line that has a word and is no comment is one.
fn rows_of<A: Allocator + Copy, B: Allocator>(
    alloc: A,
    measure: &Measure<B>,
    goes_on: bool,
    text: &[u8],
) -> Result<Vec<u8, A>, RunFault<A>>
    requires { length text.now ≤ most_bytes }
    ensures { MatchResult result
        (λ out. AreRows goes_on measure.now (kept_lines 1 (lines text.now)) out.items)
        (λ e. IsUnrated (OrderForm.Lines goes_on) measure.now text.now (stop_of e)) }
{
    let mut out = Vec::new(alloc);
    let mut lines = Lines::new(text);
    while let Some((line, more)) = lines.split_first() {
        push_line(&mut out, measure, alloc, goes_on, &line)?;
        lines = more;
    }
    Ok(out)
}

// The same with their numbers, behind a line of the optimum or the lower bound.
fn numbered_rows_of<A: Allocator + Copy, B: Allocator>(
    alloc: A,
    measure: &Measure<B>,
    goes_on: bool,
    text: &[u8],
) -> Result<Vec<u8, A>, RunFault<A>>
    requires { length text.now ≤ most_bytes }
    ensures { MatchResult result
        (λ out. AreNumberedRows goes_on measure.now (kept_lines 1 (lines text.now)) out.items)
        (λ e. IsUnrated (OrderForm.Numbered goes_on) measure.now text.now (stop_of e)) }
{
    let rows = rows_of(alloc, measure, goes_on, text)?;
    let numbered = with_numbers(alloc, measure, &rows, text)?;
    Ok(numbered)
}

// Adds the line of the order that a line says, or what is wrong with it.
fn push_line<A: Allocator + Copy, B: Allocator>(
    out: &mut Vec<u8, A>,
    measure: &Measure<B>,
    alloc: A,
    goes_on: bool,
    line: &Line<'_>,
) -> Result<(), RunFault<A>>
    ensures { MatchResult result
        (λ _. (row : List ℕ) × IsLineOf goes_on measure.now line.now.bytes.now row
        × (out.new.items ≡ out.old.items ++ row))
        (λ e. IsWithoutRow goes_on measure.now line.now.number line.now.bytes.now (stop_of e)) }
{
    if goes_on {
        push_graded(out, measure, alloc, line.bytes)?;
        return Ok(());
    }
    let Some(pieces) = scheduled(alloc, measure, line.bytes)? else {
        return Err(RunFault::Answer(AnswerFault::BadLine(line.number)));
    };
    push_rated(out, measure, alloc, pieces)?;
    Ok(())
}

/// Adds the line of a schedule.
pub(crate) fn push_rated<A: Allocator + Copy, B: Allocator>(
    out: &mut Vec<u8, A>,
    measure: &Measure<B>,
    alloc: A,
    pieces: Vec<Piece, A>,
) -> Result<(), OutOfMemory>
    ensures { OnOk result ((row : List ℕ) × IsRowOf measure.now pieces.items row
        × (out.new.items ≡ out.old.items ++ row)) }
{
    match measure {
        Measure::Optimum {
            task,
            best,
            others,
            ..
        } => {
            let measures = measured_by(alloc, others, &pieces)?;
            let fit = fit_of(alloc, task, pieces)?;
            push_row(out, fit, i128::from(*best), &measures)
        }
        Measure::Bound {
            task,
            weighed,
            others,
        } => {
            let measures = measured_by(alloc, others, &pieces)?;
            let fit = judged(alloc, task, pieces)?;
            push_row(out, fit, weighed.bound.value, &measures)
        }
    }
}

// How a schedule fits a task of a class.
fn fit_of<A: Allocator + Copy, B: Allocator>(
    alloc: A,
    task: &Task<B>,
    pieces: Vec<Piece, A>,
) -> Result<ProblemFit, OutOfMemory>
    ensures { IfOk result (IsJudgedAs task.now pieces.items) }
{
    // What this certificate bounds is not looked at.
    let load: Certificate<A> = Certificate::Load(Load);
    let Judgement { fit, .. } = judge_answer(alloc, task, pieces, &load)?;
    Ok(problem_fit(fit))
}
