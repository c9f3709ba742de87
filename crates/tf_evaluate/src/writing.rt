//! Evaluations, written.
ghost use Rattle.std.specs.Prelude.{◌≡◌, [], ◌∷◌, ◌++◌, codes, map, IfOk, OnOk};
ghost use Rattle.std.specs.Fmt.{decimal};
ghost use Rattle.std.specs.List.{flat_map, join_with_byte};
ghost use Rattle.tf_text.specs.AnswerText.{line_text};
ghost use Rattle.tf_evaluate.specs.EvaluationText.{fit_words, claimed_lines, number_lines};
ghost use Rattle.tf_evaluate.specs.EvaluationText.{problem_misfit_words, gap_lines, bound_words};
ghost use Rattle.tf_evaluate.specs.EvaluationText.{bound_lines, outcome_words, judgement_lines};
ghost use Rattle.tf_evaluate.specs.EvaluationText.{step_words, terms_words, evaluation_text};

use crate::evaluation::{Evaluation, JobOutcome, ProblemFit, value_in};
use crate::reference::Reference;
use crate::step::{Step, Terms};
use itoa::Integer;
use std::alloc::Allocator;
use tf_check::fault::BoundFault;
use tf_engine::verdict_line::{push_bound_fault, push_misfit, push_piece_fault};
use tf_model::ids::JobId;
use tf_model::memory::OutOfMemory;
use tf_notation::writing::notation_text;
use tf_schedule::misfit::ProblemMisfit;
use tf_text::answer::writing::{push_number, push_number_line};

/// The text of an evaluation, by lines and words, each line ended by a line feed.
pub fn evaluation_bytes<R: Reference, A: Allocator + Copy, M: Allocator>(
    alloc: A,
    evaluation: &Evaluation<R, M>,
) -> Result<Vec<u8, A>, OutOfMemory>
    ensures { IfOk result (λ text. text.items ≡ evaluation_text R.lines evaluation.now) }
{
    let notation = notation_text(alloc, &evaluation.problem)?;
    let mut text = Vec::from_slice(alloc, b"evaluation 1\nproblem ")?;
    text.extend_from_slice(notation.as_bytes())?;
    text.push(b'\n')?;
    push_number_line(&mut text, b"jobs", evaluation.jobs)?;
    push_number_line(&mut text, b"machines", evaluation.machines)?;
    push_judgement(&mut text, evaluation)?;
    push_outcomes(&mut text, evaluation.outcomes.as_slice())?;
    text.extend_from_slice(b"end\n")?;
    Ok(text)
}

// How the pieces fit, what is claimed, the cost, and what it is held against.
fn push_judgement<R: Reference, A: Allocator, M: Allocator>(
    text: &mut Vec<u8, A>,
    evaluation: &Evaluation<R, M>,
) -> Result<(), OutOfMemory>
    ensures { OnOk result (text.new.items
        ≡ text.old.items ++ flat_map line_text (judgement_lines R.lines evaluation.now)) }
{
    push_fit(text, &evaluation.fit)?;
    push_claimed(text, evaluation.claimed)?;
    let value = value_in(&evaluation.fit);
    push_some(text, b"value", value)?;
    evaluation.reference.push(text, value)?;
    Ok(())
}

/// Adds the line `fits`, or `misfit` and why.
pub fn push_fit<A: Allocator>(
    text: &mut Vec<u8, A>,
    fit: &Option<ProblemFit>,
) -> Result<(), OutOfMemory>
    ensures { OnOk result (text.new.items ≡ text.old.items ++ line_text (fit_words fit.now)) }
{
    match fit {
        Some(ProblemFit::Fits(_)) => text.extend_from_slice(b"fits\n")?,
        None => text.extend_from_slice(b"misfit OtherTask\n")?,
        Some(ProblemFit::NoSchedule(fault)) => {
            text.extend_from_slice(b"misfit ")?;
            push_piece_fault(text, fault)?;
            text.push(b'\n')?;
        }
        Some(ProblemFit::Misfit(misfit)) => {
            text.extend_from_slice(b"misfit ")?;
            push_problem_misfit(text, misfit)?;
            text.push(b'\n')?;
        }
    }
    Ok(())
}

// A misfit by its name and its arguments.
fn push_problem_misfit<A: Allocator>(
    text: &mut Vec<u8, A>,
    misfit: &ProblemMisfit,
) -> Result<(), OutOfMemory>
    ensures { OnOk result (text.new.items
        ≡ text.old.items ++ join_with_byte 32 (problem_misfit_words misfit.now)) }
{
    match misfit {
        ProblemMisfit::Plain(misfit) => push_misfit(text, misfit)?,
        ProblemMisfit::OffRoute(job) => push_named(text, b"OffRoute", *job)?,
        ProblemMisfit::NoOneOrder => text.extend_from_slice(b"NoOneOrder")?,
        ProblemMisfit::Waits(job) => push_named(text, b"Waits", *job)?,
    }
    Ok(())
}

/// Adds a name and a job.
pub fn push_named<A: Allocator>(
    text: &mut Vec<u8, A>,
    name: &[u8],
    job: JobId,
) -> Result<(), OutOfMemory>
    ensures { OnOk result
        (text.new.items ≡ text.old.items ++ join_with_byte 32 (name.now ∷ decimal job ∷ [])) }
{
    text.extend_from_slice(name)?;
    push_number(text, job.get())
}

/// Adds a line of a number, where there is one.
pub fn push_some<A: Allocator>(
    text: &mut Vec<u8, A>,
    name: &[u8],
    number: Option<i128>,
) -> Result<(), OutOfMemory>
    ensures { OnOk result
        (text.new.items ≡ text.old.items ++ flat_map line_text (number_lines name.now number)) }
{
    match number {
        Some(number) => push_number_line(text, name, number),
        None => Ok(()),
    }
}

/// Adds the line of what is claimed, where something is.
pub fn push_claimed<A: Allocator>(
    text: &mut Vec<u8, A>,
    claimed: Option<i64>,
) -> Result<(), OutOfMemory>
    ensures { OnOk result
        (text.new.items ≡ text.old.items ++ flat_map line_text (claimed_lines claimed)) }
{
    match claimed {
        Some(claimed) => push_number_line(text, b"claimed", claimed),
        None => Ok(()),
    }
}

/// Adds the line of how far a cost is from the least one, or from a lower bound of it.
pub fn push_gap<A: Allocator>(
    text: &mut Vec<u8, A>,
    value: Option<i128>,
    least: i128,
) -> Result<(), OutOfMemory>
    ensures { OnOk result
        (text.new.items ≡ text.old.items ++ flat_map line_text (gap_lines value least)) }
{
    match value {
        Some(value) => push_number_line(text, b"gap", value.abs_diff(least)),
        None => Ok(()),
    }
}

/// Adds the line of what a certificate bounds, or of its first fault, where there is one.
pub(crate) fn push_bound<A: Allocator>(
    text: &mut Vec<u8, A>,
    bound: &Option<Result<i128, BoundFault>>,
) -> Result<(), OutOfMemory>
    ensures { OnOk result
        (text.new.items ≡ text.old.items ++ flat_map line_text (bound_lines bound.now)) }
{
    match bound {
        Some(Ok(bound)) => push_number_line(text, b"bound", *bound),
        Some(Err(fault)) => {
            text.extend_from_slice(b"bound ")?;
            push_bound_fault(text, fault)?;
            text.push(b'\n')?;
            Ok(())
        }
        None => Ok(()),
    }
}

/// Adds a line for each step of an arithmetic.
pub(crate) fn push_steps<A: Allocator>(
    text: &mut Vec<u8, A>,
    steps: &[Step],
) -> Result<(), OutOfMemory>
    ensures { OnOk result
        (text.new.items ≡ text.old.items ++ flat_map line_text (map step_words steps.now)) }
{
    for step in steps {
        push_step(text, step)?;
    }
    Ok(())
}

fn push_step<A: Allocator>(text: &mut Vec<u8, A>, step: &Step) -> Result<(), OutOfMemory>
    ensures { OnOk result (text.new.items ≡ text.old.items ++ line_text (step_words step.now)) }
{
    text.extend_from_slice(b"step")?;
    push_terms(text, &step.terms)?;
    push_quantity(text, b"=", step.result)?;
    text.push(b'\n')?;
    Ok(())
}

// What a step is made of, each word behind a blank.
fn push_terms<A: Allocator>(text: &mut Vec<u8, A>, terms: &Terms) -> Result<(), OutOfMemory>
    ensures { OnOk result (text.new.items
        ≡ text.old.items ++ flat_map (λ word. 32 ∷ word) (terms_words terms.now)) }
{
    match *terms {
        Terms::Load { work, machines } => {
            push_quantity(text, b"total processing time", work)?;
            push_share(text, b"/", machines)?;
        }
        Terms::JobTime { job, .. } => push_quantity(text, b"processing time of job", job.get())?,
        Terms::ShopTimes { job, first, second } => push_shop_times(text, job, first, second)?,
        Terms::MachineWork { machine, .. } => {
            push_quantity(text, b"total processing time on machine", machine.get())?;
        }
        Terms::Smith { own, waiting } => {
            push_quantity(text, b"total weighted processing time", own)?;
            push_quantity(
                text,
                b"+ total weighted waiting time in Smith's order",
                waiting,
            )?;
        }
        Terms::SetWork { .. } => push_phrase(text, b"total processing time of the set")?,
        Terms::LeastCost { completion, .. } => {
            push_quantity(text, b"least cost at time", completion)?;
            push_phrase(text, b"of a job of the set without a successor in it")?;
        }
        Terms::Window { release, work, due } => push_window(text, release, work, due)?,
        Terms::Split {
            side,
            others,
            delta,
        } => push_split(text, side, others, delta)?,
        Terms::GreatestFactor { jobs, machines } => {
            push_quantity(text, b"greatest factor", jobs)?;
            push_share(text, b"jobs /", machines)?;
        }
        Terms::Ranks { work, waiting } => {
            push_quantity(text, b"total processing time", work)?;
            push_quantity(text, b"+ least total waiting time", waiting)?;
        }
    }
    Ok(())
}

fn push_shop_times<A: Allocator>(
    text: &mut Vec<u8, A>,
    job: JobId,
    first: u64,
    second: u64,
) -> Result<(), OutOfMemory>
    ensures { OnOk result (text.new.items ≡ text.old.items
        ++ flat_map (λ word. 32 ∷ word) (terms_words (Terms.ShopTimes job first second))) }
{
    push_quantity(text, b"processing time of job", job.get())?;
    push_quantity(text, b"on machine 1", first)?;
    push_quantity(text, b"+ on machine 2", second)?;
    Ok(())
}

fn push_window<A: Allocator>(
    text: &mut Vec<u8, A>,
    release: u64,
    work: u64,
    due: i64,
) -> Result<(), OutOfMemory>
    ensures { OnOk result (text.new.items ≡ text.old.items
        ++ flat_map (λ word. 32 ∷ word) (terms_words (Terms.Window release work due))) }
{
    push_quantity(text, b"least release date", release)?;
    push_quantity(text, b"+ total processing time", work)?;
    push_quantity(text, b"- greatest due date", due)?;
    Ok(())
}

fn push_split<A: Allocator>(
    text: &mut Vec<u8, A>,
    side: u64,
    others: u128,
    delta: u64,
) -> Result<(), OutOfMemory>
    ensures { OnOk result (text.new.items ≡ text.old.items
        ++ flat_map (λ word. 32 ∷ word) (terms_words (Terms.Split side others delta))) }
{
    push_quantity(
        text,
        b"total processing time of the side on machine 1",
        side,
    )?;
    push_quantity(text, b"+ of the others on machine 2", others)?;
    push_quantity(text, b"+ delta", delta)?;
    Ok(())
}

// The machines among which what stands before is shared out.
fn push_share<A: Allocator>(
    text: &mut Vec<u8, A>,
    by: &[u8],
    machines: u32,
) -> Result<(), OutOfMemory>
    ensures { OnOk result (text.new.items ≡ text.old.items ++ flat_map (λ word. 32 ∷ word)
        (by.now ∷ decimal machines ∷ codes "machines, rounded up" ∷ [])) }
{
    push_quantity(text, by, machines)?;
    push_phrase(text, b"machines, rounded up")?;
    Ok(())
}

// A number behind what it is.
fn push_quantity<A: Allocator, I: Integer>(
    text: &mut Vec<u8, A>,
    name: &[u8],
    number: I,
) -> Result<(), OutOfMemory>
    ensures { OnOk result (text.new.items ≡ text.old.items
        ++ flat_map (λ word. 32 ∷ word) (name.now ∷ I.text number ∷ [])) }
{
    push_phrase(text, name)?;
    push_number(text, number)
}

// Words behind a blank.
fn push_phrase<A: Allocator>(text: &mut Vec<u8, A>, words: &[u8]) -> Result<(), OutOfMemory>
    ensures { OnOk result (text.new.items ≡ text.old.items
        ++ flat_map (λ word. 32 ∷ word) (words.now ∷ [])) }
{
    text.push(b' ')?;
    text.extend_from_slice(words)?;
    Ok(())
}

/// Adds a line for each job: its number, its first start, its completion and what it counts.
pub fn push_outcomes<A: Allocator>(
    text: &mut Vec<u8, A>,
    outcomes: &[JobOutcome],
) -> Result<(), OutOfMemory>
    ensures { OnOk result (text.new.items
        ≡ text.old.items ++ flat_map line_text (map outcome_words outcomes.now)) }
{
    for outcome in outcomes {
        push_outcome(text, outcome)?;
    }
    Ok(())
}

fn push_outcome<A: Allocator>(
    text: &mut Vec<u8, A>,
    outcome: &JobOutcome,
) -> Result<(), OutOfMemory>
    ensures { OnOk result
        (text.new.items ≡ text.old.items ++ line_text (outcome_words outcome.now)) }
{
    text.extend_from_slice(b"job")?;
    push_number(text, outcome.job.get())?;
    push_number(text, outcome.start)?;
    push_number(text, outcome.completion)?;
    push_number(text, outcome.price)?;
    text.push(b'\n')?;
    Ok(())
}
