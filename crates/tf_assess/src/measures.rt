//! What a schedule comes to by each objective that its instance has the fields for.
ghost use Rattle.std.specs.Prelude.{◌≡◌, ◌∷◌, ◌++◌, List, Ok, true, MatchOption, IfOk, IfSome};
ghost use Rattle.std.specs.Prelude.{IsErr, OnOk};
ghost use Rattle.std.specs.List.{flat_map};
ghost use Rattle.tf_bounding.specs.ShopTimes.{timed_said};
ghost use Rattle.tf_engine.specs.Faults.{is_refusal, stop_of};
ghost use Rattle.tf_engine.specs.FormData.{form_of};
ghost use Rattle.tf_schedule.specs.declared.piece.Piece.{Piece as PieceData};
ghost use Rattle.tf_assess.specs.Measures.{AreMeasures, AreMeasuredBy, IsMeasure};
ghost use Rattle.tf_assess.specs.Measures.{IsPosed, IsUnposed, from_zero};
ghost use Rattle.tf_assess.specs.Placed.{IsPlacedOf, IsSorted};
ghost use Rattle.tf_assess.specs.Measures.{measure_line, measure_lines, measured_text};
ghost use Rattle.tf_assess.specs.Measures.{measured_words, measure_words, tardiness, value_word};

use crate::placed::{Placed, first_placed, placed_by, serves};
use std::alloc::{Allocator, Global};
use std::marker::Model;
use tf_bounding::timed_read::timed_read;
use tf_engine::fault::RunFault;
use tf_engine::request::{Form, Request};
use tf_model::memory::OutOfMemory;
use tf_model::problem::{Env, Goal, Problem};
use tf_notation::reading::read;
use tf_prepare::timed::TimedInstance;
use tf_schedule::piece::Piece;
use tf_schedule::schedule::{PieceFault, Schedule};
use tf_text::answer::writing::{push_number, push_number_line};
use tf_text::counted::Counted;

/// The last line of an evaluation.
const END: &[u8] = b"end\n";

/// An instance, and how a problem reads it.
#[derive(Drop)]
pub struct PosedInstance<A: Allocator = Global> {
    pub(crate) timed: TimedInstance<A>,
    pub(crate) problem: Problem,
    pub(crate) machines: Option<u32>,
}

impl<A: Allocator> Model for PosedInstance<A> {
    ghost use Rattle.tf_assess.specs.Measures.{PosedData};

    ghost Value = { PosedData };

    ghost view = { λ p.
        record { timed = p.timed; problem = p.problem; machines = p.machines } };
}

/// What a schedule comes to by each objective, in the objective's units. None where the instance
/// has not its fields, the schedule does not fit, or the cost is 2^127 or more.
#[derive(Clone, Copy, Debug, PartialEq, Eq)]
pub struct Measures {
    pub makespan: Option<i128>,
    pub lateness: Option<i128>,
    pub completion: Option<i128>,
    pub weighted_completion: Option<i128>,
    pub tardiness: Option<i128>,
    pub weighted_tardiness: Option<i128>,
    pub late: Option<i128>,
    pub weighted_late: Option<i128>,
}

/// What a request and an instance text mean, if they are well formed.
pub fn posed_in<A: Allocator + Copy, B: Allocator>(
    alloc: A,
    request: &Request<B>,
    text: &[u8],
) -> Result<Option<PosedInstance<A>>, OutOfMemory>
    ensures { IfOk result (λ found. MatchOption found (IsUnposed request.now text.now)
        (IsPosed request.now text.now)) }
{
    let Ok(problem) = read(request.problem.as_str().as_bytes()) else {
        return Ok(None);
    };
    let Some(timed) = timed_in(alloc, &request.form, problem.env, text)? else {
        return Ok(None);
    };
    Ok(Some(PosedInstance {
        timed,
        problem,
        machines: request.machines,
    }))
}

// The instance of a text of this form, with the times or routes that the environment asks for, if
// the text is well formed.
fn timed_in<A: Allocator + Copy, B: Allocator>(
    alloc: A,
    form: &Form<B>,
    env: Env,
    text: &[u8],
) -> Result<Option<TimedInstance<A>>, OutOfMemory>
    ensures { IfOk result (λ found. MatchOption found
        (IsErr (timed_said (form_of form.now) env text.now))
        (λ timed. timed_said (form_of form.now) env text.now ≡ Ok timed)) }
{
    let mut reader = Counted::new(text);
    match timed_read(alloc, form, env, &mut reader) {
        Ok(timed) => Ok(Some(timed)),
        Err(fault) => {
            refused(&fault)?;
            Ok(None)
        }
    }
}

// Whether a fault is a refusal; else a text in memory was not read for want of memory.
fn refused<A: Allocator>(fault: &RunFault<A>) -> Result<(), OutOfMemory>
    ensures { OnOk result (is_refusal (stop_of fault.now) ≡ true) }
{
    match fault {
        RunFault::Device | RunFault::OutOfMemory => Err(OutOfMemory),
        _ => Ok(()),
    }
}

/// What the schedule of these pieces comes to by each objective.
pub fn measures_of<A: Allocator + Copy, B: Allocator>(
    alloc: A,
    posed: &PosedInstance<B>,
    pieces: &[Piece],
) -> Result<Measures, OutOfMemory>
    ensures { IfOk result (AreMeasures posed.now pieces.now) }
{
    let schedule = Schedule::new(Vec::from_slice(alloc, pieces)?);
    let shared = first_placed(alloc, posed, &schedule)?;
    Ok(Measures {
        makespan: value_by(alloc, posed, &schedule, &shared, Goal::Cmax)?,
        lateness: value_by(alloc, posed, &schedule, &shared, Goal::Lmax)?,
        completion: value_by(alloc, posed, &schedule, &shared, Goal::SumC)?,
        weighted_completion: value_by(alloc, posed, &schedule, &shared, Goal::SumWC)?,
        tardiness: value_by(alloc, posed, &schedule, &shared, Goal::SumT)?,
        weighted_tardiness: value_by(alloc, posed, &schedule, &shared, Goal::SumWT)?,
        late: value_by(alloc, posed, &schedule, &shared, Goal::SumU)?,
        weighted_late: value_by(alloc, posed, &schedule, &shared, Goal::SumWU)?,
    })
}

/// The same, where they are asked for.
pub fn measured_by<A: Allocator + Copy, B: Allocator>(
    alloc: A,
    posed: &Option<PosedInstance<B>>,
    pieces: &[Piece],
) -> Result<Option<Measures>, OutOfMemory>
    ensures { IfOk result (AreMeasuredBy posed.now pieces.now) }
{
    match posed {
        None => Ok(None),
        Some(posed) => Ok(Some(measures_of(alloc, posed, pieces)?)),
    }
}

// What the pieces of a schedule cost by an objective: on the shared task where that has the fields,
// else on the objective's own.
fn value_by<A: Allocator + Copy, B: Allocator>(
    alloc: A,
    posed: &PosedInstance<B>,
    schedule: &Result<Schedule<A>, PieceFault>,
    shared: &Option<Placed<A>>,
    goal: Goal,
) -> Result<Option<i128>, OutOfMemory>
    ensures { (ps : List PieceData) → IsSorted ps schedule.now →
        IfSome shared.now (IsPlacedOf posed.now ps) →
        IfOk result (IsMeasure posed.now ps goal) }
{
    match shared {
        Some(shared) if serves(shared.goal, goal) => Ok(shared.value(goal)),
        _ => own_value(alloc, posed, schedule, goal),
    }
}

// What they cost on the task that the instance makes by the objective itself.
fn own_value<A: Allocator + Copy, B: Allocator>(
    alloc: A,
    posed: &PosedInstance<B>,
    schedule: &Result<Schedule<A>, PieceFault>,
    goal: Goal,
) -> Result<Option<i128>, OutOfMemory>
    ensures { (ps : List PieceData) → IsSorted ps schedule.now →
        IfOk result (IsMeasure posed.now ps goal) }
{
    match placed_by(alloc, posed, schedule, goal)? {
        Some(own) => Ok(own.value(goal)),
        None => Ok(None),
    }
}

// The number, or 0 where it is negative.
fn from_zero(value: i128) -> i128
    ensures { result ≡ from_zero value }
{
    if value < 0 { 0 } else { value }
}

// ---- as lines

/// The text of an evaluation with a line `measure NAME VALUE` before its last line for each
/// objective that the schedule has a value by.
pub fn with_measures<A: Allocator>(
    mut text: Vec<u8, A>,
    measures: &Option<Measures>,
) -> Result<Vec<u8, A>, OutOfMemory>
    ensures { IfOk result (λ all. all.items ≡ measured_text text.items measures.now) }
{
    let Some(measures) = measures else {
        return Ok(text);
    };
    if text.len() < END.len() {
        return Ok(text);
    }
    text.truncate(text.len() - END.len());
    push_lines(&mut text, measures)?;
    text.extend_from_slice(END)?;
    Ok(text)
}

// Adds the lines of the values that are known.
fn push_lines<A: Allocator>(text: &mut Vec<u8, A>, measures: &Measures) -> Result<(), OutOfMemory>
    ensures { OnOk result (text.new.items ≡ text.old.items ++ measure_lines measures.now) }
{
    push_line(text, b"measure Cmax", measures.makespan)?;
    push_line(text, b"measure Lmax", measures.lateness)?;
    push_line(text, b"measure Tmax", tardiness(measures.lateness))?;
    push_line(text, b"measure sumC", measures.completion)?;
    push_line(text, b"measure sumwC", measures.weighted_completion)?;
    push_line(text, b"measure sumT", measures.tardiness)?;
    push_line(text, b"measure sumwT", measures.weighted_tardiness)?;
    push_line(text, b"measure sumU", measures.late)?;
    push_line(text, b"measure sumwU", measures.weighted_late)?;
    Ok(())
}

fn push_line<A: Allocator>(
    text: &mut Vec<u8, A>,
    name: &[u8],
    value: Option<i128>,
) -> Result<(), OutOfMemory>
    ensures { OnOk result (text.new.items ≡ text.old.items ++ measure_line name.now value) }
{
    match value {
        Some(value) => push_number_line(text, name, value),
        None => Ok(()),
    }
}

// The maximum tardiness by the maximum lateness.
fn tardiness(lateness: Option<i128>) -> Option<i128>
    ensures { result ≡ tardiness lateness }
{
    match lateness {
        Some(value) => Some(from_zero(value)),
        None => None,
    }
}

// ---- as words of one line

/// Adds a blank and the value by each objective, or `-` where there is none, where they are asked
/// for: the makespan, the maximum lateness and tardiness, and the sums of completion times,
/// tardiness and late jobs, each also weighted.
pub fn push_values<A: Allocator>(
    text: &mut Vec<u8, A>,
    measures: &Option<Measures>,
) -> Result<(), OutOfMemory>
    ensures { OnOk result (text.new.items
        ≡ text.old.items ++ flat_map (λ word. 32 ∷ word) (measured_words measures.now)) }
{
    match measures {
        None => Ok(()),
        Some(measures) => push_all_values(text, measures),
    }
}

fn push_all_values<A: Allocator>(
    text: &mut Vec<u8, A>,
    measures: &Measures,
) -> Result<(), OutOfMemory>
    ensures { OnOk result (text.new.items
        ≡ text.old.items ++ flat_map (λ word. 32 ∷ word) (measure_words measures.now)) }
{
    push_value(text, measures.makespan)?;
    push_value(text, measures.lateness)?;
    push_value(text, tardiness(measures.lateness))?;
    push_value(text, measures.completion)?;
    push_value(text, measures.weighted_completion)?;
    push_value(text, measures.tardiness)?;
    push_value(text, measures.weighted_tardiness)?;
    push_value(text, measures.late)?;
    push_value(text, measures.weighted_late)?;
    Ok(())
}

fn push_value<A: Allocator>(text: &mut Vec<u8, A>, value: Option<i128>) -> Result<(), OutOfMemory>
    ensures { OnOk result (text.new.items ≡ text.old.items ++ 32 ∷ value_word value) }
{
    match value {
        Some(value) => push_number(text, value),
        None => {
            text.extend_from_slice(b" -")?;
            Ok(())
        }
    }
}
