//! Plans, written.
ghost use Rattle.std.specs.Prelude.{◌≡◌, ◌++◌, ℤ, List, length, IfOk, IfSome, IfNone, MatchResult};
ghost use Rattle.std.specs.Prelude.{OnOk};
ghost use Rattle.tf_words.specs.Words.{lines};
ghost use Rattle.tf_engine.specs.Faults.{stop_of};
ghost use Rattle.tf_posed.specs.ProblemCost.{IsProblemBest};
ghost use Rattle.tf_posed.specs.ProblemData.{ProblemData};
ghost use Rattle.tf_plan.specs.Plan.{IsPlan};
ghost use Rattle.tf_schedule.specs.Drawing.{drawing};
ghost use Rattle.tf_schedule.specs.declared.piece.Piece.{Piece};
ghost use Rattle.tf_search.specs.Strongest.{IsFound};
ghost use Rattle.tf_text.specs.AnswerText.{answer_text};
ghost use Rattle.tf_text.specs.Counted.{inner_of};
ghost use Rattle.tf_text.specs.declared.answer.layout.Layout.TheVariants.{Two};
ghost use Rattle.tf_planning.specs.Planning.{IsBeyond, StopsPlanning};
ghost use Rattle.tf_planning.specs.PlanText.{comment, comments, distance, plan_sheet, remarks};
ghost use Rattle.tf_planning.specs.PlanText.{standing_of};

use std::alloc::Allocator;
use tf_bound::task::ProblemTask;
use tf_bounding::writing::bound_bytes;
use tf_check::answer::Answer;
use tf_check::certificate::Certificate;
use tf_check::load::Load;
use tf_engine::fault::RunFault;
use tf_export::line::next_line;
use tf_model::memory::OutOfMemory;
use tf_model::prepare::Refusal;
use tf_plan::plan::Plan;
use tf_schedule::piece::Piece;
use tf_schedule::piece_list::PieceList;
use tf_search::strongest::Found;
use tf_text::answer::layout::Layout;
use tf_text::answer::sheet::Sheet;
use tf_text::answer::writing::{push_number_line, write_answer};
use tf_text::counted::Counted;

/// What is known of a plan.
#[derive(Clone, Copy, Debug, PartialEq, Eq)]
pub enum Planned {
    /// No schedule that fits costs less.
    Optimal,
    /// There may be one that costs less.
    Open,
}

/// What is known of a plan of this value beside the strongest bound that was found.
pub(crate) fn standing_of<A: Allocator>(value: i128, found: &Found<A>) -> Planned
    ensures is { result ≡ standing_of value found.now }
    ensures best { (k : ProblemData) (ps : List Piece) → IsPlan k ps value →
        IsFound k found.now → result ≡ Planned.Optimal →
        IsProblemBest k (drawing k.machines ps) value }
{
    if value == found.value {
        Planned::Optimal
    } else {
        Planned::Open
    }
}

// The value, where an answer can say it.
fn narrowed(value: i128) -> Option<i64>
    ensures same { IfSome result (λ narrow. narrow ≡ value) }
    ensures beyond { IfNone result (IsBeyond value) }
{
    i64::try_from(value).ok()
}

/// What the answer text of a plan says.
pub(crate) fn sheet_of<A: Allocator + Copy, B: Allocator>(
    alloc: A,
    task: &ProblemTask<B>,
    plan: &Plan<A>,
) -> Result<Sheet<A>, RunFault<A>>
    requires { IsPlan task.now plan.now.schedule plan.now.value }
    ensures { MatchResult result (λ sheet. sheet ≡ plan_sheet task.now (length task.now.jobs)
        plan.now.schedule plan.now.value) (λ e. StopsPlanning task.now (stop_of e)) }
{
    let Some(value) = narrowed(plan.value) else {
        return Err(RunFault::Task(Refusal::TotalTooLarge));
    };
    let pieces = copied(alloc, plan.schedule.pieces())?;
    Ok(Sheet {
        problem: task.problem(),
        jobs: task.len() as u32,
        machines: task.machines(),
        answer: Answer {
            pieces: PieceList::new(pieces),
            value,
            certificate: Certificate::Load(Load),
        },
    })
}

fn copied<A: Allocator>(alloc: A, pieces: &[Piece]) -> Result<Vec<Piece, A>, OutOfMemory>
    ensures { IfOk result (λ copy. copy.items ≡ pieces.now) }
{
    Ok(Vec::from_slice(alloc, pieces)?)
}

/// The text of a sheet and what is to be said behind it, kept in memory.
pub(crate) fn kept_text<A: Allocator + Copy>(
    alloc: A,
    sheet: &Sheet<A>,
    remarks: &[u8],
) -> Result<Counted<Vec<u8, A>>, OutOfMemory>
    ensures { IfOk result (λ kept.
        (inner_of kept).items ≡ answer_text Two sheet.now ++ remarks.now) }
{
    let mut kept = Counted::new(Vec::new(alloc));
    if write_answer(alloc, &mut kept, sheet, Layout::Two).is_err() {
        return Err(OutOfMemory);
    }
    match kept.push_all(remarks) {
        Ok(()) => Ok(kept),
        Err(_) => Err(OutOfMemory),
    }
}

/// What is said of a plan of this value: how far it is from the bound, and the text of the bound.
pub(crate) fn remarks_of<A: Allocator + Copy, B: Allocator>(
    alloc: A,
    task: &ProblemTask<B>,
    value: i128,
    found: &Found<A>,
) -> Result<Vec<u8, A>, OutOfMemory>
    ensures { IfOk result (λ text. text.items
        ≡ remarks task.now (length task.now.jobs) value found.now) }
{
    let bound = bound_bytes(alloc, task, found)?;
    let mut text = Vec::new(alloc);
    push_distance(&mut text, value, found.value)?;
    push_comments(&mut text, &bound)?;
    Ok(text)
}

// Adds how far a value is from a bound.
fn push_distance<A: Allocator>(
    text: &mut Vec<u8, A>,
    value: i128,
    bound: i128,
) -> Result<(), OutOfMemory>
    ensures { OnOk result (text.new.items ≡ text.old.items ++ distance value bound) }
{
    push_number_line(text, b"## gap", value.abs_diff(bound))
}

// Adds each line of a text as a comment.
fn push_comments<A: Allocator>(text: &mut Vec<u8, A>, said: &[u8]) -> Result<(), OutOfMemory>
    ensures { OnOk result (text.new.items ≡ text.old.items ++ comments (lines said.now)) }
{
    let mut rest = said;
    while !rest.is_empty() {
        let (line, more) = next_line(rest);
        push_comment(text, line)?;
        rest = more;
    }
    Ok(())
}

// Adds a line as a comment.
fn push_comment<A: Allocator>(text: &mut Vec<u8, A>, line: &[u8]) -> Result<(), OutOfMemory>
    ensures { OnOk result (text.new.items ≡ text.old.items ++ comment line.now) }
{
    text.extend_from_slice(b"# ")?;
    text.extend_from_slice(line)?;
    text.push(b'\n')?;
    Ok(())
}
