//! Solving from bytes to bytes.
ghost use Rattle.tf_text.specs.Counted.{use_of};
ghost use Rattle.tf_text.specs.AnswerText.{answer_text};
ghost use Rattle.tf_engine.specs.Refusal.{problem_for};
ghost use Rattle.tf_engine.specs.Faults.{end_of};
ghost use Rattle.tf_engine.specs.Devices.{LeavesInstance, LeavesRun};
ghost use Rattle.tf_engine.specs.Headline.{solve_run};
ghost use Rattle.tf_engine.specs.Parts.{IsSolved};
ghost use Rattle.tf_engine.specs.Outputs.{Ends, Makes};
ghost use Rattle.tf_engine.specs.Runs.{IsOutcome};

use crate::case::asked_read;
use crate::fault::RunFault;
use crate::request::Request;
use crate::solve::solve;
use std::alloc::Allocator;
use std::io::{Read, Write};
use tf_text::answer::layout::Layout;
use tf_text::answer::sheet::Sheet;
use tf_text::answer::writing::write_answer;
use tf_text::counted::Counted;

/// Reads an instance to its end, solves it, and writes the answer in the request's layout and
/// nothing else.
///
/// The refusals come in this order: notation, class, reading the input, its text, the rest of what
/// makes no task. A notation fault and a missing class are answered before anything is read. After
/// a refusal nothing was written, unless it is [`RunFault::Device`], after which a prefix of the
/// answer may have been.
pub fn run_solve<A: Allocator + Copy, B: Allocator, R: Read, W: Write>(
    alloc: A,
    request: &Request<B>,
    reader: &mut Counted<R>,
    writer: &mut Counted<W>,
) -> Result<(), RunFault<A>>
    ensures outcome { IsOutcome (solve_run request.now
        (use_of R.remaining reader.old reader.new))
        (use_of W.contents writer.old writer.new) result }
    ensures devices { LeavesRun (problem_for request.now.problem) R.remaining reader.old reader.new
        writer.old writer.new (end_of result) }
{
    let sheet = solved_sheet(alloc, request, reader);
    write_sheet(alloc, writer, sheet, request.layout)
}

// The sheet that answers an instance.
fn solved_sheet<A: Allocator + Copy, B: Allocator, R: Read>(
    alloc: A,
    request: &Request<B>,
    reader: &mut Counted<R>,
) -> Result<Sheet<A>, RunFault<A>>
    ensures { Makes (solve_run request.now (use_of R.remaining reader.old reader.new))
        (IsSolved request.now) (LeavesInstance (problem_for request.now.problem) R.remaining
        reader.old reader.new) result }
{
    let asked = asked_read(alloc, request, reader)?;
    let answer = solve(alloc, &asked.task)?;
    // A number that is read is known to fit its type, as the text of the sheet asks.
    let _value = answer.value;
    Ok(Sheet {
        problem: asked.problem,
        jobs: asked.task.len() as u32,
        machines: asked.task.machines(),
        answer,
    })
}

// Writes a sheet, or passes on why there is none.
fn write_sheet<A: Allocator + Copy, W: Write>(
    alloc: A,
    writer: &mut Counted<W>,
    sheet: Result<Sheet<A>, RunFault<A>>,
    layout: Layout,
) -> Result<(), RunFault<A>>
    ensures { Ends (λ sheet. tt) (answer_text layout) W.contents writer.old writer.new sheet
        result }
{
    let sheet = sheet?;
    write_answer(alloc, writer, &sheet, layout)?;
    Ok(())
}
