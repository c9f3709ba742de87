//! The working of a method, from bytes to bytes.
ghost use Rattle.std.specs.Prelude.{IfOk, MatchResult};
ghost use Rattle.tf_check.specs.Accepted.{IsAccepted, IsBestAnswer};
ghost use Rattle.tf_engine.specs.Devices.{LeavesInstance, LeavesRun};
ghost use Rattle.tf_engine.specs.Faults.{end_of, stop_of};
ghost use Rattle.tf_engine.specs.Outputs.{MakesOutput};
ghost use Rattle.tf_engine.specs.Runs.{IsOutcome};
ghost use Rattle.tf_engine.specs.Parts.{StopsBy};
ghost use Rattle.tf_engine.specs.Refusal.{problem_for};
ghost use Rattle.tf_text.specs.Counted.{use_of};
ghost use Rattle.tf_trace.specs.RunTracing.{EndsInValue, IsOfCycle, trace_run};

use crate::board::{Board, Style};
use crate::trace::write_trace;
use std::alloc::{AllocError, Global};
use std::io::{Read, Write};
use tf_check::answer::Answer;
use tf_engine::case::{Asked, asked_read};
use tf_engine::fault::RunFault;
use tf_engine::output::{Output, write_output};
use tf_engine::request::Request;
use tf_engine::solve::solve;
use tf_model::memory::OutOfMemory;
use tf_model::task::Task;
use tf_notation::writing::notation_text;
use tf_text::answer::writing::push_number_line;
use tf_text::counted::Counted;

/// Reads an instance to its end, solves it, and writes how the optimal schedule is found and why
/// none costs less; the last line is the optimal value.
///
/// The refusals are those of [`tf_engine::run_solve::run_solve`], in the same order. After a
/// refusal nothing was written, unless it is [`RunFault::Device`], after which a prefix may have
/// been.
pub fn run_trace<R: Read, W: Write>(
    alloc: Global,
    request: &Request,
    style: Style,
    reader: &mut Counted<R>,
    writer: &mut Counted<W>,
) -> Result<(), RunFault>
    ensures outcome { IsOutcome (trace_run request.now
        (use_of R.remaining reader.old reader.new))
        (use_of W.contents writer.old writer.new) result }
    ensures devices { LeavesRun (problem_for request.now.problem) R.remaining reader.old reader.new
        writer.old writer.new (end_of result) }
{
    write_output(writer, trace_output(alloc, request, style, reader))
}

// The text of the working.
fn trace_output<R: Read>(
    alloc: Global,
    request: &Request,
    style: Style,
    reader: &mut Counted<R>,
) -> Result<Output<()>, RunFault>
    ensures { MakesOutput (trace_run request.now (use_of R.remaining reader.old reader.new))
        (LeavesInstance (problem_for request.now.problem) R.remaining reader.old reader.new)
        result }
{
    let asked = asked_read(alloc, request, reader)?;
    let answer = answer_to(alloc, &asked.task)?;
    let text = trace_bytes(alloc, &asked, &answer, style)?;
    Ok(Output { text, returned: () })
}

// An optimal answer, or a cycle of arcs.
fn answer_to(alloc: Global, task: &Task) -> Result<Answer, RunFault>
    ensures accepted { IfOk result (IsAccepted task.now) }
    ensures best { MatchResult result (IsBestAnswer task.now)
        (λ e. StopsBy (IsOfCycle task.now) (stop_of e)) }
{
    let answer = solve(alloc, task)?;
    Ok(answer)
}

// A number of things, by their name where there is one.
fn push_count(text: &mut String, count: u64, name: &str) -> Result<(), AllocError> {
    let plural = if count == 1 { "" } else { "s" };
    write!(text, "{count} {name}{plural}")
}

// The working, and behind it the line of the value.
fn trace_bytes(
    alloc: Global,
    asked: &Asked,
    answer: &Answer,
    style: Style,
) -> Result<Vec<u8>, OutOfMemory>
    ensures { IfOk result (λ text. EndsInValue answer.now.value text.items) }
{
    let mut board = Board::new(alloc, style);
    let notation = notation_text(alloc, &asked.problem)?;
    let task = &asked.task;
    write!(board.text, "Problem {}, ", notation.as_str())?;
    push_count(&mut board.text, task.len() as u64, "job")?;
    if !task.class().is_single() {
        board.text.push_str(" and ")?;
        push_count(&mut board.text, u64::from(task.machines()), "machine")?;
    }
    board.text.push('.')?;
    board.end_sentence()?;
    write_trace(&mut board, task, answer)?;
    let mut text = board.into_page().into_bytes();
    push_number_line(&mut text, b"value", answer.value)?;
    Ok(text)
}
