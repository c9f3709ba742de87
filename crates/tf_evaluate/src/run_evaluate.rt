//! Evaluating somebody's answer, from bytes to bytes.
ghost use Rattle.tf_text.specs.Counted.{use_of};
ghost use Rattle.tf_engine.specs.Refusal.{problem_for};
ghost use Rattle.tf_engine.specs.Devices.{LeavesBoth, LeavesCase};
ghost use Rattle.tf_engine.specs.Faults.{end_of};
ghost use Rattle.tf_engine.specs.Outputs.{MakesOutput};
ghost use Rattle.tf_engine.specs.Runs.{IsOutcome};
ghost use Rattle.tf_evaluate.specs.RunEvaluating.{evaluation_run};

use crate::evaluate::evaluate;
use crate::evaluation::{Detail, Standing};
use crate::writing::evaluation_bytes;
use std::alloc::{Allocator, Global};
use std::io::{Read, Write};
use tf_engine::case::{Case, case_read};
use tf_engine::fault::RunFault;
use tf_engine::output::{Output, write_output};
use tf_engine::request::Request;
use tf_text::counted::Counted;

/// What is asked for, and how much is reported of the certificate.
#[derive(Drop)]
pub struct EvaluationRequest<'a, A: Allocator = Global> {
    pub request: &'a Request<A>,
    pub detail: Detail,
}

/// Reads an instance and an answer to their ends, and writes the evaluation of the answer.
///
/// The refusals are those of [`tf_engine::run_check::run_check`] in their order, and after them a
/// cycle of the arcs, with which no timetable fits. After a refusal nothing was written, unless it
/// is [`RunFault::Device`], after which a prefix of the evaluation may have been. Any certificate
/// will do: one that bounds nothing is said to. Its arithmetic is written where `detail` asks for
/// it.
pub fn run_evaluate<A: Allocator + Copy, B: Allocator, R: Read, S: Read, W: Write>(
    alloc: A,
    asked: EvaluationRequest<'_, B>,
    instance: &mut Counted<R>,
    answer: &mut Counted<S>,
    writer: &mut Counted<W>,
) -> Result<Standing, RunFault<A>>
    ensures outcome { IsOutcome (evaluation_run asked.entry.detail asked.entry.request.now
        (use_of R.remaining instance.old instance.new)
        (use_of S.remaining answer.old answer.new)) (use_of W.contents writer.old writer.new)
        result }
    ensures devices { LeavesCase (problem_for asked.entry.request.now.problem) R.remaining
        instance.old instance.new S.remaining answer.old answer.new writer.old writer.new
        (end_of result) }
{
    write_output(writer, evaluation_output(alloc, asked, instance, answer))
}

// The text of the evaluation, and what the schedule comes to.
fn evaluation_output<A: Allocator + Copy, B: Allocator, R: Read, S: Read>(
    alloc: A,
    asked: EvaluationRequest<'_, B>,
    instance: &mut Counted<R>,
    answer: &mut Counted<S>,
) -> Result<Output<Standing, A>, RunFault<A>>
    ensures { MakesOutput (evaluation_run asked.entry.detail asked.entry.request.now
        (use_of R.remaining instance.old instance.new)
        (use_of S.remaining answer.old answer.new))
        (LeavesBoth (problem_for asked.entry.request.now.problem) R.remaining instance.old
        instance.new S.remaining answer.old answer.new) result }
{
    let EvaluationRequest { request, detail } = asked;
    let Case { asked, sheet } = case_read(alloc, request, instance, answer)?;
    let evaluation = evaluate(alloc, &asked.problem, &asked.task, sheet, detail)?;
    let text = evaluation_bytes(alloc, &evaluation)?;
    let returned = evaluation.standing();
    Ok(Output { text, returned })
}
