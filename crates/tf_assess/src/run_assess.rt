//! Assessing somebody's answer to a problem without a solver, from bytes to bytes.
ghost use Rattle.tf_text.specs.Counted.{use_of};
ghost use Rattle.tf_engine.specs.Devices.{LeavesBoth, LeavesCase};
ghost use Rattle.tf_engine.specs.Faults.{end_of};
ghost use Rattle.tf_engine.specs.Outputs.{MakesOutput};
ghost use Rattle.tf_engine.specs.Runs.{IsOutcome};
ghost use Rattle.tf_bounding.specs.RunBounding.{problem_in};
ghost use Rattle.tf_assess.specs.RunAssessing.{assessment_run};

use crate::assess::assess;
use crate::case_read::{ProblemCase, problem_case_read};
use crate::offered::Aids;
use std::alloc::{Allocator, Global};
use std::io::{Read, Write};
use tf_bounding::feasible::check_feasible;
use tf_engine::fault::RunFault;
use tf_engine::output::{Output, write_output};
use tf_engine::request::Request;
use tf_evaluate::evaluation::Standing;
use tf_evaluate::writing::evaluation_bytes;
use tf_search::effort::Progress;
use tf_text::counted::Counted;

/// What is asked for, and what the search for a lower bound goes by.
#[derive(Drop)]
pub struct AssessmentRequest<'a, P, A: Allocator = Global, B: Allocator = Global> {
    pub request: &'a Request<B>,
    pub aids: Aids<P, A>,
}

/// Reads an instance and an answer to their ends, and writes how the answer stands to the task of
/// the problem, with the strongest lower bound that is found, or with the one that is offered, if
/// that is stronger.
///
/// The refusals come in the order of [`tf_engine::run_check::run_check`]: notation, a problem that
/// no kind of certificate bounds, reading the instance, its text, the rest of what makes no task,
/// reading the answer and its first fault, a cycle of the task's arcs. After a refusal nothing was
/// written, unless it is [`RunFault::Device`], after which a prefix of the assessment may have
/// been.
pub fn run_assess<
    A: Allocator + Copy,
    B: Allocator,
    P: Progress + Drop,
    R: Read,
    S: Read,
    W: Write,
>(
    alloc: A,
    asked: AssessmentRequest<'_, P, A, B>,
    instance: &mut Counted<R>,
    answer: &mut Counted<S>,
    writer: &mut Counted<W>,
) -> Result<Standing, RunFault<A>>
    ensures outcome { IsOutcome (assessment_run A asked.entry.aids.offered asked.entry.request.now
        (use_of R.remaining instance.old instance.new)
        (use_of S.remaining answer.old answer.new)) (use_of W.contents writer.old writer.new)
        result }
    ensures devices { LeavesCase (problem_in asked.entry.request.now.problem) R.remaining
        instance.old instance.new S.remaining answer.old answer.new writer.old writer.new
        (end_of result) }
{
    write_output(writer, assessment_output(alloc, asked, instance, answer))
}

// The text of the assessment, and what the schedule comes to.
fn assessment_output<A: Allocator + Copy, B: Allocator, P: Progress + Drop, R: Read, S: Read>(
    alloc: A,
    asked: AssessmentRequest<'_, P, A, B>,
    instance: &mut Counted<R>,
    answer: &mut Counted<S>,
) -> Result<Output<Standing, A>, RunFault<A>>
    ensures { MakesOutput (assessment_run A asked.entry.aids.offered asked.entry.request.now
        (use_of R.remaining instance.old instance.new)
        (use_of S.remaining answer.old answer.new))
        (LeavesBoth (problem_in asked.entry.request.now.problem) R.remaining instance.old
        instance.new S.remaining answer.old answer.new) result }
{
    let AssessmentRequest { request, aids } = asked;
    let case = problem_case_read(alloc, request, instance, answer)?;
    let ProblemCase { task, sheet } = case;
    check_feasible(alloc, &task)?;
    let evaluation = assess(alloc, &task, sheet, aids)?;
    let text = evaluation_bytes(alloc, &evaluation)?;
    let returned = evaluation.standing();
    Ok(Output { text, returned })
}
