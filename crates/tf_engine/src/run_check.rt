//! Checking somebody's answer, from bytes to bytes.
ghost use Rattle.std.specs.Prelude.{◌≡◌, ℕ, List, Some, IfOk, IsTrue, ◌↔◌};
ghost use Rattle.tf_text.specs.Counted.{inner_of, use_of};
ghost use Rattle.tf_engine.specs.Refusal.{problem_for};
ghost use Rattle.tf_engine.specs.Faults.{end_of};
ghost use Rattle.tf_engine.specs.Devices.{LeavesBoth, LeavesCase};
ghost use Rattle.tf_engine.specs.Checking.{check_run, IsChecked, AcceptsUnlessStopped, IsFor};
ghost use Rattle.tf_engine.specs.Checking.{IsVerdict};
ghost use Rattle.tf_engine.specs.Outputs.{MakesOutput};
ghost use Rattle.tf_engine.specs.Runs.{IsOutcome};

use crate::case::{Case, case_read};
use crate::fault::RunFault;
use crate::output::{Output, write_output};
use crate::request::Request;
use crate::verdict_line::verdict_bytes;
use std::alloc::Allocator;
use std::io::{Read, Write};
use tf_check::check::check_owned;
use tf_check::verdict::{Reason, Verdict};
use tf_model::class::class_of;
use tf_model::memory::OutOfMemory;
use tf_model::task::Task;
use tf_text::answer::sheet::Sheet;
use tf_text::counted::Counted;

/// The verdict on an answer.
#[derive(Debug, Drop, PartialEq, Eq)]
pub enum Checked {
    /// The answer is best.
    Accepted,
    /// The answer is for a task of another class, or with other numbers of jobs or machines.
    OtherTask,
    /// The answer is rejected, for the first reason that there is.
    Rejected(Reason),
}

/// Reads an instance and an answer to their ends, judges the answer, and writes the verdict in one
/// line.
///
/// The refusals come in the order of [`crate::run_solve::run_solve`], and after them reading the
/// answer and its first fault. After a refusal nothing was written, unless it is
/// [`RunFault::Device`], after which a prefix of the line may have been. An answer that is accepted
/// is best: its pieces draw a timetable that fits the task and costs the value, and none that fits
/// costs less.
pub fn run_check<A: Allocator + Copy, B: Allocator, R: Read, S: Read, W: Write>(
    alloc: A,
    request: &Request<B>,
    instance: &mut Counted<R>,
    answer: &mut Counted<S>,
    writer: &mut Counted<W>,
) -> Result<Checked, RunFault<A>>
    ensures outcome { IsOutcome (check_run request.now
        (use_of R.remaining instance.old instance.new)
        (use_of S.remaining answer.old answer.new)) (use_of W.contents writer.old writer.new)
        result }
    // An answer that the definitions accept is accepted, above all one that `run_solve` wrote.
    ensures accepts { (text answer_text : List ℕ) →
        R.remaining (inner_of instance.old) ≡ Some text →
        S.remaining (inner_of answer.old) ≡ Some answer_text →
        IsChecked request.now text answer_text Checked.Accepted → AcceptsUnlessStopped result }
    ensures devices { LeavesCase (problem_for request.now.problem) R.remaining instance.old
        instance.new S.remaining answer.old answer.new writer.old writer.new (end_of result) }
{
    write_output(writer, verdict_output(alloc, request, instance, answer))
}

// The verdict, and its line.
fn verdict_output<A: Allocator + Copy, B: Allocator, R: Read, S: Read>(
    alloc: A,
    request: &Request<B>,
    instance: &mut Counted<R>,
    answer: &mut Counted<S>,
) -> Result<Output<Checked, A>, RunFault<A>>
    ensures { MakesOutput (check_run request.now (use_of R.remaining instance.old instance.new)
        (use_of S.remaining answer.old answer.new))
        (LeavesBoth (problem_for request.now.problem) R.remaining instance.old instance.new
        S.remaining answer.old answer.new) result }
{
    let Case { asked, sheet } = case_read(alloc, request, instance, answer)?;
    let returned = verdict_on(alloc, &asked.task, sheet)?;
    let text = verdict_bytes(alloc, &returned)?;
    Ok(Output { text, returned })
}

/// Whether the sheet's problem is of the task's class, and its sizes are the task's.
pub fn is_for<B: Allocator, C: Allocator>(task: &Task<B>, sheet: &Sheet<C>) -> bool
    ensures { IsTrue result ↔ IsFor task.now sheet.now }
{
    class_of(&sheet.problem) == Some(task.class())
        && sheet.jobs as usize == task.len()
        && sheet.machines == task.machines()
}

fn verdict_on<A: Allocator + Copy, B: Allocator, C: Allocator>(
    alloc: A,
    task: &Task<B>,
    sheet: Sheet<C>,
) -> Result<Checked, OutOfMemory>
    ensures { IfOk result (IsVerdict task.now sheet) }
{
    if !is_for(task, &sheet) {
        return Ok(Checked::OtherTask);
    }
    match check_owned(alloc, task, sheet.into_answer())? {
        Verdict::Accepted => Ok(Checked::Accepted),
        Verdict::Rejected(reason) => Ok(Checked::Rejected(reason)),
    }
}
