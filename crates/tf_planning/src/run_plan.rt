//! A plan of a problem and an instance, from bytes to bytes.
ghost use Rattle.std.specs.Prelude.{MatchResult};
ghost use Rattle.tf_text.specs.Counted.{inner_of, use_of};
ghost use Rattle.tf_engine.specs.Devices.{LeavesInstance, LeavesRun};
ghost use Rattle.tf_engine.specs.Faults.{end_of, stop_of};
ghost use Rattle.tf_engine.specs.Outputs.{Ends, Makes};
ghost use Rattle.tf_engine.specs.Runs.{IsOutcome};
ghost use Rattle.tf_bounding.specs.RunBounding.{problem_in};
ghost use Rattle.tf_planning.specs.Planning.{StopsPlanning};
ghost use Rattle.tf_planning.specs.declared.run_plan.Printed.{Printed};
ghost use Rattle.tf_planning.specs.RunPlanning.{IsPlanOf, Plans, plan_run};

use crate::made::made_for;
use crate::progress::PlanProgress;
use crate::writing::{Planned, kept_text, remarks_of, sheet_of, standing_of};
use std::alloc::{Allocator, Global};
use std::io::{Read, Write};
use tf_bound::task::ProblemTask;
use tf_bounding::instance_read::task_read;
use tf_engine::fault::RunFault;
use tf_engine::request::Request;
use tf_search::effort::{Effort, Progress};
use tf_text::counted::Counted;

/// Reads an instance to its end, searches for a schedule of its task and for the strongest lower
/// bound, and writes the schedule as an answer text, with the bound behind it in comments.
///
/// The refusals come in the order of [`tf_bounding::run_bound::run_bound`], and after them a cycle
/// of the arcs. After a refusal nothing was written, unless it is [`RunFault::Device`], after which
/// a prefix of the text may have been.
pub fn run_plan<
    A: Allocator + Copy,
    B: Allocator,
    P: Progress + PlanProgress + Drop,
    R: Read,
    W: Write,
>(
    alloc: A,
    request: &Request<B>,
    effort: Effort<P>,
    reader: &mut Counted<R>,
    writer: &mut Counted<W>,
) -> Result<Planned, RunFault<A>>
    ensures outcome { IsOutcome (plan_run A request.now
        (use_of R.remaining reader.old reader.new))
        (use_of W.contents writer.old writer.new) result }
    ensures devices { LeavesRun (problem_in request.now.problem) R.remaining reader.old reader.new
        writer.old writer.new (end_of result) }
{
    write_printed(writer, plan_printed(alloc, request, effort, reader))
}

// The text of a plan, and what is known of it.
#[derive(Drop)]
struct Printed<A: Allocator = Global> {
    text: Counted<Vec<u8, A>>,
    planned: Planned,
}

// The best plan of an instance that is found, as a text.
fn plan_printed<A: Allocator + Copy, B: Allocator, P: Progress + PlanProgress + Drop, R: Read>(
    alloc: A,
    request: &Request<B>,
    effort: Effort<P>,
    reader: &mut Counted<R>,
) -> Result<Printed<A>, RunFault<A>>
    ensures { Makes (plan_run A request.now (use_of R.remaining reader.old reader.new))
        (λ text (printed : Printed A). Plans A request.now text printed.planned
        (inner_of printed.text).items)
        (LeavesInstance (problem_in request.now.problem) R.remaining reader.old reader.new)
        result }
{
    let task = task_read(alloc, request, reader)?;
    printed_for(alloc, &task, effort)
}

// Writes the text of a plan, or passes on why there is none.
fn write_printed<A: Allocator, W: Write>(
    writer: &mut Counted<W>,
    printed: Result<Printed<A>, RunFault<A>>,
) -> Result<Planned, RunFault<A>>
    ensures { Ends (λ printed. printed.planned)
        (λ (printed : Printed A). (inner_of printed.text).items)
        W.contents writer.old writer.new printed result }
{
    let Printed { text, planned } = printed?;
    writer.push_all(text.inner().as_slice())?;
    Ok(planned)
}

// The best plan of a task that is found, as a text.
fn printed_for<A: Allocator + Copy, B: Allocator, P: Progress + PlanProgress + Drop>(
    alloc: A,
    task: &ProblemTask<B>,
    effort: Effort<P>,
) -> Result<Printed<A>, RunFault<A>>
    ensures { MatchResult result
        (λ printed. IsPlanOf A task.now printed.planned (inner_of printed.text).items)
        (λ e. StopsPlanning task.now (stop_of e)) }
{
    let made = made_for(alloc, task, effort)?;
    let sheet = sheet_of(alloc, task, &made.plan)?;
    let remarks = remarks_of(alloc, task, made.plan.value, &made.found)?;
    let text = kept_text(alloc, &sheet, &remarks)?;
    let planned = standing_of(made.plan.value, &made.found);
    Ok(Printed { text, planned })
}
