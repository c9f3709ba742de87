//! A lower bound of a problem and an instance, from bytes to bytes.
ghost use Rattle.tf_text.specs.Counted.{use_of};
ghost use Rattle.tf_engine.specs.Devices.{LeavesInstance, LeavesRun};
ghost use Rattle.tf_engine.specs.Faults.{end_of};
ghost use Rattle.tf_engine.specs.Outputs.{MakesOutput};
ghost use Rattle.tf_engine.specs.Runs.{IsOutcome};
ghost use Rattle.tf_bounding.specs.RunBounding.{bound_run, problem_in};

use crate::feasible::check_feasible;
use crate::instance_read::task_read;
use crate::writing::bound_bytes;
use std::alloc::Allocator;
use std::io::{Read, Write};
use tf_engine::fault::RunFault;
use tf_engine::output::{Output, write_output};
use tf_engine::request::Request;
use tf_search::effort::{Effort, Progress};
use tf_search::strongest::strongest;
use tf_text::counted::Counted;

/// Reads an instance to its end, searches for the strongest lower bound of its task, and writes the
/// bound with its certificate.
///
/// The refusals come in the order of [`tf_engine::run_solve::run_solve`]: notation, a problem that
/// no kind of certificate bounds, reading the input, its text, the rest of what makes no task, a
/// cycle of its arcs.
/// After a refusal nothing was written, unless it is [`RunFault::Device`], after which a prefix of
/// the bound may have been.
pub fn run_bound<A: Allocator + Copy, B: Allocator, P: Progress + Drop, R: Read, W: Write>(
    alloc: A,
    request: &Request<B>,
    effort: Effort<P>,
    reader: &mut Counted<R>,
    writer: &mut Counted<W>,
) -> Result<(), RunFault<A>>
    ensures outcome { IsOutcome (bound_run A request.now
        (use_of R.remaining reader.old reader.new))
        (use_of W.contents writer.old writer.new) result }
    ensures devices { LeavesRun (problem_in request.now.problem) R.remaining reader.old reader.new
        writer.old writer.new (end_of result) }
{
    write_output(writer, bound_output(alloc, request, effort, reader))
}

// The text of the bound.
fn bound_output<A: Allocator + Copy, B: Allocator, P: Progress + Drop, R: Read>(
    alloc: A,
    request: &Request<B>,
    effort: Effort<P>,
    reader: &mut Counted<R>,
) -> Result<Output<(), A>, RunFault<A>>
    ensures { MakesOutput (bound_run A request.now (use_of R.remaining reader.old reader.new))
        (LeavesInstance (problem_in request.now.problem) R.remaining reader.old reader.new)
        result }
{
    let task = task_read(alloc, request, reader)?;
    check_feasible(alloc, &task)?;
    let found = strongest(alloc, &task, effort)?;
    let text = bound_bytes(alloc, &task, &found)?;
    Ok(Output { text, returned: () })
}
