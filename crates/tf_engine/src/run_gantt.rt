//! Drawing an answer, from bytes to bytes.
ghost use Rattle.std.specs.Prelude.{ℕ, ◌≤◌};
ghost use Rattle.tf_model.specs.Limit.{most_machines};
ghost use Rattle.tf_text.specs.Chart.{chart_text, most_columns};
ghost use Rattle.tf_text.specs.Counted.{use_of};
ghost use Rattle.tf_engine.specs.Devices.{LeavesDrawing, LeavesReader};
ghost use Rattle.tf_engine.specs.Drawing.{drawing_run, IsChart, IsShown};
ghost use Rattle.tf_engine.specs.Faults.{end_of};
ghost use Rattle.tf_engine.specs.Outputs.{Ends, Makes};
ghost use Rattle.tf_engine.specs.Runs.{IsOutcome};

use crate::fault::RunFault;
use crate::schedule_said::schedule_said;
use crate::sheet_read::sheet_read;
use std::alloc::{Allocator, Global};
use std::io::{Read, Write};
use tf_schedule::schedule::Schedule;
use tf_text::chart::write_gantt;
use tf_text::counted::Counted;

/// Reads an answer to its end and writes the chart of its schedule, in `columns` columns at most.
///
/// The chart has a line for each machine that the answer names as its number of machines. Neither
/// the fit nor the certificate is judged. The refusals are the answer's first fault, and then that
/// of its pieces. After a refusal nothing was written, unless it is [`RunFault::Device`], after
/// which a prefix of the chart may have been.
pub fn run_gantt<A: Allocator + Copy, R: Read, W: Write>(
    alloc: A,
    reader: &mut Counted<R>,
    writer: &mut Counted<W>,
    columns: u32,
) -> Result<(), RunFault<A>>
    requires columns { (1 ≤ columns) × (columns ≤ most_columns) }
    ensures outcome { IsOutcome (drawing_run (IsChart columns)
        (use_of R.remaining reader.old reader.new))
        (use_of W.contents writer.old writer.new) result }
    ensures devices { LeavesDrawing R.remaining reader.old reader.new writer.old writer.new
        (end_of result) }
{
    write_chart(writer, schedule_read(alloc, reader), columns)
}

// A schedule, and the number of machines that an answer names.
#[derive(Drop)]
struct OnMachines<A: Allocator = Global> {
    schedule: Schedule<A>,
    machines: u32,
    ghost bounded: { (1 ≤ machines) × (machines ≤ most_machines) },
}

// The schedule of an answer.
fn schedule_read<A: Allocator + Copy, R: Read>(
    alloc: A,
    reader: &mut Counted<R>,
) -> Result<OnMachines<A>, RunFault<A>>
    ensures { (columns : ℕ) → Makes
        (drawing_run (IsChart columns) (use_of R.remaining reader.old reader.new))
        (λ text drawn. IsShown (IsChart columns) text
        (chart_text drawn.schedule drawn.machines columns))
        (LeavesReader R.remaining reader.old reader.new) result }
{
    let sheet = sheet_read(alloc, reader)?;
    let machines = sheet.machines;
    let schedule = schedule_said(sheet)?;
    Ok(OnMachines { schedule, machines })
}

// Writes the chart of a schedule, or passes on why there is none.
fn write_chart<A: Allocator, W: Write>(
    writer: &mut Counted<W>,
    drawn: Result<OnMachines<A>, RunFault<A>>,
    columns: u32,
) -> Result<(), RunFault<A>>
    requires { (1 ≤ columns) × (columns ≤ most_columns) }
    ensures { Ends (λ drawn. tt) (λ drawn. chart_text drawn.schedule drawn.machines columns)
        W.contents writer.old writer.new drawn result }
{
    let OnMachines { schedule, machines } = drawn?;
    write_gantt(writer, &schedule, machines, columns)?;
    Ok(())
}
