//! From a reader to what its text holds, form by form.
ghost use Rattle.std.specs.Prelude.{◌≡◌};
ghost use Rattle.tf_engine.specs.FormData.{InTable, InWt, InFlow};
ghost use Rattle.tf_engine.specs.Parts.{ReadsTo, instance_said, task_said};

use crate::fault::RunFault;
use std::alloc::Allocator;
use std::io::Read;
use tf_model::limit::MOST_JOBS;
use tf_model::prepare::prepare;
use tf_model::problem::Problem;
use tf_model::task::Task;
use tf_read::flow_shop::FlowReader;
use tf_read::instance_numbers::InstanceNumbers;
use tf_read::job_table::read_table;
use tf_read::table_task::table_task;
use tf_read::weighted_tardiness::WtReader;
use tf_text::counted::Counted;
use tf_text::input::{drain, read_all};

// Space for the columns of the most jobs, and a little for what the heap keeps beside each. It is
// reserved before the text is read and freed after it, so that the columns lie before the text in
// memory, and what is made of them takes the text's pages.
fn place_for_columns<A: Allocator>(alloc: A, problem: &Problem) -> Option<Vec<u64, A>> {
    let columns = if problem.release { 3 } else { 2 };
    Vec::with_capacity(alloc, columns * (MOST_JOBS + 8)).ok()
}

/// The task of a problem and of the job table that the reader's text holds. Where nothing is
/// refused, no instance is made on the way.
pub(crate) fn table_task_read<A: Allocator + Copy, R: Read>(
    alloc: A,
    problem: &Problem,
    machines: Option<u32>,
    reader: &mut Counted<R>,
) -> Result<Task<A>, RunFault<A>>
    ensures { ReadsTo (task_said InTable problem.now machines) R.remaining reader.old reader.new
        result }
{
    let place = place_for_columns(alloc, problem);
    let text = read_all(alloc, reader)?;
    drop(place);
    if let Some(task) = table_task(alloc, problem, machines, text.as_slice()) {
        return Ok(task);
    }
    let instance = read_table(alloc, text.as_slice())?;
    Ok(prepare(alloc, &instance, problem, machines)?)
}

/// The numbers of the instance of this number of a weighted tardiness file that the reader's text
/// is.
pub fn wt_read<A: Allocator + Copy, R: Read>(
    alloc: A,
    jobs: u32,
    index: u32,
    reader: &mut Counted<R>,
) -> Result<InstanceNumbers<A>, RunFault<A>>
    ensures { ReadsTo (instance_said (InWt jobs index)) R.remaining reader.old reader.new result }
{
    let mut wt = WtReader::new(alloc, jobs, index)?;
    drain(reader, &mut wt)?;
    Ok(wt.into_numbers()?)
}

/// The numbers of the instance of this name of a flow shop file that the reader's text is, for a
/// pair of machines.
pub fn flow_read<A: Allocator + Copy, R: Read>(
    alloc: A,
    name: &[u8],
    pair: Option<(u32, u32)>,
    reader: &mut Counted<R>,
) -> Result<InstanceNumbers<A>, RunFault<A>>
    ensures { ReadsTo (instance_said (InFlow name.now pair)) R.remaining reader.old reader.new
        result }
{
    let mut flow = FlowReader::new(alloc, name, pair);
    drain(reader, &mut flow)?;
    Ok(flow.into_numbers()?)
}
