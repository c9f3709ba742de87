//! From the readers of an instance and of an answer to a task of a problem and a sheet.
ghost use Rattle.tf_assess.specs.RunAssessing.{ReadsProblemCase};

use std::alloc::{Allocator, Global};
use std::io::Read;
use tf_bound::task::ProblemTask;
use tf_bounding::instance_read::task_read;
use tf_engine::fault::RunFault;
use tf_engine::request::Request;
use tf_engine::sheet_read::sheet_read;
use tf_text::answer::sheet::Sheet;
use tf_text::counted::Counted;

/// The task that is asked for, and an answer that may be for it.
#[derive(Drop)]
pub(crate) struct ProblemCase<A: Allocator = Global> {
    pub task: ProblemTask<A>,
    pub sheet: Sheet<A>,
}

/// Reads an instance and an answer to their ends.
pub(crate) fn problem_case_read<A: Allocator + Copy, B: Allocator, R: Read, S: Read>(
    alloc: A,
    request: &Request<B>,
    instance: &mut Counted<R>,
    answer: &mut Counted<S>,
) -> Result<ProblemCase<A>, RunFault<A>>
    ensures { ReadsProblemCase request.now R.remaining instance.old instance.new S.remaining
        answer.old answer.new result }
{
    let task = task_read(alloc, request, instance)?;
    let sheet = sheet_read(alloc, answer)?;
    Ok(ProblemCase { task, sheet })
}
