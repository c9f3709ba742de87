//! From the readers of an instance and of an answer to what they say.
ghost use Rattle.tf_engine.specs.CaseParts.{ReadsAsked, ReadsCase};

use crate::fault::RunFault;
use crate::request::Request;
use crate::sheet_read::sheet_read;
use crate::task_for::{problem_for, task_read};
use std::alloc::{Allocator, Global};
use std::io::Read;
use tf_model::problem::Problem;
use tf_model::task::Task;
use tf_text::answer::sheet::Sheet;
use tf_text::counted::Counted;

/// A problem, and the task that an instance makes of it.
#[derive(Drop)]
pub struct Asked<A: Allocator = Global> {
    pub problem: Problem,
    pub task: Task<A>,
}

/// What is asked for, and an answer that may be for it.
#[derive(Drop)]
pub struct Case<A: Allocator = Global> {
    pub asked: Asked<A>,
    pub sheet: Sheet<A>,
}

/// Reads an instance to its end.
///
/// The refusals come in this order: notation, class, reading the instance, its text, the rest of
/// what makes no task. The first two are answered before anything is read.
pub fn asked_read<A: Allocator + Copy, B: Allocator, R: Read>(
    alloc: A,
    request: &Request<B>,
    instance: &mut Counted<R>,
) -> Result<Asked<A>, RunFault<A>>
    ensures { ReadsAsked request.now R.remaining instance.old instance.new result }
{
    let problem = problem_for(request.problem.as_str())?;
    let task = task_read(alloc, request, &problem, instance)?;
    Ok(Asked { problem, task })
}

/// Reads an instance and an answer to their ends.
///
/// The refusals are those of [`asked_read`], and after them reading the answer and its first fault.
pub fn case_read<A: Allocator + Copy, B: Allocator, R: Read, S: Read>(
    alloc: A,
    request: &Request<B>,
    instance: &mut Counted<R>,
    answer: &mut Counted<S>,
) -> Result<Case<A>, RunFault<A>>
    ensures { ReadsCase request.now R.remaining instance.old instance.new S.remaining answer.old
        answer.new result }
{
    let asked = asked_read(alloc, request, instance)?;
    let sheet = sheet_read(alloc, answer)?;
    Ok(Case { asked, sheet })
}
