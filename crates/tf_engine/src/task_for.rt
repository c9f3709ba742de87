//! From a problem line and a reader of an instance to a task.
ghost use Rattle.std.specs.Prelude.{◌≡◌};
ghost use Rattle.tf_engine.specs.Refusal.{problem_for, task_in};
ghost use Rattle.tf_engine.specs.Parts.{GivesProblem, ReadsTo};

use crate::fault::RunFault;
use crate::form_read::{flow_read, table_task_read, wt_read};
use crate::request::{Form, Request};
use std::alloc::Allocator;
use std::io::Read;
use tf_model::class::class_of;
use tf_model::prepare::Refusal;
use tf_model::problem::Problem;
use tf_model::task::Task;
use tf_notation::reading::read;
use tf_text::counted::Counted;

/// The problem of a line, which has a class.
pub fn problem_for<A: Allocator>(text: &str) -> Result<Problem, RunFault<A>>
    ensures { GivesProblem result (problem_for text.now) }
{
    let problem = read(text.as_bytes())?;
    match class_of(&problem) {
        Some(_) => Ok(problem),
        None => Err(RunFault::Task(Refusal::NoSolver)),
    }
}

/// The task of a problem and the instance that the reader's text holds.
pub fn task_read<A: Allocator + Copy, B: Allocator, R: Read>(
    alloc: A,
    request: &Request<B>,
    problem: &Problem,
    reader: &mut Counted<R>,
) -> Result<Task<A>, RunFault<A>>
    ensures { ReadsTo (task_in request.now problem.now) R.remaining reader.old reader.new result }
{
    let machines = request.machines;
    match &request.form {
        Form::Table => table_task_read(alloc, problem, machines, reader),
        Form::Wt { jobs, index } => {
            let numbers = wt_read(alloc, *jobs, *index, reader)?;
            Ok(numbers.into_task(alloc, problem, machines)?)
        }
        Form::Flow { name, pair } => {
            let numbers = flow_read(alloc, name.as_str().as_bytes(), *pair, reader)?;
            Ok(numbers.into_task(alloc, problem, machines)?)
        }
    }
}
