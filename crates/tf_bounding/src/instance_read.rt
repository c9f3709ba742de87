//! From a problem line and a reader of an instance to the task of any problem.
ghost use Rattle.std.specs.Prelude.{◌≡◌};
ghost use Rattle.tf_engine.specs.FormData.{InTable, form_of};
ghost use Rattle.tf_engine.specs.Parts.{GivesProblem, ReadsTo, instance_said};
ghost use Rattle.tf_bounding.specs.RunBounding.{problem_in, ReadsProblemTask};

use crate::timed_read::timed_read;
use std::alloc::Allocator;
use std::io::Read;
use tf_bound::task::{ProblemTask, is_taken};
use tf_engine::fault::RunFault;
use tf_engine::form_read::{flow_read, wt_read};
use tf_engine::request::{Form, Request};
use tf_model::instance::Instance;
use tf_model::prepare::Refusal;
use tf_model::problem::{Env, Goal, Problem};
use tf_notation::reading::read;
use tf_prepare::prepare::prepare_problem;
use tf_read::job_table::read_table;
use tf_text::counted::Counted;
use tf_text::input::read_all;

/// The task of a request and of the instance that the reader's text holds.
pub fn task_read<A: Allocator + Copy, B: Allocator, R: Read>(
    alloc: A,
    request: &Request<B>,
    reader: &mut Counted<R>,
) -> Result<ProblemTask<A>, RunFault<A>>
    ensures { ReadsProblemTask request.now R.remaining reader.old reader.new result }
{
    let problem = problem_in(request.problem.as_str())?;
    let timed = timed_read(alloc, &request.form, problem.env, reader)?;
    let task = prepare_problem(alloc, &timed, &problem, request.machines)?;
    Ok(task)
}

// The problem of a line, of which some kind of certificate bounds the tasks.
fn problem_in<A: Allocator>(text: &str) -> Result<Problem, RunFault<A>>
    ensures { GivesProblem result (problem_in text.now) }
{
    let problem = read(text.as_bytes())?;
    if !is_taken(&problem) {
        return Err(RunFault::Task(Refusal::NoSolver));
    }
    Ok(problem)
}

/// The instance that the reader's text of this form holds.
pub fn instance_read<A: Allocator + Copy, B: Allocator, R: Read>(
    alloc: A,
    form: &Form<B>,
    reader: &mut Counted<R>,
) -> Result<Instance<A>, RunFault<A>>
    ensures { ReadsTo (instance_said (form_of form.now)) R.remaining reader.old reader.new result }
{
    match form {
        Form::Table => table_read(alloc, reader),
        Form::Wt { jobs, index } => {
            let numbers = wt_read(alloc, *jobs, *index, reader)?;
            Ok(numbers.into_instance(alloc))
        }
        Form::Flow { name, pair } => {
            let numbers = flow_read(alloc, name.as_str().as_bytes(), *pair, reader)?;
            Ok(numbers.into_instance(alloc))
        }
    }
}

fn table_read<A: Allocator + Copy, R: Read>(
    alloc: A,
    reader: &mut Counted<R>,
) -> Result<Instance<A>, RunFault<A>>
    ensures { ReadsTo (instance_said InTable) R.remaining reader.old reader.new result }
{
    let text = read_all(alloc, reader)?;
    Ok(read_table(alloc, text.as_slice())?)
}
