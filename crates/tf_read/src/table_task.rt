//! From a job table straight to a task, in one pass that keeps no instance.
ghost use Rattle.std.specs.Prelude.{◌≡◌, List, length, Ok, IfSome};
ghost use Rattle.std.specs.List.{before_first};
ghost use Rattle.tf_words.specs.Lines.{word_lines_of};
ghost use Rattle.tf_model.specs.InstanceData.{InstanceData};
ghost use Rattle.tf_model.specs.JobFields.{JobFields};
ghost use Rattle.tf_model.specs.Prepare.{prepared};
ghost use Rattle.tf_model.specs.TaskBuilder.{Takes};
ghost use Rattle.tf_read.specs.Faults.{each_from};
ghost use Rattle.tf_read.specs.JobTable.{is_arc, job_line, job_table, since_first};

use crate::arc::arcs_of;
use crate::job_table::{SHORTEST_LINE, body_in, next_job};
use std::alloc::Allocator;
use tf_model::limit::MOST_JOBS;
use tf_model::problem::Problem;
use tf_model::task::Task;
use tf_model::task_builder::TaskBuilder;
use tf_words::line::Lines;

/// Gives the jobs up to the first arc to the task: how many they are, and the lines from there on.
fn take_jobs<'a, A: Allocator + Copy>(
    alloc: A,
    lines: &Lines<'a>,
    builder: &mut TaskBuilder<A>,
) -> Option<(u32, Lines<'a>)>
    ensures { IfSome result (λ x. (jobs : List JobFields) × Takes builder.old jobs builder.new
        × (x.0 ≡ length jobs)
        × (each_from job_line 1 (before_first is_arc (word_lines_of lines.now)) ≡ Ok jobs)
        × (word_lines_of x.1 ≡ since_first is_arc (word_lines_of lines.now))) }
{
    let mut count: u32 = 0;
    let mut rest = *lines;
    loop {
        match next_job(alloc, count + 1, &rest) {
            Err(_) => return None,
            Ok(None) => return Some((count, rest)),
            Ok(Some((job, after))) => {
                builder.push(job)?;
                count += 1;
                rest = after;
            }
        }
    }
}

/// The task of a problem and the instance that a job table says, where the caller gives this number
/// of machines or none. None where the text has a fault, the task is refused, or memory is wanting:
/// [`crate::job_table::read_table`] and [`tf_model::prepare::prepare`] tell which.
pub fn table_task<A: Allocator + Copy>(
    alloc: A,
    problem: &Problem,
    machines: Option<u32>,
    text: &[u8],
) -> Option<Task<A>>
    ensures { IfSome result (λ task. (i : InstanceData)
        × (job_table text.now ≡ Ok i) × (prepared i problem.now machines ≡ Ok task)) }
{
    let Ok((given, lines)) = body_in(text) else {
        return None;
    };
    let room = MOST_JOBS.min((lines.bytes_left().len() + 1) / SHORTEST_LINE);
    let mut builder = TaskBuilder::new(alloc, problem, machines, given, room)?;
    let (jobs, rest) = take_jobs(alloc, &lines, &mut builder)?;
    let Ok(arcs) = arcs_of(alloc, jobs, &rest) else {
        return None;
    };
    builder.finish(arcs)
}
