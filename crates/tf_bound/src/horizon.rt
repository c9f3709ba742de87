//! The time by which all jobs can be over.
ghost use Rattle.std.specs.Prelude.{◌≡◌, ◌≤◌};
ghost use Rattle.tf_model.specs.Limit.{limit};
ghost use Rattle.tf_problem.specs.ProblemBounds.{horizon};

use crate::task::ProblemTask;
use std::alloc::Allocator;
use tf_model::ids::JobId;

/// The greatest release date and the processing time of all jobs, in a shop on all machines. Some
/// timetable of least cost is over by then.
pub fn horizon<A: Allocator>(task: &ProblemTask<A>) -> u64
    ensures value { result ≡ horizon task.now }
    ensures small { result ≤ limit }
{
    let mut last: u64 = 0;
    let mut work: u64 = 0;
    for k in 0..task.len() {
        let job = JobId::at(k);
        last = last.max(task.release(job));
        work += task.work(job);
    }
    last + work
}
