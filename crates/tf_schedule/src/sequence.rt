//! Jobs one after another on one machine.
ghost use Rattle.std.specs.Prelude.{◌≡◌, ◌≤◌, reverse, IfOk};
ghost use Rattle.std.specs.List.{All, sum_by};
ghost use Rattle.tf_model.specs.Limit.{limit};
ghost use Rattle.tf_model.specs.SchedulingTask.{IsJob, time_of};
ghost use Rattle.tf_schedule.specs.SemiActive.{laid};
ghost use Rattle.tf_schedule.specs.Sequence.{in_sequence};

use crate::piece::Piece;
use crate::semi_active::{Operation, push_stretch};
use std::alloc::Allocator;
use tf_model::ids::{JobId, MachineId};
use tf_model::memory::OutOfMemory;
use tf_model::task::Task;

/// The pieces of jobs of a task that run on machine 1 one after another, from time 0 on and without
/// idle time. A job of time 0 has no piece. Only want of memory is an error.
pub fn in_sequence<A: Allocator, B: Allocator>(
    alloc: A,
    task: &Task<B>,
    jobs: &[JobId],
) -> Result<Vec<Piece, A>, OutOfMemory>
    requires known { All (IsJob task.now) jobs.now }
    requires total { sum_by (time_of task.now) jobs.now ≤ limit }
    ensures { IfOk result (λ pieces. pieces.items ≡ laid (in_sequence task.now jobs.now)) }
{
    let mut pieces = Vec::with_capacity(alloc, jobs.len())?;
    let mut now: u64 = 0;
    for job in jobs {
        let operation = Operation {
            job: *job,
            machine: MachineId::FIRST,
            time: task.time(*job),
        };
        now = push_stretch(&mut pieces, operation, now)?;
    }
    Ok(pieces)
}

/// The jobs from the last to the first.
pub fn reversed<A: Allocator>(mut jobs: Vec<JobId, A>) -> Vec<JobId, A>
    ensures { result.items ≡ reverse jobs.items }
{
    jobs.as_mut_slice().reverse();
    jobs
}
