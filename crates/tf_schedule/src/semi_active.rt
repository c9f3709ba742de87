//! Operations, which semi-active schedules are made of.
ghost use Rattle.std.specs.Prelude.{◌≡◌, ◌+◌, ◌≤◌, ◌++◌, IfOk};
ghost use Rattle.tf_model.specs.Limit.{limit};
ghost use Rattle.tf_schedule.specs.SemiActive.{stretch};

use crate::piece::Piece;
use std::alloc::Allocator;
use tf_model::ids::{JobId, MachineId};
use tf_model::memory::OutOfMemory;

/// A job's work on a machine, without a break.
#[derive(Clone, Copy, Debug)]
pub struct Operation {
    pub job: JobId,
    pub machine: MachineId,
    /// In time steps.
    pub time: u64,
}

/// Adds the piece of an operation that starts at `start`, and returns its completion time. An
/// operation of time 0 has no piece. Only want of memory is an error.
pub fn push_stretch<A: Allocator>(
    pieces: &mut Vec<Piece, A>,
    operation: Operation,
    start: u64,
) -> Result<u64, OutOfMemory>
    requires { start + operation.time ≤ limit }
    ensures pieces { IfOk result (λ _. pieces.new.items
        ≡ pieces.old.items ++ stretch operation.job operation.machine start operation.time) }
    ensures end { IfOk result (λ end. end ≡ start + operation.time) }
{
    if operation.time == 0 {
        return Ok(start);
    }
    let end = start + operation.time;
    pieces.push(Piece::of(operation.job, operation.machine, start, end))?;
    Ok(end)
}
