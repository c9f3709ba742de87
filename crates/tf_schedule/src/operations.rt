//! When the operations of a shop run: what a job does on one machine.
ghost use Rattle.std.specs.Prelude.{◌≡◌, ◌+◌, ◌≤◌, length, IfOk, IsTrue};
ghost use Rattle.std.specs.List.{All};
ghost use Rattle.tf_model.specs.Limit.{most_jobs, most_machines};
ghost use Rattle.tf_schedule.specs.Schedule.{IsPiece, IsSchedule};
ghost use Rattle.tf_model.specs.ClassTable.{is_shop_env};
ghost use Rattle.tf_schedule.specs.Operation.{IsWithin, operation_piece, first_operation};
ghost use Rattle.tf_schedule.specs.ProblemMisfit.{IsKnownTo};
ghost use Rattle.tf_schedule.specs.Tables.{HasOperations};

use crate::asks::Asks;
use crate::lanes::{Lanes, empty_lanes};
use crate::piece::Piece;
use std::alloc::{AllocError, Allocator};
use tf_model::ids::JobId;

/// The number of operations before those of a job, where each job has one on each machine.
pub(crate) fn first_operation(machines: u32, job: JobId) -> usize
    requires job { job ≤ most_jobs }
    requires few { machines ≤ most_machines }
    ensures value { result ≡ first_operation machines job }
    ensures small { result + machines ≤ 100000000 }
{
    job.place() * machines as usize
}

// The piece, of its operation in place of its job.
fn operation_piece(machines: u32, piece: &Piece) -> Piece
    requires within { IsWithin most_jobs machines piece.now }
    requires few { machines ≤ most_machines }
    ensures { result ≡ operation_piece machines piece.now }
{
    let place = first_operation(machines, piece.job) + piece.machine.place();
    Piece {
        job: JobId::at(place),
        machine: piece.machine,
        start: piece.start,
        stop: piece.stop,
    }
}

// The table of the operations of a shop.
fn shop_operations<A: Allocator + Copy>(
    alloc: A,
    jobs: usize,
    machines: u32,
    pieces: &[Piece],
) -> Result<Lanes<A>, AllocError>
    requires jobs { jobs ≤ most_jobs }
    requires few { machines ≤ most_machines }
    requires sound { All IsPiece pieces.now }
    requires within { All (IsWithin jobs machines) pieces.now }
    ensures { IfOk result (HasOperations jobs machines pieces.now) }
{
    let mut lanes = empty_lanes(alloc, jobs * machines as usize, false)?;
    for piece in pieces {
        lanes.add(&operation_piece(machines, piece));
    }
    Ok(lanes)
}

/// When the operations of a shop run, machine by machine for each job; of other environments, none.
pub(crate) fn operations_of<A: Allocator + Copy, T: Asks>(
    alloc: A,
    task: &T,
    pieces: &[Piece],
) -> Result<Lanes<A>, AllocError>
    requires schedule { IsSchedule pieces.now }
    requires known { All (IsKnownTo (T.posed task.now)) pieces.now }
    ensures { IfOk result (λ l. IsTrue (is_shop_env (T.posed task.now).problem.env) →
        HasOperations (length (T.posed task.now).jobs) (T.posed task.now).machines pieces.now l) }
{
    if task.problem().env.is_shop() {
        return shop_operations(alloc, task.len(), task.machines(), pieces);
    }
    empty_lanes(alloc, 0, false)
}
