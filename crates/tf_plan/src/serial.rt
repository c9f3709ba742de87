//! All jobs one after another.
ghost use Rattle.std.specs.Prelude.{◌≡◌, ◌+◌, ◌≤◌, ◌<◌, length, IfOk, MatchOption};
ghost use Rattle.tf_plan.specs.Plan.{FitsAsLaid, IsPlan, IsTooDear};
ghost use Rattle.tf_plan.specs.Serial.{IsSerial};
ghost use Rattle.tf_plan.specs.SerialOrder.{IsSerialOrder};

use crate::plan::{Plan, plan_of_pieces};
use std::alloc::Allocator;
use tf_bound::task::ProblemTask;
use tf_model::ids::{JobId, MachineId};
use tf_model::memory::OutOfMemory;
use tf_schedule::piece::Piece;
use tf_schedule::semi_active::{Operation, push_stretch};

// The pieces of all jobs one after another in this order, each when the job before it is completed
// and it is released, on the machines of its steps, without a gap.
fn one_after_another<A: Allocator, B: Allocator>(
    alloc: A,
    task: &ProblemTask<B>,
    order: &[JobId],
) -> Result<Vec<Piece, A>, OutOfMemory>
    requires { IsSerialOrder task.now order.now }
    ensures { IfOk result (λ pieces. FitsAsLaid task.now pieces.items) }
{
    let mut pieces = Vec::with_capacity(alloc, task.len())?;
    let mut now: u64 = 0;
    for place in 0..order.len() {
        now = push_job(&mut pieces, task, order, place, now)?;
    }
    Ok(pieces)
}

// Adds the operations of the job at a place of the order, one after another, when all that is laid
// is completed and the job is released. Returns when it is completed.
fn push_job<A: Allocator, B: Allocator>(
    pieces: &mut Vec<Piece, A>,
    task: &ProblemTask<B>,
    order: &[JobId],
    place: usize,
    now: u64,
) -> Result<u64, OutOfMemory>
    requires order { IsSerialOrder task.now order.now }
    requires place { place < length order.now }
    requires laid { IsSerial task.now order.now place pieces.old.items now }
    ensures { IfOk result (λ end. IsSerial task.now order.now (place + 1) pieces.new.items end) }
{
    let job = order[place];
    let times = task.times(job);
    let mut end = now.max(task.release(job));
    for i in 0..task.steps(job) {
        let machine = task.step(job, i);
        let operation = Operation {
            job,
            machine: MachineId::at(machine),
            time: times[machine],
        };
        end = push_stretch(pieces, operation, end)?;
    }
    Ok(end)
}

/// The plan of all jobs one after another in this order. None where it costs 2^127 or more. Only
/// want of memory is an error.
pub(crate) fn serial_plan<A: Allocator + Copy, B: Allocator>(
    alloc: A,
    task: &ProblemTask<B>,
    order: &[JobId],
) -> Result<Option<Plan<A>>, OutOfMemory>
    requires { IsSerialOrder task.now order.now }
    ensures { IfOk result (λ found. MatchOption found (IsTooDear task.now)
        (λ plan. IsPlan task.now plan.schedule plan.value)) }
{
    let pieces = one_after_another(alloc, task, order)?;
    plan_of_pieces(alloc, task, pieces)
}
