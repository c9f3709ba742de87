//! Shops with two machines: the operations of a job.
ghost use Rattle.std.specs.Prelude.{◌≡◌};
ghost use Rattle.tf_model.specs.SchedulingTask.{IsJob};
ghost use Rattle.tf_multi.specs.TwoMachines.{time_at, first_machine, operation_of};

use std::alloc::Allocator;
use tf_model::ids::{JobId, MachineId};
use tf_model::task::Task;
use tf_schedule::semi_active::Operation;

// Machine 1 or machine 2.
pub(crate) fn machine_of(first: bool) -> MachineId
    ensures { result ≡ first_machine first }
{
    MachineId::at(if first { 0 } else { 1 })
}

// The operation of a job on a machine.
pub(crate) fn operation<B: Allocator>(task: &Task<B>, job: JobId, machine: MachineId) -> Operation
    requires { IsJob task.now job }
    ensures { result ≡ operation_of (time_at task.now) job machine }
{
    Operation {
        job,
        machine,
        time: task.time_on(job, machine),
    }
}
