//! The bound by the load of one machine.
use crate::evidence::Evidence;
use crate::fault::BoundFault;
use crate::kinds::takes_machine;
use std::alloc::Allocator;
use tf_model::ids::MachineId;
use tf_model::task::Task;

/// A machine of a shop works for the times of all jobs on it (Gonzalez and Sahni 1976).
#[derive(Clone, Copy, Debug, PartialEq, Eq)]
pub struct MachineLoad {
    pub machine: MachineId,
}

impl Evidence for MachineLoad {
    ghost use Rattle.std.specs.Prelude.{◌≡◌};
    ghost use Rattle.tf_check.specs.Bound.{machine_bound};
    ghost use Rattle.tf_check.specs.Laws.{machine_law};

    ghost bound_of = { λ c k. machine_bound k c.machine };

    ghost law = { λ c k rows b sound is fits. machine_law k c.machine rows b sound is fits.broken };

    fn bound<B: Allocator + Copy, C: Allocator>(
        &self,
        _alloc: B,
        task: &Task<C>,
    ) -> Result<i128, BoundFault>
        ensures { result ≡ machine_bound task.now self.now.machine }
    {
        if !takes_machine(task.class()) {
            return Err(BoundFault::OtherKind);
        }
        if self.machine.get() > 2 {
            return Err(BoundFault::BadMachine(self.machine));
        }
        Ok(i128::from(task.work_on(self.machine)))
    }
}
