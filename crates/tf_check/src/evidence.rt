//! Evidence that no timetable is cheap.
use crate::fault::BoundFault;
use std::alloc::Allocator;
use tf_model::task::Task;

/// What shows that no timetable of a task costs less than a bound.
pub trait Evidence {
    ghost use Rattle.std.specs.Prelude.{◌≡◌, ℤ, ◌≤ℤ◌, Result, Ok};
    ghost use Rattle.tf_model.specs.SchedulingTask.{SchedulingTask};
    ghost use Rattle.tf_model.specs.Timetable.{Timetable};
    ghost use Rattle.tf_model.specs.Sound.{IsSound};
    ghost use Rattle.tf_model.specs.Feasible.{Fits};
    ghost use Rattle.tf_model.specs.Cost.{cost};
    ghost use Rattle.tf_check.specs.declared.fault.BoundFault.{BoundFault};
    ghost use Rattle.tf_check.specs.Bound.{IsBoundOrNoMemory};

    /// The bound on a task, or the first fault.
    ghost bound_of: { Self → SchedulingTask → Result ℤ BoundFault };

    /// The bound on the task, or the first fault, unless memory runs out.
    fn bound<B: Allocator + Copy, C: Allocator>(
        &self,
        alloc: B,
        task: &Task<C>,
    ) -> Result<i128, BoundFault>
        ensures { IsBoundOrNoMemory result (bound_of self.now task.now) };

    /// A bound that is given is at most the cost of every timetable that fits.
    ghost law: { (c : Self) (k : SchedulingTask) (rows : Timetable) (b : ℤ) → IsSound k →
        bound_of c k ≡ Ok b → Fits k rows → b ≤ℤ cost k rows };
}
