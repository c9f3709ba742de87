//! The bound by the load of all machines together.
use crate::evidence::Evidence;
use crate::fault::BoundFault;
use crate::kinds::takes_load;
use std::alloc::Allocator;
use tf_model::task::Task;

/// The time of all jobs, shared out among the machines (McNaughton 1959).
#[derive(Clone, Copy, Debug, PartialEq, Eq)]
pub struct Load;

impl Evidence for Load {
    ghost use Rattle.std.specs.Prelude.{◌≡◌};
    ghost use Rattle.tf_check.specs.Bound.{load_bound};
    ghost use Rattle.tf_check.specs.Laws.{load_law};

    ghost bound_of = { λ _ k. load_bound k };

    ghost law = { λ _ k rows b sound is fits. load_law k rows b sound is fits.broken };

    fn bound<B: Allocator + Copy, C: Allocator>(
        &self,
        _alloc: B,
        task: &Task<C>,
    ) -> Result<i128, BoundFault>
        ensures { result ≡ load_bound task.now }
    {
        if !takes_load(task.class()) {
            return Err(BoundFault::OtherKind);
        }
        Ok(i128::from(task.load()))
    }
}
