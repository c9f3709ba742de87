//! The bound by pairs.
use crate::evidence::Evidence;
use crate::fault::BoundFault;
use crate::kinds::takes_pairs;
use crate::ratio::{jobs_by_ratio, weighted_completions};
use std::alloc::Allocator;
use tf_model::task::Task;

/// Of each pair of jobs on one machine, one waits for the whole of the other (Smith 1956).
#[derive(Clone, Copy, Debug, PartialEq, Eq)]
pub struct Pairs;

impl Evidence for Pairs {
    ghost use Rattle.std.specs.Prelude.{◌≡◌};
    ghost use Rattle.tf_check.specs.Bound.{pairs_bound};
    ghost use Rattle.tf_check.specs.Laws.{pairs_law};

    ghost bound_of = { λ _ k. pairs_bound k };

    ghost law = { λ _ k rows b sound is fits. pairs_law k rows b sound is fits.broken };

    /// It takes memory for the jobs in their order by ratio.
    fn bound<B: Allocator + Copy, C: Allocator>(
        &self,
        alloc: B,
        task: &Task<C>,
    ) -> Result<i128, BoundFault> {
        if !takes_pairs(task.class()) {
            return Err(BoundFault::OtherKind);
        }
        let Ok(jobs) = jobs_by_ratio(alloc, task) else {
            return Err(BoundFault::OutOfMemory);
        };
        Ok(i128::from(weighted_completions(task, &jobs)))
    }
}
