//! The bound by one job.
use crate::evidence::Evidence;
use crate::fault::BoundFault;
use crate::kinds::takes_one_job;
use std::alloc::Allocator;
use tf_model::ids::JobId;
use tf_model::task::Task;

/// A job takes its own time, which it spends on one machine at a time (McNaughton 1959).
#[derive(Clone, Copy, Debug, PartialEq, Eq)]
pub struct OneJob {
    pub job: JobId,
}

impl Evidence for OneJob {
    ghost use Rattle.std.specs.Prelude.{◌≡◌};
    ghost use Rattle.tf_check.specs.Bound.{one_job_bound};
    ghost use Rattle.tf_check.specs.Laws.{one_job_law};

    ghost bound_of = { λ c k. one_job_bound k c.job };

    ghost law = { λ c k rows b sound is fits. one_job_law k c.job rows b sound is fits.broken };

    fn bound<B: Allocator + Copy, C: Allocator>(
        &self,
        _alloc: B,
        task: &Task<C>,
    ) -> Result<i128, BoundFault>
        ensures { result ≡ one_job_bound task.now self.now.job }
    {
        if !takes_one_job(task.class()) {
            return Err(BoundFault::OtherKind);
        }
        if self.job.get() as usize > task.len() {
            return Err(BoundFault::BadJob(self.job));
        }
        Ok(i128::from(task.time(self.job)))
    }
}
