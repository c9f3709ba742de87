//! The bound by a window.
ghost use Rattle.std.specs.Prelude.{◌≡◌, ◌≤◌, ◌<◌, length, IsTrue};
ghost use Rattle.std.specs.List.{All, sum_by};
ghost use Rattle.tf_model.specs.SchedulingTask.{IsJob, time_of};
ghost use Rattle.tf_model.specs.Sound.{IsSound};
ghost use Rattle.tf_model.specs.ClassTable.{is_due, is_released};
ghost use Rattle.tf_model.specs.Limit.{limit};
ghost use Rattle.tf_check.specs.Bound.{window_span};

use crate::evidence::Evidence;
use crate::fault::BoundFault;
use crate::jobs::judge_list;
use crate::kinds::takes_window;
use crate::set_numbers::{greatest_due, least_release, work_of};
use std::alloc::{Allocator, Global};
use tf_model::ids::JobId;
use tf_model::job_list::JobList;
use tf_model::task::Task;

/// The work of the jobs cannot begin before the least of their release dates (Horn 1974).
#[derive(Drop)]
pub struct Window<A: Allocator = Global> {
    pub jobs: JobList<A>,
}

impl<A: Allocator> Evidence for Window<A> {
    ghost use Rattle.std.specs.Prelude.{◌≡◌};
    ghost use Rattle.tf_check.specs.Bound.{window_bound};
    ghost use Rattle.tf_check.specs.Laws.{window_law};

    ghost bound_of = { λ c k. window_bound k c.jobs };

    ghost law = { λ c k rows b sound is fits. window_law k c.jobs rows b sound is fits.broken };

    /// It takes memory for a mark for each job of the task.
    fn bound<B: Allocator + Copy, C: Allocator>(
        &self,
        alloc: B,
        task: &Task<C>,
    ) -> Result<i128, BoundFault> {
        if !takes_window(task.class()) {
            return Err(BoundFault::OtherKind);
        }
        let jobs = self.jobs.as_slice();
        judge_list(alloc, task, jobs)?;
        if jobs.is_empty() {
            return Err(BoundFault::EmptySet);
        }
        Ok(span(task, jobs))
    }
}

// The least release date and all the work, less the greatest due date.
fn span<C: Allocator>(task: &Task<C>, jobs: &[JobId]) -> i128
    requires sound { IsSound task.now }
    requires due { IsTrue (is_due task.now.class) }
    requires released { IsTrue (is_released task.now.class) }
    requires known { All (IsJob task.now) jobs.now }
    requires some { 0 < length jobs.now }
    requires work { sum_by (time_of task.now) jobs.now ≤ limit }
    ensures { result ≡ window_span task.now jobs.now }
{
    let begun = least_release(task, jobs);
    i128::from(begun + work_of(task, jobs)) - i128::from(greatest_due(task, jobs))
}
