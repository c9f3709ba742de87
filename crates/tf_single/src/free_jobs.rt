//! The jobs of which each may go last.
use std::alloc::Allocator;
use tf_model::ids::JobId;
use tf_model::memory::OutOfMemory;
use tf_model::task::Task;

/// A job that goes last of those that are left, and what it costs there.
#[derive(Clone, Copy)]
pub(crate) struct LastJob {
    pub(crate) job: JobId,
    pub(crate) cost: i64,
}

/// Jobs of those that are left of which each may go last, so that the cheapest for last is at hand.
pub(crate) trait FreeJobs {
    ghost use Rattle.std.specs.Prelude.{◌≡◌, ℕ, ◌<◌, ◌≤◌, ◌≤ℤ◌, true, false};
    ghost use Rattle.std.specs.Prelude.{List, [], ◌∷◌, length, IfOk};
    ghost use Rattle.std.specs.List.{All, Contains};
    ghost use Rattle.std.specs.List.Sorted.{IsPermutation};
    ghost use Rattle.tf_model.specs.Cost.{price};
    ghost use Rattle.tf_model.specs.Limit.{limit};
    ghost use Rattle.tf_model.specs.SchedulingTask.{SchedulingTask, IsJob};
    ghost use Rattle.tf_model.specs.Sound.{IsSound};

    /// The free jobs.
    ghost jobs_of: { Self → List ℕ };

    /// What is known of them and of the task where the work that is left is at most this.
    ghost IsKept: { Self → SchedulingTask → ℕ → Type 0 };

    /// Whether no job is free.
    fn is_empty(&self) -> bool
        ensures none { result ≡ true → jobs_of self.now ≡ [] }
        ensures some { result ≡ false → 0 < length (jobs_of self.now) };

    /// One more job is free.
    fn add<B: Allocator>(&mut self, task: &Task<B>, job: JobId) -> Result<(), OutOfMemory>
        requires job { IsJob task.now job }
        requires kept { (work : ℕ) × IsKept self.old task.now work }
        ensures jobs { IfOk result (λ _.
            IsPermutation (job ∷ jobs_of self.old) (jobs_of self.new)) }
        ensures kept { IfOk result (λ _. (work : ℕ) →
            IsKept self.old task.now work → IsKept self.new task.now work) };

    /// Takes away the job that is the cheapest if it completes when this work is over, the greatest
    /// number among equals. What is asked later is asked for no more work.
    fn take_last<B: Allocator>(&mut self, task: &Task<B>, work: u64) -> LastJob
        requires sound { IsSound task.now }
        requires some { 0 < length (jobs_of self.old) }
        requires known { All (IsJob task.now) (jobs_of self.old) }
        requires within { work ≤ limit }
        requires kept { IsKept self.old task.now work }
        ensures jobs { IsPermutation (jobs_of self.old) (result.job ∷ jobs_of self.new) }
        ensures cost { result.cost ≡ price task.now result.job work }
        ensures cheapest { (j : ℕ) → Contains (jobs_of self.old) j →
            result.cost ≤ℤ price task.now j work }
        ensures ties { (j : ℕ) → Contains (jobs_of self.old) j →
            price task.now j work ≡ result.cost → j ≤ result.job }
        ensures kept { (end : ℕ) → end ≤ work → IsKept self.new task.now end };
}
