//! Lists of jobs in certificates.
ghost use Rattle.std.specs.Prelude.{◌≡◌, ◌⊎◌, [], None, Some, IfOk, MatchResult};
ghost use Rattle.std.specs.List.{All};
ghost use Rattle.tf_model.specs.SchedulingTask.{IsJob};
ghost use Rattle.tf_check.specs.Bound.{list_fault};
ghost use Rattle.tf_check.specs.Free.{AreMarks};
ghost use Rattle.tf_check.specs.declared.fault.BoundFault.TheVariants.{OutOfMemory};

use crate::fault::BoundFault;
use std::alloc::Allocator;
use tf_model::ids::JobId;
use tf_model::task::Task;

// Job by job of the task, whether it stands in the list. The first job, from left to right, that
// the task does not have or that stood before, is the fault.
pub(crate) fn judge_list<A: Allocator, B: Allocator>(
    alloc: A,
    task: &Task<B>,
    jobs: &[JobId],
) -> Result<Vec<bool, A>, BoundFault>
    ensures judged { MatchResult result (λ _. list_fault task.now [] jobs.now ≡ None)
        (λ fault. (fault ≡ OutOfMemory) ⊎ (list_fault task.now [] jobs.now ≡ Some fault)) }
    ensures known { IfOk result (λ _. All (IsJob task.now) jobs.now) }
    ensures marks { IfOk result (λ marks. AreMarks task.now marks.items jobs.now) }
{
    let Ok(mut seen) = vec![in alloc; false; task.len()] else {
        return Err(BoundFault::OutOfMemory);
    };
    for job in jobs {
        let place = job.place();
        if place >= seen.len() {
            return Err(BoundFault::BadJob(*job));
        }
        if seen[place] {
            return Err(BoundFault::Repeated(*job));
        }
        seen[place] = true;
    }
    Ok(seen)
}
