//! Lists of jobs in certificates.
ghost use Rattle.std.specs.Prelude.{◌≡◌, ◌≤◌, [], length, IfOk};
ghost use Rattle.std.specs.List.{All};
ghost use Rattle.tf_model.specs.Distinct.{IsDistinct};
ghost use Rattle.tf_posed.specs.ProblemData.{IsProblemJob};
ghost use Rattle.tf_bound.specs.Faulted.{list_fault, NamesFault};
ghost use Rattle.tf_bound.specs.Sized.{IsSized};
ghost use Rattle.tf_bound.specs.Split.{AreSides};

use crate::fault::BoundFault;
use crate::task::ProblemTask;
use std::alloc::Allocator;
use tf_model::ids::JobId;

/// Judges a list. The first job, from left to right, that the task does not have or that stood
/// before, is the fault.
pub(crate) fn judge_list<A: Allocator, B: Allocator>(
    alloc: A,
    task: &ProblemTask<B>,
    jobs: &[JobId],
) -> Result<(), BoundFault>
    ensures sized { IsSized task.now }
    ensures fault { NamesFault (list_fault task.now [] jobs.now) result }
    ensures known { IfOk result (λ _. All (IsProblemJob task.now) jobs.now) }
    ensures distinct { IfOk result (λ _. IsDistinct jobs.now) }
{
    judged_marks(alloc, task, jobs)?;
    Ok(())
}

/// Judges a list, and says of each job of the task whether it stands there.
pub(crate) fn judged_marks<A: Allocator, B: Allocator>(
    alloc: A,
    task: &ProblemTask<B>,
    jobs: &[JobId],
) -> Result<Vec<bool, A>, BoundFault>
    ensures sized { IsSized task.now }
    ensures fault { NamesFault (list_fault task.now [] jobs.now) result }
    ensures known { IfOk result (λ _. All (IsProblemJob task.now) jobs.now) }
    ensures distinct { IfOk result (λ _. IsDistinct jobs.now) }
    ensures marks { IfOk result (λ marks. AreSides task.now marks.items jobs.now) }
{
    let Ok(mut seen) = vec![in alloc; false; task.len()] else {
        return Err(BoundFault::OutOfMemory);
    };
    for job in jobs {
        let place = job.place();
        if place >= seen.len() {
            return Err(BoundFault::BadJob(*job));
        }
        if seen[place] {
            return Err(BoundFault::Repeated(*job));
        }
        seen[place] = true;
    }
    Ok(seen)
}
