//! One machine, and the greatest cost of a job: Lawler's rule.
ghost use Rattle.std.specs.Prelude.{◌≡◌, ℕ, ◌≤◌, [], IfOk, IfErr, IsTrue};
ghost use Rattle.std.specs.List.{All};
ghost use Rattle.tf_model.specs.ClassTable.{is_due};
ghost use Rattle.tf_model.specs.Limit.{limit};
ghost use Rattle.tf_model.specs.SchedulingTask.{IsJob};
ghost use Rattle.tf_model.specs.Sound.{IsSound};
ghost use Rattle.tf_schedule.specs.Schedule.{IsSchedule};
ghost use Rattle.tf_check.specs.Accepted.{IsAccepted};
ghost use Rattle.tf_check.specs.Kinds.{takes_last_of};
ghost use Rattle.tf_single.specs.Backward.{AreChosen, IsDearest, rest_of};
ghost use Rattle.tf_single.specs.Costs.{AreCosts};
ghost use Rattle.tf_single.specs.FromTheBack.{IsFromTheBack};
ghost use Rattle.tf_single.specs.NotSolved.{IsNotSolved};

use crate::backward::{Step, last_first};
use crate::by_cost::ByCost;
use crate::by_due::{ByNearDue, near_due};
use crate::free_jobs::FreeJobs;
use crate::greatest_first::GreatestFirst;
use crate::lawler_fault::LawlerFault;
use std::alloc::Allocator;
use tf_check::answer::Answer;
use tf_check::certificate::Certificate;
use tf_check::keyed_job::KeyedJob;
use tf_check::last_of::LastOf;
use tf_model::cost::Cost;
use tf_model::ids::JobId;
use tf_model::job_list::JobList;
use tf_model::memory::OutOfMemory;
use tf_model::task::Task;
use tf_schedule::piece_list::PieceList;
use tf_schedule::sequence::{in_sequence, reversed};

/// A timetable on one machine whose dearest job costs least, where costs do not fall with time and
/// arcs are kept (Lawler 1973); or a cycle of arcs.
///
/// It is built from the back: of the jobs that are left and have no successor that is left, the one
/// that is cheapest when the work of all that are left is over goes last, the greater number among
/// equals. The pieces come in order of time. The certificate is the set of the jobs that were left
/// at the first of the dearest steps, in rising order. The costs are those of the task, job by job.
/// The cycle is the end of a walk among the jobs from which arcs lead on without end, from the
/// smallest and each time to the smallest successor, until a job comes again.
/// Each step walks over the free jobs, which takes a time of the order of the square of their
/// number: for lateness see [`lawler_by_due`].
pub fn lawler<A: Allocator + Copy, B: Allocator, C: Cost>(
    alloc: A,
    task: &Task<B>,
    costs: &[C],
) -> Result<Answer<A>, LawlerFault<A>>
    requires class { IsTrue (takes_last_of task.now.class) }
    requires costs { AreCosts C.cost_at task.now costs.now }
    ensures schedule { IfOk result (λ a. IsSchedule a.pieces) }
    ensures accepted { IfOk result (IsAccepted task.now) }
    ensures rule { IfOk result (λ a. IsFromTheBack task.now a.pieces a.certificate) }
    ensures cycle { IfErr result (IsNotSolved task.now) }
{
    let taken = Vec::with_capacity(alloc, task.len())?;
    from_the_back(alloc, task, taken, ByCost::new(alloc, task, costs)?)
}

/// A timetable on one machine whose latest job is least late, where arcs are kept (Lawler 1973); or
/// a cycle of arcs.
///
/// The same answer as that of [`lawler`] for lateness. When the work of all that are left is over,
/// the job that is due last is the least late, so the free jobs are kept by their due dates. It
/// takes a time of the order of n log n, for n jobs and arcs.
pub fn lawler_by_due<A: Allocator + Copy, B: Allocator>(
    alloc: A,
    task: &Task<B>,
) -> Result<Answer<A>, LawlerFault<A>>
    requires class { IsTrue (takes_last_of task.now.class) }
    requires due { IsTrue (is_due task.now.class) }
    ensures schedule { IfOk result (λ a. IsSchedule a.pieces) }
    ensures accepted { IfOk result (IsAccepted task.now) }
    ensures rule { IfOk result (λ a. IsFromTheBack task.now a.pieces a.certificate) }
    ensures cycle { IfErr result (IsNotSolved task.now) }
{
    let taken = Vec::with_capacity(alloc, task.len())?;
    match near_due(task) {
        Some(least) => from_the_back(alloc, task, taken, ByNearDue::new(alloc, task, least)?),
        None => {
            let free: GreatestFirst<KeyedJob, A> = GreatestFirst::new(alloc, task.len())?;
            from_the_back(alloc, task, taken, free)
        }
    }
}

// The answer by free jobs of this kind, of which none is free or taken before.
fn from_the_back<A: Allocator + Copy, B: Allocator, F: FreeJobs + Drop>(
    alloc: A,
    task: &Task<B>,
    taken: Vec<JobId, A>,
    free: F,
) -> Result<Answer<A>, LawlerFault<A>>
    requires class { IsTrue (takes_last_of task.now.class) }
    requires taken { taken.items ≡ [] }
    requires none { F.jobs_of free ≡ [] }
    requires kept { (work : ℕ) → work ≤ limit → F.IsKept free task.now work }
    ensures schedule { IfOk result (λ a. IsSchedule a.pieces) }
    ensures accepted { IfOk result (IsAccepted task.now) }
    ensures rule { IfOk result (λ a. IsFromTheBack task.now a.pieces a.certificate) }
    ensures cycle { IfErr result (IsNotSolved task.now) }
{
    let order = last_first(alloc, task, taken, free)?;
    Ok(answer_of(alloc, task, order)?)
}

// The timetable of jobs that were chosen the last first, with the set of those that were left at
// the first of the dearest steps.
fn answer_of<A: Allocator + Copy, B: Allocator>(
    alloc: A,
    task: &Task<B>,
    order: (Vec<JobId, A>, Step),
) -> Result<Answer<A>, OutOfMemory>
    requires class { IsTrue (takes_last_of task.now.class) }
    requires sound { IsSound task.now }
    requires chosen { AreChosen task.now order.0.items }
    requires all { rest_of task.now order.0.items ≡ [] }
    requires dearest { IsDearest task.now order.0.items order.1 }
    ensures schedule { IfOk result (λ a. IsSchedule a.pieces) }
    ensures accepted { IfOk result (IsAccepted task.now) }
    ensures rule { IfOk result (λ a. IsFromTheBack task.now a.pieces a.certificate) }
{
    let (jobs, dearest) = order;
    let left = left_jobs(alloc, task, &jobs[..dearest.place])?;
    let sequence = reversed(jobs);
    let pieces = in_sequence(alloc, task, &sequence)?;
    Ok(Answer {
        pieces: PieceList::new(pieces),
        value: dearest.value,
        certificate: Certificate::LastOf(LastOf {
            jobs: JobList::new(left),
        }),
    })
}

// The jobs that are left when these are taken, in rising order.
fn left_jobs<A: Allocator + Copy, B: Allocator>(
    alloc: A,
    task: &Task<B>,
    taken: &[JobId],
) -> Result<Vec<JobId, A>, OutOfMemory>
    requires { All (IsJob task.now) taken.now }
    ensures { IfOk result (λ v. v.items ≡ rest_of task.now taken.now) }
{
    let mut is_taken = vec![in alloc; false; task.len()]?;
    for job in taken {
        is_taken[job.place()] = true;
    }
    let mut left = Vec::with_capacity(alloc, task.len())?;
    for k in 0..task.len() {
        if !is_taken[k] {
            left.push(JobId::at(k))?;
        }
    }
    Ok(left)
}
