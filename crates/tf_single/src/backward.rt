//! Jobs that are taken one after another, each to go last of those that are left.
ghost use Rattle.std.specs.Prelude.{◌≡◌, ◌⊎◌, ℕ, ◌≤◌, ◌≤ℤ◌, ◌<ℤ◌, [], IfSome, MatchResult, Some};
ghost use Rattle.tf_model.specs.Limit.{limit};
ghost use Rattle.tf_model.specs.Sound.{IsSound};
ghost use Rattle.tf_single.specs.Backward.{AreChosen, IsDearest, rest_of};
ghost use Rattle.tf_single.specs.NotSolved.{IsNotSolved};

use crate::arcs_into::{ArcsInto, arc_counts};
use crate::cycle::cycle;
use crate::free_jobs::{FreeJobs, LastJob};
use crate::lawler_fault::LawlerFault;
use std::alloc::Allocator;
use tf_model::ids::JobId;
use tf_model::memory::OutOfMemory;
use tf_model::task::Task;

/// A step at which a job is taken, and what the job costs.
#[derive(Clone, Copy)]
pub(crate) struct Step {
    pub(crate) place: usize,
    pub(crate) value: i64,
}

// All jobs, the last first, and the first of the dearest steps: of those without a successor that
// is left, each is the cheapest when the work of those that are left is over, the greatest number
// among equals. Where each that is left has a successor that is left, a cycle. None is taken and
// none is free before.
pub(crate) fn last_first<A: Allocator + Copy, B: Allocator, F: FreeJobs + Drop>(
    alloc: A,
    task: &Task<B>,
    taken: Vec<JobId, A>,
    free: F,
) -> Result<(Vec<JobId, A>, Step), LawlerFault<A>>
    requires taken { taken.items ≡ [] }
    requires none { F.jobs_of free ≡ [] }
    requires kept { (work : ℕ) → work ≤ limit → F.IsKept free task.now work }
    ensures { MatchResult result
        (λ order. IsSound task.now × AreChosen task.now order.0.items
        × (rest_of task.now order.0.items ≡ [])
        × IsDearest task.now order.0.items order.1)
        (IsNotSolved task.now) }
{
    let (successors, predecessors) = arc_counts(alloc, task)?;
    let arcs = ArcsInto::of(alloc, task, predecessors)?;
    let mut open = Open::new(task, taken, successors, free)?;
    let mut dearest = None;
    for place in 0..task.len() {
        if open.free.is_empty() {
            return Err(LawlerFault::Cycle(cycle(alloc, task, &open.counts)?));
        }
        let value = open.take(task, &arcs)?.cost;
        dearest = Some(dearer(dearest, Step { place, value }));
    }
    Ok((open.taken, dearest.unwrap()))
}

// The dearer of a step, where there is one, and a later step; of equals the first.
fn dearer(before: Option<Step>, step: Step) -> Step
    ensures { ((result ≡ step) × IfSome before (λ other. other.value <ℤ step.value))
        ⊎ ((before ≡ Some result) × (step.value ≤ℤ result.value)) }
{
    match before {
        Some(dearest) if dearest.value >= step.value => dearest,
        _ => step,
    }
}

// The jobs that were taken, the last first, and what the arcs say of those that are left.
#[derive(Drop)]
struct Open<F: FreeJobs, A: Allocator> {
    taken: Vec<JobId, A>,
    // For each job, how many arcs lead from it to jobs that are left.
    counts: Vec<u32, A>,
    // The jobs that are left and have count 0.
    free: F,
    // The work of the jobs that are left.
    work: u64,
}

impl<F: FreeJobs + Drop, A: Allocator + Copy> Open<F, A> {
    ghost use Rattle.std.specs.Prelude.{◌≡◌, ℕ, ◌<◌, ◌≤◌, [], ◌∷◌, ◌++◌, length, IfOk};
    ghost use Rattle.tf_model.specs.Limit.{limit};
    ghost use Rattle.tf_model.specs.SchedulingTask.{IsJob};
    ghost use Rattle.tf_model.specs.Sound.{IsSound};
    ghost use Rattle.tf_single.specs.ArcCounts.{AreArcsFrom};
    ghost use Rattle.tf_single.specs.ArcsInto.{AreFound, arcs_between};
    ghost use Rattle.tf_single.specs.Backward.{price_behind, rest_of};
    ghost use Rattle.tf_single.specs.Open.{IsOpen, AreTaken};

    // No job is taken, and those that no arc leads from are free. The counts are those of the arcs
    // from each job.
    fn new<B: Allocator>(
        task: &Task<B>,
        taken: Vec<JobId, A>,
        counts: Vec<u32, A>,
        free: F,
    ) -> Result<Self, OutOfMemory>
        requires taken { taken.items ≡ [] }
        requires counts { AreArcsFrom task.now counts.items }
        requires none { F.jobs_of free ≡ [] }
        requires kept { (work : ℕ) → work ≤ limit → F.IsKept free task.now work }
        ensures taken { IfOk result (λ start. start.taken.items ≡ []) }
        ensures now { IfOk result (λ start. AreTaken task.now start.taken.items start.counts.items
            (F.jobs_of start.free) start.work) }
        ensures kept { IfOk result (λ start. F.IsKept start.free task.now start.work) }
    {
        let mut free = free;
        for k in 0..task.len() {
            if counts[k] == 0 {
                free.add(task, JobId::at(k))?;
            }
        }
        Ok(Open {
            taken,
            counts,
            free,
            work: task.total_time(),
        })
    }

    // The cheapest free job is taken.
    fn take<B: Allocator>(
        &mut self,
        task: &Task<B>,
        arcs: &ArcsInto<A>,
    ) -> Result<LastJob, OutOfMemory>
        requires sound { IsSound task.now }
        requires arcs { AreFound task.now arcs.now.ends.items arcs.now.froms.items }
        requires some { 0 < length (F.jobs_of self.old.free) }
        requires now { AreTaken task.now self.old.taken.items self.old.counts.items
            (F.jobs_of self.old.free) self.old.work }
        requires kept { F.IsKept self.old.free task.now self.old.work }
        ensures taken { IfOk result (λ last.
            self.new.taken.items ≡ self.old.taken.items ++ last.job ∷ []) }
        ensures cost { IfOk result (λ last. last.cost
            ≡ price_behind task.now (rest_of task.now self.old.taken.items) last.job) }
        ensures now { IfOk result (λ _. AreTaken task.now self.new.taken.items
            self.new.counts.items (F.jobs_of self.new.free) self.new.work) }
        ensures kept { IfOk result (λ _. F.IsKept self.new.free task.now self.new.work) }
    {
        let last = self.free.take_last(task, self.work);
        self.work -= task.time(last.job);
        self.taken.push(last.job)?;
        self.release(task, arcs, last.job)?;
        Ok(last)
    }

    // The job is left no more, so that the arcs into it are none of those that are left.
    fn release<B: Allocator>(
        &mut self,
        task: &Task<B>,
        arcs: &ArcsInto<A>,
        job: JobId,
    ) -> Result<(), OutOfMemory>
        requires arcs { AreFound task.now arcs.now.ends.items arcs.now.froms.items }
        requires job { IsJob task.now job }
        requires now { IsOpen task.now self.old.taken.items
            (arcs_between task.now.arcs (length task.now.arcs) job)
            self.old.counts.items (F.jobs_of self.old.free) }
        requires kept { F.IsKept self.old.free task.now self.old.work }
        ensures taken { self.new.taken.items ≡ self.old.taken.items }
        ensures work { self.new.work ≡ self.old.work }
        ensures now { IfOk result (λ _. IsOpen task.now self.new.taken.items (λ _. 0)
            self.new.counts.items (F.jobs_of self.new.free)) }
        ensures kept { IfOk result (λ _. F.IsKept self.new.free task.now self.new.work) }
    {
        for before in arcs.predecessors(job) {
            let place = before.place();
            let left = self.counts[place] - 1;
            self.counts[place] = left;
            if left == 0 {
                self.free.add(task, *before)?;
            }
        }
        Ok(())
    }
}
