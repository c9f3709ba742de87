//! A cycle of arcs.
ghost use Rattle.std.specs.Prelude.{◌≡◌, ℕ, ◌<◌, length, IfOk};
ghost use Rattle.std.specs.List.{Contains};
ghost use Rattle.tf_model.specs.Cycle.{IsForbiddingCycle};
ghost use Rattle.tf_model.specs.SchedulingTask.{IsJob};
ghost use Rattle.tf_single.specs.Progress.{of_job};
ghost use Rattle.tf_single.specs.FirstCycle.{IsFirstOf, IsFirstCycle, IsWalkedCycle};
ghost use Rattle.tf_single.specs.Successors.{HasSuccessor, AreSuccessors, AreSmallest};
ghost use Rattle.tf_single.specs.Successors.{IsLeft, IsListed, smaller_of};

use std::alloc::Allocator;
use tf_model::ids::JobId;
use tf_model::job_list::JobList;
use tf_model::memory::OutOfMemory;
use tf_model::task::Task;

// Where each job of which some arcs are left has an arc to another such job: a walk from the
// smallest of them, each time to the smallest such successor, until a job comes again, and the jobs
// from that one on.
pub(crate) fn cycle<A: Allocator + Copy, B: Allocator>(
    alloc: A,
    task: &Task<B>,
    counts: &[u32],
) -> Result<JobList<A>, OutOfMemory>
    requires len { length counts.now ≡ length task.now.jobs }
    requires stuck { (j : ℕ) → IsJob task.now j → 0 < of_job counts.now j
        → (x : ℕ) × Contains task.now.arcs (j, x) × (0 < of_job counts.now x) }
    requires some { (j : ℕ) × IsJob task.now j × (0 < of_job counts.now j) }
    ensures forbids { IfOk result (λ jobs. IsForbiddingCycle task.now jobs) }
    ensures first { IfOk result (λ jobs. IsFirstCycle task.now (IsLeft counts.now) jobs) }
{
    let next = successors(alloc, task, counts)?;
    walk(alloc, task, &next, first_left(task, counts))
}

// The smallest job of which some arcs are left.
fn first_left<B: Allocator>(task: &Task<B>, counts: &[u32]) -> JobId
    requires len { length counts.now ≡ length task.now.jobs }
    requires some { (j : ℕ) × IsJob task.now j × (0 < of_job counts.now j) }
    ensures { IsFirstOf task.now (IsLeft counts.now) result }
{
    for k in 0..task.len() {
        if counts[k] > 0 {
            return JobId::at(k);
        }
    }
    JobId::at(0)
}

// For each job its smallest successor of which some arcs are left.
fn successors<A: Allocator, B: Allocator>(
    alloc: A,
    task: &Task<B>,
    counts: &[u32],
) -> Result<Vec<Option<JobId>, A>, OutOfMemory>
    requires len { length counts.now ≡ length task.now.jobs }
    requires stuck { (j : ℕ) → IsJob task.now j → 0 < of_job counts.now j
        → (x : ℕ) × Contains task.now.arcs (j, x) × (0 < of_job counts.now x) }
    ensures are { IfOk result (λ v. AreSuccessors task.now v.items) }
    ensures some { IfOk result (λ v.
        (j : ℕ) → IsJob task.now j → 0 < of_job counts.now j → HasSuccessor v.items j) }
    ensures smallest { IfOk result (λ v. AreSmallest task.now counts.now v.items) }
{
    let mut next: Vec<Option<JobId>, A> = vec![in alloc; None; task.len()]?;
    for (before, after) in task.arcs() {
        if counts[after.place()] > 0 {
            let place = before.place();
            next[place] = Some(smaller(next[place], *after));
        }
    }
    Ok(next)
}

// The smaller of a job, where there is one, and another.
fn smaller(found: Option<JobId>, job: JobId) -> JobId
    ensures { result ≡ smaller_of found job }
{
    match found {
        Some(other) if other < job => other,
        _ => job,
    }
}

// From the job from successor to successor until a job comes again: the jobs from that one on.
fn walk<A: Allocator + Copy, B: Allocator>(
    alloc: A,
    task: &Task<B>,
    next: &[Option<JobId>],
    first: JobId,
) -> Result<JobList<A>, OutOfMemory>
    requires successors { AreSuccessors task.now next.now }
    requires job { IsJob task.now first }
    requires first { HasSuccessor next.now first }
    ensures forbids { IfOk result (λ jobs. IsForbiddingCycle task.now jobs) }
    ensures walked { IfOk result (λ jobs. IsWalkedCycle first (IsListed task.now next.now) jobs) }
{
    let mut places: Vec<Option<usize>, A> = vec![in alloc; None; task.len()]?;
    let mut path = Vec::with_capacity(alloc, task.len())?;
    let mut job = first;
    'walk: loop {
        let place = job.place();
        if let Some(start) = places[place] {
            return Ok(JobList::new(path.as_slice()[start..].to_vec(alloc)?));
        }
        places[place] = Some(path.len());
        path.push(job)?;
        job = next[place].unwrap();
    }
}
