//! The timetable of earliest due dates.
ghost use Rattle.std.specs.Prelude.{◌≡◌, ℕ, ◌+◌, ◌*◌, ◌<◌, ◌≤◌, ◌⊎◌, ◌++◌, length, map, [], IfOk};
ghost use Rattle.std.specs.List.Sorted.{IsPermutation};
ghost use Rattle.std.specs.BinaryHeap.{heap_items};
ghost use Rattle.tf_model.specs.Limit.{limit};
ghost use Rattle.tf_model.specs.SchedulingTask.{all_jobs, job_data, time_of};
ghost use Rattle.tf_model.specs.Sound.{IsSound};
ghost use Rattle.tf_model.specs.declared.class.Class.TheVariants.{ReleaseLmax};
ghost use Rattle.tf_single.specs.Progress.{IsTimeline};
ghost use Rattle.tf_single.specs.Agenda.{AreByRelease, IsUnderway, IsLonger, unfinished};

use std::alloc::Allocator;
use std::cmp::Reverse;
use std::collections::BinaryHeap;
use tf_check::ranking::{push_jobs, rank_at};
use tf_model::ids::{JobId, MachineId};
use tf_model::memory::OutOfMemory;
use tf_model::task::Task;
use tf_schedule::piece::Piece;

// At each time the released unfinished job of earliest due date runs, the smaller number among
// equals, from one release or completion to the next. The pieces come in order of time.
pub(crate) fn timeline<A: Allocator + Copy, B: Allocator>(
    alloc: A,
    task: &Task<B>,
) -> Result<Vec<Piece, A>, OutOfMemory>
    requires { task.now.class ≡ ReleaseLmax }
    ensures timeline { IfOk result (λ v. IsTimeline task.now v.items) }
    ensures few { IfOk result (λ v. length v.items ≤ 2 * length task.now.jobs) }
    ensures sound { IfOk result (λ _. IsSound task.now) }
{
    let order = jobs_by_release(alloc, task)?;
    let mut machine = Machine {
        now: 0,
        rest: times(alloc, task)?,
        ready: BinaryHeap::with_capacity(alloc, task.len())?,
        pieces: Vec::with_capacity(alloc, 2 * task.len())?,
    };
    run_all(&mut machine, task, &order)?;
    Ok(machine.pieces)
}

// Runs the jobs, of which each is ready from its release date on, and which come in that order.
fn run_all<A: Allocator, B: Allocator>(
    machine: &mut Machine<A>,
    task: &Task<B>,
    order: &[JobId],
) -> Result<(), OutOfMemory>
    requires sound { IsSound task.now }
    requires class { task.now.class ≡ ReleaseLmax }
    requires underway { IsUnderway task.now order.now (heap_items machine.old.ready)
        machine.old.rest.items machine.old.pieces.items machine.old.now }
    ensures timeline { IfOk result (λ _. IsTimeline task.now machine.new.pieces.items) }
    ensures few { IfOk result (λ _. length machine.new.pieces.items
        ≤ length machine.old.pieces.items + unfinished machine.old.rest.items
        + length order.now) }
{
    for k in 0..order.len() {
        machine.run(task, &order[k..])?;
        let job = order[k];
        machine.now = machine.now.max(task.release(job));
        machine.ready.push(Urgency {
            due: Reverse(task.due(job)),
            job: Reverse(job),
        })?;
    }
    machine.run(task, &[])?;
    Ok(())
}

// The jobs in order of their release dates, and by number among equals.
fn jobs_by_release<A: Allocator + Copy, B: Allocator>(
    alloc: A,
    task: &Task<B>,
) -> Result<Vec<JobId, A>, OutOfMemory>
    requires { task.now.class ≡ ReleaseLmax }
    ensures all { IfOk result (λ v. IsPermutation (all_jobs task.now) v.items) }
    ensures in_order { IfOk result (λ v. AreByRelease task.now v.items) }
{
    let mut jobs = Vec::with_capacity(alloc, task.len())?;
    let mut ranks = Vec::with_capacity(alloc, task.len())?;
    for k in 0..task.len() {
        let job = JobId::at(k);
        ranks.push(rank_at(task.release(job), job))?;
    }
    ranks.sort_unstable();
    push_jobs(&mut jobs, &ranks)?;
    Ok(jobs)
}

// The time of each job.
fn times<A: Allocator, B: Allocator>(alloc: A, task: &Task<B>) -> Result<Vec<u64, A>, OutOfMemory>
    ensures { IfOk result (λ v. v.items ≡ map (time_of task.now) (all_jobs task.now)) }
{
    let mut times = Vec::with_capacity(alloc, task.len())?;
    for k in 0..task.len() {
        times.push(task.time(JobId::at(k)))?;
    }
    Ok(times)
}

// A job that may run. The more urgent is the greater: due earlier, or as early and of smaller
// number.
#[derive(Clone, Copy, Drop, PartialEq, Eq, PartialOrd, Ord)]
struct Urgency {
    due: Reverse<i64>,
    job: Reverse<JobId>,
}

// The machine up to a time.
#[derive(Drop)]
struct Machine<A: Allocator> {
    now: u64,
    // The time that each job still needs.
    rest: Vec<u64, A>,
    // The released unfinished jobs.
    ready: BinaryHeap<Urgency, A>,
    pieces: Vec<Piece, A>,
}

impl<A: Allocator> Machine<A> {
    ghost use Rattle.std.specs.Prelude.{◌≡◌, ℕ, ◌+◌, ◌<◌, ◌≤◌, ◌⊎◌, length, map, min};
    ghost use Rattle.std.specs.Prelude.{slice_index_or, [], IfOk};
    ghost use Rattle.std.specs.BinaryHeap.{heap_items};
    ghost use Rattle.tf_model.specs.SchedulingTask.{job_data};
    ghost use Rattle.tf_model.specs.declared.class.Class.TheVariants.{ReleaseLmax};
    ghost use Rattle.tf_single.specs.Agenda.{IsUnderway, unfinished};

    // Runs ready jobs until the first of those to come is released, or until none is left.
    fn run<B: Allocator>(&mut self, task: &Task<B>, coming: &[JobId]) -> Result<(), OutOfMemory>
        requires class { task.now.class ≡ ReleaseLmax }
        requires underway { IsUnderway task.now coming.now (heap_items self.old.ready)
            self.old.rest.items
            self.old.pieces.items self.old.now }
        ensures underway { IfOk result (λ _.
            IsUnderway task.now coming.now (heap_items self.new.ready) self.new.rest.items
            self.new.pieces.items self.new.now) }
        ensures over { IfOk result (λ _.
            (heap_items self.new.ready ≡ []) ⊎ ((0 < length coming.now)
            × ((d : ℕ) →
            (job_data task.now (slice_index_or coming.now 0 d)).release ≤ self.new.now))) }
        ensures few { IfOk result (λ _.
            length self.new.pieces.items + unfinished self.new.rest.items
            ≤ length self.old.pieces.items + unfinished self.old.rest.items
            + min 1 (length coming.now)) }
    {
        let until = match coming.first() {
            Some(next) => task.release(*next),
            None => u64::MAX,
        };
        while self.now < until {
            let Some(first) = self.ready.peek() else {
                return Ok(());
            };
            let job = first.job.0;
            let place = job.place();
            let left = self.rest[place];
            let stop = until.min(self.now + left);
            run_on(&mut self.pieces, job, self.now, stop)?;
            if stop == self.now + left {
                self.ready.pop();
            }
            self.rest[place] = left - (stop - self.now);
            self.now = stop;
        }
        Ok(())
    }
}

// The job runs from `start` to `stop`: in a piece of its own, unless it ran last, up to `start`.
fn run_on<A: Allocator>(
    pieces: &mut Vec<Piece, A>,
    job: JobId,
    start: u64,
    stop: u64,
) -> Result<(), OutOfMemory>
    requires { (start < stop) × (stop ≤ limit) }
    ensures { IfOk result (λ _. IsLonger pieces.old.items pieces.new.items job start stop) }
{
    if let Some(last) = pieces.last_mut() {
        if last.job == job && last.stop == start as i64 {
            last.stop = stop as i64;
            return Ok(());
        }
    }
    pieces.push(Piece {
        job,
        machine: MachineId::FIRST,
        start: start as i64,
        stop: stop as i64,
    })?;
    Ok(())
}
