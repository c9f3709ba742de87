//! A search for the machine and the jobs of the greatest bound by one machine.
//!
//! On each machine the rule of earliest due dates solves the preemptive problem of heads and tails
//! (Horn 1974), and its window is the set of jobs.
ghost use Rattle.std.specs.Prelude.{◌≡◌, ◌⊎◌, ◌<◌, IfOk, IfSome, IsTrue};
ghost use Rattle.std.specs.List.{All};
ghost use Rattle.tf_posed.specs.ProblemData.{IsProblemJob};
ghost use Rattle.tf_posed.specs.ProblemCost.{IsLowerBound};
ghost use Rattle.tf_problem.specs.ProblemBounds.{is_by_machine};

use std::alloc::{Allocator, Global};
use tf_bound::fault::BoundFault;
use tf_bound::machine::{machine_bound, takes_machine};
use tf_bound::task::ProblemTask;
use tf_check::certificate::Certificate;
use tf_model::class::Class;
use tf_model::ids::JobId;
use tf_model::job::{Job, Times};
use tf_model::memory::OutOfMemory;
use tf_model::problem::{Env, Goal, Problem};
use tf_model::task::Task;
use tf_model::task_builder::TaskBuilder;
use tf_single::edd::edd;

/// Some jobs on a machine, counted from 0, and what they bound.
#[derive(Drop)]
pub struct MachineSet<A: Allocator = Global> {
    pub machine: usize,
    pub jobs: Vec<JobId, A>,
    pub value: i128,
}

/// The set of the greatest value that is found, and none where each machine is refused.
pub fn search_machines<A: Allocator + Copy, B: Allocator>(
    alloc: A,
    task: &ProblemTask<B>,
) -> Result<Option<MachineSet<A>>, BoundFault>
    ensures { IfOk result (λ best. IfSome best (λ found. IsLowerBound task.now found.value)) }
{
    if !takes_machine(task) {
        return Err(BoundFault::OtherKind);
    }
    let mut best: Option<MachineSet<A>> = None;
    for machine in 0..task.machines() as usize {
        let found = window_on(alloc, task, machine)?;
        best = better(best, found);
    }
    Ok(best)
}

// The one of the greater value.
fn better<A: Allocator>(
    one: Option<MachineSet<A>>,
    other: Option<MachineSet<A>>,
) -> Option<MachineSet<A>>
    ensures { (result ≡ one) ⊎ (result ≡ other) }
{
    match (one, other) {
        (Some(one), Some(other)) => {
            if one.value < other.value {
                Some(other)
            } else {
                Some(one)
            }
        }
        (Some(one), None) => Some(one),
        (None, other) => other,
    }
}

// The window of the machine, and what it bounds.
fn window_on<A: Allocator + Copy, B: Allocator>(
    alloc: A,
    task: &ProblemTask<B>,
    machine: usize,
) -> Result<Option<MachineSet<A>>, BoundFault>
    requires machine { machine < task.now.machines }
    requires env { IsTrue (is_by_machine task.now.problem.env) }
    ensures { IfOk result (λ best. IfSome best (λ found. IsLowerBound task.now found.value)) }
{
    let jobs = late_jobs(alloc, task, machine)?;
    if jobs.is_empty() {
        return Ok(None);
    }
    let value = machine_bound(alloc, task, machine, &jobs)?;
    Ok(Some(MachineSet {
        machine,
        jobs,
        value,
    }))
}

// The jobs of the window of the machine, and no job where there is none.
fn late_jobs<A: Allocator + Copy, B: Allocator>(
    alloc: A,
    task: &ProblemTask<B>,
    machine: usize,
) -> Result<Vec<JobId, A>, OutOfMemory>
    requires machine { machine < task.now.machines }
    requires env { IsTrue (is_by_machine task.now.problem.env) }
{
    let kept = jobs_on(alloc, task, machine)?;
    match task_on(alloc, task, machine, &kept)? {
        Some(small) => latest_window(alloc, &small, &kept),
        None => Ok(Vec::new(alloc)),
    }
}

// The jobs that have time on the machine.
fn jobs_on<A: Allocator, B: Allocator>(
    alloc: A,
    task: &ProblemTask<B>,
    machine: usize,
) -> Result<Vec<JobId, A>, OutOfMemory>
    requires machine { machine < task.now.machines }
    requires env { IsTrue (is_by_machine task.now.problem.env) }
    ensures { IfOk result (λ jobs. All (IsProblemJob task.now) jobs.items) }
{
    let mut jobs = Vec::new(alloc);
    for k in 0..task.len() {
        let job = JobId::at(k);
        if task.time_on(machine, job) > 0 {
            jobs.push(job)?;
        }
    }
    Ok(jobs)
}

// The jobs as they are on the machine alone, released at their heads and due so much earlier as
// their tails are long. None where their numbers are beyond the limits.
fn task_on<A: Allocator + Copy, B: Allocator>(
    alloc: A,
    task: &ProblemTask<B>,
    machine: usize,
    jobs: &[JobId],
) -> Result<Option<Task<A>>, OutOfMemory>
    requires machine { machine < task.now.machines }
    requires env { IsTrue (is_by_machine task.now.problem.env) }
    requires jobs { All (IsProblemJob task.now) jobs.now }
{
    let mut problem = Problem::plain(Env::Single, Goal::Lmax);
    problem.release = true;
    problem.prmp = true;
    let Some(mut builder) = TaskBuilder::judging(alloc, &problem, jobs.len()) else {
        return Err(OutOfMemory);
    };
    for job in jobs {
        let row = Job {
            times: Times::One(task.time_on(machine, *job) as i64),
            weight: None,
            due: Some(task.due(*job) - task.tail(machine, *job) as i64),
            release: Some(task.head(machine, *job) as i64),
            cost: None,
        };
        let Some(()) = builder.push_judged(row) else {
            return Ok(None);
        };
    }
    Ok(builder.finish_judged())
}

// The window of a timetable of least greatest lateness, by the numbers that the jobs had before.
fn latest_window<A: Allocator + Copy, B: Allocator>(
    alloc: A,
    small: &Task<B>,
    kept: &[JobId],
) -> Result<Vec<JobId, A>, OutOfMemory> {
    let Class::ReleaseLmax = small.class() else {
        return Ok(Vec::new(alloc));
    };
    let answer = edd(alloc, small)?;
    match &answer.certificate {
        Certificate::Window(window) => jobs_at(alloc, window.jobs.as_slice(), kept),
        _ => Ok(Vec::new(alloc)),
    }
}

// The jobs that stand at the places of some.
fn jobs_at<A: Allocator>(
    alloc: A,
    some: &[JobId],
    kept: &[JobId],
) -> Result<Vec<JobId, A>, OutOfMemory> {
    let mut jobs = Vec::new(alloc);
    for job in some {
        let place = job.place();
        if place < kept.len() {
            jobs.push(kept[place])?;
        }
    }
    Ok(jobs)
}
