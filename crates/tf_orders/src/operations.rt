//! Orders of the operations of job shops, and their semi-active schedules.
ghost use Rattle.std.specs.Prelude.{◌≡◌, ◌≢◌, ◌≤◌, ◌-◌, length, slice_index, IfOk, IfNone, IfSome};
ghost use Rattle.std.specs.Prelude.{[], ℕ, IsTrue, MatchOption};
ghost use Rattle.std.specs.List.{All};
ghost use Rattle.tf_posed.specs.ProblemData.{IsProblemJob, is_job_shop};
ghost use Rattle.tf_bound.specs.Steps.{steps_of};
ghost use Rattle.tf_orders.specs.Operations.{IsNoOperationOrder, IsOperationFlaw, IsOperationOrder};
ghost use Rattle.tf_orders.specs.Operations.{AreFree, AreNamed, operation_schedule_of, turns_of};
ghost use Rattle.tf_orders.specs.Orders.{IsTurn};

use crate::flaw::{Flaw, Named, count, flaw_in};
use crate::laying::Laying;
use crate::order::{Turn, turns_in};
use std::alloc::Allocator;
use std::cmp::Ordering;
use tf_bound::task::ProblemTask;
use tf_model::ids::{JobId, MachineId};
use tf_model::memory::OutOfMemory;
use tf_model::problem::Env;
use tf_schedule::piece::Piece;

/// The order of the operations of a job shop that a text says: each job stands as often as its
/// route has operations. `None` where it says none, and outside job shops. Only want of memory is
/// an error.
pub(crate) fn operations_in<A: Allocator + Copy, B: Allocator>(
    alloc: A,
    task: &ProblemTask<B>,
    text: &[u8],
) -> Result<Option<Vec<Turn, A>>, OutOfMemory>
    ensures order { IfOk result (λ found. MatchOption found (IsNoOperationOrder task.now text.now)
        (λ turns. IsOperationOrder task.now text.now turns.items)) }
    ensures turns { IfOk result (λ found. IfSome found
        (λ turns. All (IsTurn (length task.now.jobs) 1) turns.items)) }
{
    if !matches!(task.problem().env, Env::JobShop) {
        return Ok(None);
    }
    let Some(turns) = turns_in(alloc, task.len() as u32, 1, text)? else {
        return Ok(None);
    };
    let named = times_named(alloc, task.len(), &turns)?;
    if first_uneven(task, &named).is_some() {
        return Ok(None);
    }
    Ok(Some(turns))
}

// How often each job stands, of jobs from 1 to `jobs`.
fn times_named<A: Allocator>(
    alloc: A,
    jobs: usize,
    turns: &[Turn],
) -> Result<Vec<usize, A>, OutOfMemory>
    requires { All (IsTurn jobs 1) turns.now }
    ensures { IfOk result (λ named. AreNamed jobs named.items turns.now) }
{
    let mut named = vec![in alloc; 0usize; jobs]?;
    for turn in turns {
        named[turn.job.place()] += 1;
    }
    Ok(named)
}

// The first job that does not stand as often as it has operations.
fn first_uneven<B: Allocator>(task: &ProblemTask<B>, named: &[usize]) -> Option<JobId>
    requires { length named.now ≡ length task.now.jobs }
    ensures none { IfNone result ((j : ℕ) → IsProblemJob task.now j →
        slice_index named.now (j - 1) ≡ length (steps_of task.now j)) }
    ensures some { IfSome result (λ j. IsProblemJob task.now j
        × (slice_index named.now (j - 1) ≢ length (steps_of task.now j))) }
{
    for k in 0..task.len() {
        let job = JobId::at(k);
        if named[k] != task.steps(job) {
            return Some(job);
        }
    }
    None
}

/// The semi-active schedule of an order of operations. Only want of memory is an error.
pub(crate) fn operation_schedule_of<A: Allocator + Copy, B: Allocator>(
    alloc: A,
    task: &ProblemTask<B>,
    turns: &[Turn],
) -> Result<Vec<Piece, A>, OutOfMemory>
    requires shop { IsTrue (is_job_shop task.now.problem.env) }
    requires turns { All (IsTurn (length task.now.jobs) 1) turns.now }
    requires few { (j : ℕ) → IsProblemJob task.now j →
        turns_of j turns.now ≤ length (steps_of task.now j) }
    ensures { IfOk result (λ pieces. pieces.items ≡ operation_schedule_of task.now turns.now) }
{
    let mut laying = Laying::new(alloc, turns.len(), task.machines() as usize)?;
    let mut free = releases(alloc, task)?;
    let mut laid = vec![in alloc; 0usize; task.len()]?;
    for turn in turns {
        let place = turn.job.place();
        let machine = task.step(turn.job, laid[place]);
        laid[place] += 1;
        let time = task.time_on(machine, turn.job);
        free[place] = laying.add(turn.job, MachineId::at(machine), free[place], time)?;
    }
    Ok(laying.into_pieces())
}

// The release dates of all jobs.
fn releases<A: Allocator, B: Allocator>(
    alloc: A,
    task: &ProblemTask<B>,
) -> Result<Vec<u64, A>, OutOfMemory>
    ensures { IfOk result (λ free. AreFree task.now [] free.items) }
{
    let mut free = Vec::with_capacity(alloc, task.len())?;
    for k in 0..task.len() {
        free.push(task.release(JobId::at(k)))?;
    }
    Ok(free)
}

/// What is wrong with a text that says no order of a job shop, as far as it is found. Where a job
/// stands twice, the text is read as an order of operations. Only want of memory is an error.
pub(crate) fn operation_flaw<A: Allocator + Copy, B: Allocator>(
    alloc: A,
    task: &ProblemTask<B>,
    text: &[u8],
) -> Result<Option<Flaw>, OutOfMemory>
    ensures { IfOk result (λ found. IfSome found (IsOperationFlaw task.now text.now)) }
{
    let found = flaw_in(alloc, task.len() as u32, 1, text)?;
    if matches!(found, Some(Flaw::Twice(_))) {
        return uneven_flaw(alloc, task, text);
    }
    Ok(found)
}

// The same, where each word is a job.
fn uneven_flaw<A: Allocator + Copy, B: Allocator>(
    alloc: A,
    task: &ProblemTask<B>,
    text: &[u8],
) -> Result<Option<Flaw>, OutOfMemory>
    ensures { IfOk result (λ found. IfSome found (IsOperationFlaw task.now text.now)) }
{
    let jobs = task.len() as u32;
    let Some(turns) = turns_in(alloc, jobs, 1, text)? else {
        return Ok(None);
    };
    let named = times_named(alloc, task.len(), &turns)?;
    let Some(job) = first_uneven(task, &named) else {
        return Ok(None);
    };
    Ok(uneven(task, text, job))
}

// How a job stands too seldom or too often.
fn uneven<B: Allocator>(task: &ProblemTask<B>, text: &[u8], job: JobId) -> Option<Flaw>
    requires { IsProblemJob task.now job }
    ensures { IfSome result (IsOperationFlaw task.now text.now) }
{
    let named = count(task.len() as u32, text, &Named::Job(job));
    match named.cmp(&task.steps(job)) {
        Ordering::Less if named == 0 => Some(Flaw::Missing(job)),
        Ordering::Less => Some(Flaw::Seldom(job)),
        Ordering::Equal => None,
        Ordering::Greater => Some(Flaw::Often(job)),
    }
}
