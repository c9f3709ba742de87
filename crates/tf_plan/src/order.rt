//! An order of all jobs that keeps the arcs.
ghost use Rattle.std.specs.Prelude.{◌≡◌, map, IfOk, IsTrue, MatchResult};
ghost use Rattle.tf_model.specs.SchedulingTask.{SchedulingTask};
ghost use Rattle.tf_posed.specs.ProblemData.{ProblemData, problem_jobs};
ghost use Rattle.tf_bound.specs.Sized.{IsSized};
ghost use Rattle.tf_single.specs.NotSolved.{IsNotSolved};
ghost use Rattle.tf_plan.specs.declared.order.OrderFault.TheVariants.{OutOfMemory as NoMemory};
ghost use Rattle.tf_plan.specs.Bare.{HasSameArcs};
ghost use Rattle.tf_plan.specs.Order.{IsNoOrder};
ghost use Rattle.tf_plan.specs.SerialOrder.{IsSerialOrder};

use std::alloc::{AllocError, Allocator, Global};
use tf_bound::task::ProblemTask;
use tf_model::class::Class;
use tf_model::ids::JobId;
use tf_model::instance::Instance;
use tf_model::job::{Job, Times};
use tf_model::job_list::JobList;
use tf_model::memory::OutOfMemory;
use tf_model::prepare::prepare;
use tf_model::problem::{Env, Goal, Problem};
use tf_model::task::Task;
use tf_schedule::piece::Piece;
use tf_single::lawler::lawler_by_due;
use tf_single::lawler_fault::LawlerFault;

/// Why there is no order.
#[derive(Drop)]
pub enum OrderFault<A: Allocator = Global> {
    /// Each of these jobs precedes the next by an arc, and the last precedes the first.
    Cycle(JobList<A>),
    OutOfMemory,
}

impl<A: Allocator> From<OutOfMemory> for OrderFault<A> {
    ghost from_gives = { λ _ e. e ≡ NoMemory };

    fn from(_: OutOfMemory) -> OrderFault<A> {
        OrderFault::OutOfMemory
    }
}

/// All jobs in an order that keeps the arcs, where the problem has arcs; or a cycle of them.
pub fn order_of<A: Allocator + Copy, B: Allocator>(
    alloc: A,
    task: &ProblemTask<B>,
) -> Result<Vec<JobId, A>, OrderFault<A>>
    ensures { MatchResult result (λ order. IsSerialOrder task.now order.items)
        (IsNoOrder task.now) }
{
    if !task.problem().prec {
        let order = numbered(alloc, task)?;
        return Ok(order);
    }
    let bare = bare_task(alloc, task)?;
    match lawler_by_due(alloc, &bare) {
        Ok(answer) => {
            let order = jobs_of(alloc, answer.pieces.as_slice())?;
            Ok(order)
        }
        Err(fault) => Err(fault_of(fault)),
    }
}

// Why there is no order, where a bare task is not solved.
fn fault_of<A: Allocator>(fault: LawlerFault<A>) -> OrderFault<A>
    ensures { (k : ProblemData) (t : SchedulingTask) → IsSized k → HasSameArcs k t →
        IsTrue k.problem.prec → IsNotSolved t fault → IsNoOrder k result }
{
    match fault {
        LawlerFault::Cycle(jobs) => OrderFault::Cycle(jobs),
        LawlerFault::OutOfMemory => OrderFault::OutOfMemory,
    }
}

// The jobs by their numbers.
fn numbered<A: Allocator, B: Allocator>(
    alloc: A,
    task: &ProblemTask<B>,
) -> Result<Vec<JobId, A>, OutOfMemory>
    ensures jobs { IfOk result (λ order. order.items ≡ problem_jobs task.now) }
{
    let mut order = Vec::with_capacity(alloc, task.len())?;
    for k in 0..task.len() {
        order.push(JobId::at(k))?;
    }
    Ok(order)
}

// The jobs of the pieces.
fn jobs_of<A: Allocator>(alloc: A, pieces: &[Piece]) -> Result<Vec<JobId, A>, OutOfMemory>
    ensures { IfOk result (λ jobs. jobs.items ≡ map (λ p. p.job) pieces.now) }
{
    let mut jobs = Vec::with_capacity(alloc, pieces.len())?;
    for piece in pieces {
        jobs.push(piece.job)?;
    }
    Ok(jobs)
}

// A task of `1|prec|Lmax` with as many jobs, of unit time, and the same arcs. A task that was read
// has no more arcs than an instance may have, so that memory alone can be wanting.
fn bare_task<A: Allocator + Copy, B: Allocator>(
    alloc: A,
    task: &ProblemTask<B>,
) -> Result<Task<A>, OrderFault<A>>
    ensures { MatchResult result (HasSameArcs task.now) (IsNoOrder task.now) }
{
    let jobs = unit_jobs(alloc, task.len())?;
    let arcs = copied(alloc, task.arcs())?;
    let Ok(instance) = Instance::new(jobs, arcs, None) else {
        return Err(OrderFault::OutOfMemory);
    };
    match prepare(alloc, &instance, &bare_problem(), None) {
        Ok(bare) if is_bare(&bare, task) => Ok(bare),
        _ => Err(OrderFault::OutOfMemory),
    }
}

// Whether the task is what `bare_task` promises.
fn is_bare<A: Allocator, B: Allocator>(bare: &Task<A>, task: &ProblemTask<B>) -> bool
    ensures { IsTrue result → HasSameArcs task.now bare.now }
{
    if !matches!(bare.class(), Class::PrecLmax) {
        return false;
    }
    if bare.len() != task.len() {
        return false;
    }
    are_same(bare.arcs(), task.arcs())
}

fn are_same(one: &[(JobId, JobId)], other: &[(JobId, JobId)]) -> bool
    ensures { IsTrue result → one.now ≡ other.now }
{
    if one.len() != other.len() {
        return false;
    }
    for k in 0..one.len() {
        if one[k].0 != other[k].0 {
            return false;
        }
        if one[k].1 != other[k].1 {
            return false;
        }
    }
    true
}

fn copied<A: Allocator>(
    alloc: A,
    arcs: &[(JobId, JobId)],
) -> Result<Vec<(JobId, JobId), A>, OutOfMemory> {
    let copy = arcs.to_vec(alloc)?;
    Ok(copy)
}

fn unit_jobs<A: Allocator>(alloc: A, count: usize) -> Result<Vec<Job<A>, A>, OutOfMemory> {
    let mut jobs = Vec::with_capacity(alloc, count)?;
    for _ in 0..count {
        jobs.push(Job {
            times: Times::One(1),
            weight: None,
            due: Some(0),
            release: None,
            cost: None,
        })?;
    }
    Ok(jobs)
}

fn bare_problem() -> Problem {
    Problem {
        env: Env::Single,
        count: None,
        release: false,
        prec: true,
        prmp: false,
        prmu: false,
        nwt: false,
        block: false,
        rcrc: false,
        goal: Goal::Lmax,
    }
}
