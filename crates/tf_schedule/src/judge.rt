//! How a schedule stands to a task.
ghost use Rattle.std.specs.Prelude.{◌≡◌, ◌↔◌, ◌<◌, ◌≤◌, length, List, IfOk, IsTrue, MatchOption};
ghost use Rattle.std.specs.List.{All};
ghost use Rattle.tf_posed.specs.FitsProblem.{FitsProblem};
ghost use Rattle.tf_schedule.specs.Asks.{IsLimited};
ghost use Rattle.tf_schedule.specs.Claims.{JobsOnce};
ghost use Rattle.tf_schedule.specs.ClassMisfit.{of_class};
ghost use Rattle.tf_schedule.specs.Condition.{KeepsMachines, is_movable};
ghost use Rattle.tf_schedule.specs.declared.piece.Piece.{Piece};
ghost use Rattle.tf_schedule.specs.Drawing.{drawing};
ghost use Rattle.tf_schedule.specs.Judged.{HasFit};
ghost use Rattle.tf_schedule.specs.Lanes.{HasLanes};
ghost use Rattle.tf_schedule.specs.Misfit.{IsFirstNot};
ghost use Rattle.tf_schedule.specs.ProblemJudged.{IsJudgedBy, TellsOrder};
ghost use Rattle.tf_schedule.specs.ProblemMisfit.{IsKnownTo, AllReleased, AllKept, HasFirstPlain};
ghost use Rattle.tf_schedule.specs.ProblemMisfit.{HasFirstMisfit};
ghost use Rattle.tf_schedule.specs.Schedule.{IsSchedule};
ghost use Rattle.tf_schedule.specs.Tables.{AreTabled};

use crate::asks::Asks;
use crate::condition::{Condition, are_plain, first_unmet};
use crate::cost::cost_in;
use crate::fit::{Misfit, first_in_two_places, first_out_of_order};
use crate::job_order::one_order;
use crate::lanes::{Lanes, lanes_of};
use crate::misfit::ProblemMisfit;
use crate::operations::operations_of;
use crate::piece::Piece;
use crate::schedule::Schedule;
use std::alloc::{AllocError, Allocator, Global};
use tf_model::memory::OutOfMemory;
use tf_model::task::Task;

// ---- tasks of classes

/// How a schedule stands to a task of a class.
#[derive(Drop)]
pub struct Judged<A: Allocator = Global> {
    /// What it costs if it fits, or the first misfit, which is not want of memory.
    pub fit: Result<i128, Misfit>,
    /// When its jobs work.
    pub lanes: Lanes<A>,
}

/// How a schedule stands to a task of a class: it takes the memory that [`crate::fit::fits`] takes.
/// Only want of memory is an error.
pub fn judge<A: Allocator + Copy, B: Allocator, C: Allocator>(
    alloc: A,
    task: &Task<B>,
    schedule: &Schedule<C>,
) -> Result<Judged<A>, OutOfMemory>
    ensures fit { IfOk result (λ judged. HasFit task.now schedule.now judged.fit) }
    ensures lanes { IfOk result (λ judged.
        HasLanes (length task.now.jobs) schedule.now judged.lanes) }
    ensures schedule { IsSchedule schedule.now }
{
    // The contract of `class` says what a task keeps.
    let _class = task.class();
    let ProblemJudged { misfit, jobs } = judge_problem(alloc, task, schedule)?;
    let fit = match misfit {
        Some(misfit) => Err(of_class(misfit)),
        None => Ok(cost_in(task, &jobs)),
    };
    Ok(Judged { fit, lanes: jobs })
}

// A misfit of a task of a class, by the name that it has there.
fn of_class(misfit: ProblemMisfit) -> Misfit
    ensures { result ≡ of_class misfit }
{
    match misfit {
        ProblemMisfit::Plain(misfit) => misfit,
        ProblemMisfit::OffRoute(job) => Misfit::OutOfOrder(job, job),
        ProblemMisfit::NoOneOrder | ProblemMisfit::Waits(_) => Misfit::OutOfMemory,
    }
}

// ---- tasks of any problem

/// How a schedule stands to the task of a problem.
#[derive(Drop)]
pub struct ProblemJudged<A: Allocator = Global> {
    /// The first misfit, or none where the schedule fits.
    pub misfit: Option<ProblemMisfit>,
    /// When its jobs work.
    pub jobs: Lanes<A>,
}

/// How a schedule stands to the task of a problem. Only want of memory is an error.
pub fn judge_problem<A: Allocator + Copy, T: Asks, C: Allocator>(
    alloc: A,
    task: &T,
    schedule: &Schedule<C>,
) -> Result<ProblemJudged<A>, OutOfMemory>
    ensures fit { IfOk result
        (λ judged. IsJudgedBy (T.posed task.now) schedule.now judged.misfit) }
    ensures jobs { IfOk result
        (λ judged. HasLanes (length (T.posed task.now).jobs) schedule.now judged.jobs) }
    ensures schedule { IsSchedule schedule.now }
{
    let pieces = schedule.pieces();
    let (jobs, are_apart) = lanes_of(alloc, task.len(), is_movable(task), pieces)?;
    let misfit = first_misfit(alloc, task, pieces, &jobs, are_apart)?;
    Ok(ProblemJudged { misfit, jobs })
}

// Whether a job that has to stay on one machine might be on several, so that its table has to have
// its machines: outside shops, without preemption.
fn is_movable<T: Asks>(task: &T) -> bool
    ensures { result ≡ is_movable (T.posed task.now) }
{
    let problem = task.problem();
    !problem.prmp && !problem.env.is_shop() && 1 < task.machines()
}

// The first misfit of pieces that have this table.
fn first_misfit<A: Allocator + Copy, T: Asks>(
    alloc: A,
    task: &T,
    pieces: &[Piece],
    jobs: &Lanes<A>,
    are_apart: bool,
) -> Result<Option<ProblemMisfit>, AllocError>
    requires schedule { IsSchedule pieces.now }
    requires jobs { HasLanes (length (T.posed task.now).jobs) pieces.now jobs.now }
    requires machines { KeepsMachines (T.posed task.now) jobs.now }
    requires apart { All (λ p. (0 < p.job) × (p.job ≤ length (T.posed task.now).jobs)) pieces.now →
        IsTrue are_apart → JobsOnce pieces.now }
    ensures { IfOk result (IsJudgedBy (T.posed task.now) pieces.now) }
{
    if let Some(piece) = first_stranger(task, pieces) {
        let misfit = Misfit::Stranger(piece.job, piece.machine);
        return Ok(Some(ProblemMisfit::Plain(misfit)));
    }
    if let Some(piece) = first_in_two_places(alloc, pieces, are_apart)? {
        let misfit = Misfit::JobTwice(piece.job, piece.start);
        return Ok(Some(ProblemMisfit::Plain(misfit)));
    }
    let operations = operations_of(alloc, task, pieces)?;
    if let Some(misfit) = plain_misfit(task, jobs, &operations) {
        return Ok(Some(ProblemMisfit::Plain(misfit)));
    }
    problem_misfit(alloc, task, pieces, jobs, &operations)
}

// The first misfit in amounts, gaps, release dates and arcs.
fn plain_misfit<T: Asks, A: Allocator>(
    task: &T,
    jobs: &Lanes<A>,
    operations: &Lanes<A>,
) -> Option<Misfit>
    ensures { (ps : List Piece) → AreTabled (T.posed task.now) ps jobs.now operations.now →
        MatchOption result
        (AllKept (T.posed task.now) (drawing (T.posed task.now).machines ps))
        (HasFirstPlain (T.posed task.now) ps) }
{
    if let Some(misfit) = job_misfit(task, jobs, operations) {
        return Some(misfit);
    }
    if !task.problem().prec {
        return None;
    }
    match first_out_of_order(task.arcs(), jobs) {
        Some((before, after)) => Some(Misfit::OutOfOrder(before, after)),
        None => None,
    }
}

// The first misfit in amounts, gaps and release dates.
fn job_misfit<T: Asks, A: Allocator>(
    task: &T,
    jobs: &Lanes<A>,
    operations: &Lanes<A>,
) -> Option<Misfit>
    ensures misfit { (ps : List Piece) → AreTabled (T.posed task.now) ps jobs.now operations.now →
        MatchOption result
        (AllReleased (T.posed task.now) (drawing (T.posed task.now).machines ps))
        (HasFirstPlain (T.posed task.now) ps) }
    ensures limited { IsLimited (T.posed task.now) }
{
    if are_plain(task, jobs, operations) {
        return None;
    }
    if let Some(job) = first_unmet(task, jobs, operations, Condition::Amount) {
        return Some(Misfit::WrongAmount(job));
    }
    if let Some(job) = first_unmet(task, jobs, operations, Condition::Unbroken) {
        return Some(Misfit::Broken(job));
    }
    match first_unmet(task, jobs, operations, Condition::Released) {
        Some(job) => Some(Misfit::TooEarly(job)),
        None => None,
    }
}

// The first misfit in the order in which jobs pass machines, and in waits.
fn problem_misfit<A: Allocator + Copy, T: Asks>(
    alloc: A,
    task: &T,
    pieces: &[Piece],
    jobs: &Lanes<A>,
    operations: &Lanes<A>,
) -> Result<Option<ProblemMisfit>, AllocError>
    requires tabled { AreTabled (T.posed task.now) pieces.now jobs.now operations.now }
    requires kept { AllKept (T.posed task.now)
        (drawing (T.posed task.now).machines pieces.now) }
    ensures { IfOk result (λ found. MatchOption found
        (FitsProblem (T.posed task.now) (drawing (T.posed task.now).machines pieces.now))
        (HasFirstMisfit (T.posed task.now) pieces.now)) }
{
    if let Some(job) = first_unmet(task, jobs, operations, Condition::OnRoute) {
        return Ok(Some(ProblemMisfit::OffRoute(job)));
    }
    if !passes_in_order(alloc, task, pieces)? {
        return Ok(Some(ProblemMisfit::NoOneOrder));
    }
    match first_unmet(task, jobs, operations, Condition::WithoutWait) {
        Some(job) => Ok(Some(ProblemMisfit::Waits(job))),
        None => Ok(None),
    }
}

// Whether the jobs pass all machines in one order, where the problem asks for it.
fn passes_in_order<A: Allocator + Copy, T: Asks>(
    alloc: A,
    task: &T,
    pieces: &[Piece],
) -> Result<bool, AllocError>
    requires schedule { IsSchedule pieces.now }
    requires known { All (IsKnownTo (T.posed task.now)) pieces.now }
    ensures { IfOk result
        (TellsOrder (T.posed task.now) (drawing (T.posed task.now).machines pieces.now)) }
{
    if !task.problem().prmu {
        return Ok(true);
    }
    match one_order(alloc, task, pieces)? {
        Some(_) => Ok(true),
        None => Ok(false),
    }
}

// The first piece of a job or on a machine that the task does not have.
fn first_stranger<T: Asks>(task: &T, pieces: &[Piece]) -> Option<Piece>
    ensures { MatchOption result (All (IsKnownTo (T.posed task.now)) pieces.now)
        (IsFirstNot (IsKnownTo (T.posed task.now)) pieces.now) }
{
    for piece in pieces {
        if !is_known(task, piece) {
            return Some(*piece);
        }
    }
    None
}

/// Whether a piece names a job and a machine of the task.
pub(crate) fn is_known<T: Asks>(task: &T, piece: &Piece) -> bool
    ensures { IsTrue result ↔ IsKnownTo (T.posed task.now) piece.now }
{
    let job = piece.job.get();
    let machine = piece.machine.get();
    job as usize <= task.len() && machine <= task.machines()
}
