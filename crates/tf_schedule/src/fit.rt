//! Whether a schedule fits a task.
ghost use Rattle.std.specs.Prelude.{◌≡◌, MatchResult, MatchOption, IsOkUnless, IfOk, IsTrue};
ghost use Rattle.std.specs.List.{All};
ghost use Rattle.tf_model.specs.Timetable.{Timetable};
ghost use Rattle.tf_model.specs.Feasible.{Fits};
ghost use Rattle.tf_schedule.specs.Piece.{job_of};
ghost use Rattle.tf_schedule.specs.Line.{StartsFirstClashBy};
ghost use Rattle.tf_schedule.specs.Schedule.{IsSchedule};
ghost use Rattle.tf_schedule.specs.Claims.{JobsOnce};
ghost use Rattle.tf_schedule.specs.Condition.{StartsAfter};
ghost use Rattle.tf_schedule.specs.Drawing.{Draws, drawing};
ghost use Rattle.tf_schedule.specs.Misfit.{IsFirstNot, HasFirstMisfit};
ghost use Rattle.tf_schedule.specs.declared.fit.Misfit.TheVariants.{OutOfMemory};

use crate::judge::{Judged, judge};
use crate::lanes::Lanes;
use crate::line::Line;
use crate::piece::Piece;
use crate::schedule::Schedule;
use std::alloc::{AllocError, Allocator};
use tf_model::ids::{JobId, MachineId};
use tf_model::memory;
use tf_model::task::Task;
use thiserror::Error;

/// Why a schedule does not fit a task, in the order in which it is judged: each kind over all jobs
/// before the next, always with the smallest job.
#[derive(Clone, Copy, Debug, Drop, PartialEq, Eq, Error)]
pub enum Misfit {
    /// A piece names a job or a machine that the task does not have.
    #[error("job {} or machine {} is not the task's", .0.get(), .1.get())]
    Stranger(JobId, MachineId),
    /// The job is on two machines at this time, its first such time.
    #[error("job {} is on two machines at time {}", .0.get(), .1)]
    JobTwice(JobId, i64),
    /// The job does not have its time, in a shop on each machine.
    #[error("job {} does not have its processing time", .0.get())]
    WrongAmount(JobId),
    /// The job has a gap on a machine, or outside shops is on two machines, and the class has no
    /// preemption.
    #[error("job {} is interrupted", .0.get())]
    Broken(JobId),
    /// The job starts before its release date.
    #[error("job {} starts before its release date", .0.get())]
    TooEarly(JobId),
    /// The first arc whose first job is not over before the second starts; in a flow shop a job,
    /// named twice, that is not over on machine 1 before it starts on machine 2.
    #[error("job {} is not over before job {} starts", .0.get(), .1.get())]
    OutOfOrder(JobId, JobId),
    #[error("want of memory")]
    OutOfMemory,
}

impl From<AllocError> for Misfit {
    ghost from_gives = { λ _ e. e ≡ OutOfMemory };

    fn from(_: AllocError) -> Misfit {
        Misfit::OutOfMemory
    }
}

impl From<memory::OutOfMemory> for Misfit {
    ghost from_gives = { λ _ e. e ≡ OutOfMemory };

    fn from(_: memory::OutOfMemory) -> Misfit {
        Misfit::OutOfMemory
    }
}

/// Whether the pieces draw a timetable that fits the task, or else the first misfit in the order of
/// [`Misfit`]. It takes memory for a few numbers for each job, and in a shop for each operation;
/// and for a copy of the pieces in a shop, and where a job has one between two others.
pub fn fits<A: Allocator + Copy, B: Allocator, C: Allocator>(
    alloc: A,
    task: &Task<B>,
    schedule: &Schedule<C>,
) -> Result<(), Misfit>
    ensures judged { MatchResult result
        (λ _. Draws task.now.machines schedule.now (drawing task.now.machines schedule.now)
        × Fits task.now (drawing task.now.machines schedule.now))
        (HasFirstMisfit task.now schedule.now) }

    // So it is Ok wherever the pieces draw a timetable that fits, unless memory ran out.
    ensures fitting { (rows : Timetable) → Draws task.now.machines schedule.now rows →
        Fits task.now rows → IsOkUnless result OutOfMemory }
{
    let Judged { fit, .. } = judge(alloc, task, schedule)?;
    let _cost = fit?;
    Ok(())
}

/// The first arc whose first job is not over before the second starts.
pub(crate) fn first_out_of_order<A: Allocator>(
    arcs: &[(JobId, JobId)],
    lanes: &Lanes<A>,
) -> Option<(JobId, JobId)>
    ensures { MatchOption result (All (StartsAfter lanes.now) arcs.now)
        (IsFirstNot (StartsAfter lanes.now) arcs.now) }
{
    for arc in arcs {
        if lanes.extent(arc.1).start < lanes.extent(arc.0).stop {
            return Some(*arc);
        }
    }
    None
}

/// A piece at whose start its job runs in two places: the smallest such job, and its first such
/// time. There is none where the pieces of each job are apart.
pub(crate) fn first_in_two_places<A: Allocator>(
    alloc: A,
    pieces: &[Piece],
    are_apart: bool,
) -> Result<Option<Piece>, AllocError>
    requires schedule { IsSchedule pieces.now }
    requires apart { IsTrue are_apart → JobsOnce pieces.now }
    ensures { IfOk result (λ found.
        MatchOption found (JobsOnce pieces.now) (StartsFirstClashBy job_of pieces.now)) }
{
    if are_apart {
        return Ok(None);
    }
    let mut by_job = copied(alloc, pieces)?;
    Line::Job.sort(&mut by_job);
    Ok(Line::Job.first_overlap(&by_job))
}

fn copied<A: Allocator>(alloc: A, pieces: &[Piece]) -> Result<Vec<Piece, A>, AllocError>
    ensures { IfOk result (λ v. v.items ≡ pieces.now) }
{
    pieces.iter().copied().collect(alloc)
}
