//! How an answer stands to a task.
ghost use Rattle.std.specs.Prelude.{◌≡◌, IfOk};
ghost use Rattle.tf_model.specs.SchedulingTask.{SchedulingTask};
ghost use Rattle.tf_check.specs.Bound.{bound_by};
ghost use Rattle.tf_check.specs.Certificate.{claim_of};
ghost use Rattle.tf_check.specs.Claim.{AnswerData};
ghost use Rattle.tf_check.specs.Judgement.{IsJudged, HasTable, fit_from};
ghost use Rattle.tf_check.specs.Verdict.{HasVerdict};

use crate::certificate::Certificate;
use crate::evidence::Evidence;
use crate::fault::BoundFault;
use crate::verdict::{Reason, Verdict};
use std::alloc::{Allocator, Global};
use tf_model::memory::OutOfMemory;
use tf_model::task::Task;
use tf_schedule::fit::Misfit;
use tf_schedule::judge::{Judged, judge};
use tf_schedule::lanes::Lanes;
use tf_schedule::piece::Piece;
use tf_schedule::schedule::{PieceFault, Schedule};

/// How the pieces of an answer stand to a task.
#[derive(Debug, Drop, PartialEq, Eq)]
pub enum Fit {
    /// They draw a timetable that fits, and this is what it costs.
    Fits(i128),
    /// They make no schedule.
    NoSchedule(PieceFault),
    /// The schedule does not fit.
    Misfit(Misfit),
}

/// How an answer stands to a task.
#[derive(Drop)]
pub struct Judgement<A: Allocator = Global> {
    pub fit: Fit,
    /// When the jobs work, where the pieces make a schedule.
    pub lanes: Option<Lanes<A>>,
    /// What the certificate bounds, or its first fault.
    pub bound: Result<i128, BoundFault>,
}

/// How the answer of these parts stands to a task. The pieces are sorted where they stand. Only
/// want of memory is an error.
pub fn judge_answer<A: Allocator + Copy, B: Allocator, C: Allocator, D: Allocator>(
    alloc: A,
    task: &Task<B>,
    pieces: Vec<Piece, C>,
    certificate: &Certificate<D>,
) -> Result<Judgement<A>, OutOfMemory>
    ensures fit { IfOk result (λ judgement. IsJudged task.now pieces.items judgement.fit) }
    ensures lanes { IfOk result (λ judgement.
        HasTable task.now pieces.items judgement.fit judgement.lanes) }
    ensures bound { IfOk result (λ judgement.
        judgement.bound ≡ bound_by (claim_of certificate.now) task.now) }
{
    let bound = bound_of(alloc, task, certificate)?;
    let schedule = match Schedule::new(pieces) {
        Ok(schedule) => schedule,
        Err(fault) => {
            return Ok(Judgement {
                fit: Fit::NoSchedule(fault),
                lanes: None,
                bound,
            });
        }
    };
    let Judged { fit, lanes } = judge(alloc, task, &schedule)?;
    Ok(Judgement {
        fit: fit_from(fit),
        lanes: Some(lanes),
        bound,
    })
}

fn fit_from(fit: Result<i128, Misfit>) -> Fit
    ensures { result ≡ fit_from fit }
{
    match fit {
        Ok(cost) => Fit::Fits(cost),
        Err(misfit) => Fit::Misfit(misfit),
    }
}

// What the certificate bounds, or its first fault.
fn bound_of<A: Allocator + Copy, B: Allocator, C: Allocator>(
    alloc: A,
    task: &Task<B>,
    certificate: &Certificate<C>,
) -> Result<Result<i128, BoundFault>, OutOfMemory>
    ensures { IfOk result (λ bound. bound ≡ bound_by (claim_of certificate.now) task.now) }
{
    match certificate.bound(alloc, task) {
        Ok(bound) => Ok(Ok(bound)),
        Err(BoundFault::OutOfMemory) => Err(OutOfMemory),
        Err(fault) => Ok(Err(fault)),
    }
}

/// The verdict on an answer that claims this value, by how it stands to the task.
pub fn verdict(fit: Fit, bound: Result<i128, BoundFault>, value: i64) -> Verdict
    ensures { (k : SchedulingTask) (a : AnswerData) → a.value ≡ value → IsJudged k a.pieces fit →
        bound ≡ bound_by a.certificate k → HasVerdict k a result }
{
    match fit {
        Fit::NoSchedule(fault) => Verdict::Rejected(Reason::Pieces(fault)),
        Fit::Misfit(misfit) => Verdict::Rejected(Reason::Misfit(misfit)),
        Fit::Fits(cost) if cost != i128::from(value) => Verdict::Rejected(Reason::WrongValue),
        Fit::Fits(_) => match bound {
            Err(fault) => Verdict::Rejected(Reason::Bound(fault)),
            Ok(bound) if bound < i128::from(value) => Verdict::Rejected(Reason::BoundBelowValue),
            Ok(_) => Verdict::Accepted,
        },
    }
}
