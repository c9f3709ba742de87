//! From a sheet to its schedule.
ghost use Rattle.std.specs.Prelude.{◌≡◌, ◌≢◌, IfOk, IfErr};
ghost use Rattle.std.specs.List.Sorted.{IsPermutation};
ghost use Rattle.tf_schedule.specs.Schedule.{IsSchedule};
ghost use Rattle.tf_engine.specs.Faults.{Wants, stop_of};
ghost use Rattle.tf_engine.specs.Drawing.{IsOfPieces};
ghost use Rattle.tf_engine.specs.Parts.{StopsBy};

use crate::fault::RunFault;
use std::alloc::Allocator;
use tf_check::answer::Answer;
use tf_schedule::schedule::Schedule;
use tf_text::answer::sheet::Sheet;

/// The schedule of a sheet's pieces, or their first fault. It takes no memory.
pub fn schedule_said<A: Allocator>(sheet: Sheet<A>) -> Result<Schedule<A>, RunFault<A>>
    ensures kept { IfOk result (λ s. IsPermutation sheet.answer.pieces s) }
    ensures schedule { IfOk result IsSchedule }
    ensures refused { IfErr result (λ e. StopsBy (IsOfPieces sheet.answer.pieces) (stop_of e)) }
    ensures memory { IfErr result (λ e. stop_of e ≢ Wants) }
{
    let Answer { pieces, .. } = sheet.into_answer();
    Ok(Schedule::new(pieces.into_vec())?)
}
