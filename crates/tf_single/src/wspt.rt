//! One machine with a weighted sum of completions.
ghost use Rattle.std.specs.Prelude.{◌≡◌, IfOk, IsTrue};
ghost use Rattle.tf_model.specs.ClassTable.{is_single, is_sum};
ghost use Rattle.tf_schedule.specs.Schedule.{IsSchedule};
ghost use Rattle.tf_check.specs.Accepted.{IsAccepted};
ghost use Rattle.tf_check.specs.Claim.{ByPairs};
ghost use Rattle.tf_single.specs.RunsByRatio.{RunsByRatio};

use std::alloc::Allocator;
use tf_check::answer::Answer;
use tf_check::certificate::Certificate;
use tf_check::pairs::Pairs;
use tf_check::ratio::{jobs_by_ratio, weighted_completions};
use tf_model::memory::OutOfMemory;
use tf_model::task::Task;
use tf_schedule::piece_list::PieceList;
use tf_schedule::sequence::in_sequence;

/// A timetable of least weighted sum of completions on one machine (Smith 1956).
///
/// The jobs run one after another without idle time, those of greater weight for their time first
/// and the smaller number first among equals. The pieces come in order of time. The certificate is
/// the pairs of jobs. Only want of memory is an error.
pub fn wspt<A: Allocator + Copy, B: Allocator>(
    alloc: A,
    task: &Task<B>,
) -> Result<Answer<A>, OutOfMemory>
    requires sum { IsTrue (is_sum task.now.class) }
    requires single { IsTrue (is_single task.now.class) }
    ensures schedule { IfOk result (λ a. IsSchedule a.pieces) }
    ensures accepted { IfOk result (IsAccepted task.now) }
    ensures certificate { IfOk result (λ a. a.certificate ≡ ByPairs) }
    ensures rule { IfOk result (λ a. RunsByRatio task.now a.pieces) }
{
    let jobs = jobs_by_ratio(alloc, task)?;
    let value = weighted_completions(task, &jobs);
    let pieces = in_sequence(alloc, task, &jobs)?;
    Ok(Answer {
        pieces: PieceList::new(pieces),
        value: value as i64,
        certificate: Certificate::Pairs(Pairs),
    })
}
