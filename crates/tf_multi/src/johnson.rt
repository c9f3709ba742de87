//! Flow shops with two machines.
ghost use Rattle.std.specs.Prelude.{◌≡◌, ◌+◌, ◌≤◌, take, pos, Ok, IfOk, IsTrue};
ghost use Rattle.std.specs.List.{sum_by};
ghost use Rattle.std.specs.List.Sorted.{IsPermutation};
ghost use Rattle.tf_model.specs.ClassTable.{is_flow};
ghost use Rattle.tf_model.specs.Limit.{limit};
ghost use Rattle.tf_model.specs.SchedulingTask.{all_jobs};
ghost use Rattle.tf_model.specs.Sound.{IsSound};
ghost use Rattle.tf_schedule.specs.Schedule.{IsSchedule};
ghost use Rattle.tf_schedule.specs.SemiActive.{laid};
ghost use Rattle.tf_check.specs.Accepted.{IsAccepted};
ghost use Rattle.tf_check.specs.Bound.{split_bound};
ghost use Rattle.tf_check.specs.Claim.{BySplit};
ghost use Rattle.tf_multi.specs.Johnson.{IsJohnsonOrder, IsTurn, IsTurnSplit, RunsByJohnson};
ghost use Rattle.tf_multi.specs.TwoMachines.{time_at, on_machine};

mod order;
mod turning;

use crate::johnson::order::johnson_order;
use crate::johnson::turning::{Turn, lay_second};
use crate::two_machines::{machine_of, operation};
use std::alloc::Allocator;
use tf_check::answer::Answer;
use tf_check::certificate::Certificate;
use tf_check::split::Split;
use tf_model::ids::{JobId, MachineId};
use tf_model::job_list::JobList;
use tf_model::memory::OutOfMemory;
use tf_model::task::Task;
use tf_schedule::piece::Piece;
use tf_schedule::piece_list::PieceList;
use tf_schedule::semi_active::push_stretch;

/// A shortest timetable of a flow shop with two machines (Johnson 1954).
///
/// First come the jobs that take no longer on machine 1 than on machine 2, by rising time on
/// machine 1, then the others, by falling time on machine 2; jobs that tie come in the order of
/// their numbers. Both machines run the jobs in this order, each operation as early as possible.
/// The pieces come by machine and start.
///
/// The certificate is a split at the last job whose end on machine 1 comes after the end of all
/// earlier work on machine 2, the first job if there is none. If that job takes no longer on
/// machine 1, the side is the jobs before it, and its time on machine 1 is reached there. Otherwise
/// the side is the jobs up to it and the job, and its time on machine 2 is reached there. The side
/// is in rising order. Only want of memory is an error.
pub fn johnson<A: Allocator + Copy, B: Allocator>(
    alloc: A,
    task: &Task<B>,
) -> Result<Answer<A>, OutOfMemory>
    requires { IsTrue (is_flow task.now.class) }
    ensures schedule { IfOk result (λ a. IsSchedule a.pieces) }
    ensures accepted { IfOk result (IsAccepted task.now) }
    ensures rule { IfOk result (λ a. RunsByJohnson task.now a.pieces a.certificate) }
{
    let order = johnson_order(alloc, task)?;
    let mut pieces = first_pieces(alloc, task, &order)?;
    let turn = lay_second(&mut pieces, task, &order)?;
    let split = split_at(alloc, task, &order, turn)?;
    Ok(Answer {
        pieces: PieceList::new(pieces),
        value: turn.second as i64,
        certificate: Certificate::Split(split),
    })
}

// The pieces of the jobs on machine 1, one after another, with room for those on machine 2.
fn first_pieces<A: Allocator, B: Allocator>(
    alloc: A,
    task: &Task<B>,
    order: &[JobId],
) -> Result<Vec<Piece, A>, OutOfMemory>
    requires flow { IsTrue (is_flow task.now.class) }
    requires order { IsPermutation (all_jobs task.now) order.now }
    ensures laid { IfOk result (λ pieces.
        pieces.items ≡ laid (on_machine (time_at task.now) 1 order.now)) }
    ensures sound { IfOk result (λ _. IsSound task.now) }
{
    let mut pieces = Vec::with_capacity(alloc, 2 * task.len())?;
    let mut now: u64 = 0;
    for job in order {
        now = push_stretch(&mut pieces, operation(task, *job, machine_of(true)), now)?;
    }
    Ok(pieces)
}

// The split at the place of a turn, whose bound is when the line of the jobs ends.
fn split_at<A: Allocator, B: Allocator>(
    alloc: A,
    task: &Task<B>,
    order: &[JobId],
    turn: Turn,
) -> Result<Split<A>, OutOfMemory>
    requires flow { IsTrue (is_flow task.now.class) }
    requires order { IsJohnsonOrder task.now order.now }
    requires turn { IsTurn (time_at task.now) order.now turn.late }
    requires end { turn.second + sum_by (λ j. time_at task.now j 2) (take turn.late order.now)
        ≡ sum_by (λ j. time_at task.now j 1) (take (turn.late + 1) order.now)
        + sum_by (λ j. time_at task.now j 2) order.now }
    requires small { turn.second ≤ limit }
    ensures bound { IfOk result (λ split.
        split_bound task.now split.side split.delta split.first ≡ Ok (pos turn.second)) }
    ensures split { IfOk result (λ split. IsTurnSplit (time_at task.now) order.now
        (BySplit split.side split.delta split.first)) }
{
    let job = order[turn.late];
    let on_first = task.time_on(job, machine_of(true));
    let on_second = task.time_on(job, machine_of(false));
    let (count, delta, first) = if on_first <= on_second {
        (turn.late, on_first, true)
    } else {
        (turn.late + 1, on_second, false)
    };
    // In rising order.
    let mut side = order[..count].to_vec(alloc)?;
    side.sort_unstable();
    Ok(Split {
        side: JobList::new(side),
        delta: delta as i64,
        first,
    })
}
