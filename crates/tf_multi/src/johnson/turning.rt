//! The pieces on machine 2, and the job at which the split of Johnson's order turns.
ghost use Rattle.std.specs.Prelude.{◌≡◌, ◌+◌, ◌≤◌, take, IfOk};
ghost use Rattle.std.specs.List.{sum_by};
ghost use Rattle.tf_model.specs.Limit.{limit};
ghost use Rattle.tf_model.specs.Sound.{IsSound};
ghost use Rattle.tf_schedule.specs.SemiActive.{laid};
ghost use Rattle.tf_multi.specs.Johnson.{line_end, IsJohnsonOrder, IsTurn};
ghost use Rattle.tf_multi.specs.TwoMachines.{time_at, on_machine, in_line};

use crate::two_machines::{machine_of, operation};
use std::alloc::Allocator;
use tf_model::ids::JobId;
use tf_model::memory::OutOfMemory;
use tf_model::task::Task;
use tf_schedule::piece::Piece;
use tf_schedule::semi_active::push_stretch;

// When machine 2 has completed the jobs of a line, and the place of the last of them whose end on
// machine 1 came after all earlier work on machine 2.
#[derive(Clone, Copy)]
pub(super) struct Turn {
    pub(super) second: u64,
    pub(super) late: usize,
}

// Lays the jobs on machine 2, behind their pieces on machine 1, each as soon as machine 2 has
// completed the jobs before it and machine 1 the job. The turn behind all jobs; its place is the
// first one where no job is late.
pub(super) fn lay_second<A: Allocator, B: Allocator>(
    pieces: &mut Vec<Piece, A>,
    task: &Task<B>,
    order: &[JobId],
) -> Result<Turn, OutOfMemory>
    requires sound { IsSound task.now }
    requires order { IsJohnsonOrder task.now order.now }
    requires first { pieces.old.items ≡ laid (on_machine (time_at task.now) 1 order.now) }
    ensures laid { IfOk result
        (λ _. pieces.new.items ≡ laid (in_line (time_at task.now) order.now)) }
    ensures turn { IfOk result (λ turn. IsTurn (time_at task.now) order.now turn.late) }
    ensures value { IfOk result (λ turn.
        turn.second ≡ line_end (time_at task.now) 0 0 order.now) }
    ensures end { IfOk result (λ turn.
        turn.second + sum_by (λ j. time_at task.now j 2) (take turn.late order.now)
        ≡ sum_by (λ j. time_at task.now j 1) (take (turn.late + 1) order.now)
        + sum_by (λ j. time_at task.now j 2) order.now) }
    ensures small { IfOk result (λ turn. turn.second ≤ limit) }
{
    let mut first: u64 = 0;
    let mut second: u64 = 0;
    let mut late: usize = 0;
    for (i, job) in order.iter().enumerate() {
        let row = task.job(*job);
        first += row.first;
        if first > second {
            late = i;
        }
        second = first.max(second) + row.second;
        let operation = operation(task, *job, machine_of(false));
        push_stretch(pieces, operation, second - operation.time)?;
    }
    Ok(Turn { second, late })
}
