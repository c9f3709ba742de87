//! Parallel machines with a sum of completions.
ghost use Rattle.std.specs.Prelude.{◌≡◌, ◌+◌, ◌<◌, ◌≤◌, IfOk, IsTrue};
ghost use Rattle.std.specs.List.{All, fold, sum_by};
ghost use Rattle.std.specs.List.Sorted.{IsPermutation};
ghost use Rattle.tf_model.specs.ClassTable.{is_parallel, is_sum};
ghost use Rattle.tf_model.specs.Limit.{limit};
ghost use Rattle.tf_model.specs.SchedulingTask.{IsJob, all_jobs, time_of};
ghost use Rattle.tf_model.specs.Sound.{IsSound};
ghost use Rattle.tf_schedule.specs.Schedule.{IsSchedule};
ghost use Rattle.tf_schedule.specs.SemiActive.{laid, with_operation};
ghost use Rattle.tf_check.specs.Accepted.{IsAccepted};
ghost use Rattle.tf_multi.specs.Dealt.{AreDealt, IsReverseRanks};
ghost use Rattle.tf_multi.specs.Dealing.{AreFree, turns, share, dealt};

use std::alloc::Allocator;
use tf_check::answer::Answer;
use tf_check::certificate::Certificate;
use tf_check::ranks::{Ranks, ranked_times};
use tf_check::ratio::jobs_by_ratio;
use tf_model::ids::{JobId, MachineId};
use tf_model::job_list::JobList;
use tf_model::memory::OutOfMemory;
use tf_model::task::Task;
use tf_schedule::piece::Piece;
use tf_schedule::piece_list::PieceList;
use tf_schedule::semi_active::{Operation, push_stretch};
use tf_schedule::sequence::reversed;

/// A timetable of least sum of completions on parallel machines (Conway, Maxwell and Miller 1967).
///
/// The jobs, by time and then by number, are dealt to the machines in turn, and each machine runs
/// its jobs in that order without idle time. The pieces come by machine and start. The certificate
/// is the ranks of the jobs in the reverse of that order. Only want of memory is an error.
pub fn spt<A: Allocator + Copy, B: Allocator>(
    alloc: A,
    task: &Task<B>,
) -> Result<Answer<A>, OutOfMemory>
    requires sum { IsTrue (is_sum task.now.class) }
    requires parallel { IsTrue (is_parallel task.now.class) }
    ensures schedule { IfOk result (λ a. IsSchedule a.pieces) }
    ensures accepted { IfOk result (IsAccepted task.now) }
    ensures certificate { IfOk result (λ a. IsReverseRanks task.now a.certificate) }
    ensures rule { IfOk result (λ a. AreDealt task.now a.pieces) }
{
    // All jobs weigh the same, so that those of greater weight for their time are the shorter ones.
    let jobs = jobs_by_ratio(alloc, task)?;
    let pieces = dealt(alloc, task, &jobs)?;
    let longest_first = reversed(jobs);
    let value = ranked_times(task, &longest_first);
    Ok(Answer {
        pieces: PieceList::new(pieces),
        value: value as i64,
        certificate: Certificate::Ranks(Ranks {
            jobs: JobList::new(longest_first),
        }),
    })
}

// The pieces of the jobs that machine 1 gets in turn, then of those of machine 2, and so on.
fn dealt<A: Allocator, B: Allocator>(
    alloc: A,
    task: &Task<B>,
    order: &[JobId],
) -> Result<Vec<Piece, A>, OutOfMemory>
    requires { IsPermutation (all_jobs task.now) order.now }
    ensures laid { IfOk result (λ pieces. pieces.items
        ≡ laid (dealt (time_of task.now) task.now.machines task.now.machines order.now)) }
    ensures sound { IfOk result (λ _. IsSound task.now) }
{
    let mut pieces = Vec::with_capacity(alloc, task.len())?;
    for machine in 0..task.machines() {
        lay_turns(&mut pieces, task, order, machine)?;
    }
    Ok(pieces)
}

// Lays the jobs of a machine, counted from 0, one after another: one job from each round of the
// machines.
fn lay_turns<A: Allocator, B: Allocator>(
    pieces: &mut Vec<Piece, A>,
    task: &Task<B>,
    order: &[JobId],
    machine: u32,
) -> Result<(), OutOfMemory>
    requires order { All (IsJob task.now) order.now }
    requires machine { machine < task.now.machines }
    requires free { AreFree pieces.old.items (machine + 1)
        (turns task.now.machines machine order.now) }
    requires within { sum_by (time_of task.now) (turns task.now.machines machine order.now)
        ≤ limit }
    ensures { IfOk result (λ _. pieces.new.items ≡ fold with_operation pieces.old.items
        (share (time_of task.now) task.now.machines machine order.now)) }
{
    let mut now: u64 = 0;
    for place in (machine as usize..order.len()).step_by(task.machines() as usize) {
        let job = order[place];
        let operation = Operation {
            job,
            machine: MachineId::at(machine as usize),
            time: task.time(job),
        };
        now = push_stretch(pieces, operation, now)?;
    }
    Ok(())
}
