//! Parallel machines with preemption.
ghost use Rattle.std.specs.Prelude.{◌≡◌, ℕ, ◌-◌, ◌*◌, ◌<◌, ◌≤◌, List, ◌∷◌, ◌++◌, length, IfOk};
ghost use Rattle.std.specs.List.{sum_by};
ghost use Rattle.tf_model.specs.Cost.{IsBest};
ghost use Rattle.tf_model.specs.SchedulingTask.{IsJob, all_jobs, time_of};
ghost use Rattle.tf_model.specs.declared.class.Class.TheVariants.{ParallelPrmp};
ghost use Rattle.tf_model.specs.declared.limit.TheConstants.{MOST_MACHINES};
ghost use Rattle.tf_model.specs.Limit.{limit};
ghost use Rattle.tf_schedule.specs.Drawing.{drawing, Draws};
ghost use Rattle.tf_schedule.specs.Schedule.{IsSchedule};
ghost use Rattle.tf_check.specs.Accepted.{IsAccepted};
ghost use Rattle.tf_multi.specs.Fill.{IsFilled};
ghost use Rattle.tf_multi.specs.Longest.{IsLoadOrLongest};
ghost use Rattle.tf_multi.specs.Wrapped.{wrapped, AreWrapped};

use crate::longest::first_longest;
use std::alloc::Allocator;
use tf_check::answer::Answer;
use tf_check::certificate::Certificate;
use tf_check::load::Load;
use tf_check::one_job::OneJob;
use tf_model::ids::{JobId, MachineId};
use tf_model::memory::OutOfMemory;
use tf_model::task::Task;
use tf_schedule::piece::Piece;
use tf_schedule::piece_list::PieceList;

/// A shortest timetable on parallel machines whose jobs may be interrupted (McNaughton 1959).
///
/// It is as long as the longest job or, if that is more, as the load of each machine, rounded up to
/// whole time steps. The machines are filled up to that length one after another, in the order of
/// the jobs, and the rest of a job that does not fit on a machine starts the next one at time 0.
/// The pieces come by machine and start. The certificate is the load, if no job is longer, and
/// otherwise the first of the longest jobs. Only want of memory is an error.
pub fn mcnaughton<A: Allocator + Copy, B: Allocator>(
    alloc: A,
    task: &Task<B>,
) -> Result<Answer<A>, OutOfMemory>
    requires { task.now.class ≡ ParallelPrmp }
    ensures schedule { IfOk result (λ a. IsSchedule a.pieces) }
    ensures draws { IfOk result
        (λ a. Draws task.now.machines a.pieces (drawing task.now.machines a.pieces)) }
    ensures accepted { IfOk result (IsAccepted task.now) }
    ensures best { IfOk result (λ a. IsBest task.now (drawing task.now.machines a.pieces) a.value) }
    ensures certificate { IfOk result (λ a. IsLoadOrLongest task.now a.certificate) }
    ensures rule { IfOk result (λ a. AreWrapped task.now a.pieces a.value) }
{
    let longest = first_longest(task);
    let load = task.load();
    let value = load.max(task.time(longest));
    let pieces = fill(alloc, task, value)?;
    let certificate = if load == value {
        Certificate::Load(Load)
    } else {
        Certificate::OneJob(OneJob { job: longest })
    };
    Ok(Answer {
        pieces: PieceList::new(pieces),
        value: value as i64,
        certificate,
    })
}

// How far the machines are filled: all before this one, and this one up to a time.
#[derive(Clone, Copy)]
struct Front {
    machine: MachineId,
    at: u64,
}

// All jobs, on machines that are filled up to the value.
fn fill<A: Allocator + Copy, B: Allocator>(
    alloc: A,
    task: &Task<B>,
    value: u64,
) -> Result<Vec<Piece, A>, OutOfMemory>
    requires within { value ≤ limit }
    requires worked { (j : ℕ) → IsJob task.now j → (0 < time_of task.now j)
        × (time_of task.now j ≤ value) }
    requires room { sum_by (time_of task.now) (all_jobs task.now) ≤ task.now.machines * value }
    ensures filled { IfOk result (λ pieces.
        (i : ℕ) × (t : ℕ)
        × IsFilled value (time_of task.now) (length task.now.jobs) pieces.items i t) }
    ensures wrapped { IfOk result (λ pieces.
        pieces.items ≡ wrapped value (time_of task.now) 1 0 (all_jobs task.now)) }
{
    let mut pieces = Vec::with_capacity(alloc, task.len() + task.machines() as usize)?;
    let mut front = Front {
        machine: MachineId::FIRST,
        at: 0,
    };
    for k in 0..task.len() {
        front = place(&mut pieces, task, value, front, JobId::at(k))?;
    }
    Ok(pieces)
}

// The front behind a job that is placed from the front on.
fn place<A: Allocator, B: Allocator>(
    pieces: &mut Vec<Piece, A>,
    task: &Task<B>,
    value: u64,
    front: Front,
    job: JobId,
) -> Result<Front, OutOfMemory>
    requires within { value ≤ limit }
    requires job { IsJob task.now job }
    requires worked { (0 < time_of task.now job) × (time_of task.now job ≤ value) }
    requires machine { front.machine ≤ MOST_MACHINES }
    requires filled { IsFilled value (time_of task.now) (job - 1) pieces.old.items front.machine
        front.at }
    ensures filled { IfOk result (λ next.
        IsFilled value (time_of task.now) job pieces.new.items next.machine next.at) }
    ensures wrapped { IfOk result (λ next. (js : List ℕ) →
        pieces.old.items ++ wrapped value (time_of task.now) front.machine front.at (job ∷ js)
        ≡ pieces.new.items ++ wrapped value (time_of task.now) next.machine next.at js) }
{
    let time = task.time(job);
    let room = value - front.at;
    if room == 0 {
        let machine = front.machine.next();
        pieces.push(Piece::of(job, machine, 0, time))?;
        return Ok(Front { machine, at: time });
    }
    if time <= room {
        let stop = front.at + time;
        pieces.push(Piece::of(job, front.machine, front.at, stop))?;
        return Ok(Front {
            machine: front.machine,
            at: stop,
        });
    }
    pieces.push(Piece::of(job, front.machine, front.at, value))?;
    let machine = front.machine.next();
    let rest = time - room;
    pieces.push(Piece::of(job, machine, 0, rest))?;
    Ok(Front { machine, at: rest })
}
