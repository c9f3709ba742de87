//! Open shops with two machines.
ghost use Rattle.std.specs.Prelude.{◌≡◌, ◌≢◌, ◌+◌, ◌≤◌, ◌∷◌, ◌++◌, min, not, filter};
ghost use Rattle.std.specs.Prelude.{if◌then◌else◌, IfOk, IsTrue, IsFalse};
ghost use Rattle.std.specs.List.{All, AllPairs, sum_by};
ghost use Rattle.std.specs.List.Sorted.{IsPermutation};
ghost use Rattle.tf_model.specs.ClassTable.{is_shop, is_flow};
ghost use Rattle.tf_model.specs.Limit.{limit};
ghost use Rattle.tf_model.specs.SchedulingTask.{IsJob, all_jobs};
ghost use Rattle.tf_model.specs.Sound.{IsSound};
ghost use Rattle.tf_schedule.specs.MachinePart.{is_in_part};
ghost use Rattle.tf_schedule.specs.Schedule.{ComesBefore, IsSchedule};
ghost use Rattle.tf_schedule.specs.SemiActive.{laid, stretch};
ghost use Rattle.tf_check.specs.Accepted.{IsAccepted};
ghost use Rattle.tf_multi.specs.OpenShop.{is_early, goes_ahead, IsLeader, IsLed, is_in_group};
ghost use Rattle.tf_multi.specs.OpenShop.{over_at, followers, led, operations_led_by};

use crate::longest::first_longest;
use crate::two_machines::{machine_of, operation};
use std::alloc::Allocator;
use tf_check::answer::Answer;
use tf_check::certificate::Certificate;
use tf_check::machine_load::MachineLoad;
use tf_check::one_job::OneJob;
use tf_model::ids::JobId;
use tf_model::job_rows::JobRow;
use tf_model::memory::OutOfMemory;
use tf_model::task::Task;
use tf_schedule::piece::Piece;
use tf_schedule::piece_list::PieceList;
use tf_schedule::schedule::sort_by_machine;
use tf_schedule::semi_active::Operation;

/// A shortest timetable of an open shop with two machines (Gonzalez and Sahni 1976).
///
/// A job is early if it is no longer on machine 1 than on machine 2. The leader is the job whose
/// lesser time is the greatest, an early one if there is a choice, and the first of these. If it is
/// early, machine 1 runs the other early jobs, then those that are not early, and the leader last,
/// and machine 2 runs the leader first and then the others in the same order. Otherwise early and
/// not early change places, and so do the machines. Each job but the leader visits first the
/// machine on which the leader is last, and starts as soon as it and the machine are free. The
/// pieces come by machine and start. The certificate is machine 1, machine 2 or the first longest
/// job, the first of these whose bound is the value. Only want of memory is an error.
pub fn open_two<A: Allocator + Copy, B: Allocator>(
    alloc: A,
    task: &Task<B>,
) -> Result<Answer<A>, OutOfMemory>
    requires shop { IsTrue (is_shop task.now.class) }
    requires any_order { IsFalse (is_flow task.now.class) }
    ensures schedule { IfOk result (λ a. IsSchedule a.pieces) }
    ensures accepted { IfOk result (IsAccepted task.now) }
    ensures rule { IfOk result (λ a. IsLed task.now a.pieces a.certificate) }
{
    let leader = leader(task);
    let pieces = pieces_led_by(alloc, task, leader)?;
    let first = task.work_on(machine_of(true));
    let second = task.work_on(machine_of(false));
    let longest = first_longest(task);
    let value = first.max(second).max(task.time(longest));
    let certificate = if first == value {
        Certificate::Machine(MachineLoad {
            machine: machine_of(true),
        })
    } else if second == value {
        Certificate::Machine(MachineLoad {
            machine: machine_of(false),
        })
    } else {
        Certificate::OneJob(OneJob { job: longest })
    };
    Ok(Answer {
        pieces: PieceList::new(pieces),
        value: value as i64,
        certificate,
    })
}

fn leader<B: Allocator>(task: &Task<B>) -> JobId
    ensures { IsLeader task.now result }
{
    let mut leader = JobId::at(0);
    for k in 1..task.len() {
        let job = JobId::at(k);
        if goes_ahead(task.job(job), task.job(leader)) {
            leader = job;
        }
    }
    leader
}

// Whether the lesser time of a job is greater than that of the other one, or the same where only
// the job is early.
fn goes_ahead(job: JobRow, other: JobRow) -> bool
    ensures { result ≡ goes_ahead job.first job.second other.first other.second }
{
    let lesser = job.first.min(job.second);
    let other_lesser = other.first.min(other.second);
    if lesser == other_lesser {
        return job.first <= job.second && other.first > other.second;
    }
    lesser > other_lesser
}

// The pieces of all jobs, by machine and start.
fn pieces_led_by<A: Allocator + Copy, B: Allocator>(
    alloc: A,
    task: &Task<B>,
    leader: JobId,
) -> Result<Vec<Piece, A>, OutOfMemory>
    requires shop { IsTrue (is_shop task.now.class) }
    requires any_order { IsFalse (is_flow task.now.class) }
    requires leader { IsLeader task.now leader }
    ensures kept { IfOk result (λ pieces.
        IsPermutation (laid (operations_led_by task.now leader)) pieces.items) }
    ensures in_order { IfOk result (λ pieces. AllPairs ComesBefore pieces.items) }
    ensures sound { IfOk result (λ _. IsSound task.now) }
{
    let mut pieces = Vec::with_capacity(alloc, 2 * task.len())?;
    let followers = followers(alloc, task, leader)?;
    lay_part(&mut pieces, task, leader, &followers, true)?;
    lay_part(&mut pieces, task, leader, &followers, false)?;
    sort_by_machine(&mut pieces);
    Ok(pieces)
}

// The jobs but the leader: those that are early as it is, or not as it, and then the others.
fn followers<A: Allocator, B: Allocator>(
    alloc: A,
    task: &Task<B>,
    leader: JobId,
) -> Result<Vec<JobId, A>, OutOfMemory>
    requires { IsJob task.now leader }
    ensures { IfOk result (λ jobs.
        jobs.items ≡ followers task.now leader (is_early task.now leader)) }
{
    let early = is_early(task, leader);
    let mut jobs = Vec::with_capacity(alloc, task.len())?;
    push_group(&mut jobs, task, leader, early)?;
    push_group(&mut jobs, task, leader, !early)?;
    Ok(jobs)
}

// Adds the jobs but the leader that are early, or those that are not.
fn push_group<A: Allocator, B: Allocator>(
    jobs: &mut Vec<JobId, A>,
    task: &Task<B>,
    leader: JobId,
    early: bool,
) -> Result<(), OutOfMemory>
    ensures { IfOk result (λ _. jobs.new.items
        ≡ jobs.old.items ++ filter (is_in_group task.now leader early) (all_jobs task.now)) }
{
    for k in 0..task.len() {
        let job = JobId::at(k);
        if job != leader && is_early(task, job) == early {
            jobs.push(job)?;
        }
    }
    Ok(())
}

// Lays all jobs, the leader on the second machine first and on the first machine last, and adds the
// pieces on machine 1, or those on machine 2.
fn lay_part<A: Allocator, B: Allocator>(
    pieces: &mut Vec<Piece, A>,
    task: &Task<B>,
    leader: JobId,
    followers: &[JobId],
    on_first: bool,
) -> Result<(), OutOfMemory>
    requires known { All (IsJob task.now) (leader ∷ followers.now) }
    requires apart { AllPairs (λ i j. i ≢ j) (leader ∷ followers.now) }
    requires within { sum_by (λ o. o.time) (led task.now leader followers.now) ≤ limit }
    ensures { IfOk result (λ _. pieces.new.items ≡ pieces.old.items
        ++ filter (is_in_part on_first) (laid (led task.now leader followers.now))) }
{
    let early = is_early(task, leader);
    let first = machine_of(early);
    let second = machine_of(!early);
    let leader_over = push_in_part(pieces, operation(task, leader, second), 0, on_first)?;
    let mut first_free: u64 = 0;
    let mut second_free: u64 = leader_over;
    for job in followers {
        let over = push_in_part(pieces, operation(task, *job, first), first_free, on_first)?;
        first_free = first_free.max(over);
        let start = second_free.max(over);
        let last = push_in_part(pieces, operation(task, *job, second), start, on_first)?;
        second_free = second_free.max(last);
    }
    let start = first_free.max(leader_over);
    push_in_part(pieces, operation(task, leader, first), start, on_first)?;
    Ok(())
}

// Adds an operation that starts at `start`, if it is on machine 1 as asked or not as asked, and
// returns its completion time: 0 for an operation of time 0, which has no piece.
fn push_in_part<A: Allocator>(
    pieces: &mut Vec<Piece, A>,
    operation: Operation,
    start: u64,
    on_first: bool,
) -> Result<u64, OutOfMemory>
    requires { start + operation.time ≤ limit }
    ensures pieces { IfOk result (λ _. pieces.new.items ≡ pieces.old.items
        ++ filter (is_in_part on_first)
        (stretch operation.job operation.machine start operation.time)) }
    ensures over { IfOk result (λ over. over ≡ over_at start operation.time) }
{
    if operation.time == 0 {
        return Ok(0);
    }
    let over = start + operation.time;
    if (operation.machine.get() == 1) != on_first {
        return Ok(over);
    }
    pieces.push(Piece::of(operation.job, operation.machine, start, over))?;
    Ok(over)
}

fn is_early<B: Allocator>(task: &Task<B>, job: JobId) -> bool
    requires { IsJob task.now job }
    ensures { result ≡ is_early task.now job }
{
    let row = task.job(job);
    row.first <= row.second
}
