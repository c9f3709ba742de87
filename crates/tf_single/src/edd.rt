//! One machine with release dates, where jobs may be interrupted.
ghost use Rattle.std.specs.Prelude.{◌≡◌, ℕ, ◌*◌, ◌≤◌, ◌&&◌, nat_le, length, IfOk, Ok};
ghost use Rattle.std.specs.List.{All, Any, filter};
ghost use Rattle.tf_model.specs.Limit.{limit};
ghost use Rattle.tf_model.specs.SchedulingTask.{IsJob, all_jobs, job_data};
ghost use Rattle.tf_model.specs.Sound.{IsSound};
ghost use Rattle.tf_model.specs.declared.class.Class.TheVariants.{ReleaseLmax};
ghost use Rattle.tf_model.specs.Cost.{IsBest};
ghost use Rattle.tf_schedule.specs.Piece.{as_time};
ghost use Rattle.tf_schedule.specs.Schedule.{IsSchedule, IsPiece};
ghost use Rattle.tf_schedule.specs.Drawing.{drawing, Draws};
ghost use Rattle.tf_check.specs.Accepted.{IsAccepted};
ghost use Rattle.tf_check.specs.Bound.{window_bound};
ghost use Rattle.tf_single.specs.EarliestDue.{IsStretch, IsLastWindow};
ghost use Rattle.tf_single.specs.Horn.{RunsByHorn};
ghost use Rattle.tf_single.specs.Progress.{of_job, IsTimeline};
ghost use Rattle.tf_single.specs.Ends.{AreEnds, AreInTurn, IsLatest, IsStretchStart, lateness};
ghost use Rattle.tf_single.specs.Ends.{is_within};

use crate::timeline::timeline;
use std::alloc::Allocator;
use tf_check::answer::Answer;
use tf_check::certificate::Certificate;
use tf_check::window::Window;
use tf_model::ids::JobId;
use tf_model::job_list::JobList;
use tf_model::memory::OutOfMemory;
use tf_model::task::Task;
use tf_schedule::piece::Piece;
use tf_schedule::piece_list::PieceList;

/// A timetable of least greatest lateness on one machine whose jobs have release dates and may be
/// interrupted (Horn 1974).
///
/// At each time the released unfinished job of earliest due date runs, the smaller number among
/// equals. The pieces come in order of time. The certificate is a window: of the smallest job of
/// greatest lateness, the jobs that run in the last stretch up to its completion in which only jobs
/// due no later run, without idle time. Only want of memory is an error.
pub fn edd<A: Allocator + Copy, B: Allocator>(
    alloc: A,
    task: &Task<B>,
) -> Result<Answer<A>, OutOfMemory>
    requires { task.now.class ≡ ReleaseLmax }
    ensures schedule { IfOk result (λ a. IsSchedule a.pieces) }
    ensures draws { IfOk result (λ a.
        Draws task.now.machines a.pieces (drawing task.now.machines a.pieces)) }
    ensures accepted { IfOk result (IsAccepted task.now) }
    ensures best { IfOk result (λ a. IsBest task.now (drawing task.now.machines a.pieces) a.value) }
    ensures few { IfOk result (λ a. length a.pieces ≤ 2 * length task.now.jobs) }
    ensures rule { IfOk result (λ a. RunsByHorn task.now a.pieces a.certificate) }
{
    let pieces = timeline(alloc, task)?;
    let ends = completions(alloc, task, &pieces)?;
    let (window, value) = last_window(alloc, task, &pieces, &ends)?;
    Ok(Answer {
        pieces: PieceList::new(pieces),
        value,
        certificate: Certificate::Window(window),
    })
}

// The window of the smallest job of greatest lateness, and how late that is.
fn last_window<A: Allocator, B: Allocator>(
    alloc: A,
    task: &Task<B>,
    pieces: &[Piece],
    ends: &[u64],
) -> Result<(Window<A>, i64), OutOfMemory>
    requires class { task.now.class ≡ ReleaseLmax }
    requires sound { IsSound task.now }
    requires timeline { IsTimeline task.now pieces.now }
    requires ends { AreEnds task.now pieces.now ends.now }
    ensures window { IfOk result (λ found.
        IsLastWindow task.now (drawing 1 pieces.now) found.0.jobs) }
    ensures value { IfOk result (λ found. window_bound task.now found.0.jobs ≡ Ok found.1) }
{
    let latest = latest(task, ends);
    let end = ends[latest.place()];
    let start = stretch_start(task, pieces, task.due(latest), end);
    let jobs = jobs_within(alloc, task, ends, start, end)?;
    let window = Window {
        jobs: JobList::new(jobs),
    };
    Ok((window, lateness(task, ends, latest)))
}

// When each job is over.
fn completions<A: Allocator, B: Allocator>(
    alloc: A,
    task: &Task<B>,
    pieces: &[Piece],
) -> Result<Vec<u64, A>, OutOfMemory>
    requires sound { All IsPiece pieces.now }
    requires turns { AreInTurn task.now pieces.now }
    ensures { IfOk result (λ v. AreEnds task.now pieces.now v.items) }
{
    let mut ends = vec![in alloc; 0_u64; task.len()]?;
    for piece in pieces {
        let place = piece.job.place();
        ends[place] = stop_of(piece).max(ends[place]);
    }
    Ok(ends)
}

fn stop_of(piece: &Piece) -> u64
    requires { IsPiece piece.now }
    ensures { result ≡ as_time piece.now.stop }
{
    piece.stop as u64
}

// The smallest job of greatest lateness.
fn latest<B: Allocator>(task: &Task<B>, ends: &[u64]) -> JobId
    requires class { task.now.class ≡ ReleaseLmax }
    requires len { length ends.now ≡ length task.now.jobs }
    requires limit { (j : ℕ) → IsJob task.now j → of_job ends.now j ≤ limit }
    ensures { IsLatest task.now ends.now result }
{
    let mut latest = JobId::at(0);
    for k in 1..task.len() {
        let job = JobId::at(k);
        if lateness(task, ends, latest) < lateness(task, ends, job) {
            latest = job;
        }
    }
    latest
}

fn lateness<B: Allocator>(task: &Task<B>, ends: &[u64], job: JobId) -> i64
    requires sound { IsSound task.now }
    requires class { task.now.class ≡ ReleaseLmax }
    requires job { IsJob task.now job }
    requires len { length ends.now ≡ length task.now.jobs }
    requires limit { of_job ends.now job ≤ limit }
    ensures { result ≡ lateness task.now ends.now job }
{
    ends[job.place()] as i64 - task.due(job)
}

// The least time from which on, up to `end`, only jobs due no later run, without idle time. A piece
// stops at `end`.
fn stretch_start<B: Allocator>(task: &Task<B>, pieces: &[Piece], due: i64, end: u64) -> u64
    requires class { task.now.class ≡ ReleaseLmax }
    requires sound { IsSchedule pieces.now }
    requires turns { AreInTurn task.now pieces.now }
    requires reached { Any (λ p. as_time p.stop ≡ end) pieces.now }
    ensures { IsStretch task.now (drawing 1 pieces.now) due result end }
{
    let mut start = 0;
    let mut over = 0;
    for piece in pieces {
        start = stretch_with(task, piece, due, start, over);
        over = stop_of(piece);
        if over == end {
            return start;
        }
    }
    start
}

// Where the stretch starts with one more piece, if it went from `start` to `over`.
fn stretch_with<B: Allocator>(task: &Task<B>, piece: &Piece, due: i64, start: u64, over: u64) -> u64
    requires class { task.now.class ≡ ReleaseLmax }
    requires sound { IsPiece piece.now }
    requires job { IsJob task.now piece.now.job }
    ensures { IsStretchStart task.now due start over piece.now result }
{
    let begin = piece.start as u64;
    if due < task.due(piece.job) {
        stop_of(piece)
    } else if over < begin {
        begin
    } else {
        start
    }
}

// Whether the job, which is over at `over`, is released at `start` or later and over by `end`.
fn is_within<B: Allocator>(task: &Task<B>, job: JobId, start: u64, over: u64, end: u64) -> bool
    requires class { task.now.class ≡ ReleaseLmax }
    requires job { IsJob task.now job }
    ensures { result ≡ nat_le start (job_data task.now job).release && nat_le over end }
{
    start <= task.release(job) && over <= end
}

// The jobs that are released at `start` or later and over by `end`.
fn jobs_within<A: Allocator, B: Allocator>(
    alloc: A,
    task: &Task<B>,
    ends: &[u64],
    start: u64,
    end: u64,
) -> Result<Vec<JobId, A>, OutOfMemory>
    requires class { task.now.class ≡ ReleaseLmax }
    requires len { length ends.now ≡ length task.now.jobs }
    ensures { IfOk result (λ v.
        v.items ≡ filter (is_within task.now ends.now start end) (all_jobs task.now)) }
{
    let mut jobs = Vec::new(alloc);
    for k in 0..task.len() {
        let job = JobId::at(k);
        if is_within(task, job, start, ends[k], end) {
            jobs.push(job)?;
        }
    }
    Ok(jobs)
}
