//! What a schedule costs.
ghost use Rattle.std.specs.Prelude.{◌≡◌, ℕ, ℤ, pos, ◌≤ℤ◌, ◌+◌, ◌*◌, ◌<◌, ◌≤◌, ◌⊎◌, ◌↔◌, min, List};
ghost use Rattle.std.specs.Prelude.{length, slice_index, IsTrue, IsFalse};
ghost use Rattle.std.specs.List.{All};
ghost use Rattle.tf_model.specs.Limit.{limit};
ghost use Rattle.tf_model.specs.SchedulingTask.{IsJob, job_data};
ghost use Rattle.tf_model.specs.ClassTable.{is_sum};
ghost use Rattle.tf_model.specs.Cost.{cost, price, greatest_price, total_price};
ghost use Rattle.tf_model.specs.Sound.{IsSound};
ghost use Rattle.tf_schedule.specs.declared.piece.Piece.{Piece};
ghost use Rattle.tf_schedule.specs.Piece.{as_time};
ghost use Rattle.tf_schedule.specs.Schedule.{IsSchedule, IsPiece};
ghost use Rattle.tf_schedule.specs.Drawing.{drawing, stop_of};
ghost use Rattle.tf_schedule.specs.Misfit.{IsKnown};
ghost use Rattle.tf_schedule.specs.Cost.{known_pieces, schedule_cost};
ghost use Rattle.tf_schedule.specs.Lanes.{HasLanes, stop_by, stop_in};
ghost use Rattle.tf_schedule.specs.Stops.{total_of, total_to, with_stop, HasStops};

use crate::extent::{Extent, extent_at};
use crate::judge;
use crate::lanes::Lanes;
use crate::piece::Piece;
use crate::schedule::Schedule;
use std::alloc::Allocator;
use tf_model::cost::Cost;
use tf_model::ids::JobId;
use tf_model::task::Task;

/// What the timetable costs that the pieces draw. Pieces that name no job or no machine of the task
/// are left out, and a job without a piece completes at time 0. It takes no memory.
pub fn cost<A: Allocator, B: Allocator>(task: &Task<A>, schedule: &Schedule<B>) -> i128
    ensures { result ≡ schedule_cost task.now schedule.now }
{
    if task.class().is_sum() {
        total_cost(task, schedule.pieces())
    } else {
        greatest_cost(task, schedule.pieces())
    }
}

/// What the timetable costs that the pieces of a table draw, if all are the task's.
pub(crate) fn cost_in<A: Allocator, B: Allocator>(task: &Task<A>, lanes: &Lanes<B>) -> i128
    requires stops { (j : ℕ) → IsJob task.now j → stop_in lanes.now j ≤ limit }
    ensures { (ps : List Piece) → IsSchedule ps → All (IsKnown task.now) ps →
        HasLanes (length task.now.jobs) ps lanes.now →
        result ≡ cost task.now (drawing task.now.machines ps) }
{
    if task.class().is_sum() {
        total_by(task, lanes.extents()) as i128
    } else {
        greatest_by(task, lanes.extents())
    }
}

// Whether a piece names a job and a machine of the task.
fn is_known<A: Allocator>(task: &Task<A>, piece: &Piece) -> bool
    ensures { IsTrue result ↔ IsKnown task.now piece.now }
{
    judge::is_known(task, piece)
}

// ---- the greatest cost of a job

// No job gets cheaper by being late, so each piece of a job may stand for its last one.
fn greatest_cost<A: Allocator>(task: &Task<A>, pieces: &[Piece]) -> i128
    requires task { IsSound task.now }
    requires class { IsFalse (is_sum task.now.class) }
    requires schedule { IsSchedule pieces.now }
    ensures { result
        ≡ greatest_price task.now (drawing task.now.machines (known_pieces task.now pieces.now)) }
{
    // A job without a piece completes at time 0.
    let mut value: i128 = greatest_by(task, &[]);
    for piece in pieces {
        value = raised(task, value, piece);
    }
    value
}

// With one more piece.
fn raised<A: Allocator>(task: &Task<A>, value: i128, piece: &Piece) -> i128
    requires class { IsFalse (is_sum task.now.class) }
    requires sound { IsPiece piece.now }
    ensures above { value ≤ℤ result }
    ensures own { IsKnown task.now piece.now →
        price task.now piece.now.job (stop_of piece.now) ≤ℤ result }
    ensures reached { (result ≡ value)
        ⊎ (IsKnown task.now piece.now
        × (result ≡ price task.now piece.now.job (stop_of piece.now))) }
{
    if !is_known(task, piece) {
        return value;
    }
    value.max(price(task, piece.job, piece.stop))
}

// The greatest cost of a job if each completes at its last stop by these extents.
fn greatest_by<A: Allocator>(task: &Task<A>, extents: &[Extent]) -> i128
    requires class { IsFalse (is_sum task.now.class) }
    requires stops { (j : ℕ) → IsJob task.now j → stop_by extents.now j ≤ limit }
    ensures all { (j : ℕ) → IsJob task.now j →
        price task.now j (stop_by extents.now j) ≤ℤ result }
    ensures reached { (j : ℕ) × IsJob task.now j
        × (result ≡ price task.now j (stop_by extents.now j)) }
{
    let jobs = task.len();
    let mut value: i128 = price_by(task, extents, JobId::at(0));
    for k in 1..jobs {
        value = value.max(price_by(task, extents, JobId::at(k)));
    }
    value
}

fn price_by<A: Allocator>(task: &Task<A>, extents: &[Extent], job: JobId) -> i128
    requires class { IsFalse (is_sum task.now.class) }
    requires job { IsJob task.now job }
    requires stop { stop_by extents.now job ≤ limit }
    ensures { result ≡ price task.now job (stop_by extents.now job) }
{
    price(task, job, extent_at(extents, job).stop as i64)
}

/// What a job that is there costs if it completes at time `c`, where the objective is a greatest
/// cost: the time itself, its lateness or the value of its cost function. It takes no memory.
pub fn price<A: Allocator>(task: &Task<A>, job: JobId, c: i64) -> i128
    requires class { IsFalse (is_sum task.now.class) }
    requires job { IsJob task.now job }
    requires time { (pos 0 ≤ℤ c) × (c ≤ℤ pos limit) }
    ensures { result ≡ price task.now job (as_time c) }
{
    let class = task.class();
    if class.is_costed() {
        return i128::from(task.step_costs()[job.place()].value_at(c));
    }
    if class.is_due() {
        return i128::from(c) - i128::from(task.job(job).due);
    }
    i128::from(c)
}

// ---- the weighted sum of the completions

// How many jobs are summed up in one walk over the pieces.
const BLOCK: usize = 4_096;

fn total_cost<A: Allocator>(task: &Task<A>, pieces: &[Piece]) -> i128
    requires task { IsSound task.now }
    requires class { IsTrue (is_sum task.now.class) }
    requires schedule { IsSchedule pieces.now }
    ensures { result
        ≡ pos (total_price task.now
        (drawing task.now.machines (known_pieces task.now pieces.now))) }
{
    let jobs = task.len();
    let mut stops = [0u64; BLOCK];
    let mut total: u128 = 0;
    let mut first: usize = 0;
    while first < jobs {
        last_stops(task, pieces, first, &mut stops);
        total = with_block(task, pieces, total, first, &stops);
        first += BLOCK;
    }
    total as i128
}

// The greatest stops of the jobs from `first` + 1 on.
fn last_stops<A: Allocator>(task: &Task<A>, pieces: &[Piece], first: usize, stops: &mut [u64])
    requires { All IsPiece pieces.now }
    ensures { HasStops (known_pieces task.now pieces.now) first stops.new }
{
    stops.fill(0);
    for piece in pieces {
        note_stop(task, piece, first, stops);
    }
}

// With one more piece.
fn note_stop<A: Allocator>(task: &Task<A>, piece: &Piece, first: usize, stops: &mut [u64])
    requires { IsPiece piece.now }
    ensures { (i : ℕ) → i < length stops.old →
        slice_index stops.new i
        ≡ with_stop task.now piece.now (first + i + 1) (slice_index stops.old i) }
{
    if !is_known(task, piece) {
        return;
    }
    let job = piece.job.get() as usize;
    if job <= first {
        return;
    }
    let i = job - first - 1;
    if stops.len() <= i {
        return;
    }
    stops[i] = (piece.stop as u64).max(stops[i]);
}

// The sum of the jobs up to `first`, and of those after them whose last stops are given.
fn with_block<A: Allocator>(
    task: &Task<A>,
    pieces: &[Piece],
    total: u128,
    first: usize,
    stops: &[u64],
) -> u128
    requires task { IsSound task.now }
    requires class { IsTrue (is_sum task.now.class) }
    requires sound { All IsPiece pieces.now }
    requires first { first ≤ length task.now.jobs }
    requires few { length stops.now ≤ 4096 }
    requires stops { HasStops (known_pieces task.now pieces.now) first stops.now }
    requires total { total ≡ total_to task.now (known_pieces task.now pieces.now) first }
    ensures { result
        ≡ total_to task.now (known_pieces task.now pieces.now)
        (min (length task.now.jobs) (first + length stops.now)) }
{
    let end = task.len().min(first + stops.len());
    let mut sum: u128 = total;
    for i in first..end {
        sum += weighted(task, JobId::at(i), stops[i - first]);
    }
    sum
}

// The weighted completion of a job that completes at time `c`.
fn weighted<A: Allocator>(task: &Task<A>, job: JobId, c: u64) -> u128
    requires class { IsTrue (is_sum task.now.class) }
    requires job { IsJob task.now job }
    ensures { result ≡ (job_data task.now job).weight * c }
{
    u128::from(task.weight(job)) * u128::from(c)
}

// The sum where each job completes at its last stop by these extents.
fn total_by<A: Allocator>(task: &Task<A>, extents: &[Extent]) -> u128
    requires task { IsSound task.now }
    requires class { IsTrue (is_sum task.now.class) }
    requires stops { (j : ℕ) → IsJob task.now j → stop_by extents.now j ≤ limit }
    ensures { result ≡ total_of task.now (stop_by extents.now) (length task.now.jobs) }
{
    let mut sum: u128 = 0;
    for k in 0..task.len() {
        let job = JobId::at(k);
        sum += weighted(task, job, extent_at(extents, job).stop);
    }
    sum
}
