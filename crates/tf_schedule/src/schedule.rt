//! Schedules: pieces that claim no cell twice.
ghost use Rattle.std.specs.Prelude.{◌≡◌, pos, ◌≤ℤ◌, ◌<ℤ◌, unwrap_or, ◌<◌, IfSome, IfOk, IfErr};
ghost use Rattle.std.specs.Prelude.{IsOk, MatchResult};
ghost use Rattle.std.specs.List.{All, AllPairs};
ghost use Rattle.std.specs.List.Sorted.{IsPermutation};
ghost use Rattle.tf_schedule.specs.Piece.{as_time};
ghost use Rattle.tf_schedule.specs.Drawing.{greatest_stop, job_at};
ghost use Rattle.tf_schedule.specs.Schedule.{ComesBefore, HasFirstFault, IsSchedule, IsPiece};
ghost use Rattle.tf_schedule.specs.Schedule.{NoneTwice};

use crate::line::Line;
use crate::piece::Piece;
use std::alloc::{Allocator, Global};
use std::marker::Model;
use tf_model::ids::{JobId, MachineId};
use thiserror::Error;

/// Why pieces make no schedule. Pieces are counted from 1.
#[derive(Clone, Copy, Debug, Drop, PartialEq, Eq, Error)]
pub enum PieceFault {
    /// The piece starts before time 0 or stops after [`tf_model::limit::LIMIT`].
    #[error("piece {0} is out of range")]
    OutOfRange(usize),
    /// The piece does not stop after it starts.
    #[error("piece {0} is empty")]
    EmptyPiece(usize),
    /// Two pieces claim the machine at this time: the smallest such machine, and its first such
    /// time.
    #[error("machine {} is claimed twice at time {}", .0.get(), .1)]
    MachineTwice(MachineId, i64),
}

/// Pieces of which no two claim one machine at one time, by machine and start.
#[derive(Drop)]
pub struct Schedule<A: Allocator = Global> {
    pieces: Vec<Piece, A>,
}

impl<A: Allocator> Model for Schedule<A> {
    ghost use Rattle.std.specs.Prelude.{List};
    ghost use Rattle.tf_schedule.specs.declared.piece.Piece.{Piece};
    ghost use Rattle.tf_schedule.specs.Schedule.{IsSchedule};

    ghost Value = { List Piece };

    ghost view = { λ s. s.pieces.items };

    ghost invariant = { λ s. IsSchedule s.pieces.items };
}

impl<A: Allocator> Schedule<A> {
    /// The schedule of these pieces, or the first fault of them in the order of [`PieceFault`]:
    /// each piece is judged by itself in its place, and after all of them the machines. It takes no
    /// memory.
    pub fn new(mut pieces: Vec<Piece, A>) -> Result<Self, PieceFault>
        ensures kept { IfOk result (λ s. IsPermutation pieces.items s) }
        ensures schedule { IfOk result IsSchedule }
        ensures accepted { All IsPiece pieces.items → NoneTwice pieces.items → IsOk result }
        ensures fault { IfErr result (HasFirstFault pieces.items) }
    {
        judge_each(&pieces)?;
        sort_by_machine(&mut pieces);
        match Line::Machine.first_overlap(&pieces) {
            Some(piece) => Err(PieceFault::MachineTwice(piece.machine, piece.start)),
            None => Ok(Schedule { pieces }),
        }
    }

    /// The pieces by machine, then by start.
    pub fn pieces(&self) -> &[Piece]
        ensures all { result.now ≡ self.now }
        ensures schedule { IsSchedule self.now }
    {
        &self.pieces
    }

    /// The number of time steps up to the greatest stop, 0 without pieces. It takes no memory.
    pub fn length(&self) -> i64
        ensures { result ≡ pos (greatest_stop self.now) }
    {
        end_of(&self.pieces)
    }

    /// The job that is on the machine in the time step from `t` on, if one is. It takes no memory.
    pub fn cell(&self, machine: MachineId, t: i64) -> Option<JobId>
        ensures before { t <ℤ pos 0 → result ≡ None }
        ensures cell { pos 0 ≤ℤ t → unwrap_or result 0 ≡ job_at self.now machine (as_time t) }
        ensures numbered { IfSome result (λ j. 0 < j) }
    {
        if t < 0 {
            return None;
        }
        job_on(&self.pieces, machine, t)
    }
}

/// Sorts pieces by machine, and by start on each.
pub fn sort_by_machine<A: Allocator>(pieces: &mut Vec<Piece, A>)
    ensures kept { IsPermutation pieces.old.items pieces.new.items }
    ensures in_order { AllPairs ComesBefore pieces.new.items }
{
    Line::Machine.sort(pieces);
}

fn end_of(pieces: &[Piece]) -> i64
    requires { All IsPiece pieces.now }
    ensures { result ≡ pos (greatest_stop pieces.now) }
{
    let mut end: i64 = 0;
    for piece in pieces {
        if end < piece.stop {
            end = piece.stop;
        }
    }
    end
}

// Only the last piece that has started by then can be going.
fn job_on(pieces: &[Piece], machine: MachineId, t: i64) -> Option<JobId>
    requires schedule { IsSchedule pieces.now }
    requires time { pos 0 ≤ℤ t }
    ensures { unwrap_or result 0 ≡ job_at pieces.now machine (as_time t) }
{
    let started = pieces.partition_point(|piece| piece.has_started(machine, t));
    if started == 0 {
        return None;
    }
    let piece = pieces[started - 1];
    if piece.covers(machine, t) {
        Some(piece.job)
    } else {
        None
    }
}

// The first piece that is out of range or empty, if there is one.
fn judge_each(pieces: &[Piece]) -> Result<(), PieceFault>
    ensures { MatchResult result (λ _. All IsPiece pieces.now) (HasFirstFault pieces.now) }
{
    for (k, piece) in pieces.iter().enumerate() {
        if !piece.is_in_range() {
            return Err(PieceFault::OutOfRange(k + 1));
        }
        if piece.stop <= piece.start {
            return Err(PieceFault::EmptyPiece(k + 1));
        }
    }
    Ok(())
}
