//! When and where the jobs of a task work.
ghost use Rattle.std.specs.Prelude.{◌≡◌, ◌<◌, ◌≤◌, [], length, IfOk, IsTrue};
ghost use Rattle.std.specs.List.{All};
ghost use Rattle.tf_schedule.specs.Claims.{JobsOnce};
ghost use Rattle.tf_schedule.specs.Lanes.{HasLanes};
ghost use Rattle.tf_schedule.specs.Schedule.{IsPiece};

use crate::extent::{Extent, add_piece, extent_at};
use crate::machine_range::{MachineRange, add_machine, range_at};
use crate::piece::Piece;
use std::alloc::{AllocError, Allocator, Global};
use std::marker::Model;
use tf_model::ids::JobId;

/// When jobs work, and where: on which machines they are is kept only where somebody asks.
#[derive(Drop)]
pub struct Lanes<A: Allocator = Global> {
    extents: Vec<Extent, A>,
    machines: Vec<MachineRange, A>,
}

impl<A: Allocator> Model for Lanes<A> {
    ghost use Rattle.tf_schedule.specs.Lanes.{LanesData};

    ghost Value = { LanesData };

    ghost view = { λ l. record {
      extents = l.extents.items;
      machines = l.machines.items;
    } };
}

impl<A: Allocator> Lanes<A> {
    ghost use Rattle.std.specs.Prelude.{◌≡◌, ◌⊎◌, ◌<◌, ◌≤◌, IsTrue, ◌↔◌};
    ghost use Rattle.tf_schedule.specs.Amounts.{start_of};
    ghost use Rattle.tf_schedule.specs.Drawing.{stop_of};
    ghost use Rattle.tf_schedule.specs.Extent.{extent_at};
    ghost use Rattle.tf_schedule.specs.Lanes.{added, start_in, stop_in, IsOnOne};
    ghost use Rattle.tf_schedule.specs.Schedule.{IsPiece};

    /// The first start of a job, in time steps; `LIMIT` where it has no piece.
    pub fn start(&self, job: JobId) -> u64
        ensures { result ≡ start_in self.now job }
    {
        self.extent(job).start
    }

    /// The last stop of a job, in time steps; 0 where it has no piece.
    pub fn stop(&self, job: JobId) -> u64
        ensures { result ≡ stop_in self.now job }
    {
        self.extent(job).stop
    }

    /// The extents of the jobs, from job 1 on.
    pub(crate) fn extents(&self) -> &[Extent]
        ensures { result.now ≡ self.now.extents }
    {
        &self.extents
    }

    /// The extent of a job.
    pub(crate) fn extent(&self, job: JobId) -> Extent
        ensures { result ≡ extent_at self.now.extents job }
    {
        extent_at(&self.extents, job)
    }

    /// Whether a job is on one machine, where the table has its machines.
    pub(crate) fn is_on_one_machine(&self, job: JobId) -> bool
        ensures { IsTrue result ↔ IsOnOne self.now job }
    {
        range_at(&self.machines, job).is_one()
    }

    /// Adds a piece.
    pub(crate) fn add(&mut self, piece: &Piece)
        requires { IsPiece piece.now }
        ensures added { self.new ≡ added self.old piece.now }
        ensures from_one { 0 < piece.now.job }
    {
        add_machine(&mut self.machines, piece);
        add_piece(&mut self.extents, piece);
    }

    // Whether a piece lies before or after all pieces of its job.
    fn is_apart(&self, piece: &Piece) -> bool
        requires { IsPiece piece.now }
        ensures { IsTrue result ↔ ((stop_of piece.now ≤ start_in self.now piece.now.job)
            ⊎ (stop_in self.now piece.now.job ≤ start_of piece.now)) }
    {
        let extent = self.extent(piece.job);
        piece.stop as u64 <= extent.start || extent.stop <= piece.start as u64
    }
}

/// The table of no pieces.
pub(crate) fn empty_lanes<A: Allocator + Copy>(
    alloc: A,
    jobs: usize,
    keeps_machines: bool,
) -> Result<Lanes<A>, AllocError>
    ensures lanes { IfOk result (λ l. HasLanes jobs [] l) }
    ensures machines { IfOk result (λ l. IsTrue keeps_machines → length l.machines ≡ jobs) }
{
    let extents = vec![in alloc; Extent::empty(); jobs]?;
    let of_machines = if keeps_machines { jobs } else { 0 };
    let machines = vec![in alloc; MachineRange::empty(); of_machines]?;
    Ok(Lanes { extents, machines })
}

/// When each of the jobs works, and where if that is asked for, and whether each piece lies before
/// or after all earlier ones of its job: then no job runs in two places. Pieces of other jobs are
/// left out.
pub(crate) fn lanes_of<A: Allocator + Copy>(
    alloc: A,
    jobs: usize,
    keeps_machines: bool,
    pieces: &[Piece],
) -> Result<(Lanes<A>, bool), AllocError>
    requires { All IsPiece pieces.now }
    ensures lanes { IfOk result (λ found. HasLanes jobs pieces.now found.0) }
    ensures machines { IfOk result (λ found.
        IsTrue keeps_machines → length found.0.machines ≡ jobs) }
    ensures once { IfOk result (λ found.
        All (λ p. (0 < p.job) × (p.job ≤ jobs)) pieces.now → IsTrue found.1 → JobsOnce pieces.now) }
{
    let mut lanes = empty_lanes(alloc, jobs, keeps_machines)?;
    let mut are_apart = true;
    for piece in pieces {
        are_apart &= lanes.is_apart(piece);
        lanes.add(piece);
    }
    Ok((lanes, are_apart))
}
