//! Pieces of work.
ghost use Rattle.std.specs.Prelude.{◌≡◌, ◌↔◌, IsTrue, pos, ◌≤ℤ◌, ◌<◌, ◌≤◌};
ghost use Rattle.tf_model.specs.Limit.{limit};
ghost use Rattle.tf_schedule.specs.Piece.{IsInRange, covers, as_time, piece_of};
ghost use Rattle.tf_schedule.specs.Claims.{has_started};
ghost use Rattle.tf_schedule.specs.Schedule.{IsPiece};
ghost use Rattle.tf_schedule.specs.Drawing.{duration};

use tf_model::ids::{JobId, MachineId};
use tf_model::limit::LIMIT;

/// A job is on a machine from time `start` up to time `stop`, `stop` not among them.
#[derive(Clone, Copy, Debug, PartialEq, Eq)]
pub struct Piece {
    pub job: JobId,
    pub machine: MachineId,
    /// In time steps, from 0.
    pub start: i64,
    /// Above `start`, and at most `LIMIT`.
    pub stop: i64,
}

impl Piece {
    /// The job on the machine from time `start` up to time `stop`.
    pub fn of(job: JobId, machine: MachineId, start: u64, stop: u64) -> Self
        requires { (start < stop) × (stop ≤ limit) }
        ensures { result ≡ piece_of job machine start stop }
    {
        Piece {
            job,
            machine,
            start: start as i64,
            stop: stop as i64,
        }
    }

    // Whether the ends are times that are allowed.
    pub(crate) fn is_in_range(&self) -> bool
        ensures { IsTrue result ↔ IsInRange self.now }
    {
        0 <= self.start && self.stop <= LIMIT
    }

    /// For how many time steps the job is on the machine.
    pub fn duration(&self) -> u64
        requires { IsPiece self.now }
        ensures { result ≡ duration self.now }
    {
        (self.stop - self.start) as u64
    }

    // Whether the piece starts at or before this time of the machine.
    pub(crate) fn has_started(&self, machine: MachineId, t: i64) -> bool
        ensures { result ≡ has_started machine t self.now }
    {
        self.machine < machine || (self.machine == machine && self.start <= t)
    }

    // Whether the piece claims this cell.
    pub(crate) fn covers(&self, machine: MachineId, t: i64) -> bool
        requires { pos 0 ≤ℤ t }
        ensures { result ≡ covers machine (as_time t) self.now }
    {
        self.machine == machine && self.start <= t && t < self.stop
    }
}
