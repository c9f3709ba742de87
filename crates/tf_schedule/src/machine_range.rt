//! Which machines a job is on.
ghost use Rattle.std.specs.Prelude.{◌≡◌, ◌<◌};
ghost use Rattle.tf_schedule.specs.MachineRange.{range_at, with_machine};

use crate::piece::Piece;
use tf_model::ids::JobId;

/// The lowest machine that the pieces of a job are on, and the highest: `u32::MAX` and 0 where it
/// has none.
#[derive(Clone, Copy)]
pub struct MachineRange {
    pub lowest: u32,
    pub highest: u32,
}

impl MachineRange {
    ghost use Rattle.std.specs.Prelude.{◌≡◌, ◌↔◌, IsTrue};
    ghost use Rattle.tf_schedule.specs.MachineRange.{no_range, widened, IsOne};

    /// The range of a job without pieces.
    pub(crate) fn empty() -> Self
        ensures { result ≡ no_range }
    {
        MachineRange {
            lowest: u32::MAX,
            highest: 0,
        }
    }

    // The range with the machine of one more piece.
    fn widened(self, piece: &Piece) -> Self
        ensures { result ≡ widened self piece.now }
    {
        let machine = piece.machine.get();
        MachineRange {
            lowest: machine.min(self.lowest),
            highest: machine.max(self.highest),
        }
    }

    /// Whether it has one machine, or none.
    pub(crate) fn is_one(self) -> bool
        ensures { IsTrue result ↔ IsOne self }
    {
        self.highest <= self.lowest
    }
}

/// The range of a job in a list for the jobs from 1 on; an empty one where the list has none.
pub(crate) fn range_at(ranges: &[MachineRange], job: JobId) -> MachineRange
    ensures { result ≡ range_at ranges.now job }
{
    let k = job.place();
    if k < ranges.len() {
        ranges[k]
    } else {
        MachineRange::empty()
    }
}

/// Adds the machine of a piece to the range of its job, if the list has one.
pub(crate) fn add_machine(ranges: &mut [MachineRange], piece: &Piece)
    ensures added { ranges.new ≡ with_machine ranges.old piece.now }
    ensures from_one { 0 < piece.now.job }
{
    let k = piece.job.place();
    if k < ranges.len() {
        ranges[k] = ranges[k].widened(piece);
    }
}
