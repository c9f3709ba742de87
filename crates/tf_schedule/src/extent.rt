//! When a job works.
ghost use Rattle.std.specs.Prelude.{◌≡◌, ◌<◌, ◌≤◌, ◌↔◌, IsTrue};
ghost use Rattle.tf_schedule.specs.Extent.{extent_at, with_piece};
ghost use Rattle.tf_schedule.specs.Schedule.{IsPiece};

use crate::piece::Piece;
use tf_model::ids::JobId;
use tf_model::limit::LIMIT;

/// What the pieces of a job on a lane come to.
#[derive(Clone, Copy)]
pub struct Extent {
    /// In time steps; `u64::MAX` where it is more.
    pub work: u64,
    /// The first start and the last stop: `LIMIT` and 0 where the job has no piece.
    pub start: u64,
    pub stop: u64,
}

impl Extent {
    ghost use Rattle.std.specs.Prelude.{◌≡◌, ◌↔◌, IsTrue};
    ghost use Rattle.tf_schedule.specs.Extent.{no_extent, extended, IsGapless};
    ghost use Rattle.tf_schedule.specs.Schedule.{IsPiece};

    /// The extent of a job without pieces.
    pub(crate) fn empty() -> Self
        ensures { result ≡ no_extent }
    {
        Extent {
            work: 0,
            start: LIMIT as u64,
            stop: 0,
        }
    }

    /// The extent with one more piece.
    fn extended(self, piece: &Piece) -> Self
        requires { IsPiece piece.now }
        ensures { result ≡ extended self piece.now }
    {
        Extent {
            work: self.work.saturating_add(piece.duration()),
            start: (piece.start as u64).min(self.start),
            stop: (piece.stop as u64).max(self.stop),
        }
    }

    /// Whether the job works without a gap.
    pub fn is_gapless(self) -> bool
        ensures { IsTrue result ↔ IsGapless self }
    {
        self.stop.saturating_sub(self.start) == self.work
    }
}

/// The extent of a job in a list for the jobs from 1 on; an empty one where the list has none.
pub(crate) fn extent_at(extents: &[Extent], job: JobId) -> Extent
    ensures { result ≡ extent_at extents.now job }
{
    let k = job.place();
    if k < extents.len() {
        extents[k]
    } else {
        Extent::empty()
    }
}

/// Adds a piece to the extent of its job, if the list has one.
pub(crate) fn add_piece(extents: &mut [Extent], piece: &Piece)
    requires { IsPiece piece.now }
    ensures added { extents.new ≡ with_piece extents.old piece.now }
    ensures from_one { 0 < piece.now.job }
{
    let k = piece.job.place();
    if k < extents.len() {
        extents[k] = extents[k].extended(piece);
    }
}
