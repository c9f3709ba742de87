//! The lines on which pieces lie, which are machines or jobs.
ghost use Rattle.std.specs.Prelude.{◌≡◌, ◌↔◌, IsTrue, MatchOption};
ghost use Rattle.std.specs.List.{All, AllPairs};
ghost use Rattle.std.specs.List.Sorted.{IsPermutation};
ghost use Rattle.tf_schedule.specs.Claims.{OverlapBy};
ghost use Rattle.tf_schedule.specs.Line.{line_of, StartsFirstClashBy};
ghost use Rattle.tf_schedule.specs.Schedule.{ComesBeforeBy, IsPiece, NoneTwiceBy};

use crate::piece::Piece;
use std::alloc::Allocator;

/// What a line is: a machine, or a job.
#[derive(Clone, Copy)]
pub(crate) enum Line {
    Machine,
    Job,
}

impl Line {
    // The number of the line on which the piece lies.
    fn of(self, piece: &Piece) -> u32
        ensures { result ≡ line_of self piece.now }
    {
        match self {
            Line::Machine => piece.machine.get(),
            Line::Job => piece.job.get(),
        }
    }

    // Whether the second piece starts before the first one ends, on the same line.
    fn overlap(self, before: &Piece, piece: &Piece) -> bool
        ensures { IsTrue result ↔ OverlapBy (line_of self) before.now piece.now }
    {
        self.of(before) == self.of(piece) && piece.start < before.stop
    }

    /// Sorts pieces by line, and by start on each.
    pub(crate) fn sort<A: Allocator>(self, pieces: &mut Vec<Piece, A>)
        ensures kept { IsPermutation pieces.old.items pieces.new.items }
        ensures in_order { AllPairs (ComesBeforeBy (line_of self)) pieces.new.items }
    {
        pieces.sort_unstable_by_key(|piece| (self.of(piece), piece.start));
    }

    /// Of pieces by line and start, one at whose start two lie on its line: the smallest such line,
    /// and its first such time.
    pub(crate) fn first_overlap(self, pieces: &[Piece]) -> Option<Piece>
        requires sound { All IsPiece pieces.now }
        requires in_order { AllPairs (ComesBeforeBy (line_of self)) pieces.now }
        ensures { MatchOption result
            (NoneTwiceBy (line_of self) pieces.now)
            (StartsFirstClashBy (line_of self) pieces.now) }
    {
        for k in 1..pieces.len() {
            let piece = pieces[k];
            if self.overlap(&pieces[k - 1], &piece) {
                return Some(piece);
            }
        }
        None
    }
}
