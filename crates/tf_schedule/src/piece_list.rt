//! Lists of pieces.
ghost use Rattle.std.specs.Prelude.{◌≡◌};

use crate::piece::Piece;
use std::alloc::{Allocator, Global};
use std::marker::Model;

/// A list of pieces, in any order.
#[derive(Drop)]
pub struct PieceList<A: Allocator = Global> {
    pieces: Vec<Piece, A>,
}

impl<A: Allocator> Model for PieceList<A> {
    ghost use Rattle.std.specs.Prelude.{List};
    ghost use Rattle.tf_schedule.specs.declared.piece.Piece.{Piece};

    ghost Value = { List Piece };

    ghost view = { λ l. l.pieces.items };
}

impl<A: Allocator> PieceList<A> {
    /// The list of these pieces. It takes no memory.
    pub fn new(pieces: Vec<Piece, A>) -> Self
        ensures { result ≡ pieces.items }
    {
        PieceList { pieces }
    }

    /// The pieces in their order.
    pub fn as_slice(&self) -> &[Piece]
        ensures { result.now ≡ self.now }
    {
        self.pieces.as_slice()
    }

    /// The pieces in their order, given up. It takes no memory.
    pub fn into_vec(self) -> Vec<Piece, A>
        ensures { result.items ≡ self }
    {
        let PieceList { pieces } = self;
        pieces
    }
}
