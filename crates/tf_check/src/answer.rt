//! Answers.
use crate::certificate::Certificate;
use std::alloc::{Allocator, Global};
use std::marker::Model;
use tf_schedule::piece_list::PieceList;

/// An answer to a task: the pieces of a timetable, what it costs, and the certificate that none
/// costs less.
#[derive(Drop)]
pub struct Answer<A: Allocator = Global> {
    pub pieces: PieceList<A>,
    /// What the timetable costs: time steps, or weighted time steps for a sum.
    pub value: i64,
    pub certificate: Certificate<A>,
}

impl<A: Allocator> Model for Answer<A> {
    ghost use Rattle.tf_check.specs.Certificate.{claim_of};
    ghost use Rattle.tf_check.specs.Claim.{AnswerData};

    ghost Value = { AnswerData };

    ghost view = { λ a.
        record { pieces = a.pieces; value = a.value; certificate = claim_of a.certificate } };
}
