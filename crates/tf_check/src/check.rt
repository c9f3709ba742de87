//! The check of an answer.
ghost use Rattle.std.specs.Prelude.{◌≡◌, IfOk};
ghost use Rattle.tf_check.specs.Accepted.{IsAccepted, IsBestAnswer};
ghost use Rattle.tf_check.specs.Certificate.{claim_of};
ghost use Rattle.tf_check.specs.Claim.{answer_of};
ghost use Rattle.tf_check.specs.Verdict.{HasVerdict};

use crate::answer::Answer;
use crate::certificate::Certificate;
use crate::judgement::{Judgement, judge_answer, verdict};
use crate::verdict::Verdict;
use std::alloc::Allocator;
use tf_model::memory::OutOfMemory;
use tf_model::task::Task;
use tf_schedule::piece::Piece;

/// Judges an answer to a task, whoever made it: accepted, or the first reason against it.
/// It takes memory for a copy of the pieces, and for what [`check_owned`] takes.
pub fn check<A: Allocator + Copy, B: Allocator, C: Allocator>(
    alloc: A,
    task: &Task<B>,
    answer: &Answer<C>,
) -> Result<Verdict, OutOfMemory>
    ensures verdict { IfOk result (HasVerdict task.now answer.now) }
    ensures accepted { IsAccepted task.now answer.now →
        IfOk result (λ verdict. verdict ≡ Verdict.Accepted) }
    ensures best { IfOk result
        (λ verdict. verdict ≡ Verdict.Accepted → IsBestAnswer task.now answer.now) }
{
    let pieces = answer.pieces.as_slice().to_vec(alloc)?;
    verdict_on(alloc, task, pieces, answer.value, &answer.certificate)
}

/// Judges an answer that is given up, as [`check`] judges one that is lent. The pieces are sorted
/// where they stand: it takes memory for what `fits` and the certificate's bound take.
pub fn check_owned<A: Allocator + Copy, B: Allocator, C: Allocator>(
    alloc: A,
    task: &Task<B>,
    answer: Answer<C>,
) -> Result<Verdict, OutOfMemory>
    ensures verdict { IfOk result (HasVerdict task.now answer) }
    ensures accepted { IsAccepted task.now answer →
        IfOk result (λ verdict. verdict ≡ Verdict.Accepted) }
    ensures best { IfOk result
        (λ verdict. verdict ≡ Verdict.Accepted → IsBestAnswer task.now answer) }
{
    let Answer {
        pieces,
        value,
        certificate,
    } = answer;
    verdict_on(alloc, task, pieces.into_vec(), value, &certificate)
}

// The verdict on the answer of these parts.
fn verdict_on<A: Allocator + Copy, B: Allocator, C: Allocator, D: Allocator>(
    alloc: A,
    task: &Task<B>,
    pieces: Vec<Piece, C>,
    value: i64,
    certificate: &Certificate<D>,
) -> Result<Verdict, OutOfMemory>
    ensures verdict { IfOk result
        (HasVerdict task.now (answer_of pieces.items value (claim_of certificate.now))) }
    ensures accepted { IsAccepted task.now
        (answer_of pieces.items value (claim_of certificate.now)) →
        IfOk result (λ verdict. verdict ≡ Verdict.Accepted) }
    ensures best { IfOk result (λ verdict. verdict ≡ Verdict.Accepted → IsBestAnswer task.now
        (answer_of pieces.items value (claim_of certificate.now))) }
{
    // Each reader of a task says that it is sound, as the bounds ask.
    let _class = task.class();
    let Judgement { fit, bound, .. } = judge_answer(alloc, task, pieces, certificate)?;
    Ok(verdict(fit, bound, value))
}
