//! An order in which the jobs pass all machines.
ghost use Rattle.std.specs.Prelude.{◌≡◌, ◌^◌, ◌<◌, ◌≤◌, ◌↔◌, length, IfOk, IsTrue, IsFalse};
ghost use Rattle.std.specs.Prelude.{MatchOption};
ghost use Rattle.std.specs.List.{All, AllPairs, range_with_len};
ghost use Rattle.std.specs.List.Sorted.{IsPermutation};
ghost use Rattle.tf_posed.specs.ProblemData.{problem_jobs};
ghost use Rattle.tf_posed.specs.FitsProblem.{GoesFirst, IsInOneOrder};
ghost use Rattle.tf_schedule.specs.Drawing.{drawing};
ghost use Rattle.tf_schedule.specs.Schedule.{IsSchedule};
ghost use Rattle.tf_schedule.specs.Passing.{IsPassed, ArePlaced, IsEndless, IsRaised, IsWalked};
ghost use Rattle.tf_schedule.specs.Passing.{AreRanks, IsRankOf, rank_in};
ghost use Rattle.tf_schedule.specs.ProblemMisfit.{IsKnownTo};

use crate::asks::Asks;
use crate::piece::Piece;
use std::alloc::{AllocError, Allocator};
use tf_model::ids::JobId;

/// What a walk over the pieces, or a step of it, did to the ranks of the jobs.
#[derive(Clone, Copy)]
pub(crate) enum Walk {
    /// No rank was raised: each is above those before it.
    Settled,
    /// A rank was raised.
    Raised,
    /// A job would come after all jobs.
    Endless,
}

// Whether two pieces are on one machine and of different jobs.
fn is_passed(before: &Piece, after: &Piece) -> bool
    ensures { IsTrue result ↔ IsPassed before.now after.now }
{
    before.machine == after.machine && before.job != after.job
}

// The rank of a job in a list for the jobs from 1 on, 0 where the list has none.
fn rank_of(ranks: &[usize], job: JobId) -> usize
    ensures { result ≡ rank_in ranks.now job }
{
    let k = job.place();
    if k < ranks.len() { ranks[k] } else { 0 }
}

// Raises a job above the one before it.
fn raise_above(ranks: &mut [usize], before: JobId, after: JobId) -> Walk
    requires known { IsRankOf ranks.old before × IsRankOf ranks.old after }
    requires small { AreRanks ranks.old }
    ensures { IsRaised ranks.old before after ranks.new result }
{
    let least = ranks[before.place()] + 1;
    if least <= ranks[after.place()] {
        return Walk::Settled;
    }
    if least == ranks.len() {
        return Walk::Endless;
    }
    ranks[after.place()] = least;
    Walk::Raised
}

// Raises each job above the one before it on each machine, as far as one walk does.
fn raise(ranks: &mut [usize], pieces: &[Piece]) -> Walk
    requires known { All (λ p. IsRankOf ranks.old p.job) pieces.now }
    requires small { AreRanks ranks.old }
    ensures { IsWalked pieces.now ranks.old ranks.new result }
{
    let mut walk = Walk::Settled;
    for k in 1..pieces.len() {
        let before = pieces[k - 1];
        let after = pieces[k];
        if is_passed(&before, &after) {
            match raise_above(ranks, before.job, after.job) {
                Walk::Settled => {}
                Walk::Raised => walk = Walk::Raised,
                Walk::Endless => return Walk::Endless,
            }
        }
    }
    walk
}

// Raises the jobs until each is above the one before it on each machine: whether that ends.
fn settle(ranks: &mut [usize], pieces: &[Piece]) -> bool
    requires known { All (λ p. IsRankOf ranks.old p.job) pieces.now }
    requires small { AreRanks ranks.old }
    ensures len { length ranks.new ≡ length ranks.old }
    ensures settled { IsTrue result → ArePlaced (rank_in ranks.new) pieces.now }
    ensures endless { IsFalse result → IsEndless ranks.old pieces.now }
{
    loop {
        match raise(ranks, pieces) {
            Walk::Settled => return true,
            Walk::Raised => {}
            Walk::Endless => return false,
        }
    }
}

/// An order of all jobs in which they pass each machine, if there is one.
///
/// A job's rank is the greatest number of jobs that follow one another before it. It is raised in
/// walks over the pieces until each job is above those before it on each machine: two walks where
/// one machine has all jobs.
pub(crate) fn one_order<A: Allocator + Copy, T: Asks>(
    alloc: A,
    task: &T,
    pieces: &[Piece],
) -> Result<Option<Vec<JobId, A>>, AllocError>
    requires schedule { IsSchedule pieces.now }
    requires known { All (IsKnownTo (T.posed task.now)) pieces.now }
    ensures { IfOk result (λ found. MatchOption found
        (¬ (IsInOneOrder (T.posed task.now) (drawing (T.posed task.now).machines pieces.now)))
        (λ order. IsPermutation (problem_jobs (T.posed task.now)) order.items
        × AllPairs (GoesFirst (drawing (T.posed task.now).machines pieces.now)) order.items)) }
{
    let mut ranks = vec![in alloc; 0usize; task.len()]?;
    if !settle(&mut ranks, pieces) {
        return Ok(None);
    }
    let order = by_rank(alloc, &ranks)?;
    Ok(Some(order))
}

// The jobs by their ranks.
fn by_rank<A: Allocator>(alloc: A, ranks: &[usize]) -> Result<Vec<JobId, A>, AllocError>
    requires { length ranks.now < 2 ^ 32 }
    ensures kept { IfOk result (λ order.
        IsPermutation (range_with_len 1 (length ranks.now)) order.items) }
    ensures in_order { IfOk result (λ order.
        AllPairs (λ i j. rank_in ranks.now i ≤ rank_in ranks.now j) order.items) }
{
    let mut order = numbered(alloc, ranks.len())?;
    order.sort_unstable_by_key(|job| rank_of(ranks, *job));
    Ok(order)
}

// The jobs 1 to `count`.
fn numbered<A: Allocator>(alloc: A, count: usize) -> Result<Vec<JobId, A>, AllocError>
    requires { count < 2 ^ 32 }
    ensures { IfOk result (λ order. order.items ≡ range_with_len 1 count) }
{
    let mut order = Vec::with_capacity(alloc, count)?;
    for k in 0..count {
        order.push(JobId::at(k))?;
    }
    Ok(order)
}
