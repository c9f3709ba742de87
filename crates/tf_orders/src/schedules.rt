//! The semi-active schedules of orders.
ghost use Rattle.std.specs.Prelude.{◌≡◌, length, IfOk, IfSome, MatchOption};
ghost use Rattle.std.specs.List.{All};
ghost use Rattle.tf_orders.specs.Laying.{orders_of, schedule_of};
ghost use Rattle.tf_orders.specs.Measuring.{IsFlawBy, IsFlawOf, IsLaid, IsScheduled, IsScheduledBy};
ghost use Rattle.tf_orders.specs.Measuring.{IsUnordered, IsUnorderedBy};
ghost use Rattle.tf_orders.specs.Orders.{IsNoOrder, IsTurn};

use crate::flaw::{Flaw, flaw_in};
use crate::laying::Laying;
use crate::measure::Measure;
use crate::operations::{operation_flaw, operation_schedule_of, operations_in};
use crate::order::{Turn, order_in};
use crate::ordered::Ordered;
use std::alloc::Allocator;
use tf_bound::task::ProblemTask;
use tf_model::memory::OutOfMemory;
use tf_model::problem::Env;
use tf_schedule::piece::Piece;

/// The semi-active schedule of the order that a text says; `None` where it says none. Only want of
/// memory is an error.
pub(crate) fn scheduled<A: Allocator + Copy, B: Allocator>(
    alloc: A,
    measure: &Measure<B>,
    text: &[u8],
) -> Result<Option<Vec<Piece, A>>, OutOfMemory>
    ensures { IfOk result (λ found. MatchOption found (IsUnordered measure.now text.now)
        (λ pieces. IsScheduled measure.now text.now pieces.items)) }
{
    match measure {
        Measure::Optimum { task, .. } => laid(alloc, task, text),
        Measure::Bound { task, .. } => problem_scheduled(alloc, task, text),
    }
}

/// That of an order of jobs.
pub(crate) fn laid<A: Allocator + Copy, T: Ordered>(
    alloc: A,
    task: &T,
    text: &[u8],
) -> Result<Option<Vec<Piece, A>>, OutOfMemory>
    ensures { IfOk result (λ found. MatchOption found
        (IsNoOrder (length (T.posed task.now).jobs) (orders_of (T.posed task.now)) text.now)
        (λ pieces. IsLaid (T.posed task.now) text.now pieces.items)) }
{
    let Some(turns) = order_in(alloc, task.len() as u32, task.orders(), text)? else {
        return Ok(None);
    };
    let pieces = schedule_of(alloc, task, &turns)?;
    Ok(Some(pieces))
}

/// That of an order of jobs, or in a job shop of operations.
pub(crate) fn problem_scheduled<A: Allocator + Copy, B: Allocator>(
    alloc: A,
    task: &ProblemTask<B>,
    text: &[u8],
) -> Result<Option<Vec<Piece, A>>, OutOfMemory>
    ensures { IfOk result (λ found. MatchOption found (IsUnorderedBy task.now text.now)
        (λ pieces. IsScheduledBy task.now text.now pieces.items)) }
{
    if let Some(pieces) = laid(alloc, task, text)? {
        return Ok(Some(pieces));
    }
    let Some(turns) = operations_in(alloc, task, text)? else {
        return Ok(None);
    };
    let pieces = operation_schedule_of(alloc, task, &turns)?;
    Ok(Some(pieces))
}

/// What is wrong with a text that says no order, as far as it is found. Only want of memory is an
/// error.
pub(crate) fn flaw_of<A: Allocator + Copy, B: Allocator>(
    alloc: A,
    measure: &Measure<B>,
    text: &[u8],
) -> Result<Option<Flaw>, OutOfMemory>
    ensures { IfOk result (λ found. IfSome found (IsFlawOf measure.now text.now)) }
{
    match measure {
        Measure::Optimum { task, .. } => {
            let found = flaw_in(alloc, task.len() as u32, task.orders(), text)?;
            Ok(found)
        }
        Measure::Bound { task, .. } => problem_flaw(alloc, task, text),
    }
}

// The same of any problem.
fn problem_flaw<A: Allocator + Copy, B: Allocator>(
    alloc: A,
    task: &ProblemTask<B>,
    text: &[u8],
) -> Result<Option<Flaw>, OutOfMemory>
    ensures { IfOk result (λ found. IfSome found (IsFlawBy task.now text.now)) }
{
    if matches!(task.problem().env, Env::JobShop) {
        return operation_flaw(alloc, task, text);
    }
    let found = flaw_in(alloc, task.len() as u32, task.orders(), text)?;
    Ok(found)
}

// The schedule of turns.
fn schedule_of<A: Allocator + Copy, T: Ordered>(
    alloc: A,
    task: &T,
    turns: &[Turn],
) -> Result<Vec<Piece, A>, OutOfMemory>
    requires { All (IsTurn (length (T.posed task.now).jobs) (orders_of (T.posed task.now)))
        turns.now }
    ensures { IfOk result (λ pieces. pieces.items ≡ schedule_of (T.posed task.now) turns.now) }
{
    let mut laying = Laying::new(alloc, turns.len(), task.machines() as usize)?;
    for turn in turns {
        task.add_turn(&mut laying, *turn)?;
    }
    Ok(laying.into_pieces())
}
