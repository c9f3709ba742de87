//! Lines of hand-ins: a label, if there is one, and an order, whose jobs commas may divide.
ghost use Rattle.std.specs.Prelude.{◌≡◌, ◌++◌, ℕ, List, IfOk, OnOk};
ghost use Rattle.std.specs.List.{position};
ghost use Rattle.tf_orders.specs.OrderText.{IsGraded, IsGradedOrder, is_colon, spaced};

use crate::measure::Measure;
use crate::rating::push_rated;
use crate::schedules::{flaw_of, scheduled};
use crate::writing::push_flaw;
use std::alloc::Allocator;
use tf_model::memory::OutOfMemory;

/// Adds the line of a hand-in: its label, and what its order comes to or what is wrong with it.
pub(crate) fn push_graded<A: Allocator + Copy, B: Allocator>(
    out: &mut Vec<u8, A>,
    measure: &Measure<B>,
    alloc: A,
    text: &[u8],
) -> Result<(), OutOfMemory>
    ensures { OnOk result ((row : List ℕ) × IsGraded measure.now text.now row
        × (out.new.items ≡ out.old.items ++ row)) }
{
    let Some(place) = colon_in(text) else {
        push_order(out, measure, alloc, text)?;
        return Ok(());
    };
    out.extend_from_slice(&text[..place + 1])?;
    out.push(b' ')?;
    push_order(out, measure, alloc, &text[place + 1..])?;
    Ok(())
}

// Where the first colon stands.
fn colon_in(text: &[u8]) -> Option<usize>
    ensures { result ≡ position is_colon text.now }
{
    text.iter().position(|byte| *byte == b':')
}

// Adds what an order comes to, or what is wrong with it.
fn push_order<A: Allocator + Copy, B: Allocator>(
    out: &mut Vec<u8, A>,
    measure: &Measure<B>,
    alloc: A,
    text: &[u8],
) -> Result<(), OutOfMemory>
    ensures { OnOk result ((row : List ℕ) × IsGradedOrder measure.now (spaced text.now) row
        × (out.new.items ≡ out.old.items ++ row)) }
{
    let order = spaced(alloc, text)?;
    if let Some(pieces) = scheduled(alloc, measure, &order)? {
        push_rated(out, measure, alloc, pieces)?;
        return Ok(());
    }
    let flaw = flaw_of(alloc, measure, &order)?;
    push_flaw(out, flaw)?;
    Ok(())
}

// The text with a blank in place of each comma.
fn spaced<A: Allocator>(alloc: A, text: &[u8]) -> Result<Vec<u8, A>, OutOfMemory>
    ensures { IfOk result (λ order. order.items ≡ spaced text.now) }
{
    let order: Vec<u8, A> = text
        .iter()
        .map(|byte| if *byte == b',' { b' ' } else { *byte })
        .collect(alloc)?;
    Ok(order)
}
