//! The value of `h`: a cost.
ghost use Rattle.std.specs.Prelude.{◌≡◌, ◌≤◌, ◌<◌, ◌∷◌, ◌++◌, List, ℕ, true, not, length, IfOk};
ghost use Rattle.std.specs.Prelude.{IfSome};
ghost use Rattle.std.specs.List.{list_all};
ghost use Rattle.tf_read.specs.Faults.{Gives};
ghost use Rattle.tf_read.specs.UsualSteps.{BeginsWithStep, AreSteps};
ghost use Rattle.tf_words.specs.WordParts.{is_comma, parts, later_parts};
ghost use Rattle.tf_read.specs.CostField.{is_step, step_at, steps_at, rising, cost_at};

use crate::fault::ReadFault;
use crate::number::{integer, natural};
use std::alloc::{AllocError, Allocator};
use tf_model::cost::StepCost;
use tf_words::first_line::digits_first;
use tf_words::part::{divided, first_part, next_part};

/// The bytes of the shortest step, `,1:2`.
const SHORTEST_STEP: usize = 4;

fn is_step(part: &[u8]) -> bool
    ensures { result ≡ is_step part.now }
{
    match divided(part, b':') {
        None => false,
        Some((_, value)) => divided(value, b':').is_none(),
    }
}

fn are_steps(text: &[u8]) -> bool
    ensures { result ≡ list_all is_step (later_parts text.now) }
{
    let mut rest = text;
    while let Some((part, after)) = next_part(rest) {
        if !is_step(part) {
            return false;
        }
        rest = after;
    }
    true
}

#[tactic(auto, unfolding(crate::specs::CostField::step_at))]
fn step_at(line: u32, part: &[u8]) -> Result<(i64, i64), ReadFault>
    ensures { result ≡ step_at line part.now }
{
    match divided(part, b':') {
        None => Err(ReadFault::BadLine(line)),
        Some((time, value)) => {
            let time = natural(line, time)?;
            let value = integer(line, value)?;
            Ok((time, value))
        }
    }
}

fn commas(text: &[u8]) -> usize
    ensures { result ≤ length text.now }
{
    text.iter().filter(|byte| **byte == b',').count()
}

fn steps_at<A: Allocator>(alloc: A, line: u32, text: &[u8]) -> Result<Vec<(i64, i64), A>, ReadFault>
    ensures { Gives (λ v. v.items) result (steps_at line (later_parts text.now)) }
{
    let mut steps = Vec::with_capacity(alloc, commas(text))?;
    let mut rest = text;
    while let Some((part, after)) = next_part(rest) {
        let step = step_at(line, part)?;
        steps.push(step)?;
        rest = after;
    }
    Ok(steps)
}

/// Whether a part of a word that ends here is over.
fn is_over(rest: &[u8]) -> bool
    ensures { result ≡ true → (part : List ℕ) → list_all (λ b. not (is_comma b)) part ≡ true →
        parts (part ++ rest.now) ≡ part ∷ later_parts rest.now }
{
    match rest {
        [] | [b',', ..] => true,
        _ => false,
    }
}

/// The step with which a text begins, in its usual form, a comma and two numbers of digits alone;
/// and what follows it. Nothing is said of a step of another form.
fn usual_step(text: &[u8]) -> Option<((i64, i64), &[u8])>
    ensures step { IfSome result (λ x. BeginsWithStep text.now x.0 x.1.now) }
    ensures shorter { IfSome result (λ x. length x.1.now < length text.now) }
{
    let [b',', time @ ..] = text else {
        return None;
    };
    let (time, after) = digits_first(time)?;
    let [b':', value @ ..] = after else {
        return None;
    };
    let (value, rest) = digits_first(value)?;
    if is_over(rest) {
        Some(((time as i64, value as i64), rest))
    } else {
        None
    }
}

/// The steps of a text, if all have their usual form: each byte is looked at once.
fn usual_steps<A: Allocator>(
    alloc: A,
    text: &[u8],
) -> Result<Option<Vec<(i64, i64), A>>, AllocError>
    ensures { IfOk result (λ found. IfSome found (λ steps. AreSteps text.now steps.items)) }
{
    let room = commas(text).min(text.len() / SHORTEST_STEP);
    let mut steps = Vec::with_capacity(alloc, room)?;
    let mut rest = text;
    while !rest.is_empty() {
        let Some((step, after)) = usual_step(rest) else {
            return Ok(None);
        };
        steps.push(step)?;
        rest = after;
    }
    Ok(Some(steps))
}

/// The cost of a base and steps whose numbers were judged.
fn rising<A: Allocator>(
    line: u32,
    base: i64,
    steps: Vec<(i64, i64), A>,
) -> Result<StepCost<A>, ReadFault>
    ensures { result ≡ rising line (record { base = base; steps = steps.items }) }
{
    match StepCost::new(base, steps) {
        Ok(cost) => Ok(cost),
        Err(_) => Err(ReadFault::BadCost(line)),
    }
}

/// The cost that a value of `h` is.
#[tactic(auto, unfolding(crate::specs::CostField::cost_at))]
pub(crate) fn cost_at<A: Allocator + Copy>(
    alloc: A,
    line: u32,
    value: &[u8],
) -> Result<StepCost<A>, ReadFault>
    ensures { Gives (λ c. c) result (cost_at line value.now) }
{
    let (base, steps) = first_part(value);
    if let Some(steps) = usual_steps(alloc, steps)? {
        let base = integer(line, base)?;
        return rising(line, base, steps);
    }
    if !are_steps(steps) {
        return Err(ReadFault::BadLine(line));
    }
    let base = integer(line, base)?;
    let steps = steps_at(alloc, line, steps)?;
    rising(line, base, steps)
}
