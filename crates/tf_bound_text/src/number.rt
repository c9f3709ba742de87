//! The numbers of the lines of a bound, each with its range.
ghost use Rattle.std.specs.Prelude.{◌≤◌, IfOk};
ghost use Rattle.tf_model.specs.Limit.{limit, most_jobs};
ghost use Rattle.tf_words.specs.Words.{words};
ghost use Rattle.tf_bound_text.specs.BoundReading.{Gives, natural, value_in, only, first_number};
ghost use Rattle.tf_bound_text.specs.BoundReading.{first_value, naturals, values};

use crate::fault::BoundTextFault;
use std::alloc::Allocator;
use tf_model::ids::JobId;
use tf_model::limit::{LIMIT, MOST_JOBS};
use tf_words::ranged::{Ranged, number_in};
use tf_words::word::first_word;

/// Reads a whole number from `least` to `most`.
#[tactic(auto, unfolding(crate::specs::BoundReading::natural))]
pub(crate) fn natural(line: u32, least: u32, most: u64, word: &[u8]) -> Result<u64, BoundTextFault>
    requires { most ≤ limit }
    ensures read { Gives (λ n. n) result (natural line least most word.now) }
    ensures within { IfOk result (λ n. (least ≤ n) × (n ≤ most)) }
{
    match number_in(word, i64::from(least), most as i64) {
        Ranged::NotANumber => Err(BoundTextFault::BadLine(line)),
        Ranged::Below | Ranged::Above => Err(BoundTextFault::OutOfRange(line)),
        Ranged::Within(number) => Ok(number as u64),
    }
}

/// Reads a value, any whole number of 64 bits.
pub(crate) fn value_in(line: u32, word: &[u8]) -> Result<i64, BoundTextFault>
    ensures { Gives (λ z. z) result (value_in line word.now) }
{
    match number_in(word, i64::MIN, i64::MAX) {
        Ranged::NotANumber => Err(BoundTextFault::BadLine(line)),
        Ranged::Below | Ranged::Above => Err(BoundTextFault::OutOfRange(line)),
        Ranged::Within(value) => Ok(value),
    }
}

/// Returns the one word of the text.
pub(crate) fn only(line: u32, text: &[u8]) -> Result<&[u8], BoundTextFault>
    ensures { Gives (λ w. w.now) result (only line (words text.now)) }
{
    match first_word(text) {
        None => Err(BoundTextFault::BadLine(line)),
        Some((word, after)) => match first_word(after) {
            None => Ok(word),
            Some(_) => Err(BoundTextFault::BadLine(line)),
        },
    }
}

/// Reads the first word as a number, and returns the text after it.
pub(crate) fn first_number<'a>(
    line: u32,
    least: u32,
    most: u64,
    text: &'a [u8],
) -> Result<(u64, &'a [u8]), BoundTextFault>
    requires { most ≤ limit }
    ensures read { Gives (λ x. (x.0, words x.1.now)) result
        (first_number line least most (words text.now)) }
    ensures within { IfOk result (λ x. (least ≤ x.0) × (x.0 ≤ most)) }
{
    match first_word(text) {
        None => Err(BoundTextFault::BadLine(line)),
        Some((word, after)) => {
            let number = natural(line, least, most, word)?;
            Ok((number, after))
        }
    }
}

/// Reads the first word as a value, and returns the text after it.
pub(crate) fn first_value(line: u32, text: &[u8]) -> Result<(i64, &[u8]), BoundTextFault>
    ensures { Gives (λ x. (x.0, words x.1.now)) result (first_value line (words text.now)) }
{
    match first_word(text) {
        None => Err(BoundTextFault::BadLine(line)),
        Some((word, after)) => {
            let value = value_in(line, word)?;
            Ok((value, after))
        }
    }
}

/// Reads all words as jobs.
pub(crate) fn jobs_from<A: Allocator>(
    alloc: A,
    line: u32,
    text: &[u8],
) -> Result<Vec<JobId, A>, BoundTextFault>
    ensures { Gives (λ jobs. jobs.items) result (naturals line 1 most_jobs (words text.now)) }
{
    let mut jobs = Vec::new(alloc);
    let mut rest = text;
    while let Some((word, after)) = first_word(rest) {
        let number = natural(line, 1, MOST_JOBS as u64, word)?;
        jobs.push(JobId::new(number as u32).unwrap())?;
        rest = after;
    }
    Ok(jobs)
}

/// Reads all words as numbers.
pub(crate) fn numbers_from<A: Allocator>(
    alloc: A,
    line: u32,
    text: &[u8],
) -> Result<Vec<u64, A>, BoundTextFault>
    ensures { Gives (λ numbers. numbers.items) result (naturals line 0 limit (words text.now)) }
{
    let mut numbers = Vec::new(alloc);
    let mut rest = text;
    while let Some((word, after)) = first_word(rest) {
        let number = natural(line, 0, LIMIT as u64, word)?;
        numbers.push(number)?;
        rest = after;
    }
    Ok(numbers)
}

/// Reads all words as values.
pub(crate) fn values_from<A: Allocator>(
    alloc: A,
    line: u32,
    text: &[u8],
) -> Result<Vec<i64, A>, BoundTextFault>
    ensures { Gives (λ values. values.items) result (values line (words text.now)) }
{
    let mut values = Vec::new(alloc);
    let mut rest = text;
    while let Some((word, after)) = first_word(rest) {
        let value = value_in(line, word)?;
        values.push(value)?;
        rest = after;
    }
    Ok(values)
}
