//! The fields of a job line.
ghost use Rattle.std.specs.Prelude.{◌≡◌};
ghost use Rattle.tf_words.specs.Words.{words};
ghost use Rattle.tf_read.specs.Faults.{Gives};
ghost use Rattle.tf_read.specs.JobLine.{times_at, field_at, later_in, fields_at, no_fields};

use crate::cost_field::cost_at;
use crate::fault::ReadFault;
use crate::number::{integer, natural};
use std::alloc::Allocator;
use std::marker::Model;
use tf_model::cost::StepCost;
use tf_model::job::{Job, Times};
use tf_words::part::divided;
use tf_words::word::{first_word, is};

/// The fields of a job line so far.
#[derive(Drop)]
pub(crate) struct Fields<A: Allocator> {
    pub(crate) times: Option<Times>,
    pub(crate) weight: Option<i64>,
    pub(crate) due: Option<i64>,
    pub(crate) release: Option<i64>,
    pub(crate) cost: Option<Box<StepCost<A>, A>>,
}

impl<A: Allocator> Model for Fields<A> {
    ghost use Rattle.std.specs.Option.{option_map};
    ghost use Rattle.tf_read.specs.JobLine.{SomeFields};

    ghost Value = { SomeFields };

    ghost view = { λ f.
        record {
          times = f.times;
          weight = f.weight;
          due = f.due;
          release = f.release;
          cost = option_map (λ cost. cost.value) f.cost;
        } };
}

#[tactic(auto, unfolding(crate::specs::JobLine::times_at))]
fn times_at(line: u32, value: &[u8]) -> Result<Times, ReadFault>
    ensures { result ≡ times_at line value.now }
{
    match divided(value, b',') {
        None => {
            let time = natural(line, value)?;
            Ok(Times::One(time))
        }
        Some((first, second)) => {
            if divided(second, b',').is_some() {
                return Err(ReadFault::BadLine(line));
            }
            let first = natural(line, first)?;
            let second = natural(line, second)?;
            Ok(Times::Two(first, second))
        }
    }
}

impl<A: Allocator> Fields<A> {
    pub(crate) fn none() -> Self
        ensures { result ≡ no_fields }
    {
        Fields {
            times: None,
            weight: None,
            due: None,
            release: None,
            cost: None,
        }
    }

    /// With the field of one word more.
    #[tactic(auto, unfolding(crate::specs::JobLine::field_at))]
    fn add(&mut self, alloc: A, line: u32, word: &[u8]) -> Result<(), ReadFault>
    where
        A: Copy,
        ensures { Gives (λ _. self.new) result (field_at line self.old word.now) }
    {
        let Some((key, value)) = divided(word, b'=') else {
            return Err(ReadFault::BadLine(line));
        };
        if is(key, b"p") && self.times.is_none() {
            self.times = Some(times_at(line, value)?);
            return Ok(());
        }
        if is(key, b"w") && self.weight.is_none() {
            self.weight = Some(natural(line, value)?);
            return Ok(());
        }
        self.add_later(alloc, line, key, value)
    }

    /// With a due date, a release date or a cost more.
    fn add_later(&mut self, alloc: A, line: u32, key: &[u8], value: &[u8]) -> Result<(), ReadFault>
    where
        A: Copy,
        ensures { Gives (λ _. self.new) result (later_in line self.old key.now value.now) }
    {
        if is(key, b"d") && self.due.is_none() {
            self.due = Some(integer(line, value)?);
            return Ok(());
        }
        if is(key, b"r") && self.release.is_none() {
            self.release = Some(natural(line, value)?);
            return Ok(());
        }
        if is(key, b"h") && self.cost.is_none() {
            // It has memory of its own, since few jobs have one.
            self.cost = Some(Box::new(alloc, cost_at(alloc, line, value)?)?);
            return Ok(());
        }
        Err(ReadFault::BadLine(line))
    }
}

/// The job that the fields of a line are.
pub(crate) fn job_of<A: Allocator + Copy>(
    alloc: A,
    line: u32,
    text: &[u8],
) -> Result<Job<A>, ReadFault>
    ensures { Gives (λ j. j) result (fields_at line no_fields (words text.now)) }
{
    let mut fields = Fields::none();
    let mut rest = text;
    while let Some((word, after)) = first_word(rest) {
        fields.add(alloc, line, word)?;
        rest = after;
    }
    match fields.times {
        None => Err(ReadFault::BadLine(line)),
        Some(times) => Ok(Job {
            times,
            weight: fields.weight,
            due: fields.due,
            release: fields.release,
            cost: fields.cost,
        }),
    }
}
