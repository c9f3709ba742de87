//! The numbers of one instance among those of a text.
ghost use Rattle.std.specs.Prelude.{◌≡◌, ◌+◌, ◌-◌, ◌*◌, ◌^◌, ◌<◌, ◌≤◌, List, [], is_some, ◌||◌};
ghost use Rattle.std.specs.Prelude.{nat_le, IfOk, vec_capacity, vec_len};
ghost use Rattle.tf_words.specs.Words.{Word};
ghost use Rattle.tf_model.specs.Limit.{most_jobs};
ghost use Rattle.tf_read.specs.Said.{Says};
ghost use Rattle.tf_words.specs.Scan.{IsInRange};
ghost use Rattle.tf_read.specs.Numbers.{skipped, tardiness_wanted, tardiness_missing, with_number};
ghost use Rattle.tf_read.specs.Numbers.{AreInRange, ReadsTardiness};
ghost use Rattle.tf_read.specs.WeightedTardiness.{tardiness_number_read, instance_of};

use crate::fault::ReadFault;
use crate::instance_numbers::{Columns, InstanceNumbers};
use crate::number::integer_of;
use crate::word_feed::Judge;
use std::alloc::{AllocError, Allocator};
use std::marker::Model;
use tf_model::job::Job;
use tf_words::number::Number;

/// The numbers of an instance so far, and the first fault among those up to its last one.
#[derive(Drop)]
pub(crate) struct Numbers<A: Allocator> {
    jobs: u64,
    index: u64,
    /// The words before the instance.
    skipped: u64,
    /// The words up to its last.
    wanted: u64,
    /// The words that were judged.
    count: u64,
    numbers: Vec<i64, A>,
    /// Room for the jobs.
    room: Vec<Job<A>, A>,
    fault: Option<ReadFault>,
}

impl<A: Allocator> Model for Numbers<A> {
    ghost use Rattle.std.specs.Prelude.{◌≡◌, ◌+◌, ◌-◌, ◌*◌, ◌%◌, ◌^◌, ◌<◌, ◌≤◌, vec_len};
    ghost use Rattle.std.specs.Prelude.{vec_capacity};
    ghost use Rattle.tf_model.specs.Limit.{most_jobs};
    ghost use Rattle.tf_read.specs.Numbers.{Progress, AreInRange};

    ghost Value = { Progress };

    ghost view = { λ f.
        record {
          jobs = f.jobs;
          index = f.index;
          count = f.count;
          numbers = f.numbers.items;
          fault = f.fault;
        } };

    ghost invariant = { λ f. record {
      some : 0 < f.jobs;
      few : f.jobs ≤ most_jobs;
      before : f.skipped ≡ 3 * f.jobs * (f.index - 1);
      up_to : f.wanted ≡ 3 * f.jobs * f.index;
      own : f.wanted ≡ f.skipped + 3 * f.jobs;
      near : f.wanted < 2 ^ 62;
      room : 3 * f.jobs ≤ vec_capacity f.numbers;
      within : f.count ≤ f.wanted;
      tally : vec_len f.numbers ≡ f.count - f.skipped;
      jobs_room : f.jobs ≤ vec_capacity f.room;
      no_job : vec_len f.room ≡ 0;
      in_range : AreInRange f.jobs f.numbers.items;
    } };
}

impl<A: Allocator> Numbers<A> {
    /// Those of the instance of this index, from 1, where each has so many jobs. It makes all room.
    pub(crate) fn new(alloc: A, jobs: u64, index: u64) -> Result<Self, AllocError>
    where
        A: Copy,
        requires some { 0 < jobs }
        requires few { jobs ≤ most_jobs }
        requires from_one { 0 < index }
        requires near { index < 2 ^ 32 }
        ensures { IfOk result (λ p. ReadsTardiness p (instance_of jobs index) []) }
    {
        let numbers = Vec::with_capacity(alloc, 3 * jobs as usize)?;
        let room = Vec::with_capacity(alloc, jobs as usize)?;
        let skipped = 3 * jobs * (index - 1);
        Ok(Numbers {
            jobs,
            index,
            skipped,
            wanted: skipped + 3 * jobs,
            count: 0,
            numbers,
            room,
            fault: None,
        })
    }

    /// Whether nothing more is wanted.
    fn is_over(&self) -> bool
        ensures { result
            ≡ (is_some self.now.fault || nat_le (tardiness_wanted self.now) self.now.count) }
    {
        self.fault.is_some() || self.count >= self.wanted
    }

    /// The number of the next word, which is not negative where a time or a weight stands.
    #[inline(always)]
    fn number(&self, line: u32, number: Number) -> Result<i64, ReadFault>
        requires wanted { self.now.count < tardiness_wanted self.now }
        requires in_range { IsInRange number }
        ensures value { result ≡ tardiness_number_read self.now.jobs self.now.count line number }
        ensures in_range { IfOk result
            (λ z. AreInRange self.now.jobs (with_number self.now z).numbers) }
    {
        let jobs = self.jobs;
        let value = integer_of(line, number)?;
        // The place counts only where a number is negative.
        if value >= 0 {
            return Ok(value);
        }
        if self.count % (3 * jobs) < 2 * jobs {
            return Err(ReadFault::Negative(line));
        }
        Ok(value)
    }

    fn keep(&mut self, value: i64)
        requires wanted { self.old.count < tardiness_wanted self.old }
        requires in_range { AreInRange self.old.jobs (with_number self.old value).numbers }
        ensures { self.new ≡ with_number self.old value }
    {
        let count = self.count;
        self.count = count + 1;
        if self.skipped <= count {
            self.numbers.push(value).unwrap();
        }
    }

    /// The fault that was met, or what is missing at the end.
    fn missing(&self) -> Option<ReadFault>
        ensures { result ≡ tardiness_missing self.now }
    {
        if self.fault.is_some() {
            return self.fault;
        }
        if self.count <= self.skipped {
            return Some(ReadFault::NoInstance);
        }
        if self.count < self.wanted {
            return Some(ReadFault::EndsEarly);
        }
        None
    }

    /// The numbers of the instance that the words of a text say. It takes no memory.
    pub(crate) fn whole(self) -> Result<InstanceNumbers<A>, ReadFault>
        ensures { (says : Says) (seen : List Word) → ReadsTardiness self says seen →
            result ≡ says seen }
    {
        match self.missing() {
            Some(fault) => Err(fault),
            None => {
                let Numbers {
                    jobs,
                    numbers,
                    room,
                    ..
                } = self;
                Ok(InstanceNumbers {
                    columns: Columns::Tardiness(numbers),
                    jobs: jobs as usize,
                    machines: None,
                    room,
                })
            }
        }
    }
}

impl<A: Allocator> Judge for Numbers<A> {
    ghost use Rattle.tf_read.specs.Numbers.{ReadsTardiness};

    ghost HasRead = { ReadsTardiness };

    #[inline(always)]
    fn judge(&mut self, line: u32, number: Number) {
        if self.is_over() {
            return;
        }
        match self.number(line, number) {
            Err(fault) => self.fault = Some(fault),
            Ok(value) => self.keep(value),
        }
    }
}
