//! A job as an instance gives it.
use crate::cost::StepCost;
use std::alloc::{AllocError, Allocator, Global};
use std::marker::Model;

/// The processing times of a job, in time steps from 0 to `LIMIT`.
#[derive(Clone, Copy, Debug, PartialEq, Eq)]
pub enum Times {
    /// The time on whichever machine the job runs.
    One(i64),
    /// In a shop: the times on machine 1 and on machine 2.
    Two(i64, i64),
}

/// A job: its times, and whatever else the instance says of it.
#[derive(Drop)]
pub struct Job<A: Allocator = Global> {
    pub times: Times,
    /// Its weight, from 0 to `LIMIT`.
    pub weight: Option<i64>,
    /// Its due date, in time steps, which may be negative.
    pub due: Option<i64>,
    /// Its release date, in time steps from 0: the job starts no earlier.
    pub release: Option<i64>,
    /// What its completion costs, by the time. Few jobs have it, so it is kept elsewhere.
    pub cost: Option<Box<StepCost<A>, A>>,
}

impl<A: Allocator> Model for Job<A> {
    ghost use Rattle.std.specs.Option.{option_map};
    ghost use Rattle.tf_model.specs.JobFields.{JobFields};

    ghost Value = { JobFields };

    ghost view = { λ j.
        record {
          times = j.times;
          weight = j.weight;
          due = j.due;
          release = j.release;
          cost = option_map (λ cost. cost.value) j.cost;
        } };
}

impl<A: Allocator> Job<A> {
    ghost use Rattle.std.specs.Prelude.{◌≡◌, IfOk};

    /// The same job, kept elsewhere.
    pub(crate) fn copied<B: Allocator + Copy>(&self, alloc: B) -> Result<Job<B>, AllocError>
        ensures { IfOk result (λ copy. copy ≡ self.now) }
    {
        let cost = match &self.cost {
            Some(cost) => Some(Box::new(alloc, cost.copied(alloc)?)?),
            None => None,
        };
        Ok(Job {
            times: self.times,
            weight: self.weight,
            due: self.due,
            release: self.release,
            cost,
        })
    }
}
