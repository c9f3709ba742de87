//! Families of small tasks: all that can be made of a few values for each field.
use crate::small_task::{Cost, Kind, Machines, SmallJob, SmallTask};
use std::alloc::{AllocError, Global};
use tf_model::ids::JobId;

/// Which arcs there may be.
#[derive(Clone, Copy, PartialEq, Eq)]
pub enum Arcs {
    /// None.
    Absent,
    /// Between two jobs.
    Between,
    /// Between two jobs, and from a job to itself.
    All,
}

/// The tasks of a number of jobs in which each field has one of some values.
#[derive(Clone, Copy)]
pub struct Family {
    pub kind: Kind,
    pub jobs: u32,
    pub first: &'static [usize],
    pub second: &'static [usize],
    pub weight: &'static [i64],
    pub due: &'static [i64],
    pub release: &'static [usize],
    pub cost: &'static [Cost],
    pub arcs: Arcs,
    /// The time of all jobs of a task is at most this.
    pub most_work: usize,
}

// A number that is taken apart choice by choice.
#[derive(Drop)]
struct Choices {
    rest: u64,
}

impl Choices {
    // One of the values; the first ones change fastest from one number to the next.
    fn pick<T: Copy>(&mut self, values: &[T], otherwise: T) -> T {
        let count = (values.len() as u64).max(1);
        let place = self.rest % count;
        self.rest /= count;
        values.get(place as usize).copied().unwrap_or(otherwise)
    }
}

impl Family {
    /// Jobs of one or two time steps on one machine.
    pub const PLAIN: Family = Family {
        kind: Kind::PLAIN,
        jobs: 1,
        first: &[1, 2],
        second: &[0],
        weight: &[1],
        due: &[0],
        release: &[0],
        cost: &[Cost::Flat],
        arcs: Arcs::Absent,
        most_work: 6,
    };

    /// The same on so many machines in parallel.
    pub fn on(self, machines: u32) -> Family {
        Family {
            kind: Kind {
                machines: Machines::Parallel(machines),
                ..self.kind
            },
            ..self
        }
    }

    /// The same with these arcs.
    pub fn with_arcs(self, arcs: Arcs) -> Family {
        Family { arcs, ..self }
    }

    /// The same with this number of jobs.
    pub fn of(self, jobs: u32) -> Family {
        Family { jobs, ..self }
    }

    /// The same with at most so much work.
    pub fn within(self, most_work: usize) -> Family {
        Family { most_work, ..self }
    }

    /// The same where jobs may be preempted.
    pub fn with_breaks(self) -> Family {
        Family {
            kind: Kind {
                may_break: true,
                ..self.kind
            },
            ..self
        }
    }

    fn job(&self, id: JobId, choices: &mut Choices) -> SmallJob {
        SmallJob {
            id,
            first: choices.pick(self.first, 0),
            second: choices.pick(self.second, 0),
            weight: choices.pick(self.weight, 1),
            due: choices.pick(self.due, 0),
            release: choices.pick(self.release, 0),
            cost: choices.pick(self.cost, Cost::Flat),
        }
    }

    fn may_have(&self, before: JobId, after: JobId) -> bool {
        match self.arcs {
            Arcs::Absent => false,
            Arcs::Between => before != after,
            Arcs::All => true,
        }
    }

    fn jobs(&self, alloc: Global, choices: &mut Choices) -> Result<Vec<SmallJob>, AllocError> {
        let mut jobs = Vec::new(alloc);
        for number in 1..=self.jobs {
            if let Some(id) = JobId::new(number) {
                jobs.push(self.job(id, choices))?;
            }
        }
        Ok(jobs)
    }

    fn arcs(
        &self,
        alloc: Global,
        jobs: &[SmallJob],
        choices: &mut Choices,
    ) -> Result<Vec<(JobId, JobId)>, AllocError> {
        let mut arcs = Vec::new(alloc);
        for before in jobs {
            for after in jobs {
                if self.may_have(before.id, after.id) && choices.pick(&[false, true], false) {
                    arcs.push((before.id, after.id))?;
                }
            }
        }
        Ok(arcs)
    }

    /// The task of a number, or none where its jobs take too long. The numbers of all tasks are
    /// below the answer of [`Family::count`].
    pub fn task(&self, alloc: Global, number: u64) -> Result<Option<SmallTask>, AllocError> {
        let mut choices = Choices { rest: number };
        let jobs = self.jobs(alloc, &mut choices)?;
        let arcs = self.arcs(alloc, &jobs, &mut choices)?;
        let task = SmallTask {
            kind: self.kind,
            jobs,
            arcs,
        };
        Ok((task.work() <= self.most_work).then_some(task))
    }

    /// How many numbers there are.
    pub fn count(&self) -> u64 {
        let choices = [
            self.first.len(),
            self.second.len(),
            self.weight.len(),
            self.due.len(),
            self.release.len(),
            self.cost.len(),
        ];
        let mut of_a_job: u64 = 1;
        for values in &choices {
            of_a_job = of_a_job.saturating_mul((*values as u64).max(1));
        }
        let jobs = u64::from(self.jobs);
        let arcs = match self.arcs {
            Arcs::Absent => 0,
            Arcs::Between => jobs.saturating_mul(jobs.saturating_sub(1)),
            Arcs::All => jobs.saturating_mul(jobs),
        };
        let of_arcs = u32::try_from(arcs).map_or(u64::MAX, |arcs| 2u64.saturating_pow(arcs));
        of_a_job.saturating_pow(self.jobs).saturating_mul(of_arcs)
    }
}
