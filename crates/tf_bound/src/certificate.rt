//! Certificates of lower bounds, of every kind, and their judge.
ghost use Rattle.std.specs.Prelude.{IfOk};
ghost use Rattle.tf_posed.specs.ProblemCost.{IsLowerBound};
ghost use Rattle.tf_bound.specs.Faulted.{certificate_fault, NamesFault};
ghost use Rattle.tf_bound.specs.Certified.{IsBoundBy, IsValueOn, NamesFaultBy};

use crate::alike::{crowd_bound, one_job_bound, window_bound};
use crate::alone::alone_bound;
use crate::fault::BoundFault;
use crate::kept_weight::late_bound;
use crate::machine::machine_bound;
use crate::machine_prices::machine_prices_bound;
use crate::multipliers::multipliers_bound;
use crate::parts::{Interval, parts_bound};
use crate::potentials::potentials_bound;
use crate::prices::prices_bound;
use crate::pushed::judged_task;
use crate::ranks::ranks_bound;
use crate::shortest::shortest_bound;
use crate::split::{Pair, split_bound};
use crate::task::ProblemTask;
use std::alloc::{Allocator, Global};
use tf_model::ids::JobId;

/// What shows that no timetable of a task costs less than a number. Machines count from 0.
#[derive(Drop)]
pub enum BoundCertificate<A: Allocator = Global> {
    /// Some jobs on one machine.
    Machine {
        machine: usize,
        jobs: Vec<JobId, A>,
    },
    /// Some jobs, on one machine or on identical ones.
    Window {
        jobs: Vec<JobId, A>,
    },
    /// More than `h` jobs for each machine.
    Crowd {
        h: u32,
        jobs: Vec<JobId, A>,
    },
    /// One job.
    OneJob {
        job: JobId,
    },
    /// Numerators over q, job by job, and arc by arc or none.
    Multipliers {
        machine: usize,
        q: u64,
        numerators: Vec<u64, A>,
        arcs: Vec<u64, A>,
    },
    /// Prices of the unit rows from 0 on, over q.
    Prices {
        q: u64,
        rows: Vec<u64, A>,
    },
    /// Prices of the unit rows from 0 on, over q, on one machine of a shop.
    MachinePrices {
        machine: usize,
        q: u64,
        rows: Vec<u64, A>,
    },
    /// Each job by itself, from its release date on, or from the one that follows by the arcs.
    Alone,
    /// Some jobs by due date: how many of them are late, or what these weigh.
    Kept {
        jobs: Vec<JobId, A>,
    },
    /// Some jobs by release date, on one machine: the shortest remaining time is always next.
    Shortest {
        jobs: Vec<JobId, A>,
    },
    /// Some jobs by falling time, each counted by its rank on the machines.
    Ranks {
        jobs: Vec<JobId, A>,
    },
    /// Two machines of a permutation flow shop, with the jobs of a side, which count on the first,
    /// and `delta`, which a job reaches on the first machine or on the second.
    Split {
        first: usize,
        second: usize,
        delta: u64,
        by_first: bool,
        side: Vec<JobId, A>,
    },
    /// Some jobs that have more to do in an interval than there is room for, if each is to be less
    /// late than `late`.
    Parts {
        from: u64,
        until: u64,
        late: i64,
        jobs: Vec<JobId, A>,
    },
    /// A number for the end of the last job of a no-wait flow shop, and two for each job: towards
    /// the job after it and towards the one before it.
    Potentials {
        numbers: Vec<i64, A>,
    },
}

impl<A: Allocator> BoundCertificate<A> {
    /// Its value on a task, whose dates are those that follow by its arcs, for the makespan or the
    /// maximum lateness. No timetable that fits the task costs less.
    pub fn bound<B: Allocator + Copy, C: Allocator>(
        &self,
        alloc: B,
        task: &ProblemTask<C>,
    ) -> Result<i128, BoundFault>
        ensures fault { NamesFaultBy task.now self.now result }
        ensures value { IfOk result (IsBoundBy task.now self.now) }
        ensures bound { IfOk result (IsLowerBound task.now) }
    {
        match judged_task(alloc, task)? {
            Some(judged) => self.bound_on(alloc, &judged),
            None => self.bound_on(alloc, task),
        }
    }

    /// Its value on a task as it is, whatever its arcs. No timetable that fits the task costs less.
    pub fn bound_on<B: Allocator + Copy, C: Allocator>(
        &self,
        alloc: B,
        task: &ProblemTask<C>,
    ) -> Result<i128, BoundFault>
        ensures fault { NamesFault (certificate_fault task.now self.now) result }
        ensures value { IfOk result (IsValueOn task.now self.now) }
        ensures bound { IfOk result (IsLowerBound task.now) }
    {
        match self {
            BoundCertificate::Machine { machine, jobs } => {
                machine_bound(alloc, task, *machine, jobs)
            }
            BoundCertificate::Window { jobs } => window_bound(alloc, task, jobs),
            BoundCertificate::Crowd { h, jobs } => crowd_bound(alloc, task, *h, jobs),
            BoundCertificate::OneJob { job } => one_job_bound(task, *job),
            BoundCertificate::Multipliers {
                machine,
                q,
                numerators,
                arcs,
            } => multipliers_bound(alloc, task, *machine, numerators, arcs, *q),
            BoundCertificate::Prices { q, rows } => prices_bound(alloc, task, *q, rows),
            BoundCertificate::MachinePrices { machine, q, rows } => {
                machine_prices_bound(alloc, task, *machine, *q, rows)
            }
            BoundCertificate::Alone => alone_bound(alloc, task),
            BoundCertificate::Kept { jobs } => late_bound(alloc, task, jobs),
            BoundCertificate::Shortest { jobs } => shortest_bound(alloc, task, jobs),
            BoundCertificate::Ranks { jobs } => ranks_bound(alloc, task, jobs),
            BoundCertificate::Split {
                first,
                second,
                delta,
                by_first,
                side,
            } => {
                let pair = Pair {
                    first: *first,
                    second: *second,
                    delta: *delta,
                    by_first: *by_first,
                };
                split_bound(alloc, task, pair, side)
            }
            BoundCertificate::Parts {
                from,
                until,
                late,
                jobs,
            } => {
                let interval = Interval {
                    from: *from,
                    until: *until,
                    late: *late,
                };
                parts_bound(alloc, task, interval, jobs)
            }
            BoundCertificate::Potentials { numbers } => potentials_bound(task, numbers),
        }
    }
}
