//! Families of small tasks, drawn by a generator.
use super::small_task::{MOST_MACHINES, SmallJob, SmallTask};
use std::alloc::{AllocError, Global};
use tf_model::problem::{Env, Goal, Problem};

/// How large tasks are, and how many there are.
#[derive(Clone, Copy)]
pub struct Size {
    pub machines: usize,
    pub jobs: usize,
    pub tasks: u64,
}

/// Tasks of one problem and size. Their numbers count from 0.
#[derive(Clone, Copy)]
pub struct Family {
    pub problem: Problem,
    pub size: Size,
}

/// One machine, no condition, and the total completion time.
pub const PLAIN: Problem = Problem {
    env: Env::Single,
    count: None,
    release: false,
    prec: false,
    prmp: false,
    prmu: false,
    nwt: false,
    block: false,
    rcrc: false,
    goal: Goal::SumC,
};

// A linear congruential generator (Knuth's MMIX), of which the upper bits are used.
#[derive(Drop)]
struct Draws {
    state: u64,
}

impl Draws {
    fn pick(&mut self, values: &[i64]) -> i64 {
        self.state = self
            .state
            .wrapping_mul(6_364_136_223_846_793_005)
            .wrapping_add(1_442_695_040_888_963_407);
        let place = (self.state / 4_294_967_296) % (values.len() as u64).max(1);
        values.get(place as usize).copied().unwrap_or(0)
    }

    fn job(&mut self) -> SmallJob {
        let mut times = [0; MOST_MACHINES];
        for time in times.iter_mut() {
            *time = self.pick(&[1, 2, 3]);
        }
        SmallJob {
            times,
            weight: self.pick(&[0, 1, 2, 3]),
            release: self.pick(&[0, 1, 2, 3, 5]),
            due: self.pick(&[-1, 1, 2, 3, 4, 5, 6, 8]),
        }
    }

    fn jobs(&mut self, alloc: Global, count: usize) -> Result<Vec<SmallJob>, AllocError> {
        let mut jobs = Vec::new(alloc);
        for _ in 0..count {
            jobs.push(self.job())?;
        }
        Ok(jobs)
    }

    // Arcs between so many jobs, which lead from jobs to jobs after them.
    fn arcs(&mut self, alloc: Global, count: usize) -> Result<Vec<(usize, usize)>, AllocError> {
        let mut arcs = Vec::new(alloc);
        for after in 0..count {
            for before in 0..after {
                if self.pick(&[0, 0, 1]) > 0 {
                    arcs.push((before, after))?;
                }
            }
        }
        Ok(arcs)
    }
}

impl Family {
    /// The task of a number. Arcs lead from jobs to jobs after them.
    pub fn task(&self, alloc: Global, number: u64) -> Result<SmallTask, AllocError> {
        let mut draws = Draws { state: number };
        let jobs = draws.jobs(alloc, self.size.jobs)?;
        let arcs = if self.problem.prec {
            draws.arcs(alloc, self.size.jobs)?
        } else {
            Vec::new(alloc)
        };
        Ok(SmallTask {
            problem: self.problem,
            machines: self.size.machines,
            jobs,
            arcs,
        })
    }
}
