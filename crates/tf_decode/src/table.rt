//! The numbers of a task that a search for a schedule reads at each step.
use crate::arcs::{Neighbours, Side};
use crate::measure::Measure;
use crate::routes::Routes;
use crate::slots::{item_at, number_at};
use std::alloc::{Allocator, Global};
use tf_model::ids::JobId;
use tf_model::memory::OutOfMemory;
use tf_model::problem::{Env, Problem};

/// The numbers of a job.
#[derive(Clone, Copy, Debug)]
pub struct JobNumbers {
    /// On all machines together.
    pub work: u64,
    pub weight: u64,
    pub release: u64,
    pub due: i64,
}

impl JobNumbers {
    /// Those of a job that is not there.
    pub const NONE: JobNumbers = JobNumbers {
        work: 0,
        weight: 0,
        release: 0,
        due: 0,
    };
}

/// How a list becomes a schedule.
#[derive(Clone, Copy, Debug, PartialEq, Eq)]
pub enum Decoder {
    /// One machine, one job after another.
    Machine,
    /// One machine with preemption: at each time the released job that stands first runs.
    Priorities,
    /// Each job on the machine that is free last among those that are free when it is ready, else
    /// on the first that is free.
    Parallel,
    /// A flow shop, one order for all machines.
    Flow,
    /// The same, and no job waits between its machines.
    FlowWithoutWait,
    /// An open shop: of each job the machines by when they are free.
    OpenJobs,
    /// An open shop whose items are operations: number of the job times machines, and the machine.
    OpenOperations,
    /// A job shop whose items are operations, counted over all jobs. No operation stands before
    /// those that it has to wait for.
    JobOperations,
    /// A job shop, one order for all machines.
    JobOrder,
    /// A job shop: of each job the operations into the first gaps of their machines.
    JobGaps,
    /// An open shop: the same, in the order in which the job is completed first.
    OpenGaps,
}

// The most operations of a shop whose jobs go into gaps, since these are searched for.
const MOST_IN_GAPS: usize = 20_000;

// The most jobs of an open shop without waits that go into gaps. Of more jobs a search does better
// that places them faster.
const MOST_OPEN_WITHOUT_WAIT: usize = 20;

impl Decoder {
    /// The decoder of a problem with so many jobs and operations.
    pub fn of(problem: &Problem, jobs: usize, operations: usize) -> Decoder {
        let is_plain = !problem.nwt && !problem.prmu;
        match problem.env {
            Env::Parallel => Decoder::Parallel,
            Env::Flow if problem.nwt => Decoder::FlowWithoutWait,
            Env::Flow => Decoder::Flow,
            Env::OpenShop if is_plain && !problem.prec => Decoder::OpenOperations,
            Env::OpenShop => open_shop_decoder(problem, jobs, operations),
            Env::JobShop => job_shop_decoder(problem, operations),
            _ if problem.prmp && is_plain => Decoder::Priorities,
            _ => Decoder::Machine,
        }
    }
}

// Where all jobs pass the machines in one order, none goes into a gap.
fn open_shop_decoder(problem: &Problem, jobs: usize, operations: usize) -> Decoder {
    let is_small = operations <= MOST_IN_GAPS && (!problem.nwt || jobs <= MOST_OPEN_WITHOUT_WAIT);
    if is_small && !problem.prmu {
        Decoder::OpenGaps
    } else {
        Decoder::OpenJobs
    }
}

// Where no job may wait its machines are looked for together. Sums gain more by whole jobs than by
// single operations.
fn job_shop_decoder(problem: &Problem, operations: usize) -> Decoder {
    let is_maximum = matches!(Measure::of(problem.goal), Measure::MaximumLateness);
    let is_small = operations <= MOST_IN_GAPS;
    if problem.prmu || (problem.nwt && !is_small) {
        Decoder::JobOrder
    } else if problem.nwt || (!is_maximum && is_small) {
        Decoder::JobGaps
    } else {
        Decoder::JobOperations
    }
}

/// The numbers of a task, and how its lists are decoded.
#[derive(Drop)]
pub struct TaskTable<A: Allocator = Global> {
    pub decoder: Decoder,
    pub measure: Measure,
    /// In a shop jobs have a time on each machine.
    pub is_shop: bool,
    pub has_arcs: bool,
    pub is_without_wait: bool,
    pub machines: usize,
    pub jobs: Vec<JobNumbers, A>,
    /// The times of each job: in a shop one for each machine, else one.
    pub times: Vec<u64, A>,
    /// The operations of each job of a job shop, or of an open shop whose jobs go into gaps.
    pub routes: Routes<A>,
    /// The jobs that precede each job by an arc.
    pub before: Neighbours<A>,
    /// The jobs that follow each job by an arc.
    pub after: Neighbours<A>,
    /// All jobs, counted from 0, in an order that keeps the arcs.
    pub order: Vec<u32, A>,
}

/// The numbers of all jobs of a task.
#[derive(Drop)]
pub struct TaskNumbers<A: Allocator = Global> {
    pub jobs: Vec<JobNumbers, A>,
    /// The times of each job: in a shop one for each machine, else one.
    pub times: Vec<u64, A>,
    /// The operations of each job of a job shop, or of an open shop whose jobs go into gaps.
    pub routes: Routes<A>,
    pub machines: usize,
}

impl<A: Allocator + Copy> TaskTable<A> {
    /// The table of a problem's task, with its arcs, and an order of all its jobs that keeps them.
    pub fn new(
        alloc: A,
        problem: &Problem,
        numbers: TaskNumbers<A>,
        arcs: &[(JobId, JobId)],
        order: &[JobId],
    ) -> Result<Self, OutOfMemory> {
        let arcs = if problem.prec { arcs } else { &[] };
        let count = numbers.jobs.len();
        let operations = match problem.env {
            Env::JobShop => numbers.routes.all().len(),
            _ => numbers.times.len(),
        };
        let decoder = Decoder::of(problem, count, operations);
        let mut table = TaskTable {
            decoder,
            measure: Measure::of(problem.goal),
            is_shop: problem.env.is_shop(),
            has_arcs: !arcs.is_empty(),
            is_without_wait: problem.nwt,
            machines: numbers.machines,
            jobs: numbers.jobs,
            times: numbers.times,
            routes: numbers.routes,
            before: Neighbours::new(alloc, count, arcs, Side::Second)?,
            after: Neighbours::new(alloc, count, arcs, Side::First)?,
            order: places_of(alloc, order)?,
        };
        if matches!(decoder, Decoder::Priorities) {
            table.push_releases();
        }
        Ok(table)
    }
}

// The places of jobs, counted from 0.
fn places_of<A: Allocator>(alloc: A, jobs: &[JobId]) -> Result<Vec<u32, A>, OutOfMemory> {
    let mut places = Vec::with_capacity(alloc, jobs.len())?;
    for job in jobs {
        places.push(job.get() - 1)?;
    }
    Ok(places)
}

impl<A: Allocator> TaskTable<A> {
    /// The numbers of a job, counted from 0.
    #[inline(always)]
    pub fn job(&self, job: usize) -> JobNumbers {
        self.jobs.get(job).copied().unwrap_or(JobNumbers::NONE)
    }

    /// The times of a job: in a shop one for each machine, else one.
    #[inline(always)]
    pub fn times_of(&self, job: usize) -> &[u64] {
        let width = if self.is_shop { self.machines } else { 1 };
        let from = job.wrapping_mul(width);
        self.times
            .get(from..from.wrapping_add(width))
            .unwrap_or(&[])
    }

    /// The job of an item of a list.
    #[inline(always)]
    pub fn job_of(&self, item: usize) -> usize {
        match self.decoder {
            Decoder::OpenOperations => item.checked_div(self.machines).unwrap_or(0),
            Decoder::JobOperations => self.routes.at(item).job(),
            _ => item,
        }
    }

    /// The number of items of a list.
    pub fn items(&self) -> usize {
        match self.decoder {
            Decoder::OpenOperations => self.times.len(),
            Decoder::JobOperations => self.routes.all().len(),
            _ => self.jobs.len(),
        }
    }

    /// When the jobs before it by arcs are completed, by the completion times, and it is released.
    #[inline(always)]
    pub fn ready(&self, job: usize, ends: &[u64]) -> u64 {
        let mut ready = self.job(job).release;
        if self.has_arcs {
            for other in self.before.of(job) {
                ready = ready.max(number_at(ends, *other as usize));
            }
        }
        ready
    }

    // No job is released before those that precede it can be completed, so that the order of
    // release dates keeps the arcs.
    fn push_releases(&mut self) {
        for place in 0..self.order.len() {
            let job = item_at(&self.order, place);
            let numbers = self.job(job);
            let end = numbers.release.wrapping_add(numbers.work);
            for other in self.after.of(job) {
                if let Some(later) = self.jobs.get_mut(*other as usize) {
                    later.release = later.release.max(end);
                }
            }
        }
    }
}
