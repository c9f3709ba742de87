//! The operations of a shop, those of each job in the order of its route.
use crate::slots::{item_at, number_at};
use std::alloc::{Allocator, Global};
use tf_model::memory::OutOfMemory;

/// An operation: the job and the machine, counted from 0, and the time.
#[derive(Clone, Copy, Debug)]
pub struct Operation {
    pub job: u32,
    pub machine: u32,
    pub time: u64,
}

impl Operation {
    /// One that is not there.
    pub const NONE: Operation = Operation {
        job: u32::MAX,
        machine: u32::MAX,
        time: 0,
    };

    /// The job as a place.
    #[inline(always)]
    pub fn job(self) -> usize {
        self.job as usize
    }

    /// The machine as a place.
    #[inline(always)]
    pub fn machine(self) -> usize {
        self.machine as usize
    }
}

/// The operations of all jobs that take time, one job after another.
#[derive(Drop)]
pub struct Routes<A: Allocator = Global> {
    operations: Vec<Operation, A>,
    // Where the operations of each job end; those of the next begin there.
    ends: Vec<u32, A>,
}

impl<A: Allocator + Copy> Routes<A> {
    /// Those of no job.
    pub fn none(alloc: A) -> Self {
        Routes {
            operations: Vec::new(alloc),
            ends: Vec::new(alloc),
        }
    }
}

impl<A: Allocator> Routes<A> {
    /// Adds the next job: its machines in the order of its route, and a time for each machine.
    pub fn push_job(&mut self, route: &[u32], times: &[u64]) -> Result<(), OutOfMemory> {
        let job = u32::try_from(self.ends.len()).unwrap_or(u32::MAX);
        for machine in route {
            let time = number_at(times, *machine as usize);
            if time > 0 {
                self.operations.push(Operation {
                    job,
                    machine: *machine,
                    time,
                })?;
            }
        }
        self.ends
            .push(u32::try_from(self.operations.len()).unwrap_or(u32::MAX))?;
        Ok(())
    }

    /// The operations of all jobs.
    #[inline(always)]
    pub fn all(&self) -> &[Operation] {
        &self.operations
    }

    /// An operation, counted from 0 over all jobs.
    #[inline(always)]
    pub fn at(&self, operation: usize) -> Operation {
        self.operations
            .get(operation)
            .copied()
            .unwrap_or(Operation::NONE)
    }

    /// Where the operations of a job begin.
    #[inline(always)]
    pub fn begin(&self, job: usize) -> usize {
        match job.checked_sub(1) {
            Some(last) => item_at(&self.ends, last),
            None => 0,
        }
    }

    /// Where the operations of a job end.
    #[inline(always)]
    pub fn end(&self, job: usize) -> usize {
        item_at(&self.ends, job)
    }

    /// The operations of a job.
    #[inline(always)]
    pub fn of(&self, job: usize) -> &[Operation] {
        self.operations
            .get(self.begin(job)..self.end(job))
            .unwrap_or(&[])
    }
}
