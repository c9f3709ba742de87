//! One machine that at each time runs the released job that stands first in a list.
use crate::slots::{item_at, number_at, set_number};
use crate::table::TaskTable;
use std::alloc::{Allocator, Global};
use std::cmp::Reverse;
use std::collections::BinaryHeap;
use tf_model::memory::OutOfMemory;

/// A run of a job, counted from 0.
#[derive(Clone, Copy, Debug)]
pub struct Run {
    pub job: usize,
    pub start: u64,
    pub stop: u64,
    /// Whether the job is completed.
    pub is_last: bool,
}

/// The runs of a list, one after another.
#[derive(Drop)]
pub struct Preemption<A: Allocator = Global> {
    // The jobs by release date.
    released: Vec<u32, A>,
    // The work of each job that is left.
    left: Vec<u64, A>,
    // The places of the jobs that are released and not completed.
    waiting: BinaryHeap<Reverse<u32>, A>,
    next: usize,
    now: u64,
}

impl<A: Allocator + Copy> Preemption<A> {
    /// Of no job.
    pub fn idle(alloc: A) -> Self {
        Preemption {
            released: Vec::new(alloc),
            left: Vec::new(alloc),
            waiting: BinaryHeap::new(alloc),
            next: 0,
            now: 0,
        }
    }

    /// No run yet, of the jobs of a table.
    pub fn new<B: Allocator>(alloc: A, table: &TaskTable<B>) -> Result<Self, OutOfMemory> {
        let count = table.jobs.len();
        let mut released = Vec::with_capacity(alloc, count)?;
        let mut keys = Vec::with_capacity(alloc, count)?;
        for job in 0..count {
            let number = u32::try_from(job).unwrap_or(u32::MAX);
            keys.push((table.job(job).release, number))?;
        }
        keys.sort_unstable();
        for key in &keys {
            released.push(key.1)?;
        }
        Ok(Preemption {
            released,
            left: vec![in alloc; 0_u64; count]?,
            waiting: BinaryHeap::with_capacity(alloc, count)?,
            next: 0,
            now: 0,
        })
    }
}

impl<A: Allocator> Preemption<A> {
    /// Goes back to time 0.
    pub fn restart<B: Allocator>(&mut self, table: &TaskTable<B>) {
        for (left, job) in self.left.iter_mut().zip(&table.jobs) {
            *left = job.work;
        }
        self.waiting.clear();
        self.next = 0;
        self.now = 0;
    }

    // The next job to be released, and when.
    fn coming<B: Allocator>(&self, table: &TaskTable<B>) -> Option<u64> {
        let job = self.released.get(self.next)?;
        Some(table.job(*job as usize).release)
    }

    // Adds the jobs that are released by now.
    fn release<B: Allocator>(
        &mut self,
        table: &TaskTable<B>,
        places: &[u32],
    ) -> Result<(), OutOfMemory> {
        for next in self.next..self.released.len() {
            let job = item_at(&self.released, next);
            if table.job(job).release > self.now {
                return Ok(());
            }
            let place = places.get(job).copied().unwrap_or(0);
            self.waiting.push(Reverse(place))?;
            self.next = next.wrapping_add(1);
        }
        Ok(())
    }

    /// The next run of a list in which each job has its place, until the job is completed or
    /// another one is released. None when all jobs are completed.
    pub fn run<B: Allocator>(
        &mut self,
        table: &TaskTable<B>,
        list: &[u32],
        places: &[u32],
    ) -> Result<Option<Run>, OutOfMemory> {
        if self.waiting.is_empty() {
            let Some(release) = self.coming(table) else {
                return Ok(None);
            };
            self.now = self.now.max(release);
        }
        self.release(table, places)?;
        let Some(Reverse(place)) = self.waiting.peek().copied() else {
            return Ok(None);
        };
        let job = item_at(list, place as usize);
        let left = number_at(&self.left, job);
        let time = match self.coming(table) {
            Some(release) => left.min(release.saturating_sub(self.now)),
            None => left,
        };
        let start = self.now;
        self.now = start.wrapping_add(time);
        set_number(&mut self.left, job, left.saturating_sub(time));
        if time == left {
            self.waiting.pop();
        }
        Ok(Some(Run {
            job,
            start,
            stop: self.now,
            is_last: time == left,
        }))
    }
}
