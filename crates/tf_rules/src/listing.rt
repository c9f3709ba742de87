//! List scheduling: at each time the released job of the least key whose predecessors are over.
use std::alloc::Allocator;
use std::cmp::Reverse;
use std::collections::BinaryHeap;
use tf_decode::slots::{number_at, set_number};
use tf_decode::table::{Decoder, TaskTable};
use tf_model::memory::OutOfMemory;

// A job that waits for its release date or its predecessors: when they are over, its key, and its
// number.
type Waiting = Reverse<(u64, i128, u32)>;

// What list scheduling keeps.
#[derive(Drop)]
struct Listing<A: Allocator> {
    waiting: BinaryHeap<Waiting, A>,
    free_jobs: BinaryHeap<Reverse<(i128, u32)>, A>,
    free_machines: BinaryHeap<Reverse<u64>, A>,
    // How many predecessors of each job are not listed, and when those that are are completed.
    missing: Vec<u64, A>,
    ready: Vec<u64, A>,
}

/// The jobs by list scheduling with these keys.
pub(crate) fn listed<A: Allocator + Copy, B: Allocator>(
    alloc: A,
    table: &TaskTable<B>,
    keys: &[i128],
) -> Result<Vec<u32, A>, OutOfMemory> {
    let mut listing = Listing::new(alloc, table)?;
    for job in 0..table.jobs.len() {
        listing.wait(keys, job)?;
    }
    let mut list = Vec::with_capacity(alloc, table.jobs.len())?;
    for _ in 0..table.jobs.len() {
        let Some((job, start)) = listing.next()? else {
            return Ok(list);
        };
        list.push(job)?;
        listing.run(table, keys, job as usize, start)?;
    }
    Ok(list)
}

impl<A: Allocator + Copy> Listing<A> {
    fn new<B: Allocator>(alloc: A, table: &TaskTable<B>) -> Result<Self, OutOfMemory> {
        let count = table.jobs.len();
        let machines = match table.decoder {
            Decoder::Parallel => table.machines,
            _ => 1,
        };
        let mut listing = Listing {
            waiting: BinaryHeap::with_capacity(alloc, count)?,
            free_jobs: BinaryHeap::with_capacity(alloc, count)?,
            free_machines: BinaryHeap::with_capacity(alloc, machines)?,
            missing: Vec::with_capacity(alloc, count)?,
            ready: Vec::with_capacity(alloc, count)?,
        };
        for _ in 0..machines {
            listing.free_machines.push(Reverse(0))?;
        }
        for job in 0..count {
            listing.missing.push(table.before.of(job).len() as u64)?;
            listing.ready.push(table.job(job).release)?;
        }
        Ok(listing)
    }
}

impl<A: Allocator> Listing<A> {
    // A job waits for its date, where all its predecessors are listed.
    fn wait(&mut self, keys: &[i128], job: usize) -> Result<(), OutOfMemory> {
        if number_at(&self.missing, job) > 0 {
            return Ok(());
        }
        let key = keys.get(job).copied().unwrap_or(0);
        let number = u32::try_from(job).unwrap_or(u32::MAX);
        self.waiting
            .push(Reverse((number_at(&self.ready, job), key, number)))?;
        Ok(())
    }

    // The next job, and when its machine takes it.
    fn next(&mut self) -> Result<Option<(u32, u64)>, OutOfMemory> {
        let Some(Reverse(free)) = self.free_machines.pop() else {
            return Ok(None);
        };
        let mut start = free;
        if self.free_jobs.is_empty() {
            if let Some(Reverse(first)) = self.waiting.peek() {
                start = start.max(first.0);
            }
        }
        for _ in 0..self.waiting.len() {
            match self.waiting.peek() {
                Some(Reverse(first)) if first.0 <= start => {
                    let freed = Reverse((first.1, first.2));
                    self.waiting.pop();
                    self.free_jobs.push(freed)?;
                }
                _ => break,
            }
        }
        match self.free_jobs.pop() {
            Some(Reverse((_, job))) => Ok(Some((job, start))),
            None => Ok(None),
        }
    }

    // The job runs from its start on, and those that follow it by arcs when it is completed.
    fn run<B: Allocator>(
        &mut self,
        table: &TaskTable<B>,
        keys: &[i128],
        job: usize,
        start: u64,
    ) -> Result<(), OutOfMemory> {
        let work = table.job(job).work;
        let share = match table.decoder {
            Decoder::Flow | Decoder::FlowWithoutWait => number_at(table.times_of(job), 0),
            Decoder::OpenJobs
            | Decoder::OpenOperations
            | Decoder::OpenGaps
            | Decoder::JobOrder
            | Decoder::JobGaps => work.checked_div(table.machines as u64).unwrap_or(0),
            _ => work,
        };
        self.free_machines.push(Reverse(start.wrapping_add(share)))?;
        let end = start.wrapping_add(work);
        for other in table.after.of(job) {
            let next = *other as usize;
            let missing = number_at(&self.missing, next).saturating_sub(1);
            set_number(&mut self.missing, next, missing);
            let ready = number_at(&self.ready, next).max(end);
            set_number(&mut self.ready, next, ready);
            self.wait(keys, next)?;
        }
        Ok(())
    }
}
