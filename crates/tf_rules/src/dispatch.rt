//! Dispatching in a job shop: whenever a machine is free and an operation waits for it, it takes
//! the one of the least key (a non-delay schedule, as Giffler and Thompson 1960 make them too).
use crate::keys::keys_of;
use crate::rule::Rule;
use std::alloc::Allocator;
use std::cmp::Reverse;
use std::collections::BinaryHeap;
use tf_decode::routes::Operation;
use tf_decode::slots::{number_at, set_number};
use tf_decode::table::TaskTable;
use tf_model::memory::OutOfMemory;

// What ratios are written over.
const SCALE: i128 = 1_000_000;

// What happens at a time. Operations come before machines choose.
#[derive(Clone, Copy, Debug, PartialEq, Eq, PartialOrd, Ord)]
enum Event {
    // An operation can begin.
    Ready(u32),
    // A machine may be free.
    Free(u32),
}

// The operations that wait for a machine: their keys and numbers.
type Queue<A> = BinaryHeap<Reverse<(i128, u32)>, A>;

// What dispatching keeps.
#[derive(Drop)]
struct Dispatch<A: Allocator> {
    events: BinaryHeap<Reverse<(u64, Event)>, A>,
    // The operations that wait for each machine, and since when it is free.
    queues: Vec<Queue<A>, A>,
    free: Vec<u64, A>,
    // How many predecessors of each job are not completed, and when those that are were.
    missing: Vec<u64, A>,
    ready: Vec<u64, A>,
    // The key of each job, and the work of its operations that are left.
    keys: Vec<i128, A>,
    left: Vec<u64, A>,
    rule: Rule,
    list: Vec<u32, A>,
}

/// The operations in the order in which they start.
pub(crate) fn dispatched<A: Allocator + Copy, B: Allocator>(
    alloc: A,
    table: &TaskTable<B>,
    rule: Rule,
) -> Result<Vec<u32, A>, OutOfMemory> {
    let mut dispatch = Dispatch::new(alloc, table, rule)?;
    for job in 0..table.jobs.len() {
        dispatch.begin(table, job)?;
    }
    for _ in 0..table.items().saturating_mul(3) {
        let Some(Reverse((now, event))) = dispatch.events.pop() else {
            break;
        };
        match event {
            Event::Ready(operation) => dispatch.wait(table, operation, now)?,
            Event::Free(machine) => dispatch.choose(table, machine as usize, now)?,
        }
    }
    Ok(dispatch.list)
}

impl<A: Allocator + Copy> Dispatch<A> {
    fn new<B: Allocator>(alloc: A, table: &TaskTable<B>, rule: Rule) -> Result<Self, OutOfMemory> {
        let count = table.jobs.len();
        let mut dispatch = Dispatch {
            events: BinaryHeap::with_capacity(alloc, count)?,
            queues: Vec::with_capacity(alloc, table.machines)?,
            free: vec![in alloc; 0_u64; table.machines]?,
            missing: Vec::with_capacity(alloc, count)?,
            ready: Vec::with_capacity(alloc, count)?,
            keys: keys_of(alloc, table, rule)?,
            left: Vec::with_capacity(alloc, count)?,
            rule,
            list: Vec::with_capacity(alloc, table.items())?,
        };
        for _ in 0..table.machines {
            dispatch.queues.push(BinaryHeap::new(alloc))?;
        }
        for (job, numbers) in table.jobs.iter().enumerate() {
            dispatch.missing.push(table.before.of(job).len() as u64)?;
            dispatch.ready.push(numbers.release)?;
            dispatch.left.push(numbers.work)?;
        }
        Ok(dispatch)
    }
}

impl<A: Allocator> Dispatch<A> {
    // The first operation of a job comes, where its predecessors are completed.
    fn begin<B: Allocator>(&mut self, table: &TaskTable<B>, job: usize) -> Result<(), OutOfMemory> {
        if number_at(&self.missing, job) > 0 {
            return Ok(());
        }
        let first = u32::try_from(table.routes.begin(job)).unwrap_or(u32::MAX);
        let ready = number_at(&self.ready, job);
        self.events.push(Reverse((ready, Event::Ready(first))))?;
        Ok(())
    }

    // An operation waits for its machine.
    fn wait<B: Allocator>(
        &mut self,
        table: &TaskTable<B>,
        number: u32,
        now: u64,
    ) -> Result<(), OutOfMemory> {
        let operation = table.routes.at(number as usize);
        let key = self.key(table, operation);
        if let Some(queue) = self.queues.get_mut(operation.machine()) {
            queue.push(Reverse((key, number)))?;
        }
        let time = now.max(number_at(&self.free, operation.machine()));
        self.events
            .push(Reverse((time, Event::Free(operation.machine))))?;
        Ok(())
    }

    // The key of an operation that waits.
    fn key<B: Allocator>(&self, table: &TaskTable<B>, operation: Operation) -> i128 {
        let job = operation.job();
        let time = i128::from(operation.time);
        match self.rule {
            Rule::SmallestRatio => {
                time.wrapping_mul(SCALE) / i128::from(table.job(job).weight).max(1)
            }
            Rule::LongestWork => 0_i128.wrapping_sub(i128::from(number_at(&self.left, job))),
            Rule::LongestTail => {
                let done = table
                    .job(job)
                    .work
                    .saturating_sub(number_at(&self.left, job));
                let key = self.keys.get(job).copied().unwrap_or(0);
                key.wrapping_add(i128::from(done))
            }
            _ => self.keys.get(job).copied().unwrap_or(0),
        }
    }

    // A machine that is free takes the operation of the least key.
    fn choose<B: Allocator>(
        &mut self,
        table: &TaskTable<B>,
        machine: usize,
        now: u64,
    ) -> Result<(), OutOfMemory> {
        if number_at(&self.free, machine) > now {
            return Ok(());
        }
        let Some(queue) = self.queues.get_mut(machine) else {
            return Ok(());
        };
        let Some(Reverse((_, number))) = queue.pop() else {
            return Ok(());
        };
        self.list.push(number)?;
        let operation = table.routes.at(number as usize);
        let end = now.wrapping_add(operation.time);
        set_number(&mut self.free, machine, end);
        let is_empty = self
            .queues
            .get(machine)
            .is_none_or(|queue| queue.is_empty());
        if !is_empty {
            self.events
                .push(Reverse((end, Event::Free(operation.machine))))?;
        }
        self.complete(table, number, end)
    }

    // The next operation of the job comes, or else the jobs that follow it.
    fn complete<B: Allocator>(
        &mut self,
        table: &TaskTable<B>,
        number: u32,
        end: u64,
    ) -> Result<(), OutOfMemory> {
        let operation = table.routes.at(number as usize);
        let job = operation.job();
        let left = number_at(&self.left, job).saturating_sub(operation.time);
        set_number(&mut self.left, job, left);
        let next = number.wrapping_add(1);
        if (next as usize) < table.routes.end(job) {
            self.events.push(Reverse((end, Event::Ready(next))))?;
            return Ok(());
        }
        for other in table.after.of(job) {
            let follower = *other as usize;
            let missing = number_at(&self.missing, follower).saturating_sub(1);
            set_number(&mut self.missing, follower, missing);
            let ready = number_at(&self.ready, follower).max(end);
            set_number(&mut self.ready, follower, ready);
            self.begin(table, follower)?;
        }
        Ok(())
    }
}
